//! Laws of the rule: each function does nothing, and its contract is a law.
ghost use Rattle.std.specs.Prelude.{◌≡◌, ◌⊎◌, ℕ, true, false, List, Some, slice_index};
ghost use Rattle.io_edge.specs.declared.side.Side.{Side};
ghost use Rattle.io_edge.specs.declared.side.Side.TheVariants.{Guest, Host};
ghost use Rattle.ring_machine.specs.declared.machine.EndMachine.{EndMachine};
ghost use Rattle.ring_machine.specs.declared.machine.Stage.TheVariants.{Stopped, SendCell, SendWrite, TakeFirst, TakeCell};
ghost use Rattle.ring_machine.specs.declared.state.EndState.{EndState};
ghost use Rattle.ring_machine.specs.declared.place.Op.{Op};
ghost use Rattle.ring_machine.specs.Places.{out_of, in_of, peer_of, mark_of};
ghost use Rattle.ring_machine.specs.Steps.{next_of, is_arming_at, is_waking_at};
ghost use Rattle.ring_machine.specs.States.{after, entered, Begins};
ghost use Rattle.ring_core.specs.Told.{written, answer_in};
ghost use Rattle.ring_machine.specs.declared.place.Ring.TheVariants.{ToHost, ToGuest};
ghost use Rattle.ring_pair_laws.specs.Ring.{ring_in};
ghost use Rattle.ring_pair_laws.specs.Spelled.{StandsFor, HasRoom, HasSeen};
ghost use Rattle.ring_seat.specs.Rule.{ChannelInvariant, with_end};
ghost use Rattle.ring_seat.specs.Waking.{WakeCause};
ghost use Rattle.ring_seat.specs.Whole.{StepKeeps, CallKeeps, StoreKeeps, LoadKeeps, NewKeeps, FrontTells, EndTells};

/// Each step that an end makes keeps the rule, from any words and ends that meet it, and where a call begins it holds too. The step uses the end's
/// own state and the value that it loads.
pub fn steps_keep_the_rule()
    ensures step { (n : ℕ) (ws : List ℕ) (ends : Side → EndState) (x : Side) (op : Op) → ChannelInvariant n ws ends → next_of (ends x).machine (ends x).packet ≡ Some op
        → ChannelInvariant n (written n op ws) (with_end x (after (ends x) (answer_in n op ws)) ends) }
    ensures begin { (n : ℕ) (ws : List ℕ) (ends : Side → EndState) (x : Side) (m : EndMachine) (p : List ℕ) → ChannelInvariant n ws ends → Begins (ends x) m p
        → ChannelInvariant n ws (with_end x (entered (ends x) m p) ends) }
{}

/// An end that is awake, with no arm and no poll under way, has mask 1 and pending 0.
pub fn awake_words()
    ensures { (n : ℕ) (ws : List ℕ) (ends : Side → EndState) (x : Side) → ChannelInvariant n ws ends → (ends x).machine.asleep ≡ false → is_arming_at (ends x).machine.stage ≡ false
        → is_waking_at (ends x).machine.stage ≡ false → (ring_in n ws (in_of x) 2 ≡ 1) × (ring_in n ws (out_of x) 3 ≡ 0) }
{}

/// An end that is asleep has given back all that it took, has mask 0 and pending as the room that it wants, and each of its looks has its cause: there is
/// nothing for it, or its signal is up, or its peer is still inside the call that raises it.
pub fn asleep_words()
    ensures words { (n : ℕ) (ws : List ℕ) (ends : Side → EndState) (x : Side) → ChannelInvariant n ws ends → (ends x).machine.asleep ≡ true
        → ((ends x).machine.start ≡ (ends x).machine.read) × (ring_in n ws (in_of x) 2 ≡ 0) × (ring_in n ws (out_of x) 3 ≡ (ends x).machine.want) }
    ensures looks { (n : ℕ) (ws : List ℕ) (ends : Side → EndState) (x : Side) → ChannelInvariant n ws ends → (ends x).machine.asleep ≡ true
        → WakeCause n ws x (ends x).machine (ends (peer_of x)).machine }
{}

/// A mark that an end saw is up.
pub fn seen_marks_are_up()
    ensures { (n : ℕ) (ws : List ℕ) (ends : Side → EndState) (x : Side) → ChannelInvariant n ws ends → (ends x).machine.peer_marked ≡ true → slice_index ws (mark_of n (peer_of x)) ≡ 1 }
{}

/// A drained end got all that its peer sent.
pub fn drained_got_all()
    ensures { (n : ℕ) (ws : List ℕ) (ends : Side → EndState) (x : Side) → ChannelInvariant n ws ends → (ends x).machine.drained ≡ true → (ends x).got ≡ (ends (peer_of x)).sent }
{}

/// At each moment, also inside a call, each ring stands for the packets that its producer sent and its consumer got: its words are their indices, and its
/// cells spell those that aren't given back yet, and then those that wait.
pub fn rings_stand_for_lists()
    ensures to_host { (n : ℕ) (ws : List ℕ) (ends : Side → EndState) → ChannelInvariant n ws ends → StandsFor n ws ToHost (ends Guest) (ends Host) }
    ensures to_guest { (n : ℕ) (ws : List ℕ) (ends : Side → EndState) → ChannelInvariant n ws ends → StandsFor n ws ToGuest (ends Host) (ends Guest) }
{}

/// A send that found room and hasn't stored the write index yet: the read index that it loaded left more room than the packet needs, and the ring has no
/// less now. The cells that it has stored hold the packet's words, and then its trailer.
pub fn sends_have_room()
    ensures guest { (n : ℕ) (ws : List ℕ) (ends : Side → EndState) → ChannelInvariant n ws ends → ((ends Guest).machine.stage ≡ SendCell) ⊎ ((ends Guest).machine.stage ≡ SendWrite) → HasRoom n ws ToHost (ends Guest) (ends Host) }
    ensures host { (n : ℕ) (ws : List ℕ) (ends : Side → EndState) → ChannelInvariant n ws ends → ((ends Host).machine.stage ≡ SendCell) ⊎ ((ends Host).machine.stage ≡ SendWrite) → HasRoom n ws ToGuest (ends Host) (ends Guest) }
{}

/// A take that loaded the write index and isn't over: the cells from the read index to there spell the first of the packets that wait, and each word that
/// it has copied is that of its cell.
pub fn takes_see_packets()
    ensures guest { (n : ℕ) (ws : List ℕ) (ends : Side → EndState) → ChannelInvariant n ws ends → ((ends Guest).machine.stage ≡ TakeFirst) ⊎ ((ends Guest).machine.stage ≡ TakeCell) → HasSeen n ws ToGuest (ends Host) (ends Guest) }
    ensures host { (n : ℕ) (ws : List ℕ) (ends : Side → EndState) → ChannelInvariant n ws ends → ((ends Host).machine.stage ≡ TakeFirst) ⊎ ((ends Host).machine.stage ≡ TakeCell) → HasSeen n ws ToHost (ends Guest) (ends Host) }
{}

/// In a channel with data pages both the rule of its rings and the rule of its pages hold at first. Each step of a ring, each call that begins, each store of a
/// page word by an end that may store it, and each load of a word that is due keeps them. The packets that an end got with their page words are the front of
/// its peer's, and where it has nothing to load they are all that it got, and all that the peer sent where it is drained.
pub fn pages_keep_the_rule()
    ensures new { NewKeeps }
    ensures step { StepKeeps }
    ensures begin { CallKeeps }
    ensures store { StoreKeeps }
    ensures load { LoadKeeps }
    ensures front { FrontTells }
    ensures got { EndTells }
{}
