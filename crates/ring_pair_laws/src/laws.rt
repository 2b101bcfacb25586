//! Laws of a pair, the two ends of one channel over a memory that nobody else changes, which one of them has at each moment: each function does
//! nothing, and its contract is a law. What the calls `send`, `commit` and `take` of an `End<SoloMem>` say of themselves is `SendSays`, `CommitSays`
//! and `TakeSays`.
ghost use Rattle.std.specs.Prelude.{◌≡◌, ℕ, ◌+◌, ◌/◌, ◌<◌, true, List, [], length, Result};
ghost use Rattle.channel_trace.specs.Laws.{AreOfOneRun};
ghost use Rattle.channel_trace.specs.Runs.{IsFront, sent_of, got_of};
ghost use Rattle.io_edge.specs.declared.side.Side.{Side};
ghost use Rattle.io_edge.specs.declared.side.Side.TheVariants.{Guest, Host};
ghost use Rattle.ring_machine.specs.declared.last.Signalled.{Signalled};
ghost use Rattle.ring_machine.specs.declared.last.SendRefusal.{SendRefusal};
ghost use Rattle.ring_machine.specs.declared.last.TakeRefusal.{TakeRefusal};
ghost use Rattle.ring_machine.specs.declared.place.Ring.TheVariants.{ToHost, ToGuest};
ghost use Rattle.ring_machine.specs.Places.{IsRingSize, peer_of};
ghost use Rattle.ring_machine.specs.States.{IsPacket, resting};
ghost use Rattle.ring_machine.specs.Steps.{machine_new};
ghost use Rattle.ring_core.specs.Seen.{Seen};
ghost use Rattle.ring_core.specs.Told.{Held, opening_with};
ghost use Rattle.ring_pair_laws.specs.Calls.{SendSays, CommitSays, TakeSays, IsAwakeAt, AfterSend, AfterCommit, AfterTake};
ghost use Rattle.ring_pair_laws.specs.Pair.{TwoEnds, IsPair, KeepsPair, Stays, called, cells_of, end_of, handed, memory_of, swapped};
ghost use Rattle.ring_pair_laws.specs.Spelled.{StandsFor};

/// Two new ends whose rings have `d` bytes of data, each over a new memory without data pages, are a pair. The guest's end has the channel's memory.
pub fn new_ends_are_a_pair()
    ensures { (d : ℕ) (s : TwoEnds) → IsRingSize d → s.guest.state ≡ resting (machine_new Guest (d / 8)) [] [] [] → s.host.state ≡ resting (machine_new Host (d / 8)) [] [] []
        → s.guest.seat ≡ record { cells = d / 8; pages = 0; memory = record { words = opening_with (d / 8) 0; steps = 0; due = [] } } → s.at ≡ Guest → IsPair s }
{}

/// Each ring stands for the packets that its producer sent and its consumer got: its cells spell those that aren't given back yet, and then those
/// that wait.
pub fn rings_stand_for_lists()
    ensures to_host { (s : TwoEnds) → IsPair s → StandsFor (cells_of s) (memory_of s).words ToHost s.guest.state s.host.state }
    ensures to_guest { (s : TwoEnds) → IsPair s → StandsFor (cells_of s) (memory_of s).words ToGuest s.host.state s.guest.state }
{}

/// A pair that hands the memory to an end is a pair over that memory, and nothing else of its ends is changed. Where the other end has it, that is an
/// exchange of the memories of two ends whose rings are of one size.
pub fn swaps_keep_the_pair()
    ensures size { (s : TwoEnds) → IsPair s → s.guest.state.machine.cells ≡ s.host.state.machine.cells }
    ensures exchange { (s : TwoEnds) → handed s (peer_of s.at) ≡ swapped s (peer_of s.at) }
    ensures pair { (s : TwoEnds) (x : Side) → IsPair s → IsPair (handed s x) }
    ensures memory { (s : TwoEnds) (x : Side) → memory_of (handed s x) ≡ memory_of s }
    ensures ends { (s : TwoEnds) (x y : Side) → Stays (end_of s y) (end_of (handed s x) y) }
{}

/// Each call of the end that has the channel's memory keeps the two ends and that memory together: a send, a take, a commit, an arm, a poll of the signal,
/// a mark, and a look for the peer's mark. The other end stays.
pub fn calls_keep_the_pair()
    ensures pair { (s : TwoEnds) (x : Side) → IsPair s → KeepsPair s x }
    ensures other { (s : TwoEnds) (x : Side) (new : Seen Held) → Stays (end_of s (peer_of x)) (end_of (called s x new) (peer_of x)) }
{}

/// An end that makes no step, and keeps its memory, keeps the pair, as where room is made in its lists.
pub fn room_keeps_the_pair()
    ensures { (s : TwoEnds) (x : Side) (new : Seen Held) → IsPair s → new.state ≡ (end_of s x).state → new.seat ≡ (end_of (handed s x) x).seat → IsPair (called s x new) }
{}

/// A send of a packet that fits, by an end that is awake, keeps the pair. It is Full exactly where the ring has no more room than the packet needs with its
/// trailer, and no other refusal comes. It raises the peer's signal exactly where `send_raises` says.
pub fn sends_meet_the_room()
    ensures { (s : TwoEnds) (x : Side) (q : List ℕ) (new : Seen Held) (result : Result Signalled SendRefusal) → IsPair s → IsAwakeAt s x → IsPacket q → length q + 1 < (end_of s x).state.machine.cells
        → SendSays (end_of (handed s x) x) new q result → AfterSend s (called s x new) x q result }
{}

/// A commit by an end that is awake keeps the pair. It raises the peer's signal exactly where `commit_raises` says, and changes no other word than the read
/// word and that signal.
pub fn commits_give_back()
    ensures { (s : TwoEnds) (x : Side) (new : Seen Held) (answer : Signalled) → IsPair s → IsAwakeAt s x → CommitSays (end_of (handed s x) x) new answer → AfterCommit s (called s x new) x answer }
{}

/// A take by an end that is awake keeps the pair. It gives the first packet that waits. It is Empty exactly where none waits, and no other refusal comes.
pub fn takes_give_the_first()
    ensures { (s : TwoEnds) (x : Side) (new : Seen Held) (result : Result (List ℕ) TakeRefusal) → IsPair s → IsAwakeAt s x → TakeSays (end_of (handed s x) x) new result → AfterTake s (called s x new) x result }
{}

/// Each end of a pair got the front of what the other one sent, and all of it where it is drained. What the two ends did is one run, and their lists are
/// those of their pasts.
pub fn pairs_are_of_one_run()
    ensures fronts { (s : TwoEnds) → IsPair s → IsFront s.guest.state.got s.host.state.sent × IsFront s.host.state.got s.guest.state.sent }
    ensures guest_drained { (s : TwoEnds) → IsPair s → s.guest.state.machine.drained ≡ true → s.guest.state.got ≡ s.host.state.sent }
    ensures host_drained { (s : TwoEnds) → IsPair s → s.host.state.machine.drained ≡ true → s.host.state.got ≡ s.guest.state.sent }
    ensures run { (s : TwoEnds) → IsPair s → AreOfOneRun s.guest.state.past s.host.state.past }
    ensures guest_past { (s : TwoEnds) → IsPair s → (s.guest.state.sent ≡ sent_of s.guest.state.past) × (s.guest.state.got ≡ got_of s.guest.state.past) }
    ensures host_past { (s : TwoEnds) → IsPair s → (s.host.state.sent ≡ sent_of s.host.state.past) × (s.host.state.got ≡ got_of s.host.state.past) }
{}
