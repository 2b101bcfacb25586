//! What makes an end's word steps.
use ring_machine::EndCore;

/// A place from which an end's steps are made: words in memory, a table that two threads share, or a list of changes by a peer.
pub trait Seatlike {
    ghost use Rattle.std.specs.Prelude.{◌≡◌, ◌≢◌, ℕ, true, [], ◌∷◌, Option, Some, None};
    ghost use Rattle.ring_core.specs.Told.{HeardJust, Memory, memory_after, answer_of, GoesOn, told_step, Tale};
    ghost use Rattle.ring_core.specs.declared.told.Told.{Told};
    ghost use Rattle.ring_machine.specs.PageCalls.{is_paging, is_under_way, next_in};
    ghost use Rattle.ring_machine.specs.Steps.{is_busy_at, fed};
    ghost use Rattle.ring_machine.specs.declared.place.Op.{Op};
    ghost use Rattle.ring_machine.specs.declared.machine.Stage.TheVariants.{Stopped};

    /// The cells of each of the channel's rings.
    ghost cells: { Self → ℕ };

    /// The channel's data pages.
    ghost pages: { Self → ℕ };

    /// What the seat tells of the channel's words, each where it does: the memory, which counts the seat's steps, and what its own steps answered so far, the last
    /// one first.
    ghost tale: { Self → Tale };

    /// The state of the end after its last step, and how many steps it has made, where the seat tells them.
    ghost told: { Self → Option Told };

    /// A later state of one and the same seat.
    ghost same: { Self → Self → Type 0 };

    /// Makes exactly the one step that `core.next(packet)` names, and gives the loaded or exchanged value, or 0 for a store.
    fn perform(&mut self, core: &EndCore, packet: &[u64]) -> u64
        requires busy { is_under_way core.now.machine.stage core.now.pages.call ≡ true }
        requires fits { core.now.machine.cells ≡ cells self.old }
        requires pages { is_paging core.now.pages.call ≡ true → core.now.pages.count ≡ pages self.old }
        requires goes_on { (u : Told) → told self.old ≡ Some u → GoesOn (is_busy_at core.now.machine.stage) u.state core.now.machine core.now.pages.call packet.now }
        ensures runs { (m : Memory) (op : Op) → (tale self.old).memory ≡ Some m → next_in core.now.machine core.now.pages.call packet.now ≡ Some op → ((tale self.new).memory ≡ Some (memory_after core.now.machine.cells op m)) × (result ≡ answer_of core.now.machine.cells op m) }
        ensures hears { HeardJust (tale self.old) (tale self.new) (result ∷ []) }
        ensures same { same self.old self.new }
        ensures cells { cells self.new ≡ cells self.old }
        ensures silent { told self.old ≡ None → told self.new ≡ None }
        ensures tells { (u : Told) → told self.old ≡ Some u → (told self.new ≡ Some (told_step (is_busy_at core.now.machine.stage) u core.now.machine core.now.pages.call packet.now result)) × ((fed core.now.machine result).stage ≢ Stopped) };

    ghost same_refl: { (s : Self) → same s s };

    ghost same_trans: { (s t u : Self) → same s t → same t u → same s u };

    ghost same_pages: { (s t : Self) → same s t → pages t ≡ pages s };
}
