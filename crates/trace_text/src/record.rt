//! A recorder makes the steps of its seat, and keeps their text.
ghost use Rattle.std.specs.Prelude.{◌≡◌, ◌≢◌, ◌≤◌, ◌+◌, ℕ, true, false, [], Some, None, Option, IfOk, length, vec_len, vec_capacity, ◌∷◌};
ghost use Rattle.ring_core.specs.Told.{HeardJust, Memory, memory_after, answer_of, GoesOn, told_step};
ghost use Rattle.ring_core.specs.declared.told.Told.{Told};
ghost use Rattle.ring_machine.specs.PageCalls.{is_paging, is_under_way, next_in};
ghost use Rattle.ring_machine.specs.Steps.{is_busy_at, fed};
ghost use Rattle.ring_machine.specs.declared.place.Op.{Op};
ghost use Rattle.ring_machine.specs.declared.machine.Stage.TheVariants.{Stopped};
ghost use Rattle.trace_text.specs.Steps.{step_text};
ghost use Rattle.trace_text.specs.Recording.{Recorded, RecordsOn, kept, kept_in};
ghost use Rattle.trace_text.specs.Going.{goes_nowhere, goes_further};

use crate::recorder::Recorder;
use crate::step::step_line;
use ring_core::{EndCore, Op, Seatlike, Side};
use std::alloc::{AllocError, Global};
use std::mem;

// Keeps a line where it fits into so many bytes; from the first that doesn't on, none.
fn keep(text: &mut Vec<u8>, size: usize, full: bool, line: &[u8]) -> bool
    requires room { size ≤ vec_capacity text.old }
    requires within { vec_len text.old ≤ size }
    ensures kept { (result, text.new.items) ≡ kept_in full size text.old.items line.now }
    ensures room { size ≤ vec_capacity text.new }
    ensures within { vec_len text.new ≤ size }
{
    if full || size - text.len() < line.len() {
        return true;
    }
    let Ok(()) = text.extend_from_slice(line) else {
        unreachable!()
    };
    false
}

impl<S: Seatlike> Recorder<S> {
    /// A recorder of the steps of this end by this seat, whose channel has no data pages. It reserves `size` bytes for their text.
    pub fn make(alloc: Global, side: Side, seat: S, size: usize) -> Result<Recorder<S>, AllocError>
    where
        S: Drop,
        requires bare { S.pages seat ≡ 0 }
        ensures { IfOk result (λ r. r ≡ record { seat = seat; side = side; text = []; size = size; full = false }) }
    {
        Ok(Recorder {
            text: Vec::with_capacity(alloc, size)?,
            seat,
            side,
            size,
            full: false,
        })
    }

    /// The text of its steps so far, a line for each.
    pub fn text(&self) -> &[u8]
        ensures { result.now ≡ self.now.text }
    {
        &self.text
    }

    /// Whether a line didn't fit. From then on none is kept.
    pub fn full(&self) -> bool
        ensures { result ≡ self.now.full }
    {
        self.full
    }

    /// Exchanges the seats of two recorders, and leaves their texts. So two ends can run by turns over one seat, each with a text of its own.
    pub fn swap_seats(&mut self, other: &mut Recorder<S>)
        ensures this { self.new ≡ record self.old { seat = other.old.seat } }
        ensures that { other.new ≡ record other.old { seat = self.old.seat } }
    {
        mem::swap(&mut self.seat, &mut other.seat);
    }

    /// The seat itself.
    pub fn seat(&self) -> &S
        ensures { result.now ≡ self.now.seat }
    {
        &self.seat
    }
}

impl<S: Seatlike> Seatlike for Recorder<S> {
    ghost cells = { λ r. S.cells r.seat };

    ghost pages = { λ r. S.pages r.seat };

    ghost tale = { λ r. S.tale r.seat };

    ghost told = { λ r. S.told r.seat };

    ghost same = { λ r t. RecordsOn S.same S.cells S.tale S.told r t };

    ghost same_refl = { λ r. goes_nowhere S.same S.cells S.tale S.told r (S.same_refl r.seat) };

    ghost same_trans = { λ r t u p q. goes_further S.same S.cells S.tale S.told r t u (S.same_trans r.seat t.seat u.seat p.seat q.seat) p q };

    ghost same_pages = { λ r t p. S.same_pages r.seat t.seat p.seat };

    fn perform(&mut self, core: &EndCore, packet: &[u64]) -> u64
        requires busy { is_under_way core.now.machine.stage core.now.pages.call ≡ true }
        requires fits { core.now.machine.cells ≡ S.cells self.old.seat }
        requires pages { is_paging core.now.pages.call ≡ true → core.now.pages.count ≡ S.pages self.old.seat }
        requires goes_on { (u : Told) → S.told self.old.seat ≡ Some u → GoesOn (is_busy_at core.now.machine.stage) u.state core.now.machine core.now.pages.call packet.now }
        ensures runs { (m : Memory) (op : Op) → (S.tale self.old.seat).memory ≡ Some m → next_in core.now.machine core.now.pages.call packet.now ≡ Some op → ((S.tale self.new.seat).memory ≡ Some (memory_after core.now.machine.cells op m)) × (result ≡ answer_of core.now.machine.cells op m) }
        ensures hears { HeardJust (S.tale self.old.seat) (S.tale self.new.seat) (result ∷ []) }
        ensures same { RecordsOn S.same S.cells S.tale S.told self.old self.new }
        ensures cells { S.cells self.new.seat ≡ S.cells self.old.seat }
        ensures silent { S.told self.old.seat ≡ None → S.told self.new.seat ≡ None }
        ensures tells { (u : Told) → S.told self.old.seat ≡ Some u → (S.told self.new.seat ≡ Some (told_step (is_busy_at core.now.machine.stage) u core.now.machine core.now.pages.call packet.now result)) × ((fed core.now.machine result).stage ≢ Stopped) }
        ensures kept { (op : Op) → next_in core.now.machine core.now.pages.call packet.now ≡ Some op → (self.new.full, self.new.text) ≡ kept self.old (step_text self.old.side op result) }
        ensures rest { (self.new.side ≡ self.old.side) × (self.new.size ≡ self.old.size) }
    {
        let v = self.seat.perform(core, packet);
        if let Some(op) = core.next(packet) {
            let line = step_line(self.side, op, v);
            self.full = keep(&mut self.text, self.size, self.full, line.bytes());
        }
        v
    }
}
