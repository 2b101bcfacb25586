//! A seat over words that a peer may change at any moment.
ghost use Rattle.std.specs.Prelude.{◌≡◌, ◌/◌, ◌≤◌, Some, true};
ghost use Rattle.ring_machine.specs.Inside.{IsOpOf};
ghost use Rattle.ring_machine.specs.Places.{words_of};
ghost use Rattle.ring_machine.specs.PageCalls.{is_paging, is_under_way};
ghost use Rattle.ring_machine.specs.Steps.{next_of};
ghost use Rattle.ring_machine.specs.declared.place.Op.{Op as OneOp};
ghost use Rattle.example_calls.specs.Shared.{MadeStep};

use crate::words::Words;
use ring_core::{EndCore, Op, Seatlike, mark_index, place_index, signal_index};

/// An end's place at the words of a channel that somebody else shares.
#[derive(Drop)]
pub struct SharedSeat<W: Words> {
    words: W,
    cells: u32,
    ghost whole: { words_of cells ≤ W.count words },
}

impl<W: Words> SharedSeat<W> {
    /// A seat over these words, of a channel whose rings have `d` bytes of data.
    pub fn over(words: W, d: u32) -> SharedSeat<W>
        requires { words_of (d / 8) ≤ W.count words }
        ensures { (result.words ≡ words) × (result.cells ≡ d / 8) }
    {
        SharedSeat {
            words,
            cells: d / 8,
        }
    }

    // Makes one step.
    fn make(&mut self, op: Op) -> u64
        requires { IsOpOf self.old.cells 0 op }
        ensures made { MadeStep W.loads W.stores W.swaps self.old.cells op result self.old.words self.new.words }
        ensures cells { self.new.cells ≡ self.old.cells }
    {
        match op {
            Op::Load(place) => self.words.load(place_index(self.cells, place)),
            Op::Store(place, value) => {
                self.words.store(place_index(self.cells, place), value);
                0
            }
            Op::Raise(side) => {
                self.words.store(signal_index(self.cells, side), 1);
                0
            }
            Op::TakeSignal(side) => self.words.swap(signal_index(self.cells, side), 0),
            Op::StoreMark(side) => {
                self.words.store(mark_index(self.cells, side), 1);
                0
            }
        }
    }
}

impl<W: Words> Seatlike for SharedSeat<W> {
    ghost use Rattle.std.specs.Prelude.{None, refl};
    ghost use Rattle.ring_core.specs.Told.{tells_nothing};

    ghost cells = { λ s. s.cells };

    ghost pages = { λ _. 0 };

    ghost tale = { λ _. tells_nothing };

    ghost told = { λ _. None };

    ghost same = { λ _ _. Unit {0} };

    ghost same_refl = { λ _. tt };

    ghost same_trans = { λ _ _ _ _ _. tt };

    ghost same_pages = { λ _ _ _. refl };

    fn perform(&mut self, core: &EndCore, packet: &[u64]) -> u64
        requires busy { is_under_way core.now.machine.stage core.now.pages.call ≡ true }
        requires fits { core.now.machine.cells ≡ self.old.cells }
        requires pages { is_paging core.now.pages.call ≡ true → core.now.pages.count ≡ 0 }
        ensures made { (op : OneOp) → next_of core.now.machine packet.now ≡ Some op → MadeStep W.loads W.stores W.swaps self.old.cells op result self.old.words self.new.words }
        ensures cells { self.new.cells ≡ self.old.cells }
    {
        match core.next(packet) {
            Some(op) => self.make(op),
            None => unreachable!(),
        }
    }
}
