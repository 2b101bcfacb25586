//! A seat of an end at open memory.
ghost use Rattle.std.specs.Prelude.{◌≡◌, ◌≤◌, ◌+◌, ◌*◌, true, []};
ghost use Rattle.std.specs.Arc.{arc_value};
ghost use Rattle.ring_machine.specs.Places.{words_of};
ghost use Rattle.ring_machine.specs.PageCalls.{is_paging, is_under_way};
ghost use Rattle.hostile_memory.specs.Open.{IsHeard};

use crate::rule::{Board, Intent, Loads, OpenRule, OpenView, Stores};
use atomic_table::{Seat, Table};
use ring_core::{EndCore, Op, Seatlike, Side, mark_index, place_index, signal_index};
use ring_sleep::Parks;
use std::alloc::Global;
use std::marker::Brand;
use std::sync::{Arc, Wait};

// Makes the step that the machine names, and no other one.
#[inline(always)]
fn perform_as<J: Intent>(
    board: &Board,
    seat: &mut Seat<(), OpenView>,
    core: &EndCore,
    packet: &[u64],
) -> u64
    requires seated { seat.old.table_id ≡ board.now.table_id }
    requires sized { words_of core.now.machine.cells ≤ board.now.table_id.words }
    requires pages { is_paging core.now.pages.call ≡ true → board.now.table_id.words ≡ words_of core.now.machine.cells + 512 * core.now.pages.count }
    requires empty { seat.old.me.1 ≡ [] }
    requires busy { is_under_way core.now.machine.stage core.now.pages.call ≡ true }
    requires base { J.base ≡ record { machine = core.now.machine; call = core.now.pages.call; packet = packet.now } }
    ensures seated { (seat.new.table_id ≡ seat.old.table_id) × (seat.new.id ≡ seat.old.id) }
    ensures heard { IsHeard result seat.old.me seat.new.me }
{
    let cells = core.machine.cells;
    match core.next(packet) {
        Some(Op::Load(place)) => board.load::<Loads<J>>(seat, place_index(cells, place)),
        Some(Op::Store(place, v)) => {
            board.store::<Stores<J>>(seat, place_index(cells, place), v);
            0
        }
        Some(Op::Raise(side)) => {
            board.store::<Stores<J>>(seat, signal_index(cells, side), 1);
            board.wake_one(signal_index(cells, side));
            0
        }
        Some(Op::TakeSignal(side)) => { board.swap::<Loads<J>>(seat, signal_index(cells, side), 0) }
        Some(Op::StoreMark(side)) => {
            board.store::<Stores<J>>(seat, mark_index(cells, side), 1);
            0
        }
        None => unreachable!(),
    }
}

/// An end's seat at words that anybody may write. It makes each step as one atomic step there, and what a step answers is all that it knows.
#[derive(Drop)]
pub struct OpenSeat {
    pub(crate) board: Arc<Table<(), OpenView, (), OpenRule, Global>>,
    pub(crate) seat: Seat<(), OpenView>,
    pub(crate) cells: u32,
    pub(crate) pages: u32,
    pub(crate) side: Side,
    ghost seated: { seat.table_id ≡ (arc_value board).shared.table_id },
    ghost sized: { (arc_value board).shared.table_id.words ≡ words_of cells + 512 * pages },
    ghost empty: { seat.me.1 ≡ [] },
}

impl Seatlike for OpenSeat {
    ghost use Rattle.std.specs.Prelude.{◌≡◌, None, refl};
    ghost use Rattle.std.proofs.Common.{◌∙◌};
    ghost use Rattle.ring_core.specs.Told.{tells_heard};
    ghost use Rattle.hostile_memory.specs.Open.{heard_in};

    ghost cells = { λ s. s.cells };

    ghost pages = { λ s. s.pages };

    ghost tale = { λ s. tells_heard (heard_in s.seat.me.0) };

    ghost told = { λ _. None };

    ghost same = { λ s t. (t.seat.table_id ≡ s.seat.table_id) × (t.pages ≡ s.pages) };

    ghost same_refl = { λ s. (refl, refl) };

    ghost same_trans = { λ s t u p q. (q.0 ∙ p.0, q.1 ∙ p.1) };

    ghost same_pages = { λ s t p. p.1 };

    #[inline(always)]
    fn perform(&mut self, core: &EndCore, packet: &[u64]) -> u64 {
        let board = &self.board.shared;
        perform_as::<Brand>(board, &mut self.seat, core, packet)
    }
}

impl Parks for OpenSeat {
    ghost use Rattle.atomic_table.specs.Seated.{TableId};

    ghost Channel = { TableId };

    ghost channel = { λ s. s.seat.table_id };

    ghost same_channel = { λ s t p. p.0 };

    fn park<R: Wait>(&self, rt: &R) {
        let board = &self.board.shared;
        board.park(rt, signal_index(self.cells, self.side), 0);
    }
}
