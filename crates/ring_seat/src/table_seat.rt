//! A seat at the table of a channel's words.
ghost use Rattle.std.specs.Prelude.{◌≡◌, ◌+◌, ◌*◌, true, [], Some, None};
ghost use Rattle.std.specs.Arc.{arc_value};
ghost use Rattle.ring_machine.specs.Places.{words_of, signal_of};
ghost use Rattle.ring_machine.specs.PageCalls.{is_paging, is_under_way};
ghost use Rattle.ring_machine.specs.Steps.{is_busy_at};
ghost use Rattle.ring_core.specs.Told.{GoesOn, tells_nothing};
ghost use Rattle.ring_seat.specs.Lawful.{Lawfully};
ghost use Rattle.ring_seat.specs.Seats.{told_in, state_in, is_one, Tells};
ghost use Rattle.ring_seat.specs.declared.view.View.TheVariants.{One};

use crate::rule::{Board, ChannelRule, Extent, Intent, Loads, Stores};
use crate::view::View;
use atomic_table::{Seat, Table};
use ring_core::{End, EndCore, Op, Seatlike, mark_index, place_index, signal_index};
use ring_sleep::Parks;
use std::alloc::Global;
use std::marker::Brand;
use std::sync::{Arc, Wait};

// Makes the step that the machine names, of the end that `J` names, and no other one.
#[inline(always)]
fn perform_as<J: Intent>(
    board: &Board,
    seat: &mut Seat<(), View>,
    core: &EndCore,
    packet: &[u64],
) -> u64
    requires seated { seat.old.table_id ≡ board.now.table_id }
    requires sized { (board.now.table_id.words ≡ words_of core.now.machine.cells + 512 * board.now.key.pages) × (board.now.key.cells ≡ core.now.machine.cells) }
    requires view { seat.old.me ≡ (One (told_in seat.old.me.0), []) }
    requires busy { is_under_way core.now.machine.stage core.now.pages.call ≡ true }
    requires pages { is_paging core.now.pages.call ≡ true → core.now.pages.count ≡ board.now.key.pages }
    requires goes_on { GoesOn (is_busy_at core.now.machine.stage) (state_in seat.old.me.0) core.now.machine core.now.pages.call packet.now }
    requires base { J.base ≡ record { told = told_in seat.old.me.0; machine = core.now.machine; call = core.now.pages.call; packet = packet.now } }
    ensures seated { (seat.new.table_id ≡ seat.old.table_id) × (seat.new.id ≡ seat.old.id) }
    ensures tells { Tells J.base result seat.new.me }
{
    let cells = core.machine.cells;
    match core.next(packet) {
        Some(Op::Load(place)) => board.load::<Loads<J>>(seat, place_index(cells, place)),
        Some(Op::Store(place, v)) => {
            board.store::<Stores<J>>(seat, place_index(cells, place), v);
            0
        }
        Some(Op::Raise(side)) => {
            board.store::<Stores<J>>(seat, signal_index(cells, side), 1);
            board.wake_one(signal_index(cells, side));
            0
        }
        Some(Op::TakeSignal(side)) => { board.swap::<Loads<J>>(seat, signal_index(cells, side), 0) }
        Some(Op::StoreMark(side)) => {
            board.store::<Stores<J>>(seat, mark_index(cells, side), 1);
            0
        }
        None => unreachable!(),
    }
}

/// One end's seat at the table of a channel's words. Both ends' seats are of one table, and each step of an end is one atomic step there.
#[derive(Drop)]
pub struct TableSeat {
    pub(crate) board: Arc<Table<(), View, Extent, ChannelRule, Global>>,
    pub(crate) seat: Seat<(), View>,
    // Where the end's signal stands.
    pub(crate) signal: usize,
    ghost seated: { seat.table_id ≡ (arc_value board).shared.table_id },
    ghost sized: { (arc_value board).shared.table_id.words ≡ words_of (arc_value board).shared.key.cells + 512 * (arc_value board).shared.key.pages },
    ghost cells: { (arc_value board).shared.key.cells ≡ (state_in seat.me.0).machine.cells },
    ghost pages: { (arc_value board).shared.key.pages ≡ (state_in seat.me.0).pages.count },
    ghost one: { is_one seat.me.0 ≡ true },
    ghost empty: { seat.me.1 ≡ [] },
    ghost at: { signal ≡ signal_of (arc_value board).shared.key.cells (state_in seat.me.0).machine.side },
    ghost lawful: { Lawfully (state_in seat.me.0) },
}

impl TableSeat {
    pub(crate) fn over(
        board: Arc<Table<(), View, Extent, ChannelRule, Global>>,
        seat: Seat<(), View>,
        signal: usize,
    ) -> TableSeat
        requires seated { seat.table_id ≡ (arc_value board).shared.table_id }
        requires sized { (arc_value board).shared.table_id.words ≡ words_of (arc_value board).shared.key.cells + 512 * (arc_value board).shared.key.pages }
        requires cells { (arc_value board).shared.key.cells ≡ (state_in seat.me.0).machine.cells }
        requires pages { (arc_value board).shared.key.pages ≡ (state_in seat.me.0).pages.count }
        requires view { (is_one seat.me.0 ≡ true) × (seat.me.1 ≡ []) }
        requires at { signal ≡ signal_of (arc_value board).shared.key.cells (state_in seat.me.0).machine.side }
        requires lawful { Lawfully (state_in seat.me.0) }
        ensures { (result.board ≡ board) × (result.seat ≡ seat) }
    {
        TableSeat {
            board,
            seat,
            signal,
        }
    }
}

/// What the rule of the pages tells of an end by itself, where nothing is due: each request that it got, that lends a page, and that it hasn't completed has
/// that page here, with all its words. The call does nothing: its contract is a law.
pub fn lawful(end: &End<TableSeat>)
    ensures { Lawfully end.now.state }
{
    end.items_fit();
    let seat = end.seat();
    // For the proof: what a value keeps is known where the value is read.
    let _signal = seat.signal;
}

impl Seatlike for TableSeat {
    ghost use Rattle.std.specs.Prelude.{◌≡◌, Some, None, refl};
    ghost use Rattle.std.proofs.Common.{◌∙◌};
    ghost use Rattle.ring_seat.specs.Seats.{state_in, told_in};
    ghost use Rattle.ring_core.specs.Told.{tells_nothing};

    ghost cells = { λ s. (state_in s.seat.me.0).machine.cells };

    ghost pages = { λ s. (state_in s.seat.me.0).pages.count };

    ghost tale = { λ _. tells_nothing };

    ghost told = { λ s. Some (told_in s.seat.me.0) };

    ghost same = { λ s t. (t.seat.table_id ≡ s.seat.table_id) × ((state_in t.seat.me.0).pages.count ≡ (state_in s.seat.me.0).pages.count) };

    ghost same_refl = { λ s. (refl, refl) };

    ghost same_trans = { λ s t u p q. (q.0 ∙ p.0, q.1 ∙ p.1) };

    ghost same_pages = { λ s t p. p.1 };

    #[inline(always)]
    fn perform(&mut self, core: &EndCore, packet: &[u64]) -> u64 {
        let board = &self.board.shared;
        perform_as::<Brand>(board, &mut self.seat, core, packet)
    }
}

impl Parks for TableSeat {
    ghost use Rattle.atomic_table.specs.Seated.{TableId};

    ghost Channel = { TableId };

    ghost channel = { λ s. s.seat.table_id };

    ghost same_channel = { λ s t p. p.0 };

    fn park<R: Wait>(&self, rt: &R) {
        let board = &self.board.shared;
        board.park(rt, self.signal, 0);
    }
}
