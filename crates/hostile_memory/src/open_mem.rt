//! A new channel on open memory: an end, and a hand that writes.
ghost use Rattle.std.specs.Prelude.{◌≡◌, ◌+◌, ◌*◌, ◌≤◌, [], IfOk};
ghost use Rattle.io_edge.specs.declared.side.Side.TheVariants.{Guest};
ghost use Rattle.hostile_memory.specs.Open.{heard_in};
ghost use Rattle.ring_seat.specs.Whole.{new_paged};

use crate::open_seat::OpenSeat;
use crate::rule::{Hands, OpenRule, OpenView};
use crate::scribbler::Scribbler;
use atomic_table::Table;
use ring_core::{End, Side, opening_words};
use std::alloc::{AllocError, Global};
use std::sync::Arc;

/// An end over words that anybody may write.
pub type OpenEnd = End<OpenSeat>;

/// The memory of a channel whose words anybody may write at any moment: both rings, both signals, both marks and the data pages.
pub struct OpenMem;

impl OpenMem {
    /// Makes a channel with 1 to 32,768 pages of 4,096 bytes in each ring, and at most 128 data pages: a guest's end that is new and made no step, and a hand
    /// that writes. All words are 0, but that mask and feature are 1 in both rings.
    /// Source: Linux `include/linux/hyperv.h`, `struct hv_ring_buffer`.
    pub fn make(
        alloc: Global,
        ring_pages: u32,
        page_count: u32,
    ) -> Result<(OpenEnd, Scribbler), AllocError>
        requires pages { (1 ≤ ring_pages) × (ring_pages ≤ 32768) }
        requires data { page_count ≤ 128 }
        ensures end { IfOk result (λ r. r.0.state ≡ new_paged (512 * ring_pages) page_count Guest) }
        ensures heard { IfOk result (λ r. heard_in r.0.seat.seat.me.0 ≡ []) }
        ensures one_channel { IfOk result (λ r. r.1.seat.table_id ≡ r.0.seat.seat.table_id) }
        ensures hand { IfOk result (λ r. (r.1.cells ≡ 512 * ring_pages) × (r.1.pages ≡ page_count)) }
    {
        let (seat, hand) = table(alloc, 512 * ring_pages, page_count)?;
        let end = End::make(alloc, Side::Guest, 4096 * ring_pages, seat, page_count)?;
        Ok((end, hand))
    }
}

// The guest's seat and the hand of a new channel whose rings have this many cells, and which has so many data pages.
fn table(alloc: Global, cells: u32, pages: u32) -> Result<(OpenSeat, Scribbler), AllocError>
    requires cells { cells ≤ 16777216 }
    requires pages { pages ≤ 128 }
    ensures seat { IfOk result (λ r. (r.0.cells ≡ cells) × (r.0.pages ≡ pages) × (r.0.side ≡ Guest)) }
    ensures heard { IfOk result (λ r. heard_in r.0.seat.me.0 ≡ []) }
    ensures one_channel { IfOk result (λ r. r.1.seat.table_id ≡ r.0.seat.table_id) }
    ensures hand { IfOk result (λ r. (r.1.cells ≡ cells) × (r.1.pages ≡ pages)) }
{
    let words = opening_words(alloc, cells, pages)?;
    let (table, mut seat) = Table::<(), OpenView, (), OpenRule, Global>::of_words(
        alloc,
        words.as_slice(),
        &(),
    )?;
    let board = Arc::new(alloc, table)?;
    let second = Arc::try_clone(&board)?;
    let away = board.shared.split_seat::<Hands>(&mut seat);
    let seat = OpenSeat {
        board,
        seat,
        cells,
        pages,
        side: Side::Guest,
    };
    let hand = Scribbler {
        board: second,
        seat: away,
        cells,
        pages,
    };
    Ok((seat, hand))
}
