//! A new channel, in its two ends.
ghost use Rattle.std.specs.Prelude.{◌≡◌, ℕ, ◌+◌, ◌*◌, ◌<◌, ◌≤◌, [], IfOk, length};
ghost use Rattle.io_edge.specs.declared.side.Side.TheVariants.{Guest, Host};
ghost use Rattle.ring_seat.specs.Seats.{new_told, told_in};
ghost use Rattle.ring_seat.specs.Settling.{AreOfOneChannel};
ghost use Rattle.ring_seat.specs.Whole.{new_paged};
ghost use Rattle.ring_seat.specs.declared.view.View.TheVariants.{One};

use crate::rule::{ChannelRule, Ends, Extent};
use crate::table_seat::TableSeat;
use crate::view::View;
use atomic_table::Table;
use ring_core::{End, Side, opening_words, signal_index};
use std::alloc::{AllocError, Global};
use std::sync::Arc;

/// The guest's end of a channel on atomic words.
pub type GuestEnd = End<TableSeat>;

/// The host's end of a channel on atomic words.
pub type HostEnd = End<TableSeat>;

/// The memory of a channel: the words of both rings, of both signals and of both marks. Its two ends have it together.
pub struct ChannelMem;

impl ChannelMem {
    /// Makes a channel with 1 to 32,768 pages of 4,096 bytes in each ring, and at most 128 data pages. Both ends are new and made no step, and all words are 0, but
    /// that mask and feature are 1 in both rings. Source: Linux `include/linux/hyperv.h`, `struct hv_ring_buffer`.
    pub fn make(
        alloc: Global,
        ring_pages: u32,
        data_pages: u32,
    ) -> Result<(GuestEnd, HostEnd), AllocError>
        requires pages { (1 ≤ ring_pages) × (ring_pages ≤ 32768) }
        requires data { data_pages ≤ 128 }
        ensures one_channel { IfOk result (λ r. AreOfOneChannel r.0 r.1) }
        ensures guest { IfOk result (λ r. r.0.state ≡ new_paged (512 * ring_pages) data_pages Guest) }
        ensures host { IfOk result (λ r. r.1.state ≡ new_paged (512 * ring_pages) data_pages Host) }
        ensures unmoved { IfOk result (λ r. (told_in r.0.seat.seat.me.0 ≡ new_told (512 * ring_pages) data_pages Guest) × (told_in r.1.seat.seat.me.0 ≡ new_told (512 * ring_pages) data_pages Host)) }
    {
        let (guest, host) = seats(alloc, 512 * ring_pages, data_pages)?;
        let d = 4096 * ring_pages;
        let guest = End::make(alloc, Side::Guest, d, guest, data_pages)?;
        let host = End::make(alloc, Side::Host, d, host, data_pages)?;
        Ok((guest, host))
    }
}

// The seats of both ends of a new channel whose rings have this many cells, and which has so many data pages.
fn seats(alloc: Global, cells: u32, pages: u32) -> Result<(TableSeat, TableSeat), AllocError>
    requires cells { (512 ≤ cells) × (cells ≤ 16777216) }
    requires pages { pages ≤ 128 }
    ensures one_channel { IfOk result (λ r. r.0.seat.table_id ≡ r.1.seat.table_id) }
    ensures guest { IfOk result (λ r. r.0.seat.me.0 ≡ One (new_told cells pages Guest)) }
    ensures host { IfOk result (λ r. r.1.seat.me.0 ≡ One (new_told cells pages Host)) }
{
    let words = opening_words(alloc, cells, pages)?;
    let (table, mut seat) = Table::<(), View, Extent, ChannelRule, Global>::of_words(
        alloc,
        words.as_slice(),
        &Extent { cells, pages },
    )?;
    let board = Arc::new(alloc, table)?;
    let second = Arc::try_clone(&board)?;
    let away = board.shared.split_seat::<Ends>(&mut seat);
    let guest = TableSeat::over(board, seat, signal_index(cells, Side::Guest));
    let host = TableSeat::over(second, away, signal_index(cells, Side::Host));
    Ok((guest, host))
}
