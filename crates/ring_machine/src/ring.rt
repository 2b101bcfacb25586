//! The arithmetic round a ring, and where a channel's places stand in the list of its words.
ghost use Rattle.std.specs.Prelude.{◌≡◌, ℕ, ◌+◌, ◌*◌, ◌<◌, ◌≤◌, ◌^◌};
ghost use Rattle.ring_machine.specs.Places.{IsRingSize, IsIndex, out_of, in_of, peer_of, base_of, signal_of, mark_of, index_of};
ghost use Rattle.ring_machine.specs.Places.{ahead, used, free, gone, low, is_index, cell_of, len8_of, offset8_of};
ghost use Rattle.ring_machine.specs.Places.{raises_on_write, raises_for_room, raises_on_commit};

use crate::place::{Place, Ring, Side};

/// The ring that this end fills.
#[inline(always)]
pub fn outgoing(side: Side) -> Ring
    ensures { result ≡ out_of side }
{
    match side {
        Side::Guest => Ring::ToHost,
        Side::Host => Ring::ToGuest,
    }
}

/// The ring that this end empties.
#[inline(always)]
pub fn incoming(side: Side) -> Ring
    ensures { result ≡ in_of side }
{
    match side {
        Side::Guest => Ring::ToGuest,
        Side::Host => Ring::ToHost,
    }
}

/// The other end.
#[inline(always)]
pub fn peer(side: Side) -> Side
    ensures { result ≡ peer_of side }
{
    match side {
        Side::Guest => Side::Host,
        Side::Host => Side::Guest,
    }
}

/// Where the signal of an end stands among the words of a channel whose rings have `cells` cells.
#[inline(always)]
pub fn signal_index(cells: u32, side: Side) -> usize
    ensures { result ≡ signal_of cells side }
{
    match side {
        Side::Guest => cells as usize + cells as usize + 10,
        Side::Host => cells as usize + cells as usize + 11,
    }
}

/// Where the mark of an end stands among them.
#[inline(always)]
pub fn mark_index(cells: u32, side: Side) -> usize
    ensures { result ≡ mark_of cells side }
{
    match side {
        Side::Guest => cells as usize + cells as usize + 12,
        Side::Host => cells as usize + cells as usize + 13,
    }
}

/// Where a place stands among them.
#[inline(always)]
pub fn place_index(cells: u32, place: Place) -> usize
    ensures { result ≡ index_of cells place }
{
    let base = |ring: Ring| -> usize
        ensures { result ≡ base_of cells ring }
    {
        match ring {
            Ring::ToHost => 0,
            Ring::ToGuest => cells as usize + 5,
        }
    };
    match place {
        Place::Write(ring) => base(ring),
        Place::Read(ring) => base(ring) + 1,
        Place::Mask(ring) => base(ring) + 2,
        Place::Pending(ring) => base(ring) + 3,
        Place::Feature(ring) => base(ring) + 4,
        Place::Cell(ring, at) => base(ring) + 5 + (at / 8) as usize,
        Place::Signal(side) => signal_index(cells, side),
        Place::Mark(side) => mark_index(cells, side),
        Place::Page(page, word) => {
            cells as usize + cells as usize + 14 + (512 * page as usize + word as usize)
        }
    }
}

/// `k` further round a ring of `d`.
#[inline(always)]
pub(crate) fn step_ahead(d: u32, i: u32, k: u32) -> u32
    requires { (i < d) × (k < d) × (d < 2 ^ 31) }
    ensures value { result ≡ ahead d i k }
    ensures below { result < d }
{
    if i + k < d { i + k } else { i + k - d }
}

/// What a ring of `d` holds from its read index `r` to its write index `w`.
#[inline(always)]
pub(crate) fn used_in(d: u32, r: u32, w: u32) -> u32
    requires { (r < d) × (w < d) × (d < 2 ^ 31) }
    ensures value { result ≡ used d r w }
    ensures below { result < d }
{
    if r <= w { w - r } else { w + d - r }
}

/// The room that it has.
#[inline(always)]
pub(crate) fn free_in(d: u32, r: u32, w: u32) -> u32
    requires { (r < d) × (w < d) × (d < 2 ^ 31) }
    ensures value { result ≡ free d r w }
    ensures most { result ≤ d }
{
    if r <= w { d - (w - r) } else { r - w }
}

/// The half of a header word that counts.
#[inline(always)]
pub(crate) fn low_half(v: u64) -> u32
    ensures { result ≡ low v }
{
    (v % 4294967296) as u32
}

/// Whether a loaded header word is an index of a ring of so many cells: a multiple of 8, and inside.
#[inline(always)]
pub(crate) fn names_cell(cells: u32, v: u64) -> bool
    ensures { result ≡ is_index cells v }
{
    let at = low_half(v);
    at % 8 == 0 && at / 8 < cells
}

/// The cell that it names.
#[inline(always)]
pub(crate) fn named_cell(v: u64) -> u32
    ensures value { result ≡ cell_of v }
    ensures most { result < 2 ^ 29 }
{
    low_half(v) / 8
}

/// The length in words that a packet's first word names.
#[inline(always)]
pub(crate) fn packet_len(v: u64) -> u32
    ensures value { result ≡ len8_of v }
    ensures most { result < 65536 }
{
    (v / 4294967296 % 65536) as u32
}

/// The offset of the payload in words that it names.
#[inline(always)]
pub(crate) fn payload_offset(v: u64) -> u32
    ensures value { result ≡ offset8_of v }
    ensures most { result < 65536 }
{
    (v / 65536 % 65536) as u32
}

/// Whether a sender signals: the peer asks for it, and its ring was empty before this packet.
/// Source: Linux `drivers/hv/ring_buffer.c`, `hv_signal_on_write`.
pub fn raise_on_write(old_write: u32, mask: u32, read: u32) -> bool
    ensures { result ≡ raises_on_write old_write mask read }
{
    mask == 0 && read == old_write
}

// Whether a commit makes room: `cur` is free now, `got` was given back by it, and the producer waits for more than `pending`.
#[inline(always)]
fn raise_for_room(cur: u32, got: u32, pending: u32) -> bool
    ensures { result ≡ raises_for_room cur got pending }
{
    got <= cur && pending < cur && cur - got <= pending
}

/// The test of a commit over plain indices, in bytes or in cells.
#[inline(always)]
pub(crate) fn raise_with(d: u32, write: u32, start: u32, read: u32, pending: u32) -> bool
    requires { (write < d) × (start < d) × (read < d) × (d < 2 ^ 31) }
    ensures { result ≡ raises_on_commit d write start read pending }
{
    raise_for_room(free_in(d, read, write), used_in(d, start, read), pending)
}

/// Whether a consumer signals as it moves the read index from `start` to `read`: now there is more room than the producer waits for, and before
/// there was not. All numbers are bytes. Source: Linux `drivers/hv/ring_buffer.c`, `hv_pkt_iter_close`; the bounds are this library's own.
pub fn raise_on_commit(d: u32, write: u32, start: u32, read: u32, pending: u32) -> bool
    requires size { IsRingSize d }
    requires write { IsIndex d write }
    requires start { IsIndex d start }
    requires read { IsIndex d read }
    ensures { result ≡ raises_on_commit d write start read pending }
{
    raise_with(d, write, start, read, pending)
}
