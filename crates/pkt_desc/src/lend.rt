//! The page of its channel that a packet lends.

ghost use Rattle.std.specs.Prelude.{◌≡◌, ◌+◌, ◌<◌, ◌≤◌, length, drop, IfSome};
ghost use Rattle.pkt_desc.specs.Packets.{IsPacket};
ghost use Rattle.pkt_desc.specs.Ranges.{low_32, high_32, range_count, spans_words};
ghost use Rattle.pkt_desc.specs.Lending.{loan, is_part, span_lent, buffer_lent, section_lent, lent_of};

use crate::fields::{high_32, low_16, low_32};
use crate::kind::{GPA_DIRECT, INBAND, TRANSFER_PAGES};
use crate::{Lent, parse};
use vm_page::PAGE;

/// The id of the receive buffer (Linux 6.12, `drivers/net/hyperv/hyperv_net.h`, NETVSC_RECEIVE_BUFFER_ID).
const RECEIVE_BUFFER: u16 = 0xcafe;

/// The type of an RNDIS packet (`drivers/net/hyperv/hyperv_net.h`, NVSP_MSG1_TYPE_SEND_RNDIS_PKT).
const RNDIS_PACKET: u32 = 107;

/// The pages of each end of a channel: those of the guest come first.
const PAGES: u32 = 64;

// Whether so many bytes are part of a page, or all of it.
fn is_part(bytes: u32) -> bool
    ensures { result ≡ is_part bytes }
{
    1 <= bytes && bytes <= PAGE as u32
}

// The page of a packet of type 9 whose ranges end at or before the payload: it has one range, from the first byte of one of
// the guest's pages on.
fn span_lent(words: &[u64]) -> Option<Lent>
    requires some { 3 ≤ length words.now }
    requires fit { 3 + spans_words (range_count words.now) (drop 3 words.now) ≤ length words.now }
    ensures lent { result ≡ span_lent words.now }
    ensures page { IfSome result (λ l. l.page < 128) }
    ensures bytes { IfSome result (λ l. (1 ≤ l.bytes) × (l.bytes ≤ 4096)) }
{
    if high_32(words[2]) != 1 {
        return None;
    }
    let range = words[3];
    if high_32(range) != 0 || !is_part(low_32(range)) {
        return None;
    }
    let frame = words[4];
    if frame >= u64::from(PAGES) {
        return None;
    }
    Some(Lent {
        page: frame as u32,
        bytes: low_32(range),
    })
}

// The page of a packet of type 7 whose ranges end at or before the payload: it has one range, from the first byte of a page
// of the receive buffer on.
fn buffer_lent(words: &[u64]) -> Option<Lent>
    requires some { 3 ≤ length words.now }
    requires fit { 3 + range_count words.now ≤ length words.now }
    ensures lent { result ≡ buffer_lent words.now }
    ensures page { IfSome result (λ l. l.page < 128) }
    ensures bytes { IfSome result (λ l. (1 ≤ l.bytes) × (l.bytes ≤ 4096)) }
{
    if low_16(words[2]) != RECEIVE_BUFFER || high_32(words[2]) != 1 {
        return None;
    }
    let range = words[3];
    let offset = high_32(range);
    let page = offset / PAGE as u32;
    if !is_part(low_32(range)) || offset % PAGE as u32 != 0 || page >= PAGES {
        return None;
    }
    Some(Lent {
        page: PAGES + page,
        bytes: low_32(range),
    })
}

// The page of a packet of type 6 with this payload: an RNDIS packet that stands in a section of the send buffer.
fn section_lent(payload: &[u64]) -> Option<Lent>
    ensures lent { result ≡ section_lent payload.now }
    ensures page { IfSome result (λ l. l.page < 128) }
    ensures bytes { IfSome result (λ l. (1 ≤ l.bytes) × (l.bytes ≤ 4096)) }
{
    if payload.len() < 5 || low_32(payload[0]) != RNDIS_PACKET {
        return None;
    }
    let page = low_32(payload[1]);
    let bytes = high_32(payload[1]);
    if page >= PAGES || !is_part(bytes) {
        return None;
    }
    Some(Lent { page, bytes })
}

/// The page that a packet lends, if `parse` accepts it and it lends one. There are three cases.
///
/// A packet of type 9 lends the page that its one range names by a frame number below 64, where the range begins the page
/// and has 1 to 4,096 bytes (Linux 6.12, `drivers/scsi/storvsc_drv.c`, storvsc_do_io). A packet of type 7 lends the page of
/// the receive buffer where its one range begins, with the same lengths (`drivers/net/hyperv/netvsc.c`, netvsc_receive).
/// A packet of type 6 lends the section of the send buffer that its RNDIS message names, below 64, with the same lengths
/// (`drivers/net/hyperv/netvsc.c`, netvsc_send_pkt).
pub fn lent(words: &[u64]) -> Option<Lent>
    requires packet { IsPacket words.now }
    ensures lent { result ≡ lent_of words.now }
    ensures page { IfSome result (λ l. l.page < 128) }
    ensures bytes { IfSome result (λ l. (1 ≤ l.bytes) × (l.bytes ≤ 4096)) }
{
    let desc = parse(words).ok()?;
    match desc.kind {
        INBAND => section_lent(&words[usize::from(desc.offset8)..]),
        TRANSFER_PAGES => buffer_lent(words),
        GPA_DIRECT => span_lent(words),
        _ => None,
    }
}
