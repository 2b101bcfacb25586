//! Packets of a ring, written.
ghost use Rattle.std.specs.Prelude.{◌≡◌, ◌≢◌, ◌+◌, ◌*◌, ◌≤◌, ◌<◌, ◌^◌, List, length, map, take, drop};
ghost use Rattle.vm_page.specs.Words.{words_for};
ghost use Rattle.vm_page.specs.Cuts.{IsCutOf, parts_count};
ghost use Rattle.vm_page.specs.declared.span.Span.{Span as Part};
ghost use Rattle.pkt_desc.specs.Built.{CarriesParts, CarriesSpans, gpa_packet, xfer_packet};
ghost use Rattle.vmbus_c.specs.PacketWriting.{CanName, pages_words, part_of, parts_words};
ghost use Rattle.pkt_desc.specs.Packets.{Carries, inband_packet, completion_packet};

use crate::packets::VmbusPart;
use pkt_desc::{build_comp, build_gpa, build_inband, build_xfer};
use vm_page::{Span, spans};

// The most words of a packet that this library builds.
const MOST_WORDS: usize = 384;

// How many words a packet with so many words before this payload has.
fn words(before: usize, payload: &[u8]) -> usize
    requires { before ≤ 384 }
    ensures { result ≡ before + words_for (length payload.now) }
{
    before + payload.len().div_ceil(8)
}

/// Writes a packet of type 6 at the front of `out`: its payload follows the descriptor, padded with zeros to whole words. It answers 0, or 1 where `flags` has more than 16
/// bits or the packet more than 384 words, or else 2 where `out` is too small; then `out` stays. `len` is then how many words the packet has; where the answer is 1 it stays.
#[unsafe(no_mangle)]
pub extern "C" fn vmbus_packet_inband(
    tid: u64,
    flags: u32,
    payload: &[u8],
    out: &mut [u64],
    len: &mut usize,
) -> u32
    ensures written { flags < 2 ^ 16 → 2 + words_for (length payload.now) ≤ 384 → 2 + words_for (length payload.now) ≤ length out.old → (result ≡ 0) × (take len.new out.new ≡ inband_packet tid flags payload.now) × Carries (take len.new out.new) 6 tid flags payload.now }
    ensures room { flags < 2 ^ 16 → 2 + words_for (length payload.now) ≤ 384 → length out.old < 2 + words_for (length payload.now) → result ≡ 2 }
    ensures none { result ≢ 1 → (flags < 2 ^ 16) × (2 + words_for (length payload.now) ≤ 384) × (len.new ≡ 2 + words_for (length payload.now)) }
    ensures fits { result ≡ 0 → 2 + words_for (length payload.now) ≤ length out.old }
    ensures three { result ≤ 2 }
    ensures rest { result ≡ 0 → drop len.new out.new ≡ drop len.new out.old }
    ensures kept { (result ≢ 0 → out.new ≡ out.old) × (result ≡ 1 → len.new ≡ len.old) }
{
    let count = words(2, payload);
    if flags > 0xffff || count > MOST_WORDS {
        return 1;
    }
    *len = count;
    if out.len() < count {
        return 2;
    }
    build_inband(out, tid, flags as u16, payload);
    0
}

/// Writes a completion at the front of `out`, with flags 0: its payload follows the descriptor, padded with zeros to whole words. It answers 0, or 1 where the packet has more
/// than 384 words, or else 2 where `out` is too small; then `out` stays. `len` is then how many words the packet has; where the answer is 1 it stays.
#[unsafe(no_mangle)]
pub extern "C" fn vmbus_packet_completion(
    tid: u64,
    payload: &[u8],
    out: &mut [u64],
    len: &mut usize,
) -> u32
    ensures written { 2 + words_for (length payload.now) ≤ 384 → 2 + words_for (length payload.now) ≤ length out.old → (result ≡ 0) × (take len.new out.new ≡ completion_packet tid payload.now) × Carries (take len.new out.new) 11 tid 0 payload.now }
    ensures room { 2 + words_for (length payload.now) ≤ 384 → length out.old < 2 + words_for (length payload.now) → result ≡ 2 }
    ensures none { result ≢ 1 → (2 + words_for (length payload.now) ≤ 384) × (len.new ≡ 2 + words_for (length payload.now)) }
    ensures fits { result ≡ 0 → 2 + words_for (length payload.now) ≤ length out.old }
    ensures three { result ≤ 2 }
    ensures rest { result ≡ 0 → drop len.new out.new ≡ drop len.new out.old }
    ensures kept { (result ≢ 0 → out.new ≡ out.old) × (result ≡ 1 → len.new ≡ len.old) }
{
    let count = words(2, payload);
    if count > MOST_WORDS {
        return 1;
    }
    *len = count;
    if out.len() < count {
        return 2;
    }
    build_comp(out, tid, payload);
    0
}

// The most ranges of a packet that this library builds.
const MOST_RANGES: usize = 190;

// A part of no page.
fn no_part() -> Span {
    Span {
        page: 0,
        offset: 0,
        len: 0,
    }
}

/// Writes a packet of type 9 at the front of `out`, with flags 1, that names `bytes` bytes from `offset` on in the first of these pages: a range for each page, and then the
/// payload, padded with zeros to whole words. It answers 0, or 1 where the offset isn't in the first page, the range touches another number of pages, or the packet has
/// more than 384 words, or else 2 where `out` is too small; then `out` stays. `len` is then how many words the packet has; where the answer is 1 it stays.
#[unsafe(no_mangle)]
pub extern "C" fn vmbus_packet_pages(
    tid: u64,
    offset: u32,
    bytes: u32,
    pages: &[u64],
    payload: &[u8],
    out: &mut [u64],
    len: &mut usize,
) -> u32
    ensures written { result ≡ 0 → (parts : List Part) × (IsCutOf offset bytes (take (parts_count bytes pages.now) pages.now) parts × (take len.new out.new ≡ gpa_packet tid parts payload.now) × CarriesSpans (take len.new out.new) tid parts payload.now) }
    ensures every { CanName offset bytes pages.now payload.now → pages_words bytes pages.now payload.now ≤ length out.old → result ≡ 0 }
    ensures room { CanName offset bytes pages.now payload.now → length out.old < pages_words bytes pages.now payload.now → result ≡ 2 }
    ensures only { result ≢ 1 → CanName offset bytes pages.now payload.now × (len.new ≡ pages_words bytes pages.now payload.now) }
    ensures fits { result ≡ 0 → len.new ≤ length out.old }
    ensures three { result ≤ 2 }
    ensures rest { result ≡ 0 → drop len.new out.new ≡ drop len.new out.old }
    ensures kept { (result ≢ 0 → out.new ≡ out.old) × (result ≡ 1 → len.new ≡ len.old) }
{
    if pages.len() > MOST_RANGES {
        return 1;
    }
    let mut parts = [no_part(); 190];
    let Ok(count) = spans(offset, bytes, pages, &mut parts) else {
        return 1;
    };
    let words = words(3 + 2 * count, payload);
    if words > MOST_WORDS {
        return 1;
    }
    *len = words;
    if out.len() < words {
        return 2;
    }
    build_gpa(out, tid, &parts[..count], payload);
    0
}

// The most ranges of a packet of type 7 that this library builds.
const MOST_PARTS: usize = 381;

// The bytes and the offset of a range.
fn pair(part: VmbusPart) -> (u32, u32)
    ensures { result ≡ part_of part }
{
    (part.bytes, part.offset)
}

// The bytes and the offset of each range, in front of what stood there.
fn put_parts(parts: &[VmbusPart], out: &mut [(u32, u32); 381])
    requires { length parts.now ≤ 381 }
    ensures { take (length parts.now) out.new ≡ map part_of parts.now }
{
    for i in 0..parts.len() {
        out[i] = pair(parts[i]);
    }
}

/// Writes a packet of type 7 at the front of `out`, with flags 1, that names these ranges of the buffer with the number `pageset`: a word for each range, and then the
/// payload, padded with zeros to whole words. It answers 0, or 1 where `pageset` has more than 16 bits or the packet more than 384 words, or else 2 where `out` is too
/// small; then `out` stays. `len` is then how many words the packet has; where the answer is 1 it stays.
#[unsafe(no_mangle)]
pub extern "C" fn vmbus_packet_transfer(
    tid: u64,
    pageset: u32,
    parts: &[VmbusPart],
    payload: &[u8],
    out: &mut [u64],
    len: &mut usize,
) -> u32
    ensures written { pageset < 2 ^ 16 → parts_words parts.now payload.now ≤ 384 → parts_words parts.now payload.now ≤ length out.old → (result ≡ 0) × (take len.new out.new ≡ xfer_packet tid pageset (map part_of parts.now) payload.now) × CarriesParts (take len.new out.new) tid pageset (map part_of parts.now) payload.now }
    ensures room { pageset < 2 ^ 16 → parts_words parts.now payload.now ≤ 384 → length out.old < parts_words parts.now payload.now → result ≡ 2 }
    ensures none { result ≢ 1 → (pageset < 2 ^ 16) × (parts_words parts.now payload.now ≤ 384) × (len.new ≡ parts_words parts.now payload.now) }
    ensures fits { result ≡ 0 → parts_words parts.now payload.now ≤ length out.old }
    ensures three { result ≤ 2 }
    ensures rest { result ≡ 0 → drop len.new out.new ≡ drop len.new out.old }
    ensures kept { (result ≢ 0 → out.new ≡ out.old) × (result ≡ 1 → len.new ≡ len.old) }
{
    if pageset > 0xffff || parts.len() > MOST_PARTS {
        return 1;
    }
    let count = words(3 + parts.len(), payload);
    if count > MOST_WORDS {
        return 1;
    }
    *len = count;
    if out.len() < count {
        return 2;
    }
    let mut ranges = [(0, 0); 381];
    put_parts(parts, &mut ranges);
    build_xfer(out, tid, pageset as u16, &ranges[..parts.len()], payload);
    0
}
