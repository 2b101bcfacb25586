//! Writes packets with ranges between descriptor and payload.

ghost use Rattle.std.specs.Prelude.{◌≡◌, ◌+◌, ◌*◌, ◌<◌, ◌≤◌, ◌^◌, length, map, take, drop};
ghost use Rattle.std.specs.List.{AllByRecursion, flat_map};
ghost use Rattle.vm_page.specs.Words.{words_for, words_of};
ghost use Rattle.vm_page.specs.Cuts.{LiesInPage};
ghost use Rattle.pkt_desc.specs.Built.{range_word, range_of, words_of_span, ranged_packet, gpa_packet, xfer_packet, CarriesSpans, CarriesParts};

use crate::build::{first_word, put_payload};
use crate::fields::pair;
use crate::kind::{GPA_DIRECT, TRANSFER_PAGES};
use vm_page::Span;

// Each part of a page as a range of its own: its length and offset, and the page's frame number.
fn put_spans(out: &mut [u64], spans: &[Span])
    requires { 2 * length spans.now ≤ length out.old }
    ensures words { take (2 * length spans.now) out.new ≡ flat_map words_of_span spans.now }
    ensures len { length out.new ≡ length out.old }
    ensures rest { drop (2 * length spans.now) out.new ≡ drop (2 * length spans.now) out.old }
{
    for i in 0..spans.len() {
        let span = spans[i];
        out[2 * i] = pair(span.len, span.offset);
        out[2 * i + 1] = span.page;
    }
}

// Each range of a buffer: its length and offset.
fn put_ranges(out: &mut [u64], ranges: &[(u32, u32)])
    requires { length ranges.now ≤ length out.old }
    ensures words { take (length ranges.now) out.new ≡ map range_word ranges.now }
    ensures read { map range_of (map range_word ranges.now) ≡ ranges.now }
    ensures len { length out.new ≡ length out.old }
    ensures rest { drop (length ranges.now) out.new ≡ drop (length ranges.now) out.old }
{
    for i in 0..ranges.len() {
        let (bytes, offset) = ranges[i];
        out[i] = pair(bytes, offset);
    }
}

// Writes a packet round the words of its ranges, which stand at word 3 already. It asks for a completion.
fn build_round(
    out: &mut [u64],
    kind: u16,
    tid: u64,
    third: u64,
    ranges: usize,
    payload: &[u8],
) -> usize
    requires room { 3 + ranges + words_for (length payload.now) ≤ length out.old }
    requires size { 3 + ranges + words_for (length payload.now) ≤ 384 }
    ensures words { result ≡ 3 + ranges + words_for (length payload.now) }
    ensures packet { take result out.new ≡ ranged_packet kind tid third (take ranges (drop 3 out.old)) payload.now }
    ensures rest { drop result out.new ≡ drop result out.old }
{
    let offset8 = 3 + ranges;
    let words = offset8 + payload.len().div_ceil(8);
    out[0] = first_word(kind, offset8 as u16, words as u16, 1);
    out[1] = tid;
    out[2] = third;
    put_payload(&mut out[offset8..], payload);
    words
}

/// Writes a packet of type 9 at the front of `out`: flags 1, a range for each part of a page, and the payload padded with
/// zeros to whole words. Answers its words; the rest of `out` stays.
///
/// Each range has one page (Linux 6.12, `drivers/hv/channel.c`, vmbus_sendpacket_pagebuffer, and `include/linux/hyperv.h`,
/// struct vmdata_gpa_direct).
pub fn build_gpa(out: &mut [u64], tid: u64, spans: &[Span], payload: &[u8]) -> usize
    requires room { 3 + 2 * length spans.now + words_for (length payload.now) ≤ length out.old }
    requires size { 3 + 2 * length spans.now + words_for (length payload.now) ≤ 384 }
    requires pages { AllByRecursion LiesInPage spans.now }
    ensures words { result ≡ 3 + 2 * length spans.now + words_for (length payload.now) }
    ensures packet { take result out.new ≡ gpa_packet tid spans.now payload.now }
    ensures rest { drop result out.new ≡ drop result out.old }
    ensures carries { CarriesSpans (take result out.new) tid spans.now payload.now }
{
    put_spans(&mut out[3..], spans);
    let third = pair(0, spans.len() as u32);
    build_round(out, GPA_DIRECT, tid, third, 2 * spans.len(), payload)
}

/// Writes a packet of type 7 at the front of `out`: flags 1, ranges of a buffer, each of bytes and their offset, and the
/// payload padded with zeros to whole words. Answers its words; the rest of `out` stays.
///
/// The owner is 0 (Linux 6.12, `include/linux/hyperv.h`, struct vmtransfer_page_packet_header).
pub fn build_xfer(
    out: &mut [u64],
    tid: u64,
    pageset: u16,
    ranges: &[(u32, u32)],
    payload: &[u8],
) -> usize
    requires room { 3 + length ranges.now + words_for (length payload.now) ≤ length out.old }
    requires size { 3 + length ranges.now + words_for (length payload.now) ≤ 384 }
    ensures words { result ≡ 3 + length ranges.now + words_for (length payload.now) }
    ensures packet { take result out.new ≡ xfer_packet tid pageset ranges.now payload.now }
    ensures rest { drop result out.new ≡ drop result out.old }
    ensures carries { CarriesParts (take result out.new) tid pageset ranges.now payload.now }
{
    put_ranges(&mut out[3..], ranges);
    let third = pair(u32::from(pageset), ranges.len() as u32);
    build_round(out, TRANSFER_PAGES, tid, third, ranges.len(), payload)
}
