//! Packets of a ring with ranges.

ghost use Rattle.std.specs.Prelude.{◌≤◌, IfSome};

use crate::built::{MOST_WORDS, compare, payload};
use crate::came::Came;
use pkt_desc::{build_gpa, build_xfer};
use vm_page::{Span, spans};

// A packet names at most this many pages, or ranges.
const MOST: usize = 4;

const NONE: Span = Span {
    page: 0,
    offset: 0,
    len: 0,
};

// The range whose parts a line names: its pages, the offset in its first page, and its bytes.
#[derive(Clone, Copy)]
struct Range {
    pages: [u64; MOST],
    count: usize,
    offset: u32,
    len: u32,
}

// A part of a page, as `100 offset 3072 len 1024`.
fn part(text: &str) -> Option<Span> {
    let (page, rest) = text.split_once(" offset ")?;
    let (offset, len) = rest.split_once(" len ")?;
    Some(Span {
        page: page.parse().ok()?,
        offset: offset.parse().ok()?,
        len: len.parse().ok()?,
    })
}

// The range with one part more.
fn with(range: Range, span: Span) -> Option<Range> {
    let mut longer = range;
    *longer.pages.get_mut(range.count)? = span.page;
    if range.count == 0 {
        longer.offset = span.offset;
    }
    longer.count = range.count + 1;
    longer.len = range.len.checked_add(span.len)?;
    Some(longer)
}

// The range of parts such as `id 42 span page 100 offset 3072 len 1024 span page 103 offset 0 len 4096`, and the id.
fn range_in(text: &str) -> Option<(u64, Range)> {
    let mut range = Range {
        pages: [0; MOST],
        count: 0,
        offset: 0,
        len: 0,
    };
    let (first, rest) = match text.split_once(" span page ") {
        Some((first, rest)) => (first, Some(rest)),
        None => (text, None),
    };
    if let Some(rest) = rest {
        for text in rest.split(" span page ") {
            range = with(range, part(text)?)?;
        }
    }
    Some((first.strip_prefix("id ")?.parse().ok()?, range))
}

// How many bytes of payload a line says, as `64 bytes 7i+1`: at most 1,024.
fn payload_len(text: &str) -> Option<usize>
    ensures { IfSome result (λ len. len ≤ 1024) }
{
    let len = text.strip_suffix(" bytes 7i+1")?.parse().ok()?;
    if len <= 1024 { Some(len) } else { None }
}

// What a packet of type 9 came to: a range is cut into the parts of pages that the line names, and the packet is built of
// them.
fn gpa_of(digits: &str, meaning: &str) -> Option<Came> {
    let (head, tail) = meaning.split_once(" payload ")?;
    let (id, range) = range_in(head)?;
    let len = payload_len(tail)?;
    let mut parts = [NONE; MOST];
    let pages = range.pages.get(..range.count)?;
    let count = spans(range.offset, range.len, pages, &mut parts).ok()?;
    let bytes = payload();
    let mut words = [0; MOST_WORDS];
    let built = build_gpa(&mut words, id, &parts[..count], &bytes[..len]);
    Some(compare(&words, built, digits))
}

// What a packet of type 7 came to: range r has 100 + r bytes at offset 2048r.
fn xfer_of(digits: &str, meaning: &str) -> Option<Came> {
    let (id, rest) = meaning.strip_prefix("id ")?.split_once(" pageset ")?;
    let (pageset, rest) = rest.split_once(" ranges ")?;
    let (count, rest) = rest.split_once(" (count 100+r offset 2048r) payload ")?;
    let len = payload_len(rest)?;
    let ranges = [(100, 0), (101, 2048), (102, 4096), (103, 6144)];
    let ranges = ranges.get(..count.parse().ok()?)?;
    let bytes = payload();
    let mut words = [0; MOST_WORDS];
    let pageset = pageset.parse().ok()?;
    let built = build_xfer(&mut words, id.parse().ok()?, pageset, ranges, &bytes[..len]);
    Some(compare(&words, built, digits))
}

/// What the packet of type 9 with these digits came to.
pub(crate) fn gpa(digits: &str, meaning: &str) -> Came {
    gpa_of(digits, meaning).unwrap_or(Came::NoPacket)
}

/// What the packet of type 7 with these digits came to.
pub(crate) fn xfer(digits: &str, meaning: &str) -> Came {
    xfer_of(digits, meaning).unwrap_or(Came::NoPacket)
}
