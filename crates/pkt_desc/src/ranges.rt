//! The ranges between a packet's descriptor and its payload.

ghost use Rattle.std.specs.Prelude.{◌≡◌, ◌+◌, ◌≤◌, nat_le, length, drop, slice_index};
ghost use Rattle.pkt_desc.specs.Ranges.{span_words, spans_words, told_count, ranges_end};

use crate::fields::{high_32, low_32};
use crate::kind::{GPA_DIRECT, TRANSFER_PAGES};
use vm_page::PAGE;

/// The number of ranges in a packet of type 7 or 9: 0 where the payload begins before the word with the number.
pub(crate) fn told_count(words: &[u64], offset8: u16) -> u32
    requires within { offset8 ≤ length words.now }
    requires past_descriptor { 2 ≤ offset8 }
    ensures { result ≡ told_count offset8 words.now }
{
    if offset8 == 2 {
        return 0;
    }
    high_32(words[2])
}

// The words of a range of pages: one with its length and offset, and one for each page that it touches.
fn span_words(word: u64) -> u64
    ensures { result ≡ span_words word }
{
    let end = u64::from(low_32(word)) + u64::from(high_32(word));
    1 + end.div_ceil(PAGE as u64)
}

// Whether so many ranges of pages, of which the first stands at word 3, end at or before the payload. No word of the payload
// is looked at.
fn spans_fit(words: &[u64], count: u32, offset8: u16) -> bool
    requires { offset8 ≤ length words.now }
    ensures { result ≡ nat_le (3 + spans_words count (drop 3 words.now)) offset8 }
{
    let payload = u64::from(offset8);
    let mut at = 3;
    for _ in 0..count {
        if at >= payload {
            return false;
        }
        at += span_words(words[at as usize]);
    }
    at <= payload
}

/// Whether a packet's ranges end at or before the payload. Packets of other types than 7 and 9 have none.
pub(crate) fn ranges_fit(words: &[u64], kind: u16, offset8: u16) -> bool
    requires within { offset8 ≤ length words.now }
    requires past_descriptor { 2 ≤ offset8 }
    ensures { result ≡ nat_le (ranges_end kind words.now) offset8 }
{
    let count = told_count(words, offset8);
    match kind {
        TRANSFER_PAGES => 3 + u64::from(count) <= u64::from(offset8),
        GPA_DIRECT => spans_fit(words, count, offset8),
        _ => true,
    }
}
