//! Ranges of bytes over several pages, cut into parts of pages.

ghost use Rattle.std.specs.Prelude.{◌≡◌, ◌+◌, ◌-◌, ◌/◌, ◌<◌, ◌≤◌, length, take, drop, min, IfOk, OnOk, OnErr, MatchResult, None, Some};
ghost use Rattle.vm_page.specs.Cuts.{IsCutOf, fault_of, parts_count};

use crate::{PAGE, Span, SpanFault};

// The pages that a range touches, from its first page's start on.
fn pages_for(offset: u32, len: u32) -> u64
    ensures { result ≡ (offset + len + 4095) / 4096 }
{
    (u64::from(offset) + u64::from(len)).div_ceil(PAGE as u64)
}

/// Cuts a range of `len` bytes, `offset` bytes from the start of its first page on, into its parts of these pages.
///
/// Answers how many parts stand in `out`. No part is empty, so a range of length 0 has none.
///
/// # Errors
///
/// `SpanFault::Offset` where the offset is 4,096 or more. Otherwise `SpanFault::Pages` where the range touches another
/// number of pages. `out` is unchanged then.
pub fn spans(offset: u32, len: u32, pages: &[u64], out: &mut [Span]) -> Result<usize, SpanFault>
    requires { length pages.now ≤ length out.old }
    ensures fault { MatchResult result (λ _. fault_of offset len (length pages.now) ≡ None) (λ e. fault_of offset len (length pages.now) ≡ Some e) }
    ensures count { IfOk result (λ n. n ≡ parts_count len pages.now) }
    ensures parts { IfOk result (λ n. IsCutOf offset len (take n pages.now) (take n out.new)) }
    ensures rest { IfOk result (λ n. drop n out.new ≡ drop n out.old) }
    ensures refused { OnErr result (out.new ≡ out.old) }
{
    if offset >= PAGE as u32 {
        return Err(SpanFault::Offset { value: offset });
    }
    let want = pages_for(offset, len);
    let have = pages.len() as u64;
    if want != have {
        return Err(SpanFault::Pages { want, have });
    }
    if len == 0 {
        return Ok(0);
    }
    cut(offset, len, pages, out);
    Ok(pages.len())
}

// Writes the parts of a range that ends in the last of these pages.
fn cut(offset: u32, len: u32, pages: &[u64], out: &mut [Span])
    requires room { length pages.now ≤ length out.old }
    requires begins { offset < 4096 }
    requires some { 0 < len }
    requires pages { (offset + len + 4095) / 4096 ≡ length pages.now }
    ensures parts { IsCutOf offset len pages.now (take (length pages.now) out.new) }
    ensures rest { drop (length pages.now) out.new ≡ drop (length pages.now) out.old }
{
    let mut from = offset;
    let mut left = len;
    for i in 0..pages.len() {
        let part = left.min(PAGE as u32 - from);
        out[i] = Span {
            page: pages[i],
            offset: from,
            len: part,
        };
        left -= part;
        from = 0;
    }
}
