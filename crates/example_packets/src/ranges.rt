//! A guest asks with data that lies in its own pages: its packet names the parts of the pages.
ghost use Rattle.std.specs.Prelude.{◌≡◌, ◌≤◌, List, length, take, IfOk, IfErr, OnErr, Some};
ghost use Rattle.vm_page.specs.Cuts.{IsCutOf, fault_of, parts_count};
ghost use Rattle.vm_page.specs.declared.span.Span.{Span as OneSpan};
ghost use Rattle.pkt_desc.specs.Built.{CarriesSpans};

use pkt_desc::build_gpa;
use vm_page::{Span, SpanFault, spans};

/// Writes a packet of type 9 under an id, which asks for a completion: its ranges are the `len` bytes from byte `offset` of the first of these pages on, and
/// behind them stands the payload. Answers how many words it has. Pages that aren't just those that the bytes touch are refused.
pub fn ask_by_pages(
    id: u64,
    offset: u32,
    len: u32,
    pages: &[u64],
    payload: &[u8; 64],
    out: &mut [u64],
) -> Result<usize, SpanFault>
    requires few { length pages.now ≤ 32 }
    requires room { 384 ≤ length out.old }
    ensures packet { IfOk result (λ n. (parts : List OneSpan) × IsCutOf offset len (take (parts_count len pages.now) pages.now) parts × CarriesSpans (take n out.new) id parts payload.now) }
    ensures fault { IfErr result (λ e. fault_of offset len (length pages.now) ≡ Some e) }
    ensures kept { OnErr result (out.new ≡ out.old) }
{
    let mut parts = [Span {
        page: 0,
        offset: 0,
        len: 0,
    }; 32];
    let count = spans(offset, len, pages, &mut parts)?;
    Ok(build_gpa(out, id, &parts[..count], payload))
}
