//! The test of a layout.

ghost use Rattle.std.specs.Prelude.{◌≡◌, ◌+◌, ◌<◌, ◌≤◌, length, drop, MatchResult, None, Some, option_map};
ghost use Rattle.wire_table.specs.Tables.{EachWidth, fault_of, IsFaultOf, IsSound, share as fields_share, field_of, shared_by, overlap_of, past_end_of};

use crate::field::{Field, Layout, LayoutFault};
use crate::layout::Checked;

// Where a field ends. (A field that is passed by value is known to fit its types.)
fn end(f: Field) -> u32
    ensures { result ≡ f.at + f.width }
{
    u32::from(f.at) + u32::from(f.width)
}

// Two fields share a byte where each begins before the other ends.
fn share(f: Field, g: Field) -> bool
    ensures { result ≡ fields_share f g }
{
    u32::from(f.at) < end(g) && u32::from(g.at) < end(f)
}

// The first field after field k that shares a byte with it.
fn next_shared(fields: &[Field], k: usize) -> Option<u16>
    requires k { k < length fields.now }
    requires count { length fields.now ≤ 65536 }
    ensures { result ≡ shared_by (field_of fields.now k) (k + 1) (drop (k + 1) fields.now) }
{
    let f = fields[k];
    for j in k + 1..fields.len() {
        if share(f, fields[j]) {
            return Some(j as u16);
        }
    }
    None
}

// The least pair of fields that share a byte.
fn overlap(fields: &[Field]) -> Option<LayoutFault>
    requires { length fields.now ≤ 65536 }
    ensures { result ≡ overlap_of 0 fields.now }
{
    for k in 0..fields.len() {
        if let Some(second) = next_shared(fields, k) {
            return Some(LayoutFault::Overlap {
                first: k as u16,
                second,
            });
        }
    }
    None
}

// The first field that ends past the size.
fn past_end(size: u16, fields: &[Field]) -> Option<LayoutFault>
    requires { length fields.now ≤ 65536 }
    ensures { result ≡ past_end_of size 0 fields.now }
{
    for k in 0..fields.len() {
        if end(fields[k]) > u32::from(size) {
            return Some(LayoutFault::PastEnd { field: k as u16 });
        }
    }
    None
}

impl<const N: usize> Layout<N> {
    /// Tests a layout once, so that its fields can be read and written with no further test.
    ///
    /// Errors: `Overlap`, where two fields share a byte, with the least pair in order; otherwise
    /// `PastEnd`, where a field ends past the size, with the first such field.
    pub fn check(self) -> Result<Checked<N>, LayoutFault>
        requires widths { EachWidth self.fields }
        requires count { N ≤ 65536 }

        // Ok exactly where the layout is sound, and each fault exactly where it says what is wrong.
        ensures meaning { MatchResult result (λ c. IsSound self.entry.size self.entry.fields) (λ e. IsFaultOf self.entry.size self.entry.fields e) }

        // What a constant layout gives is found by computing.
        ensures computed { MatchResult result (λ c. c.layout ≡ self.entry) (λ e. fault_of self.entry.size self.entry.fields ≡ Some e) }
    {
        if let Some(fault) = overlap(&self.fields) {
            return Err(fault);
        }
        if let Some(fault) = past_end(self.size, &self.fields) {
            return Err(fault);
        }
        Ok(Checked { layout: self })
    }
}
