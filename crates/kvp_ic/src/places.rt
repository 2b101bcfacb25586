//! Where the texts of a message stand, by its operation.

ghost use Rattle.std.specs.Prelude.{◌≡◌, ◌≤◌};
ghost use Rattle.kvp_ic.specs.Messages.{record_at as record_begins, key_place as key_stands, value_place as value_stands};

use crate::text::TextPlace;

/// Where a record begins: behind the number of a place, where that is asked for.
fn record_at(operation: u8) -> usize
    ensures value { result ≡ record_begins operation }
    ensures most { result ≤ 36 }
{
    if operation == 3 { 36 } else { 32 }
}

/// Where the key stands.
pub(crate) fn key_place(operation: u8) -> TextPlace
    ensures { result ≡ key_stands operation }
{
    let record = record_at(operation);
    TextPlace {
        size_at: record + 4,
        at: record + 12,
    }
}

/// Where the value stands.
pub(crate) fn value_place(operation: u8) -> TextPlace
    ensures { result ≡ value_stands operation }
{
    let record = record_at(operation);
    TextPlace {
        size_at: record + 8,
        at: record + 524,
    }
}
