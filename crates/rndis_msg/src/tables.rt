//! The fixed parts of the messages. Each field is a number of 4 bytes; the first two are the type and the
//! length.
ghost use Rattle.std.specs.Prelude.{◌≡◌};

use wire_table::{Checked, Field, Layout};

/// An initialize: request id, major, minor and the greatest transfer.
pub const INITIALIZE: Layout<6> = Layout {
    size: 24,
    fields: [
        Field { at: 0, width: 4 },
        Field { at: 4, width: 4 },
        Field { at: 8, width: 4 },
        Field { at: 12, width: 4 },
        Field { at: 16, width: 4 },
        Field { at: 20, width: 4 },
    ],
};

/// The layout of an initialize, whose fields lie apart and within its size.
pub fn initialize_table() -> Checked<6>
    ensures { result.layout ≡ INITIALIZE }
{
    Checked { layout: INITIALIZE }
}

/// An initialize complete: request id, status, major, minor, device flags, medium, packets and bytes of a
/// transfer, alignment and two reserved fields.
pub const INITIALIZE_COMPLETE: Layout<13> = Layout {
    size: 52,
    fields: [
        Field { at: 0, width: 4 },
        Field { at: 4, width: 4 },
        Field { at: 8, width: 4 },
        Field { at: 12, width: 4 },
        Field { at: 16, width: 4 },
        Field { at: 20, width: 4 },
        Field { at: 24, width: 4 },
        Field { at: 28, width: 4 },
        Field { at: 32, width: 4 },
        Field { at: 36, width: 4 },
        Field { at: 40, width: 4 },
        Field { at: 44, width: 4 },
        Field { at: 48, width: 4 },
    ],
};

/// The layout of an initialize complete, whose fields lie apart and within its size.
pub fn initialize_complete_table() -> Checked<13>
    ensures { result.layout ≡ INITIALIZE_COMPLETE }
{
    Checked {
        layout: INITIALIZE_COMPLETE,
    }
}

/// A query or a set: request id, OID, info length, info offset and a handle.
pub const QUERY: Layout<7> = Layout {
    size: 28,
    fields: [
        Field { at: 0, width: 4 },
        Field { at: 4, width: 4 },
        Field { at: 8, width: 4 },
        Field { at: 12, width: 4 },
        Field { at: 16, width: 4 },
        Field { at: 20, width: 4 },
        Field { at: 24, width: 4 },
    ],
};

/// The layout of a query or a set, whose fields lie apart and within its size.
pub fn query_table() -> Checked<7>
    ensures { result.layout ≡ QUERY }
{
    Checked { layout: QUERY }
}

/// A query complete: request id, status, info length and info offset.
pub const QUERY_COMPLETE: Layout<6> = Layout {
    size: 24,
    fields: [
        Field { at: 0, width: 4 },
        Field { at: 4, width: 4 },
        Field { at: 8, width: 4 },
        Field { at: 12, width: 4 },
        Field { at: 16, width: 4 },
        Field { at: 20, width: 4 },
    ],
};

/// The layout of a query complete, whose fields lie apart and within its size.
pub fn query_complete_table() -> Checked<6>
    ensures { result.layout ≡ QUERY_COMPLETE }
{
    Checked {
        layout: QUERY_COMPLETE,
    }
}

/// A halt or a keepalive with its request id, or a reset with a reserved field.
pub const PLAIN: Layout<3> = Layout {
    size: 12,
    fields: [
        Field { at: 0, width: 4 },
        Field { at: 4, width: 4 },
        Field { at: 8, width: 4 },
    ],
};

/// The layout of a halt, a keepalive or a reset, whose fields lie apart and within its size.
pub fn plain_table() -> Checked<3>
    ensures { result.layout ≡ PLAIN }
{
    Checked { layout: PLAIN }
}

/// A set complete or a keepalive complete with request id and status, or a reset complete with status and
/// addressing reset.
pub const STATUS: Layout<4> = Layout {
    size: 16,
    fields: [
        Field { at: 0, width: 4 },
        Field { at: 4, width: 4 },
        Field { at: 8, width: 4 },
        Field { at: 12, width: 4 },
    ],
};

/// The layout of a set complete, a keepalive complete or a reset complete, whose fields lie apart and within its size.
pub fn status_table() -> Checked<4>
    ensures { result.layout ≡ STATUS }
{
    Checked { layout: STATUS }
}
