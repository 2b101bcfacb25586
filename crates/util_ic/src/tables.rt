//! The layouts of messages: the headers of each, and what their contents begin with.

ghost use Rattle.std.specs.Prelude.{◌≡◌, ◌+◌, ◌*◌, ◌^◌, ◌<◌, ◌≤◌, ◌++◌, length, take, drop};
ghost use Rattle.wire_table.specs.Tables.{at_of, width_of, end_of};
ghost use Rattle.util_ic.specs.Messages.{number_at, put};

use wire_table::{Checked, Field, Layout};

/// The two headers of every message: the pipe's flags and message size; then the IC header's frame version (two fields),
/// type, message version (two fields), size, status, transaction, flags and reserved bytes (Linux 6.12,
/// `include/linux/hyperv.h`, structs vmbuspipe_hdr and icmsg_hdr).
pub const HEADER: Layout<12> = Layout {
    size: 28,
    fields: [
        Field { at: 0, width: 4 },
        Field { at: 4, width: 4 },
        Field { at: 8, width: 2 },
        Field { at: 10, width: 2 },
        Field { at: 12, width: 2 },
        Field { at: 14, width: 2 },
        Field { at: 16, width: 2 },
        Field { at: 18, width: 2 },
        Field { at: 20, width: 4 },
        Field { at: 24, width: 1 },
        Field { at: 25, width: 1 },
        Field { at: 26, width: 2 },
    ],
};

/// The content of a negotiate message before its versions: the counts of frame and message versions, and reserved bytes (struct
/// icmsg_negotiate).
pub const NEGOTIATE: Layout<3> = Layout {
    size: 8,
    fields: [
        Field { at: 0, width: 2 },
        Field { at: 2, width: 2 },
        Field { at: 4, width: 4 },
    ],
};

/// A version of a negotiate message: its two numbers (struct ic_version).
pub const VERSION: Layout<2> = Layout {
    size: 4,
    fields: [Field { at: 0, width: 2 }, Field { at: 2, width: 2 }],
};

/// The content of a heartbeat up to its reserved bytes: the sequence number (struct heartbeat_msg_data).
pub const HEARTBEAT: Layout<1> = Layout {
    size: 8,
    fields: [Field { at: 0, width: 8 }],
};

/// The content of a shutdown up to its text: the reason, the timeout and the flags (struct shutdown_msg_data).
pub const SHUTDOWN: Layout<3> = Layout {
    size: 12,
    fields: [
        Field { at: 0, width: 4 },
        Field { at: 4, width: 4 },
        Field { at: 8, width: 4 },
    ],
};

/// Where the content begins, behind both headers.
pub const CONTENT: usize = 28;

/// Where the versions of a negotiate message begin, behind its counts.
pub const VERSIONS: usize = 36;

/// The headers of every message.
pub fn header_table() -> Checked<12>
    ensures { result.layout ≡ HEADER }
{
    Checked { layout: HEADER }
}

/// The two counts of a negotiate message.
pub fn negotiate_table() -> Checked<3>
    ensures { result.layout ≡ NEGOTIATE }
{
    Checked { layout: NEGOTIATE }
}

/// A version.
pub fn version_table() -> Checked<2>
    ensures { result.layout ≡ VERSION }
{
    Checked { layout: VERSION }
}

/// A heartbeat's content.
pub fn heartbeat_table() -> Checked<1>
    ensures { result.layout ≡ HEARTBEAT }
{
    Checked { layout: HEARTBEAT }
}

/// A shutdown's content.
pub fn shutdown_table() -> Checked<3>
    ensures { result.layout ≡ SHUTDOWN }
{
    Checked { layout: SHUTDOWN }
}

/// The number in field `i` of a layout that begins at byte `start` of a message.
pub fn get<const N: usize>(table: &Checked<N>, message: &[u8], start: usize, i: usize) -> u64
    requires field { i < N }
    requires bytes { start + table.now.layout.size ≤ length message.now }
    ensures value { result ≡ number_at (start + at_of table.now.layout.fields i) (width_of table.now.layout.fields i) message.now }
    ensures fits { result < 256 ^ width_of table.now.layout.fields i }
{
    table.get(&message[start..], i)
}

/// Writes a number into field `i` of a layout that begins at byte `start` of a message. Everything else stays.
pub fn set<const N: usize>(table: &Checked<N>, message: &mut [u8], start: usize, i: usize, v: u64)
    requires field { i < N }
    requires bytes { start + table.now.layout.size ≤ length message.old }
    requires fits { v < 256 ^ width_of table.now.layout.fields i }
    ensures { message.new ≡ put (start + at_of table.now.layout.fields i) (width_of table.now.layout.fields i) v message.old }
{
    table.put(&mut message[start..], i, v);
}
