//! The layouts of the NVSP messages, one a message: the type, and then its fields.
ghost use Rattle.std.specs.Prelude.{◌≡◌};

use wire_table::{Checked, Field, Layout};

/// An init.
pub const INIT: Layout<3> = Layout {
    size: 12,
    fields: [
        Field { at: 0, width: 4 },
        Field { at: 4, width: 4 },
        Field { at: 8, width: 4 },
    ],
};

/// An init complete.
pub const INIT_COMPLETE: Layout<4> = Layout {
    size: 16,
    fields: [
        Field { at: 0, width: 4 },
        Field { at: 4, width: 4 },
        Field { at: 8, width: 4 },
        Field { at: 12, width: 4 },
    ],
};

/// An NDIS version.
pub const NDIS_VERSION: Layout<3> = Layout {
    size: 12,
    fields: [
        Field { at: 0, width: 4 },
        Field { at: 4, width: 4 },
        Field { at: 8, width: 4 },
    ],
};

/// A receive buffer.
pub const RECEIVE_BUFFER: Layout<3> = Layout {
    size: 10,
    fields: [
        Field { at: 0, width: 4 },
        Field { at: 4, width: 4 },
        Field { at: 8, width: 2 },
    ],
};

/// A receive buffer complete, with one section.
pub const RECEIVE_BUFFER_COMPLETE: Layout<7> = Layout {
    size: 28,
    fields: [
        Field { at: 0, width: 4 },
        Field { at: 4, width: 4 },
        Field { at: 8, width: 4 },
        Field { at: 12, width: 4 },
        Field { at: 16, width: 4 },
        Field { at: 20, width: 4 },
        Field { at: 24, width: 4 },
    ],
};

/// A send buffer.
pub const SEND_BUFFER: Layout<3> = Layout {
    size: 10,
    fields: [
        Field { at: 0, width: 4 },
        Field { at: 4, width: 4 },
        Field { at: 8, width: 2 },
    ],
};

/// A send buffer complete.
pub const SEND_BUFFER_COMPLETE: Layout<3> = Layout {
    size: 12,
    fields: [
        Field { at: 0, width: 4 },
        Field { at: 4, width: 4 },
        Field { at: 8, width: 4 },
    ],
};

/// A Remote NDIS packet.
pub const RNDIS_PACKET: Layout<4> = Layout {
    size: 16,
    fields: [
        Field { at: 0, width: 4 },
        Field { at: 4, width: 4 },
        Field { at: 8, width: 4 },
        Field { at: 12, width: 4 },
    ],
};

/// A Remote NDIS packet complete.
pub const RNDIS_PACKET_COMPLETE: Layout<2> = Layout {
    size: 8,
    fields: [Field { at: 0, width: 4 }, Field { at: 4, width: 4 }],
};

/// The layout of an init, whose fields lie apart and within its size.
pub fn init_table() -> Checked<3>
    ensures { result.layout ≡ INIT }
{
    Checked { layout: INIT }
}

/// The layout of an init complete, whose fields lie apart and within its size.
pub fn init_complete_table() -> Checked<4>
    ensures { result.layout ≡ INIT_COMPLETE }
{
    Checked {
        layout: INIT_COMPLETE,
    }
}

/// The layout of an NDIS version, whose fields lie apart and within its size.
pub fn ndis_version_table() -> Checked<3>
    ensures { result.layout ≡ NDIS_VERSION }
{
    Checked {
        layout: NDIS_VERSION,
    }
}

/// The layout of a receive buffer, whose fields lie apart and within its size.
pub fn receive_buffer_table() -> Checked<3>
    ensures { result.layout ≡ RECEIVE_BUFFER }
{
    Checked {
        layout: RECEIVE_BUFFER,
    }
}

/// The layout of a receive buffer complete, whose fields lie apart and within its size.
pub fn receive_buffer_complete_table() -> Checked<7>
    ensures { result.layout ≡ RECEIVE_BUFFER_COMPLETE }
{
    Checked {
        layout: RECEIVE_BUFFER_COMPLETE,
    }
}

/// The layout of a send buffer, whose fields lie apart and within its size.
pub fn send_buffer_table() -> Checked<3>
    ensures { result.layout ≡ SEND_BUFFER }
{
    Checked {
        layout: SEND_BUFFER,
    }
}

/// The layout of a send buffer complete, whose fields lie apart and within its size.
pub fn send_buffer_complete_table() -> Checked<3>
    ensures { result.layout ≡ SEND_BUFFER_COMPLETE }
{
    Checked {
        layout: SEND_BUFFER_COMPLETE,
    }
}

/// The layout of a Remote NDIS packet, whose fields lie apart and within its size.
pub fn rndis_packet_table() -> Checked<4>
    ensures { result.layout ≡ RNDIS_PACKET }
{
    Checked {
        layout: RNDIS_PACKET,
    }
}

/// The layout of a Remote NDIS packet complete, whose fields lie apart and within its size.
pub fn rndis_packet_complete_table() -> Checked<2>
    ensures { result.layout ≡ RNDIS_PACKET_COMPLETE }
{
    Checked {
        layout: RNDIS_PACKET_COMPLETE,
    }
}
