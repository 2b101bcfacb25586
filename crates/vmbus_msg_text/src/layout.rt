//! Where the fields of each message stand, and how they are printed.
ghost use Rattle.std.specs.Prelude.{◌≡◌, Some, None, MatchOption};
ghost use Rattle.vmbus_msg_text.specs.Layouts.{AreLayouts, layout_among};

use crate::layout::Shown::{Digits, Hidden, Number, Runs};

/// How a field is printed: not at all, or behind its name.
#[derive(Clone, Copy)]
pub enum Shown {
    /// A number that isn't printed.
    Hidden,
    /// A number, in decimal digits.
    Number(&'static str),
    /// Bytes, as hexadecimal digits.
    Digits(&'static str),
    /// Bytes, as runs.
    Runs(&'static str),
}

/// A message's type and name, and how each field behind the type is printed and how many bytes it
/// has, in the order of the wire.
#[derive(Clone, Copy)]
pub struct Layout {
    pub kind: u64,
    pub name: &'static str,
    pub fields: &'static [(Shown, usize)],
}

const LAYOUTS: &[Layout] = &[
    Layout {
        kind: 1,
        name: "OFFERCHANNEL",
        fields: &[
            (Hidden, 4),
            (Digits("if_type"), 16),
            (Digits("if_instance"), 16),
            (Hidden, 8),
            (Hidden, 8),
            (Number("chn_flags"), 2),
            (Number("mmio"), 2),
            (Runs("user"), 120),
            (Number("sub"), 2),
            (Hidden, 2),
            (Number("relid"), 4),
            (Number("monitorid"), 1),
            (Number("monitor"), 1),
            (Number("interrupt"), 2),
            (Number("connection"), 4),
        ],
    },
    Layout {
        kind: 2,
        name: "RESCIND_CHANNELOFFER",
        fields: &[(Hidden, 4), (Number("relid"), 4)],
    },
    Layout {
        kind: 3,
        name: "REQUESTOFFERS",
        fields: &[(Hidden, 4)],
    },
    Layout {
        kind: 4,
        name: "ALLOFFERS_DELIVERED",
        fields: &[(Hidden, 4)],
    },
    Layout {
        kind: 5,
        name: "OPENCHANNEL",
        fields: &[
            (Hidden, 4),
            (Number("relid"), 4),
            (Number("openid"), 4),
            (Number("gpadl"), 4),
            (Number("target_vp"), 4),
            (Number("downstream"), 4),
            (Runs("user"), 120),
        ],
    },
    Layout {
        kind: 6,
        name: "OPENCHANNEL_RESULT",
        fields: &[
            (Hidden, 4),
            (Number("relid"), 4),
            (Number("openid"), 4),
            (Number("status"), 4),
        ],
    },
    Layout {
        kind: 7,
        name: "CLOSECHANNEL",
        fields: &[(Hidden, 4), (Number("relid"), 4)],
    },
    Layout {
        kind: 8,
        name: "GPADL_HEADER",
        fields: &[
            (Hidden, 4),
            (Number("relid"), 4),
            (Number("gpadl"), 4),
            (Number("range_buflen"), 2),
            (Number("rangecount"), 2),
            (Number("byte_count"), 4),
            (Number("byte_offset"), 4),
        ],
    },
    Layout {
        kind: 9,
        name: "GPADL_BODY",
        fields: &[(Hidden, 4), (Number("msgnumber"), 4), (Number("gpadl"), 4)],
    },
    Layout {
        kind: 10,
        name: "GPADL_CREATED",
        fields: &[
            (Hidden, 4),
            (Number("relid"), 4),
            (Number("gpadl"), 4),
            (Number("status"), 4),
        ],
    },
    Layout {
        kind: 11,
        name: "GPADL_TEARDOWN",
        fields: &[(Hidden, 4), (Number("relid"), 4), (Number("gpadl"), 4)],
    },
    Layout {
        kind: 12,
        name: "GPADL_TORNDOWN",
        fields: &[(Hidden, 4), (Number("gpadl"), 4)],
    },
    Layout {
        kind: 13,
        name: "RELID_RELEASED",
        fields: &[(Hidden, 4), (Number("relid"), 4)],
    },
    Layout {
        kind: 14,
        name: "INITIATE_CONTACT",
        fields: &[
            (Hidden, 4),
            (Number("version"), 4),
            (Number("target_vcpu"), 4),
            (Number("page"), 8),
            (Number("monitor1"), 8),
            (Number("monitor2"), 8),
        ],
    },
    Layout {
        kind: 15,
        name: "VERSION_RESPONSE",
        fields: &[
            (Hidden, 4),
            (Number("supported"), 1),
            (Number("state"), 1),
            (Hidden, 2),
            (Number("conn"), 4),
        ],
    },
    Layout {
        kind: 16,
        name: "UNLOAD",
        fields: &[(Hidden, 4)],
    },
    Layout {
        kind: 17,
        name: "UNLOAD_RESPONSE",
        fields: &[(Hidden, 4)],
    },
    Layout {
        kind: 21,
        name: "TL_CONNECT_REQUEST",
        fields: &[
            (Hidden, 4),
            (Digits("guest_endpoint"), 16),
            (Digits("host_service"), 16),
        ],
    },
    Layout {
        kind: 22,
        name: "MODIFYCHANNEL",
        fields: &[(Hidden, 4), (Number("relid"), 4), (Number("target_vp"), 4)],
    },
    Layout {
        kind: 24,
        name: "MODIFYCHANNEL_RESPONSE",
        fields: &[(Hidden, 4), (Number("relid"), 4), (Number("status"), 4)],
    },
];

/// The layouts of all messages.
pub fn layouts() -> &'static [Layout]
    ensures { AreLayouts result.now }
{
    LAYOUTS
}

/// The first of these layouts that is of the type.
pub fn layout_of(layouts: &'static [Layout], kind: u64) -> Option<&'static Layout>
    ensures { MatchOption result (layout_among layouts.now kind ≡ None) (λ l. layout_among layouts.now kind ≡ Some l.now) }
{
    for layout in layouts {
        if kind == layout.kind {
            return Some(layout);
        }
    }
    None
}
