//! The fields of an srb.
ghost use Rattle.std.specs.Prelude.{◌≡◌, ◌+◌, ◌<◌, ◌≤◌, ◌^◌, length};
ghost use Rattle.wire_table.specs.Tables.{at_of, width_of};
ghost use Rattle.stor_proto.specs.Fields.{number_at, with_number, with_bytes};

use wire_table::{Checked, Field, Layout};

/// The numbers of an srb (struct `vmscsi_request`). The command, or the sense, stands in the 20
/// bytes from byte 16 on.
pub const SRB: Layout<18> = Layout {
    size: 52,
    fields: [
        Field { at: 0, width: 2 },
        Field { at: 2, width: 1 },
        Field { at: 3, width: 1 },
        Field { at: 4, width: 1 },
        Field { at: 5, width: 1 },
        Field { at: 6, width: 1 },
        Field { at: 7, width: 1 },
        Field { at: 8, width: 1 },
        Field { at: 9, width: 1 },
        Field { at: 10, width: 1 },
        Field { at: 11, width: 1 },
        Field { at: 12, width: 4 },
        Field { at: 36, width: 2 },
        Field { at: 38, width: 1 },
        Field { at: 39, width: 1 },
        Field { at: 40, width: 4 },
        Field { at: 44, width: 4 },
        Field { at: 48, width: 4 },
    ],
};

/// How many bytes an srb has.
pub(crate) const LENGTH: usize = 0;
/// How the request ended: 1 is success.
pub(crate) const SRB_STATUS: usize = 1;
/// The SCSI status: 2 where there is sense.
pub(crate) const SCSI_STATUS: usize = 2;

pub(crate) const PATH: usize = 4;

pub(crate) const TARGET: usize = 5;

pub(crate) const LUN: usize = 6;
/// How many bytes the command has.
pub(crate) const CDB_LENGTH: usize = 7;
/// How many bytes of sense fit, or came.
pub(crate) const SENSE_INFO_LENGTH: usize = 8;
/// Where the data goes: 0 to the disk, 1 from it.
pub(crate) const DATA_IN: usize = 9;
/// How many bytes of data go, may come, or came.
pub(crate) const DATA_TRANSFER_LENGTH: usize = 11;

/// Where the command, or the sense, begins.
pub(crate) const CDB: usize = 16;

fn srb_table() -> Checked<18>
    ensures { result.layout ≡ SRB }
{
    Checked { layout: SRB }
}

/// The number in a field.
pub(crate) fn get(rest: &[u8; 52], field: usize) -> u64
    requires { field < 18 }
    ensures value { result
        ≡ number_at (at_of SRB.fields field) (width_of SRB.fields field) rest.now }
    ensures fits { result < 256 ^ width_of SRB.fields field }
{
    srb_table().get(rest, field)
}

/// Puts a number into a field. All other bytes stay.
pub(crate) fn put(rest: &mut [u8; 52], field: usize, v: u64)
    requires field { field < 18 }
    requires fits { v < 256 ^ width_of SRB.fields field }
    ensures { rest.new
        ≡ with_number (at_of SRB.fields field) (width_of SRB.fields field) v rest.old }
{
    srb_table().put(rest, field, v);
}

/// Puts bytes at a place. All other bytes stay.
pub(crate) fn put_part(rest: &mut [u8; 52], at: usize, part: &[u8])
    requires { at + length part.now ≤ 52 }
    ensures { rest.new ≡ with_bytes at part.now rest.old }
{
    wire_table::put_bytes(rest, at, part);
}
