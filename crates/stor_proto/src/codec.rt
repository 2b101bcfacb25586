//! Storage packets as bytes.
ghost use Rattle.std.specs.Prelude.{◌≡◌, ◌≤◌, [], ◌∷◌, length, take};
ghost use Rattle.std.specs.Prelude.{None, Some, IfOk, IfErr, MatchResult};
ghost use Rattle.wire_table.specs.Rows.{num, spelled_after};
ghost use Rattle.stor_proto.specs.Packets.{IsAllowed, InForm, vstor_bytes, vstor_in, vstor_fault};

use crate::{FieldName, Operation, Vstor, VstorFault};
use wire_table::{Checked, Field, Layout, fields, put_bytes};

/// The numbers of a storage packet: operation, flags and status. 52 bytes follow them.
pub const VSTOR: Layout<3> = Layout {
    size: 64,
    fields: [
        Field { at: 0, width: 4 },
        Field { at: 4, width: 4 },
        Field { at: 8, width: 4 },
    ],
};

fn vstor_table() -> Checked<3>
    ensures { result.layout ≡ VSTOR }
{
    Checked { layout: VSTOR }
}

/// Writes a packet: operation, flags, status and 52 bytes (struct `vstor_packet` of Linux 6.12,
/// `drivers/scsi/storvsc_drv.c`). A request has status 0.
#[tactic(auto, unfolding(crate::specs::Packets::vstor_bytes))]
pub fn encode_vstor(p: &Vstor, out: &mut [u8; 64])
    requires { IsAllowed p.now }
    ensures { out.new ≡ vstor_bytes p.now }
{
    put_numbers(out, p.operation, p.flags, p.status);
    put_bytes(out, 12, &p.rest);
}

/// Writes the numbers at the front of a packet.
fn put_numbers(out: &mut [u8; 64], operation: u32, flags: u32, status: u32)
    ensures { take 12 out.new
        ≡ spelled_after [] (num 4 operation ∷ num 4 flags ∷ num 4 status ∷ []) }
{
    let table = vstor_table();
    fields!(put table in out: num 0 = operation, num 1 = flags, num 2 = status);
}

/// Reads the packet with which bytes begin; what follows its 64 bytes is data. Refused are fewer
/// bytes, then an unknown operation, then a request whose status isn't 0.
pub fn decode_vstor(bytes: &[u8]) -> Result<Vstor, VstorFault>
    // The bytes begin with those of the packet.
    ensures found { IfOk result
        (λ p. InForm p × IsAllowed p × (take 64 bytes.now ≡ vstor_bytes p)) }

    // A packet that is spelled so is read.
    ensures only { (p : _) → InForm p → IsAllowed p → take 64 bytes.now ≡ vstor_bytes p
        → result ≡ Ok p }

    // Else the first fault is told.
    ensures exact { IfErr result (λ e. vstor_fault bytes.now ≡ Some e) }
{
    parse(bytes)
}

// Too few bytes come first, then an unknown operation, then a status that isn't 0 in a packet that isn't a completion.
#[tactic(auto, unfolding(crate::specs::Packets::vstor_fault, crate::specs::Packets::vstor_in))]
fn parse(bytes: &[u8]) -> Result<Vstor, VstorFault>
    ensures { MatchResult result
        (λ p. (vstor_fault bytes.now ≡ None) × (p ≡ vstor_in bytes.now))
        (λ e. vstor_fault bytes.now ≡ Some e) }
{
    if bytes.len() < 64 {
        return Err(VstorFault::Short {
            have: bytes.len() as u32,
            need: 64,
        });
    }
    let p = read(bytes);
    if Operation::of(p.operation).is_none() {
        return Err(VstorFault::Operation { value: p.operation });
    }
    if p.status != 0 && p.operation != 1 {
        return Err(VstorFault::Field {
            name: FieldName::Status,
            value: u64::from(p.status),
        });
    }
    Ok(p)
}

// The packet that the first 64 bytes are.
#[tactic(auto, unfolding(crate::specs::Packets::vstor_in))]
fn read(bytes: &[u8]) -> Vstor
    requires { 64 ≤ length bytes.now }
    ensures { result ≡ vstor_in bytes.now }
{
    let table = vstor_table();
    fields!(get table in bytes: Vstor { operation: u32 0, flags: u32 1, status: u32 2, rest: raw 12 })
}
