//! The host's answers in a channel's start-up.
ghost use Rattle.std.specs.Prelude.{◌≡◌, ◌≢◌, ◌<◌, IsSome};
ghost use Rattle.stor_proto.specs.Fields.{number_at, with_number};
ghost use Rattle.stor_proto.specs.Operations.{operation_of};
ghost use Rattle.stor_proto.specs.Opening.{is_version, status_of, with_properties, start_of, answer_of};

use crate::{Operation, Vstor};
use wire_table::{Checked, Field, Layout, fields, get_at, put_at};

/// The numbers of the properties that an answer has: sub-channels at most, flags, and bytes that
/// one request moves at most (struct `vmstorage_channel_properties`).
pub const PROPERTIES: Layout<3> = Layout {
    size: 52,
    fields: [
        Field { at: 4, width: 2 },
        Field { at: 8, width: 4 },
        Field { at: 12, width: 4 },
    ],
};

/// A request of the start-up, which asks for a completion. `first` is the version that
/// `QueryProtocolVersion` asks for, `major * 256 + minor`, or the count that `CreateSubChannels`
/// asks for; other operations have 0 there.
pub fn start_up(operation: Operation, first: u16) -> Vstor
    ensures { result ≡ start_of operation first }
{
    let mut rest = [0; 52];
    put_at_front(&mut rest, first);
    Vstor {
        operation: operation.number(),
        flags: 1,
        status: 0,
        rest,
    }
}

fn put_at_front(rest: &mut [u8; 52], first: u16)
    ensures { rest.new ≡ with_number 0 2 first rest.old }
{
    put_at(rest, 0, 2, u64::from(first));
}

/// The answer to a request that isn't an srb. A field to which no value is given is the request's.
pub fn answer(p: &Vstor) -> Vstor
    requires known { IsSome (operation_of p.now.operation) }
    requires other { p.now.operation ≢ 3 }
    ensures { result ≡ answer_of p.now }
{
    let operation = Operation::of(p.operation);
    let mut rest = p.rest;
    if let Some(Operation::QueryProperties) = operation {
        put_properties(&mut rest);
    }
    Vstor {
        operation: 1,
        flags: p.flags,
        status: status(operation, get_at(&p.rest, 0, 2)),
        rest,
    }
}

/// The status of an answer, by the number that stands first in its request: a version or a count.
fn status(operation: Option<Operation>, first: u64) -> u32
    ensures { result ≡ status_of operation first }
{
    match operation {
        Some(Operation::BeginInitialization)
        | Some(Operation::EndInitialization)
        | Some(Operation::EnumerateBus)
        | Some(Operation::QueryProperties) => 0,
        Some(Operation::QueryProtocolVersion) => { if is_served(first) { 0 } else { 1 } }
        Some(Operation::CreateSubChannels) => { if first <= 3 { 0 } else { 1 } }
        _ => 1,
    }
}

/// Whether a version, `major * 256 + minor`, is 6.2, 6.0 or 5.1.
fn is_served(version: u64) -> bool
    ensures { result ≡ is_version version }
{
    version == 0x0602 || version == 0x0600 || version == 0x0501
}

/// Three sub-channels at most, several channels are there, and 4,096 bytes at most.
fn put_properties(rest: &mut [u8; 52])
    ensures { rest.new ≡ with_properties rest.old }
{
    let table = Checked { layout: PROPERTIES };
    fields!(put table in rest: num 0 = 3u32, num 1 = 1u32, num 2 = 4096u32);
}
