//! What a storage packet says.
ghost use Rattle.std.specs.Prelude.{◌≡◌, ◌≤◌, ◌+◌, ◌++◌, ℕ, List, OnOk, vec_len};
ghost use Rattle.hostile_decoders.specs.Storage.{vstor_fault_said, SaysVstor, whole_said};
ghost use Rattle.stor_proto.specs.Packets.{InForm, IsAllowed};

use crate::text::{push, push_named, push_two};
use std::alloc::AllocError;
use stor_proto::{Vstor, VstorFault, answer, decode_vstor, srb_stopped};

fn push_fault(text: &mut Vec<u8>, fault: VstorFault) -> Result<(), AllocError>
    ensures text { OnOk result (text.new.items ≡ text.old.items ++ vstor_fault_said fault) }
    ensures short { OnOk result (vec_len text.new ≤ vec_len text.old + 60) }
{
    match fault {
        VstorFault::Short { have, need } => push_two(
            text,
            b"vstor short ",
            u64::from(have),
            b" need ",
            u64::from(need),
        ),
        VstorFault::Operation { value } => push_named(text, b"vstor operation ", u64::from(value)),
        VstorFault::Field { name: _, value } => push_named(text, b"vstor field ", value),
    }
}

// What is answered to a packet.
fn push_whole(text: &mut Vec<u8>, p: &Vstor) -> Result<(), AllocError>
    requires form { InForm p.now }
    requires allowed { IsAllowed p.now }
    ensures text { OnOk result (text.new.items ≡ text.old.items ++ whole_said p.now) }
    ensures short { OnOk result (vec_len text.new ≤ vec_len text.old + 60) }
{
    if p.operation != 3 {
        return push_named(text, b"vstor status ", u64::from(answer(p).status));
    }
    match srb_stopped(p) {
        Some(stop) => push_named(text, b"srb stop ", u64::from(stop.status)),
        None => push(text, b"srb ok"),
    }
}

/// The first fault of bytes that begin with no storage packet, or what is answered to it: whether an srb is stopped, and of any other packet the status.
pub(crate) fn push_vstor(text: &mut Vec<u8>, bytes: &[u8]) -> Result<(), AllocError>
    ensures text { OnOk result ((said : List ℕ) × SaysVstor bytes.now said × (text.new.items ≡ text.old.items ++ said)) }
    ensures short { OnOk result (vec_len text.new ≤ vec_len text.old + 60) }
{
    match decode_vstor(bytes) {
        Ok(p) => push_whole(text, &p),
        Err(fault) => push_fault(text, fault),
    }
}
