//! What a packet says.
ghost use Rattle.std.specs.Prelude.{◌≡◌, ◌≤◌, ◌+◌, ◌/◌, ◌%◌, ◌++◌, OnOk, IfOk, vec_len, length, map};
ghost use Rattle.std.specs.List.{range_with_len};
ghost use Rattle.hostile_decoders.specs.Packets.{words_in, packet_fault_said, packet_text, lent_said};

use crate::text::{push, push_two};
use pkt_desc::{Lent, PacketFault, lent, parse};
use std::alloc::{AllocError, Global};
use vm_page::word_of;

// The words of bytes, eight each.
fn words_in(alloc: Global, bytes: &[u8]) -> Result<Vec<u64>, AllocError>
    ensures words { IfOk result (λ words. words.items ≡ words_in bytes.now) }
    ensures len { IfOk result (λ words. length words.items ≡ length bytes.now / 8) }
{
    let mut words = Vec::new(alloc);
    for i in 0..bytes.len() / 8 {
        words.push(word_of(bytes, i))?;
    }
    Ok(words)
}

// The page that a packet lends, where it does.
fn push_lent(text: &mut Vec<u8>, lent: Option<Lent>) -> Result<(), AllocError>
    ensures text { OnOk result (text.new.items ≡ text.old.items ++ lent_said lent) }
    ensures short { OnOk result (vec_len text.new ≤ vec_len text.old + 60) }
{
    match lent {
        Some(lent) => push_two(
            text,
            b"lent page ",
            u64::from(lent.page),
            b" bytes ",
            u64::from(lent.bytes),
        ),
        None => push(text, b"lent none"),
    }
}

fn push_fault(text: &mut Vec<u8>, fault: PacketFault) -> Result<(), AllocError>
    ensures text { OnOk result (text.new.items ≡ text.old.items ++ packet_fault_said fault) }
    ensures short { OnOk result (vec_len text.new ≤ vec_len text.old + 70) }
{
    match fault {
        PacketFault::Length { len8, have } => {
            push_two(text, b"packet length ", u64::from(len8), b" have ", have)
        }
        PacketFault::Offset { offset8, len8 } => push_two(
            text,
            b"packet offset ",
            u64::from(offset8),
            b" length ",
            u64::from(len8),
        ),
        PacketFault::Ranges { count, have } => {
            push_two(text, b"packet ranges ", u64::from(count), b" have ", have)
        }
    }
}

/// The first fault of the packet with these bytes, or the page that it lends.
pub(crate) fn push_packet(alloc: Global, text: &mut Vec<u8>, bytes: &[u8]) -> Result<(), AllocError>
    requires { 16 ≤ length bytes.now }
    ensures text { OnOk result (text.new.items ≡ text.old.items ++ packet_text bytes.now) }
    ensures short { OnOk result (vec_len text.new ≤ vec_len text.old + 70) }
{
    let words = words_in(alloc, bytes)?;
    match parse(&words) {
        Ok(_) => push_lent(text, lent(&words)),
        Err(fault) => push_fault(text, fault),
    }
}
