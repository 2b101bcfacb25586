//! NVSP messages, written.
ghost use Rattle.std.specs.Prelude.{true, ◌≡◌, ◌≢◌, ◌≤◌, ◌<◌, ◌%◌, ◌^◌, Some, None, IfSome, ◌++◌, ℕ, List, length, take, drop};
ghost use Rattle.net_dev.specs.Nvsp.{InForm, IsNvsp, nvsp_bytes};
ghost use Rattle.net_dev.specs.declared.nvsp.Nvsp.{Nvsp as NvspMessage};
ghost use Rattle.vmbus_net_c.specs.Network.{nvsp_fields};
ghost use Rattle.vmbus_net_c.specs.NvspWriting.{nvsp_of};

use crate::network::{VmbusNvsp, nvsp_fields};
use net_dev::{Nvsp, encode_nvsp};
use vmbus_fault::put_front;

// The low 16 bits of a number.
fn low_16(number: u32) -> u16
    ensures { result ≡ number % 2 ^ 16 }
{
    (number % 0x1_0000) as u16
}

// The message of the type that the numbers give, of those numbers that the type has: an id's low 16 bits.
fn shaped(v: &VmbusNvsp) -> Option<Nvsp>
    ensures { result ≡ nvsp_of v.now }
{
    match v.kind {
        1 => Some(Nvsp::Init {
            min: v.min,
            max: v.max,
        }),
        2 => Some(Nvsp::InitComplete {
            version: v.version,
            mdl_chain_length: v.mdl_chain_length,
            status: v.status,
        }),
        100 => Some(Nvsp::NdisVersion {
            major: v.major,
            minor: v.minor,
        }),
        101 => Some(Nvsp::ReceiveBuffer {
            gpadl: v.gpadl,
            id: low_16(v.id),
        }),
        102 => Some(Nvsp::ReceiveBufferComplete {
            status: v.status,
            count: v.count,
            offset: v.offset,
            sub_alloc_size: v.sub_alloc_size,
            num_sub_allocs: v.num_sub_allocs,
            end_offset: v.end_offset,
        }),
        104 => Some(Nvsp::SendBuffer {
            gpadl: v.gpadl,
            id: low_16(v.id),
        }),
        105 => Some(Nvsp::SendBufferComplete {
            status: v.status,
            section_size: v.section_size,
        }),
        107 => Some(Nvsp::RndisPacket {
            channel_type: v.channel_type,
            section_index: v.section_index,
            section_size: v.section_size,
        }),
        108 => Some(Nvsp::RndisPacketComplete { status: v.status }),
        _ => None,
    }
}

// Whether two messages have the same numbers.
fn are_same(a: &VmbusNvsp, b: &VmbusNvsp) -> bool
    ensures same { result ≡ true → a.now ≡ b.now }
    ensures only { a.now ≡ b.now → result ≡ true }
{
    *a == *b
}

// The message whose numbers these are, if there is one.
fn message_of(v: &VmbusNvsp) -> Option<Nvsp>
    ensures whose { IfSome result (λ m. nvsp_fields m ≡ v.now) }
    ensures form { IfSome result (λ m. InForm m) }
    ensures only { (m : NvspMessage) → InForm m → nvsp_fields m ≡ v.now → result ≡ Some m }
{
    let m = shaped(v)?;
    if are_same(&nvsp_fields(&m), v) {
        Some(m)
    } else {
        None
    }
}

// The bytes of a message.
fn encoded(m: &Nvsp) -> [u8; 40]
    ensures len { length result ≡ 40 }
    ensures bytes { result ≡ nvsp_bytes m.now }
    ensures message { (more : List ℕ) → IsNvsp m.now (nvsp_bytes m.now ++ more) }
{
    let mut bytes = [0; 40];
    encode_nvsp(m, &mut bytes);
    bytes
}

/// Writes the NVSP message of these numbers at the front of `out`, in 40 bytes: those behind its fields are 0. It answers 0, or 1 where no message has these numbers
/// (those that its type doesn't have are 0, and an id has 16 bits), or else 2 where `out` has less than 40 bytes; then nothing is written.
#[unsafe(no_mangle)]
pub extern "C" fn vmbus_nvsp_write(message: &VmbusNvsp, out: &mut [u8]) -> u32
    ensures written { result ≡ 0 → (m : NvspMessage) × ((nvsp_fields m ≡ message.now) × (take 40 out.new ≡ nvsp_bytes m) × ((more : List ℕ) → IsNvsp m (nvsp_bytes m ++ more))) }
    ensures every { (m : NvspMessage) → InForm m → nvsp_fields m ≡ message.now → 40 ≤ length out.old → (result ≡ 0) × (take 40 out.new ≡ nvsp_bytes m) }
    ensures none { result ≡ 1 → (m : NvspMessage) → InForm m → nvsp_fields m ≢ message.now }
    ensures room { result ≡ 2 → ((m : NvspMessage) × (InForm m × (nvsp_fields m ≡ message.now))) × (length out.old < 40) }
    ensures three { result ≤ 2 }
    ensures rest { drop 40 out.new ≡ drop 40 out.old }
    ensures kept { result ≢ 0 → out.new ≡ out.old }
{
    let Some(m) = message_of(message) else {
        return 1;
    };
    if out.len() < 40 {
        return 2;
    }
    put_front(out, &encoded(&m));
    0
}
