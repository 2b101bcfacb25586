//! The start-up of a storage channel.
ghost use Rattle.std.specs.Prelude.{◌≡◌, ◌≢◌, ◌≤◌, ◌<◌, ◌^◌, IsSome, IfSome, Some, None, length, take, drop};
ghost use Rattle.stor_proto.specs.Opening.{answer_of, start_of};
ghost use Rattle.stor_proto.specs.Operations.{operation_of};
ghost use Rattle.stor_proto.specs.Packets.{vstor_bytes};
ghost use Rattle.stor_proto.specs.declared.operation.Operation.{Operation as Step};
ghost use Rattle.stor_proto.specs.declared.vstor.Vstor.{Vstor as Packet};
ghost use Rattle.vmbus_stor_c.specs.Storage.{Begins, IsOpening};

use crate::storage::put_packet;
use stor_proto::{Operation, Vstor, answer, decode_vstor, start_up};

/// Writes a request of the start-up at the front of `out`, in 64 bytes, and answers 0: the operation, flags 1, `first` in the first two of the 52 bytes, and all else 0.
/// `first` is the version that operation 9 asks for, major * 256 + minor, or the count that operation 13 asks for. It answers 1 where there is no such operation or `first`
/// has more than 16 bits, or else 2 where `out` has less than 64 bytes; then nothing is written.
#[unsafe(no_mangle)]
pub extern "C" fn vmbus_storage_start(operation: u32, first: u32, out: &mut [u8]) -> u32
    ensures written { (step : Step) → operation_of operation ≡ Some step → first < 2 ^ 16 → 64 ≤ length out.old → (result ≡ 0) × (take 64 out.new ≡ vstor_bytes (start_of step first)) }
    ensures room { (step : Step) → operation_of operation ≡ Some step → first < 2 ^ 16 → length out.old < 64 → result ≡ 2 }
    ensures only { result ≢ 1 → IsSome (operation_of operation) × (first < 2 ^ 16) }
    ensures fits { result ≡ 0 → 64 ≤ length out.old }
    ensures three { result ≤ 2 }
    ensures rest { drop 64 out.new ≡ drop 64 out.old }
    ensures kept { result ≢ 0 → out.new ≡ out.old }
{
    let Some(step) = Operation::of(operation) else {
        return 1;
    };
    if first > 0xffff {
        return 1;
    }
    if out.len() < 64 {
        return 2;
    }
    put_packet(&start_up(step, first as u16), out);
    0
}

// The request of the start-up with which the bytes begin, if they begin with one.
fn opening(bytes: &[u8]) -> Option<Vstor>
    ensures is { IfSome result (λ p. IsOpening p bytes.now) }
    ensures only { (p : Packet) → IsOpening p bytes.now → result ≡ Some p }
{
    let p = decode_vstor(bytes).ok()?;
    if p.operation == 3 { None } else { Some(p) }
}

/// Writes the host's answer to the storage packet with which `bytes` begin, where that is no SCSI request, at the front of `out`, in 64 bytes, and answers 0. It answers 1
/// where the bytes are no storage packet (`vmbus_storage_read`) or operation 3, or else 2 where `out` has less than 64 bytes; then nothing is written.
#[unsafe(no_mangle)]
pub extern "C" fn vmbus_storage_answer(bytes: &[u8], out: &mut [u8]) -> u32
    ensures written { (p : Packet) → IsOpening p bytes.now → 64 ≤ length out.old → (result ≡ 0) × (take 64 out.new ≡ vstor_bytes (answer_of p)) }
    ensures room { (p : Packet) → IsOpening p bytes.now → length out.old < 64 → result ≡ 2 }
    ensures only { result ≢ 1 → (p : Packet) × IsOpening p bytes.now }
    ensures fits { result ≡ 0 → 64 ≤ length out.old }
    ensures three { result ≤ 2 }
    ensures rest { drop 64 out.new ≡ drop 64 out.old }
    ensures kept { result ≢ 0 → out.new ≡ out.old }
{
    let Some(p) = opening(bytes) else {
        return 1;
    };
    if out.len() < 64 {
        return 2;
    }
    put_packet(&answer(&p), out);
    0
}
