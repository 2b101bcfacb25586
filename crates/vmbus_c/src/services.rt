//! The guest's answers of the utility services.
ghost use Rattle.std.specs.Prelude.{◌≡◌, ◌≤◌, ◌<◌, length, take, drop};
ghost use Rattle.contact.specs.declared.kind.DeviceKind.TheVariants.{Beat, Down};
ghost use Rattle.util_ic.specs.Answers.{utility_answer};

use contact::DeviceKind;
use util_ic::serve;

/// Writes the guest's answer to any request of a heartbeat channel at the front of `reply`, and answers how many bytes that has: 28 where the request has fewer, and
/// as many as the request otherwise. Where `reply` has less room, nothing is written, and the answer is 0.
#[unsafe(no_mangle)]
pub extern "C" fn vmbus_heartbeat_answer(request: &[u8], reply: &mut [u8]) -> usize
    ensures answer { 28 ≤ length reply.old → length request.now ≤ length reply.old → (result ≡ length (utility_answer Beat request.now)) × (take result reply.new ≡ utility_answer Beat request.now) }
    ensures small { length reply.old < 28 → (result ≡ 0) × (reply.new ≡ reply.old) }
    ensures smaller { length reply.old < length request.now → (result ≡ 0) × (reply.new ≡ reply.old) }
    ensures rest { drop result reply.new ≡ drop result reply.old }
{
    if reply.len() < 28 || reply.len() < request.len() {
        return 0;
    }
    serve(request, DeviceKind::Beat, reply)
}

/// As `vmbus_heartbeat_answer`, of a shutdown channel.
#[unsafe(no_mangle)]
pub extern "C" fn vmbus_shutdown_answer(request: &[u8], reply: &mut [u8]) -> usize
    ensures answer { 28 ≤ length reply.old → length request.now ≤ length reply.old → (result ≡ length (utility_answer Down request.now)) × (take result reply.new ≡ utility_answer Down request.now) }
    ensures small { length reply.old < 28 → (result ≡ 0) × (reply.new ≡ reply.old) }
    ensures smaller { length reply.old < length request.now → (result ≡ 0) × (reply.new ≡ reply.old) }
    ensures rest { drop result reply.new ≡ drop result reply.old }
{
    if reply.len() < 28 || reply.len() < request.len() {
        return 0;
    }
    serve(request, DeviceKind::Down, reply)
}
