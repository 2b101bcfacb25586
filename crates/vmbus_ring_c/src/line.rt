//! The line of a step, for a recorded run.
ghost use Rattle.std.specs.Prelude.{◌≡◌, ◌≢◌, ◌≤◌, Some, length};
ghost use Rattle.ring_machine.specs.Steps.{next_of};
ghost use Rattle.ring_machine.specs.declared.place.Op.{Op as AnOp};
ghost use Rattle.trace_text.specs.Steps.{step_text};
ghost use Rattle.vmbus_ring_c.specs.Ends.{IsEnd, machine_of};
ghost use Rattle.vmbus_ring_c.specs.Lines.{Writes};

use crate::end::VmbusEnd;
use crate::machine::core;
use trace_text::step_line;

/// Writes the line of the next step of the call under way, where that answers this value, and gives its length in bytes. `packet` is what is being sent, and empty
/// otherwise. 0 comes exactly where no call is under way, the end's numbers aren't those of an end, or the line doesn't fit, and then nothing is written. A line has at
/// most 96 bytes.
#[unsafe(no_mangle)]
pub extern "C" fn vmbus_end_step_line(
    end: &VmbusEnd,
    packet: &[u64],
    value: u64,
    line: &mut [u8],
) -> usize
    ensures writes { result ≢ 0 → Writes end.now packet.now value line.old line.new result }
    ensures none { result ≡ 0 → line.new ≡ line.old }
    ensures whole { IsEnd end.now → (op : AnOp) → next_of (machine_of end.now) packet.now ≡ Some op → length (step_text (machine_of end.now).side op value) ≤ length line.old → result ≢ 0 }
{
    let Some(core) = core(end) else {
        return 0;
    };
    let Some(op) = core.next(packet) else {
        return 0;
    };
    let text = step_line(core.machine.side, op, value);
    let bytes = text.bytes();
    let len = bytes.len();
    if line.len() < len {
        return 0;
    }
    line[..len].copy_from_slice(bytes);
    len
}
