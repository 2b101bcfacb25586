//! Which message is acknowledged next.
ghost use Rattle.std.specs.Prelude.{◌≡◌, ◌≤◌, length};
ghost use Rattle.worker_requester.specs.Acking.{IsNext};

use channel_protocol::Protocol;
use ring_sleep::Parks;
use worker_port::Port;

// The place of the next message among the packets that came, from a place on; or the end of the list.
pub(crate) fn next_message<T: Protocol, S: Parks + Drop>(
    protocol: &T,
    port: &Port<T, S>,
    from: usize,
) -> usize
    requires from { from ≤ length port.now.state.got }
    ensures { IsNext (T.format protocol.now) port.now.state.got from result }
{
    let count = port.got_len();
    for i in from..count {
        if protocol.is_message(port.got(i)) {
            return i;
        }
    }
    count
}
