//! What an answer says, on each kind of channel.
ghost use Rattle.std.specs.Prelude.{◌≡◌, ◌≤◌, ◌<◌, ◌⊎◌, [], length};
ghost use Rattle.ring_machine.specs.States.{IsPacket};
ghost use Rattle.device_kinds.specs.Formats.{asks_of};

use bus_script::Reply;
use channel_protocol::Protocol;
use device_any::DeviceProtocol;
use std::alloc::Global;
use std::process::Abort;

/// What an answer says to the k-th ask, with the page words that came with it and the packet that came before it, if it says something.
pub(crate) fn said(
    rt: &impl Abort,
    alloc: Global,
    protocol: &DeviceProtocol,
    k: u32,
    before: &[u64],
    packet: &[u64],
    words: &[u64],
) -> Option<Reply>
    requires which { k < length (asks_of protocol.now) }
    requires before { before.now ≡ [] ⊎ IsPacket before.now }
    requires packet { IsPacket packet.now }
    requires words { length words.now ≤ 512 }
{
    said_behind(rt, alloc, protocol, k, before, &[], packet, words)
}

/// The same, where the packet before it came with page words.
pub(crate) fn said_behind(
    rt: &impl Abort,
    alloc: Global,
    protocol: &DeviceProtocol,
    k: u32,
    before: &[u64],
    before_words: &[u64],
    packet: &[u64],
    words: &[u64],
) -> Option<Reply>
    requires which { k < length (asks_of protocol.now) }
    requires before { before.now ≡ [] ⊎ IsPacket before.now }
    requires before_words { length before_words.now ≤ 512 }
    requires packet { IsPacket packet.now }
    requires words { length words.now ≤ 512 }
{
    let Ok(mut replies) = Vec::with_capacity(alloc, 1) else {
        panic!(rt; "no memory")
    };
    protocol.keep_result(k, before, before_words, packet, words, &mut replies);
    replies.pop()
}
