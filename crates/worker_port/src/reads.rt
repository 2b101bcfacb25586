//! What a packet is, as the item that it is read as.
ghost use Rattle.std.specs.Prelude.{◌≡◌, ◌&&◌};
ghost use Rattle.page_kept.specs.Items.{item_of};
ghost use Rattle.ring_machine.specs.States.{IsPacket};

use channel_protocol::Protocol;

/// The id of a packet with these page words.
pub fn id_read<T: Protocol>(protocol: &T, packet: &[u64], words: &[u64]) -> u64
    requires { IsPacket packet.now }
    ensures { result ≡ (T.format protocol.now).id_of (T.said (item_of packet.now words.now)) }
{
    // For the proof: the numbers of a slice that is read are known to fit their type.
    let _read = words;
    protocol.id(packet)
}

/// Whether it is a request that has an answer.
pub fn is_waiting_read<T: Protocol>(protocol: &T, packet: &[u64], words: &[u64]) -> bool
    requires { IsPacket packet.now }
    ensures { result ≡ ((T.format protocol.now).is_request (T.said (item_of packet.now words.now)) && (T.format protocol.now).waits (T.said (item_of packet.now words.now))) }
{
    // For the proof: the numbers of a slice that is read are known to fit their type.
    let _read = words;
    protocol.is_waiting(packet)
}

/// Whether it acknowledges a message.
pub fn is_ack_read<T: Protocol>(protocol: &T, packet: &[u64], words: &[u64]) -> bool
    requires { IsPacket packet.now }
    ensures { result ≡ (T.format protocol.now).is_ack (T.said (item_of packet.now words.now)) }
{
    // For the proof: the numbers of a slice that is read are known to fit their type.
    let _read = words;
    protocol.is_ack(packet)
}

/// Whether it is an answer.
pub fn is_answer_read<T: Protocol>(protocol: &T, packet: &[u64], words: &[u64]) -> bool
    requires { IsPacket packet.now }
    ensures { result ≡ (T.format protocol.now).is_answer (T.said (item_of packet.now words.now)) }
{
    // For the proof: the numbers of a slice that is read are known to fit their type.
    let _read = words;
    protocol.is_answer(packet)
}

/// Whether it is a message, which is to be acknowledged.
pub fn is_message_read<T: Protocol>(protocol: &T, packet: &[u64], words: &[u64]) -> bool
    requires { IsPacket packet.now }
    ensures { result ≡ (T.format protocol.now).is_message (T.said (item_of packet.now words.now)) }
{
    // For the proof: the numbers of a slice that is read are known to fit their type.
    let _read = words;
    protocol.is_message(packet)
}
