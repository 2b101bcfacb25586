//! A protocol and a device for the tests: the device's reply is the value that it was asked. It goes back in a message before the answer, and 0 without one.
ghost use Rattle.std.specs.Prelude.{◌≡◌, ◌≤◌, ◌<◌, ◌+◌, ◌^◌, ◌∷◌, [], length, take, slice_index_or, IfOk};

use channel_protocol::{Device, Protocol, Written};
use std::alloc::{AllocError, Global};
use std::sync::Wait;

// The first words of packets of three words, with a payload of one: in-band data, and a completion.
const INBAND: u64 = 12_885_032_966;

const COMPLETION: u64 = 12_885_032_971;

/// What one end has to ask.
#[derive(Drop)]
pub(crate) struct Echo {
    pub(crate) asks: Vec<u64>,
    pub(crate) starts: u32,
    ghost few: { asks.len < 2 ^ 32 },
    ghost within: { starts ≤ length asks.items },
}

// Writes three words.
fn write(out: &mut [u64], head: u64, id: u64, value: u64) -> usize
    requires { length out.old ≡ 384 }
    ensures value { take result out.new ≡ head ∷ id ∷ value ∷ [] }
    ensures most { result ≡ 3 }
    ensures size { length out.new ≡ 384 }
{
    out[..3].copy_from_slice(&[head, id, value]);
    3
}

// A word of a packet, or 0.
fn word(packet: &[u64], i: usize) -> u64
    ensures { result ≡ slice_index_or packet.now i 0 }
{
    if i < packet.len() { packet[i] } else { 0 }
}

impl Protocol for Echo {
    ghost use Rattle.std.specs.Prelude.{true, false};
    ghost use Rattle.std.proofs.Common.{refl};
    ghost use Rattle.channel_protocol.proofs.Bare.{few_same, none_paged};
    ghost use Rattle.channel_protocol.specs.Echo.{echo_format};
    ghost use Rattle.channel_protocol.specs.Paged.{in_packets};
    ghost use Rattle.channel_protocol.proofs.EchoLaws.{echo_keeps};
    ghost use Rattle.channel_protocol.proofs.InPackets.{keeps_in_packets};

    type Ask = u64;

    type Request = u64;

    type Reply = u64;

    type Head = ();

    ghost said = { λ i. i };

    ghost said_packet = { λ i. refl };

    ghost said_few = { few_same };

    ghost said_bare = { λ p. refl };

    ghost format = { λ s. in_packets echo_format };

    ghost lends = { λ s. false };

    ghost paged = { λ s e. none_paged (in_packets echo_format) e };

    ghost keeps = { λ s. keeps_in_packets echo_format echo_keeps };

    ghost besides = { λ s. true };

    ghost may = { λ s. tt };

    ghost asks = { λ s. s.asks.items };

    ghost starts = { λ s. s.starts };

    ghost within = { λ s. s.within };

    ghost is_head = { λ s i h. Unit {0} };

    fn count(&self) -> u32 {
        self.asks.len() as u32
    }

    fn starts(&self) -> u32 {
        self.starts
    }

    fn besides(&self) -> bool {
        true
    }

    fn has_answer(&self, _k: u32) -> bool {
        true
    }

    fn encode(&self, k: u32, id: u64, out: &mut [u64], _page: &mut [u64]) -> Written {
        Written::bare(write(out, INBAND, id, self.asks[k as usize]))
    }

    fn id(&self, packet: &[u64]) -> u64 {
        word(packet, 1)
    }

    fn is_waiting(&self, packet: &[u64]) -> bool {
        word(packet, 0) == INBAND
    }

    fn is_ack(&self, packet: &[u64]) -> bool {
        word(packet, 0) == COMPLETION
    }

    fn is_answer(&self, packet: &[u64]) -> bool {
        word(packet, 0) == COMPLETION
    }

    fn is_message(&self, packet: &[u64]) -> bool {
        word(packet, 0) == INBAND
    }

    fn write_ack(&self, packet: &[u64], out: &mut [u64]) -> usize {
        write(out, COMPLETION, word(packet, 1), 1)
    }

    fn head(&self, packet: &[u64], _words: &[u64]) -> Option<()> {
        if word(packet, 0) == INBAND {
            Some(())
        } else {
            None
        }
    }

    fn read(&self, packet: &[u64], _words: &[u64], _head: &()) -> u64 {
        word(packet, 2)
    }

    fn has_fixed_message(&self, _packet: &[u64], _words: &[u64]) -> bool {
        false
    }

    fn write_fixed_message(
        &self,
        _packet: &[u64],
        _words: &[u64],
        _own: u64,
        _out: &mut [u64],
        _page: &mut [u64],
    ) -> Written {
        Written::bare(0)
    }

    fn write_fixed(&self, _packet: &[u64], _words: &[u64], _out: &mut [u64]) -> usize {
        0
    }

    fn has_message(&self, _packet: &[u64], _words: &[u64], reply: &u64) -> bool {
        *reply != 0
    }

    fn write_message(
        &self,
        _packet: &[u64],
        _words: &[u64],
        reply: &u64,
        own: u64,
        out: &mut [u64],
        _page: &mut [u64],
    ) -> Written {
        if *reply == 0 {
            return Written::bare(0);
        }
        Written::bare(write(out, INBAND, own, *reply))
    }

    fn write_answer(
        &self,
        packet: &[u64],
        _words: &[u64],
        _head: &(),
        _reply: &u64,
        out: &mut [u64],
        _page: &mut [u64],
    ) -> Written {
        Written::bare(write(out, COMPLETION, word(packet, 1), 1))
    }

    fn keep_result(
        &self,
        _k: u32,
        before: &[u64],
        _before_words: &[u64],
        _packet: &[u64],
        _words: &[u64],
        replies: &mut Vec<u64>,
    ) {
        let reply = if before.is_empty() {
            0
        } else {
            word(before, 2)
        };
        replies.push_reserved(reply);
    }
}

/// A place at the device.
#[derive(Drop)]
pub(crate) struct EchoSeat {
    log: Vec<u64>,
    left: u32,
    ghost room: { log.len + left ≤ log.cap },
}

impl EchoSeat {
    pub(crate) fn make(alloc: Global, left: u32) -> Result<EchoSeat, AllocError>
        ensures { IfOk result (λ s. (s.log.items ≡ []) × (s.left ≡ left)) }
    {
        let log = Vec::with_capacity(alloc, left as usize)?;
        Ok(EchoSeat { log, left })
    }
}

impl Device<Echo> for EchoSeat {
    ghost use Rattle.std.specs.Prelude.{◌≡◌, refl};
    ghost use Rattle.channel_protocol.specs.Echo.{echo_calls};

    ghost calls = { λ s. echo_calls s.log.items };

    ghost left = { λ s. s.left };

    ghost serves = { λ s t. Unit {0} };

    ghost same = { λ s t. Unit {0} };

    ghost same_refl = { λ s. tt };

    ghost same_trans = { λ s t u p q. tt };

    fn left(&self) -> u32 {
        self.left
    }

    fn call<R: Wait>(&mut self, _rt: &R, _protocol: &Echo, request: u64) -> (u32, u64) {
        self.left -= 1;
        self.log.push_reserved(request);
        (7, request)
    }
}
