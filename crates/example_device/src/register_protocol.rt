//! What the packets of a register say, for the workers of its channel.
ghost use Rattle.std.specs.Prelude.{◌≡◌, ◌≤◌, ◌<◌, ◌^◌, [], length, take, slice_index_or};
ghost use Rattle.example_device.specs.Registers.{register_packet};

use channel_protocol::{Protocol, Written};

// The first word of a packet of three words: in-band data with a payload of one.
const HEAD: u64 = 12_885_032_966;

/// The values that one end stores, in order, the first of them at its start-up. The other end stores none.
#[derive(Drop)]
pub struct RegisterProtocol {
    pub values: Vec<u64>,
    pub starts: u32,
    pub ghost few: { values.len < 2 ^ 32 },
    pub ghost within: { starts ≤ length values.items },
}

// Writes three words.
fn write(out: &mut [u64], id: u64, value: u64) -> usize
    requires { length out.old ≡ 384 }
    ensures value { take result out.new ≡ register_packet id value }
    ensures most { result ≡ 3 }
    ensures size { length out.new ≡ 384 }
{
    out[..3].copy_from_slice(&[HEAD, id, value]);
    3
}

// A word of a packet, or 0.
fn word(packet: &[u64], i: usize) -> u64
    ensures { result ≡ slice_index_or packet.now i 0 }
{
    if i < packet.len() { packet[i] } else { 0 }
}

impl Protocol for RegisterProtocol {
    ghost use Rattle.std.specs.Prelude.{false};
    ghost use Rattle.std.proofs.Common.{refl};
    ghost use Rattle.channel_protocol.proofs.Bare.{few_same, none_paged};
    ghost use Rattle.example_device.specs.Registers.{register_items};
    ghost use Rattle.example_device.specs.RegisterLaws.{items_keep, items_silent};

    type Ask = u64;

    type Request = u64;

    type Reply = u64;

    type Head = ();

    ghost said = { λ i. i };

    ghost said_packet = { λ i. refl };

    ghost said_few = { few_same };

    ghost said_bare = { λ p. refl };

    ghost format = { λ s. register_items };

    ghost lends = { λ s. false };

    ghost paged = { λ s e. none_paged (register_items) e };

    ghost keeps = { λ s. items_keep };

    ghost besides = { λ s. false };

    ghost may = { λ s. items_silent };

    ghost asks = { λ s. s.values.items };

    ghost starts = { λ s. s.starts };

    ghost within = { λ s. s.within };

    ghost is_head = { λ s i h. Unit {0} };

    fn count(&self) -> u32 {
        self.values.len() as u32
    }

    fn starts(&self) -> u32 {
        self.starts
    }

    fn besides(&self) -> bool {
        false
    }

    fn has_answer(&self, _k: u32) -> bool {
        true
    }

    fn encode(&self, k: u32, id: u64, out: &mut [u64], _page: &mut [u64]) -> Written {
        Written::bare(write(out, id, self.values[k as usize]))
    }

    fn id(&self, packet: &[u64]) -> u64 {
        word(packet, 1)
    }

    fn is_waiting(&self, _packet: &[u64]) -> bool {
        true
    }

    fn is_ack(&self, _packet: &[u64]) -> bool {
        false
    }

    fn is_answer(&self, _packet: &[u64]) -> bool {
        true
    }

    fn is_message(&self, _packet: &[u64]) -> bool {
        false
    }

    fn write_ack(&self, _packet: &[u64], _out: &mut [u64]) -> usize {
        0
    }

    fn head(&self, _packet: &[u64], _words: &[u64]) -> Option<()> {
        Some(())
    }

    fn read(&self, packet: &[u64], _words: &[u64], _head: &()) -> u64 {
        word(packet, 2)
    }

    fn has_fixed_message(&self, _packet: &[u64], _words: &[u64]) -> bool {
        false
    }

    fn write_fixed_message(
        &self,
        _packet: &[u64],
        _words: &[u64],
        _own: u64,
        _out: &mut [u64],
        _page: &mut [u64],
    ) -> Written {
        Written::bare(0)
    }

    fn write_fixed(&self, _packet: &[u64], _words: &[u64], _out: &mut [u64]) -> usize {
        0
    }

    fn has_message(&self, _packet: &[u64], _words: &[u64], _reply: &u64) -> bool {
        false
    }

    fn write_message(
        &self,
        _packet: &[u64],
        _words: &[u64],
        _reply: &u64,
        _own: u64,
        _out: &mut [u64],
        _page: &mut [u64],
    ) -> Written {
        Written::bare(0)
    }

    fn write_answer(
        &self,
        packet: &[u64],
        _words: &[u64],
        _head: &(),
        reply: &u64,
        out: &mut [u64],
        _page: &mut [u64],
    ) -> Written {
        Written::bare(write(out, word(packet, 1), *reply))
    }

    fn keep_result(
        &self,
        _k: u32,
        _before: &[u64],
        _before_words: &[u64],
        packet: &[u64],
        _words: &[u64],
        replies: &mut Vec<u64>,
    ) {
        replies.push_reserved(word(packet, 2));
    }
}
