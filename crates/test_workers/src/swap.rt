//! A protocol that lends pages, and its device: a request has four words in the page of its id, and the device replies the last of them and the first, which come
//! back in that page. Where the host tells, a message with the reply goes before each answer, in the page of its own id.
ghost use Rattle.std.specs.Prelude.{◌≡◌, ◌≤◌, ◌<◌, ◌+◌, ◌%◌, ◌^◌, ◌∷◌, [], length, take, map, slice_index_or, IfOk};
ghost use Rattle.test_workers.specs.Swap.{two_at};

use channel_protocol::{Device, Protocol, Written};
use std::alloc::{AllocError, Global};
use std::sync::Wait;

// The first words of a request of six words, whose payload begins behind one range of pages, and of a completion of three.
const REQUEST: u64 = 25_770_131_465;

const COMPLETION: u64 = 12_885_032_971;

// Of a message: its first words, of five of which the payload is the last; the receive buffer, one of whose parts is named; and the length of a part, with how much its offset
// grows from one page to the next.
const MESSAGE: u64 = 0x5_0004_0007;

const ONE_PART: u64 = 0x1_0000_cafe;

const PART: u64 = 16;

const NEXT_PAGE: u64 = 0x1000_0000_0000;

/// What is asked and replied: two numbers.
#[derive(Clone, Copy, PartialEq, Eq)]
pub struct Two {
    pub a: u64,
    pub b: u64,
}

/// What one end has to ask, and whether the host tells each reply in a message.
#[derive(Drop)]
pub struct Swap {
    pub asks: Vec<Two>,
    pub starts: u32,
    pub tells: bool,
    ghost few: { asks.len < 2 ^ 32 },
    ghost within: { starts ≤ length asks.items },
}

// A word, or 0.
fn word(words: &[u64], i: usize) -> u64
    ensures { result ≡ slice_index_or words.now i 0 }
{
    if i < words.len() { words[i] } else { 0 }
}

// A packet's type.
fn kind(packet: &[u64]) -> u64
    ensures { result ≡ slice_index_or packet.now 0 0 % 2 ^ 16 }
{
    word(packet, 0) % 65536
}

// The first word, and this one.
fn pair_at(words: &[u64], k: usize) -> Two
    ensures { result ≡ two_at k words.now }
{
    Two {
        a: word(words, 0),
        b: word(words, k),
    }
}

impl Protocol for Swap {
    ghost use Rattle.std.specs.Prelude.{true, false};
    ghost use Rattle.std.proofs.Common.{refl};
    ghost use Rattle.pkt_desc.specs.Packets.{kind_of};
    ghost use Rattle.test_workers.specs.Swap.{swap_format, swap_said};
    ghost use Rattle.test_workers.specs.SwapLaws.{swap_bare, swap_keeps, swap_may, swap_paged, take_few};

    type Ask = Two;

    type Request = Two;

    type Reply = Two;

    type Head = ();

    ghost said = { swap_said };

    ghost said_packet = { λ i. refl };

    ghost said_few = { λ i. take_few _ _ i.words };

    ghost said_bare = { swap_bare };

    ghost format = { λ s. swap_format s.tells };

    ghost lends = { λ s. true };

    ghost paged = { λ s e. swap_paged s.tells };

    ghost keeps = { λ s. swap_keeps s.tells };

    ghost besides = { λ s. s.tells };

    ghost may = { λ s. swap_may s.tells };

    ghost asks = { λ s. s.asks.items };

    ghost starts = { λ s. s.starts };

    ghost within = { λ s. s.within };

    ghost is_head = { λ s i h. kind_of i.packet ≡ 9 };

    fn count(&self) -> u32 {
        self.asks.len() as u32
    }

    fn starts(&self) -> u32 {
        self.starts
    }

    fn besides(&self) -> bool {
        self.tells
    }

    fn has_answer(&self, _k: u32) -> bool {
        true
    }

    fn encode(&self, k: u32, id: u64, out: &mut [u64], page: &mut [u64]) -> Written {
        let ask = self.asks[k as usize];
        out[..6].copy_from_slice(&[REQUEST, id, 4_294_967_296, 32, id.saturating_sub(1), 0]);
        page[..4].copy_from_slice(&[ask.a, 5, 6, ask.b]);
        Written {
            packet: 6,
            words: 4,
            lent: 4,
        }
    }

    fn id(&self, packet: &[u64]) -> u64 {
        word(packet, 1)
    }

    fn is_waiting(&self, packet: &[u64]) -> bool {
        kind(packet) == 9
    }

    fn is_ack(&self, packet: &[u64]) -> bool {
        kind(packet) == 11
    }

    fn is_answer(&self, packet: &[u64]) -> bool {
        kind(packet) == 11
    }

    fn is_message(&self, packet: &[u64]) -> bool {
        kind(packet) == 7
    }

    fn write_ack(&self, packet: &[u64], out: &mut [u64]) -> usize {
        out[..3].copy_from_slice(&[COMPLETION, word(packet, 1), 0]);
        3
    }

    fn head(&self, packet: &[u64], _words: &[u64]) -> Option<()> {
        if kind(packet) == 9 { Some(()) } else { None }
    }

    fn read(&self, _packet: &[u64], words: &[u64], _head: &()) -> Two {
        pair_at(words, 3)
    }

    fn has_fixed_message(&self, _packet: &[u64], _words: &[u64]) -> bool {
        false
    }

    fn write_fixed_message(
        &self,
        _packet: &[u64],
        _words: &[u64],
        _own: u64,
        _out: &mut [u64],
        _page: &mut [u64],
    ) -> Written {
        Written::bare(0)
    }

    fn write_fixed(&self, _packet: &[u64], _words: &[u64], _out: &mut [u64]) -> usize {
        0
    }

    #[tactic(auto, using(crate::specs::SwapLaws::is_told))]
    fn has_message(&self, _packet: &[u64], _words: &[u64], _reply: &Two) -> bool {
        self.tells
    }

    fn write_message(
        &self,
        _packet: &[u64],
        _words: &[u64],
        reply: &Two,
        own: u64,
        out: &mut [u64],
        page: &mut [u64],
    ) -> Written {
        if !self.tells {
            return Written::bare(0);
        }
        let part = PART + NEXT_PAGE * own.saturating_sub(1);
        out[..5].copy_from_slice(&[MESSAGE, own, ONE_PART, part, 0]);
        page[..2].copy_from_slice(&[reply.a, reply.b]);
        Written {
            packet: 5,
            words: 2,
            lent: 2,
        }
    }

    fn write_answer(
        &self,
        packet: &[u64],
        words: &[u64],
        _head: &(),
        reply: &Two,
        out: &mut [u64],
        page: &mut [u64],
    ) -> Written {
        if words.len() < 2 {
            out[..3].copy_from_slice(&[COMPLETION, word(packet, 1), 0]);
            return Written::bare(3);
        }
        out[..3].copy_from_slice(&[COMPLETION, word(packet, 1), 2]);
        page[..2].copy_from_slice(&[reply.a, reply.b]);
        Written {
            packet: 3,
            words: 2,
            lent: 2,
        }
    }

    fn keep_result(
        &self,
        _k: u32,
        _before: &[u64],
        _before_words: &[u64],
        packet: &[u64],
        words: &[u64],
        replies: &mut Vec<Two>,
    ) {
        let read = if kind(packet) == 11 {
            word(packet, 2)
        } else {
            words.len() as u64
        };
        let a = if read > 0 { word(words, 0) } else { 0 };
        let b = if read > 1 { word(words, 1) } else { 0 };
        replies.push_reserved(Two { a, b });
    }
}

/// A place at the device.
#[derive(Drop)]
pub struct SwapSeat {
    log: Vec<Two>,
    left: u32,
    ghost room: { log.len + left ≤ log.cap },
}

impl SwapSeat {
    /// A seat that may make so many calls yet.
    pub fn make(alloc: Global, left: u32) -> Result<SwapSeat, AllocError>
        ensures { IfOk result (λ s. (s.log.items ≡ []) × (s.left ≡ left)) }
    {
        let log = Vec::with_capacity(alloc, left as usize)?;
        Ok(SwapSeat { log, left })
    }
}

impl Device<Swap> for SwapSeat {
    ghost use Rattle.std.specs.Prelude.{◌≡◌, refl, map};
    ghost use Rattle.test_workers.specs.Swap.{swap_call};

    ghost calls = { λ s. map swap_call s.log.items };

    ghost left = { λ s. s.left };

    ghost serves = { λ s t. Unit {0} };

    ghost same = { λ s t. Unit {0} };

    ghost same_refl = { λ s. tt };

    ghost same_trans = { λ s t u p q. tt };

    fn left(&self) -> u32 {
        self.left
    }

    fn call<R: Wait>(&mut self, _rt: &R, _protocol: &Swap, request: Two) -> (u32, Two) {
        self.left -= 1;
        self.log.push_reserved(request);
        (
            7,
            Two {
                a: request.b,
                b: request.a,
            },
        )
    }
}
