//! A packet, and its way through the calls of both ends.
ghost use Rattle.std.specs.Prelude.{◌≡◌};
ghost use Rattle.ring_machine.specs.States.{IsPacket};

use ring_core::{End, Room, Seatlike, may_lend, may_take};
use std::io;

// The longest packet, in words.
pub(crate) const MOST: usize = 384;

// The words of a packet of n words: in-band data, each word the same.
pub(crate) fn words(n: u64) -> [u64; MOST] {
    let mut words = [0x9e37_79b9_7f4a_7c15; MOST];
    words[0] = n.wrapping_mul(0x1_0000_0000).wrapping_add(0x2_0006);
    words
}

// Sends, where that may be done: whether the packet was sent. In a channel with data pages it takes along the words of the page that it lends or gives back.
pub(crate) fn send<S: Seatlike>(e: &mut End<S>, p: &[u64]) -> bool
    requires { IsPacket p.now }
    ensures { e.new.state.machine.cells ≡ e.old.state.machine.cells }
{
    let room = e.spare_sent();
    let len = p.len() as u64;
    let is_plain = e.pages() == 0
        && e.is_ready()
        && len + 1 < e.cells() as u64
        && room.packets > 0
        && len <= room.words;
    if !is_plain && !may_lend(e, p) {
        return false;
    }
    e.send(p).is_ok()
}

// Stores these words into the part of a page that goes along with a packet, where they fit there and the packet may be sent: whether they were.
pub(crate) fn lay<S: Seatlike>(e: &mut End<S>, p: &[u64], words: &[u64]) -> bool
    requires { IsPacket p.now }
{
    let Some(part) = e.part_of(p) else {
        return false;
    };
    if words.len() > part.words as usize || !e.is_ready() || !may_lend(e, p) {
        return false;
    }
    e.lay(p, words);
    true
}

// Takes, loads the words that come with the packet, and gives the cells back, where that may be done: whether there was a packet.
pub(crate) fn take<S: Seatlike>(e: &mut End<S>) -> bool {
    if !may_take(e) {
        return false;
    }
    let took = e.take_in().is_ok();
    if e.is_due() && e.is_ready() && e.spare_got().words >= 512 {
        e.load_in();
    }
    if e.is_ready() && !e.is_due() {
        e.commit();
    }
    took
}

// Room for so many of these packets, and for a ring beside them.
pub(crate) fn room_for(p: &[u64], count: u64) -> Room {
    Room {
        packets: count.saturating_add(1),
        words: count.wrapping_mul(p.len() as u64).wrapping_add(512),
    }
}

// The nanoseconds a packet, where all of them arrived.
pub(crate) fn a_packet(time: u128, took: u64, count: u64) -> io::Result<u128> {
    if took != count || count == 0 {
        return Err(io::Error::other("a packet was lost"));
    }
    Ok(time / count as u128)
}
