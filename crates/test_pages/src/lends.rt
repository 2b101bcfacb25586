//! Calls of ends with data pages, where they may be made.
ghost use Rattle.std.specs.Prelude.{◌≡◌};

use ring_core::{End, Seatlike, may_lend, may_take};

// The id of the packets that lend a page, and of their completions.
fn id_of(page: u32) -> u64 {
    page as u64 + 1
}

/// A request that lends the first words of a page: one range from the page's start.
pub fn request(page: u32, words: u32) -> [u64; 5] {
    [
        0x5_0005_0009,
        id_of(page),
        0x1_0000_0000,
        (words as u64).wrapping_mul(8),
        page as u64,
    ]
}

/// Its completion.
pub fn completion(page: u32) -> [u64; 2] {
    [0x2_0002_000b, id_of(page)]
}

/// Stores a word of a page, where that may be done.
pub fn stores<S: Seatlike>(e: &mut End<S>, page: u32, word: u32, v: u64) -> bool
    ensures same { S.same e.old.seat e.new.seat }
    ensures side { e.new.state.machine.side ≡ e.old.state.machine.side }
{
    if !e.is_ready() || !e.can_store(page, word) {
        return false;
    }
    e.page_store(page, word, v);
    true
}

/// Sends a packet, with the words that it lends or brings back, where that may be done: whether it was sent.
pub fn sends<S: Seatlike>(e: &mut End<S>, p: &[u64]) -> bool
    ensures same { S.same e.old.seat e.new.seat }
    ensures side { e.new.state.machine.side ≡ e.old.state.machine.side }
{
    may_lend(e, p) && e.send(p).is_ok()
}

/// Takes a packet and the words that come with it, and gives the cells back, where that may be done: whether there was one.
pub fn takes<S: Seatlike>(e: &mut End<S>) -> bool
    ensures same { S.same e.old.seat e.new.seat }
    ensures side { e.new.state.machine.side ≡ e.old.state.machine.side }
{
    if !e.is_ready() || !may_take(e) || e.take_in().is_err() {
        return false;
    }
    if !e.is_ready() || e.spare_got().words < 512 {
        return false;
    }
    e.load_in();
    if e.is_due() {
        return false;
    }
    e.commit();
    true
}
