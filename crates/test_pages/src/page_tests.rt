//! Lends of data pages by turns over one memory.
use crate::check::check;
use crate::lends::{completion, request, sends, stores, takes};
use ring_core::{End, Room, Seatlike, Side, SoloMem, may_take};
use std::alloc::AllocGlobal;
use std::process::Abort;

// Lends of each page, out and back.
const LENDS: u64 = 50;

// An end of a channel of one page a ring, and two data pages.
fn end(rt: &(impl Abort + AllocGlobal), side: Side) -> End<SoloMem> {
    let solo = SoloMem::make(rt.alloc(), 4096, 2).expect(rt, "memory");
    let mut e = End::make(rt.alloc(), side, 4096, solo, 2).expect(rt, "memory");
    let room = Room {
        packets: 200,
        words: 8192,
    };
    e.reserve(room, room).expect(rt, "memory");
    e
}

// Whether the channel's memory can go from one end to the other, and does.
fn hands(from: &mut End<SoloMem>, to: &mut End<SoloMem>) -> bool {
    if from.cells() != to.cells() || from.pages() != to.pages() {
        return false;
    }
    from.swap_memory(to);
    true
}

// Whether the packet that an end got last came with so many words, of which this is the first.
fn came_with<S: Seatlike>(e: &End<S>, words: usize, first: u64) -> bool {
    let got = e.got();
    match got.lent(got.len().wrapping_sub(1)) {
        Some(lent) => lent.len() == words && lent.get(0) == Some(&first),
        None => false,
    }
}

// Whether an end can neither send this packet, which needs the page, nor store to the page.
fn is_away(e: &mut End<SoloMem>, page: u32, p: &[u64]) -> bool {
    !sends(e, p) && !stores(e, page, 0, 7) && !e.owns(page)
}

// The guest stores a word into its page and lends it, and stores to it no more.
fn goes_out(g: &mut End<SoloMem>, page: u32, words: u32, v: u64) -> bool {
    let p = request(page, words);
    stores(g, page, 0, v) && sends(g, &p) && is_away(g, page, &p)
}

// An end takes a page, and these are its words' number and the first of them.
fn is_there(e: &mut End<SoloMem>, page: u32, words: u32, v: u64) -> bool {
    takes(e) && e.owns(page) && came_with(e, words as usize, v)
}

// The host stores another word, and to none of the words that weren't lent.
fn is_changed(h: &mut End<SoloMem>, page: u32, words: u32, v: u64) -> bool {
    !stores(h, page, words, 7) && stores(h, page, 0, v)
}

// The host gives the page back, by a completion with its own id alone, and stores to it no more.
fn goes_back(h: &mut End<SoloMem>, page: u32) -> bool {
    let p = completion(page);
    !sends(h, &completion(page.wrapping_add(5))) && sends(h, &p) && is_away(h, page, &p)
}

// A page goes out with a word.
fn crosses(g: &mut End<SoloMem>, h: &mut End<SoloMem>, page: u32, words: u32, v: u64) -> bool {
    goes_out(g, page, words, v) && hands(g, h) && is_there(h, page, words, v)
}

// It comes back with another one.
fn returns(g: &mut End<SoloMem>, h: &mut End<SoloMem>, page: u32, words: u32, v: u64) -> bool {
    is_changed(h, page, words, v)
        && goes_back(h, page)
        && hands(h, g)
        && is_there(g, page, words, v)
}

// A page goes out with a word, and comes back with another one.
fn lends(g: &mut End<SoloMem>, h: &mut End<SoloMem>, page: u32, words: u32, v: u64) -> bool {
    crosses(g, h, page, words, v) && returns(g, h, page, words, v ^ 1)
}

// Whether the guest has both pages, and neither end any other.
fn are_at_home(g: &End<SoloMem>, h: &End<SoloMem>) -> bool {
    g.owns(0) && g.owns(1) && !g.owns(2) && !h.owns(0) && !h.owns(2)
}

// Lends each page so often.
fn lends_all(g: &mut End<SoloMem>, h: &mut End<SoloMem>) -> bool {
    for v in 0..LENDS {
        if !lends(g, h, 0, 3, v) || !lends(g, h, 1, 1, v) {
            return false;
        }
    }
    true
}

// Whether this packet came with so many words.
fn has_words(lent: Option<&[u64]>, words: usize) -> bool {
    match lent {
        Some(lent) => lent.len() == words,
        None => false,
    }
}

// Whether so many packets were sent and got, the first of them with three words.
fn kept_all(g: End<SoloMem>, count: usize) -> bool {
    let (memory, sent, got) = g.into_parts();
    drop(memory);
    sent.len() == count
        && got.len() == count
        && has_words(sent.lent(0), 3)
        && got.lent(count).is_none()
}

#[test]
fn pages_go_out_and_come_back(rt: HostRuntime) {
    let mut g = end(&rt, Side::Guest);
    let mut h = end(&rt, Side::Host);
    let home = are_at_home(&g, &h);
    let lent = lends_all(&mut g, &mut h);
    let kept = kept_all(g, 100);
    check(&rt, home && lent && kept);
    drop(h);
}

// Whether an end takes a packet, and the words that come with it are these.
fn loads(e: &mut End<SoloMem>, want: &[u64]) -> bool {
    if !e.is_ready() || !may_take(e) || e.take_in().is_err() {
        return false;
    }
    if !e.is_ready() || e.spare_got().words < 512 {
        return false;
    }
    e.lent_load() == want
}

#[test]
fn a_load_lends_the_words_that_were_stored(rt: HostRuntime) {
    let mut g = end(&rt, Side::Guest);
    let mut h = end(&rt, Side::Host);
    check(&rt, stores(&mut g, 1, 0, 11) && stores(&mut g, 1, 2, 13));
    check(&rt, sends(&mut g, &request(1, 3)) && hands(&mut g, &mut h));
    check(&rt, g.sent().lent(0) == Some(&[11, 0, 13]));
    check(&rt, loads(&mut h, &[11, 0, 13]));
    drop(g);
    drop(h);
}

// The host sends a request for a page that the channel hasn't, and none for a page that it hasn't itself. The guest gets it without words.
fn lends_nothing(g: &mut End<SoloMem>, h: &mut End<SoloMem>) -> bool {
    let sent = sends(h, &request(5, 2)) && !sends(h, &request(0, 2));
    sent && hands(h, g) && takes(g) && has_words(g.got().lent(0), 0)
}

// A packet that names a page that this end can't hold lends nothing: a page that the channel hasn't, and a page of its own.
#[test]
fn a_page_that_cannot_be_held_lends_nothing(rt: HostRuntime) {
    let mut g = end(&rt, Side::Guest);
    let mut h = end(&rt, Side::Host);
    let nothing = lends_nothing(&mut g, &mut h);
    check(&rt, nothing && g.owns(0) && !g.owns(5));
    drop(g);
    drop(h);
}

// Takes a packet by the call that lends its words, and loads what came with it: whether these are the packet and its page words.
fn takes_both(e: &mut End<SoloMem>, packet: &[u64], words: &[u64]) -> bool {
    if !e.is_ready() || !may_take(e) {
        return false;
    }
    let came = match e.take() {
        Ok(taken) => taken.words() == packet,
        Err(_) => false,
    };
    if !came || !e.is_due() || !e.is_ready() || e.spare_got().words < 512 {
        return false;
    }
    e.lent_load() == words && !e.is_due()
}

// A take lends the packet's words, and the words of the page that it names are due behind it, once.
#[test]
fn a_take_lends_a_packet_whose_page_words_are_due(rt: HostRuntime) {
    let mut g = end(&rt, Side::Guest);
    let mut h = end(&rt, Side::Host);
    let p = request(0, 2);
    check(
        &rt,
        stores(&mut g, 0, 1, 5) && sends(&mut g, &p) && hands(&mut g, &mut h),
    );
    check(&rt, takes_both(&mut h, &p, &[0, 5]) && h.owns(0));
    drop(g);
    drop(h);
}
