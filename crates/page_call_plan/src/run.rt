//! Stores and loads of page words.
ghost use Rattle.std.specs.Prelude.{◌≡◌, ◌≢◌, ◌<◌, ◌≤◌, ◌+◌, ◌*◌, length};
ghost use Rattle.page_call_plan.specs.Answers.{no_call, planned};
ghost use Rattle.page_call_plan.specs.Ends.{done_says, end_at, load_says, new_end, run_of, store_says, within_says};
ghost use Rattle.page_call_plan.specs.Slots.{owner_of, slot_at, store_room};

use crate::answer::PageAnswer;
use crate::end::{PageEnd, PageState, is_at};
use crate::slot::{PageSlot, WORDS, store_room};

/// The bytes of a word.
const WORD: u32 = 8;

/// Bytes of a page that the caller copies, all in one run.
#[repr(C)]
#[derive(Clone, Copy)]
pub struct PageRun {
    /// The page.
    pub page: u32,
    /// The first byte.
    pub at: u32,
    /// How many bytes.
    pub bytes: u32,
}

// Whether so many words from this one on lie among the first `room` words of a page.
#[inline(always)]
fn within(room: u32, from: u32, words: u32) -> u32
    ensures { result ≡ within_says room from words }
{
    if room == 0 {
        PageAnswer::NOT_OWNED
    } else if from <= WORDS && words <= WORDS - from && from <= room && words <= room - from {
        PageAnswer::PLANNED
    } else {
        PageAnswer::OUTSIDE
    }
}

// How many of a page's first words the end may store to; of a page that the channel hasn't, none.
#[inline(always)]
fn room_in(slots: &[PageSlot], page: u32) -> u32
    ensures { result ≡ store_room (owner_of (slot_at slots.now page)) }
{
    match slots.get(page as usize) {
        Some(slot) => store_room(*slot),
        None => 0,
    }
}

/// Plans to store `words` words of a page, from word `from` on: the run says which bytes.
pub fn store_plan(
    end: &mut PageEnd,
    slots: &[PageSlot],
    page: u32,
    from: u32,
    words: u32,
    run: &mut PageRun,
) -> u32
    ensures says { result ≡ store_says end.old slots.now page from words }
    ensures unchanged { result ≢ planned → (end.new ≡ end.old) × (run.new ≡ run.old) }
    ensures end { result ≡ planned → end.new ≡ end_at 1 end.old }
    ensures run { result ≡ planned → run.new ≡ run_of page from words }
{
    if !is_at(end, PageState::IDLE, slots) || words == 0 {
        return PageAnswer::NO_CALL;
    }
    if end.due_words != 0 {
        return PageAnswer::DUE;
    }
    let answer = within(room_in(slots, page), from, words);
    if answer == PageAnswer::PLANNED {
        end.state = PageState::STORING;
        *run = PageRun {
            page,
            at: WORD * from,
            bytes: WORD * words,
        };
    }
    answer
}

/// Ends stores that were planned.
pub fn store_done(end: &mut PageEnd) -> u32
    ensures says { result ≡ done_says 1 end.old }
    ensures unchanged { result ≡ no_call → end.new ≡ end.old }
    ensures end { result ≢ no_call → end.new ≡ end_at 0 end.old }
{
    if end.state != PageState::STORING {
        return PageAnswer::NO_CALL;
    }
    end.state = PageState::IDLE;
    PageAnswer::DONE
}

/// Plans to load the words that came with the packet that was taken last: the run says which bytes, from the page's first on.
pub fn load_plan(end: &mut PageEnd, slots: &[PageSlot], run: &mut PageRun) -> u32
    ensures says { result ≡ load_says end.old slots.now }
    ensures unchanged { result ≢ planned → (end.new ≡ end.old) × (run.new ≡ run.old) }
    ensures end { result ≡ planned → end.new ≡ end_at 2 end.old }
    ensures run { result ≡ planned → run.new ≡ run_of end.old.due_page 0 end.old.due_words }
{
    let idle = is_at(end, PageState::IDLE, slots);
    let due = end.due_words != 0 && end.due_words <= WORDS && (end.due_page as usize) < slots.len();
    if !idle || !due {
        return PageAnswer::NO_CALL;
    }
    end.state = PageState::LOADING;
    *run = PageRun {
        page: end.due_page,
        at: 0,
        bytes: WORD * end.due_words,
    };
    PageAnswer::PLANNED
}

/// Ends loads that were planned: no words are to be loaded any more.
pub fn load_done(end: &mut PageEnd) -> u32
    ensures says { result ≡ done_says 2 end.old }
    ensures unchanged { result ≡ no_call → end.new ≡ end.old }
    ensures end { result ≢ no_call → end.new ≡ new_end }
{
    if end.state != PageState::LOADING {
        return PageAnswer::NO_CALL;
    }
    *end = PageEnd {
        state: PageState::IDLE,
        due_page: 0,
        due_words: 0,
    };
    PageAnswer::DONE
}
