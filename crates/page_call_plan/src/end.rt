//! What an end keeps of its channel's pages, besides a slot a page and the ids of its requests.
ghost use Rattle.std.specs.Prelude.{◌≡◌, ◌≢◌, ◌==◌, ◌-◌, ◌++◌, ℕ, true, false, length, min, replicate};
ghost use Rattle.page_call_plan.specs.Answers.{no_call};
ghost use Rattle.page_call_plan.specs.Ends.{drop_says, end_at, is_list, is_at, is_ready, new_end, new_slots, no_requests};

use crate::answer::PageAnswer;
use crate::ids::IdSlot;
use crate::slot::PageSlot;

/// The most pages of a channel.
const MOST_PAGES: usize = 128;

/// The pages of the guest, which come first.
const GUEST_PAGES: usize = 64;

/// What the end does.
pub struct PageState;

impl PageState {
    pub const IDLE: u32 = 0;
    /// Stores to a page are planned.
    pub const STORING: u32 = 1;
    /// Loads of a page are planned.
    pub const LOADING: u32 = 2;
    /// A send is planned.
    pub const SENDING: u32 = 3;
    /// A take is planned.
    pub const TAKING: u32 = 4;
}

/// What an end keeps of its channel's pages.
#[repr(C)]
#[derive(Clone, Copy)]
pub struct PageEnd {
    /// What it does.
    pub state: u32,
    /// The page whose first words are to be loaded.
    pub due_page: u32,
    /// How many words, or 0 where none is to be loaded.
    pub due_words: u32,
}

// The slots are those of a channel with data pages, and the end is in this state.
#[inline(always)]
pub(crate) fn is_at(end: &PageEnd, state: u32, slots: &[PageSlot]) -> bool
    ensures { result ≡ is_at end.now state slots.now }
{
    end.state == state && !slots.is_empty() && slots.len() <= MOST_PAGES
}

/// Makes the pages of a new end of a channel with as many data pages as there are slots: the host's, or the guest's. It has those whose home it is: the guest
/// the first 64, the host the others. No request is open. It answers false where there are no slots, or more than 128, and then nothing changes.
pub fn page_make(
    end: &mut PageEnd,
    slots: &mut [PageSlot],
    asks: &mut [IdSlot],
    owed: &mut [IdSlot],
    host: bool,
) -> bool
    ensures says { result ≡ is_list slots.old }
    ensures unchanged { result ≡ false → (end.new ≡ end.old) × (slots.new ≡ slots.old) × (asks.new ≡ asks.old) × (owed.new ≡ owed.old) }
    ensures end { result ≡ true → end.new ≡ new_end }
    ensures slots { result ≡ true → slots.new ≡ new_slots host (length slots.old) }
    ensures asks { result ≡ true → asks.new ≡ no_requests (length asks.old) }
    ensures owed { result ≡ true → owed.new ≡ no_requests (length owed.old) }
{
    if slots.is_empty() || slots.len() > MOST_PAGES {
        return false;
    }
    let first = GUEST_PAGES.min(slots.len());
    let (guests, hosts) = slots.split_at_mut(first);
    if host {
        guests.fill(PageSlot::AWAY);
        hosts.fill(PageSlot::HAS);
    } else {
        guests.fill(PageSlot::HAS);
        hosts.fill(PageSlot::AWAY);
    }
    asks.fill(IdSlot::FREE);
    owed.fill(IdSlot::FREE);
    *end = PageEnd {
        state: PageState::IDLE,
        due_page: 0,
        due_words: 0,
    };
    true
}

/// Whether nothing is planned and no words are to be loaded: what a commit, an arm and a mark ask of an end with data pages.
pub fn page_ready(end: &PageEnd) -> bool
    ensures { result ≡ is_ready end.now }
{
    end.state == PageState::IDLE && end.due_words == 0
}

/// Gives up a send or a take that was planned, where the ring had no room, or no packet.
pub fn page_drop(end: &mut PageEnd) -> u32
    ensures says { result ≡ drop_says end.old }
    ensures unchanged { result ≡ no_call → end.new ≡ end.old }
    ensures end { result ≢ no_call → end.new ≡ end_at 0 end.old }
{
    if end.state != PageState::SENDING && end.state != PageState::TAKING {
        return PageAnswer::NO_CALL;
    }
    end.state = PageState::IDLE;
    PageAnswer::DONE
}
