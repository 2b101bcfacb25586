//! What an end has to do with a page, in numbers.
ghost use Rattle.std.specs.Prelude.{◌≡◌};
ghost use Rattle.std.specs.List.{position};
ghost use Rattle.page_kept.specs.Kept.{is_held, is_lent, may_hold};
ghost use Rattle.page_call_plan.specs.Slots.{away, has, held, is_had, lent, owner_of, store_room};

use page_kept::Owner;

/// The words of a page.
pub(crate) const WORDS: u32 = 512;

/// The numbers of what an end has to do with a page. Any other number is `AWAY` too.
pub struct PageOwner;

impl PageOwner {
    /// It isn't the page's home, and doesn't hold it.
    pub const AWAY: u32 = 0;
    /// It is the page's home, and has it.
    pub const HAS: u32 = 1;
    /// It is the page's home, and has lent its first words.
    pub const LENT: u32 = 2;
    /// It isn't the page's home, and holds its first words.
    pub const HELD: u32 = 3;
}

/// What an end has to do with a page of its channel.
#[repr(C)]
#[derive(Clone, Copy)]
pub struct PageSlot {
    /// The id of the packet by which the page is lent or held.
    pub tid: u64,
    /// How many of its words are.
    pub words: u32,
    /// Which of `PageOwner`.
    pub owner: u32,
}

impl PageSlot {
    /// A page that is the peer's.
    pub(crate) const AWAY: PageSlot = PageSlot {
        tid: 0,
        words: 0,
        owner: PageOwner::AWAY,
    };

    /// A page that the end has.
    pub(crate) const HAS: PageSlot = PageSlot {
        tid: 0,
        words: 0,
        owner: PageOwner::HAS,
    };

    pub(crate) fn lent(tid: u64, words: u32) -> PageSlot
        ensures { result ≡ lent tid words }
    {
        PageSlot {
            tid,
            words,
            owner: PageOwner::LENT,
        }
    }

    pub(crate) fn held(tid: u64, words: u32) -> PageSlot
        ensures { result ≡ held tid words }
    {
        PageSlot {
            tid,
            words,
            owner: PageOwner::HELD,
        }
    }
}

#[inline(always)]
fn owner(slot: PageSlot) -> Owner
    ensures { result ≡ owner_of slot }
{
    if slot.owner == PageOwner::HAS {
        Owner::Has
    } else if slot.owner == PageOwner::LENT {
        Owner::Lent {
            tid: slot.tid,
            words: slot.words,
        }
    } else if slot.owner == PageOwner::HELD {
        Owner::Held {
            tid: slot.tid,
            words: slot.words,
        }
    } else {
        Owner::Away
    }
}

// Whether the end has the page.
#[inline(always)]
pub(crate) fn had(slot: PageSlot) -> bool
    ensures { result ≡ is_had (owner_of slot) }
{
    match owner(slot) {
        Owner::Has => true,
        Owner::Lent { .. } => false,
        Owner::Held { .. } => false,
        Owner::Away => false,
    }
}

// How many of the page's first words the end may store to.
#[inline(always)]
pub(crate) fn store_room(slot: PageSlot) -> u32
    ensures value { result ≡ store_room (owner_of slot) }
{
    match owner(slot) {
        Owner::Has => WORDS,
        Owner::Held { tid: _, words } => words,
        Owner::Lent { .. } => 0,
        Owner::Away => 0,
    }
}

#[inline(always)]
fn lent_by(slot: PageSlot, tid: u64) -> bool
    ensures { result ≡ is_lent tid (owner_of slot) }
{
    match owner(slot) {
        Owner::Lent { tid: of, words: _ } => of == tid,
        Owner::Has => false,
        Owner::Held { .. } => false,
        Owner::Away => false,
    }
}

#[inline(always)]
fn held_by(slot: PageSlot, tid: u64) -> bool
    ensures { result ≡ is_held tid (owner_of slot) }
{
    match owner(slot) {
        Owner::Held { tid: of, words: _ } => of == tid,
        Owner::Has => false,
        Owner::Lent { .. } => false,
        Owner::Away => false,
    }
}

// Whether the end may hold the page by a packet with this id: it is the peer's, and isn't held under another id.
#[inline(always)]
pub(crate) fn may_be_held(slot: PageSlot, tid: u64) -> bool
    ensures { result ≡ may_hold tid (owner_of slot) }
{
    match owner(slot) {
        Owner::Away => true,
        Owner::Held { tid: of, words: _ } => of == tid,
        Owner::Has => false,
        Owner::Lent { .. } => false,
    }
}

// The first page that is lent by a packet with this id.
#[inline(always)]
pub(crate) fn first_lent(slots: &[PageSlot], tid: u64) -> Option<usize>
    ensures { result ≡ position (λ s. is_lent tid (owner_of s)) slots.now }
{
    slots.iter().position(|s| lent_by(*s, tid))
}

// The first page that is held by a packet with this id.
#[inline(always)]
pub(crate) fn first_held(slots: &[PageSlot], tid: u64) -> Option<usize>
    ensures { result ≡ position (λ s. is_held tid (owner_of s)) slots.now }
{
    slots.iter().position(|s| held_by(*s, tid))
}
