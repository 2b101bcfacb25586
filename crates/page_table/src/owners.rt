//! Questions to what an end has to do with its pages.
ghost use Rattle.std.specs.Prelude.{◌≡◌, ◌<◌, ◌≤◌, length, true, false, IsTrue};
ghost use Rattle.std.specs.List.{position};
ghost use Rattle.page_kept.specs.Kept.{first_owner, is_held, is_lent, lent_words, may_hold};
ghost use Rattle.page_kept.specs.Keepers.{CanStore};
ghost use Rattle.page_kept.specs.Layouts.{layout};
ghost use Rattle.page_table.specs.Table.{is_had, is_owned};

use io_edge::Side;
use page_kept::Owner;

/// The pages of the guest, which come first.
const GUEST_PAGES: u32 = 64;

// What an end of this side has to do at first with a page.
pub(crate) fn at_first(side: Side, page: u32) -> Owner
    ensures { result ≡ first_owner side ((layout 0).home page) }
{
    let guests = page < GUEST_PAGES;
    match side {
        Side::Guest if guests => Owner::Has,
        Side::Guest => Owner::Away,
        Side::Host if guests => Owner::Away,
        Side::Host => Owner::Has,
    }
}

// Whether the end has the page, or holds it.
pub(crate) fn owned(owner: Owner) -> bool
    ensures { result ≡ is_owned owner }
{
    match owner {
        Owner::Has => true,
        Owner::Held { .. } => true,
        Owner::Lent { .. } => false,
        Owner::Away => false,
    }
}

// Whether the end has the page.
pub(crate) fn had(owner: Owner) -> bool
    ensures { result ≡ is_had owner }
{
    match owner {
        Owner::Has => true,
        Owner::Held { .. } => false,
        Owner::Lent { .. } => false,
        Owner::Away => false,
    }
}

// Whether a word of the page may be stored to.
pub(crate) fn can_store(owner: Owner, word: u32) -> bool
    ensures can { IsTrue result → CanStore owner word }
    ensures whole { CanStore owner word → IsTrue result }
{
    match owner {
        Owner::Has => true,
        Owner::Held { tid: _, words } => word < words,
        Owner::Lent { .. } => false,
        Owner::Away => false,
    }
}

// Whether the page is lent by a packet with this id.
fn lent_by(owner: Owner, tid: u64) -> bool
    ensures { result ≡ is_lent tid owner }
{
    match owner {
        Owner::Lent { tid: of, words: _ } => of == tid,
        Owner::Has => false,
        Owner::Held { .. } => false,
        Owner::Away => false,
    }
}

// Whether the page is held by a packet with this id.
fn held_by(owner: Owner, tid: u64) -> bool
    ensures { result ≡ is_held tid owner }
{
    match owner {
        Owner::Held { tid: of, words: _ } => of == tid,
        Owner::Has => false,
        Owner::Lent { .. } => false,
        Owner::Away => false,
    }
}

// How many words of the page are lent, or held.
pub(crate) fn words_in(owner: Owner) -> u32
    ensures { result ≡ lent_words owner }
{
    match owner {
        Owner::Lent { tid: _, words } => words,
        Owner::Held { tid: _, words } => words,
        Owner::Has => 0,
        Owner::Away => 0,
    }
}

// Whether the end may hold the page by a packet with this id: it is the peer's, and isn't held under another id.
pub(crate) fn may_be_held(owner: Owner, tid: u64) -> bool
    ensures { result ≡ may_hold tid owner }
{
    match owner {
        Owner::Away => true,
        Owner::Held { tid: of, words: _ } => of == tid,
        Owner::Has => false,
        Owner::Lent { .. } => false,
    }
}

// The first page that is lent by a packet with this id.
pub(crate) fn first_lent(owners: &[Owner], tid: u64) -> Option<usize>
    ensures { result ≡ position (λ o. is_lent tid o) owners.now }
{
    owners.iter().position(|o| lent_by(*o, tid))
}

// The first page that is held by a packet with this id.
pub(crate) fn first_held(owners: &[Owner], tid: u64) -> Option<usize>
    ensures { result ≡ position (λ o. is_held tid o) owners.now }
{
    owners.iter().position(|o| held_by(*o, tid))
}
