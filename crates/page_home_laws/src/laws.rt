//! Laws of an end whose requests lend the page of their own id: each function does nothing, and its contract is a law.
ghost use Rattle.std.specs.Prelude.{◌≡◌, ◌<◌, ◌==◌, ℕ, Bool, false, List, Some};
ghost use Rattle.io_edge.specs.declared.side.Side.{Side};
ghost use Rattle.page_kept.specs.declared.due.Due.TheVariants.{Clear};
ghost use Rattle.page_kept.specs.declared.kept.Kept.{Kept};
ghost use Rattle.page_kept.specs.Layouts.{Layout, Loan, layout};
ghost use Rattle.page_kept.specs.Keepers.{Keeper, MaySend};
ghost use Rattle.pkt_desc.specs.Packets.{kind_of, id_of};
ghost use Rattle.ring_loan_rule.specs.Laws.{new_keeper};
ghost use Rattle.page_home_laws.specs.Home.{HomeKept, LendsItsOwn, KeepsHome};

/// Each packet that an end sends or takes, and each page word that it stores or loads, keeps its pages under their ids: a request opens its id, and a completion
/// that is taken closes it. It is so whatever the other end does.
pub fn ids_keep_their_pages()
    ensures { (l : Layout) (s : Side) (is_open : ℕ → Bool) (took : List (List ℕ)) (k : Kept) → KeepsHome l s is_open took k }
{}

/// An end of a new channel has all its pages, and no id is open.
pub fn new_ends_have_them()
    ensures { (pages : ℕ) (s : Side) → HomeKept s pages (λ t. false) (new_keeper (layout pages) s) }
{}

/// An id that isn't open has its page back: the next request under it may lend that page, and what a send asks of pages holds without a look at any packet.
pub fn closed_ids_may_lend()
    ensures { (l : Layout) (s : Side) (pages : ℕ) (is_open : ℕ → Bool) (x : Keeper) (p : List ℕ) → HomeKept s pages is_open x → x.due ≡ Clear → (kind_of p == 11) ≡ false → is_open (id_of p) ≡ false → LendsItsOwn l s p → ((a : Loan) → l.lends p ≡ Some a → a.page < pages) → MaySend l x p }
{}
