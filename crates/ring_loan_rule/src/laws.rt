//! Laws of pages: each function does nothing, and its contract is a law.
ghost use Rattle.std.specs.Prelude.{◌≡◌, ℕ, List, Some};
ghost use Rattle.page_kept.specs.declared.due.Due.TheVariants.{Clear};
ghost use Rattle.io_edge.specs.declared.side.Side.{Side};
ghost use Rattle.io_edge.specs.declared.side.Side.TheVariants.{Guest};
ghost use Rattle.page_kept.specs.declared.kept.Kept.{Kept};
ghost use Rattle.page_kept.specs.Layouts.{other_end, Layout, layout};
ghost use Rattle.page_kept.specs.Keepers.{Keeper, MaySend};
ghost use Rattle.ring_loan_rule.specs.Pages.{PagesOwned};
ghost use Rattle.ring_loan_rule.specs.Laws.{new_keeper, small_request, Says, HoldsOpen, Keeps};

/// Each packet that an end sends or takes, and each page word that it stores or loads, keeps the rule of pages.
pub fn moves_keep_the_rule()
    ensures { (l : Layout) (s : Side) (base : ℕ) (ws : List ℕ) (took : List (List ℕ)) (k : Kept) (y : Keeper) → Keeps l s base ws took k y }
{}

/// A new channel meets the rule of pages, and the rule is the same from either side.
pub fn new_channels_meet_it()
    ensures new { (l : Layout) (s : Side) (W : ℕ → ℕ → ℕ) → ((q w : ℕ) → W q w ≡ 0) → PagesOwned l s W (new_keeper l s) (new_keeper l (other_end s)) }
    ensures turned { (l : Layout) (s : Side) (W : ℕ → ℕ → ℕ) (x y : Keeper) → PagesOwned l s W x y → PagesOwned l (other_end s) W y x }
{}

/// What the rule says: counts are in turn, no page is named by two open packets, page words are the copy of the end that has or holds them, and an end
/// with nothing to load got the front of its peer's items, with their page words.
pub fn rule_says()
    ensures { (l : Layout) (s : Side) (W : ℕ → ℕ → ℕ) (x y : Keeper) → PagesOwned l s W x y → Says l s W x y }
{}

/// What the rule tells of one end alone, where that has nothing to load: each request of its peer that lends a page and isn't completed has that page here,
/// and all its words came with it.
pub fn open_is_held()
    ensures { (l : Layout) (s : Side) (W : ℕ → ℕ → ℕ) (x y : Keeper) → PagesOwned l s W x y → y.due ≡ Clear → HoldsOpen l y }
{}

/// The guest of a new channel with a page may send a packet that lends the page: what a send asks can be met.
pub fn first_request_lends()
    ensures lends { (layout 1).lends small_request ≡ Some record { page = 0; words = 64 } }
    ensures may { MaySend (layout 1) (new_keeper (layout 1) Guest) small_request }
{}
