//! The laws: each function does nothing, and its contract is a law.
ghost use Rattle.std.specs.Prelude.{◌≡◌, ◌≢◌, ◌⊎◌, ◌+◌, ◌*◌, ◌≤◌, ℕ, true, List, [], ◌∷◌, ◌++◌, length, slice_index};
ghost use Rattle.io_edge.specs.declared.side.Side.{Side};
ghost use Rattle.page_kept.specs.declared.kept.Kept.{Kept};
ghost use Rattle.page_kept.specs.declared.page_call.PageCall.TheVariants.{Off};
ghost use Rattle.page_kept.specs.declared.item.Item.{Item};
ghost use Rattle.page_kept.specs.Kept.{pages_sent, pages_took};
ghost use Rattle.page_kept.specs.Keepers.{Keeper, keeper};
ghost use Rattle.page_kept.specs.Layouts.{layout};
ghost use Rattle.page_kept.specs.Stepped.{word_in};
ghost use Rattle.ring_loan_rule.specs.Laws.{Lawful, Next};
ghost use Rattle.ring_loan_rule.specs.Pages.{PagesOwned};
ghost use Rattle.ring_machine.specs.declared.state.EndState.{EndState};
ghost use Rattle.ring_machine.specs.Places.{len8_of};
ghost use Rattle.ring_machine.specs.States.{Begins};
ghost use Rattle.ring_machine.specs.Steps.{send_begun, take_begun, commit_begun, arm_begun, mark_begun};
ghost use Rattle.ring_call_plan.specs.declared.end.PlanEnd.{PlanEnd as RingEnd};
ghost use Rattle.ring_call_plan.specs.Numbers.{begin_says, commit_says, arm_says};
ghost use Rattle.ring_call_plan.specs.Numbers.{take_says as ring_take_says};
ghost use Rattle.ring_call_plan.specs.Shown.{Shows as RingShows};
ghost use Rattle.page_call_plan.specs.declared.end.PageEnd.{PageEnd};
ghost use Rattle.page_call_plan.specs.declared.ids.IdSlot.{IdSlot};
ghost use Rattle.page_call_plan.specs.declared.slot.PageSlot.{PageSlot};
ghost use Rattle.page_call_plan.specs.Answers.{page_due, planned, took};
ghost use Rattle.page_call_plan.specs.Ends.{is_ready, send_says, store_says, take_says, took_says};
ghost use Rattle.page_call_plan.specs.Shown.{Shows, part_of, stores};
ghost use Rattle.page_call_plan_laws.specs.Words.{words_stored};

/// What the plans of the ring and of the pages let begins a call of the whole state of an end with data pages: a send whose packet both let, and, where nothing
/// is to be loaded, a take, a commit, an arm and a mark.
pub fn plans_begin_calls()
    ensures send { (r : RingEnd) (s : EndState) (e : PageEnd) (ss : List PageSlot) (asks owed : List IdSlot) (p : List ℕ) (n v : ℕ) → RingShows r s.machine → s.copied ≡ [] → s.pages.call ≡ Off → Shows s.machine.side s.got s.pages e ss asks owed
        → send_says e n ss asks owed p ≡ planned → begin_says r (slice_index p 0) v ≢ 0 → length p ≡ len8_of (slice_index p 0) → Begins s (send_begun s.machine (length p)) p }
    ensures take { (r : RingEnd) (s : EndState) (e : PageEnd) (ss : List PageSlot) (asks owed : List IdSlot) (v : ℕ) → RingShows r s.machine → s.copied ≡ [] → s.pages.call ≡ Off → Shows s.machine.side s.got s.pages e ss asks owed
        → take_says e ss owed ≡ planned → ring_take_says r v ≢ 0 → Begins s (take_begun s.machine) [] }
    ensures commit { (r : RingEnd) (s : EndState) (e : PageEnd) (ss : List PageSlot) (asks owed : List IdSlot) → RingShows r s.machine → s.copied ≡ [] → s.pages.call ≡ Off → Shows s.machine.side s.got s.pages e ss asks owed
        → is_ready e ≡ true → commit_says r ≢ 0 → Begins s (commit_begun s.machine) [] }
    ensures arm { (r : RingEnd) (s : EndState) (e : PageEnd) (ss : List PageSlot) (asks owed : List IdSlot) (want : ℕ) → RingShows r s.machine → s.copied ≡ [] → s.pages.call ≡ Off → Shows s.machine.side s.got s.pages e ss asks owed
        → is_ready e ≡ true → arm_says r want ≢ 0 → Begins s (arm_begun s.machine want) [] }
    ensures mark { (r : RingEnd) (s : EndState) (e : PageEnd) (ss : List PageSlot) (asks owed : List IdSlot) → RingShows r s.machine → s.copied ≡ [] → s.pages.call ≡ Off → Shows s.machine.side s.got s.pages e ss asks owed
        → is_ready e ≡ true → commit_says r ≢ 0 → Begins s (mark_begun s.machine) [] }
{}

/// An end whose pages go by plans keeps the rule of pages, whatever its peer does: with each packet that it sends or takes, and with each store.
pub fn plans_keep_the_rule()
    ensures sends { (s : Side) (base : ℕ) (ws : List ℕ) (got : List (List ℕ)) (k : Kept) (y : Keeper) (e : PageEnd) (ss : List PageSlot) (asks owed : List IdSlot) (n : ℕ) (p : List ℕ)
        → Lawful (layout k.count) k → base + 512 * k.count ≤ length ws → PagesOwned (layout k.count) s (word_in base ws) (part_of s got k) y → Shows s got k e ss asks owed
        → send_says e n ss asks owed p ≡ planned → PagesOwned (layout k.count) s (word_in base ws) (keeper (layout k.count) s got (pages_sent (layout k.count) k p)) y }
    ensures takes { (s : Side) (base : ℕ) (ws : List ℕ) (got : List (List ℕ)) (k : Kept) (y : Keeper) (e : PageEnd) (ss : List PageSlot) (asks owed : List IdSlot) (i : Item) (more : List Item)
        → Lawful (layout k.count) k → base + 512 * k.count ≤ length ws → PagesOwned (layout k.count) s (word_in base ws) (part_of s got k) y → Shows s got k e ss asks owed
        → Next y (part_of s got k) i more → (took_says e ss owed i.packet ≡ took) ⊎ (took_says e ss owed i.packet ≡ page_due)
        → PagesOwned (layout k.count) s (word_in base ws) (keeper (layout k.count) s (got ++ i.packet ∷ []) (pages_took (layout k.count) k i.packet)) y }
    ensures stores { (s : Side) (base : ℕ) (ws : List ℕ) (got : List (List ℕ)) (k : Kept) (y : Keeper) (e : PageEnd) (ss : List PageSlot) (asks owed : List IdSlot) (q w : ℕ) (vs : List ℕ)
        → Lawful (layout k.count) k → base + 512 * k.count ≤ length ws → PagesOwned (layout k.count) s (word_in base ws) (part_of s got k) y → Shows s got k e ss asks owed
        → store_says e ss q w (length vs) ≡ planned → PagesOwned (layout k.count) s (word_in base (words_stored base ws q w vs)) (keeper (layout k.count) s got (stores k q w vs)) y }
{}
