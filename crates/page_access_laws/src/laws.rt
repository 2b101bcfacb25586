//! The laws: each function does nothing, and its contract is a law. What a caller does by plans is a whole call: the calls that it makes, with the accesses that they plan.
ghost use Rattle.std.specs.Prelude.{◌≡◌, ◌≢◌, ℕ, List, ◌++◌};
ghost use Rattle.io_edge.specs.declared.side.Side.{Side};
ghost use Rattle.ring_machine.specs.declared.state.EndState.{EndState};
ghost use Rattle.ring_machine.specs.Steps.{machine_new};
ghost use Rattle.ring_seat.specs.Whole.{new_paged};
ghost use Rattle.ring_call_plan.specs.declared.end.PlanEnd.{PlanEnd as RingEnd};
ghost use Rattle.ring_call_plan.specs.Shown.{Shows as RingShows};
ghost use Rattle.page_call_plan.specs.Ends.{no_requests};
ghost use Rattle.ring_call_plan_laws.specs.Plays.{Channel};
ghost use Rattle.page_access_laws.specs.Calls.{IsExactIn, IsHeardBy, IsLet, IsPagedCall, IsShown, PagedAccess, PagedCall, PagedEnd, accesses_by, left_by, new_by};
ghost use Rattle.page_access_laws.specs.Turns.{IsLawfulPaged, IsPlayed, PagedTurn, opened_by, own_of, played};

/// What a new end by plans of the rings, and new pages, show together is a new end of a channel with data pages, and the numbers are exact.
pub fn new_ends_are_shown()
    ensures shows { (n c i j : ℕ) (x : Side) (r : RingEnd) → RingShows r (machine_new x n) → IsShown (new_by r x c i j) (new_paged n c x) }
    ensures exact { (n c i : ℕ) (x : Side) → IsExactIn (new_paged n c x) (no_requests i) }
{}

/// A whole call by plans of an end with data pages, of its rings or of page words, is one that the rule lets, access by access, whatever the caller hears: each access of
/// the rings is the next step of the end's state, a page word is stored where the end may store to it, and loaded where it is due next, outside the calls of the rings.
/// So a page that a packet lends, or gives back, has its words before the store of the write index that sends the packet, and they are loaded after its last word was.
/// The numbers that the calls leave show the state after the last access.
pub fn plans_are_allowed()
    ensures { (s : EndState) (z : PagedEnd) (a : PagedCall) → IsShown z s → IsLet z a → IsHeardBy z a → IsPagedCall s z a }
{}

/// A channel with data pages one of whose ends goes by plans keeps its rule, of its rings and of its pages: at each moment of a whole call, while its peer makes steps,
/// begins calls, and stores and loads page words between any two of the accesses, and where each access gives what the words hold then. After the last one the numbers
/// show the state of the end, which may begin the next call, and exact numbers are exact again.
pub fn plans_keep_the_channel()
    ensures rule { (n c : ℕ) (x : Side) (w : Channel) (z : PagedEnd) (a : PagedCall) (turns : List PagedTurn) (rest : List PagedAccess) → c ≢ 0 → IsLawfulPaged n c w → IsShown z (w.ends x)
        → IsLet z a → IsHeardBy z a → IsPlayed n c x (opened_by x a w) turns → rest ++ own_of turns ≡ accesses_by x z a → IsLawfulPaged n c (played n x (opened_by x a w) turns) }
    ensures over { (n c : ℕ) (x : Side) (w : Channel) (z : PagedEnd) (a : PagedCall) (turns : List PagedTurn) → c ≢ 0 → IsLawfulPaged n c w → IsShown z (w.ends x)
        → IsLet z a → IsHeardBy z a → IsPlayed n c x (opened_by x a w) turns → own_of turns ≡ accesses_by x z a → IsShown (left_by z a) ((played n x (opened_by x a w) turns).ends x) }
    ensures exact { (n c : ℕ) (x : Side) (w : Channel) (z : PagedEnd) (a : PagedCall) (turns : List PagedTurn) → c ≢ 0 → IsLawfulPaged n c w → IsShown z (w.ends x)
        → IsLet z a → IsHeardBy z a → IsPlayed n c x (opened_by x a w) turns → own_of turns ≡ accesses_by x z a → IsExactIn (w.ends x) z.asks
        → IsExactIn ((played n x (opened_by x a w) turns).ends x) (left_by z a).asks }
{}
