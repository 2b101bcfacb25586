//! Laws of an end's pages, as the calls keep them: each function does nothing, and its contract is a law. The calls' contracts say what each answers and leaves as
//! functions of its numbers; here these functions are the rule of pages.
ghost use Rattle.std.specs.Prelude.{◌≡◌, ◌≢◌, ◌⊎◌, ◌+◌, ◌<◌, ◌==◌, ℕ, Bool, true, false, List, [], ◌∷◌, ◌++◌, length};
ghost use Rattle.io_edge.specs.declared.side.Side.{Side};
ghost use Rattle.pkt_desc.specs.Packets.{id_of, kind_of};
ghost use Rattle.page_kept.specs.declared.kept.Kept.{Kept};
ghost use Rattle.page_kept.specs.declared.due.Due.TheVariants.{Clear, Loads};
ghost use Rattle.page_kept.specs.Kept.{pages_sent, pages_took};
ghost use Rattle.page_kept.specs.Keepers.{MaySend, asked, back};
ghost use Rattle.page_kept.specs.Layouts.{layout};
ghost use Rattle.page_call_plan.specs.Answers.{page_done, page_due, planned, took};
ghost use Rattle.page_call_plan.specs.Ends.{PageEnd as AnEnd, asks_sent, asks_took, end_at, end_due, is_at, load_says, new_end, new_slots, owed_sent, owed_took, send_says, sent_says, store_says, take_says, took_says};
ghost use Rattle.page_call_plan.specs.Causes.{AllFit, NoFree, NoRoom, SendAnswer, StoreAnswer, TakeAnswer, TookAnswer};
ghost use Rattle.page_call_plan.specs.Ids.{IdSlot as AnId};
ghost use Rattle.page_call_plan.specs.Shown.{IsExact, MayStoreAll, Shows, loads, part_of, stores};
ghost use Rattle.page_call_plan.specs.Slots.{PageSlot as ASlot, is_packet, part_took, slots_sent, slots_took};

/// A send that is planned is one that the rule of pages lets, beside any peer; and once it is done, the numbers show what the end keeps after that send.
pub fn sends_keep_the_rule()
    ensures may { (s : Side) (got : List (List ℕ)) (k : Kept) (e : AnEnd) (ss : List ASlot) (asks owed : List AnId) (n : ℕ) (p : List ℕ) → Shows s got k e ss asks owed
        → send_says e n ss asks owed p ≡ planned → MaySend (layout k.count) (part_of s got k) p }
    ensures shows { (s : Side) (got : List (List ℕ)) (k : Kept) (e : AnEnd) (ss : List ASlot) (asks owed : List AnId) (n : ℕ) (p : List ℕ) → Shows s got k e ss asks owed
        → send_says e n ss asks owed p ≡ planned → Shows s got (pages_sent (layout k.count) k p) (end_at 0 e) (slots_sent ss p) (asks_sent asks p) (owed_sent owed p) }
    ensures exact { (s : Side) (got : List (List ℕ)) (k : Kept) (e : AnEnd) (ss : List ASlot) (asks owed : List AnId) (n : ℕ) (p : List ℕ) → Shows s got k e ss asks owed
        → send_says e n ss asks owed p ≡ planned → IsExact s got k asks → IsExact s got (pages_sent (layout k.count) k p) (asks_sent asks p) }
{}

/// Once a take is done, the numbers show what the end keeps after it, whatever the peer sent. Where each completion that comes is one of a request that is open, as
/// beside a peer that keeps the rule, the numbers stay exact.
pub fn takes_keep_the_rule()
    ensures shows { (s : Side) (got : List (List ℕ)) (k : Kept) (e : AnEnd) (ss : List ASlot) (asks owed : List AnId) (p : List ℕ) → Shows s got k e ss asks owed
        → (took_says e ss owed p ≡ took) ⊎ (took_says e ss owed p ≡ page_due) → Shows s (got ++ p ∷ []) (pages_took (layout k.count) k p) (end_due (part_took ss p)) (slots_took ss p) (asks_took asks p) (owed_took owed p) }
    ensures exact { (s : Side) (got : List (List ℕ)) (k : Kept) (e : AnEnd) (ss : List ASlot) (asks owed : List AnId) (p : List ℕ) → Shows s got k e ss asks owed
        → (took_says e ss owed p ≡ took) ⊎ (took_says e ss owed p ≡ page_due) → IsExact s got k asks
        → ((kind_of p == 11) ≡ true → back (id_of p) (part_of s got k) < asked (id_of p) (part_of s got k)) → IsExact s (got ++ p ∷ []) (pages_took (layout k.count) k p) (asks_took asks p) }
{}

/// Each word of a store that is planned may be stored to, and the numbers show what the end keeps after it. After the loads that are planned nothing is due.
pub fn words_keep_the_rule()
    ensures may { (s : Side) (got : List (List ℕ)) (k : Kept) (e : AnEnd) (ss : List ASlot) (asks owed : List AnId) (q w n : ℕ) → Shows s got k e ss asks owed
        → store_says e ss q w n ≡ planned → MayStoreAll s k q w n }
    ensures stored { (s : Side) (got : List (List ℕ)) (k : Kept) (e : AnEnd) (ss : List ASlot) (asks owed : List AnId) (n q w : ℕ) (vs : List ℕ) → Shows s got k e ss asks owed
        → Shows s got (stores k q w vs) (end_at n e) ss asks owed }
    ensures loaded { (s : Side) (got : List (List ℕ)) (k : Kept) (e : AnEnd) (ss : List ASlot) (asks owed : List AnId) (p vs : List ℕ) → Shows s got k e ss asks owed
        → load_says e ss ≡ planned → length vs ≡ e.due_words → (k.due ≡ Loads e.due_page e.due_words 0) × Shows s got (loads k p vs) new_end ss asks owed }
{}

/// Each answer to a send has its cause in what the end keeps, where the numbers are exact and fit, and the words are a packet (else the call answers `no_call`).
/// Conversely a packet that the rule of pages lets, and whose id has a slot, is planned to be sent. A send that was planned isn't refused once the ring has the packet.
pub fn sends_answer_by_cause()
    ensures cause { (s : Side) (got : List (List ℕ)) (k : Kept) (e : AnEnd) (ss : List ASlot) (asks owed : List AnId) (n : ℕ) (p : List ℕ) → Shows s got k e ss asks owed
        → IsExact s got k asks → is_at e n ss ≡ true → is_packet p ≡ true → SendAnswer (layout k.count) (part_of s got k) asks p (send_says e n ss asks owed p) }
    ensures lets { (s : Side) (got : List (List ℕ)) (k : Kept) (e : AnEnd) (ss : List ASlot) (asks owed : List AnId) (n : ℕ) (p : List ℕ) → Shows s got k e ss asks owed
        → IsExact s got k asks → is_at e n ss ≡ true → is_packet p ≡ true → MaySend (layout k.count) (part_of s got k) p → ((kind_of p == 11) ≡ false → NoRoom (id_of p) asks → ⊥)
        → send_says e n ss asks owed p ≡ planned }
    ensures done { (e : AnEnd) (ss : List ASlot) (asks owed : List AnId) (p : List ℕ) → send_says e 0 ss asks owed p ≡ planned → sent_says (end_at 3 e) ss asks owed p ≡ page_done }
{}

/// Each answer to a store of one word or more has its cause, where the numbers fit (else the call answers `no_call`). Conversely a store of words that the rule of pages
/// lets is planned.
pub fn stores_answer_by_cause()
    ensures cause { (s : Side) (got : List (List ℕ)) (k : Kept) (e : AnEnd) (ss : List ASlot) (asks owed : List AnId) (q w n : ℕ) → Shows s got k e ss asks owed
        → is_at e 0 ss ≡ true → n ≢ 0 → StoreAnswer s k q w n (store_says e ss q w n) }
    ensures lets { (s : Side) (got : List (List ℕ)) (k : Kept) (e : AnEnd) (ss : List ASlot) (asks owed : List AnId) (q w n : ℕ) → Shows s got k e ss asks owed
        → is_at e 0 ss ≡ true → n ≢ 0 → MayStoreAll s k q w n → store_says e ss q w n ≡ planned }
{}

/// Each answer to a take has its cause, where the numbers fit, and a take where nothing is due is planned, if there is a slot for a request. A take that was planned
/// isn't refused once the ring gave a packet, whatever that says: it answers whether a page came. The words that came are then planned to be loaded.
pub fn takes_answer_by_cause()
    ensures cause { (s : Side) (got : List (List ℕ)) (k : Kept) (e : AnEnd) (ss : List ASlot) (asks owed : List AnId) → Shows s got k e ss asks owed
        → is_at e 0 ss ≡ true → TakeAnswer k owed (take_says e ss owed) }
    ensures lets { (s : Side) (got : List (List ℕ)) (k : Kept) (e : AnEnd) (ss : List ASlot) (asks owed : List AnId) → Shows s got k e ss asks owed
        → is_at e 0 ss ≡ true → k.due ≡ Clear → (NoFree owed → ⊥) → take_says e ss owed ≡ planned }
    ensures done { (s : Side) (got : List (List ℕ)) (k : Kept) (e : AnEnd) (ss : List ASlot) (asks owed : List AnId) (p : List ℕ) → Shows s got k e ss asks owed
        → AllFit ss → take_says e ss owed ≡ planned → is_packet p ≡ true → TookAnswer (pages_took (layout k.count) k p) (took_says (end_at 4 e) ss owed p) }
    ensures loads { (e : AnEnd) (ss : List ASlot) (owed : List AnId) (p : List ℕ) → took_says e ss owed p ≡ page_due → load_says (end_due (part_took ss p)) (slots_took ss p) ≡ planned }
{}

/// Whatever packets an end sends and takes, each page that it has lent or holds is so with 1 to 512 words.
pub fn slots_fit()
    ensures new { (host : Bool) (n : ℕ) → AllFit (new_slots host n) }
    ensures sent { (ss : List ASlot) (p : List ℕ) → AllFit ss → AllFit (slots_sent ss p) }
    ensures took { (ss : List ASlot) (p : List ℕ) → AllFit ss → AllFit (slots_took ss p) }
{}
