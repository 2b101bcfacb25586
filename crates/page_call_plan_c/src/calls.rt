//! The calls. Each tests its own conditions, and answers a number: 0 where it doesn't fit the end's state or its numbers, and then nothing changed.
ghost use Rattle.std.specs.Prelude.{◌≡◌, ◌≢◌, ◌⊎◌, true, false, length};
ghost use Rattle.page_call_plan.specs.Answers.{no_call, page_done, page_due, planned, took};
ghost use Rattle.page_call_plan.specs.Ends.{asks_sent, asks_took, done_says, drop_says, end_at, end_due, is_list, is_ready, load_says, new_end, new_slots, no_requests, owed_sent, owed_took, run_of, send_says, sent_says, store_says, take_says, took_says};
ghost use Rattle.page_call_plan.specs.Slots.{part_took, slots_sent, slots_took};

use page_call_plan::{IdSlot, PageEnd, PageRun, PageSlot};

/// Makes the pages of a new end of a channel with as many data pages as there are slots: the host's, or the guest's. It has those whose home it is: the guest
/// the first 64, the host the others. No request is open. It answers false where there are no slots, or more than 128, and then nothing changes.
#[unsafe(no_mangle)]
pub extern "C" fn vmbus_page_make(
    end: &mut PageEnd,
    slots: &mut [PageSlot],
    asks: &mut [IdSlot],
    owed: &mut [IdSlot],
    host: bool,
) -> bool
    ensures says { result ≡ is_list slots.old }
    ensures unchanged { result ≡ false → (end.new ≡ end.old) × (slots.new ≡ slots.old) × (asks.new ≡ asks.old) × (owed.new ≡ owed.old) }
    ensures end { result ≡ true → end.new ≡ new_end }
    ensures slots { result ≡ true → slots.new ≡ new_slots host (length slots.old) }
    ensures asks { result ≡ true → asks.new ≡ no_requests (length asks.old) }
    ensures owed { result ≡ true → owed.new ≡ no_requests (length owed.old) }
{
    page_call_plan::page_make(end, slots, asks, owed, host)
}

/// Plans to store `words` words of a page, from word `from` on: the run says which bytes.
#[unsafe(no_mangle)]
pub extern "C" fn vmbus_page_store_plan(
    end: &mut PageEnd,
    slots: &[PageSlot],
    page: u32,
    from: u32,
    words: u32,
    run: &mut PageRun,
) -> u32
    ensures says { result ≡ store_says end.old slots.now page from words }
    ensures unchanged { result ≢ planned → (end.new ≡ end.old) × (run.new ≡ run.old) }
    ensures end { result ≡ planned → end.new ≡ end_at 1 end.old }
    ensures run { result ≡ planned → run.new ≡ run_of page from words }
{
    page_call_plan::store_plan(end, slots, page, from, words, run)
}

/// Ends stores that were planned.
#[unsafe(no_mangle)]
pub extern "C" fn vmbus_page_store_done(end: &mut PageEnd) -> u32
    ensures says { result ≡ done_says 1 end.old }
    ensures unchanged { result ≡ no_call → end.new ≡ end.old }
    ensures end { result ≢ no_call → end.new ≡ end_at 0 end.old }
{
    page_call_plan::store_done(end)
}

/// Plans to load the words that came with the packet that was taken last: the run says which bytes, from the page's first on.
#[unsafe(no_mangle)]
pub extern "C" fn vmbus_page_load_plan(
    end: &mut PageEnd,
    slots: &[PageSlot],
    run: &mut PageRun,
) -> u32
    ensures says { result ≡ load_says end.old slots.now }
    ensures unchanged { result ≢ planned → (end.new ≡ end.old) × (run.new ≡ run.old) }
    ensures end { result ≡ planned → end.new ≡ end_at 2 end.old }
    ensures run { result ≡ planned → run.new ≡ run_of end.old.due_page 0 end.old.due_words }
{
    page_call_plan::load_plan(end, slots, run)
}

/// Ends loads that were planned: no words are to be loaded any more.
#[unsafe(no_mangle)]
pub extern "C" fn vmbus_page_load_done(end: &mut PageEnd) -> u32
    ensures says { result ≡ done_says 2 end.old }
    ensures unchanged { result ≡ no_call → end.new ≡ end.old }
    ensures end { result ≢ no_call → end.new ≡ new_end }
{
    page_call_plan::load_done(end)
}

/// Plans to send a packet. A completion needs a request that was taken and isn't completed. Any other packet needs room for its id; one that names a page needs
/// that the end has it, and that no request of its id is open.
#[unsafe(no_mangle)]
pub extern "C" fn vmbus_page_send_plan(
    end: &mut PageEnd,
    slots: &[PageSlot],
    asks: &[IdSlot],
    owed: &[IdSlot],
    packet: &[u64],
) -> u32
    ensures says { result ≡ send_says end.old 0 slots.now asks.now owed.now packet.now }
    ensures unchanged { result ≢ planned → end.new ≡ end.old }
    ensures end { result ≡ planned → end.new ≡ end_at 3 end.old }
{
    page_call_plan::page_send_plan(end, slots, asks, owed, packet)
}

/// Ends a send that was planned, of a packet that the ring has now: a completion gives back the page that is held under its id, and any other packet lends what it
/// names. The packet is tested again, so that another one than was planned doesn't pass for it.
#[unsafe(no_mangle)]
pub extern "C" fn vmbus_page_send_done(
    end: &mut PageEnd,
    slots: &mut [PageSlot],
    asks: &mut [IdSlot],
    owed: &mut [IdSlot],
    packet: &[u64],
) -> u32
    ensures says { result ≡ sent_says end.old slots.old asks.old owed.old packet.now }
    ensures unchanged { result ≢ page_done → (end.new ≡ end.old) × (slots.new ≡ slots.old) × (asks.new ≡ asks.old) × (owed.new ≡ owed.old) }
    ensures end { result ≡ page_done → end.new ≡ end_at 0 end.old }
    ensures slots { result ≡ page_done → slots.new ≡ slots_sent slots.old packet.now }
    ensures asks { result ≡ page_done → asks.new ≡ asks_sent asks.old packet.now }
    ensures owed { result ≡ page_done → owed.new ≡ owed_sent owed.old packet.now }
{
    page_call_plan::page_send_done(end, slots, asks, owed, packet)
}

/// Plans to take a packet: no words are to be loaded, and there is room for one more id.
#[unsafe(no_mangle)]
pub extern "C" fn vmbus_page_take_plan(
    end: &mut PageEnd,
    slots: &[PageSlot],
    owed: &[IdSlot],
) -> u32
    ensures says { result ≡ take_says end.old slots.now owed.now }
    ensures unchanged { result ≢ planned → end.new ≡ end.old }
    ensures end { result ≡ planned → end.new ≡ end_at 4 end.old }
{
    page_call_plan::page_take_plan(end, slots, owed)
}

/// Ends a take that was planned, of this packet: a completion brings back the page that is lent under its id, and of any other packet the end holds the page that
/// it names, where it may.
#[unsafe(no_mangle)]
pub extern "C" fn vmbus_page_take_done(
    end: &mut PageEnd,
    slots: &mut [PageSlot],
    asks: &mut [IdSlot],
    owed: &mut [IdSlot],
    packet: &[u64],
) -> u32
    ensures says { result ≡ took_says end.old slots.old owed.old packet.now }
    ensures unchanged { result ≢ took → result ≢ page_due → (end.new ≡ end.old) × (slots.new ≡ slots.old) × (asks.new ≡ asks.old) × (owed.new ≡ owed.old) }
    ensures end { (result ≡ took) ⊎ (result ≡ page_due) → end.new ≡ end_due (part_took slots.old packet.now) }
    ensures slots { (result ≡ took) ⊎ (result ≡ page_due) → slots.new ≡ slots_took slots.old packet.now }
    ensures asks { (result ≡ took) ⊎ (result ≡ page_due) → asks.new ≡ asks_took asks.old packet.now }
    ensures owed { (result ≡ took) ⊎ (result ≡ page_due) → owed.new ≡ owed_took owed.old packet.now }
{
    page_call_plan::page_take_done(end, slots, asks, owed, packet)
}

/// Gives up a send or a take that was planned, where the ring had no room, or no packet.
#[unsafe(no_mangle)]
pub extern "C" fn vmbus_page_drop(end: &mut PageEnd) -> u32
    ensures says { result ≡ drop_says end.old }
    ensures unchanged { result ≡ no_call → end.new ≡ end.old }
    ensures end { result ≢ no_call → end.new ≡ end_at 0 end.old }
{
    page_call_plan::page_drop(end)
}

/// Whether nothing is planned and no words are to be loaded: what a commit, an arm and a mark ask of an end with data pages.
#[unsafe(no_mangle)]
pub extern "C" fn vmbus_page_ready(end: &PageEnd) -> bool
    ensures { result ≡ is_ready end.now }
{
    page_call_plan::page_ready(end)
}
