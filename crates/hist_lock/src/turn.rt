//! The steps of one call, each on its own.
ghost use Rattle.std.specs.Prelude.{◌≡◌, ℕ, ◌+◌, ◌^◌, ◌<◌, List, [], ◌∷◌, ◌++◌, length, Some, None, true, false, vec_len, vec_capacity};
ghost use Rattle.hist_lock.specs.declared.view.Line.{Line};
ghost use Rattle.hist_lock.specs.declared.view.Stage.TheVariants.{Idle, Waits, Turn, Holds, Gave};
ghost use Rattle.hist_lock.specs.declared.history.Entry.{Entry};
ghost use Rattle.hist_lock.specs.Rule.{view};
ghost use Rattle.hist_lock.specs.Plays.{begun, made, ticket_of, log_of, staged, Took, IsTurn};
ghost use Rattle.hist_lock.specs.Sitting.{IsAt, terms_of, Sits, MayGive};

use crate::rule::{Draw, Give, LockSeat, LockShared, Look, Serve, Take};
use crate::view::Kept;
use crate::{Entry, Machine};
use std::hint;
use std::sync::Wait;

/// The word with the next ticket.
const TICKET: usize = 0;

/// The word with the ticket that is served.
pub const SERVING: usize = 1;

/// How often a call looks whether its turn has come, before its thread is parked.
const LOOKS: u32 = 64;

/// Draws the next ticket.
pub fn draw<M: Machine>(shared: &LockShared<M>, seat: &mut LockSeat<M>) -> u64
    requires table { IsAt shared.now.table_id seat.old.table_id }
    requires sits { (l : Line M M.Request M.Reply) × (0 < l.left) × (seat.old.me ≡ (view (terms_of M.first shared.now.key) (l ∷ []) Idle, [])) }
    ensures same { seat.new.table_id ≡ seat.old.table_id }
    ensures small { result < 2 ^ 32 }
    ensures drawn { seat.new.me ≡ (record { terms = seat.old.me.0.terms; lines = begun seat.old.me.0.lines; stage = Waits result }, seat.old.me.1) }
{
    shared.fetch_add::<Draw>(seat, TICKET, 1)
}

/// Looks a few times whether the ticket is served, as a call of the device takes less time than a thread that is parked and woken.
fn comes_soon<M: Machine>(shared: &LockShared<M>, seat: &mut LockSeat<M>, ticket: u64) -> bool
    requires table { IsAt shared.now.table_id seat.old.table_id }
    requires sits { Sits (terms_of M.first shared.now.key) (Waits ticket) [] seat.old.me }
    ensures same { seat.new.table_id ≡ seat.old.table_id }
    ensures turn { result ≡ true → seat.new.me ≡ (staged seat.old.me.0 (Turn ticket), seat.old.me.1) }
    ensures waits { result ≡ false → seat.new.me ≡ seat.old.me }
{
    for _ in 0..LOOKS {
        let serving = shared.load::<Look>(seat, SERVING);
        if serving == ticket {
            return true;
        }
        hint::spin_loop();
    }
    false
}

/// Sleeps until the ticket is served.
fn sleep_for<M: Machine, R: Wait>(
    rt: &R,
    shared: &LockShared<M>,
    seat: &mut LockSeat<M>,
    ticket: u64,
)
    requires table { IsAt shared.now.table_id seat.old.table_id }
    requires sits { Sits (terms_of M.first shared.now.key) (Waits ticket) [] seat.old.me }
    ensures same { seat.new.table_id ≡ seat.old.table_id }
    ensures turn { seat.new.me ≡ (staged seat.old.me.0 (Turn ticket), seat.old.me.1) }
{
    for _ in rt.forever() {
        let serving = shared.load::<Look>(seat, SERVING);
        if serving == ticket {
            return;
        }
        shared.park(rt, SERVING, serving as u32);
    }
    unreachable!()
}

/// Waits until the ticket is served, and sleeps where that isn't soon.
pub fn wait_for<M: Machine, R: Wait>(
    rt: &R,
    shared: &LockShared<M>,
    seat: &mut LockSeat<M>,
    ticket: u64,
)
    requires table { IsAt shared.now.table_id seat.old.table_id }
    requires sits { Sits (terms_of M.first shared.now.key) (Waits ticket) [] seat.old.me }
    ensures same { seat.new.table_id ≡ seat.old.table_id }
    ensures turn { seat.new.me ≡ (staged seat.old.me.0 (Turn ticket), seat.old.me.1) }
{
    if !comes_soon(shared, seat, ticket) {
        sleep_for(rt, shared, seat, ticket);
    }
}

/// Takes the slot, and out of it the state with its history.
pub fn take<M: Machine>(shared: &LockShared<M>, seat: &mut LockSeat<M>, ticket: u64) -> Kept<M>
    requires table { IsAt shared.now.table_id seat.old.table_id }
    requires sits { Sits (terms_of M.first shared.now.key) (Turn ticket) [] seat.old.me }
    ensures same { seat.new.table_id ≡ seat.old.table_id }
    ensures took { let t = terms_of M.first shared.now.key in (since : List (Entry M M.Request M.Reply)) × Took M.after M.reply_to t since result seat.old.me.0.lines × IsTurn t since ticket × (seat.new.me ≡ (staged seat.old.me.0 (Holds ticket (t.past ++ since)), (0, None) ∷ [])) }
{
    shared.load::<Take>(seat, SERVING);
    shared.exchange(seat, 0, None).unwrap()
}

/// Puts the state and its history into the slot, and gives it back.
pub fn give<M: Machine>(shared: &LockShared<M>, seat: &mut LockSeat<M>, kept: Kept<M>)
    requires table { IsAt shared.now.table_id seat.old.table_id }
    requires may { MayGive M.after M.reply_to (terms_of M.first shared.now.key) kept seat.old.me }
    ensures same { seat.new.table_id ≡ seat.old.table_id }
    ensures gave { (e : Entry M M.Request M.Reply) → kept.entries.items ≡ log_of seat.old.me.0.stage ++ e ∷ [] → seat.new.me ≡ (staged seat.old.me.0 (Gave (ticket_of seat.old.me.0.stage) e), []) }
{
    drop(shared.exchange(seat, 0, Some(kept)));
    shared.load::<Give>(seat, SERVING);
}

/// Serves the next ticket.
pub fn serve<M: Machine>(shared: &LockShared<M>, seat: &mut LockSeat<M>, ticket: u64)
    requires table { IsAt shared.now.table_id seat.old.table_id }
    requires few { ticket < 2 ^ 32 }
    requires sits { (e : Entry M M.Request M.Reply) × Sits (terms_of M.first shared.now.key) (Gave ticket e) [] seat.old.me }
    ensures same { seat.new.table_id ≡ seat.old.table_id }
    ensures served { seat.new.me ≡ (record { terms = seat.old.me.0.terms; lines = made seat.old.me.0.stage seat.old.me.0.lines; stage = Idle }, seat.old.me.1) }
{
    shared.store::<Serve>(seat, SERVING, ticket + 1);
    shared.wake_all(SERVING);
}

/// Notes a call in the history, behind the entries there, which have room for it. The reply stays the caller's.
pub fn note<M: Machine>(
    entries: &mut Vec<Entry<M>>,
    number: u32,
    request: M::Request,
    reply: &M::Reply,
)
    requires room { vec_len entries.old < vec_capacity entries.old }
    ensures items { entries.new.items ≡ entries.old.items ++ record { seat = number; request = request; reply = reply.now } ∷ [] }
    ensures capacity { vec_capacity entries.new ≡ vec_capacity entries.old }
{
    entries.push_reserved(Entry {
        seat: number,
        request,
        reply: M::copy(reply),
    });
}
