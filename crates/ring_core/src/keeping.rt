//! What the calls of an end add to its lists of packets. A push of a plain packet is inlined; what a channel with data pages keeps stands apart, and is marked as the
//! rarer way: else the compiler takes the way of a plain packet for that, and makes a call of it.
ghost use Rattle.std.specs.Prelude.{◌≡◌, ◌≢◌, ◌==◌, ◌+◌, ◌<◌, ◌≤◌, ◌++◌, ◌∷◌, [], true, false, not, length, None, Some, OnOk, max};
ghost use Rattle.page_kept.specs.declared.due.Due.TheVariants.{Clear};
ghost use Rattle.page_table.specs.Table.{loans, part_in};
ghost use Rattle.page_table.specs.declared.loan.Loan.{Loan as Part};
ghost use Rattle.ring_core.specs.Pages.{along, part_len, part_words};
ghost use Rattle.ring_machine.specs.States.{IsPacket};

use crate::lean_end::LeanEnd;
use crate::packets::Packets;
use crate::seat::Seatlike;
use page_table::Loan;
use std::alloc::AllocError;

/// Makes room to count the packets by their ids, in a channel with pages: so many that are sent and got, and in each list those that room was made for.
pub(crate) fn reserve_ids<S: Seatlike>(
    end: &mut LeanEnd<S>,
    sent: &Packets,
    got: &Packets,
    more_sent: u64,
    more_got: u64,
) -> Result<(), AllocError>
    ensures same { end.new.driven ≡ end.old.driven }
    ensures kept { end.old.room ≤ end.new.room }
    ensures room { OnOk result (end.old.driven.state.pages.count ≢ 0 → max sent.now.places more_sent + max got.now.places more_got ≤ end.new.room) }
{
    if end.pages() == 0 {
        return Ok(());
    }
    let sent = sent.places().max(more_sent);
    let got = got.places().max(more_got);
    match sent.checked_add(got) {
        Some(packets) => end.reserve(packets),
        None => Err(AllocError),
    }
}

#[cold]
#[inline(never)]
fn part_of_page<S: Seatlike>(end: &LeanEnd<S>, packet: &[u64]) -> Option<Loan>
    requires packet { IsPacket packet.now }
    ensures part { loans result ≡ part_in end.now.driven.state.pages.owners packet.now }
    ensures words { along end.now.driven.state.pages packet.now ≡ part_len result }
    ensures inside { (a : Part) → result ≡ Some a → (a.page < end.now.driven.state.pages.count) × (a.words ≤ 512) }
{
    end.part_of(packet)
}

/// The part of a page that goes along with a packet, if that is sent now, in a channel with pages.
#[inline(always)]
pub(crate) fn part_along<S: Seatlike>(end: &LeanEnd<S>, packet: &[u64]) -> Option<Loan>
    requires packet { IsPacket packet.now }
    ensures part { end.now.driven.state.pages.count ≢ 0 → loans result ≡ part_in end.now.driven.state.pages.owners packet.now }
    ensures words { along end.now.driven.state.pages packet.now ≡ part_len result }
    ensures inside { (a : Part) → result ≡ Some a → (a.page < end.now.driven.state.pages.count) × (a.words ≤ 512) }
{
    if end.pages() == 0 {
        return None;
    }
    part_of_page(end, packet)
}

#[cold]
#[inline(never)]
fn keep_sent_page<S: Seatlike>(
    sent: &mut Packets,
    end: &LeanEnd<S>,
    packet: &[u64],
    part: Option<Loan>,
)
    requires paged { sent.old.paged ≡ true }
    requires packets { 0 < sent.old.room.packets }
    requires words { length packet.now + part_len part ≤ sent.old.room.words }
    requires inside { (a : Part) → part ≡ Some a → (a.page < end.now.driven.state.pages.count) × (a.words ≤ 512) }
    ensures list { sent.new.list ≡ sent.old.list ++ packet.now ∷ [] }
    ensures lent { sent.new.lent ≡ sent.old.lent ++ part_words end.now.driven.state.pages.copy part ∷ [] }
    ensures paged { (sent.new.paged ≡ sent.old.paged) × (sent.new.places + 1 ≡ sent.old.places) }
    ensures room { (sent.old.room.packets ≤ sent.new.room.packets + 1) × (sent.old.room.words ≤ sent.new.room.words + (length packet.now + part_len part)) }
{
    sent.push_with(packet, end.words_of(part));
}

/// Keeps a packet that was sent, if it went, and the words of this part of a page that went along.
#[inline(always)]
pub(crate) fn keep_sent<S: Seatlike>(
    sent: &mut Packets,
    end: &LeanEnd<S>,
    went: bool,
    packet: &[u64],
    part: Option<Loan>,
)
    requires paged { sent.old.paged ≡ not (end.now.driven.state.pages.count == 0) }
    requires packets { 0 < sent.old.room.packets }
    requires words { length packet.now + part_len part ≤ sent.old.room.words }
    requires inside { (a : Part) → part ≡ Some a → (a.page < end.now.driven.state.pages.count) × (a.words ≤ 512) }
    ensures kept { went ≡ false → sent.new ≡ sent.old }
    ensures list { went ≡ true → sent.new.list ≡ sent.old.list ++ packet.now ∷ [] }
    ensures bare { went ≡ true → end.now.driven.state.pages.count ≡ 0 → sent.new.lent ≡ sent.old.lent }
    ensures lent { went ≡ true → end.now.driven.state.pages.count ≢ 0 → sent.new.lent ≡ sent.old.lent ++ part_words end.now.driven.state.pages.copy part ∷ [] }
    ensures paged { sent.new.paged ≡ sent.old.paged }
    ensures places { went ≡ true → end.now.driven.state.pages.count ≢ 0 → sent.new.places + 1 ≡ sent.old.places }
    ensures room { (sent.old.room.packets ≤ sent.new.room.packets + 1) × (sent.old.room.words ≤ sent.new.room.words + (length packet.now + part_len part)) }
{
    if went {
        if end.pages() == 0 {
            sent.push_packet(packet);
        } else {
            keep_sent_page(sent, end, packet, part);
        }
    }
}

#[cold]
#[inline(never)]
fn keep_got_page<S: Seatlike>(got: &mut Packets, end: &LeanEnd<S>)
    requires paged { got.old.paged ≡ true }
    requires packets { 0 < got.old.room.packets }
    requires words { length end.now.driven.taken ≤ got.old.room.words }
    ensures list { got.new.list ≡ got.old.list ++ end.now.driven.taken ∷ [] }
    ensures whole { end.now.driven.state.pages.due ≡ Clear → got.new.lent ≡ got.old.lent ++ [] ∷ [] }
    ensures waits { end.now.driven.state.pages.due ≢ Clear → (got.new.lent ≡ got.old.lent) × (0 < got.new.lent_room.packets) }
    ensures paged { (got.new.paged ≡ got.old.paged) × (got.new.places + 1 ≡ got.old.places) }
    ensures room { (got.old.room.packets ≤ got.new.room.packets + 1) × (got.old.room.words ≤ got.new.room.words + length end.now.driven.taken) }
{
    if end.is_due() {
        got.push_waiting(end.taken());
    } else {
        got.push_with(end.taken(), &[]);
    }
}

/// Keeps the packet that was taken, if one was. Where page words that came with it are to be loaded, it has none yet.
#[inline(always)]
pub(crate) fn keep_got<S: Seatlike>(got: &mut Packets, end: &LeanEnd<S>, went: bool)
    requires paged { got.old.paged ≡ not (end.now.driven.state.pages.count == 0) }
    requires packets { 0 < got.old.room.packets }
    requires words { went ≡ true → length end.now.driven.taken ≤ got.old.room.words }
    ensures kept { went ≡ false → got.new ≡ got.old }
    ensures list { went ≡ true → got.new.list ≡ got.old.list ++ end.now.driven.taken ∷ [] }
    ensures bare { went ≡ true → end.now.driven.state.pages.count ≡ 0 → got.new.lent ≡ got.old.lent }
    ensures whole { went ≡ true → end.now.driven.state.pages.count ≢ 0 → end.now.driven.state.pages.due ≡ Clear → got.new.lent ≡ got.old.lent ++ [] ∷ [] }
    ensures waits { went ≡ true → end.now.driven.state.pages.count ≢ 0 → end.now.driven.state.pages.due ≢ Clear → (got.new.lent ≡ got.old.lent) × (0 < got.new.lent_room.packets) }
    ensures paged { got.new.paged ≡ got.old.paged }
    ensures places { went ≡ true → end.now.driven.state.pages.count ≢ 0 → got.new.places + 1 ≡ got.old.places }
    ensures room { (got.old.room.packets ≤ got.new.room.packets + 1) × (got.old.room.words ≤ got.new.room.words + length end.now.driven.taken) }
{
    if went {
        if end.pages() == 0 {
            got.push_packet(end.taken());
        } else {
            keep_got_page(got, end);
        }
    }
}

/// Keeps the words of this part of a page, which were loaded, if any, with the packet that was taken last.
pub(crate) fn keep_words<S: Seatlike>(got: &mut Packets, end: &LeanEnd<S>, part: Option<Loan>)
    requires paged { (a : Part) → part ≡ Some a → (got.old.paged ≡ true) × (0 < got.old.lent_room.packets) }
    requires words { 512 ≤ got.old.room.words }
    requires inside { (a : Part) → part ≡ Some a → (a.page < end.now.driven.state.pages.count) × (a.words ≤ 512) }
    ensures none { part ≡ None → got.new ≡ got.old }
    ensures list { (got.new.list ≡ got.old.list) × (got.new.paged ≡ got.old.paged) × (got.new.places ≡ got.old.places) }
    ensures lent { (a : Part) → part ≡ Some a → got.new.lent ≡ got.old.lent ++ part_words end.now.driven.state.pages.copy part ∷ [] }
    ensures room { (got.old.room.packets ≤ got.new.room.packets + 1) × (got.old.room.words ≤ got.new.room.words + part_len part) }
{
    if let Some(_) = part {
        got.push_lent(end.words_of(part));
    }
}
