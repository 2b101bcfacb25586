//! What both ends of a channel did, once they are at an end.
ghost use Rattle.std.specs.Prelude.{◌≡◌, ◌≢◌, true, List, ℕ};
ghost use Rattle.channel_trace.specs.Laws.{AreOfOneRun};
ghost use Rattle.channel_trace.specs.Runs.{IsFront, sent_of, got_of};
ghost use Rattle.io_edge.specs.declared.side.Side.TheVariants.{Guest, Host};
ghost use Rattle.page_kept.specs.declared.due.Due.TheVariants.{Clear};
ghost use Rattle.ring_core.specs.Pages.{items_of};
ghost use Rattle.ring_seat.specs.Seats.{told_in, state_in};
ghost use Rattle.ring_seat.specs.Settling.{AreSettled, AreOfOneChannel, PagesSettled, SignalsTaken};
ghost use Rattle.ring_seat.specs.Whole.{ItemsGot};

use crate::channel::{GuestEnd, HostEnd};
use crate::rule::{Ends, Settles};
use crate::table_seat::TableSeat;
use ring_core::Packets;
use std::alloc::AllocError;
use std::marker::Model;
use std::snapshot::Snapshot;

/// The four lists of packets of a channel's two ends, with the page words of each packet; and, for contracts alone, what each end did. `finish` alone makes it.
#[derive(Drop)]
pub struct Settled {
    guest_sent: Packets,
    guest_got: Packets,
    host_sent: Packets,
    host_got: Packets,
    // The ends that `finish` had: they take no memory.
    guest: Snapshot<GuestEnd>,
    host: Snapshot<HostEnd>,
}

impl Model for Settled {
    ghost use Rattle.ring_core.specs.Pages.{items_of};
    ghost use Rattle.ring_pair_laws.specs.Lists.{Lists};

    ghost Value = { Lists };

    ghost view = { λ s. record { guest_sent = s.guest_sent.list; guest_got = s.guest_got.list; host_sent = s.host_sent.list; host_got = s.host_got.list; guest_sent_items = items_of s.guest_sent.list s.guest_sent.lent; guest_got_items = items_of s.guest_got.list s.guest_got.lent; host_sent_items = items_of s.host_sent.list s.host_sent.lent; host_got_items = items_of s.host_got.list s.host_got.lent; guest_past = s.guest.value.state.past; host_past = s.host.value.state.past } };
}

impl Settled {
    /// The packets that the guest sent, in order.
    pub fn guest_sent(&self) -> &Packets
        ensures list { result.now.list ≡ self.now.guest_sent }
        ensures items { items_of result.now.list result.now.lent ≡ self.now.guest_sent_items }
    {
        &self.guest_sent
    }

    /// The packets that the guest got, in order.
    pub fn guest_got(&self) -> &Packets
        ensures list { result.now.list ≡ self.now.guest_got }
        ensures items { items_of result.now.list result.now.lent ≡ self.now.guest_got_items }
    {
        &self.guest_got
    }

    /// The packets that the host sent, in order.
    pub fn host_sent(&self) -> &Packets
        ensures list { result.now.list ≡ self.now.host_sent }
        ensures items { items_of result.now.list result.now.lent ≡ self.now.host_sent_items }
    {
        &self.host_sent
    }

    /// Gives the room that its lists have left back to the allocator, which has to give room for a copy of each list first.
    pub fn trim(&mut self) -> Result<(), AllocError>
        ensures { self.new ≡ self.old }
    {
        self.guest_sent.trim()?;
        self.guest_got.trim()?;
        self.host_sent.trim()?;
        self.host_got.trim()
    }

    /// The packets that the host got, in order.
    pub fn host_got(&self) -> &Packets
        ensures list { result.now.list ≡ self.now.host_got }
        ensures items { items_of result.now.list result.now.lent ≡ self.now.host_got_items }
    {
        &self.host_got
    }
}

/// Ends a channel, and takes no memory for it. The four lists are those that its ends kept, with the page words of each packet. Each end got the front of what
/// the other one sent, and all of it where it is drained; and so of the packets with their page words, but the last one where it has words to load. What the
/// two ends did is one run, and each took its signal at most as often as the other one raised it. It waits for nobody.
pub fn finish(g: GuestEnd, h: HostEnd) -> Settled
    requires one_channel { AreOfOneChannel g h }
    ensures guest { (result.guest_sent ≡ g.state.sent) × (result.guest_got ≡ g.state.got) }
    ensures host { (result.host_sent ≡ h.state.sent) × (result.host_got ≡ h.state.got) }
    ensures fronts { IsFront result.guest_got result.host_sent × IsFront result.host_got result.guest_sent }
    ensures guest_drained { g.state.machine.drained ≡ true → result.guest_got ≡ result.host_sent }
    ensures host_drained { h.state.machine.drained ≡ true → result.host_got ≡ result.guest_sent }
    ensures run { AreOfOneRun g.state.past h.state.past }
    ensures signals { SignalsTaken (told_in g.seat.seat.me.0) (told_in h.seat.seat.me.0) }
    ensures guest_items { (result.guest_sent_items ≡ g.state.pages.sent) × (result.guest_got_items ≡ g.state.pages.got) }
    ensures host_items { (result.host_sent_items ≡ h.state.pages.sent) × (result.host_got_items ≡ h.state.pages.got) }
    ensures item_fronts { (g.state.pages.count ≢ 0 → IsFront result.guest_got_items result.host_sent_items) × (h.state.pages.count ≢ 0 → IsFront result.host_got_items result.guest_sent_items) }
    ensures guest_pages { g.state.pages.count ≢ 0 → g.state.pages.due ≡ Clear → ItemsGot g.state.machine.drained result.guest_got result.guest_got_items result.host_sent result.host_sent_items }
    ensures host_pages { h.state.pages.count ≢ 0 → h.state.pages.due ≡ Clear → ItemsGot h.state.machine.drained result.host_got result.host_got_items result.guest_sent result.guest_sent_items }
    ensures guest_past { (result.guest_sent ≡ sent_of g.state.past) × (result.guest_got ≡ got_of g.state.past) }
    ensures host_past { (result.host_sent ≡ sent_of h.state.past) × (result.host_got ≡ got_of h.state.past) }
    ensures pasts { (result.guest_past ≡ g.state.past) × (result.host_past ≡ h.state.past) }
{
    let guest_end = Snapshot::of(&g);
    let host_end = Snapshot::of(&h);
    let (guest, guest_sent, guest_got) = g.into_parts();
    let (host, host_sent, host_got) = h.into_parts();
    settle(guest, host);
    Settled {
        guest_sent,
        guest_got,
        host_sent,
        host_got,
        guest: guest_end,
        host: host_end,
    }
}

// Puts the two views together, and looks at them once.
fn settle(guest: TableSeat, host: TableSeat)
    requires one_channel { guest.seat.table_id ≡ host.seat.table_id }
    requires guest { (state_in guest.seat.me.0).machine.side ≡ Guest }
    requires host { (state_in host.seat.me.0).machine.side ≡ Host }
    ensures ends { AreSettled (state_in guest.seat.me.0) (state_in host.seat.me.0) }
    ensures pages { PagesSettled (state_in guest.seat.me.0) (state_in host.seat.me.0) }
    ensures signals { SignalsTaken (told_in guest.seat.me.0) (told_in host.seat.me.0) }
{
    let TableSeat {
        board,
        seat: mut first,
        signal: _,
    } = guest;
    let TableSeat {
        board: other,
        seat: second,
        signal: _,
    } = host;
    board.shared.join_seat::<Ends>(&mut first, second);
    board.shared.load::<Settles>(&mut first, 0);
    drop(other);
    drop(board);
}
