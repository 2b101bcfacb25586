//! The host offers channels.
ghost use Rattle.std.specs.Prelude.{◌≡◌, ◌+◌, ◌^◌, ◌<◌, length, IfOk, IsTrue};
ghost use Rattle.contact.specs.Classes.{IsOffer};
ghost use Rattle.control_model.specs.declared.change.Change.{Change};
ghost use Rattle.control_model.specs.Plan.{opening_in, is_of_sub, most_channels, IsOpening, HasPort};
ghost use Rattle.control_model.specs.Channels.{same_kind, is_kind};
ghost use Rattle.control_model.specs.Guest.{IsFit, idle, offered_channel, is_next_offer, is_sub_offer, device_offered, goes_behind, sub_offered, is_service, is_service_offer, service_offered, takes_offer, guest_hears, on_delivered, awaits_offers};

use crate::GuestControl;
use chan_state::ChanState;
use contact::{Kind, Offered, read_offer};
use control_model::{Change, Channel, ControlFault, GuestTurn, GuestWait, Opening};
use io_edge::Side;
use vmbus_msg::Msg;

impl GuestControl {
    // OFFERCHANNEL: a channel is offered.
    pub(crate) fn on_offer(&self, m: &Msg) -> Result<GuestTurn, ControlFault>
        requires { IsOffer m.now }
        ensures turn { result ≡ guest_hears self.now m.now }
        ensures fits { IfOk result (λ turn. IsFit self.now turn) }
    {
        match read_offer(m) {
            Ok(offer) => Ok(self.offered(offer)),
            Err(fault) => Err(ControlFault::Offer(fault)),
        }
    }

    // The next offer, of a device, of a sub-channel or of a service, adds a channel; nothing comes of
    // another one.
    fn offered(&self, offer: Offered) -> GuestTurn
        ensures turn { result ≡ takes_offer self.now self.now.awaits offer.kind offer.sub offer.relid }
        ensures port { HasPort offer.kind }
        ensures fits { IsFit self.now result }
    {
        match self.awaits {
            GuestWait::SubOffer(place) => self.sub_offered(offer, place),
            GuestWait::ServiceOffer(place) => self.service_offered(offer, place),
            _ => self.device_offered(offer),
        }
    }

    // The offer of a device.
    fn device_offered(&self, offer: Offered) -> GuestTurn
        ensures turn { result ≡ device_offered self.now offer.kind offer.sub offer.relid }
        ensures fits { IsFit self.now result }
    {
        if self.is_next_offer(offer) {
            self.adds_channel()
        } else {
            self.idle()
        }
    }

    // The offer of the sub-channel of the opening at a place, behind its device's first channel.
    fn sub_offered(&self, offer: Offered, place: usize) -> GuestTurn
        ensures turn { result ≡ sub_offered self.now place offer.kind offer.sub offer.relid (opening_in self.now.plan self.now.part place) }
        ensures fits { IsFit self.now result }
    {
        match self.plan.opening(self.part, place) {
            Some(o) if self.is_sub_offer(&o, offer) => {
                self.go_behind(self.adds_channel(), place, &o)
            }
            _ => self.idle(),
        }
    }

    // The offer of the service that was asked for: its page list is sent.
    fn service_offered(&self, offer: Offered, place: usize) -> GuestTurn
        ensures turn { result ≡ service_offered self.now place offer.kind offer.sub offer.relid (opening_in self.now.plan self.now.part place) }
        ensures fits { IsFit self.now result }
    {
        match self.plan.opening(self.part, place) {
            Some(o) if self.is_service_offer(&o, offer) => {
                self.list(self.adds_channel(), place, o)
            }
            _ => self.idle(),
        }
    }

    // One more channel was offered.
    fn adds_channel(&self) -> GuestTurn
        requires { length self.now.channels < most_channels }
        ensures turn { result ≡ record (idle self.now) { heard = Change.Offered offered_channel } }
        ensures fits { IsFit self.now result }
    {
        GuestTurn {
            heard: Change::Offered(Channel {
                life: ChanState::make(Side::Guest),
                gpadl: None,
            }),
            ..self.idle()
        }
    }

    // Goes on behind the offer of a sub-channel: with the offer of the next one, or, once all of them
    // came, with the page list of the first one.
    fn go_behind(&self, turn: GuestTurn, place: usize, o: &Opening) -> GuestTurn
        requires fits { IsFit self.now turn }
        requires small { place + 1 < 2 ^ 64 }
        ensures turn { result ≡ goes_behind self.now turn place o.now }
        ensures fits { IsFit self.now result }
    {
        if self.is_sub_at(place + 1) {
            return GuestTurn {
                awaits: GuestWait::SubOffer(place + 1),
                ..turn
            };
        }
        self.list_next(turn, self.part, (place + 1).saturating_sub(o.sub as usize))
    }

    // Whether the opening at a place is of a sub-channel.
    pub(crate) fn is_sub_at(&self, place: usize) -> bool
        ensures { result ≡ is_of_sub (opening_in self.now.plan self.now.part place) }
    {
        match self.plan.opening(self.part, place) {
            Some(o) => o.sub != 0,
            None => false,
        }
    }

    // The offer is of the sub-channel of an opening, with the next relid.
    fn is_sub_offer(&self, o: &Opening, offer: Offered) -> bool
        requires { IsOpening o.now }
        ensures next { result ≡ is_sub_offer self.now o.now offer.kind offer.sub offer.relid }
        ensures room { IsTrue result → length self.now.channels < most_channels }
    {
        offer.relid as usize == self.channels.len() + 1
            && offer.relid == o.relid
            && offer.sub == o.sub
            && same_kind(Kind::Disk, offer.kind)
    }

    // The offer is of the service whose channel is that of an opening, with the next relid.
    fn is_service_offer(&self, o: &Opening, offer: Offered) -> bool
        requires { IsOpening o.now }
        ensures next { result ≡ is_service_offer self.now o.now offer.kind offer.sub offer.relid }
        ensures room { IsTrue result → length self.now.channels < most_channels }
    {
        offer.relid as usize == self.channels.len() + 1
            && offer.relid == o.relid
            && offer.sub == 0
            && is_service(offer.kind, o.dialed)
    }

    // The next offer is of the next device's primary channel, with the next relid.
    fn is_next_offer(&self, offer: Offered) -> bool
        ensures next { result ≡ is_next_offer self.now offer.kind offer.sub offer.relid }
        ensures room { IsTrue result → length self.now.channels < most_channels }
    {
        let count = self.channels.len();
        let next = match self.plan.kinds().get(count) {
            Some(kind) => same_kind(offer.kind, *kind),
            None => false,
        };
        self.awaits_offers() && offer.relid as usize == count + 1 && offer.sub == 0 && next
    }

    // ALLOFFERS_DELIVERED, behind the last offer.
    pub(crate) fn on_delivered(&self) -> GuestTurn
        ensures turn { result ≡ on_delivered self.now }
        ensures fits { IsFit self.now result }
    {
        if self.awaits_offers() && self.channels.len() == self.plan.kinds().len() {
            GuestTurn {
                awaits: GuestWait::Nothing,
                ..self.idle()
            }
        } else {
            self.idle()
        }
    }

    // Whether offers are what it waits for.
    fn awaits_offers(&self) -> bool
        ensures { result ≡ awaits_offers self.now.awaits }
    {
        matches!(self.awaits, GuestWait::Offers)
    }
}

// Whether a kind is that of the service that was asked for.
fn is_service(kind: Kind, dialed: Option<u32>) -> bool
    ensures { result ≡ is_service kind dialed }
{
    match dialed {
        Some(port) => same_kind(Kind::Sock { port }, kind),
        None => false,
    }
}

// Whether two kinds are the same: they have one class id.
fn same_kind(a: Kind, b: Kind) -> bool
    ensures { result ≡ same_kind a b }
{
    a == b
}
