//! A channel is closed, and its page list let go; and what comes after a channel that is done with.
ghost use Rattle.std.specs.Prelude.{◌≡◌, slice_get, Some, IfOk, IsTrue};
ghost use Rattle.control_model.specs.Plan.{opening_in, IsOpening};
ghost use Rattle.control_model.specs.Messages.{Fits};
ghost use Rattle.control_model.specs.declared.guest_wait.GuestWait.TheVariants.{Unlisted};
ghost use Rattle.control_model.specs.Channels.{by_relid, lived, place_of_list};
ghost use Rattle.control_model.specs.Guest.{IsFit, and_empty, and_close, empties, closes, closes_one, closes_next, emptied, torn_rings, on_torndown, torn_at, torn_for, ended_for, torn_while};

use crate::GuestControl;
use crate::turns::lived;
use chan_state::Event;
use contact::Part;
use control_model::{
    Buffer, Burst, Change, ControlFault, GuestTurn, GuestWait, Opening, buffer_list, teardown,
    teardown_buffer,
};
use gpadl::GpadlFault;
use vmbus_msg::Msg;

impl GuestControl {
    // Goes on with the opening at a place, if there is one: its channel is closed, once the page lists of
    // its buffers are torn down; or it waits for the host to rescind it.
    pub(crate) fn close_next(&self, turn: GuestTurn, part: Option<Part>, place: usize) -> GuestTurn
        requires { IsFit self.now turn }
        ensures turn { result ≡ closes_next turn self.now.channels place (opening_in self.now.plan part place) }
        ensures fits { IsFit self.now result }
    {
        match self.plan.opening(part, place) {
            Some(o) if o.rescinded => GuestTurn {
                awaits: GuestWait::Rescinded(place),
                ..turn
            },
            Some(o) if o.buffers => self.empty(turn, place, &o, Buffer::Send),
            Some(o) => self.close_rings(turn, place, &o),
            None => GuestTurn {
                awaits: GuestWait::Nothing,
                ..turn
            },
        }
    }

    // The channel of an opening is closed.
    fn close_rings(&self, turn: GuestTurn, place: usize, o: &Opening) -> GuestTurn
        requires { IsFit self.now turn }
        ensures turn { result ≡ closes_one turn self.now.channels place o.now }
        ensures fits { IsFit self.now result }
    {
        self.close(
            GuestTurn {
                awaits: GuestWait::Torn(place),
                ..turn
            },
            o,
        )
    }

    // The page list of a buffer is torn down.
    fn empty(&self, turn: GuestTurn, place: usize, o: &Opening, buffer: Buffer) -> GuestTurn
        requires turn { IsFit self.now turn }
        requires opening { IsOpening o.now }
        ensures turn { result ≡ empties turn place o.now buffer }
        ensures fits { IsFit self.now result }
    {
        GuestTurn {
            awaits: GuestWait::Unlisted(place, buffer),
            burst: and_empty(&turn.burst, o, buffer),
            ..turn
        }
    }

    // The guest wants the channel closed. Nothing is sent where its life has no place for that.
    fn close(&self, turn: GuestTurn, o: &Opening) -> GuestTurn
        requires { IsFit self.now turn }
        ensures turn { result ≡ closes turn o.now (by_relid self.now.channels o.now.relid) }
        ensures fits { IsFit self.now result }
    {
        let Some(channel) = self.channel(o.relid) else {
            return turn;
        };
        match lived(channel, Event::WantClose) {
            Ok(channel) => GuestTurn {
                wished: Change::Now {
                    relid: o.relid,
                    channel,
                },
                burst: and_close(&turn.burst, o),
                ..turn
            },
            Err(_) => turn,
        }
    }

    // GPADL_TORNDOWN: where it is of the buffer whose page list is being torn down, no channel goes on.
    pub(crate) fn on_torndown(&self, gpadl: u32) -> Result<GuestTurn, ControlFault>
        ensures turn { result ≡ on_torndown self.now self.now.awaits gpadl }
        ensures fits { IfOk result (λ turn. IsFit self.now turn) }
    {
        match self.awaits {
            GuestWait::Unlisted(place, buffer) => self.unlisted(place, buffer, gpadl),
            _ => self.torn_rings(gpadl),
        }
    }

    // The same, while the page list of a buffer waits for it.
    fn unlisted(&self, place: usize, buffer: Buffer, gpadl: u32) -> Result<GuestTurn, ControlFault>
        ensures turn { result ≡ on_torndown self.now (Unlisted place buffer) gpadl }
        ensures fits { IfOk result (λ turn. IsFit self.now turn) }
    {
        match self.plan.opening(self.part, place) {
            Some(o) if buffer_list(&o, buffer) == gpadl => Ok(self.emptied(place, &o, buffer)),
            _ => self.torn_rings(gpadl),
        }
    }

    // The page list of the receive buffer is torn down behind that of the send buffer, and behind both
    // the channel is closed.
    fn emptied(&self, place: usize, o: &Opening, buffer: Buffer) -> GuestTurn
        requires { IsOpening o.now }
        ensures turn { result ≡ emptied self.now place o.now buffer }
        ensures fits { IsFit self.now result }
    {
        match buffer {
            Buffer::Receive => self.close_rings(self.idle(), place, o),
            Buffer::Send => self.empty(self.idle(), place, o, Buffer::Receive),
        }
    }

    // GPADL_TORNDOWN: where it is of the channel that was closed last, the guest goes on with the next
    // opening.
    fn torn_rings(&self, gpadl: u32) -> Result<GuestTurn, ControlFault>
        ensures turn { result ≡ torn_rings self.now gpadl (place_of_list self.now.channels gpadl) }
        ensures fits { IfOk result (λ turn. IsFit self.now turn) }
    {
        let Some(place) = self.place_of_list(gpadl) else {
            return Err(ControlFault::Gpadl(GpadlFault::Handle { id: gpadl }));
        };
        self.torn_at(gpadl, place)
    }

    // The same, with the place of its channel.
    fn torn_at(&self, gpadl: u32, place: usize) -> Result<GuestTurn, ControlFault>
        ensures turn { result ≡ torn_at self.now gpadl place (slice_get self.now.channels place) }
        ensures fits { IfOk result (λ turn. IsFit self.now turn) }
    {
        let Some(channel) = self.channels.get(place).copied() else {
            return Err(ControlFault::Gpadl(GpadlFault::Handle { id: gpadl }));
        };
        let relid = place as u32 + 1;
        let channel = lived(channel, Event::TorndownSeen)?;
        let turn = GuestTurn {
            heard: Change::Now { relid, channel },
            ..self.idle()
        };
        match self.awaits {
            GuestWait::Torn(place) => Ok(self.torn(turn, place, relid)),
            _ => Ok(turn),
        }
    }

    // The same, while a channel waits for it: a sub-channel waits for the host to rescind it then.
    fn torn(&self, turn: GuestTurn, place: usize, relid: u32) -> GuestTurn
        requires { IsFit self.now turn }
        ensures turn { result ≡ torn_for self.now turn place relid (opening_in self.now.plan self.now.part place) }
        ensures fits { IsFit self.now result }
    {
        match self.plan.opening(self.part, place) {
            Some(o) if o.relid == relid && o.sub != 0 => GuestTurn {
                awaits: GuestWait::Rescinded(place),
                ..turn
            },
            _ => self.ended(turn, place, relid),
        }
    }

    // The channel of the opening at a place is done with, where it is this one, and the guest goes on
    // with the next opening.
    pub(crate) fn ended(&self, turn: GuestTurn, place: usize, relid: u32) -> GuestTurn
        requires { IsFit self.now turn }
        ensures turn { result ≡ ended_for self.now turn place relid (opening_in self.now.plan self.now.part place) }
        ensures fits { IsFit self.now result }
    {
        match self.plan.opening(self.part, place) {
            Some(o) if o.relid == relid => self.close_next(turn, self.part, place + 1),
            _ => turn,
        }
    }

    // The place of the channel that set up the page list with this handle. The channel that is being
    // closed is looked at first, since all others are as many as were ever offered.
    fn place_of_list(&self, gpadl: u32) -> Option<usize>
        ensures { result ≡ place_of_list self.now.channels gpadl }
    {
        match self.place_torn() {
            Some(place) if self.has_alone(place, gpadl) => Some(place),
            _ => self.channels.iter().position(|c| c.gpadl == Some(gpadl)),
        }
    }

    // The place of the channel that is being closed, if one is.
    fn place_torn(&self) -> Option<usize> {
        let GuestWait::Torn(place) = self.awaits else {
            return None;
        };
        let o = self.plan.opening(self.part, place)?;
        Some((o.relid as usize).saturating_sub(1))
    }

    // Whether the channel at a place set up the page list with this handle, and no other one did, since
    // handles rose.
    fn has_alone(&self, place: usize, gpadl: u32) -> bool
        ensures { IsTrue result → place_of_list self.now.channels gpadl ≡ Some place }
    {
        match self.channels.get(place) {
            Some(channel) => self.rising.is_some() && channel.gpadl == Some(gpadl),
            None => false,
        }
    }
}

// GPADL_TEARDOWN, for the page list of a buffer, behind the one message, if any, that is sent before it.
fn and_empty(before: &Burst, o: &Opening, buffer: Buffer) -> Burst
    requires { IsOpening o.now }
    ensures burst { result ≡ and_empty before.now o.now buffer }
    ensures fits { Fits result }
{
    let torn = teardown_buffer(o, buffer);
    match before {
        Burst::One(m) => Burst::Two(*m, torn),
        _ => Burst::One(torn),
    }
}

// CLOSECHANNEL and GPADL_TEARDOWN, behind the one message, if any, that is sent before them.
fn and_close(before: &Burst, o: &Opening) -> Burst
    ensures { result ≡ and_close before.now o.now }
{
    let close = Msg::CloseChannel {
        padding: 0,
        relid: o.relid,
    };
    match before {
        Burst::One(m) => Burst::Three(*m, close, teardown(o)),
        _ => Burst::Two(close, teardown(o)),
    }
}
