//! A channel is open.
ghost use Rattle.std.specs.Prelude.{◌≡◌, ◌+◌, ◌^◌, ◌<◌, IfOk};
ghost use Rattle.control_model.specs.Plan.{opening_in, IsOpening};
ghost use Rattle.control_model.specs.Channels.{by_relid};
ghost use Rattle.control_model.specs.Guest.{IsFit, on_result, opens_next, opens_with, opened_for, opened_while};

use crate::GuestControl;
use crate::turns::lived;
use chan_state::Event;
use control_model::{Buffer, Change, ControlFault, GuestTurn, GuestWait, Opening};

impl GuestControl {
    // OPENCHANNEL_RESULT: where it is of the channel that was opened last, and says that it is open,
    // the guest goes on.
    pub(crate) fn on_result(&self, relid: u32, status: u32) -> Result<GuestTurn, ControlFault>
        ensures turn { result ≡ on_result self.now relid status (by_relid self.now.channels relid) }
        ensures fits { IfOk result (λ turn. IsFit self.now turn) }
    {
        let Some(channel) = self.channel(relid) else {
            return Err(ControlFault::Relid { value: relid });
        };
        let channel = lived(channel, Event::ResultSeen { status })?;
        let turn = GuestTurn {
            heard: Change::Now { relid, channel },
            ..self.idle()
        };
        match self.awaits {
            GuestWait::Opened(place) => Ok(self.opened(turn, place, relid, status)),
            _ => Ok(turn),
        }
    }

    // The same, while an opening waits for it.
    fn opened(&self, turn: GuestTurn, place: usize, relid: u32, status: u32) -> GuestTurn
        requires { IsFit self.now turn }
        ensures turn { result ≡ opened_for self.now turn place relid status (opening_in self.now.plan self.now.part place) }
        ensures fits { IsFit self.now result }
    {
        match self.plan.opening(self.part, place) {
            Some(o) if o.relid == relid && status == 0 => self.open_with(turn, place, &o),
            _ => turn,
        }
    }

    // A channel is open: the page lists of its buffers are sent, where it has some.
    fn open_with(&self, turn: GuestTurn, place: usize, o: &Opening) -> GuestTurn
        requires fits { IsFit self.now turn }
        requires opening { IsOpening o.now }
        requires small { place + 1 < 2 ^ 64 }
        ensures turn { result ≡ opens_with self.now turn place o.now o.now.buffers }
        ensures fits { IsFit self.now result }
    {
        if o.buffers {
            return self.fill(turn, place, *o, Buffer::Receive);
        }
        self.open_next(turn, place, o)
    }

    // Goes on behind a channel that is open: with the offers of its device's sub-channels, where it is
    // the first channel and its device has some, and with the next opening otherwise.
    pub(crate) fn open_next(&self, turn: GuestTurn, place: usize, o: &Opening) -> GuestTurn
        requires fits { IsFit self.now turn }
        requires small { place + 1 < 2 ^ 64 }
        ensures turn { result ≡ opens_next self.now turn place o.now (opening_in self.now.plan self.now.part (place + 1)) }
        ensures fits { IsFit self.now result }
    {
        if o.sub == 0 && self.is_sub_at(place + 1) {
            return GuestTurn {
                awaits: GuestWait::SubOffer(place + 1),
                ..turn
            };
        }
        self.list_next(turn, self.part, place + 1)
    }
}
