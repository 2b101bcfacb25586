//! A page list is sent, and its channel opened once the host knows it.
ghost use Rattle.std.specs.Prelude.{◌≡◌, ◌+◌, ◌^◌, ◌<◌, Some, IfOk};
ghost use Rattle.control_model.specs.Plan.{opening_in, IsOpening};
ghost use Rattle.control_model.specs.Channels.{by_relid, lived};
ghost use Rattle.control_model.specs.Guest.{IsFit, lists, dials_one, lists_next, opens, created_for, created_while, fills, filled, filled_for, on_created};

use crate::GuestControl;
use crate::turns::lived;
use chan_state::Event;
use contact::Part;
use control_model::{
    Buffer, Burst, Change, Channel, ControlFault, GuestTurn, GuestWait, Opening, buffer_list,
    connect, open_on,
};

impl GuestControl {
    // Goes on with the opening at a place, if there is one. Behind the last one channels are moved.
    pub(crate) fn list_next(&self, turn: GuestTurn, part: Option<Part>, place: usize) -> GuestTurn
        requires { IsFit self.now turn }
        ensures turn { result ≡ lists_next self.now part turn place (opening_in self.now.plan part place) }
        ensures fits { IsFit self.now result }
    {
        match self.plan.opening(part, place) {
            Some(o) => self.dial_or_list(turn, place, o),
            None => self.move_all(turn, part),
        }
    }

    // The page list of an opening is sent; but where its channel is that of a service, the guest asks for
    // it first.
    fn dial_or_list(&self, turn: GuestTurn, place: usize, o: Opening) -> GuestTurn
        requires turn { IsFit self.now turn }
        requires opening { IsOpening o }
        ensures turn { result ≡ dials_one turn place o o.dialed }
        ensures fits { IsFit self.now result }
    {
        match o.dialed {
            None => self.list(turn, place, o),
            Some(port) => GuestTurn {
                awaits: GuestWait::ServiceOffer(place),
                burst: Burst::One(connect(port)),
                ..turn
            },
        }
    }

    // The page list of an opening is sent.
    pub(crate) fn list(&self, turn: GuestTurn, place: usize, o: Opening) -> GuestTurn
        requires turn { IsFit self.now turn }
        requires opening { IsOpening o }
        ensures turn { result ≡ lists turn place o }
        ensures fits { IsFit self.now result }
    {
        GuestTurn {
            awaits: GuestWait::Created(place),
            burst: Burst::PageList(o),
            ..turn
        }
    }

    // GPADL_CREATED: the channel is opened, where it is of the page list that was sent; where it is of
    // that of a buffer, no channel goes on.
    pub(crate) fn on_created(
        &self,
        relid: u32,
        gpadl: u32,
        status: u32,
    ) -> Result<GuestTurn, ControlFault>
        ensures turn { result ≡ on_created self.now relid gpadl status (by_relid self.now.channels relid) }
        ensures fits { IfOk result (λ turn. IsFit self.now turn) }
    {
        let Some(channel) = self.channel(relid) else {
            return Err(ControlFault::Relid { value: relid });
        };
        match self.awaits {
            GuestWait::Created(place) => Ok(self.created(place, relid, gpadl, status, channel)),
            GuestWait::Listed(place, buffer) => {
                Ok(self.filled_for(place, buffer, relid, gpadl, status))
            }
            _ => Ok(self.idle()),
        }
    }

    // The same, while a page list waits for it.
    fn created(
        &self,
        place: usize,
        relid: u32,
        gpadl: u32,
        status: u32,
        channel: Channel,
    ) -> GuestTurn
        ensures turn { result ≡ created_for self.now place relid gpadl status channel (opening_in self.now.plan self.now.part place) }
        ensures fits { IsFit self.now result }
    {
        match self.plan.opening(self.part, place) {
            Some(o) if o.relid == relid && o.gpadl == gpadl && status == 0 => {
                self.open(place, o, channel)
            }
            _ => self.idle(),
        }
    }

    // The same, while the page list of a buffer waits for it.
    fn filled_for(
        &self,
        place: usize,
        buffer: Buffer,
        relid: u32,
        gpadl: u32,
        status: u32,
    ) -> GuestTurn
        ensures turn { result ≡ filled_for self.now place buffer relid gpadl status (opening_in self.now.plan self.now.part place) }
        ensures fits { IsFit self.now result }
    {
        match self.plan.opening(self.part, place) {
            Some(o) if o.relid == relid && buffer_list(&o, buffer) == gpadl && status == 0 => {
                self.filled(self.idle(), place, o, buffer)
            }
            _ => self.idle(),
        }
    }

    // The page list of the send buffer is sent behind that of the receive buffer, and behind both the
    // guest goes on.
    fn filled(&self, turn: GuestTurn, place: usize, o: Opening, buffer: Buffer) -> GuestTurn
        requires turn { IsFit self.now turn }
        requires opening { IsOpening o }
        requires small { place + 1 < 2 ^ 64 }
        ensures turn { result ≡ filled self.now turn place o buffer }
        ensures fits { IsFit self.now result }
    {
        match buffer {
            Buffer::Receive => self.fill(turn, place, o, Buffer::Send),
            Buffer::Send => self.open_next(turn, place, &o),
        }
    }

    // The page list of a buffer is sent.
    pub(crate) fn fill(
        &self,
        turn: GuestTurn,
        place: usize,
        o: Opening,
        buffer: Buffer,
    ) -> GuestTurn
        requires turn { IsFit self.now turn }
        requires opening { IsOpening o }
        ensures turn { result ≡ fills turn place o buffer }
        ensures fits { IsFit self.now result }
    {
        GuestTurn {
            awaits: GuestWait::Listed(place, buffer),
            burst: Burst::BufferList(o, buffer),
            ..turn
        }
    }

    // The guest wants the channel open.
    fn open(&self, place: usize, o: Opening, channel: Channel) -> GuestTurn
        requires { IsOpening o }
        ensures turn { result ≡ opens self.now place o (lived channel Event.WantOpen) }
        ensures fits { IsFit self.now result }
    {
        match lived(channel, Event::WantOpen) {
            Ok(now) => GuestTurn {
                awaits: GuestWait::Opened(place),
                wished: Change::Now {
                    relid: o.relid,
                    channel: Channel {
                        life: now.life,
                        gpadl: Some(o.gpadl),
                    },
                },
                burst: Burst::One(open_on(&o)),
                ..self.idle()
            },
            Err(_) => self.idle(),
        }
    }
}
