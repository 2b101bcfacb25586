//! What a guest does at the start of a part, and about each message.
ghost use Rattle.std.specs.Prelude.{◌≡◌, IfOk};
ghost use Rattle.contact.specs.declared.part.Part.{Part};
ghost use Rattle.control_model.specs.Messages.{propose, farewell};
ghost use Rattle.control_model.specs.Channels.{by_relid, lived};
ghost use Rattle.control_model.specs.Guest.{IsFit, idle, guest_begins, guest_hears, on_delivered, on_unloaded, can_unload};

use crate::GuestControl;
use chan_state::Event;
use contact::{Part, Version};
use control_model::{Burst, Change, Channel, ControlFault, GuestTurn, GuestWait, type_of};
use vmbus_msg::Msg;

// The version from which on a guest says farewell, 3.0.
const UNLOADS: u32 = 0x0003_0000;

impl GuestControl {
    // What the guest sends unasked at the start of a part.
    pub(crate) fn begins(&self, part: Part) -> GuestTurn
        ensures turn { result ≡ guest_begins self.now part }
        ensures fits { IsFit self.now result }
    {
        match part {
            Part::Contact => self.propose(self.plan.guest()),
            Part::PhaseStart(_) => self.list_next(self.idle(), Some(part), 0),
            Part::PhaseEnd(_) => self.close_next(self.idle(), Some(part), 0),
            Part::Unload => self.unload(),
        }
    }

    // The guest's table: what comes of each message, or why it is refused.
    pub(crate) fn hears(&self, m: &Msg) -> Result<GuestTurn, ControlFault>
        ensures turn { result ≡ guest_hears self.now m.now }
        ensures fits { IfOk result (λ turn. IsFit self.now turn) }
    {
        match m {
            Msg::OfferChannel { .. } => self.on_offer(m),
            Msg::RescindChannelOffer { relid, .. } => self.on_rescind(*relid),
            Msg::AllOffersDelivered { .. } => Ok(self.on_delivered()),
            Msg::OpenChannelResult { relid, status, .. } => self.on_result(*relid, *status),
            Msg::ModifyChannelResponse { relid, .. } => self.on_modified(*relid),
            Msg::GpadlCreated {
                relid,
                gpadl,
                status,
                ..
            } => self.on_created(*relid, *gpadl, *status),
            Msg::GpadlTorndown { gpadl, .. } => self.on_torndown(*gpadl),
            Msg::VersionResponse { supported, .. } => Ok(self.on_response(*supported)),
            Msg::UnloadResponse { .. } => Ok(self.on_unloaded()),
            _ => Err(ControlFault::Unasked { kind: type_of(m) }),
        }
    }

    // Nothing comes of it.
    pub(crate) fn idle(&self) -> GuestTurn
        ensures turn { result ≡ idle self.now }
        ensures fits { IsFit self.now result }
    {
        GuestTurn {
            awaits: self.awaits,
            version: self.version,
            heard: Change::Same,
            wished: Change::Same,
            burst: Burst::Empty,
        }
    }

    // The channel with this relid.
    pub(crate) fn channel(&self, relid: u32) -> Option<Channel>
        ensures { result ≡ by_relid self.now.channels relid }
    {
        by_relid(&self.channels, relid)
    }

    // The farewell, from 3.0 on.
    fn unload(&self) -> GuestTurn
        ensures turn { result ≡ guest_begins self.now Part.Unload }
        ensures fits { IsFit self.now result }
    {
        let unloads = match self.version {
            Some(v) => v.0 >= UNLOADS,
            None => false,
        };
        if unloads {
            GuestTurn {
                awaits: GuestWait::Unloaded,
                burst: Burst::One(Msg::Unload { padding: 0 }),
                ..self.idle()
            }
        } else {
            GuestTurn {
                awaits: GuestWait::Nothing,
                ..self.idle()
            }
        }
    }

    // UNLOAD_RESPONSE.
    fn on_unloaded(&self) -> GuestTurn
        ensures turn { result ≡ on_unloaded self.now self.now.awaits }
        ensures fits { IsFit self.now result }
    {
        match self.awaits {
            GuestWait::Unloaded => GuestTurn {
                awaits: GuestWait::Nothing,
                ..self.idle()
            },
            _ => self.idle(),
        }
    }
}

// The channel with this relid.
pub(crate) fn by_relid(channels: &[Channel], relid: u32) -> Option<Channel>
    ensures { result ≡ by_relid channels.now relid }
{
    if relid == 0 {
        return None;
    }
    channels.get(relid as usize - 1).copied()
}

// A channel after an event, or the refusal where the table of its life has no row.
pub(crate) fn lived(channel: Channel, event: Event) -> Result<Channel, ControlFault>
    ensures { result ≡ lived channel event }
{
    let mut life = channel.life;
    match life.event(event) {
        Ok(_) => Ok(Channel {
            life,
            gpadl: channel.gpadl,
        }),
        Err(fault) => Err(ControlFault::State(fault)),
    }
}
