//! The guest proposes versions, from its highest one down.
ghost use Rattle.std.specs.Prelude.{◌≡◌};
ghost use Rattle.contact.specs.Versions.{IsVersion};
ghost use Rattle.control_model.specs.Messages.{propose};
ghost use Rattle.control_model.specs.Channels.{version_below};
ghost use Rattle.control_model.specs.Guest.{IsFit, proposal, answered, on_response};

use crate::GuestControl;
use contact::Version;
use control_model::{Burst, GuestTurn, GuestWait, version_below};
use vmbus_msg::Msg;

impl GuestControl {
    // The guest proposes a version.
    pub(crate) fn propose(&self, version: Version) -> GuestTurn
        requires { IsVersion version.0 }
        ensures turn { result ≡ proposal self.now version }
        ensures fits { IsFit self.now result }
    {
        GuestTurn {
            awaits: GuestWait::Response(version),
            burst: Burst::One(Msg::InitiateContact {
                padding: 0,
                version: version.0,
                target_vcpu: 0,
                page: 0,
                monitor1: 0,
                monitor2: 0,
            }),
            ..self.idle()
        }
    }

    // VERSION_RESPONSE: the version is agreed on, or the next lower one is proposed.
    pub(crate) fn on_response(&self, supported: u8) -> GuestTurn
        ensures turn { result ≡ on_response self.now self.now.awaits supported }
        ensures fits { IsFit self.now result }
    {
        match self.awaits {
            GuestWait::Response(version) => self.answered(version, supported),
            _ => self.idle(),
        }
    }

    // 1 is yes and 0 is no. Nothing comes of another number, nor of a no to the oldest version.
    fn answered(&self, version: Version, supported: u8) -> GuestTurn
        requires { IsVersion version.0 }
        ensures turn { result ≡ answered self.now version supported }
        ensures fits { IsFit self.now result }
    {
        match supported {
            0 => match version_below(version) {
                Some(lower) => self.propose(lower),
                None => self.idle(),
            },
            1 => GuestTurn {
                awaits: GuestWait::Offers,
                version: Some(version),
                burst: Burst::One(Msg::RequestOffers { padding: 0 }),
                ..self.idle()
            },
            _ => self.idle(),
        }
    }
}
