//! The host takes an offer back.
ghost use Rattle.std.specs.Prelude.{◌≡◌, IfOk};
ghost use Rattle.control_model.specs.Channels.{by_relid, lived};
ghost use Rattle.control_model.specs.Guest.{IsFit, on_rescind, releases, rescinded_while};

use crate::GuestControl;
use crate::turns::lived;
use chan_state::Event;
use control_model::{Burst, Change, Channel, ControlFault, GuestTurn, GuestWait, release};

impl GuestControl {
    // RESCIND_CHANNELOFFER: the guest gives the channel back. Where it waited for that, it goes on with
    // the next opening; no answer to a move is waited for any more.
    pub(crate) fn on_rescind(&self, relid: u32) -> Result<GuestTurn, ControlFault>
        ensures turn { result ≡ on_rescind self.now relid (by_relid self.now.channels relid) }
        ensures fits { IfOk result (λ turn. IsFit self.now turn) }
    {
        let Some(channel) = self.channel(relid) else {
            return Err(ControlFault::Relid { value: relid });
        };
        let seen = lived(channel, Event::RescindSeen)?;
        let turn = self.released(relid, seen);
        match self.awaits {
            GuestWait::Rescinded(place) => Ok(self.ended(turn, place, relid)),
            GuestWait::Modified(_) => Ok(self.wait_on(turn)),
            _ => Ok(turn),
        }
    }

    // The channel is given back, at once.
    fn released(&self, relid: u32, seen: Channel) -> GuestTurn
        ensures turn { result ≡ releases self.now relid seen (lived seen Event.WantRelease) }
        ensures fits { IsFit self.now result }
    {
        match lived(seen, Event::WantRelease) {
            Ok(channel) => GuestTurn {
                heard: Change::Now { relid, channel },
                burst: Burst::One(release(relid)),
                ..self.idle()
            },
            Err(_) => GuestTurn {
                heard: Change::Now {
                    relid,
                    channel: seen,
                },
                ..self.idle()
            },
        }
    }
}
