//! The heartbeat service of a guest, as a machine.

ghost use Rattle.std.specs.Prelude.{◌≡◌};
ghost use Rattle.util_ic.specs.Machines.{beat_start, beat_reply};

use crate::{IcAnswer, IcAsk};
use hist_lock::Machine;

/// The heartbeat service. It has one setup and one state (Linux 6.12, `drivers/hv/hv_util.c`, heartbeat_onchannelcallback).
#[derive(Drop)]
pub struct BeatMachine {
    state: (),
}

impl BeatMachine {
    /// The service of a guest.
    pub fn make() -> BeatMachine
        ensures { result ≡ beat_start }
    {
        BeatMachine { state: () }
    }
}

impl Machine for BeatMachine {
    type Request = IcAsk;

    type Reply = IcAnswer;

    ghost first = { λ s. beat_start };

    ghost after = { λ s q. s };

    ghost reply_to = { λ s q. beat_reply q };

    ghost fits = { λ q r. r ≡ beat_reply q };

    /// A heartbeat's sequence number comes back one greater, wrapping at 2^64. Any other request has status 0x80004005.
    fn apply(&mut self, request: &IcAsk) -> IcAnswer {
        match *request {
            IcAsk::Beat { seq } => IcAnswer {
                status: 0,
                seq: seq.wrapping_add(1),
            },
            IcAsk::Down { .. } => IcAnswer {
                status: 0x8000_4005,
                seq: 0,
            },
        }
    }

    fn copy(reply: &IcAnswer) -> IcAnswer {
        *reply
    }

    ghost use Rattle.std.specs.Prelude.{refl};

    ghost keeps_setup = { λ s q. refl };
}
