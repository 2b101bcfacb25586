//! The shutdown service of a guest, as a machine.

ghost use Rattle.std.specs.Prelude.{◌≡◌};
ghost use Rattle.util_ic.specs.Machines.{down_start, down_reply, down_status as status_for};

use crate::{IcAnswer, IcAsk};
use hist_lock::Machine;

/// The shutdown service. It has one setup and one state (Linux 6.12, `drivers/hv/hv_util.c`, shutdown_onchannelcallback).
#[derive(Drop)]
pub struct DownMachine {
    state: (),
}

/// The status of a shutdown. Flags 0 and 1 mean power off and 2 and 3 restart. This guest refuses to hibernate, and what it
/// doesn't know (Linux 6.12, `drivers/hv/hv_util.c`, shutdown_onchannelcallback).
pub fn down_status(flags: u32) -> u32
    ensures { result ≡ status_for flags }
{
    if flags < 4 { 0 } else { 0x8000_4005 }
}

impl DownMachine {
    /// The service of a guest.
    pub fn make() -> DownMachine
        ensures { result ≡ down_start }
    {
        DownMachine { state: () }
    }
}

impl Machine for DownMachine {
    type Request = IcAsk;

    type Reply = IcAnswer;

    ghost first = { λ s. down_start };

    ghost after = { λ s q. s };

    ghost reply_to = { λ s q. down_reply q };

    ghost fits = { λ q r. r ≡ down_reply q };

    /// A request to power off or restart has status 0, and any other 0x80004005.
    fn apply(&mut self, request: &IcAsk) -> IcAnswer {
        match *request {
            IcAsk::Beat { .. } => IcAnswer {
                status: 0x8000_4005,
                seq: 0,
            },
            IcAsk::Down { flags, .. } => IcAnswer {
                status: down_status(flags),
                seq: 0,
            },
        }
    }

    fn copy(reply: &IcAnswer) -> IcAnswer {
        *reply
    }

    ghost use Rattle.std.specs.Prelude.{refl};

    ghost keeps_setup = { λ s q. refl };
}
