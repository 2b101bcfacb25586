//! What a call of the program came to.
ghost use Rattle.std.specs.Prelude.{◌≡◌, [], None};

use bus_model::{ChannelRun, DeviceHistory};
use bus_script::ScriptFault;
use guest_end::GuestControl;
use host_end::HostControl;
use std::alloc::Global;

/// The controls of a guest and of its host, once both are done.
#[derive(Drop)]
pub struct Controls {
    pub guest: GuestControl,
    pub host: HostControl,
}

/// The status of a call, the fault of its input, and what ran.
///
/// | status | comes |
/// |---|---|
/// | 0 | the whole output was written, after the input was read to its end |
/// | 1 | exactly where the words are no command |
/// | 2 | exactly where the input is refused; `fault` has its first wrong line and the reason |
/// | 3 | the source failed |
/// | 4 | the sink failed; a front of the output was written |
/// | 5 | want of memory |
#[derive(Drop)]
pub struct Outcome {
    pub status: u8,
    pub fault: Option<ScriptFault>,
    /// The controls of both ends, where a script ran.
    pub controls: Option<Controls>,
    /// What each channel carried, in order of phase and then of relid.
    pub settled: Vec<ChannelRun>,
    /// What each device served, in order of offer.
    pub histories: Vec<DeviceHistory>,
}

/// An outcome in which nothing ran.
pub(crate) fn stopped(alloc: Global, status: u8, fault: Option<ScriptFault>) -> Outcome
    ensures status { result.status ≡ status }
    ensures fault { result.fault ≡ fault }
    ensures controls { result.controls ≡ None }
    ensures settled { result.settled.items ≡ [] }
    ensures histories { result.histories.items ≡ [] }
{
    Outcome {
        status,
        fault,
        controls: None,
        settled: Vec::new(alloc),
        histories: Vec::new(alloc),
    }
}
