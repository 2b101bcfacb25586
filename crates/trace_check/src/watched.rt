//! One end of a trace, as far as its lines go.
ghost use Rattle.std.specs.Prelude.{◌≡◌, ◌≤◌};
ghost use Rattle.ring_machine.specs.PageCalls.{core_pages};

use ring_core::EndCore;
use trace_model::Words;

/// One end of a trace: its machine, the packet that it sends, and how many steps it made and packets it sent and got.
#[derive(Drop)]
pub(crate) struct Watched {
    /// The end as a machine.
    pub(crate) core: EndCore,
    /// The packet that it sends, and none where no call is under way.
    pub(crate) packet: Words,
    /// Its steps.
    pub(crate) steps: u32,
    /// The packets that it sent.
    pub(crate) sent: u32,
    /// The packets that it got.
    pub(crate) got: u32,
    /// Its channel has no data pages.
    pub(crate) ghost bare: { core.pages ≡ core_pages 0 },
    /// A packet is sent by a step.
    pub(crate) ghost few_sent: { sent ≤ steps },
    /// And it is got by a step.
    pub(crate) ghost few_got: { got ≤ steps },
}
