//! A channel and its two ends, as far as the lines of a trace go.
ghost use Rattle.std.specs.Prelude.{◌≡◌};

use crate::watched::Watched;
use ring_core::SoloMem;

/// The words of a channel, and its two ends.
#[derive(Drop)]
pub(crate) struct Checker {
    /// The words.
    pub(crate) mem: SoloMem,
    /// The guest's end.
    pub(crate) guest: Watched,
    /// The host's end.
    pub(crate) host: Watched,
    /// It is one channel.
    pub(crate) ghost guest_cells: { guest.core.machine.cells ≡ mem.cells },
    pub(crate) ghost host_cells: { host.core.machine.cells ≡ mem.cells },
    /// It has no data pages.
    pub(crate) ghost bare: { mem.pages ≡ 0 },
}
