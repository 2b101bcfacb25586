//! The parts of a guest's stay on the bus.

/// Which messages are being exchanged beside the devices' own.
#[derive(Clone, Copy, Debug, PartialEq, Eq)]
pub enum Part {
    /// First contact and the offers.
    Contact,
    /// The start of the phase with this number, from 0 on: channels are opened.
    PhaseStart(u32),
    /// The end of the phase with this number: channels are closed.
    PhaseEnd(u32),
    /// The farewell.
    Unload,
}
