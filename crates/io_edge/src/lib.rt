//! Bytes in and bytes out, with the faults counted, and the gate that each script request passes.
#![tactic(auto)]

mod failed;
mod gate;
mod give;
mod mem_sink;
mod mem_source;
mod side;
mod sink;
mod source;
mod std_sink;
mod std_source;
mod sure_sink;
mod sure_source;
mod whole;

pub use failed::Failed;
pub use gate::{Gate, NoGate};
pub use mem_sink::MemSink;
pub use mem_source::MemSource;
pub use side::Side;
pub use sink::Sink;
pub use source::Source;
pub use std_sink::StdSink;
pub use std_source::StdSource;
pub use sure_sink::SureSink;
pub use sure_source::SureSource;
pub use whole::{ReadFault, read_all, write_all};
