//! A stream of bytes each way between the two ends of a channel: a socket of a virtual machine.
#![tactic(auto)]

mod calls;
mod finishing;
mod got;
pub mod laws;
mod packet;
mod sock_end;
mod sock_fault;

pub use finishing::finish;
pub use got::Got;
pub use sock_end::SockEnd;
pub use sock_fault::SockFault;
