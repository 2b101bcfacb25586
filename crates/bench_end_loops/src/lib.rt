//! What a measurement asks of an end of a channel, and the loops that time it on one thread.
#![tactic(auto)]

mod bad_seat;
mod calls;
mod clock;
mod packet;
mod port;
mod turns;
mod wanted;

pub use bad_seat::BadSeat;
pub use calls::{Calls, call_times};
pub use clock::a_call;
pub use packet::{ANSWER, words};
pub use port::{Port, Sent, Took};
pub use turns::{across, turn_time};
pub use wanted::{Part, Waiting, Wanted};
