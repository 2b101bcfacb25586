//! One end of a channel as a worker uses it: the port over the end, the buffer in which a packet is written, the room that is reserved, and how a worker's
//! turn goes and ends.
#![tactic(auto)]

mod carry;
mod ended;
mod found;
pub mod laws;
mod packet_buffer;
mod port;
mod reads;
mod room;

pub use ended::{Ended, Turn};
pub use found::{Found, Tried};
pub use packet_buffer::PacketBuffer;
pub use port::{ArmResult, Port};
pub use reads::{id_read, is_ack_read, is_answer_read, is_message_read, is_waiting_read};
pub use room::room_of;
