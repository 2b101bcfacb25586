//! One end of a channel's rings over its machine: seats that make its word steps, drivers that are generic in their seat, an end that keeps no packet, and one that
//! keeps all.
#![tactic(auto)]

mod driver;
mod end;
mod guards;
mod keeping;
mod laws;
mod lean_end;
mod packets;
mod page_words;
mod parts;
mod room;
mod rows;
mod seat;
mod solo_mem;
mod taken;
mod told;
mod told_mem;
mod words;

pub use end::End;
pub use guards::{is_packet, may_begin, may_lend, may_send, may_take};
pub use laws::refuses_by_value;
pub use lean_end::LeanEnd;
pub use packets::Packets;
pub use ring_machine::{
    Armed, Bad, EndCore, EndMachine, EndState, Ending, Indices, Last, Mode, Op, Place, Ring,
    SendRefusal, Side, Signalled, Stage, TakeRefusal, Why, counts_bytes, incoming, last_stays,
    mark_index, outgoing, peer, place_index, raise_on_commit, raise_on_write, refuses_by_cause,
    signal_index, stays_inside, stores_by_call,
};
pub use room::Room;
pub use seat::Seatlike;
pub use solo_mem::SoloMem;
pub use taken::Taken;
pub use told::Told;
pub use told_mem::{Change, ToldMem, opening_words};
