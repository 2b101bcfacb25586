//! One end of a channel's rings as a pure machine: it names its next word step, and is fed what the step gave.
#![tactic(auto)]

mod end_core;
mod fed;
mod last;
mod laws;
mod machine;
mod next;
mod page_core;
mod place;
mod ring;
mod state;

pub use end_core::EndCore;
pub use last::{Armed, Bad, Indices, Last, Mode, SendRefusal, Signalled, TakeRefusal, Why};
pub use laws::{counts_bytes, last_stays, refuses_by_cause, stays_inside, stores_by_call};
pub use machine::{EndMachine, Ending, Stage};
pub use page_core::PageCore;
pub use page_kept::{Due, PageCall};
pub use place::{Op, Place, Ring, Side};
pub use ring::{
    incoming, mark_index, outgoing, peer, place_index, raise_on_commit, raise_on_write,
    signal_index,
};
pub use state::EndState;
