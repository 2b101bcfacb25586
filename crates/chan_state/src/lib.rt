//! The life of a channel, from its offer to its release, as each side sees it.
#![tactic(auto)]

mod action;
mod chan_state;
mod event;
mod fault;
mod state;
mod stop;
mod table;

pub use action::Action;
pub use chan_state::ChanState;
pub use event::Event;
pub use fault::StateFault;
pub use state::State;
pub use stop::Stop;
