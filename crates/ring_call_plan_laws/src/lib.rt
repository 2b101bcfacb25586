//! Laws of ends that make plans: what is proved of the state of an end, and of a channel, holds of them.
#![tactic(auto)]

mod laws;

pub use laws::{
    plans_are_calls, plans_are_carried_out, plans_keep_the_channel, plans_refuse_by_cause,
    plans_sleep_by_cause, plans_stay_inside,
};
