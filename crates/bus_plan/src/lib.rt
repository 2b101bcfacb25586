//! What a phase orders: what each channel that it opens is asked and where it stops, which devices it ends, and the outcome of each line.
#![tactic(auto)]

mod channel_outcomes;
mod ending;
mod endings;
mod opening;
mod outcomes;
mod phase_outcomes;
mod plan;
mod versions;

pub use channel_outcomes::ChannelOutcomes;
pub use ending::Ending;
pub use endings::mark_ended;
pub use opening::ChannelOrder;
pub use outcomes::line_results;
pub use phase_outcomes::Outcomes;
pub use plan::plan_part;
pub use versions::agreed;
