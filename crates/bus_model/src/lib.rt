//! What a run of the bus is: what its channels carried, its devices' histories and its lines' outcomes; and laws on them.
#![tactic(auto)]

mod channel_run;
mod laws;

pub use channel_run::ChannelRun;
pub use device_kinds::DeviceHistory;
pub use laws::{
    arrives, carries_opened, completes_each, lists_tell, one_each, orders_run, rescinds,
    serves_each, serves_first, table, worked,
};
