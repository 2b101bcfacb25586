//! What one end of a channel has to do with its data pages, for callers that move the words themselves and keep everything in memory of their own: each call
//! tests its own conditions, and says which words of a page the caller then stores or loads.
#![tactic(auto)]

mod answer;
mod end;
mod ids;
pub mod laws;
mod packet;
mod run;
mod send;
mod slot;
mod take;

pub use answer::PageAnswer;
pub use end::{PageEnd, PageState, page_drop, page_make, page_ready};
pub use ids::IdSlot;
pub use run::{PageRun, load_done, load_plan, store_done, store_plan};
pub use send::{page_send_done, page_send_plan};
pub use slot::{PageOwner, PageSlot};
pub use take::{page_take_done, page_take_plan};
