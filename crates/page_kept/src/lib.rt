//! What an end keeps of the data pages that packets lend: which it has, lends or holds, its copy of their words, and what it has still to load.
#![tactic(auto)]

mod due;
mod item;
mod kept;
pub mod laws;
mod owner;
mod page_call;

pub use due::Due;
pub use item::Item;
pub use kept::Kept;
pub use owner::Owner;
pub use page_call::PageCall;
