//! What a guest and its host agree on before a channel's rings are used, for callers in C: versions, offers, and page lists. examples/c/vmbus.h declares the calls.
#![tactic(auto)]

mod offers;
mod page_cut;
mod page_list;
mod versions;
