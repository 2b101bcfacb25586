//! What a guest and its host agree on at first: the version, and what is offered.
#![tactic(auto)]

mod channel_offer;
mod class;
mod kind;
mod part;
mod service;
mod version;

pub use channel_offer::{OfferFault, Offered, offer, offers, read_offer};
pub use kind::{DeviceKind, Kind, offered_kind};
pub use part::Part;
pub use service::{port_in, service_id};
pub use version::{Version, agree, answers_modify, has_modify, host_accepts, next_version, tried};
