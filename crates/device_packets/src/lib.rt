//! The packets of a device's channel: their types and bytes, and how their page words are read.
#![tactic(auto)]

mod packets;

pub use packets::{
    COMPLETION, GPA_DIRECT, INBAND, MOST_BYTES, TRANSFER, content, is_completion, is_inband,
    is_of_type, is_type, payload, put_words,
};
