//! The control messages of a VMBus connection: what each holds, and its bytes.
//!
//! Source: `include/linux/hyperv.h` of Linux 6.12, `enum vmbus_channel_message_type` and the structs
//! `vmbus_channel_*`. `specs/Grammar.antt` has the bytes of each message, `specs/Faults.antt` says
//! which bytes are none and why.
#![tactic(auto)]

mod fault;
mod field_name;
mod frames;
mod gpadl_body;
mod gpadl_header;
mod laws;
mod msg;
mod piece;
mod read;
mod write;

pub use fault::MsgFault;
pub use field_name::FieldName;
pub use frames::Frames;
pub use gpadl_body::GpadlBody;
pub use gpadl_header::GpadlHeader;
pub use laws::{decode_and_encode, encode_and_decode};
pub use msg::Msg;
pub use read::decode;
pub use write::encode;
