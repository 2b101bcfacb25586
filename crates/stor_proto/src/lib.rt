//! Storage packets: a channel's start-up, and SCSI requests to a disk with their replies.
//!
//! Source: struct `vstor_packet` and struct `vmscsi_request` of Linux 6.12,
//! `drivers/scsi/storvsc_drv.c`. The answers of the host are this project's own.
#![tactic(auto)]

mod codec;
mod end;
mod fault;
mod field_name;
mod guest;
mod host;
mod opening;
mod operation;
mod srb;
mod stop;
mod vstor;

pub use codec::{decode_vstor, encode_vstor};
pub use end::SrbEnd;
pub use fault::VstorFault;
pub use field_name::FieldName;
pub use guest::{srb_ask, srb_done, srb_end};
pub use host::{srb_asks, srb_command, srb_reply, srb_request, srb_stop, srb_stopped};
pub use opening::{answer, start_up};
pub use operation::Operation;
pub use stop::SrbStop;
pub use vstor::Vstor;
