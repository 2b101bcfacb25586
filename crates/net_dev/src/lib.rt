//! A synthetic network device: NVSP messages, and a station that answers Remote NDIS.
//!
//! Source: `drivers/net/hyperv/hyperv_net.h` of Linux 6.12 (struct `nvsp_message`), and for the objects of a query
//! the Remote NDIS specification and `include/linux/rndis.h`. `specs/Nvsp.antt` says which bytes an NVSP message
//! has, `specs/Station.antt` what the station answers. Nothing here takes memory.
#![tactic(auto)]

mod codec;
mod fault;
mod laws;
mod nvsp;
mod objects;
mod reply;
mod station;
mod tables;

pub use codec::{decode_nvsp, encode_nvsp};
pub use fault::NvspFault;
pub use laws::encode_and_decode_nvsp;
pub use nvsp::Nvsp;
pub use reply::NetReply;
pub use station::Station;
