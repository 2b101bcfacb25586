//! Remote NDIS: the messages of a network device, and their bytes.
//!
//! Source: the Remote NDIS specification, section 2.2; of Linux 6.12 the numbers in `include/linux/rndis.h` and
//! struct `rndis_message` in `drivers/net/hyperv/hyperv_net.h`. `specs/Grammar.antt` says which bytes a message
//! has, `specs/Faults.antt` which bytes are none and why. Nothing here takes memory.
#![tactic(auto)]

mod fault;
mod field_name;
mod laws;
mod message_type;
mod read;
mod rndis;
mod small;
mod tables;
mod write;

pub use fault::RndisFault;
pub use field_name::FieldName;
pub use laws::encode_and_decode;
pub use read::decode;
pub use rndis::Rndis;
pub use small::Small;
pub use write::encode;
