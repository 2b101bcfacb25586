//! The objects that a query may ask for, as a table.
ghost use Rattle.std.specs.Prelude.{◌≡◌, ◌<◌, length};
ghost use Rattle.std.specs.List.{AllByRecursion};
ghost use Rattle.net_dev.specs.Objects.{answer_for, object_bytes};

use rndis_msg::Small;
use wire_table::put_at;

/// What a query of an object gives.
#[derive(Clone, Copy, Debug, PartialEq, Eq)]
pub enum Answer {
    /// The numbers of all objects, in order.
    Objects,
    /// Always this number.
    Number(u32),
    /// The packet filter.
    Filter,
    /// The adapter's address.
    Address,
}

/// An object: its identifier, and what a query of it gives.
#[derive(Clone, Copy, Debug, PartialEq, Eq)]
pub struct Object {
    pub oid: u32,
    pub answer: Answer,
}

/// RNDIS_OID_GEN_CURRENT_PACKET_FILTER of Linux 6.12, `include/linux/rndis.h`: the one object that can be set.
pub const PACKET_FILTER: u32 = 0x0001_010e;

/// The objects, by the Remote NDIS specification and the numbers of `include/linux/rndis.h`: supported list, hardware status (ready), media supported
/// and in use (802.3), maximum frame size in bytes, link speed in units of 100 bits a second, packet
/// filter, media connect status (connected), permanent and current address.
pub const OBJECTS: [Object; 10] = [
    Object {
        oid: 0x0001_0101,
        answer: Answer::Objects,
    },
    Object {
        oid: 0x0001_0102,
        answer: Answer::Number(0),
    },
    Object {
        oid: 0x0001_0103,
        answer: Answer::Number(0),
    },
    Object {
        oid: 0x0001_0104,
        answer: Answer::Number(0),
    },
    Object {
        oid: 0x0001_0106,
        answer: Answer::Number(1_500),
    },
    Object {
        oid: 0x0001_0107,
        answer: Answer::Number(10_000_000),
    },
    Object {
        oid: PACKET_FILTER,
        answer: Answer::Filter,
    },
    Object {
        oid: 0x0001_0114,
        answer: Answer::Number(0),
    },
    Object {
        oid: 0x0101_0101,
        answer: Answer::Address,
    },
    Object {
        oid: 0x0101_0102,
        answer: Answer::Address,
    },
];

/// What a query of an object gives, or `None` where there is no such object.
pub fn answer_of(oid: u32) -> Option<Answer>
    ensures { result ≡ answer_for oid }
{
    for object in &OBJECTS {
        if object.oid == oid {
            return Some(object.answer);
        }
    }
    None
}

/// The numbers of all objects, 4 bytes each.
pub fn object_list() -> Small
    ensures value { result ≡ object_bytes }
    ensures few { length result ≡ 40 }
    ensures bytes { AllByRecursion (λ b. b < 256) result }
{
    let mut bytes = [0; 40];
    for (i, object) in OBJECTS.iter().enumerate() {
        put_at(&mut bytes, 4 * i, 4, u64::from(object.oid));
    }
    Small::of(&bytes)
}
