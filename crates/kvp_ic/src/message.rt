//! What a key-value device is asked, and what it answers.

ghost use Rattle.std.specs.Prelude.{◌≡◌};
ghost use Rattle.kvp_ic.specs.Machine.{told, pool_of};

use kvp_pool::{Key, Val};

/// A request to a key-value device, of one of its pools, which have the numbers 0 to 4 (Linux 6.12,
/// `include/uapi/linux/hyperv.h`, enum hv_kvp_exchg_op).
#[derive(Drop)]
pub enum Kvp {
    /// The value of a key.
    Get { pool: u8, key: Key },
    /// Gives a key this value.
    Set { pool: u8, key: Key, value: Val },
    /// Takes a key out.
    Delete { pool: u8, key: Key },
    /// The pair that has so many others before it in the order of keys.
    Enum { pool: u8, index: u32 },
}

/// The answer of a key-value device.
#[derive(Drop)]
pub struct KvpReply {
    /// An HRESULT: 0 is success.
    pub status: u32,
    /// The key of the pair that was asked for by its place.
    pub key: Option<Key>,
    /// The value that was asked for.
    pub value: Option<Val>,
}

impl Kvp {
    /// The number of the pool.
    pub fn pool(&self) -> u8
        ensures { result ≡ pool_of self.now }
    {
        match self {
            Kvp::Get { pool, .. }
            | Kvp::Set { pool, .. }
            | Kvp::Delete { pool, .. }
            | Kvp::Enum { pool, .. } => *pool,
        }
    }

    /// The same request. It takes no memory.
    pub fn again(&self) -> Kvp
        ensures { result ≡ self.now }
    {
        // Each arm returns by itself, so that no text is moved through the value of the `match`.
        match self {
            Kvp::Get { pool, key } => {
                return Kvp::Get {
                    pool: *pool,
                    key: key.again(),
                };
            }
            Kvp::Set { pool, key, value } => {
                return Kvp::Set {
                    pool: *pool,
                    key: key.again(),
                    value: value.again(),
                };
            }
            Kvp::Delete { pool, key } => {
                return Kvp::Delete {
                    pool: *pool,
                    key: key.again(),
                };
            }
            Kvp::Enum { pool, index } => {
                return Kvp::Enum {
                    pool: *pool,
                    index: *index,
                };
            }
        }
    }
}

impl KvpReply {
    /// A status with no key and no value.
    pub fn of_status(status: u32) -> KvpReply
        ensures { result ≡ told status }
    {
        KvpReply {
            status,
            key: None,
            value: None,
        }
    }

    /// The same answer. It takes no memory.
    pub fn again(&self) -> KvpReply
        ensures { result ≡ self.now }
    {
        KvpReply {
            status: self.status,
            key: match &self.key {
                Some(key) => Some(key.again()),
                None => None,
            },
            value: match &self.value {
                Some(value) => Some(value.again()),
                None => None,
            },
        }
    }
}
