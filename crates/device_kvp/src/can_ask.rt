//! What can be asked of a key-value service.
ghost use Rattle.std.specs.Prelude.{◌≡◌, ◌<◌, ◌^◌, true};
ghost use Rattle.kvp_ic.specs.Messages.{CanBeAsked};

use kvp_ic::Kvp;

/// Whether this can be asked of a key-value service, and exactly that: a request of one of its five pools.
pub fn is_pair_ask(request: &Kvp) -> bool
    ensures can { result ≡ true → CanBeAsked request.now }
    ensures only { CanBeAsked request.now → result ≡ true }
{
    match request {
        Kvp::Get { pool, key } => {
            let _key = key.units();
            *pool <= 4
        }
        Kvp::Set { pool, key, value } => {
            let _key = key.units();
            let _value = value.units();
            *pool <= 4
        }
        Kvp::Delete { pool, key } => {
            let _key = key.units();
            *pool <= 4
        }
        Kvp::Enum { pool, index } => {
            fits(*index);
            *pool <= 4
        }
    }
}

/// A number of 32 bits is below 2^32. It does nothing.
fn fits(_number: u32)
    ensures { _number < 2 ^ 32 }
{}
