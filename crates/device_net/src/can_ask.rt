//! What can be asked of an adapter.
ghost use Rattle.std.specs.Prelude.{◌≡◌, ◌<◌, ◌^◌, true};
ghost use Rattle.net_format.specs.Nets.{can_ask};

use rndis_msg::Rndis;

/// Whether this message can be asked of an adapter, and exactly that: a frame, a query, a set, a reset or a keepalive.
pub fn is_net_ask(message: &Rndis) -> bool
    ensures can { result ≡ true → can_ask message.now ≡ true }
    ensures only { can_ask message.now ≡ true → result ≡ true }
{
    match message {
        Rndis::Packet { body } => {
            // For the proof: what a value keeps is known where the value is read.
            let _bytes = body.bytes();
            true
        }
        Rndis::Query {
            request_id,
            oid,
            body,
        } => {
            fits(*request_id);
            fits(*oid);
            // For the proof: what a value keeps is known where the value is read.
            let _bytes = body.bytes();
            true
        }
        Rndis::Set {
            request_id,
            oid,
            body,
        } => {
            fits(*request_id);
            fits(*oid);
            // For the proof: what a value keeps is known where the value is read.
            let _bytes = body.bytes();
            true
        }
        Rndis::Reset => true,
        Rndis::Keepalive { request_id } => {
            fits(*request_id);
            true
        }
        _ => false,
    }
}

/// A number of 32 bits is below 2^32. It does nothing.
fn fits(_number: u32)
    ensures { _number < 2 ^ 32 }
{}
