//! What the station answers.
ghost use Rattle.std.specs.Prelude.{◌≡◌};

use rndis_msg::Rndis;

/// The station's answer to one message.
#[derive(Drop)]
pub struct NetReply {
    /// The status in the completion of the packet that brought the message: 1 is success, 2 failure.
    pub status: u32,
    /// The message that comes back, if one does.
    pub back: Option<Rndis>,
}

impl NetReply {
    /// The same answer. It takes no memory.
    pub fn again(&self) -> NetReply
        ensures { result ≡ self.now }
    {
        NetReply {
            status: self.status,
            back: match &self.back {
                Some(message) => Some(message.again()),
                None => None,
            },
        }
    }
}
