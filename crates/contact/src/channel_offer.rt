//! Offers of channels.
ghost use Rattle.std.specs.Prelude.{◌≡◌, ◌++◌, ◌+◌, ◌^◌, ◌<◌, length, replicate, IfOk, IfErr};
ghost use Rattle.contact.specs.Classes.{instance_id, offer, offers_from, Offers, HasNoKind, IsOffer};

use crate::Kind;
use crate::class::{class_id, kind_of};
use std::alloc::{AllocError, Global};
use thiserror::Error;
use vmbus_msg::Msg;

/// What an offer says of its channel.
#[derive(Clone, Copy, Debug, PartialEq, Eq)]
pub struct Offered {
    /// The channel's number.
    pub relid: u32,
    /// What its device is.
    pub kind: Kind,
    /// Which of the device's sub-channels it is, from 1 on; 0 for its primary channel.
    pub sub: u16,
}

/// Why an offer is refused.
#[derive(Clone, Copy, Debug, PartialEq, Eq, Error)]
pub enum OfferFault {
    /// No kind of device has this class id.
    #[error("class {id:?}")]
    Class {
        /// The class id, as it came.
        id: [u8; 16],
    },
}

/// The OFFERCHANNEL messages of devices, in their order, with relids 1, 2 and so on.
pub fn offers(alloc: Global, kinds: &[Kind]) -> Result<Vec<Msg>, AllocError>
    requires { length kinds.now < 2 ^ 32 }
    ensures { IfOk result (λ messages. messages.items ≡ offers_from 1 kinds.now) }
{
    let mut messages = Vec::with_capacity(alloc, kinds.len())?;
    let mut relid: u32 = 0;
    for kind in kinds {
        relid += 1;
        messages.push_reserved(offer(*kind, relid, 0));
    }
    Ok(messages)
}

/// The OFFERCHANNEL message of a device's channel: the primary one with `sub` 0, or a sub-channel.
pub fn offer(kind: Kind, relid: u32, sub: u16) -> Msg
    ensures { result ≡ offer kind relid sub }
{
    Msg::OfferChannel {
        padding: 0,
        if_type: class_id(kind),
        if_instance: instance_id(relid),
        reserved1: 0,
        reserved2: 0,
        chn_flags: 0,
        mmio: 0,
        user: [0; 120],
        sub,
        reserved3: 0,
        relid,
        monitorid: 255,
        monitor: 0,
        interrupt: 0,
        connection: relid,
    }
}

/// What an OFFERCHANNEL message says. It refuses exactly where no kind has the class id.
pub fn read_offer(m: &Msg) -> Result<Offered, OfferFault>
    requires { IsOffer m.now }
    ensures offered { IfOk result (Offers m.now) }
    ensures class { IfErr result (HasNoKind m.now) }
{
    match m {
        Msg::OfferChannel {
            if_type,
            sub,
            relid,
            ..
        } => match kind_of(if_type) {
            Some(kind) => Ok(Offered {
                relid: *relid,
                kind,
                sub: *sub,
            }),
            None => Err(OfferFault::Class { id: *if_type }),
        },
        _ => unreachable!(),
    }
}

// The instance id of an offer.
fn instance_id(relid: u32) -> [u8; 16]
    ensures { result ≡ instance_id relid }
{
    let [a, b, c, d] = relid.to_le_bytes();
    [a, b, c, d, 0, 0, 0, 0, 0, 0, 0, 0, 0, 0, 0, 0]
}
