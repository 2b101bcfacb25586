//! Offers of channels.
ghost use Rattle.std.specs.Prelude.{◌≡◌, ◌≢◌, ◌≤◌, ◌<◌, ◌%◌, ◌^◌, ◌↔◌, true, Some, None, IfSome, length, take, drop};
ghost use Rattle.vmbus_msg.specs.Grammar.{IsMessage};
ghost use Rattle.vmbus_msg.specs.declared.msg.Msg.{Msg as Message};
ghost use Rattle.contact.specs.Classes.{IsOffer, Offers, offer};
ghost use Rattle.contact.specs.declared.kind.Kind.{Kind as ChannelKind};
ghost use Rattle.contact.specs.declared.channel_offer.Offered.{Offered as Told};
ghost use Rattle.vmbus_control_c.specs.Offers.{Fits, HasClass, kind_number, numbers_of, port_of};

use contact::{Kind, Offered, offer, read_offer};
use vmbus_fault::put_front;
use vmbus_msg::{Msg, decode, encode};

/// What an offer says of its channel.
#[repr(C)]
#[derive(Clone, Copy, PartialEq, Eq)]
pub struct VmbusOffer {
    /// The channel's number.
    pub relid: u32,
    /// What is at its other end: 1 the heartbeat service, 2 the shutdown service, 3 a SCSI disk, 4 a network device, 5 a socket's service, 6 the key-value service.
    pub kind: u32,
    /// The port at which a socket's service listens; of other kinds 0.
    pub port: u32,
    /// Which of the device's sub-channels it is, from 1 on; 0 for its primary channel.
    pub sub: u32,
}

// The number of a kind.
fn kind_number(kind: Kind) -> u32
    ensures { result ≡ kind_number kind }
{
    match kind {
        Kind::Beat => 1,
        Kind::Down => 2,
        Kind::Disk => 3,
        Kind::Net => 4,
        Kind::Sock { .. } => 5,
        Kind::Kvp => 6,
    }
}

// The port of a kind.
fn port_of(kind: Kind) -> u32
    ensures { result ≡ port_of kind }
{
    match kind {
        Kind::Sock { port } => port,
        _ => 0,
    }
}

// The numbers of an offer.
fn numbers(o: Offered) -> VmbusOffer
    ensures { result ≡ numbers_of o }
{
    VmbusOffer {
        relid: o.relid,
        kind: kind_number(o.kind),
        port: port_of(o.kind),
        sub: u32::from(o.sub),
    }
}

// The kind with this number, at this port where it has one.
fn kind_of(number: u32, port: u32) -> Option<Kind>
    ensures { (kind : ChannelKind) → kind_number kind ≡ number → port_of kind ≡ port → result ≡ Some kind }
{
    match number {
        1 => Some(Kind::Beat),
        2 => Some(Kind::Down),
        3 => Some(Kind::Disk),
        4 => Some(Kind::Net),
        5 => Some(Kind::Sock { port }),
        6 => Some(Kind::Kvp),
        _ => None,
    }
}

// The low 16 bits of a number.
fn low_16(number: u32) -> u16
    ensures { result ≡ number % 2 ^ 16 }
{
    (number % 0x1_0000) as u16
}

// Whether two offers have the same numbers.
fn are_same(a: &VmbusOffer, b: &VmbusOffer) -> bool
    ensures same { result ≡ true → a.now ≡ b.now }
    ensures only { a.now ≡ b.now → result ≡ true }
{
    *a == *b
}

// What these numbers say, if they are those of an offer.
fn offered(v: &VmbusOffer) -> Option<Offered>
    ensures whose { IfSome result (λ o. numbers_of o ≡ v.now) }
    ensures only { (o : Told) → Fits o → numbers_of o ≡ v.now → result ≡ Some o }
{
    let o = Offered {
        relid: v.relid,
        kind: kind_of(v.kind, v.port)?,
        sub: low_16(v.sub),
    };
    if are_same(&numbers(o), v) {
        Some(o)
    } else {
        None
    }
}

// Whether a message is an offer.
fn is_offer(m: &Msg) -> bool
    ensures is { result ≡ true → IsOffer m.now }
    ensures only { IsOffer m.now → result ≡ true }
{
    matches!(m, Msg::OfferChannel { .. })
}

/// Reads the offer that the bytes are, all of them, and answers 0. Otherwise it answers 1 where they are no OFFERCHANNEL message (`vmbus_message_read`), or else 2 where no
/// kind has its class id; then `told` stays. Source: Linux `include/linux/hyperv.h`, struct `vmbus_channel_offer`.
#[unsafe(no_mangle)]
pub extern "C" fn vmbus_offer_read(bytes: &[u8], told: &mut VmbusOffer) -> u32
    ensures read { result ≡ 0 → (m : Message) × (o : Told) × (IsMessage m bytes.now × Offers m o × (told.new ≡ numbers_of o)) }
    ensures only { (m : Message) → (o : Told) → IsMessage m bytes.now → Offers m o → Fits o → (result ≡ 0) × (told.new ≡ numbers_of o) }
    ensures other { result ≡ 1 → (m : Message) → IsMessage m bytes.now → IsOffer m → ⊥ }
    ensures class { result ≡ 2 → (m : Message) × (IsMessage m bytes.now × IsOffer m × ((kind : ChannelKind) → HasClass m kind → ⊥)) }
    ensures three { result ≤ 2 }
    ensures kept { result ≢ 0 → told.new ≡ told.old }
{
    let Ok(m) = decode(bytes) else {
        return 1;
    };
    if !is_offer(&m) {
        return 1;
    }
    let Ok(o) = read_offer(&m) else {
        return 2;
    };
    *told = numbers(o);
    0
}

/// Writes the OFFERCHANNEL message of these numbers at the front of `out`, and answers 0: the class id of its kind, the relid and 12 zero bytes as its instance id, its
/// relid as its connection, no monitor (monitorid 255), and all else 0. `len` is then how many bytes it has. It answers 2 where `out` has less than the 240 bytes that a
/// message may have, or else 1 where there is no such kind, a port is given of a kind that has none, or `sub` has more than 16 bits. Where the answer isn't 0, nothing is
/// written.
#[unsafe(no_mangle)]
pub extern "C" fn vmbus_offer_write(told: &VmbusOffer, out: &mut [u8], len: &mut usize) -> u32
    ensures written { result ≡ 0 → (o : Told) × ((numbers_of o ≡ told.now) × IsMessage (offer o.kind o.relid o.sub) (take len.new out.new)) }
    ensures every { 240 ≤ length out.old → (o : Told) → Fits o → numbers_of o ≡ told.now → (result ≡ 0) × IsMessage (offer o.kind o.relid o.sub) (take len.new out.new) }
    ensures room { (result ≡ 2) ↔ (length out.old < 240) }
    ensures three { result ≤ 2 }
    ensures most { result ≡ 0 → len.new ≤ 240 }
    ensures rest { result ≡ 0 → drop len.new out.new ≡ drop len.new out.old }
    ensures kept { result ≢ 0 → (out.new ≡ out.old) × (len.new ≡ len.old) }
{
    if out.len() < 240 {
        return 2;
    }
    let Some(o) = offered(told) else {
        return 1;
    };
    let mut bytes = [0; 240];
    let count = encode(&offer(o.kind, o.relid, o.sub), &mut bytes);
    put_front(out, &bytes[..count]);
    *len = count;
    0
}
