//! Packets of a network's channel, whose Remote NDIS messages stand in data pages of the channel. The guest puts a message into the section of the send buffer that goes with the id of its packet, and names that
//! section in an in-band packet that asks for a completion. What comes back stands in the page of the receive buffer that goes with an id of the host's own, and a packet that names this part of the buffer goes before the completion.
//!
//! A network message of 40 bytes is all that a packet carries. Source: Linux 6.12, `drivers/net/hyperv/netvsc.c`, netvsc_send_pkt and netvsc_receive; that a section has the number of an id is this project's own.
ghost use Rattle.std.specs.Prelude.{◌≡◌, ◌≤◌, ◌<◌, ◌⊎◌, ℕ, [], length, take, true, Ok};
ghost use Rattle.ring_machine.specs.States.{IsPacket};
ghost use Rattle.vm_page.specs.Words.{bytes_in};
ghost use Rattle.page_kept.specs.declared.item.Item.{Item};
ghost use Rattle.page_kept.specs.Items.{item_of};
ghost use Rattle.rndis_msg.specs.Reading.{message_in};
ghost use Rattle.channel_protocol.specs.Listed.{answer_in, message_in as fixed_message_in, has_message_in};
ghost use Rattle.channel_protocol.specs.Paged.{IsWritten, Lays, LaysSome, item_in, words_lent};
ghost use Rattle.channel_model.specs.WireFormat.{under_own};
ghost use Rattle.device_packets.specs.Said.{said_item};
ghost use Rattle.net_format.specs.Nets.{asked_by, back_in_form, in_form, ok_of};
ghost use Rattle.net_format.specs.PageNets.{back_in, fixed_by, message_of, net_fixed, net_read, rndis_back, rndis_sent, section_of, section_packet, taken_status, transfer_packet};

use crate::nets::{
    Came, RECEIVE_BUFFER, brings, channel_type, initialize_complete, what_came, write_done,
    write_init_done, write_receive_done, write_send_done,
};
use channel_protocol::Written;
use device_packets::put_words;
use net_dev::{Nvsp, encode_nvsp};
use pkt_desc::{build_inband, build_xfer, lent};
use rndis_msg::{Rndis, RndisFault, decode, encode};
use vm_page::bytes_of;

/// That no section of the send buffer is used.
const NO_SECTION: u32 = 0xffff_ffff;

/// The bytes of a page.
const PAGE: usize = 4_096;

/// As many bytes as a Remote NDIS message is written into.
const MOST: usize = 1_600;

/// The section of the send buffer that goes with an id.
fn section(id: u64) -> u32
    ensures { result ≡ section_of id }
{
    (id.saturating_sub(1) % 0x1_0000_0000) as u32
}

/// Writes the packet that names the section of its id, with a message of so many bytes: its words.
#[tactic(auto, unfolding(net_format::specs::PageNets::section_packet))]
fn write_section(id: u64, channel_type: u32, bytes: u32, out: &mut [u64]) -> usize
    requires out { length out.old ≡ 384 }
    ensures packet { take result out.new ≡ section_packet id channel_type bytes }
    ensures is_packet { IsPacket (take result out.new) }
    ensures most { result ≤ 384 }
{
    let mut front = [0; 40];
    encode_nvsp(
        &Nvsp::RndisPacket {
            channel_type,
            section_index: section(id),
            section_size: bytes,
        },
        &mut front,
    );
    build_inband(out, id, 1, &front)
}

/// Writes the packet that names the page of its id in the receive buffer, with a message of so many bytes: its words.
#[tactic(auto, unfolding(net_format::specs::PageNets::transfer_packet))]
fn write_transfer(own: u64, channel_type: u32, bytes: u32, out: &mut [u64]) -> usize
    requires own { own ≤ 64 }
    requires bytes { bytes ≤ 4096 }
    requires out { length out.old ≡ 384 }
    ensures packet { take result out.new ≡ transfer_packet own channel_type bytes }
    ensures is_packet { IsPacket (take result out.new) }
    ensures most { result ≤ 384 }
{
    let mut front = [0; 40];
    encode_nvsp(
        &Nvsp::RndisPacket {
            channel_type,
            section_index: NO_SECTION,
            section_size: 0,
        },
        &mut front,
    );
    let offset = PAGE as u32 * own.saturating_sub(1) as u32;
    build_xfer(out, own, RECEIVE_BUFFER, &[(bytes, offset)], &front)
}

/// Writes a message of the guest under an id: its packet, and the message as page words.
pub(crate) fn write_sent(id: u64, m: &Rndis, out: &mut [u64], page: &mut [u64]) -> Written
    requires formed { in_form m.now ≡ true }
    requires id { id ≤ 64 }
    requires out { length out.old ≡ 384 }
    requires page { length page.old ≡ 512 }
    ensures value { (i : Item) → Lays (take result.packet out.new) (take result.words page.new) result.lent i → said_item i ≡ rndis_sent id m.now }
    ensures is_packet { IsPacket (take result.packet out.new) }
    ensures most { IsWritten result }
    ensures lent { result.lent ≡ words_lent (take result.packet out.new) }
    ensures page { length page.new ≡ 512 }
{
    let mut bytes = [0; MOST];
    let len = encode(m, &mut bytes);
    let packet = write_section(id, channel_type(m), len as u32, out);
    let words = put_words(&bytes[..len], page);
    Written {
        packet,
        words,
        lent: words,
    }
}

/// Writes a message that comes back, under an id of the host's own: its packet, and the message as page words.
fn write_back(own: u64, m: &Rndis, out: &mut [u64], page: &mut [u64]) -> Written
    requires formed { in_form m.now ≡ true }
    requires own { own ≤ 64 }
    requires out { length out.old ≡ 384 }
    requires page { length page.old ≡ 512 }
    ensures value { (i : Item) → Lays (take result.packet out.new) (take result.words page.new) result.lent i → said_item i ≡ rndis_back own m.now }
    ensures is_packet { IsPacket (take result.packet out.new) }
    ensures most { IsWritten result }
    ensures lent { result.lent ≡ words_lent (take result.packet out.new) }
    ensures page { length page.new ≡ 512 }
{
    let mut bytes = [0; MOST];
    let len = encode(m, &mut bytes);
    let packet = write_transfer(own, channel_type(m), len as u32, out);
    let words = put_words(&bytes[..len], page);
    Written {
        packet,
        words,
        lent: words,
    }
}

/// The bytes of page words, put at the front of `bytes`: how many they are.
fn put_bytes(words: &[u64], bytes: &mut [u8; PAGE]) -> usize
    requires { length words.now ≤ 512 }
    ensures len { result ≤ 4096 }
    ensures bytes { take result bytes.new ≡ bytes_in words.now }
{
    let len = 8 * words.len();
    bytes_of(words, &mut bytes[..len]);
    len
}

/// The message in page words, or why there is none: none came without its page.
pub(crate) fn message(words: &[u64]) -> Result<Rndis, RndisFault>
    requires { length words.now ≤ 512 }
    ensures { result ≡ message_in (bytes_in words.now) }
{
    let mut bytes = [0; PAGE];
    let len = put_bytes(words, &mut bytes);
    decode(&bytes[..len])
}

/// Whether a message is an initialize, whose answer is fixed and has a message besides.
fn is_initialize(m: &Rndis) -> bool
    ensures { (id : ℕ) → result ≡ has_message_in (fixed_by id (Ok m.now)) }
{
    match m {
        Rndis::Initialize { .. } => true,
        _ => false,
    }
}

/// Whether bytes are one.
pub(crate) fn begins(message: &Result<Rndis, RndisFault>) -> bool
    ensures { (id : ℕ) → result ≡ has_message_in (fixed_by id message.now) }
{
    match message {
        Ok(m) => is_initialize(m),
        Err(_) => false,
    }
}

/// Writes the message that completes an initialize, under an id of the host's own, and its page words. For any other message it writes none.
fn write_complete_of(m: &Rndis, own: u64, out: &mut [u64], page: &mut [u64]) -> Written
    requires own { own ≤ 64 }
    requires out { length out.old ≡ 384 }
    requires page { length page.old ≡ 512 }
    ensures value { (id : ℕ) → LaysSome said_item (take result.packet out.new) (take result.words page.new) result.lent (fixed_message_in own (fixed_by id (Ok m.now))) }
    ensures written { 0 < result.packet → IsPacket (take result.packet out.new) }
    ensures most { IsWritten result }
    ensures lent { result.lent ≡ words_lent (take result.packet out.new) }
    ensures page { length page.new ≡ 512 }
{
    match m {
        Rndis::Initialize { request_id, .. } => {
            write_back(own, &initialize_complete(*request_id), out, page)
        }
        _ => Written::bare(0),
    }
}

/// The same for a message that may be none: bytes that are none have only a completion.
pub(crate) fn write_complete(
    message: &Result<Rndis, RndisFault>,
    own: u64,
    out: &mut [u64],
    page: &mut [u64],
) -> Written
    requires own { own ≤ 64 }
    requires out { length out.old ≡ 384 }
    requires page { length page.old ≡ 512 }
    ensures value { (id : ℕ) → LaysSome said_item (take result.packet out.new) (take result.words page.new) result.lent (fixed_message_in own (fixed_by id message.now)) }
    ensures written { 0 < result.packet → IsPacket (take result.packet out.new) }
    ensures most { IsWritten result }
    ensures lent { result.lent ≡ words_lent (take result.packet out.new) }
    ensures page { length page.new ≡ 512 }
{
    match message {
        Ok(m) => write_complete_of(m, own, out, page),
        Err(_) => Written::bare(0),
    }
}

/// Writes what completes a packet with this message, where that asks nothing of the adapter: its words.
fn write_completed(id: u64, message: &Result<Rndis, RndisFault>, out: &mut [u64]) -> usize
    requires out { length out.old ≡ 384 }
    ensures value { (n : ℕ) → LaysSome said_item (take result out.new) [] n (answer_in (fixed_by id message.now)) }
    ensures written { 0 < result → IsPacket (take result out.new) }
    ensures most { result ≤ 384 }
{
    match message {
        Ok(m) => if is_initialize(m) {
            write_done(id, 1, out)
        } else {
            0
        },
        Err(_) => write_done(id, 2, out),
    }
}

/// Writes the message that comes back with the adapter's reply, if one does, under an id of the host's own, and its page words.
pub fn write_net_message(
    back: &Option<Rndis>,
    own: u64,
    out: &mut [u64],
    page: &mut [u64],
) -> Written
    requires formed { back_in_form back.now ≡ true }
    requires own { own ≤ 64 }
    requires out { length out.old ≡ 384 }
    requires page { length page.old ≡ 512 }
    ensures value { LaysSome said_item (take result.packet out.new) (take result.words page.new) result.lent (under_own own (message_of back.now)) }
    ensures written { 0 < result.packet → IsPacket (take result.packet out.new) }
    ensures most { IsWritten result }
    ensures lent { result.lent ≡ words_lent (take result.packet out.new) }
    ensures page { length page.new ≡ 512 }
{
    match back {
        Some(message) => write_back(own, message, out, page),
        None => Written::bare(0),
    }
}

/// The status with which a message that came back is completed: 1 is success. One that names no page of the receive buffer failed.
pub(crate) fn taken(packet: &[u64]) -> u32
    requires { IsPacket packet.now }
    ensures { result ≡ taken_status packet.now }
{
    if !brings(packet) {
        return 2;
    }
    if lent(packet).is_some() { 1 } else { 2 }
}

/// What a message asks of the adapter: any but an initialize.
fn asked(message: Result<Rndis, RndisFault>) -> Option<Rndis>
    ensures { result ≡ asked_by message }
{
    match message {
        Ok(Rndis::Initialize { .. }) => None,
        Ok(message) => Some(message),
        Err(_) => None,
    }
}

/// What a packet asks of the adapter, if it asks it.
pub(crate) fn asked_in(packet: &[u64], words: &[u64]) -> Option<Rndis>
    requires packet { IsPacket packet.now }
    requires words { length words.now ≤ 512 }
    ensures value { result ≡ net_read (said_item (item_of packet.now words.now)) }
{
    match what_came(packet) {
        Came::Rndis => asked(message(words)),
        _ => None,
    }
}

/// A message, where bytes are one.
fn found(message: Result<Rndis, RndisFault>) -> Option<Rndis>
    ensures { result ≡ ok_of message }
{
    match message {
        Ok(message) => Some(message),
        Err(_) => None,
    }
}

/// The message that came back before a completion, if one did.
#[tactic(auto, using(crate::proofs::NetCameLaws::before_none, crate::proofs::NetCameLaws::before_message_so, crate::proofs::NetCameLaws::before_other_so))]
pub(crate) fn back(before: &[u64], words: &[u64]) -> Option<Rndis>
    requires before { before.now ≡ [] ⊎ IsPacket before.now }
    requires words { length words.now ≤ 512 }
    ensures { result ≡ back_in (item_in said_item before.now words.now) }
{
    if before.is_empty() {
        return None;
    }
    if brings(before) {
        found(message(words))
    } else {
        None
    }
}

/// Writes the fixed answer, if the packet has one: its words. Nothing of the page that comes back with it is read.
pub(crate) fn write_net_fixed(packet: &[u64], words: &[u64], out: &mut [u64]) -> usize
    requires packet { IsPacket packet.now }
    requires words { length words.now ≤ 512 }
    requires out { length out.old ≡ 384 }
    ensures value { (n : ℕ) → LaysSome said_item (take result out.new) [] n (answer_in (net_fixed (said_item (item_of packet.now words.now)))) }
    ensures written { 0 < result → IsPacket (take result out.new) }
    ensures most { result ≤ 384 }
{
    match what_came(packet) {
        Came::Init { min, max } => write_init_done(packet, min, max, out),
        Came::Receive => write_receive_done(packet[1], out),
        Came::Send => write_send_done(packet[1], out),
        Came::Rndis => write_completed(packet[1], &message(words), out),
        Came::Other => 0,
    }
}
