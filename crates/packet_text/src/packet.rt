//! One packet.
ghost use Rattle.std.specs.Prelude.{◌≡◌, ◌++◌, OnOk, drop, slice_index_or};
ghost use Rattle.std.specs.Fmt.{decimal};
ghost use Rattle.page_kept.specs.Items.{item_of};
ghost use Rattle.packet_text.specs.Lines.{descriptor_text, dump_line, hex_word, hex_words, kind_text, origin_text, page_text, payload_text, side_text, words_line};

use io_edge::Side;
use script_text::{hex_2, push_decimal};
use std::alloc::AllocError;

/// Where a packet stands: its phase, the relid of its channel, and who sent it.
#[derive(Clone, Copy)]
pub(crate) struct Origin {
    pub phase: u32,
    pub relid: u32,
    pub side: Side,
}

fn word(packet: &[u64], i: usize) -> u64
    ensures { result ≡ slice_index_or packet.now i 0 }
{
    if i < packet.len() { packet[i] } else { 0 }
}

// The bytes of a word, the lowest first, in two digits each behind what stands before them.
fn push_word(text: &mut Vec<u8>, word: u64, before: &[u8]) -> Result<(), AllocError>
    ensures { OnOk result (text.new.items ≡ text.old.items ++ hex_word before.now word) }
{
    let bytes = word.to_le_bytes();
    for byte in &bytes {
        text.extend_from_slice(before)?;
        text.extend_from_slice(&hex_2(*byte))?;
    }
    Ok(())
}

// The bytes of words, word by word.
fn push_words(text: &mut Vec<u8>, words: &[u64], before: &[u8]) -> Result<(), AllocError>
    ensures { OnOk result (text.new.items ≡ text.old.items ++ hex_words before.now words.now) }
{
    for word in words {
        push_word(text, *word, before)?;
    }
    Ok(())
}

fn push_field(text: &mut Vec<u8>, name: &[u8], value: u64) -> Result<(), AllocError>
    ensures { OnOk result (text.new.items ≡ text.old.items ++ (name.now ++ decimal value)) }
{
    text.extend_from_slice(name)?;
    push_decimal(text, value)?;
    Ok(())
}

fn side_text(side: Side) -> &'static [u8]
    ensures { result.now ≡ side_text side }
{
    match side {
        Side::Guest => b" guest",
        Side::Host => b" host",
    }
}

// A packet's type, by the name that it has in the format, or by its number.
fn push_kind(text: &mut Vec<u8>, kind: u64) -> Result<(), AllocError>
    ensures { OnOk result (text.new.items ≡ text.old.items ++ kind_text kind) }
{
    if kind == 6 {
        text.extend_from_slice(b" DATA_INBAND")?;
    } else if kind == 7 {
        text.extend_from_slice(b" DATA_USING_XFER_PAGES")?;
    } else if kind == 9 {
        text.extend_from_slice(b" DATA_USING_GPA_DIRECT")?;
    } else if kind == 11 {
        text.extend_from_slice(b" COMP")?;
    } else {
        push_field(text, b" type ", kind)?;
    }
    Ok(())
}

// The words behind the first two.
fn payload(packet: &[u64]) -> &[u64]
    ensures { result.now ≡ drop 2 packet.now }
{
    if packet.len() > 2 {
        packet.split_at(2).1
    } else {
        &[]
    }
}

// Where a packet stands.
fn push_origin(text: &mut Vec<u8>, from: Origin) -> Result<(), AllocError>
    ensures { OnOk result (text.new.items ≡ text.old.items ++ origin_text from) }
{
    push_field(text, b"phase ", u64::from(from.phase))?;
    push_field(text, b" relid ", u64::from(from.relid))?;
    text.extend_from_slice(side_text(from.side))?;
    Ok(())
}

// What its first two words say, but for their lengths.
fn push_descriptor(text: &mut Vec<u8>, packet: &[u64]) -> Result<(), AllocError>
    ensures { OnOk result (text.new.items ≡ text.old.items ++ descriptor_text packet.now) }
{
    let first = word(packet, 0);
    push_kind(text, first % 0x1_0000)?;
    push_field(text, b" id ", word(packet, 1))?;
    push_field(text, b" flags ", first / 0x1_0000_0000_0000)?;
    Ok(())
}

// The bytes behind these two words.
fn push_payload(text: &mut Vec<u8>, packet: &[u64]) -> Result<(), AllocError>
    ensures { OnOk result (text.new.items ≡ text.old.items ++ payload_text packet.now) }
{
    text.extend_from_slice(b" bytes ")?;
    push_words(text, payload(packet), b"")?;
    Ok(())
}

// The bytes of the page words that went along, if any did.
fn push_page(text: &mut Vec<u8>, words: &[u64]) -> Result<(), AllocError>
    ensures { OnOk result (text.new.items ≡ text.old.items ++ page_text words.now) }
{
    if !words.is_empty() {
        text.extend_from_slice(b" page ")?;
        push_words(text, words, b"")?;
    }
    Ok(())
}

/// A packet in words, with the page words that went along.
pub(crate) fn push_in_words(
    text: &mut Vec<u8>,
    from: Origin,
    packet: &[u64],
    words: &[u64],
) -> Result<(), AllocError>
    ensures { OnOk result (text.new.items ≡ text.old.items ++ words_line from (item_of packet.now words.now)) }
{
    push_origin(text, from)?;
    push_descriptor(text, packet)?;
    push_payload(text, packet)?;
    push_page(text, words)?;
    text.extend_from_slice(b"\n")?;
    Ok(())
}

/// A packet as text2pcap reads it.
pub(crate) fn push_dump(text: &mut Vec<u8>, packet: &[u64]) -> Result<(), AllocError>
    ensures { OnOk result (text.new.items ≡ text.old.items ++ dump_line packet.now) }
{
    text.extend_from_slice(b"000000")?;
    push_words(text, packet, b" ")?;
    text.extend_from_slice(b"\n")?;
    Ok(())
}
