//! Packets of a ring.
ghost use Rattle.std.specs.Prelude.{◌≡◌, ◌≢◌, ◌+◌, ◌≤◌, ◌<◌, true, length, Some};
ghost use Rattle.pkt_desc.specs.Packets.{IsPacket, desc_of};
ghost use Rattle.pkt_desc.specs.Ranges.{RangesFit, high_32, low_32, range_count};
ghost use Rattle.vm_page.specs.Cuts.{pages_for};
ghost use Rattle.pkt_desc.specs.Faults.{fault_of};
ghost use Rattle.pkt_desc.specs.declared.desc.PacketFault.{PacketFault as Fault};
ghost use Rattle.vmbus_c.specs.Packets.{HasRange, NamesPages, NamesParts, fields_of, number_of, part_at, range_at, transfer_of};

use pkt_desc::{Desc, PacketFault, parse};

/// A packet's descriptor (Linux `include/linux/hyperv.h`, struct vmpacket_descriptor).
#[repr(C)]
#[derive(Clone, Copy)]
pub struct VmbusPacket {
    /// The type: 6 is in-band data, 7 data using transfer pages, 9 data using GPA direct, 11 a completion.
    pub kind: u32,
    /// Where the payload begins, in words.
    pub offset8: u32,
    /// The length of the packet without its trailer, in words.
    pub len8: u32,
    /// Bit 0 asks for a completion.
    pub flags: u32,
    /// The transaction's id.
    pub tid: u64,
}

// The numbers of a descriptor.
fn fields(d: &Desc) -> VmbusPacket
    ensures { result ≡ fields_of d.now }
{
    VmbusPacket {
        kind: u32::from(d.kind),
        offset8: u32::from(d.offset8),
        len8: u32::from(d.len8),
        flags: u32::from(d.flags),
        tid: d.tid,
    }
}

// The number of a refusal.
fn number(fault: &PacketFault) -> u32
    ensures value { result ≡ number_of fault.now }
    ensures some { 1 < result }
{
    match fault {
        PacketFault::Length { .. } => 2,
        PacketFault::Offset { .. } => 3,
        PacketFault::Ranges { .. } => 4,
    }
}

/// Reads the descriptor of the packet that the words are, all of them without the trailer, and answers 0. Otherwise it answers the number of the first fault: 1
/// fewer than two words, 2 a length that isn't the number of words, 3 a payload that begins in the descriptor or past the end, 4 ranges that go past the
/// payload's beginning.
#[unsafe(no_mangle)]
pub extern "C" fn vmbus_packet_read(words: &[u64], packet: &mut VmbusPacket) -> u32
    ensures read { result ≡ 0 → IsPacket words.now × RangesFit words.now × (packet.new ≡ fields_of (desc_of words.now)) }
    ensures every { 2 ≤ length words.now → IsPacket words.now → RangesFit words.now → result ≡ 0 }
    ensures short { length words.now < 2 → result ≡ 1 }
    ensures one { result ≡ 1 → length words.now < 2 }
    ensures fault { 1 < result → (e : Fault) × ((fault_of words.now ≡ Some e) × (result ≡ number_of e)) }
    ensures kept { result ≢ 0 → packet.new ≡ packet.old }
{
    if words.len() < 2 {
        return 1;
    }
    match parse(words) {
        Ok(d) => {
            *packet = fields(&d);
            0
        }
        Err(e) => number(&e),
    }
}

/// A range of pages.
#[repr(C)]
#[derive(Clone, Copy)]
pub struct VmbusRange {
    /// How many bytes it has.
    pub bytes: u32,
    /// Their offset in its first page.
    pub offset: u32,
    /// The word at which its page frame numbers begin.
    pub frames_at: u32,
    /// How many there are.
    pub frames: u32,
}

// The low and the high 32 bits of a word.
fn halves(word: u64) -> (u32, u32)
    ensures { result ≡ (low_32 word, high_32 word) }
{
    ((word % 0x1_0000_0000) as u32, (word >> 32) as u32)
}

// How many pages so many bytes from this offset on touch.
fn pages_for(offset: u32, bytes: u32) -> u64
    ensures { result ≡ pages_for offset bytes }
{
    (u64::from(offset) + u64::from(bytes)).div_ceil(4096)
}

/// Reads the range of pages that begins at word `at` of the packet of type 9 that the words are, and answers 0. It answers 1 where they are no packet of type 9
/// (`vmbus_packet_read`), or else 2 where no range stands there with all its page frame numbers, behind word 3 and before the payload; then `range` stays.
#[unsafe(no_mangle)]
pub extern "C" fn vmbus_packet_range(words: &[u64], at: u32, range: &mut VmbusRange) -> u32
    ensures read { NamesPages words.now → HasRange words.now at → (result ≡ 0) × (range.new ≡ range_at words.now at) }
    ensures only { result ≢ 1 → NamesPages words.now }
    ensures here { result ≡ 0 → HasRange words.now at }
    ensures three { result ≤ 2 }
    ensures kept { result ≢ 0 → range.new ≡ range.old }
{
    if words.len() < 2 {
        return 1;
    }
    let Ok(desc) = parse(words) else {
        return 1;
    };
    if desc.kind != 9 {
        return 1;
    }
    let end = u64::from(desc.offset8);
    if at < 3 || u64::from(at) >= end {
        return 2;
    }
    let (bytes, offset) = halves(words[at as usize]);
    let frames = pages_for(offset, bytes);
    if u64::from(at) + 1 + frames > end {
        return 2;
    }
    *range = VmbusRange {
        bytes,
        offset,
        frames_at: at + 1,
        frames: frames as u32,
    };
    0
}

/// What a packet of type 7 names: ranges of a buffer (Linux `include/linux/hyperv.h`, struct `vmtransfer_page_packet_header`).
#[repr(C)]
#[derive(Clone, Copy)]
pub struct VmbusTransfer {
    /// The number of the buffer.
    pub pageset: u32,
    /// How many ranges there are.
    pub parts: u32,
}

/// A range of a buffer that a packet of type 7 names (Linux `include/linux/hyperv.h`, struct `vmtransfer_page_range`).
#[repr(C)]
#[derive(Clone, Copy)]
pub struct VmbusPart {
    /// How many bytes it has.
    pub bytes: u32,
    /// Where it begins in the buffer.
    pub offset: u32,
}

// A packet of type 7, with at least three words, all of whose ranges stand before its payload.
fn is_transfer(words: &[u64]) -> bool
    ensures is { result ≡ true → NamesParts words.now }
    ensures only { NamesParts words.now → result ≡ true }
    ensures ranges { result ≡ true → 3 + range_count words.now ≤ length words.now }
{
    if words.len() < 2 {
        return false;
    }
    match parse(words) {
        Ok(desc) => desc.kind == 7,
        Err(_) => false,
    }
}

/// Reads what the packet of type 7 that the words are names, and answers 0. It answers 1 where they are no packet of type 7 (`vmbus_packet_read`); then `transfer` stays.
#[unsafe(no_mangle)]
pub extern "C" fn vmbus_packet_transfer_read(words: &[u64], transfer: &mut VmbusTransfer) -> u32
    ensures read { NamesParts words.now → (result ≡ 0) × (transfer.new ≡ transfer_of words.now) }
    ensures only { result ≢ 1 → NamesParts words.now }
    ensures two { result ≤ 1 }
    ensures kept { result ≢ 0 → transfer.new ≡ transfer.old }
{
    if !is_transfer(words) {
        return 1;
    }
    let (low, parts) = halves(words[2]);
    *transfer = VmbusTransfer {
        pageset: low % 0x1_0000,
        parts,
    };
    0
}

/// Reads range `number`, from 0 on, of the packet of type 7 that the words are, and answers 0. It answers 1 where they are no packet of type 7 (`vmbus_packet_read`), or else
/// 2 where it has no such range; then `part` stays.
#[unsafe(no_mangle)]
pub extern "C" fn vmbus_packet_part(words: &[u64], number: u32, part: &mut VmbusPart) -> u32
    ensures read { NamesParts words.now → number < range_count words.now → (result ≡ 0) × (part.new ≡ part_at words.now number) }
    ensures only { result ≢ 1 → NamesParts words.now }
    ensures here { result ≡ 0 → number < range_count words.now }
    ensures three { result ≤ 2 }
    ensures kept { result ≢ 0 → part.new ≡ part.old }
{
    if !is_transfer(words) {
        return 1;
    }
    if number >= halves(words[2]).1 {
        return 2;
    }
    let (bytes, offset) = halves(words[3 + number as usize]);
    *part = VmbusPart { bytes, offset };
    0
}
