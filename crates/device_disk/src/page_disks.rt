//! Packets of a disk's channel whose data stands in data pages of the channel. The guest asks with packets of type 9, which name the page of their id, where bytes
//! move, and else with in-band packets; the host answers each with a completion, and the page comes back with it.
//!
//! A storage packet of 64 bytes is all that a packet carries. Source: Linux 6.12, `drivers/scsi/storvsc_drv.c`, storvsc_do_io; that a frame number is that of a page of
//! the channel is this project's own.
ghost use Rattle.std.specs.Prelude.{Some, ◌≡◌, ◌≤◌, ◌<◌, ◌*◌, ℕ, List, [], length, take, min, true, false, IsSome, MatchOption, None, is_none, is_some, nat_le, ◌==◌};
ghost use Rattle.ring_machine.specs.States.{IsPacket};
ghost use Rattle.vm_page.specs.Words.{words_for, bytes_in};
ghost use Rattle.pkt_desc.specs.Packets.{kind_of};
ghost use Rattle.page_kept.specs.declared.item.Item.{Item};
ghost use Rattle.page_kept.specs.Items.{item_of};
ghost use Rattle.scsi_disk.specs.declared.request.DiskRequest.{DiskRequest as OneRequest};
ghost use Rattle.scsi_disk.specs.declared.reply.DiskReply.TheVariants.{Good};
ghost use Rattle.scsi_disk.specs.Commands.{command_of};
ghost use Rattle.scsi_disk.specs.DiskModel.{most_back};
ghost use Rattle.stor_proto.specs.Packets.{IsAllowed};
ghost use Rattle.stor_proto.specs.Srbs.{cdb_in, data_in, bytes_moved, stop_of, done_of};
ghost use Rattle.channel_protocol.specs.Listed.{answer_in};
ghost use Rattle.channel_protocol.specs.Paged.{IsWritten, Lays, LaysSome};
ghost use Rattle.device_wire.specs.Codecs.{fixed_back};
ghost use Rattle.device_packets.specs.Said.{vstor_of, came_in, came_with as came_of, said_item};
ghost use Rattle.disk_format.specs.Disks.{back_of, disk_fits};
ghost use Rattle.disk_format.specs.PageDisks.{is_direct as direct, page_codec, page_waits as waits, page_read as read_of, page_answer, page_result, direct_packet, srb_asked, silent_answer, page_fixed_vstor, bytes_of_ask, lacks_page as lacks_of};

use crate::disks::{front, spelled, write_done};
use channel_protocol::Written;
use device_packets::{GPA_DIRECT, is_completion, is_inband, is_of_type, put_words};
use pkt_desc::build_gpa;
use scsi_disk::{Chunk, Command, DiskReply, DiskRequest};
use stor_proto::{Vstor, answer, srb_command, srb_reply, srb_stop, srb_stopped};
use vm_page::{Span, bytes_of};
use wire_table::{array_at, get_at};

/// The bytes of a page.
pub(crate) const PAGE: usize = 4_096;

/// How an srb ended stands at this byte of it, how many bytes it moved at this, and its command at this.
const SRB_STATUS: usize = 2;

const DATA_TRANSFER_LENGTH: usize = 12;

const CDB: usize = 16;

/// Whether a command gives bytes.
pub(crate) fn is_giving(command: Option<Command>) -> bool
    ensures { result ≡ (data_in command == 1) }
{
    match command {
        Some(
            Command::Inquiry { .. }
            | Command::ReadCapacity
            | Command::Read { .. }
            | Command::LongCapacity { .. },
        ) => true,
        _ => false,
    }
}

/// How many bytes a command moves, where so many go to the disk.
fn moved(command: Option<Command>, out: u64) -> u64
    requires { bytes_moved command out ≤ 4096 }
    ensures value { result ≡ bytes_moved command out }
    ensures few { result ≤ 4096 }
{
    match command {
        Some(Command::Inquiry { allocation, .. }) => allocation.min(36),
        Some(Command::ReadCapacity) => 8,
        Some(Command::Read { count, .. }) => 512 * count,
        Some(Command::Write { .. }) => out,
        Some(Command::LongCapacity { allocation, .. }) => allocation.min(32),
        _ => 0,
    }
}

/// How many bytes a request moves.
pub(crate) fn bytes_asked(request: &DiskRequest) -> u64
    requires { bytes_of_ask request.now ≤ 4096 }
    ensures value { result ≡ bytes_of_ask request.now }
    ensures few { result ≤ 4096 }
{
    moved(Command::of(&request.cdb), request.out.bytes().len() as u64)
}

/// Writes a storage packet that names so many first bytes of the page of its id: its words.
#[tactic(auto, unfolding(disk_format::specs::PageDisks::direct_packet))]
pub(crate) fn write_direct(id: u64, bytes: u32, v: &Vstor, out: &mut [u64]) -> usize
    requires allowed { IsAllowed v.now }
    requires some { 1 ≤ bytes }
    requires few { bytes ≤ 4096 }
    requires out { length out.old ≡ 384 }
    ensures packet { take result out.new ≡ direct_packet id bytes v.now }
    ensures is_packet { IsPacket (take result out.new) }
    ensures most { result ≤ 384 }
{
    let front = Span {
        page: id.saturating_sub(1),
        offset: 0,
        len: bytes,
    };
    build_gpa(out, id, &[front], &spelled(v))
}

/// Whether a packet names pages and has at most 384 words.
#[tactic(auto, unfolding(disk_format::specs::PageDisks::is_direct))]
fn is_direct(packet: &[u64]) -> bool
    requires { IsPacket packet.now }
    ensures value { result ≡ direct packet.now }
{
    is_of_type(packet, GPA_DIRECT)
}

/// Whether a packet is a request with an answer: in-band or with ranges of pages, and it begins with a storage packet.
#[tactic(auto, unfolding(disk_format::specs::PageDisks::page_waits))]
pub(crate) fn is_page_request(packet: &[u64]) -> bool
    requires { IsPacket packet.now }
    ensures value { (i : Item) → i.packet ≡ packet.now → result ≡ waits i }
{
    if !is_inband(packet) && !is_direct(packet) {
        return false;
    }
    front(packet).is_some()
}

/// Whether a request came without the page that it names.
#[tactic(auto, unfolding(disk_format::specs::PageDisks::lacks_page))]
pub(crate) fn lacks_page(packet: &[u64], words: &[u64]) -> bool
    requires { IsPacket packet.now }
    ensures value { result ≡ lacks_of (item_of packet.now words.now) }
{
    packet[0] % 0x1_0000 == GPA_DIRECT && words.is_empty()
}

/// Whether the reply to an srb has room in so many bytes, of at most a page.
fn has_room(v: &Vstor, room: u64) -> bool
    requires srb { v.now.operation ≡ 3 }
    requires page { room ≤ 4096 }
    ensures value { result ≡ nat_le (most_back (command_of (cdb_in v.now))) room }
{
    match srb_command(v) {
        Some(Command::Inquiry { allocation, .. }) => allocation.min(36) <= room,
        Some(Command::ReadCapacity) => 8 <= room,
        Some(Command::Read { count, .. }) => count <= room / 512,
        Some(Command::LongCapacity { allocation, .. }) => allocation.min(32) <= room,
        _ => true,
    }
}

/// Why an srb asks nothing of the disk, if it doesn't: it came without its page, which is an error, status 4; it is for another device, or its command is too long;
/// or its reply has no room in the page, which is an error too.
#[tactic(auto, unfolding(disk_format::specs::PageDisks::srb_asked, disk_format::specs::PageDisks::page_fixed_vstor))]
fn stopped(v: &Vstor, lacks: bool, room: u64) -> Option<u8>
    requires srb { v.now.operation ≡ 3 }
    requires page { room ≤ 4096 }
    ensures { MatchOption result ((came : List ℕ) → length came ≡ room → IsSome (srb_asked v.now lacks came))
        (λ status. (came : List ℕ) → length came ≡ room → (srb_asked v.now lacks came ≡ None) × (page_fixed_vstor v.now lacks came ≡ stop_of v.now status)) }
{
    if lacks {
        return Some(4);
    }
    if let Some(stop) = srb_stopped(v) {
        return Some(stop.status);
    }
    if has_room(v, room) { None } else { Some(4) }
}

/// Whether a storage packet asks the disk, where so many bytes came in its page.
#[tactic(auto, unfolding(disk_format::specs::PageDisks::srb_asked))]
pub(crate) fn asks_disk(v: &Vstor, lacks: bool, room: u64) -> bool
    requires { room ≤ 4096 }
    ensures { (came : List ℕ) → length came ≡ room → result ≡ is_some (srb_asked v.now lacks came) }
{
    if v.operation != 3 {
        return false;
    }
    stopped(v, lacks, room).is_none()
}

/// How many bytes came with a completion's storage packet: those that moved, where its srb ended well and its command gives bytes.
#[tactic(auto, unfolding(device_packets::specs::Said::came_with, device_packets::specs::Said::gives_bytes))]
pub(crate) fn came_with(v: &Vstor) -> u64
    ensures { result ≡ came_of v.now }
{
    if v.operation != 1 || get_at(&v.rest, SRB_STATUS, 1) != 1 {
        return 0;
    }
    let cdb: [u8; 16] = array_at(&v.rest, CDB);
    if !is_giving(Command::of(&cdb)) {
        return 0;
    }
    get_at(&v.rest, DATA_TRANSFER_LENGTH, 4)
}

/// The answer to a request of the start-up. One that would be read as an srb that gave bytes is refused.
fn start_answer(answer: Vstor) -> Vstor
    requires { IsAllowed answer }
    ensures value { result ≡ silent_answer answer }
    ensures allowed { IsAllowed result }
{
    if came_with(&answer) == 0 {
        return answer;
    }
    Vstor {
        operation: 1,
        flags: 0,
        status: 1,
        rest: [0; 52],
    }
}

/// The answer to a storage packet that asks nothing of the disk, and none where it asks it.
fn fixed(v: &Vstor, lacks: bool, room: u64) -> Option<Vstor>
    requires allowed { IsAllowed v.now }
    requires page { room ≤ 4096 }
    ensures { MatchOption result ((came : List ℕ) → length came ≡ room → is_none (srb_asked v.now lacks came) ≡ false)
        (λ w. IsAllowed w × ((came : List ℕ) → length came ≡ room → (is_none (srb_asked v.now lacks came) ≡ true) × (w ≡ page_fixed_vstor v.now lacks came))) }
{
    if v.operation != 3 {
        return Some(start_answer(answer(v)));
    }
    match stopped(v, lacks, room) {
        Some(status) => Some(srb_stop(v, status)),
        None => None,
    }
}

/// The bytes of a reply that come back.
fn back(reply: &DiskReply) -> &[u8]
    ensures { result.now ≡ back_of reply.now }
{
    match reply {
        DiskReply::Good(chunk) => chunk.bytes(),
        DiskReply::Check { .. } => &[],
    }
}

/// The storage packet of a completion of an srb, and how many bytes came with it.
pub(crate) fn ended(packet: &[u64]) -> Option<Vstor>
    requires { IsPacket packet.now }
    ensures { MatchOption result ((i : Item) → i.packet ≡ packet.now → page_result i ≡ None) (λ v. (v ≡ vstor_of packet.now) × (came_in packet.now ≡ came_of v) × ((i : Item) → i.packet ≡ packet.now → page_result i ≡ done_of v (bytes_in i.words)) × (kind_of packet.now ≡ 11)) }
{
    if !is_completion(packet) {
        return None;
    }
    let Some(v) = front(packet) else { return None };
    if v.operation == 1 { Some(v) } else { None }
}

/// The bytes that came in page words, of an srb that moved so many, put at the front of `bytes`: how many they are.
pub(crate) fn put_came(words: &[u64], moved: u64, bytes: &mut [u8; PAGE]) -> usize
    requires { length words.now ≤ 512 }
    ensures len { result ≤ 4096 }
    ensures bytes { take result bytes.new ≡ take (min moved 4096) (bytes_in words.now) }
{
    let len = (8 * words.len()).min(moved as usize);
    bytes_of(words, &mut bytes[..len]);
    len
}

/// The reply that gives the bytes that came in page words, of an srb that moved so many. Where no page words came, no bytes are made.
pub(crate) fn came(words: &[u64], moved: u64) -> DiskReply
    requires { length words.now ≤ 512 }
    ensures { result ≡ Good (take (min moved 4096) (bytes_in words.now)) }
{
    if words.is_empty() {
        return DiskReply::Good(Chunk::of(&[]));
    }
    let mut bytes = [0; PAGE];
    let len = put_came(words, moved, &mut bytes);
    DiskReply::Good(Chunk::of(&bytes[..len]))
}

/// The first page words, as many as hold so many bytes, or all where there are fewer.
pub(crate) fn first(words: &[u64], bytes: u64) -> &[u64]
    requires { length words.now ≤ 512 }
    ensures front { result.now ≡ take (words_for bytes) words.now }
    ensures few { length result.now ≤ 512 }
{
    let most = bytes.min(PAGE as u64).div_ceil(8) as usize;
    &words[..most.min(words.len())]
}

/// Writes the answer to a request that asks nothing of the disk: its words. Nothing of the page that comes back with it is read.
pub(crate) fn write_page_fixed(packet: &[u64], words: &[u64], out: &mut [u64]) -> usize
    requires packet { IsPacket packet.now }
    requires words { length words.now ≤ 512 }
    requires out { length out.old ≡ 384 }
    ensures value { (n : ℕ) → LaysSome said_item (take result out.new) [] n (answer_in (fixed_back page_codec (said_item (item_of packet.now words.now)))) }
    ensures written { 0 < result → IsPacket (take result out.new) }
    ensures most { result ≤ 384 }
{
    if !is_page_request(packet) {
        return 0;
    }
    let Some(v) = front(packet) else { return 0 };
    let room = 8 * words.len() as u64;
    match fixed(&v, lacks_page(packet, words), room) {
        Some(answer) => write_done(packet[1], &answer, out),
        None => 0,
    }
}

/// Writes the answer with the disk's reply to a packet with this storage packet, and the bytes of the reply as page words.
pub(crate) fn write_page_answer(
    packet: &[u64],
    words: &[u64],
    v: &Vstor,
    reply: &DiskReply,
    out: &mut [u64],
    page: &mut [u64],
) -> Written
    requires packet { IsPacket packet.now }
    requires words { length words.now ≤ 512 }
    requires head { v.now ≡ vstor_of packet.now }
    requires fits { (q : OneRequest) × (read_of (said_item (item_of packet.now words.now)) ≡ Some q) × (disk_fits q reply.now ≡ true) }
    requires out { length out.old ≡ 384 }
    requires page { length page.old ≡ 512 }
    ensures value { (n : ℕ) (i : Item) → result.lent ≤ n → Lays (take result.packet out.new) (take result.words page.new) n i → said_item i ≡ page_answer (said_item (item_of packet.now words.now)) reply.now }
    ensures is_packet { IsPacket (take result.packet out.new) }
    ensures most { IsWritten result }
    ensures within { result.lent ≤ length (said_item (item_of packet.now words.now)).words }
    ensures page { length page.new ≡ 512 }
{
    let written = write_done(packet[1], &srb_reply(v, reply), out);
    let words = put_words(back(reply), page);
    Written {
        packet: written,
        words,
        lent: words,
    }
}
