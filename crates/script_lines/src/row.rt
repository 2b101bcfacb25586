//! The rows of the table of lines.
ghost use Rattle.std.specs.Prelude.{◌≡◌, ◌<◌, ◌≤◌, ◌^◌, true, [], ◌∷◌, Option, Some, None, IfSome};
ghost use Rattle.std.specs.List.{list_all};
ghost use Rattle.script_text.specs.Words.{words};
ghost use Rattle.script_lines.specs.WellFormed.{IsDevice, InRange};
ghost use Rattle.script_text.specs.Forms.{is_name};
ghost use Rattle.script_lines.specs.Requests.{AskInRange, IsSent};
ghost use Rattle.script_lines.specs.Rows.{is_printable, said_in, said_by, begins_comment, row_of, disk_row, net_row, name_alone, name_and_number, name_and_two, contact_row, plain_offer, offer_row, disk_offer, blocks_in, net_offer, bad_row, plain_command, plain_message, query_row, set_row, frame_row, read_row, write_row, ring_row, window_row, beat_row, down_row, held_row, after_in, rescind_row, close_row, modify_row, phase_row, pair_row};

use crate::DeviceSpec;
use crate::asked::Asked;
use crate::disk_ask::DiskAsk;
use crate::message::{frame_of, query_of, set_of};
use crate::offering::Offering;
use crate::said::Said;
use kvp_lines::operation_row;
use rndis_msg::Rndis;
use script_text::{
    Name, address_of, are_bytes, byte_of, first_word, is_address, is_byte, is_decimal, is_name,
    is_oid, is_version, number_of, version_of, within,
};

/// What a line says, where it has printable bytes alone and its words are a row of the table.
pub fn said_in(line: &[u8]) -> Option<Said>
    ensures said { result ≡ said_in line.now }
    ensures range { IfSome result InRange }
{
    if are_printable(line) {
        said_by(line)
    } else {
        None
    }
}

fn are_printable(line: &[u8]) -> bool
    ensures { result ≡ list_all is_printable line.now }
{
    line.iter().all(|c| 0x20 <= *c && *c <= 0x7E)
}

/// A line without words, and one whose first word begins with `#`, is passed over.
fn said_by(line: &[u8]) -> Option<Said>
    ensures said { result ≡ said_by (words line.now) }
    ensures range { IfSome result InRange }
{
    match first_word(line) {
        None => Some(Said::Nothing),
        Some((key, rest)) => {
            if begins_comment(key) {
                Some(Said::Nothing)
            } else {
                row_of(key, rest)
            }
        }
    }
}

fn begins_comment(word: &[u8]) -> bool
    ensures { result ≡ begins_comment word.now }
{
    match word {
        [first, ..] => *first == b'#',
        [] => false,
    }
}

fn row_of(key: &[u8], rest: &[u8]) -> Option<Said>
    ensures said { result ≡ row_of key.now (words rest.now) }
    ensures range { IfSome result InRange }
{
    if key == b"contact".as_slice() {
        contact_row(rest)
    } else if key == b"offer".as_slice() {
        offer_row(rest)
    } else if key == b"ring".as_slice() {
        ring_row(rest)
    } else if key == b"window".as_slice() {
        window_row(rest)
    } else if key == b"beat".as_slice() {
        beat_row(rest)
    } else if key == b"down".as_slice() {
        down_row(rest)
    } else if key == b"rescind".as_slice() {
        rescind_row(rest)
    } else if key == b"close".as_slice() {
        close_row(rest)
    } else if key == b"modify".as_slice() {
        modify_row(rest)
    } else if key == b"phase".as_slice() {
        phase_row(rest)
    } else {
        disk_row(key, rest)
    }
}

fn disk_row(key: &[u8], rest: &[u8]) -> Option<Said>
    ensures said { result ≡ disk_row key.now (words rest.now) }
    ensures range { IfSome result InRange }
{
    if key == b"bad".as_slice() {
        bad_row(rest)
    } else if key == b"ready".as_slice() {
        plain_command(DiskAsk::Ready, rest)
    } else if key == b"inquiry".as_slice() {
        plain_command(DiskAsk::Inquiry, rest)
    } else if key == b"capacity".as_slice() {
        plain_command(DiskAsk::Capacity, rest)
    } else if key == b"capacity16".as_slice() {
        plain_command(DiskAsk::LongCapacity, rest)
    } else if key == b"flush".as_slice() {
        plain_command(DiskAsk::Flush, rest)
    } else if key == b"read".as_slice() {
        read_row(rest)
    } else if key == b"write".as_slice() {
        write_row(rest)
    } else {
        net_row(key, rest)
    }
}

fn net_row(key: &[u8], rest: &[u8]) -> Option<Said>
    ensures said { result ≡ net_row key.now (words rest.now) }
    ensures range { IfSome result InRange }
{
    if key == b"query".as_slice() {
        query_row(rest)
    } else if key == b"set".as_slice() {
        set_row(rest)
    } else if key == b"keep".as_slice() {
        plain_message(Rndis::Keepalive { request_id: 0 }, rest)
    } else if key == b"reset".as_slice() {
        plain_message(Rndis::Reset, rest)
    } else if key == b"frame".as_slice() {
        frame_row(rest)
    } else if key == b"kvp".as_slice() {
        pair_row(rest)
    } else {
        None
    }
}

fn name_alone(rest: &[u8]) -> Option<Name>
    ensures { result ≡ name_alone (words rest.now) }
{
    let (name, rest) = first_word(rest)?;
    match first_word(rest) {
        None if is_name(name) => Some(Name::of(name)),
        None => None,
        Some(_) => None,
    }
}

fn name_and_number(rest: &[u8]) -> Option<(Name, Option<u64>)>
    ensures { result ≡ name_and_number (words rest.now) }
{
    let (name, rest) = first_word(rest)?;
    let (number, rest) = first_word(rest)?;
    match first_word(rest) {
        None if is_name(name) && is_decimal(number) => { Some((Name::of(name), number_of(number))) }
        None => None,
        Some(_) => None,
    }
}

fn name_and_two(rest: &[u8]) -> Option<(Name, Option<u64>, Option<u64>)>
    ensures { result ≡ name_and_two (words rest.now) }
{
    let (name, rest) = first_word(rest)?;
    let (first, rest) = first_word(rest)?;
    let (second, rest) = first_word(rest)?;
    match first_word(rest) {
        None if is_name(name) && is_decimal(first) && is_decimal(second) => {
            Some((Name::of(name), number_of(first), number_of(second)))
        }
        None => None,
        Some(_) => None,
    }
}

fn contact_of(guest: &[u8], host: &[u8]) -> Option<Said>
    ensures said { result ≡ contact_row (guest.now ∷ host.now ∷ []) }
    ensures range { IfSome result InRange }
{
    if is_version(guest) && is_version(host) {
        Some(Said::Contact(version_of(guest), version_of(host)))
    } else {
        None
    }
}

fn contact_row(rest: &[u8]) -> Option<Said>
    ensures said { result ≡ contact_row (words rest.now) }
    ensures range { IfSome result InRange }
{
    let (guest, rest) = first_word(rest)?;
    let (host, rest) = first_word(rest)?;
    match first_word(rest) {
        None => contact_of(guest, host),
        Some(_) => None,
    }
}

fn offer_row(rest: &[u8]) -> Option<Said>
    ensures said { result ≡ offer_row (words rest.now) }
    ensures range { IfSome result InRange }
{
    let (kind, rest) = first_word(rest)?;
    if kind == b"hb".as_slice() {
        plain_offer(DeviceSpec::Beat, rest)
    } else if kind == b"shutdown".as_slice() {
        plain_offer(DeviceSpec::Down, rest)
    } else if kind == b"disk".as_slice() {
        disk_offer(rest)
    } else if kind == b"net".as_slice() {
        net_offer(rest)
    } else if kind == b"kvp".as_slice() {
        plain_offer(DeviceSpec::Kvp, rest)
    } else {
        None
    }
}

fn plain_offer(spec: DeviceSpec, rest: &[u8]) -> Option<Said>
    requires { IsDevice spec }
    ensures said { result ≡ plain_offer spec (words rest.now) }
    ensures range { IfSome result InRange }
{
    let name = name_alone(rest)?;
    Some(Said::Offer(name, Offering::Plain(spec)))
}

/// How many blocks a disk has, where it may have so many: 1 to 2^40.
fn blocks_in(number: Option<u64>) -> Option<u64>
    ensures blocks { result ≡ blocks_in number }
    ensures range { IfSome result (λ n. (1 ≤ n) × (n ≤ 2 ^ 40)) }
{
    match number {
        Some(n) if 1 <= n && n <= 1 << 40 => Some(n),
        _ => None,
    }
}

fn disk_offer(rest: &[u8]) -> Option<Said>
    ensures said { result ≡ disk_offer (words rest.now) }
    ensures range { IfSome result InRange }
{
    let (name, blocks, subs) = name_and_two(rest)?;
    Some(Said::Offer(
        name,
        Offering::Disk {
            blocks: blocks_in(blocks),
            subs,
        },
    ))
}

fn net_of(name: &[u8], mac: &[u8], station: &[u8]) -> Option<Said>
    ensures said { result ≡ net_offer (name.now ∷ mac.now ∷ station.now ∷ []) }
    ensures range { IfSome result InRange }
{
    if is_name(name) && is_address(mac) && is_address(station) {
        let spec = DeviceSpec::Net {
            mac: address_of(mac),
            station: address_of(station),
        };
        Some(Said::Offer(Name::of(name), Offering::Plain(spec)))
    } else {
        None
    }
}

fn net_offer(rest: &[u8]) -> Option<Said>
    ensures said { result ≡ net_offer (words rest.now) }
    ensures range { IfSome result InRange }
{
    let (name, rest) = first_word(rest)?;
    let (mac, rest) = first_word(rest)?;
    let (station, rest) = first_word(rest)?;
    match first_word(rest) {
        None => net_of(name, mac, station),
        Some(_) => None,
    }
}

fn bad_row(rest: &[u8]) -> Option<Said>
    ensures said { result ≡ bad_row (words rest.now) }
    ensures range { IfSome result InRange }
{
    let (name, lba) = name_and_number(rest)?;
    Some(Said::Bad(name, lba))
}

fn ring_row(rest: &[u8]) -> Option<Said>
    ensures said { result ≡ ring_row (words rest.now) }
    ensures range { IfSome result InRange }
{
    let (name, pages) = name_and_number(rest)?;
    Some(Said::Ring(name, within(1, 16, pages)))
}

fn window_row(rest: &[u8]) -> Option<Said>
    ensures said { result ≡ window_row (words rest.now) }
    ensures range { IfSome result InRange }
{
    let (name, size) = name_and_number(rest)?;
    Some(Said::Window(name, within(1, 64, size)))
}

fn beat_row(rest: &[u8]) -> Option<Said>
    ensures said { result ≡ beat_row (words rest.now) }
    ensures range { IfSome result InRange }
{
    let (name, seq) = name_and_number(rest)?;
    Some(Said::Request(name, Asked::Beat(seq)))
}

fn down_row(rest: &[u8]) -> Option<Said>
    ensures said { result ≡ down_row (words rest.now) }
    ensures range { IfSome result InRange }
{
    let (name, flags) = name_and_number(rest)?;
    Some(Said::Request(name, Asked::Down(within(0, u32::MAX, flags))))
}

fn plain_command(ask: DiskAsk, rest: &[u8]) -> Option<Said>
    requires { AskInRange ask }
    ensures said { result ≡ plain_command ask (words rest.now) }
    ensures range { IfSome result InRange }
{
    let name = name_alone(rest)?;
    Some(Said::Request(name, Asked::Command(ask)))
}

fn read_row(rest: &[u8]) -> Option<Said>
    ensures said { result ≡ read_row (words rest.now) }
    ensures range { IfSome result InRange }
{
    let (name, lba, count) = name_and_two(rest)?;
    let ask = DiskAsk::Read {
        lba,
        count: within(0, 8, count),
    };
    Some(Said::Request(name, Asked::Command(ask)))
}

fn write_of(name: &[u8], lba: &[u8], count: &[u8], byte: &[u8]) -> Option<Said>
    ensures said { result ≡ write_row (name.now ∷ lba.now ∷ count.now ∷ byte.now ∷ []) }
    ensures range { IfSome result InRange }
{
    if is_name(name) && is_decimal(lba) && is_decimal(count) && is_byte(byte) {
        let ask = DiskAsk::Write {
            lba: number_of(lba),
            count: within(0, 8, number_of(count)),
            byte: byte_of(byte),
        };
        Some(Said::Request(Name::of(name), Asked::Command(ask)))
    } else {
        None
    }
}

fn write_row(rest: &[u8]) -> Option<Said>
    ensures said { result ≡ write_row (words rest.now) }
    ensures range { IfSome result InRange }
{
    let (name, rest) = first_word(rest)?;
    let (lba, rest) = first_word(rest)?;
    let (count, rest) = first_word(rest)?;
    let (byte, rest) = first_word(rest)?;
    match first_word(rest) {
        None => write_of(name, lba, count, byte),
        Some(_) => None,
    }
}

fn message(name: &[u8], message: Option<Rndis>) -> Said
    requires name { is_name name.now ≡ true }
    requires sent { IfSome message IsSent }
    ensures said { result ≡ Said.Request name.now (Asked.Message message) }
    ensures range { InRange result }
{
    Said::Request(Name::of(name), Asked::Message(message))
}

fn plain_message(message: Rndis, rest: &[u8]) -> Option<Said>
    requires { IsSent message }
    ensures said { result ≡ plain_message message (words rest.now) }
    ensures range { IfSome result InRange }
{
    let name = name_alone(rest)?;
    Some(Said::Request(name, Asked::Message(Some(message))))
}

fn query_row(rest: &[u8]) -> Option<Said>
    ensures said { result ≡ query_row (words rest.now) }
    ensures range { IfSome result InRange }
{
    let (name, rest) = first_word(rest)?;
    let (oid, rest) = first_word(rest)?;
    match first_word(rest) {
        None if is_name(name) && is_oid(oid) => Some(message(name, Some(query_of(oid)))),
        None => None,
        Some(_) => None,
    }
}

fn set_row(rest: &[u8]) -> Option<Said>
    ensures said { result ≡ set_row (words rest.now) }
    ensures range { IfSome result InRange }
{
    let (name, rest) = first_word(rest)?;
    let (oid, rest) = first_word(rest)?;
    let (value, rest) = first_word(rest)?;
    match first_word(rest) {
        None if is_name(name) && is_oid(oid) && are_bytes(value) => {
            Some(message(name, set_of(oid, value)))
        }
        None => None,
        Some(_) => None,
    }
}

fn frame_row(rest: &[u8]) -> Option<Said>
    ensures said { result ≡ frame_row (words rest.now) }
    ensures range { IfSome result InRange }
{
    let (name, rest) = first_word(rest)?;
    let (frame, rest) = first_word(rest)?;
    match first_word(rest) {
        None if is_name(name) && are_bytes(frame) => Some(message(name, frame_of(frame))),
        None => None,
        Some(_) => None,
    }
}

/// `NAME` and an operation on its pairs.
fn pair_row(rest: &[u8]) -> Option<Said>
    ensures said { result ≡ pair_row (words rest.now) }
    ensures range { IfSome result InRange }
{
    let (name, rest) = first_word(rest)?;
    let (operation, rest) = first_word(rest)?;
    if is_name(name) {
        let request = operation_row(operation, rest)?;
        Some(Said::Request(Name::of(name), Asked::Pair(request)))
    } else {
        None
    }
}

/// Whether the last answer is held: nothing, or the word `held`, stands behind the number.
fn held_row(rest: &[u8]) -> Option<bool>
    ensures { result ≡ held_row (words rest.now) }
{
    match first_word(rest) {
        None => Some(false),
        Some((word, rest)) => match first_word(rest) {
            None if word == b"held".as_slice() => Some(true),
            None => None,
            Some(_) => None,
        },
    }
}

/// How many requests a channel serves: 0 to 4,096, and 1 at least where the last answer is held.
fn after_in(held: bool, number: Option<u64>) -> Option<u32>
    ensures after { result ≡ after_in held number }
    ensures range { IfSome result (λ n. (n ≤ 4096) × (held ≡ true → 1 ≤ n)) }
{
    if held {
        within(1, 4096, number)
    } else {
        within(0, 4096, number)
    }
}

fn rescind_row(rest: &[u8]) -> Option<Said>
    ensures said { result ≡ rescind_row (words rest.now) }
    ensures range { IfSome result InRange }
{
    let (name, rest) = first_word(rest)?;
    let (word, rest) = first_word(rest)?;
    let (number, rest) = first_word(rest)?;
    if is_name(name) && word == b"after".as_slice() && is_decimal(number) {
        let held = held_row(rest)?;
        let after = after_in(held, number_of(number));
        Some(Said::Rescind(Name::of(name), after, held))
    } else {
        None
    }
}

fn close_row(rest: &[u8]) -> Option<Said>
    ensures said { result ≡ close_row (words rest.now) }
    ensures range { IfSome result InRange }
{
    let name = name_alone(rest)?;
    Some(Said::Close(name))
}

/// `VP` is 0 to 63.
fn modify_row(rest: &[u8]) -> Option<Said>
    ensures said { result ≡ modify_row (words rest.now) }
    ensures range { IfSome result InRange }
{
    let (name, vp) = name_and_number(rest)?;
    Some(Said::Modify(name, within(0, 63, vp)))
}

fn phase_row(rest: &[u8]) -> Option<Said>
    ensures said { result ≡ phase_row (words rest.now) }
    ensures range { IfSome result InRange }
{
    match first_word(rest) {
        None => Some(Said::Phase),
        Some(_) => None,
    }
}
