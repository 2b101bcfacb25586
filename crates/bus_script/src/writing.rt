//! The report of a run, written as bytes.
ghost use Rattle.std.specs.Prelude.{◌≡◌, ◌<◌, ◌≤◌, ◌++◌, ◌+◌, ◌*◌, length, IfOk, OnOk, count_by, vec_len, codes, cond, false};
ghost use Rattle.std.specs.Fmt.{decimal};
ghost use Rattle.contact.specs.Versions.{IsVersion};
ghost use Rattle.script_lines.specs.Parts.{is_ask};
ghost use Rattle.script_text.specs.Hex.{hex_short};
ghost use Rattle.script_text.specs.Runs.{runs_of};
ghost use Rattle.rndis_msg.specs.Messages.{body_of};
ghost use Rattle.bus_script.specs.Report.{Answers, versions_from, last_or, tried, version_text, versions_text, contact_text, good_text, disk_text, disk_runs, answer_text, bytes_text, status_text, completion_text, back_text, net_text, net_runs, reply_text, reply_room, result_room, room_back, ask_text, agreed_text, modified_text, outcome_text, line_text, end_text, report_of, tells, HasVersion, most_text, is_done, is_rescinded};

use crate::{LineResult, Reply};
use contact::{Version, next_version};
use kvp_lines::push_pair;
use rndis_msg::Rndis;
use script_lines::{Ask, Line, Script, What};
use script_text::{hex_2, hex_8, push_decimal, push_runs};
use scsi_disk::DiskReply;
use std::alloc::{AllocError, Global};
use util_ic::{IcAnswer, IcAsk};

/// The text of a run's outcomes: for each contact, request and modify its line's number and its
/// outcome, in order of the lines, and then how many requests there were, how many are done and
/// how many were rescinded. An outcome that is none of its line has no text.
pub fn report(alloc: Global, script: &Script, results: &[LineResult]) -> Result<Vec<u8>, AllocError>
    requires { Answers script.now results.now }
    ensures text { IfOk result (λ bytes. bytes.items ≡ report_of script.now results.now) }
    ensures short { IfOk result (λ bytes. length bytes.items ≤ 12000000 + room_back results.now) }
{
    let mut text = Vec::new(alloc);
    let mut at = 0;
    let mut asks = 0;
    for line in script.lines() {
        if tells(&line.what) {
            push_line(&mut text, line, &results[at])?;
            at += 1;
        }
        asks += count_ask(&line.what);
    }
    push_end(&mut text, asks, results)?;
    Ok(text)
}

/// Whether a line prints: a contact, a request or a modify.
fn tells(what: &What) -> bool
    ensures { result ≡ tells what.now }
{
    matches!(
        what,
        What::Contact { .. } | What::Ask { .. } | What::Modify { .. }
    )
}

fn count_ask(what: &What) -> u64
    ensures count { result ≡ cond (is_ask what.now) 1 0 }
    ensures most { result ≤ 1 }
{
    match what {
        What::Ask { .. } => 1,
        _ => 0,
    }
}

/// A good reply, with the bytes that came back if any did.
fn push_good(text: &mut Vec<u8>, back: &[u8]) -> Result<(), AllocError>
    ensures text { OnOk result (text.new.items ≡ text.old.items ++ good_text back.now) }
    ensures short { OnOk result (vec_len text.new ≤ vec_len text.old + 5 + 24 * length (runs_of back.now)) }
{
    text.extend_from_slice(b"good")?;
    if !back.is_empty() {
        text.extend_from_slice(b" ")?;
        push_runs(text, back)?;
    }
    Ok(())
}

fn push_short(text: &mut Vec<u8>, byte: u8) -> Result<(), AllocError>
    ensures text { OnOk result (text.new.items ≡ text.old.items ++ hex_short byte) }
    ensures short { OnOk result (vec_len text.new ≤ vec_len text.old + 2) }
{
    let [high, low] = hex_2(byte);
    if byte >= 16 {
        text.push(high)?;
    }
    text.push(low)?;
    Ok(())
}

/// A check's sense key, code and qualifier.
fn push_check(text: &mut Vec<u8>, key: u8, asc: u8, ascq: u8) -> Result<(), AllocError>
    ensures text { OnOk result (text.new.items ≡ text.old.items ++ disk_text (DiskReply.Check key asc ascq)) }
    ensures short { OnOk result (vec_len text.new ≤ vec_len text.old + 14) }
{
    text.extend_from_slice(b"check ")?;
    push_short(text, key)?;
    text.extend_from_slice(b"/")?;
    text.extend_from_slice(&hex_2(asc))?;
    text.extend_from_slice(b"/")?;
    text.extend_from_slice(&hex_2(ascq))?;
    Ok(())
}

/// A disk's reply.
fn push_disk(text: &mut Vec<u8>, reply: &DiskReply) -> Result<(), AllocError>
    ensures text { OnOk result (text.new.items ≡ text.old.items ++ disk_text reply.now) }
    ensures short { OnOk result (vec_len text.new ≤ vec_len text.old + 14 + 24 * disk_runs reply.now) }
{
    match reply {
        DiskReply::Good(back) => push_good(text, back.bytes()),
        DiskReply::Check { key, asc, ascq } => push_check(text, *key, *asc, *ascq),
    }
}

/// A utility service's answer.
fn push_answer(text: &mut Vec<u8>, ask: &IcAsk, answer: &IcAnswer) -> Result<(), AllocError>
    ensures text { OnOk result (text.new.items ≡ text.old.items ++ answer_text ask.now answer.now) }
    ensures short { OnOk result (vec_len text.new ≤ vec_len text.old + 24) }
{
    match ask {
        IcAsk::Beat { .. } => {
            text.extend_from_slice(b"seq ")?;
            push_decimal(text, answer.seq)?;
        }
        IcAsk::Down { .. } => {
            text.extend_from_slice(b"status 0x")?;
            text.extend_from_slice(&hex_8(answer.status))?;
        }
    }
    Ok(())
}

/// Bytes behind a space, if there are any.
fn push_bytes(text: &mut Vec<u8>, bytes: &[u8]) -> Result<(), AllocError>
    ensures text { OnOk result (text.new.items ≡ text.old.items ++ bytes_text bytes.now) }
    ensures short { OnOk result (vec_len text.new ≤ vec_len text.old + 1 + 24 * length (runs_of bytes.now)) }
{
    if !bytes.is_empty() {
        text.extend_from_slice(b" ")?;
        push_runs(text, bytes)?;
    }
    Ok(())
}

fn push_status(text: &mut Vec<u8>, status: u32) -> Result<(), AllocError>
    ensures text { OnOk result (text.new.items ≡ text.old.items ++ status_text status) }
    ensures short { OnOk result (vec_len text.new ≤ vec_len text.old + 17) }
{
    text.extend_from_slice(b"status 0x")?;
    text.extend_from_slice(&hex_8(status))?;
    Ok(())
}

/// The status of a completion that came back, and its bytes.
fn push_completion(text: &mut Vec<u8>, back: &Rndis) -> Result<(), AllocError>
    ensures text { OnOk result (text.new.items ≡ text.old.items ++ completion_text back.now) }
    ensures short { OnOk result (vec_len text.new ≤ vec_len text.old + 18 + 24 * length (runs_of (body_of back.now))) }
{
    match back {
        Rndis::QueryComplete { status, body, .. } => {
            push_status(text, *status)?;
            push_bytes(text, body.bytes())
        }
        Rndis::SetComplete { status, .. }
        | Rndis::ResetComplete { status, .. }
        | Rndis::KeepaliveComplete { status, .. } => push_status(text, *status),
        _ => Ok(()),
    }
}

/// The length and the bytes of a frame that came back, if one did.
fn push_back(text: &mut Vec<u8>, back: &Option<Rndis>) -> Result<(), AllocError>
    ensures text { OnOk result (text.new.items ≡ text.old.items ++ back_text back.now) }
    ensures short { OnOk result (vec_len text.new ≤ vec_len text.old + 27 + 24 * net_runs back.now) }
{
    match back {
        Some(Rndis::Packet { body }) => {
            let frame = body.bytes();
            text.extend_from_slice(b" back ")?;
            push_decimal(text, frame.len() as u64)?;
            push_bytes(text, frame)
        }
        _ => Ok(()),
    }
}

/// What came back of a message.
fn push_net(text: &mut Vec<u8>, message: &Rndis, back: &Option<Rndis>) -> Result<(), AllocError>
    ensures text { OnOk result (text.new.items ≡ text.old.items ++ net_text message.now back.now) }
    ensures short { OnOk result (vec_len text.new ≤ vec_len text.old + 31 + 24 * net_runs back.now) }
{
    match (message, back) {
        (Rndis::Packet { .. }, _) => {
            text.extend_from_slice(b"sent")?;
            push_back(text, back)
        }
        (_, Some(back)) => push_completion(text, back),
        (_, None) => Ok(()),
    }
}

/// A reply to a request. One of another kind of device has no text.
fn push_reply(text: &mut Vec<u8>, ask: &Ask, reply: &Reply) -> Result<(), AllocError>
    ensures text { OnOk result (text.new.items ≡ text.old.items ++ reply_text ask.now reply.now) }
    ensures short { OnOk result (vec_len text.new ≤ vec_len text.old + 31 + reply_room reply.now) }
{
    match (ask, reply) {
        (Ask::Ic(ask), Reply::Ic(answer)) => push_answer(text, ask, answer),
        (Ask::Disk(_), Reply::Disk(reply)) => push_disk(text, reply),
        (Ask::Net(message), Reply::Net { back, .. }) => push_net(text, message, back),
        (Ask::Kvp(_), Reply::Kvp(reply)) => push_pair(text, reply),
        (_, _) => Ok(()),
    }
}

fn push_done(text: &mut Vec<u8>, serial: u32, ask: &Ask, reply: &Reply) -> Result<(), AllocError>
    ensures text { OnOk result (text.new.items ≡ text.old.items ++ ask_text ask.now (LineResult.Done serial reply.now)) }
    ensures short { OnOk result (vec_len text.new ≤ vec_len text.old + 58 + reply_room reply.now) }
{
    text.extend_from_slice(b"done @")?;
    push_decimal(text, serial as u64)?;
    text.extend_from_slice(b" ")?;
    push_reply(text, ask, reply)?;
    Ok(())
}

fn push_rescinded(text: &mut Vec<u8>, serial: u32) -> Result<(), AllocError>
    ensures text { OnOk result (text.new.items ≡ text.old.items ++ (codes "rescinded @" ++ decimal serial)) }
    ensures short { OnOk result (vec_len text.new ≤ vec_len text.old + 31) }
{
    text.extend_from_slice(b"rescinded @")?;
    push_decimal(text, serial as u64)?;
    Ok(())
}

/// The last version that a guest tries, where it tries this many, or none.
fn last_tried(guest: Version, count: u32) -> Version
    requires { IsVersion guest.0 }
    ensures { result.0 ≡ last_or 0 (tried guest.0 count) }
{
    let mut last = Version(0);
    let mut next = Some(guest);
    for _ in 0..count {
        match next {
            Some(version) => {
                last = version;
                next = next_version(version);
            }
            None => return last,
        }
    }
    last
}

fn push_version(text: &mut Vec<u8>, version: Version) -> Result<(), AllocError>
    ensures text { OnOk result (text.new.items ≡ text.old.items ++ version_text version.0) }
    ensures short { OnOk result (vec_len text.new ≤ vec_len text.old + 41) }
{
    push_decimal(text, (version.0 / 0x1_0000) as u64)?;
    text.extend_from_slice(b".")?;
    push_decimal(text, (version.0 % 0x1_0000) as u64)?;
    Ok(())
}

fn push_tried(text: &mut Vec<u8>, guest: Version, count: u32) -> Result<(), AllocError>
    requires { IsVersion guest.0 }
    ensures text { OnOk result (text.new.items ≡ text.old.items ++ versions_text (tried guest.0 count)) }
    ensures short { OnOk result (vec_len text.new ≤ vec_len text.old + 42 * length (versions_from guest.0)) }
{
    let mut next = Some(guest);
    for _ in 0..count {
        match next {
            Some(version) => {
                text.extend_from_slice(b" ")?;
                push_version(text, version)?;
                next = next_version(version);
            }
            None => return Ok(()),
        }
    }
    Ok(())
}

fn push_contact(text: &mut Vec<u8>, guest: Version, count: u32) -> Result<(), AllocError>
    requires { IsVersion guest.0 }
    ensures text { OnOk result (text.new.items ≡ text.old.items ++ contact_text guest.0 count) }
    ensures short { OnOk result (vec_len text.new ≤ vec_len text.old + 55 + 42 * length (versions_from guest.0)) }
{
    text.extend_from_slice(b"version ")?;
    push_version(text, last_tried(guest, count))?;
    text.extend_from_slice(b" tried")?;
    push_tried(text, guest, count)?;
    Ok(())
}

fn push_asked(text: &mut Vec<u8>, ask: &Ask, outcome: &LineResult) -> Result<(), AllocError>
    ensures text { OnOk result (text.new.items ≡ text.old.items ++ ask_text ask.now outcome.now) }
    ensures short { OnOk result (vec_len text.new ≤ vec_len text.old + 58 + result_room outcome.now) }
{
    match outcome {
        LineResult::Version { .. } | LineResult::Modified { .. } | LineResult::Unsupported => {}
        LineResult::Done { serial, reply } => push_done(text, *serial, ask, reply)?,
        LineResult::RescindedServed { serial } => push_rescinded(text, *serial)?,
        LineResult::Unserved => text.extend_from_slice(b"rescinded unserved")?,
        LineResult::Gone => text.extend_from_slice(b"gone")?,
        LineResult::Closed => text.extend_from_slice(b"closed")?,
    }
    Ok(())
}

fn push_agreed(text: &mut Vec<u8>, guest: Version, outcome: &LineResult) -> Result<(), AllocError>
    requires { IsVersion guest.0 }
    ensures text { OnOk result (text.new.items ≡ text.old.items ++ agreed_text guest outcome.now) }
    ensures short { OnOk result (vec_len text.new ≤ vec_len text.old + 55 + 42 * length (versions_from guest.0)) }
{
    match outcome {
        LineResult::Version { tried } => push_contact(text, guest, *tried)?,
        _ => {}
    }
    Ok(())
}

fn push_moved(text: &mut Vec<u8>, vp: u32) -> Result<(), AllocError>
    ensures text { OnOk result (text.new.items ≡ text.old.items ++ (codes "modified " ++ decimal vp)) }
    ensures short { OnOk result (vec_len text.new ≤ vec_len text.old + 29) }
{
    text.extend_from_slice(b"modified ")?;
    push_decimal(text, vp as u64)?;
    Ok(())
}

fn push_unanswered(text: &mut Vec<u8>, vp: u32) -> Result<(), AllocError>
    ensures text { OnOk result (text.new.items ≡ text.old.items ++ modified_text (LineResult.Modified vp false)) }
    ensures short { OnOk result (vec_len text.new ≤ vec_len text.old + 40) }
{
    push_moved(text, vp)?;
    text.extend_from_slice(b" unanswered")?;
    Ok(())
}

/// How a modify ended: below 5.3 the host leaves it unanswered, and below 4.1 there is none.
fn push_modified(text: &mut Vec<u8>, outcome: &LineResult) -> Result<(), AllocError>
    ensures text { OnOk result (text.new.items ≡ text.old.items ++ modified_text outcome.now) }
    ensures short { OnOk result (vec_len text.new ≤ vec_len text.old + 40) }
{
    match outcome {
        LineResult::Modified { vp, answered: true } => push_moved(text, *vp)?,
        LineResult::Modified {
            vp,
            answered: false,
        } => push_unanswered(text, *vp)?,
        LineResult::Unsupported => text.extend_from_slice(b"modify unsupported")?,
        LineResult::Gone => text.extend_from_slice(b"gone")?,
        LineResult::Closed => text.extend_from_slice(b"closed")?,
        _ => {}
    }
    Ok(())
}

fn push_outcome(text: &mut Vec<u8>, what: &What, outcome: &LineResult) -> Result<(), AllocError>
    requires { HasVersion what.now }
    ensures text { OnOk result (text.new.items ≡ text.old.items ++ outcome_text what.now outcome.now) }
    ensures short { OnOk result (vec_len text.new ≤ vec_len text.old + most_text what.now + result_room outcome.now) }
{
    match what {
        What::Contact { guest, .. } => push_agreed(text, *guest, outcome)?,
        What::Ask { ask, .. } => push_asked(text, ask, outcome)?,
        What::Modify { .. } => push_modified(text, outcome)?,
        _ => {}
    }
    Ok(())
}

fn push_line(text: &mut Vec<u8>, line: &Line, outcome: &LineResult) -> Result<(), AllocError>
    requires { HasVersion line.now.what }
    ensures text { OnOk result (text.new.items ≡ text.old.items ++ line_text line.now outcome.now) }
    ensures short { OnOk result (vec_len text.new ≤ vec_len text.old + 22 + most_text line.now.what + result_room outcome.now) }
{
    push_decimal(text, line.number as u64)?;
    text.extend_from_slice(b" ")?;
    push_outcome(text, &line.what, outcome)?;
    text.extend_from_slice(b"\n")?;
    Ok(())
}

fn is_done(outcome: &LineResult) -> bool
    ensures { result ≡ is_done outcome.now }
{
    matches!(outcome, LineResult::Done { .. })
}

fn is_rescinded(outcome: &LineResult) -> bool
    ensures { result ≡ is_rescinded outcome.now }
{
    matches!(
        outcome,
        LineResult::RescindedServed { .. } | LineResult::Unserved
    )
}

fn count_done(results: &[LineResult]) -> usize
    ensures { result ≡ count_by is_done results.now }
{
    results.iter().filter(|r| is_done(r)).count()
}

fn count_rescinded(results: &[LineResult]) -> usize
    ensures { result ≡ count_by is_rescinded results.now }
{
    results.iter().filter(|r| is_rescinded(r)).count()
}

fn push_end(text: &mut Vec<u8>, asks: u64, results: &[LineResult]) -> Result<(), AllocError>
    ensures text { OnOk result (text.new.items ≡ text.old.items ++ end_text asks (count_by is_done results.now) (count_by is_rescinded results.now)) }
    ensures short { OnOk result (vec_len text.new ≤ vec_len text.old + 91) }
{
    let done = count_done(results);
    let rescinded = count_rescinded(results);
    text.extend_from_slice(b"end requests ")?;
    push_decimal(text, asks)?;
    text.extend_from_slice(b" done ")?;
    push_decimal(text, done as u64)?;
    text.extend_from_slice(b" rescinded ")?;
    push_decimal(text, rescinded as u64)?;
    text.extend_from_slice(b"\n")?;
    Ok(())
}
