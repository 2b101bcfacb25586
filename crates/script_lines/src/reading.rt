//! A script, read from its bytes.
ghost use Rattle.std.specs.Prelude.{◌≡◌, ◌+◌, ◌<◌, ◌≤◌, ◌++◌, length, Option, Some, None, OnOk, IfErr, IfSome, unwrap_or};
ghost use Rattle.script_text.specs.declared.fault.ParseFault.TheVariants.{Memory};
ghost use Rattle.script_lines.specs.Parts.{offered};
ghost use Rattle.script_lines.specs.Faults.{device_said, row_fault, fault_at};
ghost use Rattle.script_lines.specs.Grammar.{or_zero, spec_of, ask_of, numbered, what_of, lines_at, script_of};
ghost use Rattle.script_lines.specs.WellFormed.{AskedInRange, InRange};
ghost use Rattle.script_lines.specs.Parse.{Parses, WrongAt};

use crate::asked::Asked;
use crate::draft::Draft;
use crate::offering::Offering;
use crate::refusal::{device_said, row_fault};
use crate::request::request_of;
use crate::row::said_in;
use crate::said::Said;
use crate::{Ask, DeviceSpec, Script};
use contact::Version;
use kvp_ic::Kvp;
use rndis_msg::Rndis;
use script_text::{ParseFault, ScriptFault, Why6, first_line, within};
use std::alloc::Global;
use util_ic::IcAsk;

/// Reads a script, or finds its first wrong line and the first reason against it. `Form`: its
/// words are no row of the table of lines, or a word has not its form. `Limit`: it is line 20,001,
/// the 4,097th request of its phase, or the offer of a 17th channel. `Order`: it is a line of
/// settings behind one of another kind, a `contact` behind another line, or rescinds or closes what
/// an earlier phase rescinded or closed. `UnknownName`: its name was not offered before, or not as
/// the kind of device that it takes. `Repeat`: it says what stands before already. `Range`: a value
/// of it is out of range. The reasons come in this order. It answers `Memory` for want of memory
/// alone.
pub fn parse(alloc: Global, bytes: &[u8]) -> Result<Script, ParseFault>
    ensures { Parses (script_of bytes.now) result }
{
    let mut draft = Draft::make(alloc);
    let mut rest = bytes;
    let mut number: u32 = 1;
    while let Some((line, after)) = first_line(rest) {
        read_line(&mut draft, number, line)?;
        number += 1;
        rest = after;
    }
    Ok(Script::of(draft.lines()))
}

/// Adds a line to those before it, where nothing stands against it.
fn read_line(draft: &mut Draft, number: u32, line: &[u8]) -> Result<(), ParseFault>
    requires { length draft.old < number }
    ensures right { OnOk result (fault_at number draft.old line.now ≡ None) }
    ensures within { OnOk result (number ≤ 20000) }
    ensures ok { OnOk result (draft.new ≡ draft.old ++ lines_at number draft.old line.now) }
    ensures err { IfErr result (WrongAt number draft.old line.now) }
{
    let Some(said) = said_in(line) else {
        return Err(wrong(number, Why6::Form));
    };
    let device = device_said(draft, &said);
    match row_fault(number, draft, device, &said) {
        Some(why) => return Err(wrong(number, why)),
        None => {}
    }
    push(draft, number, device, said)
}

fn wrong(line: u32, why: Why6) -> ParseFault
    ensures { result ≡ ParseFault.Script (record { line = line; why = why }) }
{
    ParseFault::Script(ScriptFault { line, why })
}

/// Adds what a line says of this device, against which nothing stands.
fn push(draft: &mut Draft, number: u32, device: Option<u32>, said: Said) -> Result<(), ParseFault>
    requires device { device ≡ device_said draft.old said }
    requires within { IfSome device (λ d. d < length (offered draft.old)) }
    requires right { row_fault number draft.old device said ≡ None }
    requires behind { length draft.old < number }
    requires range { InRange said }
    ensures within { OnOk result (number ≤ 20000) }
    ensures ok { OnOk result (draft.new ≡ draft.old ++ numbered number (what_of device said)) }
    ensures err { IfErr result (λ e. e ≡ Memory) }
{
    let device = device.unwrap_or(0);
    match said {
        Said::Nothing => Ok(()),
        Said::Contact(guest, host) => { draft.push_contact(number, or_zero(guest), or_zero(host)) }
        Said::Offer(name, offering) => draft.push_offer(number, name, spec_of(offering)),
        Said::Bad(_, lba) => draft.push_bad(number, device, lba.unwrap_or(0)),
        Said::Ring(_, pages) => draft.push_ring(number, device, pages.unwrap_or(0)),
        Said::Window(_, size) => draft.push_window(number, device, size.unwrap_or(0)),
        Said::Request(_, asked) => draft.push_ask(number, device, ask_of(asked)),
        Said::Rescind(_, after, held) => {
            draft.push_rescind(number, device, after.unwrap_or(0), held)
        }
        Said::Close(_) => draft.push_shut(number, device),
        Said::Modify(_, vp) => draft.push_modify(number, device, vp.unwrap_or(0)),
        Said::Phase => draft.push_phase(number),
    }
}

fn or_zero(version: Option<Version>) -> Version
    ensures { result ≡ or_zero version }
{
    version.unwrap_or(Version(0))
}

/// The device that is offered.
fn spec_of(offering: Offering) -> DeviceSpec
    ensures { result ≡ spec_of offering }
{
    match offering {
        Offering::Disk { blocks, subs } => DeviceSpec::Disk {
            blocks: blocks.unwrap_or(0),
            subs: within(0, 3, subs).unwrap_or(0),
        },
        Offering::Plain(spec) => spec,
    }
}

/// The request that a line makes.
fn ask_of(asked: Asked) -> Ask
    requires { AskedInRange asked }
    ensures { result ≡ ask_of asked }
{
    match asked {
        Asked::Beat(seq) => beat(seq),
        Asked::Down(flags) => down(flags),
        Asked::Command(ask) => Ask::Disk(request_of(ask)),
        Asked::Message(message) => Ask::Net(message.unwrap_or(Rndis::Reset)),
        Asked::Pair(request) => Ask::Kvp(request.unwrap_or(Kvp::Enum { pool: 0, index: 0 })),
    }
}

fn beat(seq: Option<u64>) -> Ask
    ensures { result ≡ Ask.Ic (IcAsk.Beat (unwrap_or seq 0)) }
{
    Ask::Ic(IcAsk::Beat {
        seq: seq.unwrap_or(0),
    })
}

fn down(flags: Option<u32>) -> Ask
    ensures { result ≡ Ask.Ic (IcAsk.Down 0 0 (unwrap_or flags 0)) }
{
    Ask::Ic(IcAsk::Down {
        reason: 0,
        timeout: 0,
        flags: flags.unwrap_or(0),
    })
}
