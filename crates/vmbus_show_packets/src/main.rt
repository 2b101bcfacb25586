//! The program that shows the packets of a run: a script on standard input, and each packet of each channel on standard output, in words, or with the word `pcap` for text2pcap.
#![tactic(auto)]

ghost use Rattle.std.specs.Prelude.{◌≡◌, IfOk};
ghost use Rattle.packet_text.specs.Lines.{packets_text};

use io_edge::{NoGate, Source, StdSink, StdSource, SureSink, write_all};
use packet_text::{Form, packets_text};
use std::alloc::{AllocError, Global};
use std::env;
use std::io::writer;
use std::process::ExitCode;
use std::sync::Wait;
use std::thread::Threads;
use vmbus_main::{Outcome, vmbus};

/// Says why nothing was shown.
fn ends(rt: &HostRuntime, why: &str, status: u8) -> ExitCode {
    // A message that can't be written changes no status.
    let _ = eprintln!(rt; "{why}");
    ExitCode::from(status)
}

/// How packets are written, by the words behind the program's name; none where they are others.
fn form(rt: &HostRuntime) -> Option<Form> {
    let mut words = env::args(rt).ok()?;
    let _ = words.next();
    match words.next() {
        None => Some(Form::Words),
        Some(word) if word.as_str() == "pcap" && words.next().is_none() => Some(Form::Dump),
        Some(_) => None,
    }
}

/// Runs a script: what it came to, and its packets as text. The report is dropped; where nothing ran there are no packets.
fn packets_of<R: Threads + Wait + Sync, S: Source>(
    rt: &R,
    alloc: Global,
    source: &mut S,
    form: Form,
) -> Result<(Outcome, Vec<u8>), AllocError>
    ensures { IfOk result (λ r. r.1.items ≡ packets_text form r.0.settled.items) }
{
    let words = [b"run".to_vec(alloc)?];
    let mut report = SureSink::make(alloc, 67_108_864)?;
    let outcome = vmbus(rt, alloc, &words, source, &mut report, &NoGate);
    let text = packets_text(alloc, form, &outcome.settled)?;
    Ok((outcome, text))
}

/// Writes the packets of a run, or says why nothing ran.
fn show(rt: &HostRuntime, outcome: &Outcome, text: &[u8]) -> ExitCode {
    match outcome.status {
        0 => {
            let mut sink = StdSink::make(writer(rt));
            match write_all(&mut sink, text) {
                Ok(()) => ExitCode::from(0),
                Err(_) => ends(rt, "write fault", 4),
            }
        }
        3 => ends(rt, "read fault", 3),
        5 => ends(rt, "want of memory", 5),
        status => {
            if let Some(fault) = &outcome.fault {
                let _ = eprintln!(rt; "{fault}");
            }
            ExitCode::from(status)
        }
    }
}

fn main(rt: HostRuntime) -> ExitCode {
    let Some(form) = form(&rt) else {
        return ends(&rt, "usage: packets [pcap] < SCRIPT", 1);
    };
    let mut source = StdSource::make(rt.reader());
    match packets_of(&rt, rt.alloc(), &mut source, form) {
        Ok((outcome, text)) => show(&rt, &outcome, &text),
        Err(_) => ends(&rt, "want of memory", 5),
    }
}
