//! The program: the words of the command line, standard input and standard output.
#![tactic(auto)]

use io_edge::{NoGate, StdSink, StdSource};
use std::io::writer;
use std::process::ExitCode;
use std::{env, io};
use vmbus_main::{Outcome, vmbus};

const USAGE: &str = "usage: vmbus run | load SEED COUNT | decode | hostile | sock PORT | trace";

/// The program's words without its own name; none where they are no text.
fn words(rt: &HostRuntime) -> io::Result<Vec<Vec<u8>>> {
    let alloc = rt.alloc();
    let mut words = Vec::new(alloc);
    for word in env::args(rt)?.skip(1) {
        words.push(word.into_bytes())?;
    }
    Ok(words)
}

/// Says on standard error why nothing or not all was written.
fn explain(rt: &HostRuntime, outcome: &Outcome) -> io::Result<()> {
    match outcome.status {
        1 => eprintln!(rt; "{USAGE}"),
        3 => eprintln!(rt; "read fault"),
        4 => eprintln!(rt; "write fault"),
        5 => eprintln!(rt; "want of memory"),
        _ => match &outcome.fault {
            Some(fault) => eprintln!(rt; "{fault}"),
            None => Ok(()),
        },
    }
}

fn main(rt: HostRuntime) -> ExitCode {
    let alloc = rt.alloc();
    let words = match words(&rt) {
        Ok(words) => words,
        Err(error) if error.kind() == io::ErrorKind::OutOfMemory => {
            let _ = eprintln!(rt; "want of memory");
            return ExitCode::from(5);
        }
        // Words that are no text are no command.
        Err(_) => Vec::new(alloc),
    };
    let mut source = StdSource::make(rt.reader());
    let mut sink = StdSink::make(writer(&rt));
    let outcome = vmbus(&rt, alloc, &words, &mut source, &mut sink, &NoGate);
    // A message that can't be written changes no status.
    let _ = explain(&rt, &outcome);
    ExitCode::from(outcome.status)
}
