//! The program that says why a script is refused: a script on standard input, and what is said of it on standard output.
#![tactic(auto)]

use io_edge::{ReadFault, StdSink, StdSource, read_all, write_all};
use script_explain::explain;
use std::env;
use std::io::writer;
use std::process::ExitCode;

const MOST_BYTES: usize = 1_048_576;

/// Says why nothing was said.
fn ends(rt: &HostRuntime, why: &str, status: u8) -> ExitCode {
    // A message that can't be written changes no status.
    let _ = eprintln!(rt; "{why}");
    ExitCode::from(status)
}

/// Whether the program has words behind its name, or they can't be read.
fn has_words(rt: &HostRuntime) -> bool {
    match env::args(rt) {
        Ok(mut words) => {
            let _ = words.next();
            words.next().is_some()
        }
        Err(_) => true,
    }
}

fn main(rt: HostRuntime) -> ExitCode {
    if has_words(&rt) {
        return ends(&rt, "usage: explain < SCRIPT", 1);
    }
    let alloc = rt.alloc();
    let mut source = StdSource::make(rt.reader());
    let script = match read_all(alloc, &mut source, MOST_BYTES) {
        Ok(script) => script,
        Err(ReadFault::Limit) => return ends(&rt, "script line 0: Limit", 2),
        Err(ReadFault::Fault) => return ends(&rt, "read fault", 3),
        Err(ReadFault::Memory) => return ends(&rt, "want of memory", 5),
    };
    let said = match explain(alloc, &script) {
        Ok(said) => said,
        Err(_) => return ends(&rt, "want of memory", 5),
    };
    let mut sink = StdSink::make(writer(&rt));
    match write_all(&mut sink, &said.text) {
        Ok(()) => ExitCode::from(if said.refused { 2 } else { 0 }),
        Err(_) => ends(&rt, "write fault", 4),
    }
}
