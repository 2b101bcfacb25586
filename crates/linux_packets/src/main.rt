//! Packets of a ring and storage packets as Linux's structures lay them out. Each line of the input has a packet's name, its bytes in hexadecimal digits, and what it is, with tabs between them. A packet of a ring is built again. A storage packet is read and written again, and the answer to a request of the start-up is compared with the next line. It writes what each line came to.
#![tactic(auto)]

mod built;
mod came;
mod ranged;
mod stored;

use built::built;
use came::Came;
use io_edge::{StdSource, read_all};
use ranged::{gpa, xfer};
use std::io;
use std::rt::Runtime;
use stored::Storage;

// How many bytes the input has at most.
const MOST: usize = 1_048_576;

// The three parts of a line.
fn parts(line: &str) -> Option<(&str, &str, &str)> {
    let (name, rest) = line.split_once('\t')?;
    let (digits, meaning) = rest.split_once('\t')?;
    Some((name, digits, meaning))
}

// What a line came to.
fn found(storage: &mut Storage, line: &str) -> Came {
    match parts(line) {
        Some(("in-band", digits, meaning)) => built(6, digits, meaning),
        Some(("completion", digits, meaning)) => built(11, digits, meaning),
        Some(("gpa-direct", digits, meaning)) => gpa(digits, meaning),
        Some(("transfer-pages", digits, meaning)) => xfer(digits, meaning),
        Some((_, digits, _)) => storage.found(digits),
        None => Came::NoPacket,
    }
}

// Writes what each line came to.
fn tell<R: Runtime>(rt: &R, text: &str) -> io::Result<()> {
    let mut storage = Storage { asked: None };
    for line in text.lines() {
        if !line.starts_with('#') {
            println!(rt; "{}", found(&mut storage, line))?;
        }
    }
    Ok(())
}

fn main(rt: HostRuntime) -> io::Result<()> {
    let mut source = StdSource::make(rt.reader());
    let Ok(input) = read_all(rt.alloc(), &mut source, MOST) else {
        return Err(io::Error::other("the input wasn't read"));
    };
    match str::from_utf8(&input) {
        Ok(text) => tell(&rt, text),
        Err(_) => Err(io::Error::other("the input is no text")),
    }
}
