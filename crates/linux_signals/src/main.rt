//! When an end raises its peer, beside what Linux's own functions decide. A line of the input has the three arguments of `raise_on_write`, or the five of
//! `raise_on_commit`. It writes 1 where the peer is raised and 0 where it isn't.
#![tactic(auto)]

ghost use Rattle.std.specs.Prelude.{◌≡◌, true};
ghost use Rattle.ring_machine.specs.Places.{IsIndex, IsRingSize};

use io_edge::{StdSource, read_all};
use ring_core::{raise_on_commit, raise_on_write};
use std::io;
use std::rt::Runtime;

// How many bytes the input has at most.
const MOST: usize = 1_048_576;

// The numbers of a line, five at most, and how many there are.
fn numbers(line: &str) -> Option<([u32; 5], usize)> {
    let mut all = [0; 5];
    let mut count = 0;
    for (place, word) in line.split(' ').enumerate() {
        if place >= 5 {
            return None;
        }
        all[place] = word.parse().ok()?;
        count = place + 1;
    }
    Some((all, count))
}

// Whether a ring has so many bytes of data.
fn is_ring_size(d: u32) -> bool
    ensures { result ≡ true → IsRingSize d }
{
    d % 4096 == 0 && 4096 <= d && d <= 134217728
}

// Whether this is an index of a ring of so many bytes.
fn is_index(d: u32, at: u32) -> bool
    ensures { result ≡ true → IsIndex d at }
{
    at % 8 == 0 && at < d
}

// Whether a commit raises the producer, where these are a ring and indices of it.
fn on_commit(d: u32, write: u32, start: u32, read: u32, pending: u32) -> Option<bool> {
    if is_ring_size(d) && is_index(d, write) && is_index(d, start) && is_index(d, read) {
        return Some(raise_on_commit(d, write, start, read, pending));
    }
    None
}

// Whether the peer is raised with a line's arguments.
fn is_raised(line: &str) -> Option<bool> {
    match numbers(line)? {
        ([old, mask, read, _, _], 3) => Some(raise_on_write(old, mask, read)),
        ([d, write, start, read, pending], 5) => on_commit(d, write, start, read, pending),
        _ => None,
    }
}

// What is written of a line.
fn told(line: &str) -> &'static str {
    match is_raised(line) {
        Some(true) => "1",
        Some(false) => "0",
        None => "no arguments",
    }
}

// Writes whether the peer is raised with each line's arguments.
fn tell<R: Runtime>(rt: &R, text: &str) -> io::Result<()> {
    for line in text.lines() {
        println!(rt; "{}", told(line))?;
    }
    Ok(())
}

fn main(rt: HostRuntime) -> io::Result<()> {
    let mut source = StdSource::make(rt.reader());
    let Ok(input) = read_all(rt.alloc(), &mut source, MOST) else {
        return Err(io::Error::other("the input wasn't read"));
    };
    match str::from_utf8(&input) {
        Ok(text) => tell(&rt, text),
        Err(_) => Err(io::Error::other("the input is no text")),
    }
}
