//! Page lists as Linux cuts them. In the input a line `list PAGES FIRST` stands before the messages of a list of so many page numbers from the first on, a line of digits each, and `end` behind them. The messages are assembled, and the pages are cut again: both must come to the same. It writes what each list came to.
#![tactic(auto)]

mod came;

use came::{Head, found, read_head};
use io_edge::{StdSource, read_all};
use std::alloc::Global;
use std::io;
use std::rt::Runtime;

// How many bytes the input has at most.
const MOST: usize = 1_048_576;

// Writes what a list came to.
fn tell_list<R: Runtime>(rt: &R, alloc: Global, head: Head, lines: &[&str]) -> io::Result<()> {
    let came = found(alloc, head, lines)?;
    println!(rt;
        "{} {}: {} messages, {}",
        head.pages,
        head.first,
        lines.len(),
        came.text()
    )
}

// Writes what each list came to.
fn tell<R: Runtime>(rt: &R, alloc: Global, text: &str) -> io::Result<()> {
    let mut head = Head { pages: 0, first: 0 };
    let mut pieces = Vec::new(alloc);
    for line in text.lines() {
        if let Some(list) = line.strip_prefix("list ") {
            head = read_head(list).unwrap_or(Head { pages: 0, first: 0 });
            pieces.clear();
        } else if line == "end" {
            tell_list(rt, alloc, head, pieces.as_slice())?;
        } else if !line.starts_with('#') {
            pieces.push(line)?;
        }
    }
    Ok(())
}

fn main(rt: HostRuntime) -> io::Result<()> {
    let alloc = rt.alloc();
    let mut source = StdSource::make(rt.reader());
    let Ok(input) = read_all(alloc, &mut source, MOST) else {
        return Err(io::Error::other("the input wasn't read"));
    };
    match str::from_utf8(&input) {
        Ok(text) => tell(&rt, alloc, text),
        Err(_) => Err(io::Error::other("the input is no text")),
    }
}
