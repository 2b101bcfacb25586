//! Decodes messages that Linux's structs lay out, and messages with a fault: the whole input stands beside what it must write.
#![tactic(auto)]

use io_edge::{StdSource, read_all};
use std::io::{self, Write, writer};
use vmbus_msg_text::decode_text;

// How many bytes the input has at most.
const MOST: usize = 1_048_576;

fn main(rt: HostRuntime) -> io::Result<()> {
    let alloc = rt.alloc();
    let mut source = StdSource::make(rt.reader());
    let Ok(input) = read_all(alloc, &mut source, MOST) else {
        return Err(io::Error::other("the input wasn't read"));
    };
    let Ok(text) = decode_text(alloc, &input) else {
        return Err(io::Error::other("a line is refused"));
    };
    writer(&rt).write_all(&text)
}
