//! What no clause says: text, fakes of std's readers and writers, and calls that take memory.

use crate::check::check;
use io_edge::{
    Failed, Gate, MemSink, MemSource, NoGate, ReadFault, Side, Sink, Source, StdSink, StdSource,
    SureSink, SureSource, read_all, write_all,
};
use std::io;
use std::io::{Read, Write};
use std::test::Fail;

// A reader of `left` bytes `x`, which fails at the call after its last byte.
#[derive(Drop)]
struct Breaks {
    left: usize,
}

impl Read for Breaks {
    fn read(&mut self, buf: &mut [u8]) -> io::Result<usize> {
        if self.left == 0 {
            return Err(io::Error::from(io::ErrorKind::Other));
        }
        let count = self.left.min(buf.len());
        buf[..count].fill(b'x');
        self.left -= count;
        Ok(count)
    }
}

// A writer that takes `room` bytes, and then takes nothing or fails.
#[derive(Drop)]
struct Stalls {
    room: usize,
    fails: bool,
}

impl Write for Stalls {
    fn write(&mut self, buf: &[u8]) -> io::Result<usize> {
        if self.room == 0 && self.fails {
            return Err(io::Error::from(io::ErrorKind::Other));
        }
        let count = self.room.min(buf.len());
        self.room -= count;
        Ok(count)
    }

    fn flush(&mut self) -> io::Result<()> {
        Ok(())
    }
}

#[test]
fn reads_whole(rt: HostRuntime) -> Result<(), Fail> {
    let text = b"offer hb beat0\n";
    for most in [14usize, 15, 16] {
        for piece in [1usize, 4, 100] {
            let bytes = text.to_vec(rt.alloc())?;
            let mut source = MemSource::make(bytes, piece, Vec::new(rt.alloc()));
            let read = read_all(rt.alloc(), &mut source, most);
            if most < 15 {
                check(&rt, read.err() == Some(ReadFault::Limit));
            } else {
                check(&rt, read?.as_slice() == text.as_slice());
            }
        }
    }
    let mut sure = SureSource::make(text.to_vec(rt.alloc())?);
    check(
        &rt,
        read_all(rt.alloc(), &mut sure, 15)?.as_slice() == text.as_slice(),
    );
    Ok(())
}

#[test]
fn reads_fail(rt: HostRuntime) -> Result<(), Fail> {
    for call in [1u32, 2, 4, 5] {
        let fails = vec![in rt.alloc(); call]?;
        let mut source = MemSource::make(b"beat".to_vec(rt.alloc())?, 2, fails);
        let read = read_all(rt.alloc(), &mut source, 100);
        check(&rt, (read.err() == Some(ReadFault::Fault)) == (call <= 3));
    }
    Ok(())
}

#[test]
fn writes(rt: HostRuntime) -> Result<(), Fail> {
    for piece in [1usize, 4, 100] {
        for size in [13usize, 14] {
            let none = Vec::new(rt.alloc());
            let mut sink = MemSink::make(rt.alloc(), size, piece, none)?;
            let done = write_all(&mut sink, b"done @2 seq 7\n");
            check(&rt, done.is_ok() == (size == 14));
            check(&rt, sink.bytes() == &b"done @2 seq 7\n"[..size]);
        }
    }
    let mut sink = MemSink::make(rt.alloc(), 100, 8, vec![in rt.alloc(); 2]?)?;
    check(&rt, write_all(&mut sink, b"done @2 seq 7\n") == Err(Failed));
    check(&rt, sink.bytes() == b"done @2 ".as_slice());
    let mut sure = SureSink::make(rt.alloc(), 3)?;
    write_all(&mut sure, b"end")?;
    check(&rt, sure.bytes() == b"end".as_slice());
    Ok(())
}

#[test]
fn std_edges(rt: HostRuntime) -> Result<(), Fail> {
    let mut source = StdSource::make(b"abc".as_slice());
    check(
        &rt,
        read_all(rt.alloc(), &mut source, 3)?.as_slice() == b"abc".as_slice(),
    );
    let mut broken = StdSource::make(Breaks { left: 40_000 });
    check(
        &rt,
        read_all(rt.alloc(), &mut broken, 50_000).err() == Some(ReadFault::Fault),
    );

    let mut sink = StdSink::make(Vec::new(rt.alloc()));
    write_all(&mut sink, b"abc")?;
    for fails in [false, true] {
        let mut stalled = StdSink::make(Stalls { room: 2, fails });
        check(&rt, write_all(&mut stalled, b"abc") == Err(Failed));
        check(&rt, stalled.write(b"c") == Err(Failed));
    }
    NoGate.pass(Side::Guest, 1, 1);
    Ok(())
}
