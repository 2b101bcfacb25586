//! The load script is the one that its text says, and its line counts what came back.
use crate::bus_script_tests::{check_line, check_offer, script_of};
use crate::check::check;
use bus_script::{DeviceSpec, LineResult, Reply};
use script_generator::{load_line, load_script};
use scsi_disk::{Chunk, DiskReply};

const LOAD: &[u8] =
    b"offer disk d0 4096 3\nwrite d0 0 1 03\nwrite d0 1 1 0a\nphase\nread d0 0 1\nread d0 1 1\n";

#[test]
fn load_is_its_text(rt: HostRuntime) {
    let said = script_of(&rt, LOAD);
    let Ok(made) = load_script(rt.alloc(), 3, 4) else {
        panic!(rt; "memory");
    };
    check(&rt, made.lines().len() == said.lines().len());
    let disk = DeviceSpec::Disk {
        blocks: 4096,
        subs: 3,
    };
    check_offer(&rt, &made, 0, b"d0", disk);
    for (at, line) in said.lines().iter().enumerate() {
        if at > 0 {
            check_line(&rt, &made, at, line.number, &line.what);
        }
    }
}

#[test]
fn line_of_a_load(rt: HostRuntime) {
    let written = Reply::Disk(DiskReply::Good(Chunk::empty()));
    let read = Reply::Disk(DiskReply::Good(Chunk::of(&[0xff; 512])));
    let results = [
        LineResult::Done {
            serial: 0,
            reply: written,
        },
        LineResult::Done {
            serial: 1,
            reply: read,
        },
        LineResult::RescindedServed { serial: 2 },
        LineResult::Unserved,
    ];
    match load_line(rt.alloc(), 4, &results) {
        Ok(text) => check(
            &rt,
            text.as_slice() == b"load requests 4 done 2 bytes 512 sum 130560\n".as_slice(),
        ),
        Err(_) => check(&rt, false),
    }
}
