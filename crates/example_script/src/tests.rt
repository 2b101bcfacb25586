//! The parts, run once each.
ghost use Rattle.std.specs.Prelude.{◌≡◌, true};

use crate::report_of;
use std::process::Abort;

// Stops the test unless this holds.
fn check(rt: &impl Abort, holds: bool)
    ensures { holds ≡ true }
{
    assert!(rt; holds);
}

#[test]
fn a_script_is_run(rt: HostRuntime) {
    let script = b"offer hb hb\nbeat hb 41\n"
        .to_vec(rt.alloc())
        .expect(&rt, "memory");
    let (outcome, sink) = report_of(&rt, rt.alloc(), script).expect(&rt, "memory");
    check(&rt, outcome.status == 0);
    check(
        &rt,
        sink.bytes() == b"2 done @0 seq 42\nend requests 1 done 1 rescinded 0\n".as_slice(),
    );
    drop(outcome);
    drop(sink);
}
