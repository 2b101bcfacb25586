//! How an end waits.
use bench_end_loops::{Port, Waiting};
use std::hint;
use std::sync::Wait;

// Looks at the signal a few times: whether it was up.
fn look<P: Port>(e: &mut P, looks: u32) -> bool {
    for _ in 0..looks {
        if e.poll() {
            return true;
        }
        hint::spin_loop();
    }
    false
}

// Parks the thread until the signal is up.
fn doze<R: Wait, P: Port>(rt: &R, e: &mut P) {
    for _ in rt.forever() {
        if e.poll() {
            return;
        }
        e.park(rt);
    }
    unreachable!()
}

/// Waits for a packet.
pub(crate) fn rest<R: Wait, P: Port>(rt: &R, e: &mut P, how: Waiting) {
    match how {
        Waiting::Spins => hint::spin_loop(),
        Waiting::Sleeps { looks } => {
            if e.arm() && !look(e, looks) {
                doze(rt, e);
            }
        }
    }
}
