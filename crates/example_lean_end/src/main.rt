//! Passes packets through two ends that keep none, over words that both share, and writes how many came out as they went in. Its argument says how many.
#![tactic(auto)]

use example_calls::{AtomicWords, SharedSeat, pass_one};
use ring_core::Side;
use ring_lean_end::DriverEnd;
use std::alloc::Global;
use std::{env, io};

// How many of so many packets come out as they went in.
fn passed(alloc: Global, count: u64) -> io::Result<u64> {
    let (shared, other) = AtomicWords::make(alloc, 4096)?;
    let mut guest = DriverEnd::make(alloc, Side::Guest, 4096, SharedSeat::over(shared, 4096))?;
    let mut host = DriverEnd::make(alloc, Side::Host, 4096, SharedSeat::over(other, 4096))?;
    let mut same = 0u64;
    for i in 0..count {
        if pass_one(&mut guest, &mut host, &[0x0000_0003_0002_0006, i, 9]) {
            same = same.wrapping_add(1);
        }
    }
    Ok(same)
}

fn main(rt: HostRuntime) -> io::Result<()> {
    let mut count = 0u64;
    for word in env::args(&rt)?.skip(1) {
        count = word.parse().unwrap_or(0);
    }
    let same = passed(rt.alloc(), count)?;
    println!(&rt; "{same} of {count} packets")
}
