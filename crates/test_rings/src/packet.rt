//! Packets for every test here.
use std::alloc::AllocGlobal;
use std::process::Abort;

/// A packet of n words: in-band data, whose other words are this mark.
pub fn packet(rt: &(impl Abort + AllocGlobal), n: usize, mark: u64) -> Vec<u64> {
    let mut p = Vec::from_elem(rt.alloc(), mark, n).expect(rt, "memory");
    if n > 0 {
        p[0] = (n as u64)
            .wrapping_mul(0x1_0000_0000)
            .wrapping_add(0x2_0006);
    }
    p
}
