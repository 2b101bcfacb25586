//! A packet in band.
use std::alloc::{AllocError, Global};

/// The words of a packet in band of n words, each word of its payload the same.
pub fn words(alloc: Global, n: u64) -> Result<Vec<u64>, AllocError> {
    let mut words = Vec::new(alloc);
    words.push(n.wrapping_mul(0x1_0000_0000).wrapping_add(0x2_0006))?;
    for _ in 1..n {
        words.push(0x9e37_79b9_7f4a_7c15u64)?;
    }
    Ok(words)
}

/// What an answer to a request is: a packet of three words.
pub const ANSWER: [u64; 3] = [0x3_0002_000b, 1, 2];
