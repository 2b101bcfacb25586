//! Times.
use std::io;

/// The picoseconds a call, of so many nanoseconds for all of them. It is an error where they weren't all made, as they should be.
pub fn a_call(time: u128, made: u64, count: u64) -> io::Result<u128> {
    if made != count || count == 0 {
        return Err(io::Error::other("a call didn't end as it should"));
    }
    Ok(time.wrapping_mul(1000) / count as u128)
}
