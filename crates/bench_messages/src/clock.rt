//! Times.
use std::io;

/// The picoseconds a call, of so many nanoseconds for all of them. It is an error where they made another number of what they make than was wanted.
pub(crate) fn picoseconds(time: u128, made: u64, wanted: u64, calls: u64) -> io::Result<u128> {
    if made != wanted || calls == 0 {
        return Err(io::Error::other("a message isn't read or written"));
    }
    Ok(time.wrapping_mul(1000) / calls as u128)
}
