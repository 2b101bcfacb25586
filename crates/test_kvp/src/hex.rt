//! Bytes of hexadecimal digits.
ghost use Rattle.std.specs.Prelude.{◌<◌, ◌≤◌, length};

use crate::check::check;
use std::process::Abort;

fn digit(code: u8) -> u8
    ensures { result < 16 }
{
    match code {
        b'0'..=b'9' => code - b'0',
        b'a'..=b'f' => code - b'a' + 10,
        _ => 0,
    }
}

/// Writes the bytes that hexadecimal digits spell at the front of a buffer: how many they are.
pub fn unhex(rt: &impl Abort, digits: &str, out: &mut [u8]) -> usize
    ensures { result ≤ length out.new }
{
    let digits = digits.as_bytes();
    let len = digits.len() / 2;
    check(rt, len <= out.len());
    for i in 0..len {
        out[i] = 16 * digit(digits[2 * i]) + digit(digits[2 * i + 1]);
    }
    len
}
