//! Numbers of 64 bits in hexadecimal digits.
ghost use Rattle.std.specs.Prelude.{◌≡◌, ◌<◌, ◌≤◌, ◌^◌, true, length};
ghost use Rattle.std.specs.List.{list_all};
ghost use Rattle.script_text.specs.Forms.{is_hex, hex_value, hex_after};
ghost use Rattle.line_words.specs.Values.{is_hex_16, number_of_hex_16, hex_16};

use script_text::hex_8;

fn is_hex(c: u8) -> bool
    ensures { result ≡ is_hex c }
{
    b'0' <= c && c <= b'9' || b'a' <= c && c <= b'f' || b'A' <= c && c <= b'F'
}

fn hex_value(c: u8) -> u8
    requires { is_hex c ≡ true }
    ensures value { result ≡ hex_value c }
    ensures small { result < 16 }
{
    if c <= b'9' {
        c - b'0'
    } else if c <= b'F' {
        c - b'A' + 10
    } else {
        c - b'a' + 10
    }
}

/// Whether each byte is a hexadecimal digit, of either case.
pub(crate) fn are_hex(word: &[u8]) -> bool
    ensures { result ≡ list_all is_hex word.now }
{
    word.iter().all(|c| is_hex(*c))
}

/// The number that at most 16 digits write.
pub(crate) fn number_of_hex(digits: &[u8]) -> u64
    requires count { length digits.now ≤ 16 }
    requires digits { list_all is_hex digits.now ≡ true }
    ensures { result ≡ hex_after 0 digits.now }
{
    let mut n: u64 = 0;
    let mut rest = digits;
    while let [digit, after @ ..] = rest {
        n = 16 * n + u64::from(hex_value(*digit));
        rest = after;
    }
    n
}

/// Whether a word is 16 hexadecimal digits, of either case.
pub fn is_hex_16(word: &[u8]) -> bool
    ensures { result ≡ is_hex_16 word.now }
{
    word.len() == 16 && are_hex(word)
}

/// The number that such a word writes.
pub fn number_of_hex_16(word: &[u8]) -> u64
    requires { is_hex_16 word.now ≡ true }
    ensures { result ≡ number_of_hex_16 word.now }
{
    number_of_hex(word)
}

/// The sixteen lower-case digits of a number, the highest first.
#[tactic(auto, unfolding(crate::specs::Values::hex_16))]
pub fn hex_16(n: u64) -> [u8; 16]
    ensures { result ≡ hex_16 n }
{
    let mut digits = [0; 16];
    let (high, low) = digits.split_at_mut(8);
    high.copy_from_slice(&hex_8((n / 0x1_0000_0000) as u32));
    low.copy_from_slice(&hex_8((n % 0x1_0000_0000) as u32));
    digits
}
