//! Numbers in hexadecimal digits.
ghost use Rattle.std.specs.Prelude.{◌≡◌, ◌<◌, ◌*◌, ◌/◌, ◌%◌, true, length};
ghost use Rattle.std.specs.List.{list_all};
ghost use Rattle.script_text.specs.Forms.{is_hex, is_byte, byte_of, are_bytes, bytes_of, is_address, hex_after, is_oid, oid_of};
ghost use Rattle.script_text.specs.Hex.{hex_digit, hex_2, hex_8};

use hex::FromHex;

fn hex_digit(n: u8) -> u8
    requires { n < 16 }
    ensures { result ≡ hex_digit n }
{
    if n < 10 { b'0' + n } else { b'a' - 10 + n }
}

/// The two lower-case digits of a byte.
pub fn hex_2(byte: u8) -> [u8; 2]
    ensures { result ≡ hex_2 byte }
{
    [hex_digit(byte / 16), hex_digit(byte % 16)]
}

/// The digit of these many sixteens.
fn digit_at(n: u32, unit: u32) -> u8
    requires { 0 < unit }
    ensures { result ≡ hex_digit (n / unit % 16) }
{
    hex_digit((n / unit % 16) as u8)
}

/// The eight lower-case digits of a number, the highest first.
#[tactic(auto, unfolding(crate::specs::Hex::hex_8))]
pub fn hex_8(n: u32) -> [u8; 8]
    ensures { result ≡ hex_8 n }
{
    [
        digit_at(n, 0x1000_0000),
        digit_at(n, 0x100_0000),
        digit_at(n, 0x10_0000),
        digit_at(n, 0x1_0000),
        digit_at(n, 0x1000),
        digit_at(n, 0x100),
        digit_at(n, 0x10),
        digit_at(n, 1),
    ]
}

fn is_hex(c: u8) -> bool
    ensures { result ≡ is_hex c }
{
    c.is_ascii_hexdigit()
}

/// Whether a word is two digits of either case.
pub fn is_byte(word: &[u8]) -> bool
    ensures { result ≡ is_byte word.now }
{
    match word {
        [high, low] => is_hex(*high) && is_hex(*low),
        _ => false,
    }
}

/// The bytes that twice as many digits write.
fn decoded<const N: usize>(digits: &[u8]) -> [u8; N]
    requires digits { list_all is_hex digits.now ≡ true }
    requires places { length digits.now ≡ 2 * N }
    ensures { result ≡ bytes_of digits.now }
{
    let Ok(bytes) = <[u8; N]>::from_hex(digits) else {
        unreachable!()
    };
    bytes
}

/// The byte that two digits write.
pub fn byte_of(word: &[u8]) -> u8
    requires { is_byte word.now ≡ true }
    ensures { result ≡ byte_of word.now }
{
    decoded::<1>(word)[0]
}

fn are_hex(word: &[u8]) -> bool
    ensures { result ≡ list_all is_hex word.now }
{
    word.iter().all(|c| is_hex(*c))
}

/// Whether a word is an even number of digits of either case, 2 at least.
pub fn are_bytes(word: &[u8]) -> bool
    ensures { result ≡ are_bytes word.now }
{
    word.len() >= 2 && word.len() % 2 == 0 && are_hex(word)
}

/// How many bytes such a word writes.
pub fn count_bytes(word: &[u8]) -> usize
    requires { are_bytes word.now ≡ true }
    ensures count { result ≡ length (bytes_of word.now) }
    ensures half { length word.now ≡ 2 * result }
{
    word.len() / 2
}

/// Writes the bytes of digits, two for each, into as many places.
pub fn put_bytes(word: &[u8], out: &mut [u8])
    requires digits { list_all is_hex word.now ≡ true }
    requires places { length word.now ≡ 2 * length out.old }
    ensures { out.new ≡ bytes_of word.now }
{
    let Ok(()) = hex::decode_to_slice(word, out) else {
        unreachable!()
    };
}

/// Whether a word is the address of a network card: 12 digits of either case.
pub fn is_address(word: &[u8]) -> bool
    ensures { result ≡ is_address word.now }
{
    word.len() == 12 && are_hex(word)
}

/// The address that a word writes.
pub fn address_of(word: &[u8]) -> [u8; 6]
    requires { is_address word.now ≡ true }
    ensures { result ≡ bytes_of word.now }
{
    decoded(word)
}

/// The number of 32 bits that 8 digits write.
fn hex_number(digits: &[u8]) -> u32
    requires count { length digits.now ≡ 8 }
    requires digits { list_all is_hex digits.now ≡ true }
    ensures { result ≡ hex_after 0 digits.now }
{
    u32::from_be_bytes(decoded(digits))
}

/// Whether a word is the number of an object of a network card: `0x` and 8 digits of either case.
pub fn is_oid(word: &[u8]) -> bool
    ensures { result ≡ is_oid word.now }
{
    match word {
        [zero, x, digits @ ..] => {
            *zero == b'0' && *x == b'x' && digits.len() == 8 && are_hex(digits)
        }
        _ => false,
    }
}

/// The number of the object.
pub fn oid_of(word: &[u8]) -> u32
    requires { is_oid word.now ≡ true }
    ensures { result ≡ oid_of word.now }
{
    match word {
        [_, _, digits @ ..] => hex_number(digits),
        _ => 0,
    }
}
