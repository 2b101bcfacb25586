//! Numbers in decimal digits.
ghost use Rattle.std.specs.Prelude.{◌≡◌, ◌<◌, ◌≤◌, ◌^◌, List, length, Option, Some, None, IfSome, true};
ghost use Rattle.std.specs.List.{list_all};
ghost use Rattle.script_text.specs.Forms.{is_decimal, is_digit, has_plain_front, number_after, number_of, in_u64, within};

/// Whether a byte is a decimal digit.
pub fn is_digit(c: u8) -> bool
    ensures { result ≡ is_digit c }
{
    b'0' <= c && c <= b'9'
}

fn are_digits(word: &[u8]) -> bool
    ensures { result ≡ list_all is_digit word.now }
{
    word.iter().all(|c| is_digit(*c))
}

fn has_plain_front(word: &[u8]) -> bool
    ensures { result ≡ has_plain_front word.now }
{
    match word {
        [] => false,
        [_] => true,
        [first, ..] => *first != b'0',
    }
}

/// Whether a word has the form of a decimal number: 1 to 20 digits, and no leading zero unless it is `0`.
pub fn is_decimal(word: &[u8]) -> bool
    ensures { result ≡ is_decimal word.now }
{
    are_digits(word) && word.len() <= 20 && has_plain_front(word)
}

/// The number that digits write, where it is below 2^64.
pub fn number_of(word: &[u8]) -> Option<u64>
    requires { list_all is_digit word.now ≡ true }
    ensures { result ≡ in_u64 (number_of word.now) }
{
    let mut n: u64 = 0;
    let mut rest = word;
    while let [d, after @ ..] = rest {
        let digit = (*d - b'0') as u64;
        if n > (u64::MAX - digit) / 10 {
            return None;
        }
        n = 10 * n + digit;
        rest = after;
    }
    Some(n)
}

/// A number from low to high, where it is one.
pub fn within(low: u32, high: u32, number: Option<u64>) -> Option<u32>
    ensures number { result ≡ within low high number }
    ensures range { IfSome result (λ n. (low ≤ n) × (n ≤ high)) }
{
    match number {
        Some(n) if low as u64 <= n && n <= high as u64 => Some(n as u32),
        _ => None,
    }
}
