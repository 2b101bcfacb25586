//! What the words of a row may be.
ghost use Rattle.std.specs.Prelude.{◌≡◌, ◌&&◌, false, nat_le, length};
ghost use Rattle.std.specs.Option.{option_map_or};
ghost use Rattle.script_text.specs.Forms.{is_decimal, number_of, in_u64, are_bytes, bytes_of};
ghost use Rattle.script_explain.specs.Forms.{admits, fits, is_far, may_lack, takes};

use kvp_lines::PairWord;
use script_text::{
    are_bytes, count_bytes, is_address, is_byte, is_decimal, is_name, is_oid, is_version,
    number_of, version_of,
};

/// What stands at a place of a row.
#[derive(Clone, Copy, Debug, PartialEq, Eq)]
pub(crate) enum Form {
    /// Nothing more.
    End,
    /// A device's name.
    Name,
    /// A kind of device.
    Kind,
    /// A number, from the one to the other.
    Number { low: u64, high: u64 },
    /// A version.
    Version,
    /// One byte.
    Byte,
    /// So many bytes.
    Bytes { least: usize, most: usize },
    /// The number of an object.
    Oid,
    /// An address of a network.
    Address,
    /// The word `after`.
    After,
    /// The word `held`, or nothing.
    Held,
    /// What stands in a row about pairs.
    OfPair(PairWord),
}

impl Form {
    /// Whether a word has the form.
    fn takes(self, word: &[u8]) -> bool
        ensures { result ≡ takes self word.now }
    {
        match self {
            Form::End => false,
            Form::Name => is_name(word),
            Form::Kind => {
                word == b"hb".as_slice()
                    || word == b"shutdown".as_slice()
                    || word == b"disk".as_slice()
                    || word == b"net".as_slice()
                    || word == b"kvp".as_slice()
            }
            Form::Number { .. } => is_decimal(word),
            Form::Version => is_version(word),
            Form::Byte => is_byte(word),
            Form::Bytes { .. } => are_bytes(word),
            Form::Oid => is_oid(word),
            Form::Address => is_address(word),
            Form::After => word == b"after".as_slice(),
            Form::Held => word == b"held".as_slice(),
            Form::OfPair(form) => form.takes(word),
        }
    }

    /// Whether nothing may stand there.
    fn may_lack(self) -> bool
        ensures { result ≡ may_lack self }
    {
        match self {
            Form::End | Form::Held => true,
            Form::OfPair(form) => form.may_lack(),
            _ => false,
        }
    }

    /// Whether what stands there, a word or nothing, has the form.
    pub(crate) fn fits(self, word: &[u8]) -> bool
        ensures { result ≡ fits self word.now }
    {
        if word.is_empty() {
            self.may_lack()
        } else {
            self.takes(word)
        }
    }

    /// Whether a word stands there that is out of its range.
    pub(crate) fn is_far(self, word: &[u8]) -> bool
        ensures { result ≡ is_far self word.now }
    {
        !word.is_empty() && !self.admits(word)
    }

    /// Whether a word of the form is in its range.
    fn admits(self, word: &[u8]) -> bool
        ensures { result ≡ admits self word.now }
    {
        match self {
            Form::Number { low, high } => admits_number(word, low, high),
            Form::Version => is_version(word) && version_of(word).is_some(),
            Form::Bytes { least, most } => admits_bytes(word, least, most),
            Form::OfPair(form) => form.admits(word),
            _ => true,
        }
    }
}

fn admits_number(word: &[u8], low: u64, high: u64) -> bool
    ensures { result ≡ (is_decimal word.now && option_map_or (λ n. nat_le low n && nat_le n high) (in_u64 (number_of word.now)) false) }
{
    if !is_decimal(word) {
        return false;
    }
    match number_of(word) {
        Some(n) => low <= n && n <= high,
        None => false,
    }
}

fn admits_bytes(word: &[u8], least: usize, most: usize) -> bool
    ensures { result ≡ (are_bytes word.now && (nat_le least (length (bytes_of word.now)) && nat_le (length (bytes_of word.now)) most)) }
{
    if !are_bytes(word) {
        return false;
    }
    let count = count_bytes(word);
    least <= count && count <= most
}
