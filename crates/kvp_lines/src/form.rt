//! The rows behind `kvp`, as they are told to the author of a script.
ghost use Rattle.std.specs.Prelude.{◌≡◌};
ghost use Rattle.kvp_lines.specs.Forms.{admits, form_of, may_lack, takes, told, words_of};

use crate::pair::pool_of;
use script_text::{is_decimal, number_of, within};

/// A row, by its operation.
#[derive(Clone, Copy, Debug, PartialEq, Eq)]
pub enum PairForm {
    /// The operation is none of these.
    Any,
    Set,
    Get,
    Delete,
    Enum,
}

/// What stands at a place of a row, behind the name.
#[derive(Clone, Copy, Debug, PartialEq, Eq)]
pub enum PairWord {
    /// What is done to a pair.
    Operation,
    /// The number of a pool.
    Pool,
    /// A key's characters.
    Key,
    /// A value's characters.
    Val,
    /// The place of a pair.
    Index,
    /// Nothing more.
    End,
}

impl PairForm {
    /// The row of an operation.
    pub fn of(operation: &[u8]) -> PairForm
        ensures { result ≡ form_of operation.now }
    {
        if operation == b"set".as_slice() {
            PairForm::Set
        } else if operation == b"get".as_slice() {
            PairForm::Get
        } else if operation == b"del".as_slice() {
            PairForm::Delete
        } else if operation == b"enum".as_slice() {
            PairForm::Enum
        } else {
            PairForm::Any
        }
    }

    /// How it is written, with its ranges.
    pub fn told(self) -> &'static [u8]
        ensures { result.now ≡ told self }
    {
        match self {
            PairForm::Any =>
                b"kvp NAME set POOL KEY VALUE, kvp NAME get POOL KEY, kvp NAME del POOL KEY or kvp NAME enum POOL INDEX",
            PairForm::Set =>
                b"kvp NAME set POOL KEY VALUE: POOL is 0 to 4, KEY 1 to 255 characters, VALUE 1 to 1023",
            PairForm::Get => b"kvp NAME get POOL KEY: POOL is 0 to 4, KEY 1 to 255 characters",
            PairForm::Delete => b"kvp NAME del POOL KEY: POOL is 0 to 4, KEY 1 to 255 characters",
            PairForm::Enum => b"kvp NAME enum POOL INDEX: POOL is 0 to 4, INDEX 0 to 4294967295",
        }
    }

    /// What its words behind the name may be.
    pub fn words(self) -> (PairWord, PairWord, PairWord, PairWord)
        ensures { result ≡ words_of self }
    {
        let third = match self {
            PairForm::Any => PairWord::End,
            PairForm::Set | PairForm::Get | PairForm::Delete => PairWord::Key,
            PairForm::Enum => PairWord::Index,
        };
        let fourth = match self {
            PairForm::Set => PairWord::Val,
            _ => PairWord::End,
        };
        (PairWord::Operation, PairWord::Pool, third, fourth)
    }
}

impl PairWord {
    /// Whether a word has the form.
    pub fn takes(self, word: &[u8]) -> bool
        ensures { result ≡ takes self word.now }
    {
        match self {
            PairWord::Operation => {
                word == b"set".as_slice()
                    || word == b"get".as_slice()
                    || word == b"del".as_slice()
                    || word == b"enum".as_slice()
            }
            PairWord::Pool | PairWord::Index => is_decimal(word),
            PairWord::Key | PairWord::Val => true,
            PairWord::End => false,
        }
    }

    /// Whether nothing may stand there.
    pub fn may_lack(self) -> bool
        ensures { result ≡ may_lack self }
    {
        matches!(self, PairWord::End)
    }

    /// Whether a word of the form is in its range.
    pub fn admits(self, word: &[u8]) -> bool
        ensures { result ≡ admits self word.now }
    {
        match self {
            PairWord::Pool => is_decimal(word) && pool_of(word).is_some(),
            PairWord::Key => word.len() <= 255,
            PairWord::Val => word.len() <= 1_023,
            PairWord::Index => {
                is_decimal(word) && within(0, u32::MAX, number_of(word)).is_some()
            }
            PairWord::Operation | PairWord::End => true,
        }
    }
}
