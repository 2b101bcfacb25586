//! The rows of the table of lines, as they are told.
ghost use Rattle.std.specs.Prelude.{◌≡◌};
ghost use Rattle.script_explain.specs.Rows.{device_row, disk_row, ending_row, forms, offer_row, row_of, settings_row, told, pair_forms};

use crate::form::Form;
use kvp_lines::PairForm;

/// A row.
#[derive(Clone, Copy, Debug, PartialEq, Eq)]
pub(crate) enum Row {
    Contact,
    Offer,
    OfferDisk,
    OfferNet,
    Bad,
    Ring,
    Window,
    Ready,
    Inquiry,
    Capacity,
    LongCapacity,
    Flush,
    Read,
    Write,
    Beat,
    Down,
    Query,
    Set,
    Keep,
    Reset,
    Frame,
    Pair(PairForm),
    Rescind,
    Close,
    Modify,
    Phase,
}

// A number of 64 bits.
const WIDE: Form = Form::Number {
    low: 0,
    high: u64::MAX,
};

// So many blocks.
const COUNT: Form = Form::Number { low: 0, high: 8 };

impl Row {
    /// How it is written, with its ranges.
    pub(crate) fn told(self) -> &'static [u8]
        ensures { result.now ≡ told self }
    {
        match self {
            Row::Contact => b"contact GUEST HOST: each is 2.4, 3.0, 4.0, 4.1, 5.0, 5.1, 5.2 or 5.3",
            Row::Offer =>
                b"offer hb NAME, offer shutdown NAME, offer kvp NAME, offer disk NAME BLOCKS SUBS or offer net NAME MAC STATION",
            Row::OfferDisk =>
                b"offer disk NAME BLOCKS SUBS: BLOCKS is 1 to 1099511627776, SUBS 0 to 3",
            Row::OfferNet =>
                b"offer net NAME MAC STATION: both addresses have 12 hexadecimal digits",
            Row::Bad => b"bad NAME LBA: LBA is below the disk's number of blocks",
            Row::Ring => b"ring NAME PAGES: PAGES is 1 to 16",
            Row::Window => b"window NAME N: N is 1 to 64",
            Row::Ready => b"ready NAME",
            Row::Inquiry => b"inquiry NAME",
            Row::Capacity => b"capacity NAME",
            Row::LongCapacity => b"capacity16 NAME",
            Row::Flush => b"flush NAME",
            Row::Read => b"read NAME LBA COUNT: LBA is 0 to 18446744073709551615, COUNT 0 to 8",
            Row::Write =>
                b"write NAME LBA COUNT HH: LBA is 0 to 18446744073709551615, COUNT 0 to 8, HH two hexadecimal digits",
            Row::Beat => b"beat NAME SEQ: SEQ is 0 to 18446744073709551615",
            Row::Down => b"down NAME FLAGS: FLAGS is 0 to 4294967295",
            Row::Query => b"query NAME OID: OID is 0x and 8 hexadecimal digits",
            Row::Set => b"set NAME OID HEX: OID is 0x and 8 hexadecimal digits, HEX 1 to 64 bytes",
            Row::Keep => b"keep NAME",
            Row::Reset => b"reset NAME",
            Row::Frame => b"frame NAME HEX: HEX is 14 to 1514 bytes",
            Row::Pair(form) => form.told(),
            Row::Rescind =>
                b"rescind NAME after K, or rescind NAME after K held: K is 0 to 4096, and at least 1 before held",
            Row::Close => b"close NAME",
            Row::Modify => b"modify NAME VP: VP is 0 to 63",
            Row::Phase => b"phase",
        }
    }

    /// What its words behind the first may be.
    pub(crate) fn forms(self) -> [Form; 5]
        ensures { result ≡ forms self }
    {
        match self {
            Row::Contact => [
                Form::Version,
                Form::Version,
                Form::End,
                Form::End,
                Form::End,
            ],
            Row::Offer => [Form::Kind, Form::Name, Form::End, Form::End, Form::End],
            Row::OfferDisk => [
                Form::Kind,
                Form::Name,
                Form::Number {
                    low: 1,
                    high: 1_099_511_627_776,
                },
                Form::Number { low: 0, high: 3 },
                Form::End,
            ],
            Row::OfferNet => [
                Form::Kind,
                Form::Name,
                Form::Address,
                Form::Address,
                Form::End,
            ],
            Row::Bad => [Form::Name, WIDE, Form::End, Form::End, Form::End],
            Row::Ring => [
                Form::Name,
                Form::Number { low: 1, high: 16 },
                Form::End,
                Form::End,
                Form::End,
            ],
            Row::Window => [
                Form::Name,
                Form::Number { low: 1, high: 64 },
                Form::End,
                Form::End,
                Form::End,
            ],
            Row::Ready => [Form::Name, Form::End, Form::End, Form::End, Form::End],
            Row::Inquiry => [Form::Name, Form::End, Form::End, Form::End, Form::End],
            Row::Capacity => [Form::Name, Form::End, Form::End, Form::End, Form::End],
            Row::LongCapacity => [Form::Name, Form::End, Form::End, Form::End, Form::End],
            Row::Flush => [Form::Name, Form::End, Form::End, Form::End, Form::End],
            Row::Read => [Form::Name, WIDE, COUNT, Form::End, Form::End],
            Row::Write => [Form::Name, WIDE, COUNT, Form::Byte, Form::End],
            Row::Beat => [Form::Name, WIDE, Form::End, Form::End, Form::End],
            Row::Down => [
                Form::Name,
                Form::Number {
                    low: 0,
                    high: 4_294_967_295,
                },
                Form::End,
                Form::End,
                Form::End,
            ],
            Row::Query => [Form::Name, Form::Oid, Form::End, Form::End, Form::End],
            Row::Set => [
                Form::Name,
                Form::Oid,
                Form::Bytes { least: 1, most: 64 },
                Form::End,
                Form::End,
            ],
            Row::Keep => [Form::Name, Form::End, Form::End, Form::End, Form::End],
            Row::Reset => [Form::Name, Form::End, Form::End, Form::End, Form::End],
            Row::Frame => [
                Form::Name,
                Form::Bytes {
                    least: 14,
                    most: 1514,
                },
                Form::End,
                Form::End,
                Form::End,
            ],
            Row::Pair(form) => pair_forms(form),
            Row::Rescind => [
                Form::Name,
                Form::After,
                Form::Number {
                    low: 0,
                    high: 4_096,
                },
                Form::Held,
                Form::End,
            ],
            Row::Close => [Form::Name, Form::End, Form::End, Form::End, Form::End],
            Row::Modify => [
                Form::Name,
                Form::Number { low: 0, high: 63 },
                Form::End,
                Form::End,
                Form::End,
            ],
            Row::Phase => [Form::End, Form::End, Form::End, Form::End, Form::End],
        }
    }
}

/// The row that begins with a word; of an offer the second word tells which, and of what a key-value service is asked the third.
pub(crate) fn row_of(key: &[u8], second: &[u8], third: &[u8]) -> Option<Row>
    ensures { result ≡ row_of key.now second.now third.now }
{
    if key == b"offer".as_slice() {
        return Some(offer_row(second));
    }
    if key == b"kvp".as_slice() {
        return Some(Row::Pair(PairForm::of(third)));
    }
    match settings_row(key) {
        Some(row) => Some(row),
        None => match disk_row(key) {
            Some(row) => Some(row),
            None => match device_row(key) {
                Some(row) => Some(row),
                None => ending_row(key),
            },
        },
    }
}

// Of an offer.
fn offer_row(kind: &[u8]) -> Row
    ensures { result ≡ offer_row kind.now }
{
    if kind == b"disk".as_slice() {
        Row::OfferDisk
    } else if kind == b"net".as_slice() {
        Row::OfferNet
    } else {
        Row::Offer
    }
}

// Of what a key-value service is asked.
fn pair_forms(form: PairForm) -> [Form; 5]
    ensures { result ≡ pair_forms form }
{
    let words = form.words();
    [
        Form::Name,
        Form::OfPair(words.0),
        Form::OfPair(words.1),
        Form::OfPair(words.2),
        Form::OfPair(words.3),
    ]
}

// Settings, but for offers.
fn settings_row(key: &[u8]) -> Option<Row>
    ensures { result ≡ settings_row key.now }
{
    if key == b"contact".as_slice() {
        Some(Row::Contact)
    } else if key == b"bad".as_slice() {
        Some(Row::Bad)
    } else if key == b"ring".as_slice() {
        Some(Row::Ring)
    } else if key == b"window".as_slice() {
        Some(Row::Window)
    } else {
        None
    }
}

// What a disk is asked.
fn disk_row(key: &[u8]) -> Option<Row>
    ensures { result ≡ disk_row key.now }
{
    if key == b"ready".as_slice() {
        Some(Row::Ready)
    } else if key == b"inquiry".as_slice() {
        Some(Row::Inquiry)
    } else if key == b"capacity".as_slice() {
        Some(Row::Capacity)
    } else if key == b"capacity16".as_slice() {
        Some(Row::LongCapacity)
    } else if key == b"flush".as_slice() {
        Some(Row::Flush)
    } else if key == b"read".as_slice() {
        Some(Row::Read)
    } else if key == b"write".as_slice() {
        Some(Row::Write)
    } else {
        None
    }
}

// What the other devices are asked.
fn device_row(key: &[u8]) -> Option<Row>
    ensures { result ≡ device_row key.now }
{
    if key == b"beat".as_slice() {
        Some(Row::Beat)
    } else if key == b"down".as_slice() {
        Some(Row::Down)
    } else if key == b"query".as_slice() {
        Some(Row::Query)
    } else if key == b"set".as_slice() {
        Some(Row::Set)
    } else if key == b"keep".as_slice() {
        Some(Row::Keep)
    } else if key == b"reset".as_slice() {
        Some(Row::Reset)
    } else if key == b"frame".as_slice() {
        Some(Row::Frame)
    } else {
        None
    }
}

// What ends or moves a channel, and a phase.
fn ending_row(key: &[u8]) -> Option<Row>
    ensures { result ≡ ending_row key.now }
{
    if key == b"rescind".as_slice() {
        Some(Row::Rescind)
    } else if key == b"close".as_slice() {
        Some(Row::Close)
    } else if key == b"modify".as_slice() {
        Some(Row::Modify)
    } else if key == b"phase".as_slice() {
        Some(Row::Phase)
    } else {
        None
    }
}
