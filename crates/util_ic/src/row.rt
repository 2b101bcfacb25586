//! The table of the guest's answers: which row applies to a request.

ghost use Rattle.std.specs.Prelude.{◌≡◌, ◌+◌, ◌*◌, ◌<◌, ◌≤◌, ◌^◌, ◌==◌, ◌&&◌, nat_le, length};
ghost use Rattle.util_ic.specs.Messages.{number_at, type_of, on_beat, on_down};
ghost use Rattle.util_ic.specs.Answers.{row_of, negotiation_of, HasRoom};

use crate::tables::{CONTENT, VERSIONS, get, header_table, negotiate_table};
use crate::version::{Version, greatest};
use contact::DeviceKind;

/// The rows of the table of answers, in its order.
#[derive(Clone, Copy, Debug, PartialEq, Eq)]
pub enum AnswerRow {
    /// Below 28 bytes.
    Short,
    /// A negotiate message below 36 bytes, or whose counted versions go past its end.
    Cut,
    /// A negotiate message with known versions: the greatest ones.
    Agreed { frame: Version, message: Version },
    /// A negotiate message with no known frame version, or no known message version.
    Unknown,
    /// A heartbeat on a heartbeat channel.
    Heartbeat,
    /// A shutdown on a shutdown channel.
    Shutdown,
    /// Anything else.
    Other,
}

// The row of a negotiate message: cut, agreed or with no version that the guest knows.
fn negotiation(request: &[u8]) -> AnswerRow
    requires { 28 ≤ length request.now }
    ensures row { result ≡ negotiation_of request.now }
    ensures room { HasRoom result (length request.now) }
{
    if request.len() < VERSIONS {
        return AnswerRow::Cut;
    }
    let table = negotiate_table();
    let frames = get(&table, request, CONTENT, 0) as usize;
    let messages = get(&table, request, CONTENT, 1) as usize;
    if request.len() < VERSIONS + 4 * (frames + messages) {
        return AnswerRow::Cut;
    }
    let (_, versions) = request.split_at(VERSIONS);
    let (_, later) = versions.split_at(4 * frames);
    match (greatest(versions, frames), greatest(later, messages)) {
        (Some(frame), Some(message)) => AnswerRow::Agreed { frame, message },
        _ => AnswerRow::Unknown,
    }
}

// A message of a type, on its channel, with all that is looked at.
fn is_asked(asked: u64, by: u64, here: bool, len: usize, least: usize) -> bool
    ensures { result ≡ ((asked == by) && here && nat_le least len) }
{
    asked == by && here && least <= len
}

/// The first row that applies to a request.
pub fn first_row(request: &[u8], kind: DeviceKind) -> AnswerRow
    ensures row { result ≡ row_of kind request.now }
    ensures room { HasRoom result (length request.now) }
{
    if request.len() < 28 {
        return AnswerRow::Short;
    }
    let asked = header_table().get(request, 4);
    if asked == 0 {
        return negotiation(request);
    }
    if is_asked(asked, 1, is_beat(kind), request.len(), 36) {
        return AnswerRow::Heartbeat;
    }
    if is_asked(asked, 3, is_down(kind), request.len(), 40) {
        return AnswerRow::Shutdown;
    }
    AnswerRow::Other
}

/// A heartbeat channel.
pub fn is_beat(kind: DeviceKind) -> bool
    ensures { result ≡ on_beat kind }
{
    matches!(kind, DeviceKind::Beat)
}

// A shutdown channel.
fn is_down(kind: DeviceKind) -> bool
    ensures { result ≡ on_down kind }
{
    matches!(kind, DeviceKind::Down)
}
