//! What a request asks, and what an answer says.

ghost use Rattle.std.specs.Prelude.{◌≡◌, ◌+◌, ◌≤◌, ◌<◌, ◌^◌, length};
ghost use Rattle.util_ic.specs.Messages.{IsUtility};
ghost use Rattle.util_ic.specs.Asks.{ask_of, answer_of, whole_or_zero};

use crate::row::{AnswerRow, first_row, is_beat};
use crate::tables::{CONTENT, get, heartbeat_table, shutdown_table};
use crate::{IcAnswer, IcAsk};
use contact::DeviceKind;
use wire_table::get_at;

/// What a request asks of the service, where it is a heartbeat on a heartbeat channel of at least 36 bytes or a shutdown on a
/// shutdown channel of at least 40.
pub fn read_ask(request: &[u8], kind: DeviceKind) -> Option<IcAsk>
    requires { IsUtility kind }
    ensures { result ≡ ask_of kind request.now }
{
    match first_row(request, kind) {
        AnswerRow::Heartbeat => Some(IcAsk::Beat {
            seq: get(&heartbeat_table(), request, CONTENT, 0),
        }),
        AnswerRow::Shutdown => {
            let table = shutdown_table();
            Some(IcAsk::Down {
                reason: get(&table, request, CONTENT, 0) as u32,
                timeout: get(&table, request, CONTENT, 1) as u32,
                flags: get(&table, request, CONTENT, 2) as u32,
            })
        }
        _ => None,
    }
}

// A field of an answer, or 0 where it isn't whole.
fn field(answer: &[u8], at: usize, width: usize) -> u64
    requires width { width ≤ 8 }
    requires at { at ≤ 28 }
    ensures value { result ≡ whole_or_zero at width answer.now }
    ensures fits { result < 256 ^ width }
{
    if at + width <= answer.len() {
        get_at(answer, at, width)
    } else {
        0
    }
}

/// What an answer says: its status, and on a heartbeat channel its sequence number. A field that isn't whole counts as 0.
pub fn read_answer(answer: &[u8], kind: DeviceKind) -> IcAnswer
    requires { IsUtility kind }
    ensures { result ≡ answer_of kind answer.now }
{
    IcAnswer {
        status: field(answer, 20, 4) as u32,
        seq: if is_beat(kind) {
            field(answer, 28, 8)
        } else {
            0
        },
    }
}
