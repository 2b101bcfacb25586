//! The guest's answer to any request.

ghost use Rattle.std.specs.Prelude.{◌≡◌, ℕ, ◌+◌, ◌<◌, ◌≤◌, ◌++◌, length, take, drop, List, Some};
ghost use Rattle.util_ic.specs.declared.ic.IcAsk.{IcAsk};
ghost use Rattle.util_ic.specs.Messages.{IsUtility, with_result, with_seq_risen};
ghost use Rattle.util_ic.specs.Answers.{row_of, answer_by, utility_answer, short_answer, with_counts, with_agreed, HasRoom};
ghost use Rattle.pkt_desc.specs.Packets.{Carries};
ghost use Rattle.util_ic.specs.Packets.{served_packet};
ghost use Rattle.util_ic.specs.Asks.{ask_of, answer_of, answer_bytes, reply_of, Answered};

use crate::down::down_status;
use crate::request::clear;
use crate::row::{AnswerRow, first_row};
use crate::tables::{
    CONTENT, VERSIONS, get, header_table, heartbeat_table, negotiate_table, set, shutdown_table,
};
use crate::version::{Version, put_version};
use contact::DeviceKind;

const FAIL: u32 = 0x8000_4005;

// Status and flags 5 of an answer.
fn finish(message: &mut [u8], status: u32)
    requires { 28 ≤ length message.old }
    ensures { message.new ≡ with_result status message.old }
{
    let table = header_table();
    set(&table, message, 0, 8, u64::from(status));
    set(&table, message, 0, 10, 5);
}

// The answer to what is no message: its bytes are 0 but for status and flags.
fn short(reply: &mut [u8])
    requires { length reply.old ≡ 28 }
    ensures { reply.new ≡ short_answer }
{
    clear(reply);
    finish(reply, FAIL);
}

// The counts of versions in an answer to a negotiate message.
fn put_counts(message: &mut [u8], count: u16)
    requires { 36 ≤ length message.old }
    ensures { message.new ≡ with_counts count message.old }
{
    let table = negotiate_table();
    set(&table, message, CONTENT, 0, u64::from(count));
    set(&table, message, CONTENT, 1, u64::from(count));
}

// The agreed versions in an answer to a negotiate message.
fn put_agreed(message: &mut [u8], frame: Version, agreed: Version)
    requires { 44 ≤ length message.old }
    ensures { message.new ≡ with_agreed frame agreed message.old }
{
    put_version(message, VERSIONS, frame);
    put_version(message, VERSIONS + 4, agreed);
}

// The sequence number of a heartbeat's answer.
fn raise_seq(message: &mut [u8])
    requires { 36 ≤ length message.old }
    ensures { message.new ≡ with_seq_risen message.old }
{
    let table = heartbeat_table();
    let seq = get(&table, message, CONTENT, 0);
    set(&table, message, CONTENT, 0, seq.wrapping_add(1));
}

// Changes a copy of a request into its answer, by the row that applies.
fn answer(message: &mut [u8], row: AnswerRow)
    requires long { 28 ≤ length message.old }
    requires room { HasRoom row (length message.old) }
    ensures { message.new ≡ answer_by row message.old }
{
    match row {
        AnswerRow::Short => unreachable!(),
        AnswerRow::Cut | AnswerRow::Other => finish(message, FAIL),
        AnswerRow::Agreed {
            frame,
            message: agreed,
        } => {
            put_counts(message, 1);
            put_agreed(message, frame, agreed);
            finish(message, 0);
        }
        AnswerRow::Unknown => {
            put_counts(message, 0);
            finish(message, 0);
        }
        AnswerRow::Heartbeat => {
            raise_seq(message);
            finish(message, 0);
        }
        AnswerRow::Shutdown => {
            let flags = get(&shutdown_table(), message, CONTENT, 2) as u32;
            finish(message, down_status(flags));
        }
    }
}

/// Writes the guest's answer to any request of a utility channel at the front of `reply`, and answers its length: 28 bytes
/// where the request has fewer, and as many as the request otherwise. The rest of `reply` stays.
///
/// The answer is a copy of the request but for its status, its flags and what its type asks for, by the first row of the
/// table of answers that applies (Linux 6.12, `drivers/hv/channel_mgmt.c`, vmbus_prep_negotiate_resp, and
/// `drivers/hv/hv_util.c`).
pub fn serve(request: &[u8], kind: DeviceKind, reply: &mut [u8]) -> usize
    requires kind { IsUtility kind }
    requires room { 28 ≤ length reply.old }
    requires fits { length request.now ≤ length reply.old }
    ensures count { result ≡ length (utility_answer kind request.now) }
    ensures most { result ≤ length reply.old }
    ensures answer { take result reply.new ≡ utility_answer kind request.now }
    ensures rest { drop result reply.new ≡ drop result reply.old }
    ensures packet { (id : ℕ) → length (utility_answer kind request.now) ≤ 3056 → Carries (served_packet id kind request.now) 6 id 0 (utility_answer kind request.now) }
    ensures asked { (ask : IcAsk) → ask_of kind request.now ≡ Some ask → Answered kind ask request.now (take result reply.new) }
{
    if request.len() < 28 {
        short(&mut reply[..28]);
        return 28;
    }
    let row = first_row(request, kind);
    let message = &mut reply[..request.len()];
    message.copy_from_slice(request);
    answer(message, row);
    request.len()
}
