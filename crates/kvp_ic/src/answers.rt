//! The guest's answers.

ghost use Rattle.std.specs.Prelude.{◌≡◌, ◌≢◌, ℕ, ◌+◌, ◌*◌, ◌≤◌, ◌++◌, length, take, drop, List, Some, IfSome};
ghost use Rattle.util_ic.specs.Messages.{put, with_result};
ghost use Rattle.kvp_ic.specs.declared.message.Kvp.{Kvp as Message};
ghost use Rattle.kvp_ic.specs.Machine.{told, IsReplyTo};
ghost use Rattle.kvp_ic.specs.Messages.{Asks, message_size, operation_of};
ghost use Rattle.kvp_pool.specs.Pools.{IsText};
ghost use Rattle.kvp_ic.specs.Texts.{text_size as size_for};
ghost use Rattle.kvp_ic.specs.Answers.{with_text, with_part, kvp_answer, CanCarry, good_told, told_reply};

use crate::KvpReply;
use crate::places::{key_place, value_place};
use crate::text::{TextPlace, find_text, put_text, text_size};
use kvp_pool::Units;
use wire_table::{get_at, put_at};

// Writes a number at a place. Everything else stays.
fn put_number(message: &mut [u8], at: usize, width: usize, v: u64)
    requires { at + width ≤ length message.old }
    ensures { message.new ≡ put at width v message.old }
{
    put_at(message, at, width, v);
}

// Status and flags 5 of an answer.
fn finish(message: &mut [u8], status: u32)
    requires { 28 ≤ length message.old }
    ensures { message.new ≡ with_result status message.old }
{
    put_number(message, 20, 4, u64::from(status));
    put_number(message, 25, 1, 5);
}

// Puts a text into its field of so many bytes, with its size.
fn put_units(message: &mut [u8], room: usize, place: TextPlace, units: &[u16])
    requires before { place.size_at + 4 ≤ place.at }
    requires within { place.at + room ≤ length message.old }
    requires fits { 2 * length units.now ≤ room }
    requires few { length units.now ≤ 1023 }
    ensures { message.new ≡ with_text room place units.now message.old }
{
    put_number(message, place.size_at, 4, u64::from(text_size(units)));
    put_text(&mut message[place.at..place.at + room], units);
}

// Puts a text, where there is one, into its field of so many bytes, with its size.
fn put_part<const MIN: usize, const MAX: usize>(
    message: &mut [u8],
    room: usize,
    place: TextPlace,
    part: &Option<Units<MIN, MAX>>,
)
    requires before { place.size_at + 4 ≤ place.at }
    requires within { IfSome part.now (λ _. place.at + room ≤ length message.old) }
    requires fits { size_for MAX ≤ room }
    requires few { MAX ≤ 1023 }
    ensures put { message.new ≡ with_part room place part.now message.old }
    ensures text { IfSome part.now (λ units. IsText MIN MAX units) }
{
    if let Some(text) = part {
        put_units(message, room, place, text.units());
    }
}

// The operation of a request, and 0 where it has none.
fn operation_in(request: &[u8]) -> u8
    ensures { result ≡ operation_of request.now }
{
    match request.get(28) {
        Some(operation) => *operation,
        None => 0,
    }
}

/// Writes a reply to a request at the front of `out`, and answers its length, which is the request's. The rest of `out` stays.
///
/// The answer is a copy of the request with the status and flags 5. Where the reply has a key or a value, its size and its whole field
/// are written too. A message that is refused is answered by `KvpFault::reply` (Linux 6.12, `drivers/hv/hv_kvp.c`, kvp_respond_to_host).
pub fn answer(request: &[u8], r: &KvpReply, out: &mut [u8]) -> usize
    requires long { 28 ≤ length request.now }
    requires fits { length request.now ≤ length out.old }
    requires carried { CanCarry request.now r.now }
    ensures count { result ≡ length request.now }
    ensures answer { take result out.new ≡ kvp_answer request.now r.now }
    ensures rest { drop result out.new ≡ drop result out.old }

    // A reply to what is asked is read back, whatever follows.
    ensures read_back { (m : Message) (more : List ℕ) → Asks m request.now → IsReplyTo m r.now
        → told_reply (kvp_answer request.now r.now ++ more) ≡ Some r.now }

    // And so is the status of a refusal, whatever the request is.
    ensures refusal { (more : List ℕ) → r.now.status ≢ 0
        → told_reply (kvp_answer request.now r.now ++ more) ≡ Some (told r.now.status) }
{
    let message = &mut out[..request.len()];
    message.copy_from_slice(request);
    finish(message, r.status);
    let operation = operation_in(request);
    put_part(message, 2048, value_place(operation), &r.value);
    put_part(message, 512, key_place(operation), &r.key);
    request.len()
}

// The value that an answer says.
fn read_value(answer: &[u8]) -> Option<KvpReply>
    requires { 2604 ≤ length answer.now }
    ensures { result ≡ good_told 0 answer.now }
{
    match find_text(answer, value_place(0)) {
        Some(value) => Some(KvpReply {
            status: 0,
            key: None,
            value: Some(value),
        }),
        None => None,
    }
}

// The pair that an answer says.
fn read_pair(answer: &[u8]) -> Option<KvpReply>
    requires { 2608 ≤ length answer.now }
    ensures { result ≡ good_told 3 answer.now }
{
    match find_text(answer, key_place(3)) {
        Some(key) => match find_text(answer, value_place(3)) {
            Some(value) => Some(KvpReply {
                status: 0,
                key: Some(key),
                value: Some(value),
            }),
            None => None,
        },
        None => None,
    }
}

// What an answer with status 0 says, by its operation.
fn good(answer: &[u8]) -> Option<KvpReply>
    requires { message_size (operation_of answer.now) ≤ length answer.now }
    ensures { result ≡ good_told (operation_of answer.now) answer.now }
{
    match answer[28] {
        0 => read_value(answer),
        3 => read_pair(answer),
        _ => Some(KvpReply::of_status(0)),
    }
}

// How many bytes a message has at least.
fn size_of(operation: u8) -> usize
    ensures { result ≡ message_size operation }
{
    if operation == 3 { 2608 } else { 2604 }
}

/// What an answer says: its status, and where that is 0 the value of a get, or the key and the value at a place. `None` where it
/// has fewer than 28 bytes, or the status is 0 and it has too few for its operation, or a text that is to be read is wrong.
pub fn read_reply(answer: &[u8]) -> Option<KvpReply>
    ensures { result ≡ told_reply answer.now }
{
    if answer.len() < 28 {
        return None;
    }
    let status = get_at(answer, 20, 4) as u32;
    if status != 0 {
        return Some(KvpReply::of_status(status));
    }
    if answer.len() < 2604 || answer.len() < size_of(answer[28]) {
        return None;
    }
    good(answer)
}
