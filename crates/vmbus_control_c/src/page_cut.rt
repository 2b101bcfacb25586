//! Page lists, cut into messages.
ghost use Rattle.std.specs.Prelude.{◌≡◌, ◌≢◌, ◌≤◌, ◌<◌, ◌+◌, ◌*◌, ◌↔◌, Some, IfSome, IsSome, min, length, take, drop, slice_get};
ghost use Rattle.vmbus_msg.specs.Grammar.{IsMessage};
ghost use Rattle.vmbus_msg.specs.declared.msg.Msg.{Msg as Message};
ghost use Rattle.gpadl.specs.Cut.{IsBodyOf, cut};

use gpadl::{body, header};
use vmbus_fault::put_front;
use vmbus_msg::{Msg, encode};

/// How many frames a header holds.
const HEADER_FRAMES: usize = 26;

/// How many frames a body holds.
const BODY_FRAMES: usize = 28;

/// The most pages of a list.
const MOST_PAGES: usize = 8190;

// The first `most` pages, or all where there are fewer.
fn front(pages: &[u64], most: usize) -> &[u64]
    ensures value { result.now ≡ take most pages.now }
    ensures count { length result.now ≡ min most (length pages.now) }
{
    pages.split_at(most.min(pages.len())).0
}

// The body with this number, from 0 on, of a list of these pages, if it has so many.
fn body_of(handle: u32, pages: &[u64], number: u32) -> Option<Msg>
    ensures value { IfSome result (λ m. (26 + 28 * number < length pages.now) × IsBodyOf handle number (take 28 (drop (26 + 28 * number) pages.now)) m) }
    ensures every { 26 + 28 * number < length pages.now → IsSome result }
{
    let begin = HEADER_FRAMES + BODY_FRAMES * number as usize;
    if begin >= pages.len() {
        return None;
    }
    let frames = front(pages.split_at(begin).1, BODY_FRAMES);
    Some(body(handle, number, frames))
}

// The message with this number, from 0 on, of a list of these pages, if it has so many.
fn message(relid: u32, handle: u32, pages: &[u64], number: u32) -> Option<Msg>
    ensures whose { IfSome result (λ m. slice_get (cut relid handle pages.now) number ≡ Some m) }
    ensures few { IfSome result (λ m. length pages.now ≤ 8190) }
    ensures every { length pages.now ≤ 8190 → number < length (cut relid handle pages.now) → IsSome result }
{
    if pages.is_empty() || pages.len() > MOST_PAGES {
        return None;
    }
    if number == 0 {
        return Some(header(relid, handle, pages));
    }
    body_of(handle, pages, number - 1)
}

/// Writes message `number`, from 0 on, of the list of these pages at the front of `out`, and answers 0: message 0 is the header, with the first 26 page frame numbers, and
/// the others are bodies, with the next 28 each and the last one with the rest. `len` is then how many bytes it has. It answers 2 where `out` has less than the 240 bytes
/// that a message may have, or else 1 where the list has no such message, or isn't one of 1 to 8,190 pages. Where the answer isn't 0, nothing is written. Source: Linux
/// `drivers/hv/channel.c`, `create_gpadl_header`.
#[unsafe(no_mangle)]
pub extern "C" fn vmbus_gpadl_write(
    relid: u32,
    handle: u32,
    pages: &[u64],
    number: u32,
    out: &mut [u8],
    len: &mut usize,
) -> u32
    ensures written { result ≡ 0 → (m : Message) × ((slice_get (cut relid handle pages.now) number ≡ Some m) × IsMessage m (take len.new out.new)) }
    ensures every { 240 ≤ length out.old → length pages.now ≤ 8190 → number < length (cut relid handle pages.now) → result ≡ 0 }
    ensures few { result ≡ 0 → length pages.now ≤ 8190 }
    ensures room { (result ≡ 2) ↔ (length out.old < 240) }
    ensures three { result ≤ 2 }
    ensures most { result ≡ 0 → len.new ≤ 240 }
    ensures rest { result ≡ 0 → drop len.new out.new ≡ drop len.new out.old }
    ensures kept { result ≢ 0 → (out.new ≡ out.old) × (len.new ≡ len.old) }
{
    if out.len() < 240 {
        return 2;
    }
    let Some(m) = message(relid, handle, pages, number) else {
        return 1;
    };
    let mut bytes = [0; 240];
    let count = encode(&m, &mut bytes);
    put_front(out, &bytes[..count]);
    *len = count;
    0
}
