//! A page list, cut into messages.
ghost use Rattle.std.specs.Prelude.{◌≡◌, ◌-◌, ◌≤◌, min, length, take, drop, IfOk};
ghost use Rattle.gpadl.specs.Cut.{IsHeaderOf, IsBodyOf, AreMessagesOf};

use std::alloc::{AllocError, Global};
use vmbus_msg::{Frames, GpadlBody, GpadlHeader, Msg};

/// How many frames a header holds.
const HEADER_FRAMES: usize = 26;

/// How many frames a body holds.
const BODY_FRAMES: usize = 28;

/// The messages of a list of 1 to 8,190 pages: a header with the first 26 frames, and then bodies
/// with the next 28 each, the last one with the rest.
pub fn to_messages(
    alloc: Global,
    relid: u32,
    handle: u32,
    pages: &[u64],
) -> Result<Vec<Msg>, AllocError>
    requires { (1 ≤ length pages.now) × (length pages.now ≤ 8190) }
    ensures { IfOk result (λ messages. AreMessagesOf relid handle pages.now messages.items) }
{
    let mut messages = Vec::with_capacity(alloc, 1 + pages.len() / BODY_FRAMES)?;
    messages.push(header(relid, handle, pages))?;
    let mut left = cut_at(pages, HEADER_FRAMES).1;
    let mut number = 0;
    while !left.is_empty() {
        let (frames, later) = cut_at(left, BODY_FRAMES);
        messages.push(body(handle, number, frames))?;
        left = later;
        number += 1;
    }
    Ok(messages)
}

/// The header of a list of 1 to 8,190 pages: it holds the first 26.
pub fn header(relid: u32, handle: u32, pages: &[u64]) -> Msg
    requires { (1 ≤ length pages.now) × (length pages.now ≤ 8190) }
    ensures { IsHeaderOf relid handle pages.now result }
{
    Msg::GpadlHeader(GpadlHeader {
        padding: 0,
        relid,
        gpadl: handle,
        range_buflen: 8 + 8 * pages.len() as u16,
        rangecount: 1,
        byte_count: 4096 * pages.len() as u32,
        byte_offset: 0,
        frames: frames_of(cut_at(pages, HEADER_FRAMES).0),
    })
}

/// The body with this number, from 0 on, and these 1 to 28 frames.
pub fn body(handle: u32, number: u32, frames: &[u64]) -> Msg
    requires { (1 ≤ length frames.now) × (length frames.now ≤ 28) }
    ensures { IsBodyOf handle number frames.now result }
{
    Msg::GpadlBody(GpadlBody {
        padding: 0,
        msgnumber: number,
        gpadl: handle,
        frames: frames_of(frames),
    })
}

// The first `most` pages, or all where there are fewer, and those behind them.
fn cut_at(pages: &[u64], most: usize) -> (&[u64], &[u64])
    ensures front { result.0.now ≡ take most pages.now }
    ensures back { result.1.now ≡ drop most pages.now }
    ensures some { length result.0.now ≡ min most (length pages.now) }
    ensures rest { length result.1.now ≡ length pages.now - most }
{
    pages.split_at(most.min(pages.len()))
}

// The frames of a message.
fn frames_of(pages: &[u64]) -> Frames
    requires { length pages.now ≤ 28 }
    ensures { result ≡ pages.now }
{
    let mut frames = Frames::new();
    for page in pages {
        frames.push(*page);
    }
    frames
}
