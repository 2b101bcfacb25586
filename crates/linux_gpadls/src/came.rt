//! What a list came to.

use gpadl::{Assembler, PageList, Progress, to_messages};
use std::alloc::{AllocError, Global};
use vmbus_msg::{Msg, decode, encode};

// The list's channel and its handle.
const RELID: u32 = 5;

const HANDLE: u32 = 925_200;

/// What a list came to.
#[derive(Clone, Copy)]
pub(crate) enum Came {
    /// The messages make the pages, and the pages make the messages.
    Alike,
    /// The input names no list of 1 to 8,190 pages.
    NoList,
    /// The pages are cut into other messages.
    OtherMessages,
    /// A message is refused.
    Refused,
    /// The messages make another list, or none.
    OtherPages,
}

impl Came {
    /// It, in words.
    pub(crate) fn text(&self) -> &'static str {
        match self {
            Came::Alike => "alike",
            Came::NoList => "no list",
            Came::OtherMessages => "other messages",
            Came::Refused => "a message is refused",
            Came::OtherPages => "other pages",
        }
    }
}

/// Which list it is: so many pages from the first on.
#[derive(Clone, Copy)]
pub(crate) struct Head {
    pub(crate) pages: u32,
    pub(crate) first: u32,
}

/// What the list that the head names, and whose messages these lines are, came to.
pub(crate) fn found(alloc: Global, head: Head, lines: &[&str]) -> Result<Came, AllocError> {
    let pages = numbers(alloc, head)?;
    if pages.is_empty() || pages.len() > 8190 {
        return Ok(Came::NoList);
    }
    let messages = to_messages(alloc, RELID, HANDLE, pages.as_slice())?;
    if !are_these(messages.as_slice(), lines) {
        return Ok(Came::OtherMessages);
    }
    match assembled(alloc, lines) {
        Some(Progress::Done(list)) if is_of(&list, &pages) => Ok(Came::Alike),
        Some(_) => Ok(Came::OtherPages),
        None => Ok(Came::Refused),
    }
}

/// The list that two numbers name.
pub(crate) fn read_head(text: &str) -> Option<Head> {
    let (pages, first) = text.split_once(' ')?;
    Some(Head {
        pages: pages.parse().ok()?,
        first: first.parse().ok()?,
    })
}

// The list's pages.
fn numbers(alloc: Global, head: Head) -> Result<Vec<u64>, AllocError> {
    let mut pages = Vec::new(alloc);
    for i in 0..head.pages {
        pages.push(u64::from(head.first) + u64::from(i))?;
    }
    Ok(pages)
}

// The list is the one of the channel and the handle, with these pages.
fn is_of(list: &PageList, pages: &Vec<u64>) -> bool {
    list.relid == RELID && list.handle == HANDLE && list.pages == *pages
}

// Each line has the bytes of its message.
fn are_these(messages: &[Msg], lines: &[&str]) -> bool {
    let same = |(m, line): (&Msg, &&str)| is_line(m, line);
    messages.len() == lines.len() && messages.iter().zip(lines.iter()).all(same)
}

// The line has the message's bytes.
fn is_line(m: &Msg, line: &str) -> bool {
    let mut bytes = [0; 240];
    let mut out = [0; 240];
    let len = encode(m, &mut out);
    hex::decode_to_slice(line, &mut bytes[..len]).is_ok() && bytes[..len] == out[..len]
}

// A line's message.
fn message(line: &str) -> Option<Msg> {
    let mut bytes = [0; 240];
    let len = (line.len() / 2).min(240);
    hex::decode_to_slice(line, &mut bytes[..len]).ok()?;
    decode(&bytes[..len]).ok()
}

// What the last of the messages brought about, if none is refused.
fn assembled(alloc: Global, lines: &[&str]) -> Option<Progress> {
    let mut assembler = Assembler::make(alloc);
    let mut last = None;
    for line in lines {
        let m = message(line)?;
        if !matches!(m, Msg::GpadlHeader(_) | Msg::GpadlBody(_)) {
            return None;
        }
        last = assembler.feed(&m).ok();
        last.as_ref()?;
    }
    last
}
