//! A page list of which frames are missing.
ghost use Rattle.std.specs.Prelude.{◌≡◌, ◌+◌, ◌≤◌, ◌++◌, length, vec_len, vec_capacity, IfOk, Some};
ghost use Rattle.vmbus_msg.specs.Pages.{pages_of};
ghost use Rattle.gpadl.specs.Assembly.{begun, body_fault, with_frames};

use crate::{GpadlFault, PageList};
use std::alloc::{AllocError, Global};
use std::marker::Model;
use vmbus_msg::{GpadlBody, GpadlHeader};

/// What came so far of a page list. There is room for all of it.
#[derive(Drop)]
pub struct Building {
    relid: u32,
    handle: u32,
    want: u32,
    pages: Vec<u64>,
}

impl Model for Building {
    ghost use Rattle.std.specs.Prelude.{◌≤◌, length, vec_capacity};
    ghost use Rattle.gpadl.specs.Assembly.{Partial};

    ghost Value = { Partial };

    ghost view = { λ b. record { relid = b.relid; handle = b.handle; want = b.want; pages = b.pages.items } };

    ghost invariant = { λ b. (length b.pages.items ≤ b.want) × (b.want ≤ 8190) × (b.want ≤ vec_capacity b.pages) };
}

impl Building {
    /// The list of a header, with the header's frames.
    pub fn begin(alloc: Global, h: &GpadlHeader) -> Result<Building, AllocError>
        ensures { IfOk result (λ b. b ≡ begun h.now) }
    {
        let want = pages_of(h);
        let mut pages = Vec::with_capacity(alloc, want as usize)?;
        push_all(&mut pages, h.frames.as_slice());
        Ok(Building {
            relid: h.relid,
            handle: h.gpadl,
            want,
            pages,
        })
    }

    /// Its handle.
    pub fn handle(&self) -> u32
        ensures { result ≡ self.now.handle }
    {
        self.handle
    }

    /// The fault of a body for this list: another list's, or more frames than are missing.
    pub fn fault(&self, b: &GpadlBody) -> Option<GpadlFault>
        ensures { result ≡ body_fault (Some self.now) b.now }
    {
        if self.handle != b.gpadl {
            return Some(GpadlFault::Handle { id: b.gpadl });
        }
        let want = self.want - self.pages.len() as u32;
        let have = b.frames.len() as u32;
        if want < have {
            return Some(GpadlFault::Count { want, have });
        }
        None
    }

    /// Adds a body's frames.
    pub fn go_on(&mut self, b: &GpadlBody)
        requires { length self.old.pages + length b.now.frames ≤ self.old.want }
        ensures { self.new ≡ with_frames self.old b.now.frames }
    {
        push_all(&mut self.pages, b.frames.as_slice());
    }

    /// How many frames came, and how many pages the list has.
    pub fn count(&self) -> (u32, u32)
        ensures have { result.0 ≡ length self.now.pages }
        ensures want { result.1 ≡ self.now.want }
        ensures most { length self.now.pages ≤ self.now.want }
    {
        (self.pages.len() as u32, self.want)
    }

    /// The whole list.
    pub fn end(self) -> PageList
        ensures relid { result.relid ≡ self.relid }
        ensures handle { result.handle ≡ self.handle }
        ensures pages { result.pages.items ≡ self.pages }
    {
        let Building {
            relid,
            handle,
            want: _,
            pages,
        } = self;
        PageList {
            relid,
            handle,
            pages,
        }
    }
}

/// How many pages the list of a header has.
pub fn pages_of(h: &GpadlHeader) -> u32
    ensures value { result ≡ pages_of h.now.range_buflen }
    ensures most { result ≤ 8190 }
    ensures some { 1 ≤ result }
    ensures frames { length h.now.frames ≤ result }
{
    u32::from(h.range_buflen - 8) / 8
}

// Adds frames, for which there is room.
fn push_all(pages: &mut Vec<u64>, frames: &[u64])
    requires { vec_len pages.old + length frames.now ≤ vec_capacity pages.old }
    ensures items { pages.new.items ≡ pages.old.items ++ frames.now }
    ensures capacity { vec_capacity pages.new ≡ vec_capacity pages.old }
{
    for frame in frames {
        pages.push_reserved(*frame);
    }
}
