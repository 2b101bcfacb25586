//! A sink in memory that fails when it is told to.
ghost use Rattle.std.specs.Prelude.{◌≡◌, ℕ, ◌+◌, ◌<◌, ◌≤◌, ◌||◌, List, [], length, take, drop, Some, None, IfOk, OnErr, is_err};
ghost use Rattle.io_edge.specs.Memory.{next_count, is_among, is_full, taken, after_write, after_failed_write};

use crate::give::is_named;
use crate::{Failed, Sink};
use std::alloc::{AllocError, Global};
use std::marker::Model;

/// A sink of `size` bytes. It takes at most `piece` bytes a call, and fails at the named calls,
/// counted from 1, and where it is full.
#[derive(Drop)]
pub struct MemSink {
    bytes: Vec<u8>,
    size: usize,
    piece: usize,
    fails: Vec<u32>,
    calls: u64,
    faults: u64,
}

impl Model for MemSink {
    ghost use Rattle.std.specs.Prelude.{ℕ, ◌<◌, ◌≤◌, length, vec_capacity};
    ghost use Rattle.io_edge.specs.Memory.{Output};

    ghost Value = { Output };

    ghost view = { λ s. record { written = s.bytes.items; size = s.size; piece = s.piece; fails = s.fails.items; calls = s.calls; faults = s.faults } };

    ghost invariant = { λ s. (length s.bytes.items ≤ s.size) × (s.size ≤ vec_capacity s.bytes) × (0 < s.piece) };
}

impl MemSink {
    /// An empty sink, before its first call.
    pub fn make(
        alloc: Global,
        size: usize,
        piece: usize,
        fails: Vec<u32>,
    ) -> Result<MemSink, AllocError>
        requires { 0 < piece }
        ensures { IfOk result (λ sink. sink ≡ record { written = []; size = size; piece = piece; fails = fails.items; calls = 0; faults = 0 }) }
    {
        Ok(MemSink {
            bytes: Vec::with_capacity(alloc, size)?,
            size,
            piece,
            fails,
            calls: 0,
            faults: 0,
        })
    }

    /// The bytes written so far.
    pub fn bytes(&self) -> &[u8]
        ensures { result.now ≡ self.now.written }
    {
        &self.bytes
    }
}

impl Sink for MemSink {
    ghost written = { λ s. Some s.written };

    ghost room = { λ s. None };

    ghost faults = { λ s. s.faults };

    fn write(&mut self, buf: &[u8]) -> Result<usize, Failed>
        requires { 0 < length buf.now }
        ensures fails { is_err result ≡ (is_full self.old || is_among self.old.fails (next_count self.old.calls)) }
        ensures within { IfOk result (λ n. (1 ≤ n) × (n ≤ length buf.now)) }
        ensures count { IfOk result (λ n. n ≡ taken self.old (length buf.now)) }
        ensures after { IfOk result (λ n. self.new ≡ after_write self.old (take n buf.now)) }
        ensures later { self.old.faults ≤ self.new.faults }
        ensures failed { OnErr result (self.new ≡ after_failed_write self.old) }
    {
        self.calls = self.calls.saturating_add(1);
        let room = self.size - self.bytes.len();
        if room == 0 || is_named(&self.fails, self.calls) {
            self.faults = self.faults.saturating_add(1);
            return Err(Failed);
        }
        let count = buf.len().min(self.piece).min(room);
        self.bytes.extend_from_slice(&buf[..count]).unwrap();
        Ok(count)
    }
}
