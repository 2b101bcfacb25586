//! A sink in memory that never fails.
ghost use Rattle.std.specs.Prelude.{◌≡◌, ℕ, ◌+◌, ◌-◌, ◌<◌, ◌≤◌, List, [], ◌++◌, length, take, Some, Ok, IfOk};

use crate::{Failed, Sink};
use std::alloc::{AllocError, Global};
use std::marker::Model;

/// A sink that takes all it is given, as far as its room goes. It tells its room.
#[derive(Drop)]
pub struct SureSink {
    bytes: Vec<u8>,
    size: usize,
}

impl Model for SureSink {
    ghost use Rattle.std.specs.Prelude.{ℕ, ◌<◌, ◌-◌, ◌≤◌, length, vec_capacity};
    ghost use Rattle.io_edge.specs.Memory.{Roomy};

    ghost Value = { Roomy };

    ghost view = { λ s. record { written = s.bytes.items; room = s.size - length s.bytes.items } };

    ghost invariant = { λ s. (length s.bytes.items ≤ s.size) × (s.size ≤ vec_capacity s.bytes) };
}

impl SureSink {
    /// An empty sink with room for `size` bytes.
    pub fn make(alloc: Global, size: usize) -> Result<SureSink, AllocError>
        ensures { IfOk result (λ sink. sink ≡ record { written = []; room = size }) }
    {
        Ok(SureSink {
            bytes: Vec::with_capacity(alloc, size)?,
            size,
        })
    }

    /// The bytes written so far.
    pub fn bytes(&self) -> &[u8]
        ensures { result.now ≡ self.now.written }
    {
        &self.bytes
    }
}

impl Sink for SureSink {
    ghost written = { λ s. Some s.written };

    ghost room = { λ s. Some s.room };

    ghost faults = { λ s. 0 };

    fn write(&mut self, buf: &[u8]) -> Result<usize, Failed>
        requires some { 0 < length buf.now }
        requires fits { length buf.now ≤ self.old.room }
        ensures whole { result ≡ Ok (length buf.now) }
        ensures after { self.new ≡ record { written = self.old.written ++ buf.now; room = self.old.room - length buf.now } }
    {
        self.bytes.extend_from_slice(buf).unwrap();
        Ok(buf.len())
    }
}
