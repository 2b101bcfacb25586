//! A source in memory that never fails.
ghost use Rattle.std.specs.Prelude.{◌≡◌, ℕ, ◌+◌, ◌<◌, ◌≤◌, List, length, take, drop, Some, IsOkAnd, min};

use crate::give::give;
use crate::{Failed, Source};
use std::marker::Model;

/// A source over bytes that never fails. Contracts see the bytes that are left.
#[derive(Drop)]
pub struct SureSource {
    bytes: Vec<u8>,
    at: usize,
}

impl Model for SureSource {
    ghost use Rattle.std.specs.Prelude.{ℕ, List, ◌≤◌, length, drop};

    ghost Value = { List ℕ };

    ghost view = { λ s. drop s.at s.bytes.items };

    ghost invariant = { λ s. s.at ≤ length s.bytes.items };
}

impl SureSource {
    /// A source of these bytes.
    pub fn make(bytes: Vec<u8>) -> SureSource
        ensures { result ≡ bytes.items }
    {
        SureSource { bytes, at: 0 }
    }
}

impl Source for SureSource {
    ghost left = { λ s. Some s };

    ghost faults = { λ s. 0 };

    fn read(&mut self, buf: &mut [u8]) -> Result<usize, Failed>
        requires { 0 < length buf.old }
        ensures count { IsOkAnd result (λ n. n ≡ min (length self.old) (length buf.old)) }
        ensures gives { IsOkAnd result (λ n. take n buf.new ≡ take n self.old) }
        ensures rest { IsOkAnd result (λ n. drop n buf.new ≡ drop n buf.old) }
        ensures after { IsOkAnd result (λ n. self.new ≡ drop n self.old) }
    {
        let count = give(&self.bytes[self.at..], usize::MAX, buf);
        self.at += count;
        Ok(count)
    }
}
