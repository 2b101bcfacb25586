//! Atomic words that two ends share.
ghost use Rattle.std.specs.Prelude.{◌≡◌, ◌≤◌, ◌/◌, length, IfOk};
ghost use Rattle.std.specs.Arc.{arc_value};
ghost use Rattle.ring_machine.specs.Places.{IsRingSize, words_of};

use crate::words::Words;
use ring_core::opening_words;
use std::alloc::{AllocError, Global};
use std::sync::Arc;
use std::sync::atomic::{AtomicU64, Ordering};

/// Words in memory that threads share. Nothing is known of what stands there.
#[derive(Drop)]
pub struct AtomicWords {
    words: Arc<Vec<AtomicU64>, Global>,
}

impl AtomicWords {
    /// The words of a new channel whose rings have `d` bytes of data, for each of its two ends.
    #[tactic(auto, using(crate::proofs::SeatLaws::opening_length))]
    pub fn make(alloc: Global, d: u32) -> Result<(AtomicWords, AtomicWords), AllocError>
        requires { IsRingSize d }
        ensures guest { IfOk result (λ r. words_of (d / 8) ≤ length (arc_value r.0.words).items) }
        ensures host { IfOk result (λ r. words_of (d / 8) ≤ length (arc_value r.1.words).items) }
    {
        let opening = opening_words(alloc, d / 8, 0)?;
        let mut words = Vec::new(alloc);
        for word in opening.iter() {
            words.push(AtomicU64::new(*word))?;
        }
        let words = Arc::new(alloc, words)?;
        let other = Arc::try_clone(&words)?;
        Ok((AtomicWords { words }, AtomicWords { words: other }))
    }
}

impl Words for AtomicWords {
    ghost use Rattle.std.specs.Prelude.{length};
    ghost use Rattle.std.specs.Arc.{arc_value};

    ghost count = { λ s. length (arc_value s.words).items };

    ghost loads = { λ _ _ _ _. Unit {0} };

    ghost stores = { λ _ _ _ _. Unit {0} };

    ghost swaps = { λ _ _ _ _ _. Unit {0} };

    fn load(&mut self, at: usize) -> u64 {
        self.words[at].load(Ordering::SeqCst)
    }

    fn store(&mut self, at: usize, value: u64) {
        self.words[at].store(value, Ordering::SeqCst);
    }

    fn swap(&mut self, at: usize, value: u64) -> u64 {
        self.words[at].swap(value, Ordering::SeqCst)
    }
}
