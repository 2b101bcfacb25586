//! Words on which a gate holds a worker.
use std::sync::atomic::{AtomicU64, Ordering};

// A hold that lasts longer has failed.
const MOST_TURNS: u32 = 100_000_000;

/// Notes that a worker came here.
pub(crate) fn note(word: &AtomicU64) {
    word.store(1, Ordering::SeqCst);
}

/// Whether the word is set within the turns of a hold.
pub(crate) fn comes(word: &AtomicU64) -> bool {
    for _ in 0..MOST_TURNS {
        if word.load(Ordering::SeqCst) != 0 {
            return true;
        }
    }
    false
}
