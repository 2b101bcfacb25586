//! What both ends of a queue share.
ghost use Rattle.std.specs.Prelude.{◌≡◌};

use crate::rule::Queue;
use std::thread::Parker;

/// A queue, and where each of its ends sleeps.
///
/// A move of one end is told the other's parker behind the move. So an end that found nothing to
/// do misses no move: one that came after its look leaves a token, by which the next sleep ends.
#[derive(Drop)]
pub(crate) struct Shared {
    pub(crate) queue: Queue,
    // The end that takes sleeps here until a message was put.
    pub(crate) mail: Parker,
    // The end that puts sleeps here until a message was taken.
    pub(crate) room: Parker,
}

impl Shared {
    pub(crate) fn over(queue: Queue) -> Shared
        ensures { result.queue ≡ queue }
    {
        Shared {
            queue,
            mail: Parker::new(),
            room: Parker::new(),
        }
    }
}
