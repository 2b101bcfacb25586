//! A channel of one page for the tests here.
ghost use Rattle.std.specs.Prelude.{◌≡◌};

use hostile_memory::{OpenEnd, OpenMem, Scribbler};
use ring_core::Room;
use std::alloc::AllocGlobal;
use std::process::Abort;

/// An end of a channel of one page, with room for 16 packets, and its hand.
pub fn opened(rt: &(impl Abort + AllocGlobal)) -> (OpenEnd, Scribbler)
    ensures { result.1.cells ≡ 512 }
{
    let (mut end, hand) = OpenMem::make(rt.alloc(), 1, 0).expect(rt, "memory");
    let room = Room {
        packets: 16,
        words: 8192,
    };
    end.reserve(room, room).expect(rt, "memory");
    (end, hand)
}
