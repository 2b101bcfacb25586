//! Ends for the tests here.
use ring_core::{End, Room, Side, SoloMem};
use std::alloc::AllocGlobal;
use std::process::Abort;

/// An end over a solo memory of one page, with room for this in each list.
pub fn solo_end(rt: &(impl Abort + AllocGlobal), side: Side, room: Room) -> End<SoloMem> {
    let solo = SoloMem::make(rt.alloc(), 4096, 0).expect(rt, "memory");
    let mut e = End::make(rt.alloc(), side, 4096, solo, 0).expect(rt, "memory");
    e.reserve(room, room).expect(rt, "memory");
    e
}
