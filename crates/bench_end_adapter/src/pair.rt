//! Both ends of a new channel on atomic words, whose rings have 16 pages.
use crate::port::EndPort;
use ring_core::Room;
use ring_seat::{ChannelMem, GuestEnd, HostEnd};
use std::alloc::{AllocError, Global};

// Room for so many packets of so many words, and for a ring beside them.
fn room_for(words: u64, count: u64) -> Room {
    Room {
        packets: count.saturating_add(1),
        words: count.wrapping_mul(words).wrapping_add(8192),
    }
}

// Makes this room at both ends, for packets that are sent, and for those that come.
fn reserve(guest: &mut GuestEnd, host: &mut HostEnd, room: Room) -> Result<(), AllocError> {
    guest.reserve(room, room)?;
    host.reserve(room, room)
}

/// Both ends, with room for so many packets, sent and got.
pub fn roomy(alloc: Global, words: u64, count: u64) -> Result<(EndPort, EndPort), AllocError> {
    let room = room_for(words, count);
    let (mut guest, mut host) = ChannelMem::make(alloc, 16, 0)?;
    match reserve(&mut guest, &mut host, room) {
        Ok(()) => Ok((EndPort::of(guest), EndPort::of(host))),
        Err(refused) => {
            drop(guest);
            drop(host);
            Err(refused)
        }
    }
}

/// Touches as much memory as the four lists of both ends take, so that no packet pays for pages that were never touched.
pub(crate) fn touch(alloc: Global, words: u64, count: u64) -> Result<(), AllocError> {
    let room = room_for(words, count);
    let all = room.words.saturating_add(room.packets).saturating_mul(4);
    let touched = Vec::from_elem(alloc, 1u64, all as usize)?;
    drop(touched);
    Ok(())
}
