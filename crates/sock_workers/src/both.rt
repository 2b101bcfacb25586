//! Both workers of a socket on one thread.
ghost use Rattle.sock_workers.specs.Workers.{GuestGoes, GuestLeaves, HostLeaves, IsLive, Stands};
ghost use Rattle.sock_workers.specs.Ports.{Goes};

use crate::ended::{Ended, Turn};
use crate::guest::{GuestDone, SockGuest};
use crate::host::{HostDone, SockHost};
use std::sync::Wait;

// A turn of the guest, unless it has ended.
fn guest_turn(guest: &mut SockGuest, ended: Option<Ended>) -> Option<Ended>
    requires { Stands ended guest.old.port }
    ensures stands { Stands result guest.new.port }
    ensures goes { GuestGoes guest.old guest.new }
{
    if ended.is_some() {
        return ended;
    }
    match guest.turn() {
        Turn::Moved => None,
        Turn::Idle => None,
        Turn::Ended(how) => Some(how),
    }
}

// A turn of the host, unless it has ended.
fn host_turn(host: &mut SockHost, ended: Option<Ended>) -> Option<Ended>
    requires { Stands ended host.old.port }
    ensures stands { Stands result host.new.port }
    ensures goes { Goes host.old.port host.new.port }
{
    if ended.is_some() {
        return ended;
    }
    match host.turn() {
        Turn::Moved => None,
        Turn::Idle => None,
        Turn::Ended(how) => Some(how),
    }
}

/// Runs both workers of a channel by turns on this thread, until both have ended.
pub fn run_both<R: Wait>(rt: &R, mut guest: SockGuest, mut host: SockHost) -> (GuestDone, HostDone)
    requires guest { IsLive guest.port }
    requires host { IsLive host.port }
    ensures guest { GuestLeaves guest result.0.ended result.0.output.items result.0.end }
    ensures host { HostLeaves host result.1.ended result.1.end }
{
    let mut guest_ended = None;
    let mut host_ended = None;
    for _ in rt.forever() {
        guest_ended = guest_turn(&mut guest, guest_ended);
        host_ended = host_turn(&mut host, host_ended);
        if let (Some(g), Some(h)) = (guest_ended, host_ended) {
            return (guest.done(g), host.done(h));
        }
    }
    unreachable!()
}
