//! A part of both sides.
ghost use Rattle.control_path.specs.Parts.{IsReady, Leaves};
ghost use Rattle.control_path.specs.Starting.{Comes};

use crate::PartSide;
use crate::start::{Begun, Start, begin_there};
use contact::Part;
use control_side::{Control, PartLeft, Serving, Turn};
use std::snapshot::Snapshot;
use std::sync::Wait;
use std::sync::atomic::AtomicBool;
use std::thread;
use std::thread::{Scope, Threads};

/// Runs a part: the host's side in a thread, and the guest's here. Where no thread can be had both
/// are served here, in turns, through the same queues and with the same rules.
pub fn run_part<G: Control, H: Control + Send, R: Threads + Wait + Sync>(
    rt: &R,
    guest: PartSide<G>,
    host: PartSide<H>,
    part: Part,
) -> (PartLeft<G>, PartLeft<H>)
    requires guest { IsReady G.seen G.follows G.can_begin guest part }
    requires host { IsReady H.seen H.follows H.can_begin host part }
    ensures guest { Leaves G.seen G.follows part guest result.0 }
    ensures host { Leaves H.seen H.follows part host result.1 }
{
    let word = AtomicBool::new(false);
    let refused = &word;
    thread::scope(
        thread::scope_env(),
        rt,
        |scope|
            requires guest { IsReady G.seen G.follows G.can_begin guest part }
            requires host { IsReady H.seen H.follows H.can_begin host part }
        { run_in(rt, scope, refused, guest, host, part) },
    )
}

// Both sides in a scope of threads.
fn run_in<'s, E, G: Control, H: Control + Send + 's, R: Threads + Wait + Sync>(
    rt: &'s R,
    scope: &Scope<'s, E>,
    refused: &'s AtomicBool,
    guest: PartSide<G>,
    host: PartSide<H>,
    part: Part,
) -> (PartLeft<G>, PartLeft<H>)
    requires guest { IsReady G.seen G.follows G.can_begin guest part }
    requires host { IsReady H.seen H.follows H.can_begin host part }
    ensures guest { Leaves G.seen G.follows part guest result.0 }
    ensures host { Leaves H.seen H.follows part host result.1 }
{
    let side = Snapshot::of(&host);
    match begin_there(rt, scope, refused, host, part) {
        Begun::Thread(handle) => {
            let guest = guest.serve(rt, part);
            let host = host_left(rt, &side, handle.join(rt), part);
            (guest, host)
        }
        Begun::Here(left) => both_here(rt, guest, &side, left, part),
    }
}

// What a thread left of the host's side.
fn host_left<H: Control, R: Wait>(
    rt: &R,
    side: &Snapshot<PartSide<H>>,
    left: Start<H>,
    part: Part,
) -> PartLeft<H>
    requires ready { IsReady H.seen H.follows H.can_begin side.now.value part }
    requires comes { Comes H.seen H.follows part side.now.value left }
    ensures { Leaves H.seen H.follows part side.now.value result }
{
    match left {
        Start::Ran(done) => done,
        Start::Back(host) => host.serve(rt, part),
    }
}

// Both sides, where the host's came back from a start that was refused.
fn both_here<G: Control, H: Control, R: Wait>(
    rt: &R,
    guest: PartSide<G>,
    side: &Snapshot<PartSide<H>>,
    left: Start<H>,
    part: Part,
) -> (PartLeft<G>, PartLeft<H>)
    requires guest { IsReady G.seen G.follows G.can_begin guest part }
    requires ready { IsReady H.seen H.follows H.can_begin side.now.value part }
    requires comes { Comes H.seen H.follows part side.now.value left }
    ensures guest { Leaves G.seen G.follows part guest result.0 }
    ensures host { Leaves H.seen H.follows part side.now.value result.1 }
{
    match left {
        Start::Ran(done) => (guest.serve(rt, part), done),
        Start::Back(host) => by_turns(rt, guest, host, part),
    }
}

// Both sides here, move by move, through the same queues.
fn by_turns<G: Control, H: Control, R: Wait>(
    rt: &R,
    guest: PartSide<G>,
    host: PartSide<H>,
    part: Part,
) -> (PartLeft<G>, PartLeft<H>)
    requires guest { IsReady G.seen G.follows G.can_begin guest part }
    requires host { IsReady H.seen H.follows H.can_begin host part }
    ensures guest { Leaves G.seen G.follows part guest result.0 }
    ensures host { Leaves H.seen H.follows part host result.1 }
{
    let mut guest = Serving::begin(guest.control, part, guest.fetch, guest.post, guest.local);
    let mut host = Serving::begin(host.control, part, host.fetch, host.post, host.local);
    for _ in rt.forever() {
        let guest_turn = guest.turn(rt);
        let host_turn = host.turn(rt);
        if guest_turn == Turn::Ended && host_turn == Turn::Ended {
            return (guest.end(), host.end());
        }
    }
    unreachable!()
}
