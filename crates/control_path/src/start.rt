//! A side that serves a part in a thread. Where no thread could be had it comes back.
ghost use Rattle.control_path.specs.Starting.{Begins, Comes};
ghost use Rattle.control_path.specs.Parts.{IsReady};

use crate::PartSide;
use contact::Part;
use control_side::{Control, PartLeft};
use std::snapshot::Snapshot;
use std::sync::Wait;
use std::sync::atomic::{AtomicBool, Ordering};
use std::thread::{Promise, PromisedHandle, Scope, Threads};

/// What the start of a part gives: it was served, or all comes back.
#[derive(Drop)]
pub(crate) enum Start<C: Control> {
    Ran(PartLeft<C>),
    Back(PartSide<C>),
}

/// A thread that was started for a side keeps this.
#[derive(Drop)]
pub(crate) struct PartPromise<C: Control> {
    side: Snapshot<PartSide<C>>,
    part: Part,
}

impl<C: Control> Promise<Start<C>> for PartPromise<C> {
    ghost use Rattle.control_path.specs.Starting.{Comes};

    ghost kept_by = { λ p s. Comes C.seen C.follows p.part p.side.value s };
}

/// A thread, or what the start gave where none could be had.
#[derive(Drop)]
pub(crate) enum Begun<C: Control> {
    Thread(PromisedHandle<Start<C>, PartPromise<C>>),
    Here(Start<C>),
}

// What the thread does. The word is set only where the start was refused: then the side comes back.
fn serve_there<C: Control, R: Wait>(
    rt: &R,
    refused: &AtomicBool,
    side: PartSide<C>,
    part: Part,
) -> Start<C>
    requires { IsReady C.seen C.follows C.can_begin side part }
    ensures { Comes C.seen C.follows part side result }
{
    if refused.load(Ordering::SeqCst) {
        return Start::Back(side);
    }
    Start::Ran(side.serve(rt, part))
}

/// Starts a part in a thread. The word is this start's own: it is set only once the start was
/// refused.
pub(crate) fn begin_there<'s, E, C: Control + Send + 's, R: Threads + Wait + Sync>(
    rt: &'s R,
    scope: &Scope<'s, E>,
    refused: &'s AtomicBool,
    side: PartSide<C>,
    part: Part,
) -> Begun<C>
    requires { IsReady C.seen C.follows C.can_begin side part }
    ensures { Begins C.seen C.follows part side result }
{
    let promise = PartPromise {
        side: Snapshot::of(&side),
        part,
    };
    match scope.spawn_with(
        promise,
        move ||
            requires { IsReady C.seen C.follows C.can_begin side part }
        { serve_there(rt, refused, side, part) },
    ) {
        Ok(started) => Begun::Thread(started),
        Err(back) => {
            refused.store(true, Ordering::SeqCst);
            Begun::Here((back.value)())
        }
    }
}
