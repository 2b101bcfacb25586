//! A control in a part, move by move.
ghost use Rattle.std.specs.Prelude.{◌≡◌, false, [], Some};
ghost use Rattle.std.specs.Option.{option_to_list};
ghost use Rattle.control_side.specs.Sides.{AtRest, Served, parting_of};
ghost use Rattle.control_side.specs.Standing.{Stands, HasTaken, IsAtEnd, IsSame, Moves, PutsFirst};

use crate::{Control, PartDone, PartLeft};
use contact::Part;
use control_model::ControlFault;
use mail_box::{FetchEnd, MailBox, Nothing, PostEnd};
use std::hint;
use std::sync::Wait;
use vmbus_msg::Msg;

/// What a move did.
#[derive(Clone, Copy, Debug, PartialEq, Eq)]
pub enum Turn {
    /// Something.
    Moved,
    /// Nothing: a queue gave no message, or had no room for the one that is to be put.
    Idle,
    /// Nothing, and nothing more is to be done in this part.
    Ended,
}

/// A control in a part, with its ends of both queues.
#[derive(Drop)]
pub struct Serving<C: Control> {
    control: C,
    fetch: FetchEnd,
    post: PostEnd,
    // Its messages that are still to be put, and before them the one that is to be put next.
    local: MailBox,
    held: Option<Msg>,
    fault: Option<ControlFault>,
    part: Part,
}

impl<C: Control> Serving<C> {
    /// Begins a part. Where that is refused for want of memory, the message that ends this side's
    /// early is to be put.
    pub fn begin(
        control: C,
        part: Part,
        fetch: FetchEnd,
        post: PostEnd,
        local: MailBox,
    ) -> Serving<C>
        requires follows { C.follows control }
        requires part { C.can_begin control part }
        requires rest { AtRest (C.seen control) fetch post }
        requires local { local ≡ record { size = 64; queue = [] } }
        ensures stands { Stands C.seen C.follows result }
        ensures part { result.part ≡ part }
        ensures same { IsSame (C.seen control) fetch post (C.seen result.control) result.fetch result.post }
    {
        let mut control = control;
        let mut local = local;
        let (held, fault) = match control.begin(part, &mut local) {
            Ok(()) => (None, None),
            Err(_) => (Some(control.parting()), Some(ControlFault::Memory)),
        };
        Serving {
            control,
            fetch,
            post,
            local,
            held,
            fault,
            part,
        }
    }

    /// Makes one move. All that waits here is put before the next message is taken, and a message
    /// that the queue had no room for is put again. Behind a refusal nothing is taken; behind want of
    /// memory the message that ends this side's early is put.
    pub fn turn<R: Wait>(&mut self, rt: &R) -> Turn
        requires { Stands C.seen C.follows self.old }
        ensures stands { Stands C.seen C.follows self.new }
        ensures part { self.new.part ≡ self.old.part }
        ensures same { IsSame (C.seen self.old.control) self.old.fetch self.old.post (C.seen self.new.control) self.new.fetch self.new.post }
        ensures moves { Moves C.seen result self.old self.new }
        ensures first { PutsFirst self.old self.new }
    {
        if let Some(m) = self.held {
            return self.put(rt, m);
        }
        if let Some(m) = self.local.take() {
            self.held = Some(m);
            return Turn::Moved;
        }
        if self.fault.is_some() || self.control.done() {
            return Turn::Ended;
        }
        match self.fetch.take::<Nothing, R>(rt) {
            None => Turn::Idle,
            Some(m) => {
                self.feed(&m);
                Turn::Moved
            }
        }
    }

    // Puts the held message. Where the queue was full it stays.
    fn put<R: Wait>(&mut self, rt: &R, m: Msg) -> Turn
        requires stands { Stands C.seen C.follows self.old }
        requires held { self.old.held ≡ Some m }
        ensures stands { Stands C.seen C.follows self.new }
        ensures part { self.new.part ≡ self.old.part }
        ensures same { IsSame (C.seen self.old.control) self.old.fetch self.old.post (C.seen self.new.control) self.new.fetch self.new.post }
        ensures moves { Moves C.seen result self.old self.new }
        ensures fetch { self.new.fetch ≡ self.old.fetch }
    {
        match self.post.put::<Nothing, R>(rt, m) {
            Ok(()) => {
                self.held = None;
                Turn::Moved
            }
            Err(_) => Turn::Idle,
        }
    }

    // Feeds a message that was just taken.
    fn feed(&mut self, m: &Msg)
        requires taken { HasTaken C.seen C.follows m.now self.old }
        requires open { (C.seen self.old.control).done ≡ false }
        ensures stands { Stands C.seen C.follows self.new }
        ensures part { self.new.part ≡ self.old.part }
        ensures same { IsSame (C.seen self.old.control) self.old.fetch self.old.post (C.seen self.new.control) self.new.fetch self.new.post }
    {
        if let Err(fault) = self.control.feed(m, &mut self.local) {
            self.held = self.last_for(fault);
            self.fault = Some(fault);
        }
    }

    // The message that is to be put behind a refusal: after want of memory the one that ends this
    // side's early, and otherwise none.
    fn last_for(&self, fault: ControlFault) -> Option<Msg>
        ensures { option_to_list result ≡ parting_of (C.seen self.now.control) (Some fault) }
    {
        match fault {
            ControlFault::Memory => Some(self.control.parting()),
            _ => None,
        }
    }

    /// Sleeps until the other side makes room for the message that is to be put next, or, where none
    /// is, until it puts one. It may return for no reason. A move of the other side behind a turn that
    /// did nothing ends the sleep, also where it came before.
    pub fn wait<R: Wait>(&self, rt: &R) {
        if self.held.is_some() {
            self.post.wait_for_room(rt);
        } else {
            self.fetch.wait_for_mail(rt);
        }
    }

    /// The end of a part.
    pub fn end(self) -> PartLeft<C>
        requires stands { Stands C.seen C.follows self }
        requires end { IsAtEnd C.seen self }
        ensures control { result.done.control ≡ self.control }
        ensures fetch { result.done.fetch ≡ self.fetch }
        ensures post { result.done.post ≡ self.post }
        ensures fault { result.done.fault ≡ self.fault }
        ensures local { result.local ≡ record { size = 64; queue = [] } }
    {
        PartLeft {
            done: PartDone {
                control: self.control,
                fetch: self.fetch,
                post: self.post,
                fault: self.fault,
            },
            local: self.local,
        }
    }
}

/// How often in a row a control that finds nothing to do looks again before its thread is parked.
const LOOKS: u32 = 64;

/// Serves a part, which may wait for the other side.
///
/// It begins the part and feeds the control each message that it fetches. All answers to one message
/// are put before the next one is fetched, and it ends where the control is done with the part. Where
/// the control refuses, it ends too: without memory it puts the message that ends this side's early,
/// which the other side refuses, and after any other refusal it puts nothing. A thread that waits
/// parks after a short while.
pub fn serve<C: Control, R: Wait>(
    rt: &R,
    control: C,
    part: Part,
    fetch: FetchEnd,
    post: PostEnd,
    local: MailBox,
) -> PartLeft<C>
    requires follows { C.follows control }
    requires part { C.can_begin control part }
    requires rest { AtRest (C.seen control) fetch post }
    requires local { local ≡ record { size = 64; queue = [] } }
    ensures follows { C.follows result.done.control }
    ensures served { Served part (C.seen control) fetch post (C.seen result.done.control) result.done.fetch result.done.post result.done.fault }
    ensures local { result.local ≡ record { size = 64; queue = [] } }
{
    let mut serving = Serving::begin(control, part, fetch, post, local);
    let mut looks = 0;
    for _ in rt.forever() {
        match serving.turn(rt) {
            Turn::Ended => return serving.end(),
            Turn::Moved => looks = 0,
            Turn::Idle if looks < LOOKS => {
                looks += 1;
                hint::spin_loop();
            }
            Turn::Idle => serving.wait(rt),
        }
    }
    unreachable!()
}
