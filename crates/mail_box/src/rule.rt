//! What the two ends of a queue know, and the rule that the queue keeps.
ghost use Rattle.std.specs.Prelude.{List};
ghost use Rattle.vmbus_msg.specs.declared.msg.Msg.{Msg};

use crossbeam_queue::protocol::{Join, Lesson, Outcome, Protocol, Split};
use crossbeam_queue::{Pass, RuledArrayQueue};
use std::collections::LinkedList;
use std::marker::{Brand, PhantomData};
use vmbus_msg::Msg;

/// What an end of a queue may do, what the caller named for the queue, and what the end has put and
/// taken. No value of it is made.
pub struct Log {
    /// Whether it may put.
    pub posts: bool,
    /// Whether it may take.
    pub fetches: bool,
    /// The messages that may be put, in order.
    pub named: LinkedList<Msg>,
    /// The message that may end them early.
    pub last: Msg,
    /// What was put.
    pub put: LinkedList<Msg>,
    /// What was taken.
    pub taken: LinkedList<Msg>,
}

/// What a caller names for a queue, which contracts alone see: the messages that may be put, in
/// order, and one that may end them early.
pub trait Named {
    ghost named: { List Msg };

    ghost last: { Msg };
}

impl Named for Brand {
    ghost use Rattle.std.specs.Prelude.{[]};
    ghost use Rattle.mail_box.specs.Letters.{no_last};

    ghost named = { [] };

    ghost last = { no_last };
}

/// The rule of a box's queue.
pub struct Mailing;

impl Protocol<Msg, Log> for Mailing {
    ghost use Rattle.std.specs.Prelude.{true, []};
    ghost use Rattle.mail_box.specs.Letters.{log, no_last, Mailed};

    ghost holds = { λ items views. Mailed items views };

    ghost first = { log true true [] no_last [] [] };
}

/// The pass of a box becomes those of its two ends, and the queue gets its names.
pub(crate) struct Roles<N: Named> {
    of: PhantomData<N>,
}

impl<N: Named> Split<Log> for Roles<N> {
    ghost use Rattle.std.specs.Prelude.{true, false, []};
    ghost use Rattle.mail_box.specs.Letters.{log};

    ghost left = { λ v. log true false N.named N.last [] [] };

    ghost right = { λ v. log false true N.named N.last [] [] };
}

/// Both passes become one.
pub(crate) struct Both;

impl Join<Log> for Both {
    ghost use Rattle.std.specs.Prelude.{true, false, []};
    ghost use Rattle.mail_box.specs.Letters.{log, no_last};

    ghost both = { λ v w. log true true v.named v.last v.put w.taken };

    ghost spent = { log false false [] no_last [] [] };
}

/// A put, and what a refused one learns.
pub(crate) struct Puts<M> {
    of: PhantomData<M>,
}

impl<M: Lesson<Msg, Log>> Outcome<Msg, Log> for Puts<M> {
    ghost use Rattle.std.specs.Prelude.{◌≡◌};
    ghost use Rattle.mail_box.specs.Letters.{with_put};

    ghost then = { λ v x w. w ≡ with_put v x };
}

impl<M: Lesson<Msg, Log>> Lesson<Msg, Log> for Puts<M> {
    ghost fact = { M.fact };
}

/// A take, and what one that finds nothing learns.
pub(crate) struct Takes<M> {
    of: PhantomData<M>,
}

impl<M: Lesson<Msg, Log>> Outcome<Msg, Log> for Takes<M> {
    ghost use Rattle.std.specs.Prelude.{◌≡◌};
    ghost use Rattle.mail_box.specs.Letters.{with_taken, MaySay};

    ghost then = { λ v x w. (w ≡ with_taken v x) × MaySay v.named v.last w.taken };
}

impl<M: Lesson<Msg, Log>> Lesson<Msg, Log> for Takes<M> {
    ghost fact = { M.fact };
}

/// What the united pass learns: what was put is what was taken and then what the queue holds.
pub(crate) struct Rest;

impl Lesson<Msg, Log> for Rest {
    ghost use Rattle.std.specs.Prelude.{◌≡◌, ◌++◌};

    ghost fact = { λ v items. v.put ≡ v.taken ++ items };
}

/// What a caller learns who asks nothing.
pub struct Nothing;

impl Lesson<Msg, Log> for Nothing {
    ghost use Rattle.std.specs.Prelude.{⊤};

    ghost fact = { λ v items. ⊤ };
}

pub(crate) type Queue = RuledArrayQueue<Msg, Log, Mailing>;

pub(crate) type Token = Pass<Msg, Log>;
