//! A side before a part.
ghost use Rattle.control_path.specs.Parts.{IsReady, Leaves};

use contact::Part;
use control_side::{Control, PartLeft, serve};
use mail_box::{FetchEnd, MailBox, PostEnd};
use std::sync::Wait;

/// A control with its ends of both queues, and an empty box for what it answers.
#[derive(Drop)]
pub struct PartSide<C: Control> {
    /// The control.
    pub control: C,
    /// The end that it is fed from.
    pub fetch: FetchEnd,
    /// The end that its messages are put into.
    pub post: PostEnd,
    /// A box for 64 messages.
    pub local: MailBox,
}

impl<C: Control> PartSide<C> {
    /// Serves a part here, which may wait for the other side.
    pub fn serve<R: Wait>(self, rt: &R, part: Part) -> PartLeft<C>
        requires { IsReady C.seen C.follows C.can_begin self part }
        ensures { Leaves C.seen C.follows part self result }
    {
        serve(rt, self.control, part, self.fetch, self.post, self.local)
    }
}
