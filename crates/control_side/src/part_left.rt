//! What a part leaves of one side, with its box.

use crate::{Control, PartDone};
use mail_box::MailBox;

/// A control behind a part, with its ends of both queues, and its box, which is empty again.
#[derive(Drop)]
pub struct PartLeft<C: Control> {
    /// The control and its ends.
    pub done: PartDone<C>,
    /// The box that its answers went through.
    pub local: MailBox,
}
