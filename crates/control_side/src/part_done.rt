//! What a part leaves of one side.

use crate::Control;
use control_model::ControlFault;
use mail_box::{FetchEnd, PostEnd};

/// A control behind a part, with its ends of both queues.
#[derive(Drop)]
pub struct PartDone<C: Control> {
    /// The control. Without a fault it is done with the part.
    pub control: C,
    /// The end that it was fed from.
    pub fetch: FetchEnd,
    /// The end that its messages were put into.
    pub post: PostEnd,
    /// Why the control refused, where it did.
    pub fault: Option<ControlFault>,
}
