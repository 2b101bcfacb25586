//! The message that goes on with a page list.

ghost use Rattle.vmbus_msg.specs.Pages.{IsBodyForm};

use crate::frames::Frames;

/// GPADL_BODY: a page list goes on, with 1 to 28 frames.
///
/// Source: struct `vmbus_channel_gpadl_body`, `include/linux/hyperv.h`.
#[derive(Clone, Copy)]
pub struct GpadlBody {
    /// The four bytes after the message's type.
    pub padding: u32,
    /// Which body of its list it is. Nothing looks at it.
    pub msgnumber: u32,
    /// The handle of its list.
    pub gpadl: u32,
    /// The frame numbers that it brings.
    pub frames: Frames,
    /// It has 1 to 28 frames.
    pub ghost in_form: { IsBodyForm frames },
}
