//! The message that begins a page list.

ghost use Rattle.vmbus_msg.specs.Pages.{IsHeaderForm};

use crate::frames::Frames;

/// GPADL_HEADER: a page list begins. It names one range of whole pages, of which it holds the
/// first 26 at most; bodies hold the others.
///
/// Source: struct `vmbus_channel_gpadl_header` and struct `gpa_range`, `include/linux/hyperv.h`.
#[derive(Clone, Copy)]
pub struct GpadlHeader {
    /// The four bytes after the message's type.
    pub padding: u32,
    /// The channel that the pages are for.
    pub relid: u32,
    /// The handle of the list.
    pub gpadl: u32,
    /// The bytes of the range: 8, and 8 for each page of the whole list.
    pub range_buflen: u16,
    /// How many ranges there are: 1.
    pub rangecount: u16,
    /// The bytes of the range.
    pub byte_count: u32,
    /// Where the range begins in its first page, in bytes.
    pub byte_offset: u32,
    /// The first frame numbers of the list, at most 26.
    pub frames: Frames,
    /// It has one range of at least one page, and as many frames as it then holds.
    pub ghost in_form: { IsHeaderForm range_buflen rangecount frames },
}
