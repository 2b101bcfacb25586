//! Page lists that come in messages.
ghost use Rattle.std.specs.Prelude.{◌≡◌, ◌≢◌, ◌-◌, ◌+◌, ◌≤◌, ◌<◌, ◌++◌, ◌↔◌, Some, None, IfSome, IsTrue, length, take, drop};
ghost use Rattle.vmbus_msg.specs.Grammar.{IsMessage};
ghost use Rattle.vmbus_msg.specs.Pages.{pages_of};
ghost use Rattle.vmbus_msg.specs.declared.msg.Msg.{Msg as Message};
ghost use Rattle.gpadl.specs.Assembly.{IsPiece, begun, body_fault, built, fault_of, header_fault, range_fault, with_frames};
ghost use Rattle.gpadl.specs.Whole.{next};
ghost use Rattle.gpadl.specs.declared.fault.GpadlFault.{GpadlFault as Fault};
ghost use Rattle.vmbus_control_c.specs.PageLists.{IsList, assembly_of, building_of, list_of, lives_after, needs, no_room, number_of, told_of};

use gpadl::{GpadlFault, pages_of};
use vmbus_fault::VmbusFault;
use vmbus_msg::{GpadlBody, GpadlHeader, Msg, decode};

/// A page list that comes in messages. All 0 is none.
#[repr(C)]
#[derive(Clone, Copy, PartialEq, Eq)]
pub struct VmbusPageList {
    /// The channel that it is for.
    pub relid: u32,
    /// Its handle.
    pub gpadl: u32,
    /// How many pages it has.
    pub want: u32,
    /// How many of them came: it is whole where these are all.
    pub have: u32,
}

/// The list is whole.
const WHOLE: u32 = 0;

/// Pages are missing.
const MORE: u32 = 1;

/// The bytes are no page list's header or body.
const NO_PIECE: u32 = 2;

/// There is too little room for the list's pages.
const NO_ROOM: u32 = 7;

/// The list is in no form.
const MISUSED: u32 = 8;

// Whether these are the numbers of a list, where there is room for so many pages.
fn is_list(l: &VmbusPageList, room: usize) -> bool
    ensures { IsTrue result ↔ IsList l.now room }
{
    l.have <= l.want && l.want <= 8190 && (l.have == l.want || l.want as usize <= room)
}

// The number of a refusal.
fn number(fault: &GpadlFault) -> u32
    ensures { result ≡ number_of fault.now }
{
    match fault {
        GpadlFault::Repeat { .. } => 3,
        GpadlFault::Handle { .. } => 4,
        GpadlFault::Range { .. } => 5,
        GpadlFault::Count { .. } => 6,
        GpadlFault::Memory => 7,
    }
}

// The numbers of a refusal.
fn told(fault: &GpadlFault) -> VmbusFault
    ensures { result ≡ told_of fault.now }
{
    let (have, need, value) = match *fault {
        GpadlFault::Repeat { id } => (0, 0, id),
        GpadlFault::Handle { id } => (0, 0, id),
        GpadlFault::Range { value } => (0, 0, value),
        GpadlFault::Count { want, have } => (have, want, 0),
        GpadlFault::Memory => (0, 0, 0),
    };
    VmbusFault {
        have,
        need,
        field: 0,
        value: u64::from(value),
    }
}

// The fault of a range that isn't one of whole pages: first its offset, and then its byte count.
fn range_fault(h: &GpadlHeader) -> Option<GpadlFault>
    ensures value { result ≡ range_fault h.now }
    ensures named { IfSome result (λ e. (3 ≤ number_of e) × (number_of e ≤ 6)) }
{
    if h.byte_offset != 0 {
        return Some(GpadlFault::Range {
            value: h.byte_offset,
        });
    }
    if h.byte_count != 4096 * pages_of(h) {
        return Some(GpadlFault::Range {
            value: h.byte_count,
        });
    }
    None
}

// The fault of a header, beside the list that is being built and the live ones.
fn header_fault(
    l: &VmbusPageList,
    pages: &[u64],
    live: &[u32],
    h: &GpadlHeader,
) -> Option<GpadlFault>
    ensures value { result ≡ header_fault (assembly_of l.now pages.now live.now) h.now }
    ensures named { IfSome result (λ e. (3 ≤ number_of e) × (number_of e ≤ 6)) }
{
    let building = l.have < l.want;
    if building && l.gpadl == h.gpadl || live.contains(&h.gpadl) {
        return Some(GpadlFault::Repeat { id: h.gpadl });
    }
    if building {
        return Some(GpadlFault::Handle { id: h.gpadl });
    }
    range_fault(h)
}

// The fault of a body: another list's, or more frames than are missing.
fn body_fault(l: &VmbusPageList, pages: &[u64], b: &GpadlBody) -> Option<GpadlFault>
    requires { IsList l.now (length pages.now) }
    ensures value { result ≡ body_fault (building_of l.now pages.now) b.now }
    ensures named { IfSome result (λ e. (3 ≤ number_of e) × (number_of e ≤ 6)) }
    ensures fits { result ≡ None → (l.now.have < l.now.want) × (l.now.have + length b.now.frames ≤ l.now.want) }
{
    if l.have == l.want || l.gpadl != b.gpadl {
        return Some(GpadlFault::Handle { id: b.gpadl });
    }
    let want = l.want - l.have;
    let have = b.frames.len() as u32;
    if want < have {
        return Some(GpadlFault::Count { want, have });
    }
    None
}

// Puts frames behind the pages that came.
fn add(pages: &mut [u64], have: usize, frames: &[u64])
    requires { have + length frames.now ≤ length pages.old }
    ensures items { take (have + length frames.now) pages.new ≡ take have pages.old ++ frames.now }
    ensures rest { drop (have + length frames.now) pages.new ≡ drop (have + length frames.now) pages.old }
    ensures len { length pages.new ≡ length pages.old }
{
    pages[have..have + frames.len()].copy_from_slice(frames);
}

// How far a list has come.
fn progress(l: &VmbusPageList) -> u32
    requires { l.now.have ≤ l.now.want }
    ensures whole { result ≡ 0 → l.now.have ≡ l.now.want }
    ensures more { result ≡ 1 → l.now.have < l.now.want }
    ensures two { result ≤ 1 }
{
    if l.have < l.want { MORE } else { WHOLE }
}

// Begins the list of a header.
fn begin(
    h: &GpadlHeader,
    live: &[u32],
    list: &mut VmbusPageList,
    pages: &mut [u64],
    fault: &mut VmbusFault,
) -> u32
    ensures took { result ≤ 1 → (header_fault (assembly_of list.old pages.old live.now) h.now ≡ None) × (begun h.now ≡ list_of list.new pages.new) }
    ensures refused { 3 ≤ result → result ≤ 6 → (e : Fault) × ((header_fault (assembly_of list.old pages.old live.now) h.now ≡ Some e) × (result ≡ number_of e) × (fault.new ≡ told_of e)) }
    ensures room { result ≡ 7 → (header_fault (assembly_of list.old pages.old live.now) h.now ≡ None) × (length pages.old < pages_of h.now.range_buflen) × (fault.new ≡ no_room (length pages.old) (pages_of h.now.range_buflen)) }
    ensures form { result ≤ 1 → IsList list.new (length pages.new) }
    ensures held { result ≤ 1 → list.new.want ≤ length pages.new }
    ensures whole { result ≡ 0 → list.new.have ≡ list.new.want }
    ensures more { result ≡ 1 → list.new.have < list.new.want }
    ensures seven { (result ≢ 2) × (result ≤ 7) }
    ensures kept { 1 < result → (list.new ≡ list.old) × (pages.new ≡ pages.old) }
    ensures faultless { result ≤ 1 → fault.new ≡ fault.old }
    ensures rest { result ≤ 1 → drop list.new.have pages.new ≡ drop list.new.have pages.old }
{
    if let Some(e) = header_fault(list, pages, live, h) {
        *fault = told(&e);
        return number(&e);
    }
    let want = pages_of(h);
    if pages.len() < want as usize {
        *fault = VmbusFault {
            have: pages.len() as u32,
            need: want,
            field: 0,
            value: 0,
        };
        return NO_ROOM;
    }
    add(pages, 0, h.frames.as_slice());
    *list = VmbusPageList {
        relid: h.relid,
        gpadl: h.gpadl,
        want,
        have: h.frames.len() as u32,
    };
    progress(list)
}

// Goes on with the list that is being built.
fn go_on(b: &GpadlBody, list: &mut VmbusPageList, pages: &mut [u64], fault: &mut VmbusFault) -> u32
    requires { IsList list.old (length pages.old) }
    ensures took { result ≤ 1 → (body_fault (building_of list.old pages.old) b.now ≡ None) × (building_of list.old pages.old ≡ Some (list_of list.old pages.old)) × (with_frames (list_of list.old pages.old) b.now.frames ≡ list_of list.new pages.new) }
    ensures refused { 1 < result → (e : Fault) × ((body_fault (building_of list.old pages.old) b.now ≡ Some e) × (result ≡ number_of e) × (fault.new ≡ told_of e)) }
    ensures form { result ≤ 1 → IsList list.new (length pages.new) }
    ensures held { result ≤ 1 → list.new.want ≤ length pages.new }
    ensures whole { result ≡ 0 → list.new.have ≡ list.new.want }
    ensures more { result ≡ 1 → list.new.have < list.new.want }
    ensures six { (result ≢ 2) × (result ≤ 6) }
    ensures kept { 1 < result → (list.new ≡ list.old) × (pages.new ≡ pages.old) }
    ensures faultless { result ≤ 1 → fault.new ≡ fault.old }
    ensures rest { result ≤ 1 → drop list.new.have pages.new ≡ drop list.new.have pages.old }
{
    if let Some(e) = body_fault(list, pages, b) {
        *fault = told(&e);
        return number(&e);
    }
    add(pages, list.have as usize, b.frames.as_slice());
    list.have += b.frames.len() as u32;
    progress(list)
}

/// Takes the header or the body of a page list that the bytes are, all of them, and answers 0 where the list is whole then, or 1 where pages are missing. `pages` has the
/// first `have` of them, and `live` are the handles of those that are live. A list that is whole stays in `list` until the next header.
///
/// Otherwise it answers 2 where the bytes are no page list's header or body (`vmbus_message_read`). A header is refused, in this order, by 3 where its handle is being built
/// or is live (`value` is the handle), by 4 where another list is being built (`value` is the message's handle), by 5 where its range isn't one of whole pages (`value` is
/// its offset, or where that is 0 its byte count), and by 7 where `pages` has less room (`have`) than the list has pages (`need`). A body is refused by 4 where its list
/// isn't the one that is being built, and by 6 where it brings more frames (`have`) than are missing (`need`). 8 comes before all of these, where `list` is in no form: it has
/// more pages than 8,190, more came than it has, or `pages` has no room for it. Then `list` and `pages` stay.
#[unsafe(no_mangle)]
pub extern "C" fn vmbus_gpadl_take(
    bytes: &[u8],
    live: &[u32],
    list: &mut VmbusPageList,
    pages: &mut [u64],
    fault: &mut VmbusFault,
) -> u32
    ensures took { result ≤ 1 → (m : Message) × (IsMessage m bytes.now × IsPiece m × (fault_of (assembly_of list.old pages.old live.now) m ≡ None) × (built (building_of list.old pages.old) m ≡ Some (list_of list.new pages.new))) }
    ensures next { result ≤ 1 → (m : Message) × (IsMessage m bytes.now × (assembly_of list.new pages.new (lives_after result list.new live.now) ≡ next (assembly_of list.old pages.old live.now) m)) }
    ensures every { (m : Message) → IsMessage m bytes.now → IsPiece m → IsList list.old (length pages.old) → fault_of (assembly_of list.old pages.old live.now) m ≡ None → needs m ≤ length pages.old → result ≤ 1 }
    ensures form { result ≤ 1 → IsList list.new (length pages.new) × (list.new.want ≤ length pages.new) }
    ensures whole { result ≡ 0 → list.new.have ≡ list.new.want }
    ensures more { result ≡ 1 → list.new.have < list.new.want }
    ensures other { result ≡ 2 → (m : Message) → IsMessage m bytes.now → IsPiece m → ⊥ }
    ensures refused { 3 ≤ result → result ≤ 6 → (m : Message) × (e : Fault) × (IsMessage m bytes.now × IsPiece m × (fault_of (assembly_of list.old pages.old live.now) m ≡ Some e) × (result ≡ number_of e) × (fault.new ≡ told_of e)) }
    ensures room { result ≡ 7 → (m : Message) × (IsMessage m bytes.now × (fault_of (assembly_of list.old pages.old live.now) m ≡ None) × (length pages.old < needs m) × (fault.new ≡ no_room (length pages.old) (needs m))) }
    ensures misused { (result ≢ 8) ↔ IsList list.old (length pages.old) }
    ensures nine { result ≤ 8 }
    ensures kept { 1 < result → (list.new ≡ list.old) × (pages.new ≡ pages.old) }
    ensures faultless { fault.new ≢ fault.old → (3 ≤ result) × (result ≤ 7) }
    ensures rest { result ≤ 1 → drop list.new.have pages.new ≡ drop list.new.have pages.old }
{
    if !is_list(list, pages.len()) {
        return MISUSED;
    }
    match decode(bytes) {
        Ok(Msg::GpadlHeader(h)) => begin(&h, live, list, pages, fault),
        Ok(Msg::GpadlBody(b)) => go_on(&b, list, pages, fault),
        _ => NO_PIECE,
    }
}
