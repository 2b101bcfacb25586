//! Page lists that come in pieces, and the handles of those that came.
ghost use Rattle.std.specs.Prelude.{◌≡◌, ◌<◌, ◌==◌, ◌||◌, [], filter, not, vec_len, vec_capacity, IfOk, IfErr, None, Some};
ghost use Rattle.gpadl.specs.Whole.{next};
ghost use Rattle.gpadl.specs.Assembly.{is_built, is_live, range_fault, header_fault, body_fault, fault_of, of_message, begun, Comes, Took, IsPiece, IsReady};

use crate::building::{Building, pages_of};
use crate::{GpadlFault, Progress};
use std::alloc::Global;
use std::marker::Model;
use vmbus_msg::{GpadlBody, GpadlHeader, Msg};

/// Assembles page lists, one at a time, and knows which are live.
///
/// A list is live from its last message until it is torn down.
#[derive(Drop)]
pub struct Assembler {
    alloc: Global,
    building: Option<Building>,
    live: Vec<u32>,
}

impl Model for Assembler {
    ghost use Rattle.std.specs.Prelude.{vec_len, vec_capacity};
    ghost use Rattle.gpadl.specs.Assembly.{Assembly, IsReady};

    ghost Value = { Assembly };

    ghost view = { λ a. record { building = a.building; live = a.live.items } };

    ghost invariant = { λ a. IsReady a.building (vec_len a.live) (vec_capacity a.live) };
}

impl Assembler {
    /// No list, and none live. It takes no memory.
    pub fn make(alloc: Global) -> Assembler
        ensures { result ≡ record { building = None; live = [] } }
    {
        Assembler {
            alloc,
            building: None,
            live: Vec::new(alloc),
        }
    }

    /// Takes a header or a body.
    ///
    /// A header is refused, in this order, as `Repeat` where its handle is being built or is live,
    /// as `Handle` where another list is being built, and as `Range` where its range isn't one of
    /// whole pages. A body is refused as `Handle` where its list isn't the one that is being built,
    /// and as `Count` where it brings more frames than are missing. `Memory` comes after these, for a
    /// header alone: a body that comes in order is taken. A refusal changes nothing.
    pub fn feed(&mut self, m: &Msg) -> Result<Progress, GpadlFault>
        requires { IsPiece m.now }
        ensures took { IfOk result (λ progress. (fault_of self.old m.now ≡ None) × Took self.old m.now progress self.new) }
        ensures next { IfOk result (λ _. self.new ≡ next self.old m.now) }
        ensures refused { IfErr result (λ fault. (fault_of self.old m.now ≡ of_message m.now fault) × (self.new ≡ self.old)) }
    {
        match m {
            Msg::GpadlHeader(h) => self.begin(h),
            Msg::GpadlBody(b) => self.go_on(b),
            _ => unreachable!(),
        }
    }

    /// The fault for which `feed` would refuse a message, but for want of memory.
    pub fn fault(&self, m: &Msg) -> Option<GpadlFault>
        ensures { result ≡ fault_of self.now m.now }
    {
        match m {
            Msg::GpadlHeader(h) => self.header_fault(h),
            Msg::GpadlBody(b) => match &self.building {
                Some(building) => building.fault(b),
                None => Some(GpadlFault::Handle { id: b.gpadl }),
            },
            _ => None,
        }
    }

    /// Whether a list with this handle is live.
    pub fn is_live(&self, handle: u32) -> bool
        ensures { result ≡ is_live self.now.live handle }
    {
        self.live.contains(&handle)
    }

    /// Ends a live list: false exactly where none has the handle. It takes no memory.
    pub fn torn(&mut self, handle: u32) -> bool
        ensures was { result ≡ is_live self.old.live handle }
        ensures left { self.new.live ≡ filter (λ h. not (h == handle)) self.old.live }
        ensures building { self.new.building ≡ self.old.building }
    {
        let was = self.live.contains(&handle);
        self.live.retain(|h| *h != handle);
        was
    }

    // Begins the list of a header. All room is reserved here, so that no body wants memory.
    fn begin(&mut self, h: &GpadlHeader) -> Result<Progress, GpadlFault>
        ensures took { IfOk result (λ progress. (header_fault self.old h.now ≡ None) × Comes (begun h.now) self.old.live progress self.new) }
        ensures refused { IfErr result (λ fault. (header_fault self.old h.now ≡ of_message (Msg.GpadlHeader h.now) fault) × (self.new ≡ self.old)) }
    {
        if let Some(fault) = self.header_fault(h) {
            return Err(fault);
        }
        let Ok(building) = Building::begin(self.alloc, h) else {
            return Err(GpadlFault::Memory);
        };
        let Ok(()) = self.live.reserve(1) else {
            return Err(GpadlFault::Memory);
        };
        Ok(settle(&mut self.building, &mut self.live, building))
    }

    // Goes on with the list that is being built.
    fn go_on(&mut self, b: &GpadlBody) -> Result<Progress, GpadlFault>
        ensures took { IfOk result (λ progress. (body_fault self.old.building b.now ≡ None) × Took self.old (Msg.GpadlBody b.now) progress self.new) }
        ensures refused { IfErr result (λ fault. (body_fault self.old.building b.now ≡ Some fault) × (self.new ≡ self.old)) }
    {
        let Some(mut building) = self.building.take() else {
            return Err(GpadlFault::Handle { id: b.gpadl });
        };
        if let Some(fault) = building.fault(b) {
            self.building = Some(building);
            return Err(fault);
        }
        building.go_on(b);
        Ok(settle(&mut self.building, &mut self.live, building))
    }

    // The fault of a header, but for want of memory.
    fn header_fault(&self, h: &GpadlHeader) -> Option<GpadlFault>
        ensures { result ≡ header_fault self.now h.now }
    {
        if self.is_known(h.gpadl) {
            return Some(GpadlFault::Repeat { id: h.gpadl });
        }
        if self.building.is_some() {
            return Some(GpadlFault::Handle { id: h.gpadl });
        }
        range_fault(h)
    }

    // Whether a list with this handle is being built or is live.
    fn is_known(&self, handle: u32) -> bool
        ensures { result ≡ (is_built self.now.building handle || is_live self.now.live handle) }
    {
        let built = match &self.building {
            Some(building) => building.handle() == handle,
            None => false,
        };
        built || self.is_live(handle)
    }
}

// The fault of a range that isn't one of whole pages: first its offset, and then its byte count.
fn range_fault(h: &GpadlHeader) -> Option<GpadlFault>
    ensures { result ≡ range_fault h.now }
{
    if h.byte_offset != 0 {
        return Some(GpadlFault::Range {
            value: h.byte_offset,
        });
    }
    if h.byte_count != 4096 * pages_of(h) {
        return Some(GpadlFault::Range {
            value: h.byte_count,
        });
    }
    None
}

// Puts a list back where frames are missing, and makes it live where it is whole.
fn settle(slot: &mut Option<Building>, live: &mut Vec<u32>, building: Building) -> Progress
    requires { vec_len live.old < vec_capacity live.old }
    ensures comes { Comes building live.old.items result (record { building = slot.new; live = live.new.items }) }
    ensures ready { IsReady slot.new (vec_len live.new) (vec_capacity live.new) }
{
    let (have, want) = building.count();
    if have < want {
        *slot = Some(building);
        return Progress::More { have, want };
    }
    live.push_reserved(building.handle());
    *slot = None;
    Progress::Done(building.end())
}
