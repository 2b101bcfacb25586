//! What an end of a channel did so far, as contracts read it. It takes no memory, and its methods do nothing at run time.
ghost use Rattle.std.specs.Prelude.{◌≡◌, ℕ, List, [], ◌∷◌};
ghost use Rattle.std.specs.Borrow.{ftrue};
ghost use Rattle.channel_trace.specs.declared.event.Event.{Event};
ghost use Rattle.channel_trace.specs.declared.event.Event.TheVariants.{Sent, Got, Empty, Marked, Saw};
ghost use Rattle.channel_trace.specs.Kinds.{event_of};

use crate::kind::Kind;
use std::marker::Model;

/// The events of an end, the last one first. A packet is the list of its words.
#[derive(Drop)]
pub struct Past {
    /// What happened so far, as contracts read it.
    pub ghost events: { List (Event (List ℕ)) },
}

impl Model for Past {
    ghost also_owns = { λ _. ftrue };
}

// It owns nothing and has no bytes.
unsafe impl Send for Past {}

unsafe impl Sync for Past {}

impl Past {
    /// The past of an end that did nothing yet.
    #[inline(always)]
    pub fn new() -> Past
        ensures { result.events ≡ [] }
    {
        Past {}
    }

    /// This past, and then the end sent this packet.
    #[inline(always)]
    pub fn sent(&self, packet: &[u64]) -> Past
        ensures { result.events ≡ Sent packet.now ∷ self.now.events }
    {
        self.and(&Kind::Sent, packet)
    }

    /// This past, and then the end got this packet.
    #[inline(always)]
    pub fn got(&self, packet: &[u64]) -> Past
        ensures { result.events ≡ Got packet.now ∷ self.now.events }
    {
        self.and(&Kind::Got, packet)
    }

    /// This past, and then the end found its incoming ring empty.
    #[inline(always)]
    pub fn empty(&self) -> Past
        ensures { result.events ≡ Empty ∷ self.now.events }
    {
        self.and(&Kind::Empty, &[])
    }

    /// This past, and then the end said that it sends nothing more.
    #[inline(always)]
    pub fn marked(&self) -> Past
        ensures { result.events ≡ Marked ∷ self.now.events }
    {
        self.and(&Kind::Marked, &[])
    }

    /// This past, and then the end saw the other end's mark.
    #[inline(always)]
    pub fn saw(&self) -> Past
        ensures { result.events ≡ Saw ∷ self.now.events }
    {
        self.and(&Kind::Saw, &[])
    }

    // Only its contract says anything: the kind and the packet are not read.
    #[inline(always)]
    fn and(&self, _kind: &Kind, _packet: &[u64]) -> Past
        ensures { result.events ≡ event_of _kind.now _packet.now ∷ self.now.events }
    {
        Past {}
    }
}
