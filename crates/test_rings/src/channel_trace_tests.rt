//! A caller that keeps a past in a field, as an end does; small runs, and what is no run.
ghost use Rattle.std.specs.Prelude.{◌≡◌, ◌≢◌, ℕ, true, List, [], ◌∷◌};
ghost use Rattle.channel_trace.specs.declared.event.Event.{Event};
ghost use Rattle.channel_trace.specs.declared.event.Event.TheVariants.{Sent, Got, Empty, Marked, Saw};
ghost use Rattle.channel_trace.specs.Runs.{Guest, Host, got_of, is_drained, IsRun};
ghost use Rattle.channel_trace.specs.Laws.{AreOfOneRun};

use crate::check::check;
use channel_trace::{Past, laws};
use std::marker::Model;
use std::mem::size_of;

#[derive(Drop)]
struct Port {
    count: u64,
    past: Past,
}

impl Model for Port {
    ghost Value = { List (Event (List ℕ)) };

    ghost view = { λ p. p.past.events };
}

impl Port {
    fn new() -> Port
        ensures { result ≡ [] }
    {
        Port {
            count: 0,
            past: Past::new(),
        }
    }

    fn send(&mut self, packet: &[u64])
        ensures { self.new ≡ Sent packet.now ∷ self.old }
    {
        self.count = self.count.wrapping_add(1);
        self.past = self.past.sent(packet);
    }

    fn take(&mut self, packet: &[u64])
        ensures { self.new ≡ Got packet.now ∷ self.old }
    {
        self.past = self.past.got(packet);
    }

    fn close(&mut self)
        ensures { self.new ≡ Empty ∷ Saw ∷ Marked ∷ self.old }
    {
        self.past = self.past.marked();
        self.past = self.past.saw();
        self.past = self.past.empty();
    }
}

// The guest sends a packet and marks itself. The host gets it, sees the mark and finds nothing more.
fn one_packet(packet: &[u64]) -> (Past, Past)
    ensures run { AreOfOneRun result.0.events result.1.events }
    ensures got { got_of result.1.events ≡ packet.now ∷ [] }
    ensures drained { is_drained result.1.events ≡ true }
{
    let guest = Past::new().sent(packet).marked();
    let host = Past::new().got(packet).saw().empty();
    (guest, host)
}

fn are_no_runs()
    ensures got_before_sent { (p : List ℕ) → IsRun (Host (Got p) ∷ []) → ⊥ }
    ensures got_twice { (p : List ℕ) →
        IsRun (Host (Got p) ∷ Host (Got p) ∷ Guest (Sent p) ∷ []) → ⊥ }
    ensures got_changed { (p q : List ℕ) → p ≢ q →
        IsRun (Host (Got q) ∷ Guest (Sent p) ∷ []) → ⊥ }
    ensures got_own { (p : List ℕ) → IsRun (Host (Got p) ∷ Host (Sent p) ∷ []) → ⊥ }
    ensures found_none { (p : List ℕ) → IsRun (Host Empty ∷ Guest (Sent p) ∷ []) → ⊥ }
    ensures sent_after_mark { (p : List ℕ) → IsRun (Guest (Sent p) ∷ Guest Marked ∷ []) → ⊥ }
    ensures marked_twice { IsRun {P = List ℕ} (Guest Marked ∷ Guest Marked ∷ []) → ⊥ }
    ensures saw_no_mark { IsRun {P = List ℕ} (Host Saw ∷ Host Marked ∷ []) → ⊥ }
{}

#[test]
fn past_takes_no_memory(rt: HostRuntime) {
    let mut port = Port::new();
    port.take(&[7, 8]);
    port.send(&[9]);
    port.close();
    let _ends = one_packet(&[7, 8]);
    check(&rt, port.count == 1);
    check(&rt, size_of::<Past>() == 0);
    check(&rt, size_of::<Port>() == size_of::<u64>());
}

// Each law can be had at a type of packets.
#[test]
fn laws_are_called() {
    are_no_runs();
    laws::gets_in_order::<u64>();
    laws::drains_all::<u64>();
    laws::sees_marks::<u64>();
    laws::ends_at_mark::<u64>();
    laws::has_first_mark::<u64>();
    laws::stays_unmarked::<u64>();
    laws::each_moment::<u64>();
    laws::stays::<u64>();
    laws::goes_on::<u64>();
    laws::is_run_exchanged::<u64>();
}
