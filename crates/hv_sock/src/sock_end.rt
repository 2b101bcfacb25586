//! One end of a socket.
ghost use Rattle.std.specs.Prelude.{◌≡◌, ◌+◌, ◌<◌, ◌≤◌, ◌++◌, ◌∷◌, [], true, false, not, length, Some, None, Err, OnOk, OnErr, IsTrue};
ghost use Rattle.vm_page.specs.Words.{words_for};
ghost use Rattle.ring_machine.specs.EndCalls.{Arm, Poll};
ghost use Rattle.ring_machine.specs.Endings.{Leaves, LeavesBy, is_asleep, want_of, IsWant};
ghost use Rattle.ring_machine.specs.States.{past_of};
ghost use Rattle.ring_machine.specs.Steps.{call_by, arm_begun, poll_begun};
ghost use Rattle.ring_machine.specs.declared.machine.Stage.TheVariants.{Idle};
ghost use Rattle.ring_core.specs.Seen.{Kept};
ghost use Rattle.ring_core.specs.Told.{MakesSteps};
ghost use Rattle.ring_seat.specs.Seats.{new_end};
ghost use Rattle.ring_sleep.specs.Sleeping.{Sleeps};
ghost use Rattle.hv_sock.specs.declared.sock_fault.SockFault.TheVariants.{Ended};
ghost use Rattle.hv_sock.specs.declared.sock_fault.SockFault.{SockFault as Fault};
ghost use Rattle.hv_sock.specs.Packets.{sock_packet};
ghost use Rattle.hv_sock.specs.Streams.{IsOpen, breaks_off, bytes_read, closes, fault_in, is_closed, stream_of};
ghost use Rattle.hv_sock.specs.Ends.{Sends, Reads};

use crate::calls::{read_next, send_packet};
use crate::got::Got;
use crate::packet::{END, MOST_DATA, MOST_WORDS, put_packet};
use crate::sock_fault::SockFault;
use ring_core::{Armed, End, Seatlike, SendRefusal, Signalled, SoloMem, may_begin};
use ring_sleep::{Parks, sleep};
use std::marker::Model;
use std::sync::Wait;

/// One end of a socket over a channel: a stream of bytes each way. Contracts see the end of the channel that it stands over; what was written and read are the
/// streams of its two lists of packets.
#[derive(Drop)]
pub struct SockEnd<S: Seatlike> {
    end: End<S>,
    // The end of its direction was sent.
    shut: bool,
    // The end of the other direction was read.
    ended: bool,
    // The packet that was got last is none of a socket's.
    fault: Option<SockFault>,
}

impl<S: Seatlike> Model for SockEnd<S> {
    ghost use Rattle.ring_core.specs.Seen.{Seen};
    ghost use Rattle.hv_sock.specs.Ends.{IsSock};

    ghost Value = { Seen S };

    ghost view = { λ s. s.end };

    ghost invariant = { λ s. IsSock s.end s.shut s.ended s.fault };
}

// Whether a read that answered so leaves the stream closed.
fn closes(answer: Result<Got, SockFault>) -> bool
    ensures { result ≡ closes answer }
{
    matches!(answer, Ok(Got::End) | Err(SockFault::Ended))
}

// The fault with which a read that answered so leaves the stream broken off.
fn breaks_off(answer: Result<Got, SockFault>) -> Option<SockFault>
    ensures { result ≡ breaks_off answer }
{
    match answer {
        Ok(_) | Err(SockFault::Ended) | Err(SockFault::Take(_)) => None,
        Err(fault) => Some(fault),
    }
}

impl<S: Seatlike> SockEnd<S> {
    /// The end of a socket over a new end of a channel without data pages, whose rings have 512 cells or more. It takes no memory, and nor does any call: what
    /// is to be written and read has its room in the lists of the end before.
    pub fn make(end: End<S>) -> SockEnd<S>
        requires fresh { end.state ≡ new_end end.state.machine.cells end.state.machine.side }
        requires size { 512 ≤ end.state.machine.cells }
        ensures { result ≡ end }
    {
        SockEnd {
            end,
            shut: false,
            ended: false,
            fault: None,
        }
    }

    /// The end of the channel that it stands over.
    pub fn end(&self) -> &End<S>
        ensures { result.now ≡ self.now }
    {
        &self.end
    }

    /// Whether so many bytes may be written: 1 to 2,048, before `shut`, by an end that is neither asleep nor marked, into room that is left.
    pub fn may_write(&self, len: usize) -> bool
        ensures bytes { IsTrue result → (1 ≤ len) × (len ≤ 2048) }
        ensures may { IsTrue result → (is_closed self.now.state.sent ≡ false) × (self.now.state.machine.asleep ≡ false) × (self.now.state.machine.marked ≡ false) × (0 < self.now.spare_sent.packets) × (3 + words_for len ≤ self.now.spare_sent.words) }
        ensures whole { 1 ≤ len → len ≤ 2048 → is_closed self.now.state.sent ≡ false → self.now.state.machine.asleep ≡ false → self.now.state.machine.marked ≡ false → 0 < self.now.spare_sent.packets → 3 + words_for len ≤ self.now.spare_sent.words → IsTrue result }
    {
        1 <= len && len <= MOST_DATA && self.has_room(3 + len.div_ceil(8))
    }

    /// Whether the direction may be ended: once, by an end that is neither asleep nor marked, into room that is left.
    pub fn may_shut(&self) -> bool
        ensures may { IsTrue result → (is_closed self.now.state.sent ≡ false) × (self.now.state.machine.asleep ≡ false) × (self.now.state.machine.marked ≡ false) × (0 < self.now.spare_sent.packets) × (3 ≤ self.now.spare_sent.words) }
        ensures whole { is_closed self.now.state.sent ≡ false → self.now.state.machine.asleep ≡ false → self.now.state.machine.marked ≡ false → 0 < self.now.spare_sent.packets → 3 ≤ self.now.spare_sent.words → IsTrue result }
    {
        self.has_room(3)
    }

    // Whether a packet of so many words may be sent.
    fn has_room(&self, words: usize) -> bool
        ensures may { IsTrue result → (is_closed self.now.state.sent ≡ false) × (self.now.state.machine.asleep ≡ false) × (self.now.state.machine.marked ≡ false) × (0 < self.now.spare_sent.packets) × (words ≤ self.now.spare_sent.words) }
        ensures whole { is_closed self.now.state.sent ≡ false → self.now.state.machine.asleep ≡ false → self.now.state.machine.marked ≡ false → 0 < self.now.spare_sent.packets → words ≤ self.now.spare_sent.words → IsTrue result }
    {
        let room = self.end.spare_sent();
        !self.shut && may_begin(&self.end) && 0 < room.packets && words as u64 <= room.words
    }

    /// Whether a read may be made: by an end that is neither asleep nor marked, with room for the longest packet that its ring can hold.
    pub fn may_read(&self) -> bool
        ensures may { IsTrue result → (self.now.state.machine.asleep ≡ false) × (self.now.state.machine.marked ≡ false) × (0 < self.now.spare_got.packets) × (self.now.state.machine.cells ≤ self.now.spare_got.words) }
        ensures whole { self.now.state.machine.asleep ≡ false → self.now.state.machine.marked ≡ false → 0 < self.now.spare_got.packets → self.now.state.machine.cells ≤ self.now.spare_got.words → IsTrue result }
    {
        let room = self.end.spare_got();
        may_begin(&self.end) && 0 < room.packets && self.end.cells() as u64 <= room.words
    }

    /// Sends 1 to 2,048 bytes in one packet, and says whether that raised the peer's signal. It is refused where `send` is, with the same cause, and then nothing
    /// was written. It makes the steps of that send. Source: Linux `net/vmw_vsock/hyperv_transport.c`, hvs_send_data.
    pub fn write(&mut self, bytes: &[u8]) -> Result<Signalled, SendRefusal>
        requires bytes { (1 ≤ length bytes.now) × (length bytes.now ≤ 2048) }
        requires open { is_closed self.old.state.sent ≡ false }
        requires awake { self.old.state.machine.asleep ≡ false }
        requires unmarked { self.old.state.machine.marked ≡ false }
        requires room { (0 < self.old.spare_sent.packets) × (3 + words_for (length bytes.now) ≤ self.old.spare_sent.words) }
        ensures sends { Sends S S.told S.tale S.same (sock_packet bytes.now) self.old self.new result }
        ensures sent { OnOk result (self.new.state.sent ≡ self.old.state.sent ++ sock_packet bytes.now ∷ []) }
        ensures unsent { OnErr result ((self.new.state.sent ≡ self.old.state.sent) × (self.new.spare_sent ≡ self.old.spare_sent)) }
        ensures stream { OnOk result (stream_of self.new.state.sent ≡ stream_of self.old.state.sent ++ bytes.now) }
        ensures open { is_closed self.new.state.sent ≡ false }
    {
        let mut packet = [0; MOST_WORDS];
        let words = put_packet(&mut packet, bytes);
        send_packet(&mut self.end, &packet[..words])
    }

    /// Sends the packet that ends this direction, and says whether that raised the peer's signal. It is refused where `send` is, with the same cause, and then
    /// nothing was ended. It makes the steps of that send. Source: Linux `net/vmw_vsock/hyperv_transport.c`, hvs_shutdown_lock_held.
    pub fn shut(&mut self) -> Result<Signalled, SendRefusal>
        requires open { is_closed self.old.state.sent ≡ false }
        requires awake { self.old.state.machine.asleep ≡ false }
        requires unmarked { self.old.state.machine.marked ≡ false }
        requires room { (0 < self.old.spare_sent.packets) × (3 ≤ self.old.spare_sent.words) }
        ensures sends { Sends S S.told S.tale S.same (sock_packet []) self.old self.new result }
        ensures sent { OnOk result (self.new.state.sent ≡ self.old.state.sent ++ sock_packet [] ∷ []) }
        ensures unsent { OnErr result ((self.new.state.sent ≡ self.old.state.sent) × (self.new.spare_sent ≡ self.old.spare_sent)) }
        ensures stream { stream_of self.new.state.sent ≡ stream_of self.old.state.sent }
        ensures closed { OnOk result (is_closed self.new.state.sent ≡ true) }
    {
        let answer = send_packet(&mut self.end, &END);
        self.shut = answer.is_ok();
        answer
    }

    /// Takes the next packet, gives its cells back, and puts its data at the front of `out`; or says that the direction is at its end. `SockFault::Ended` comes
    /// exactly where an earlier read gave the end, and `SockFault::Take` exactly where the take is refused so. A packet that is none of a socket's is refused
    /// with the first reason, and each later read is refused with the same, and makes no step. Where no data come `out` stays. Source: Linux
    /// `net/vmw_vsock/hyperv_transport.c`, hvs_update_recv_data, hvs_stream_dequeue.
    pub fn read(&mut self, out: &mut [u8; MOST_DATA]) -> Result<Got, SockFault>
        requires awake { self.old.state.machine.asleep ≡ false }
        requires unmarked { self.old.state.machine.marked ≡ false }
        requires room { (0 < self.old.spare_got.packets) × (self.old.state.machine.cells ≤ self.old.spare_got.words) }
        ensures ended { is_closed self.old.state.got ≡ true → (result ≡ Err Ended) × (self.new ≡ self.old) × (out.new ≡ out.old) }
        ensures broken { (f : Fault) → fault_in self.old.state.got ≡ Some f → (result ≡ Err f) × (self.new ≡ self.old) × (out.new ≡ out.old) }
        ensures reads { IsOpen self.old.state.got → Reads S S.told S.tale S.same self.old self.new result out.old out.new }
        ensures stream { stream_of self.new.state.got ≡ stream_of self.old.state.got ++ bytes_read result out.new }
        ensures closed { is_closed self.new.state.got ≡ closes result }
        ensures fault { fault_in self.new.state.got ≡ breaks_off result }
        ensures kept { (self.new.state.sent ≡ self.old.state.sent) × (self.new.spare_sent ≡ self.old.spare_sent) }
        ensures awake { (self.new.state.machine.asleep ≡ false) × (self.new.state.machine.marked ≡ false) }
        ensures same { S.same self.old.seat self.new.seat × (self.new.state.machine.cells ≡ self.old.state.machine.cells) × (self.new.state.machine.side ≡ self.old.state.machine.side) }
    {
        if self.ended {
            return Err(SockFault::Ended);
        }
        match self.fault {
            Some(fault) => Err(fault),
            None => {
                let answer = read_next(&mut self.end, out);
                self.ended = closes(answer);
                self.fault = breaks_off(answer);
                answer
            }
        }
    }

    /// Arms the signal and looks once more, as the end's call of this name does: for packets, for more room than `want` bytes where there is one, and for the
    /// peer's mark.
    pub fn arm(&mut self, want: Option<u32>) -> Armed
        requires idle { self.old.state.machine.stage ≡ Idle }
        requires awake { self.old.state.machine.asleep ≡ false }
        requires unmarked { self.old.state.machine.marked ≡ false }
        requires want { IsWant self.old.state.machine.cells want }
        ensures ran { MakesSteps S.told S.tale (arm_begun self.old.state.machine (want_of want)) [] self.old self.new }
        ensures answer { (is_asleep result ≡ self.new.state.machine.asleep) × (call_by self.new.state.machine.ended ≡ Arm) }
        ensures leaves { Leaves self.old.state.machine self.new.state.machine }
        ensures after { LeavesBy Arm self.old.state.machine self.new.state.machine }
        ensures past { self.new.state.past ≡ past_of self.new.state.machine.ended self.new.state.machine.saw [] self.old.state.past }
        ensures same { S.same self.old.seat self.new.seat }
        ensures kept { Kept self.old self.new }
    {
        self.end.arm(want)
    }

    /// Takes the signal of an end that is asleep, as the end's call of this name does. False comes exactly where it was down. After true the end is awake.
    pub fn poll_signal(&mut self) -> bool
        requires idle { self.old.state.machine.stage ≡ Idle }
        requires asleep { self.old.state.machine.asleep ≡ true }
        ensures ran { MakesSteps S.told S.tale (poll_begun self.old.state.machine) [] self.old self.new }
        ensures answer { (result ≡ not self.new.state.machine.asleep) × (call_by self.new.state.machine.ended ≡ Poll) }
        ensures leaves { Leaves self.old.state.machine self.new.state.machine }
        ensures after { LeavesBy Poll self.old.state.machine self.new.state.machine }
        ensures past { self.new.state.past ≡ past_of self.new.state.machine.ended self.new.state.machine.saw [] self.old.state.past }
        ensures same { S.same self.old.seat self.new.seat }
        ensures kept { Kept self.old self.new }
    {
        self.end.poll_signal()
    }

    /// The end of the channel that it stood over, which has no data pages.
    pub fn into_end(self) -> End<S>
        ensures end { result ≡ self }
        ensures whole { fault_in self.state.sent ≡ None }
        ensures bare { self.state.pages.count ≡ 0 }
    {
        let SockEnd {
            end,
            shut: _,
            ended: _,
            fault: _,
        } = self;
        end
    }
}

impl<S: Parks> SockEnd<S> {
    /// Sleeps until the signal was up, at a seat on which a thread can wait. When it returns the end is awake, and did nothing else.
    pub fn sleep<R: Wait>(&mut self, rt: &R)
        requires idle { self.old.state.machine.stage ≡ Idle }
        requires asleep { self.old.state.machine.asleep ≡ true }
        ensures awake { (self.new.state.machine.asleep ≡ false) × (self.new.state.machine.marked ≡ false) }
        ensures slept { Sleeps S.channel S.told self.old self.new }
    {
        sleep(&mut self.end, rt);
    }
}

impl SockEnd<SoloMem> {
    /// Exchanges the memories of two ends of one channel. So they can run by turns over one memory.
    pub fn swap_memory(&mut self, other: &mut SockEnd<SoloMem>)
        requires cells { self.old.state.machine.cells ≡ other.old.state.machine.cells }
        ensures this { self.new ≡ record self.old { seat = other.old.seat } }
        ensures that { other.new ≡ record other.old { seat = self.old.seat } }
    {
        self.end.swap_memory(&mut other.end);
    }
}
