//! The worker of the end that serves.
ghost use Rattle.std.specs.Prelude.{◌≡◌, ◌≢◌, ◌<◌, ◌≤◌, ◌+◌, ◌*◌, ◌⊎◌, [], ◌∷◌, ◌++◌, length, take, drop, map, count_by, is_some, Some, None, true, false, IfOk, ℕ};
ghost use Rattle.channel_trace.specs.Runs.{got_of, is_drained};
ghost use Rattle.worker_port.specs.Causes.{Arms, Polls};
ghost use Rattle.worker_server.specs.Causes.{GivesLast, GivesOne, GivesOrTakes, ServeCause, TakesOrArms};
ghost use Rattle.worker_port.specs.Line.{paged_end, CameNew, IsLine, line_of, past_as, Finds, BrokeFor, IsBroken, IsReady, IsSameEnd, HasTakeRoom, LacksTake, TookOne};
ghost use Rattle.worker_port.specs.Owed.{is_nil, LacksSend, MetFull};
ghost use Rattle.worker_port.specs.Rooms.{KeepsRoom, OnlyWith, SaysWhy, ServeLacksFor, ServedWithin, broke, is_broken};
ghost use Rattle.worker_server.specs.Serving.{Closes, EndsBy, EverTried, FirstFull, HasRoomFor, HasServed, HasToWait, Lacks, LacksRoom, LeavesTried, OwedTried, Turns, TurnTried, GaveOne, ServeEnds, ServesOn, BreaksOff, StandsGiven, calls_behind, has_done, lacks_call, marked_by};
ghost use Rattle.io_edge.specs.declared.side.Side.TheVariants.{Host as HostSide};
ghost use Rattle.worker_server.specs.Sheets.{TellsLawful};
ghost use Rattle.worker_port.specs.Tries.{FoundNone};
ghost use Rattle.ring_core.specs.Seen.{Seen};
ghost use Rattle.ring_machine.specs.Endings.{why_of};
ghost use Rattle.channel_model.specs.Acks.{AllOwnOpen, OwnFrom};
ghost use Rattle.worker_port.specs.declared.found.Found.TheVariants.{Nothing as NothingFound, Broken as BrokenFound};
ghost use Rattle.worker_server.specs.declared.put.Given.TheVariants.{Broken as BrokenGiven, Full as FullGiven};
ghost use Rattle.channel_model.specs.Amounts.{room_of};
ghost use Rattle.worker_port.specs.declared.ended.Ended.TheVariants.{PeerMarked as PeerMarkedEnd, Room as RoomEnd, Broken as BrokenEnd};

use crate::put::Given;
use crate::responder::Responder;
use channel_protocol::{Device, Protocol};
use io_edge::{Gate, Side};
use ring_core::End;
use ring_sleep::Parks;
use std::alloc::{AllocError, Global};
use std::marker::{Model, PhantomData};
use std::sync::Wait;
use worker_port::{ArmResult, Ended, Found, Port, Tried, Turn, room_of};

/// The worker of the end that serves: it answers what comes, in order, as its plan says.
#[derive(Drop)]
pub struct Server<T: Protocol, S: Device<T>, E: Parks> {
    responder: Responder<T, S>,
    port: Port<T, E>,
    serve: u32,
    stops: bool,
    starts: u32,
    come: u32,
    missing: u32,
    served: usize,
    seen: bool,
    want: Option<u32>,
}

impl<T: Protocol, S: Device<T>, E: Parks> Model for Server<T, S, E> {
    ghost use Rattle.std.specs.Prelude.{◌≡◌, ◌+◌, length};
    ghost use Rattle.worker_port.specs.Rooms.{KeepsRoom};
    ghost use Rattle.channel_model.specs.Amounts.{room_of};
    ghost use Rattle.worker_server.specs.Serving.{Serving, IsServing};
    ghost use Rattle.worker_server.specs.Sheets.{HasPages};

    ghost Value = { Serving T S E T.Request T.Reply };

    ghost view = { λ w. record { responder = w.responder; end = w.port; serve = w.serve; stops = w.stops; starts = w.starts; come = w.come; missing = w.missing; served = w.served; seen = w.seen; want = w.want } };

    ghost invariant = { λ w. record { live : IsServing (T.format w.responder.protocol) (T.besides w.responder.protocol) (record { responder = w.responder; end = w.port; serve = w.serve; stops = w.stops; starts = w.starts; come = w.come; missing = w.missing; served = w.served; seen = w.seen; want = w.want }); room : KeepsRoom (room_of (T.besides w.responder.protocol) (w.starts + w.come)) w.port; pages : HasPages E.told T.said (T.format w.responder.protocol) (T.lends w.responder.protocol) (T.besides w.responder.protocol) (record { responder = w.responder; end = w.port; serve = w.serve; stops = w.stops; starts = w.starts; come = w.come; missing = w.missing; served = w.served; seen = w.seen; want = w.want }); side : w.responder.side ≡ w.port.state.machine.side } };
}

/// What a serving worker gives once it has ended.
#[derive(Drop)]
pub struct ServerDone<T: Protocol, S: Device<T>, E: Parks> {
    pub end: End<E>,
    pub seat: S,
    pub ended: Ended,
    /// The serials of the requests that were served, in order.
    pub serials: Vec<u32>,
    of: PhantomData<T>,
}

impl<T: Protocol, S: Device<T>, E: Parks + Drop> Server<T, S, E> {
    // Sends what is owed first, if there is room.
    fn give(&mut self) -> Given
        requires ready { IsReady self.old.end }
        requires owed { is_nil self.old.responder.owed ≡ false }
        ensures gave { GaveOne result self.old self.new }
        ensures cause { GivesOne result self.old.end.state.past self.new.end }
        ensures tried { result ≡ FullGiven → FirstFull E.told E.tale self.new.responder.owed self.old.end.end self.new.end.end }
        ensures stands { StandsGiven result self.new.end }
        ensures honest { is_some (E.told self.old.end.seat) ≡ true → result ≢ BrokenGiven }
        ensures on { ServesOn S.same E.channel E.told self.old self.new }
    {
        let sheet = self.responder.first();
        if let Some(room) = self.port.lacks_send(sheet.packet()) {
            return Given::Lacks {
                packets: room.packets,
                words: room.words,
            };
        }
        self.port.stands_on_pages();
        self.port.lends_what_is_closed();
        match self.port.send(sheet.packet(), sheet.page()) {
            Tried::Sent => {
                self.responder.pop();
                Given::Sent
            }
            Tried::Full => Given::Full,
            Tried::Broken => Given::Broken,
        }
    }

    // Serves the next packet of those that came.
    fn serve_next<R: Wait, G: Gate>(&mut self, rt: &R, gate: &G)
        requires ready { IsReady self.old.end }
        requires owed { self.old.responder.owed ≡ [] }
        requires some { self.old.served < length self.old.end.state.got }
        requires call { lacks_call (T.format self.old.responder.protocol) self.old ≡ false }
        requires room { count_by is_some self.old.responder.table < length self.old.responder.table }
        ensures end { self.new.end ≡ self.old.end }
        ensures served { self.new.served ≡ self.old.served + 1 }
        ensures on { ServesOn S.same E.channel E.told self.old self.new }
    {
        let came = self.port.got_len();
        prove!(self.served < came);
        self.responder.serve(
            rt,
            gate,
            self.port.got(self.served),
            self.port.words(self.served),
        );
        self.served += 1;
    }

    // Takes a packet, if one waits. What acknowledges a message makes its place free.
    fn take_one(&mut self) -> Found
        requires ready { IsReady self.old.end }
        requires room { HasTakeRoom self.old.end }
        ensures took { TookOne result self.old.end.state self.new.end.state }
        ensures sent { self.new.end.spare_sent ≡ self.old.end.spare_sent }
        ensures drained { result ≡ NothingFound → self.old.seen ≡ true → is_drained self.new.end.state.past ≡ true }
        ensures kept { (self.new.responder.owed ≡ self.old.responder.owed) × (self.new.served ≡ self.old.served) × (self.new.seen ≡ self.old.seen) }
        ensures none { result ≡ NothingFound → self.new.responder ≡ self.old.responder }
        ensures missing { result ≡ NothingFound → self.new.missing ≡ self.old.missing }
        ensures finds { Finds result self.new.end }
        ensures looked { result ≡ NothingFound → FoundNone E.told E.tale self.old.end.end self.new.end.end }
        ensures honest { is_some (E.told self.old.end.seat) ≡ true → result ≢ BrokenFound }
        ensures on { ServesOn S.same E.channel E.told self.old self.new }
    {
        match self.port.take() {
            Found::Packet => {
                let packet = self.port.last();
                let words = self.port.last_words();
                self.missing = self.responder.missing_after(self.missing, packet, words);
                self.responder.close(packet, words);
                Found::Packet
            }
            Found::Nothing => Found::Nothing,
            Found::Broken => Found::Broken,
        }
    }

    // Ends here, since the plan says so.
    fn stop(&mut self) -> Ended
        requires ready { IsReady self.old.end }
        requires done { has_done self.old ≡ true }
        requires owed { self.old.responder.owed ≡ [] }
        requires served { self.old.served ≡ length self.old.end.state.got }
        ensures ends { EndsBy (T.format self.new.responder.protocol) (T.besides self.new.responder.protocol) result self.new self.new.end self.new.responder.calls }
        ensures room { LacksRoom S.left (T.format self.new.responder.protocol) (T.besides self.new.responder.protocol) result self.new }
        ensures tried { (before : Seen E) → LeavesTried E.told E.tale (T.format self.new.responder.protocol) (T.besides self.new.responder.protocol) result self.new before self.new.end self.new.responder.calls }
        ensures honest { is_broken result ≡ false }
        ensures on { ServesOn S.same E.channel E.told self.old self.new }
    {
        self.responder.rescind_all();
        self.port.mark();
        marked_by(self.seen)
    }

    // Ends after the other end, with nothing owed: all that came is served, or a message is open under each id, which the other end acknowledges no more.
    fn end_after_peer(&mut self)
        requires ready { IsReady self.old.end }
        requires owed { self.old.responder.owed ≡ [] }
        requires served { HasServed (T.format self.old.responder.protocol) (T.besides self.old.responder.protocol) self.old }
        requires drained { is_drained self.old.end.state.past ≡ true }
        ensures ends { EndsBy (T.format self.new.responder.protocol) (T.besides self.new.responder.protocol) PeerMarkedEnd self.new self.new.end self.new.responder.calls }
        ensures room { LacksRoom S.left (T.format self.new.responder.protocol) (T.besides self.new.responder.protocol) PeerMarkedEnd self.new }
        ensures tried { (before : Seen E) → LeavesTried E.told E.tale (T.format self.new.responder.protocol) (T.besides self.new.responder.protocol) PeerMarkedEnd self.new before self.new.end self.new.responder.calls }
        ensures on { ServesOn S.same E.channel E.told self.old self.new }
    {
        self.responder.rescind_all();
        self.port.mark();
    }

    // Ends after the other end, and lets go what it owes, for which there is no room: the other end, which has marked itself, makes no more.
    fn drop_owed(&mut self)
        requires ready { IsReady self.old.end }
        requires full { MetFull self.old.responder.owed self.old.end }
        requires drained { is_drained self.old.end.state.past ≡ true }
        ensures ends { EndsBy (T.format self.new.responder.protocol) (T.besides self.new.responder.protocol) PeerMarkedEnd self.new self.new.end self.new.responder.calls }
        ensures room { LacksRoom S.left (T.format self.new.responder.protocol) (T.besides self.new.responder.protocol) PeerMarkedEnd self.new }
        ensures tried { (before looked : Seen E) → FoundNone E.told E.tale before looked → FirstFull E.told E.tale self.old.responder.owed looked self.old.end.end → LeavesTried E.told E.tale (T.format self.new.responder.protocol) (T.besides self.new.responder.protocol) PeerMarkedEnd self.new before self.new.end self.new.responder.calls }
        ensures on { ServesOn S.same E.channel E.told self.old self.new }
    {
        self.responder.rescind_all();
        self.port.mark();
    }

    // Arms for the room that the packet needs that is owed, and sleeps where nothing is to be done.
    fn arm_or_sleep(&mut self) -> Turn
        requires ready { IsReady self.old.end }
        requires room { HasRoomFor self.old.responder.owed self.old.end }
        requires waits { is_nil self.old.responder.owed ≡ true → HasToWait (T.format self.old.responder.protocol) (T.besides self.old.responder.protocol) self.old }
        requires unseen { self.old.seen ≡ false }
        ensures turns { Turns S.left (T.format self.new.responder.protocol) (T.besides self.new.responder.protocol) result self.new }
        ensures cause { Arms result self.old.end.state.past self.new.end }
        ensures tried { (before met : Seen E) → OwedTried E.told E.tale self.old.responder.owed before met → FoundNone E.told E.tale met self.old.end.end → TurnTried E.told E.tale (T.format self.new.responder.protocol) (T.besides self.new.responder.protocol) result before self.new }
        ensures honest { broke result ≡ false }
        ensures on { ServesOn S.same E.channel E.told self.old self.new }
    {
        let want = self.responder.need();
        self.want = want;
        match self.port.arm(want) {
            ArmResult::Nothing => Turn::Idle,
            ArmResult::Work => Turn::Moved,
            ArmResult::Mark => {
                self.seen = true;
                Turn::Moved
            }
        }
    }

    // A worker that lacks room or a call gives what it has.
    fn out_of_room(&self, packets: u64, words: u64) -> Ended
        requires list { got_of self.now.end.state.past ≡ self.now.end.state.got }
        requires lacks { Lacks (T.format self.now.responder.protocol) packets words self.now }
        ensures room { result ≡ RoomEnd packets words (S.left self.now.responder.seat) }
        ensures breaks { BreaksOff (T.format self.now.responder.protocol) self.now self.now.end.state.past self.now.responder.calls }
        ensures own { OwnFrom (T.format self.now.responder.protocol) 64 self.now.end.state.past }
        ensures reserved { KeepsRoom (room_of (T.besides self.now.responder.protocol) (self.now.starts + self.now.come)) self.now.end }
        ensures over { ServeLacksFor (T.format self.now.responder.protocol) (T.besides self.now.responder.protocol) (self.now.starts + self.now.come) self.now.serve self.now.stops (RoomEnd packets words (S.left self.now.responder.seat)) self.now.end.state.past }
        ensures sent { ServedWithin (T.format self.now.responder.protocol) (T.besides self.now.responder.protocol) self.now.end.state.past }
    {
        Ended::Room {
            packets,
            words,
            left: self.responder.left(),
        }
    }

    // A worker whose end is broken gives what it has, and says why that is so.
    fn broke_off(&self) -> Ended
        requires broken { IsBroken self.now.end }
        ensures how { result ≡ BrokenEnd (why_of self.now.end.state.machine) }
        ensures broken { BrokeFor (why_of self.now.end.state.machine) self.now.end }
        ensures breaks { BreaksOff (T.format self.now.responder.protocol) self.now self.now.end.state.past self.now.responder.calls }
        ensures own { OwnFrom (T.format self.now.responder.protocol) 64 self.now.end.state.past }
        ensures sent { ServedWithin (T.format self.now.responder.protocol) (T.besides self.now.responder.protocol) self.now.end.state.past }
    {
        let why = self.port.why();
        Ended::Broken { why }
    }

    // Whether the packet that is served next asks the device and no call is left for it: a worker that stops behind its last call lets go what comes
    // then, and any other one breaks off.
    fn lacks_call(&self) -> bool
        ensures { result ≡ lacks_call (T.format self.now.responder.protocol) self.now }
    {
        !self.stops
            && self.responder.has_served()
            && self.has_unserved()
            && self
                .responder
                .is_asked(self.port.got(self.served), self.port.words(self.served))
    }

    // Whether the worker has done what its plan says, and stops then.
    fn has_done(&self) -> bool
        ensures { result ≡ has_done self.now }
    {
        self.stops && self.missing == 0 && self.responder.has_served()
    }

    fn has_unserved(&self) -> bool
        ensures more { result ≡ true → self.now.served < length self.now.end.state.got }
        ensures none { result ≡ false → self.now.served ≡ length self.now.end.state.got }
    {
        self.served < self.port.got_len()
    }

    // Takes a packet. Where none waits once the other end's mark was seen, and nothing is owed, this end follows; else it rests.
    #[tactic(auto, using(crate::proofs::ServeSteps::wait_served, crate::proofs::ServeSteps::waits_on, crate::proofs::ServeSteps::room_on))]
    fn take_or_rest(&mut self) -> Turn
        requires ready { IsReady self.old.end }
        requires room { HasRoomFor self.old.responder.owed self.old.end }
        requires waits { is_nil self.old.responder.owed ≡ true → HasToWait (T.format self.old.responder.protocol) (T.besides self.old.responder.protocol) self.old }
        requires unseen { is_nil self.old.responder.owed ≡ false → self.old.seen ≡ false }
        ensures turns { Turns S.left (T.format self.new.responder.protocol) (T.besides self.new.responder.protocol) result self.new }
        ensures cause { TakesOrArms result self.old.end.state.past self.new.end }
        ensures tried { (before : Seen E) → OwedTried E.told E.tale self.old.responder.owed before self.old.end.end → TurnTried E.told E.tale (T.format self.new.responder.protocol) (T.besides self.new.responder.protocol) result before self.new }
        ensures honest { is_some (E.told self.old.end.seat) ≡ true → broke result ≡ false }
        ensures on { ServesOn S.same E.channel E.told self.old self.new }
    {
        if let Some(room) = self.port.lacks_take() {
            return Turn::Ended(self.out_of_room(room.packets, room.words));
        }
        let seen = self.seen;
        match self.take_one() {
            Found::Packet => Turn::Moved,
            Found::Nothing => {
                if seen && self.responder.is_clear() {
                    self.end_after_peer();
                    return Turn::Ended(Ended::PeerMarked);
                }
                self.arm_or_sleep()
            }
            Found::Broken => Turn::Ended(self.broke_off()),
        }
    }

    // After the other end's mark: takes what it had sent first, and then sends what is owed. Where that finds no room it is let go, and this end follows.
    fn take_or_give(&mut self) -> Turn
        requires ready { IsReady self.old.end }
        requires owed { is_nil self.old.responder.owed ≡ false }
        requires seen { self.old.seen ≡ true }
        ensures turns { Turns S.left (T.format self.new.responder.protocol) (T.besides self.new.responder.protocol) result self.new }
        ensures cause { GivesOrTakes result self.old.end.state.past self.new.end }
        ensures tried { TurnTried E.told E.tale (T.format self.new.responder.protocol) (T.besides self.new.responder.protocol) result self.old.end.end self.new }
        ensures honest { is_some (E.told self.old.end.seat) ≡ true → broke result ≡ false }
        ensures on { ServesOn S.same E.channel E.told self.old self.new }
    {
        if let Some(room) = self.port.lacks_take() {
            return Turn::Ended(self.out_of_room(room.packets, room.words));
        }
        match self.take_one() {
            Found::Packet => Turn::Moved,
            Found::Nothing => self.give_last(),
            Found::Broken => Turn::Ended(self.broke_off()),
        }
    }

    // After all that the other end had sent: sends what is owed. Where that finds no room it is let go, and this end follows.
    fn give_last(&mut self) -> Turn
        requires ready { IsReady self.old.end }
        requires owed { is_nil self.old.responder.owed ≡ false }
        requires drained { is_drained self.old.end.state.past ≡ true }
        ensures turns { Turns S.left (T.format self.new.responder.protocol) (T.besides self.new.responder.protocol) result self.new }
        ensures cause { GivesLast result self.old.end.state.past self.new.end }
        ensures tried { (before : Seen E) → FoundNone E.told E.tale before self.old.end.end → TurnTried E.told E.tale (T.format self.new.responder.protocol) (T.besides self.new.responder.protocol) result before self.new }
        ensures honest { is_some (E.told self.old.end.seat) ≡ true → broke result ≡ false }
        ensures on { ServesOn S.same E.channel E.told self.old self.new }
    {
        match self.give() {
            Given::Sent => Turn::Moved,
            Given::Lacks { packets, words } => Turn::Ended(self.out_of_room(packets, words)),
            Given::Broken => Turn::Ended(self.broke_off()),
            Given::Full => {
                self.drop_owed();
                Turn::Ended(Ended::PeerMarked)
            }
        }
    }

    // Sends what is owed. An end that waits for room goes on taking.
    fn give_or_take(&mut self) -> Turn
        requires ready { IsReady self.old.end }
        requires owed { is_nil self.old.responder.owed ≡ false }
        ensures turns { Turns S.left (T.format self.new.responder.protocol) (T.besides self.new.responder.protocol) result self.new }
        ensures cause { GivesOrTakes result self.old.end.state.past self.new.end }
        ensures tried { TurnTried E.told E.tale (T.format self.new.responder.protocol) (T.besides self.new.responder.protocol) result self.old.end.end self.new }
        ensures honest { is_some (E.told self.old.end.seat) ≡ true → broke result ≡ false }
        ensures on { ServesOn S.same E.channel E.told self.old self.new }
    {
        if self.seen {
            return self.take_or_give();
        }
        match self.give() {
            Given::Sent => Turn::Moved,
            Given::Lacks { packets, words } => Turn::Ended(self.out_of_room(packets, words)),
            Given::Broken => Turn::Ended(self.broke_off()),
            Given::Full => self.take_or_rest(),
        }
    }

    // Stops where the plan says so, with nothing owed and all served. Where its own table is full it takes first, since an acknowledgement makes a place free.
    #[tactic(auto, using(crate::proofs::ServeSteps::waits_full, crate::proofs::ServeSteps::room_none))]
    fn stop_or_take(&mut self) -> Turn
        requires ready { IsReady self.old.end }
        requires owed { self.old.responder.owed ≡ [] }
        requires served { HasServed (T.format self.old.responder.protocol) (T.besides self.old.responder.protocol) self.old }
        ensures turns { Turns S.left (T.format self.new.responder.protocol) (T.besides self.new.responder.protocol) result self.new }
        ensures cause { TakesOrArms result self.old.end.state.past self.new.end }
        ensures tried { TurnTried E.told E.tale (T.format self.new.responder.protocol) (T.besides self.new.responder.protocol) result self.old.end.end self.new }
        ensures honest { is_some (E.told self.old.end.seat) ≡ true → broke result ≡ false }
        ensures on { ServesOn S.same E.channel E.told self.old self.new }
    {
        if self.has_unserved() {
            return self.take_or_rest();
        }
        if self.has_done() {
            return Turn::Ended(self.stop());
        }
        self.take_or_rest()
    }

    // Whether a message that goes back would find no free place of its own table.
    fn lacks_place(&self) -> bool
        requires ready { IsReady self.now.end }
        requires owed { self.now.responder.owed ≡ [] }
        ensures full { result ≡ true → OnlyWith (T.besides self.now.responder.protocol) (AllOwnOpen (T.format self.now.responder.protocol) 64 self.now.end.state.past) }
        ensures room { result ≡ false → count_by is_some self.now.responder.table < length self.now.responder.table }
    {
        self.responder.is_full()
    }

    // Serves what came, until something is owed for it, no call is left, or no place of its own table.
    fn serve_on<R: Wait, G: Gate>(&mut self, rt: &R, gate: &G)
        requires ready { IsReady self.old.end }
        requires owed { self.old.responder.owed ≡ [] }
        ensures end { self.new.end ≡ self.old.end }
        ensures served { is_nil self.new.responder.owed ≡ true → lacks_call (T.format self.new.responder.protocol) self.new ≡ false → HasServed (T.format self.new.responder.protocol) (T.besides self.new.responder.protocol) self.new }
        ensures on { ServesOn S.same E.channel E.told self.old self.new }
    {
        while self.has_unserved() && !self.lacks_call() && !self.lacks_place() {
            self.serve_next(rt, gate);
            if !self.responder.is_clear() {
                return;
            }
        }
    }

    // A turn of an end that is awake: what is owed is sent first, and where nothing is what came is served.
    fn work<R: Wait, G: Gate>(&mut self, rt: &R, gate: &G) -> Turn
        requires ready { IsReady self.old.end }
        ensures turns { Turns S.left (T.format self.new.responder.protocol) (T.besides self.new.responder.protocol) result self.new }
        ensures cause { GivesOrTakes result self.old.end.state.past self.new.end }
        ensures tried { TurnTried E.told E.tale (T.format self.new.responder.protocol) (T.besides self.new.responder.protocol) result self.old.end.end self.new }
        ensures honest { is_some (E.told self.old.end.seat) ≡ true → broke result ≡ false }
        ensures on { ServesOn S.same E.channel E.told self.old self.new }
    {
        if !self.responder.is_clear() {
            return self.give_or_take();
        }
        self.serve_on(rt, gate);
        if !self.responder.is_clear() {
            return self.give_or_take();
        }
        if self.lacks_call() {
            let room = self.port.spare_got();
            return Turn::Ended(self.out_of_room(room.packets, room.words));
        }
        self.stop_or_take()
    }

    // A turn of an end that is asleep.
    fn poll_asleep(&mut self) -> Turn
        requires asleep { self.old.end.state.machine.asleep ≡ true }
        requires unmarked { self.old.end.state.machine.marked ≡ false }
        ensures turns { Turns S.left (T.format self.new.responder.protocol) (T.besides self.new.responder.protocol) result self.new }
        ensures cause { Polls E.told E.tale result self.old.end self.new.end }
        ensures honest { broke result ≡ false }
        ensures on { ServesOn S.same E.channel E.told self.old self.new }
    {
        if self.port.poll() {
            return Turn::Moved;
        }
        Turn::Idle
    }

    /// A worker over a new end and a seat that has as many calls left as it serves. `starts` is how many requests of the start-up have answers, `serve` how many requests of the
    /// device it serves, the answer to the last one being kept where `held`; `stops` says whether it ends then. It makes room for `starts` and `come`
    /// requests, and for as many messages and what acknowledges them, where there are messages. Where packets lend data pages, the end is the host's, and with messages the channel has all 128 pages: a message lends
    /// the page of its id behind the 64 of the guest. It takes all its memory here.
    pub fn make(
        alloc: Global,
        protocol: T,
        end: End<E>,
        seat: S,
        side: Side,
        relid: u32,
        starts: u32,
        serve: u32,
        held: bool,
        stops: bool,
        come: u32,
    ) -> Result<Server<T, S, E>, AllocError>
        requires serves { S.serves seat protocol }
        requires calls { serve ≤ S.left seat }
        requires none { T.lends protocol ≡ false → end.state.pages.count ≡ 0 }
        requires some { T.lends protocol ≡ true → end.state.pages.count ≢ 0 }
        requires host { T.lends protocol ≡ true → end.state.machine.side ≡ HostSide }
        requires enough { T.lends protocol ≡ true → T.besides protocol ≡ true → 128 ≤ end.state.pages.count }
        requires tells { T.lends protocol ≡ true → is_some (E.told end.seat) ≡ true }
        requires lawful { T.lends protocol ≡ true → TellsLawful E.told }
        requires fresh { end.state ≡ paged_end end.state.pages.count end.state.machine.cells end.state.machine.side }
        requires size { (512 ≤ end.state.machine.cells) × (end.state.machine.cells ≤ 16777216) }
        requires side { side ≡ end.state.machine.side }
        ensures protocol { IfOk result (λ w. (w.responder.protocol ≡ protocol) × (w.responder.seat ≡ seat) × (w.responder.before ≡ S.calls seat)) }
        ensures relid { IfOk result (λ w. w.responder.relid ≡ relid) }
        ensures orders { IfOk result (λ w. (w.serve ≡ serve) × (w.responder.held ≡ held) × (w.stops ≡ stops) × (w.starts ≡ starts) × (w.come ≡ come)) }
        ensures end { IfOk result (λ w. (w.end.end.state ≡ end.state) × (w.end.end.seat ≡ end.seat) × (w.end.seat ≡ end.seat)) }
        ensures machine { IfOk result (λ w. w.end.state.machine ≡ end.state.machine) }
    {
        let packets = room_of(protocol.besides(), starts as u64 + come as u64);
        let port = match Port::with_room(end, packets) {
            Ok(port) => port,
            Err(refused) => {
                drop(protocol);
                drop(seat);
                return Err(refused);
            }
        };
        match Responder::make(alloc, protocol, seat, side, relid, serve, held) {
            Ok(responder) => Ok(Server {
                responder,
                port,
                serve,
                stops,
                starts,
                come,
                missing: starts,
                served: 0,
                seen: false,
                want: None,
            }),
            Err(refused) => {
                drop(port);
                Err(refused)
            }
        }
    }

    /// A turn: an end that is asleep polls its signal. Otherwise the worker sends what it owes, serves what came, takes a packet, ends, or rests. It waits for its
    /// device alone, and for nobody at the channel.
    pub fn turn<R: Wait, G: Gate>(&mut self, rt: &R, gate: &G) -> Turn
        requires unmarked { self.old.end.state.machine.marked ≡ false }
        ensures turns { Turns S.left (T.format self.new.responder.protocol) (T.besides self.new.responder.protocol) result self.new }
        ensures cause { ServeCause E.told E.tale result self.old.end self.new.end }
        ensures tried { self.old.end.state.machine.asleep ≡ false → TurnTried E.told E.tale (T.format self.new.responder.protocol) (T.besides self.new.responder.protocol) result self.old.end.end self.new }
        ensures room { ServeEnds (T.format self.new.responder.protocol) (T.besides self.new.responder.protocol) result self.new }
        ensures honest { is_some (E.told self.old.end.seat) ≡ true → broke result ≡ false }
        ensures on { ServesOn S.same E.channel E.told self.old self.new }
    {
        if self.port.is_asleep() {
            return self.poll_asleep();
        }
        if self.port.is_broken() {
            return Turn::Ended(self.broke_off());
        }
        self.work(rt, gate)
    }

    /// A law, and the call does nothing: whatever its peer wrote, the end came from a new one by whole calls alone, and knows of the channel what their steps answered.
    pub fn comes_by_calls(&self)
        ensures { CameNew E.tale self.now.end.end }
    {
        self.port.comes_by_calls();
    }

    // Sleeps until the signal was up.
    fn sleep<R: Wait>(&mut self, rt: &R)
        requires asleep { self.old.end.state.machine.asleep ≡ true }
        requires unmarked { self.old.end.state.machine.marked ≡ false }
        ensures unmarked { self.new.end.state.machine.marked ≡ false }
        ensures on { ServesOn S.same E.channel E.told self.old self.new }
    {
        self.port.sleep(rt);
    }

    /// Gives what it did, once it has ended.
    pub fn done(self, ended: Ended) -> ServerDone<T, S, E>
        requires { EndsBy (T.format self.responder.protocol) (T.besides self.responder.protocol) ended self self.end self.responder.calls }
        ensures ends { (result.ended ≡ ended) × EndsBy (T.format self.responder.protocol) (T.besides self.responder.protocol) result.ended self (line_of T.said result.end) self.responder.calls }
        ensures calls { S.calls result.seat ≡ self.responder.before ++ self.responder.calls }
        ensures serials { result.serials.items ≡ map (λ c. c.serial) self.responder.calls }
        ensures same { (result.end ≡ self.end.end) × (result.seat ≡ self.responder.seat) }
        ensures line { self.end ≡ line_of T.said result.end }
        ensures stands { IsLine E.told result.end }
        ensures came { CameNew E.tale result.end }
    {
        let Server {
            responder,
            port,
            serve: _,
            stops: _,
            starts: _,
            come: _,
            missing: _,
            served: _,
            seen: _,
            want: _,
        } = self;
        let (seat, serials) = responder.into_seat();
        ServerDone {
            end: port.into_end(),
            seat,
            ended,
            serials,
            of: PhantomData,
        }
    }

    /// Takes turns, and sleeps after a turn that found nothing to do, until the worker has ended.
    pub fn run<R: Wait, G: Gate>(mut self, rt: &R, gate: &G) -> ServerDone<T, S, E>
        requires unmarked { self.end.state.machine.marked ≡ false }
        ensures ends { EndsBy (T.format self.responder.protocol) (T.besides self.responder.protocol) result.ended self (line_of T.said result.end) (calls_behind self.responder.before (S.calls result.seat)) }
        ensures tried { EverTried E.channel E.told E.tale (T.format self.responder.protocol) (T.besides self.responder.protocol) result.ended self (line_of T.said result.end) (calls_behind self.responder.before (S.calls result.seat)) }
        ensures before { take (length self.responder.before) (S.calls result.seat) ≡ self.responder.before }
        ensures serials { result.serials.items ≡ map (λ c. c.serial) (calls_behind self.responder.before (S.calls result.seat)) }
        ensures end { IsSameEnd E.channel self.end.end result.end }
        ensures stands { IsLine E.told result.end }
        ensures came { CameNew E.tale result.end }
        ensures seat { S.same self.responder.seat result.seat }
        ensures honest { is_some (E.told self.end.seat) ≡ true → is_broken result.ended ≡ false }
        ensures broken { SaysWhy result.ended (line_of T.said result.end) }
        ensures sent { ServedWithin (T.format self.responder.protocol) (T.besides self.responder.protocol) (past_as T.said result.end.state) }
        ensures room { ServeLacksFor (T.format self.responder.protocol) (T.besides self.responder.protocol) (self.starts + self.come) self.serve self.stops result.ended (past_as T.said result.end.state) }
    {
        for _ in rt.forever() {
            match self.turn(rt, gate) {
                Turn::Moved => {}
                Turn::Idle => self.sleep(rt),
                Turn::Ended(ended) => return self.done(ended),
            }
        }
        unreachable!()
    }
}

/// How a worker has ended that marked its end, by whether it had seen the other end's mark.
fn marked_by(seen: bool) -> Ended
    ensures { result ≡ marked_by seen }
{
    if seen {
        Ended::PeerMarked
    } else {
        Ended::Marked
    }
}
