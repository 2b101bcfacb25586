//! One end of a channel, as its worker uses it.
ghost use Rattle.std.specs.Prelude.{◌≡◌, ◌≢◌, ◌<◌, ◌≤◌, ◌-◌, ◌+◌, ◌*◌, ◌^◌, ◌++◌, ◌==◌, [], ◌∷◌, ℕ, Bool, List, true, false, not, length, slice_get, is_some, map, Some, IfOk, OnOk, MatchOption, if◌then◌else◌};
ghost use Rattle.channel_trace.specs.declared.event.Event.TheVariants.{Marked};
ghost use Rattle.channel_trace.specs.Runs.{got_of, has_marked, sent_of};
ghost use Rattle.ring_machine.specs.Endings.{want_of, why_of};
ghost use Rattle.ring_machine.specs.declared.machine.Stage.TheVariants.{Idle};
ghost use Rattle.worker_port.specs.declared.found.Tried.TheVariants.{Sent as SentTry, Full as FullTry, Broken as BrokenTry};
ghost use Rattle.worker_port.specs.declared.found.Found.TheVariants.{Packet as PacketFind, Nothing as NothingFind, Broken as BrokenFind};
ghost use Rattle.ring_machine.specs.declared.machine.Ending.TheVariants.{Full as EndedFull};
ghost use Rattle.ring_machine.specs.States.{IsPacket, MayLend};
ghost use Rattle.worker_port.specs.Owed.{HasSendRoom, IsNeed, LacksSendOf};
ghost use Rattle.worker_port.specs.Rooms.{GotInto, KeepsRoom, SentInto};
ghost use Rattle.page_kept.specs.declared.item.Item.{Item};
ghost use Rattle.page_kept.specs.Items.{item_of, packets};
ghost use Rattle.channel_protocol.specs.Paged.{Lays};
ghost use Rattle.worker_port.specs.Line.{paged_end, page_words, words_at, CameNew, CanLay, IsLine, line_of, item_sent, past_as, IsBroken, IsReady, Tries, Finds, past_tried, Stays, TookOne, looked, look_of, is_asleep, armed_by, polled_by, PolledOnce, HasTakeRoom, LacksTake};
ghost use Rattle.worker_port.specs.Homes.{HasHome, KeepsHome, SendsHome, TakesHome};
ghost use Rattle.page_home_laws.specs.Home.{LendsItsOwn};
ghost use Rattle.page_kept.specs.Layouts.{layout};
ghost use Rattle.pkt_desc.specs.Packets.{id_of, kind_of};
ghost use Rattle.worker_port.specs.Tries.{ArmedOnce, FoundNone, MarkedOnce, TriedWith};
ghost use Rattle.ring_core.specs.Pages.{along, IsClear};
ghost use Rattle.ring_core.specs.declared.told.Told.{Told};

use crate::carry::{lay_all, load_all};
use crate::found::{Found, Tried, found_by, has_packet, tried_by};
use crate::room::{places_of_pages, words_of_pages};
use channel_protocol::Protocol;
use ring_core::{Armed, End, Room, Why};
use ring_sleep::{Parks, sleep};
use std::alloc::AllocError;
use std::marker::{Model, PhantomData};
use std::sync::Wait;

/// What the looks of an arm found.
#[derive(Clone, Copy)]
pub enum ArmResult {
    /// Nothing: the end is asleep.
    Nothing,
    /// Packets, or the room that was wanted.
    Work,
    /// The peer's mark.
    Mark,
}

/// An end of a channel whose peer is one of this program's. It takes a packet with all its page words, and gives its cells back as soon as it has these; page words
/// are stored right before each try to send. Contracts see what it did and got in items as this protocol reads them.
#[derive(Drop)]
pub struct Port<T: Protocol, S: Parks> {
    end: End<S>,
    of: PhantomData<T>,
}

impl<T: Protocol, S: Parks> Model for Port<T, S> {
    ghost use Rattle.worker_port.specs.Line.{IsPort, Line, line_of};

    ghost Value = { Line S };

    ghost view = { λ p. line_of T.said p.end };

    ghost invariant = { λ p. IsPort S.told S.tale p.end };
}

impl<T: Protocol, S: Parks + Drop> Port<T, S> {
    // A port over a new end, whose rings have 512 to 16,777,216 cells.
    fn over(end: End<S>) -> Port<T, S>
        requires fresh { end.state ≡ paged_end end.state.pages.count end.state.machine.cells end.state.machine.side }
        requires size { (512 ≤ end.state.machine.cells) × (end.state.machine.cells ≤ 16777216) }
        ensures { result ≡ line_of T.said end }
    {
        Port {
            end,
            of: PhantomData,
        }
    }

    // Makes room in both lists of packets.
    fn reserve(&mut self, sent: Room, got: Room) -> Result<(), AllocError>
        ensures state { (self.new.end.state ≡ self.old.end.state) × (self.new.state ≡ self.old.state) × (self.new.end.seat ≡ self.old.end.seat) × (self.new.seat ≡ self.old.seat) }
        ensures room { OnOk result ((sent.packets ≤ self.new.spare_sent.packets) × (sent.words ≤ self.new.spare_sent.words) × (got.packets ≤ self.new.spare_got.packets) × (got.words ≤ self.new.spare_got.words)) }
    {
        self.end.reserve(sent, got)
    }

    /// A port over a new end, whose rings have 512 to 16,777,216 cells. It makes room for so many packets each way, and of what comes for one more, and the words
    /// of a whole ring besides 384 for each; in a channel with data pages for the words of a page with each packet, too. Afterwards neither `send` nor `take`
    /// allocates.
    pub fn with_room(end: End<S>, packets: u64) -> Result<Port<T, S>, AllocError>
        requires fresh { end.state ≡ paged_end end.state.pages.count end.state.machine.cells end.state.machine.side }
        requires size { (512 ≤ end.state.machine.cells) × (end.state.machine.cells ≤ 16777216) }
        requires few { packets ≤ 2 ^ 34 }
        ensures end { IfOk result (λ p. (p.end.state ≡ end.state) × (p.end.seat ≡ end.seat) × (p.seat ≡ end.seat)) }
        ensures new { IfOk result (λ p. (p.state.past ≡ []) × (p.state.got ≡ []) × (p.state.machine ≡ end.state.machine)) }
        ensures room { IfOk result (λ p. KeepsRoom packets p) }
        ensures home { IfOk result (λ p. HasHome (λ t. false) p.end.state) }
    {
        let mut port = Port::over(end);
        let cells = port.cells() as u64;
        let pages = port.pages();
        let sent = Room {
            packets,
            words: 384 * packets + words_of_pages(pages, packets),
        };
        let got = Room {
            packets: packets + 1 + places_of_pages(pages, packets + 1),
            words: 384 * packets + (cells + words_of_pages(pages, packets + 1)),
        };
        match port.reserve(sent, got) {
            Ok(()) => Ok(port),
            Err(refused) => {
                drop(port);
                Err(refused)
            }
        }
    }

    /// The packets and words for which the list of what was got has room.
    #[tactic(auto, using(crate::proofs::ItemLaws::got_view))]
    pub fn spare_got(&self) -> Room
        ensures value { result ≡ self.now.spare_got }
        ensures got { got_of self.now.state.past ≡ self.now.state.got }
    {
        self.end.spare_got()
    }

    /// The room that is left of the list of what was got, where it is too little for the next packet.
    #[tactic(auto, using(crate::proofs::ItemLaws::got_view))]
    pub fn lacks_take(&self) -> Option<Room>
        ensures lacks { MatchOption result (HasTakeRoom self.now) (λ r. LacksTake r.packets r.words self.now) }
        ensures got { got_of self.now.state.past ≡ self.now.state.got }
    {
        let room = self.end.spare_got();
        let words = self.end.cells() as u64 + words_of_pages(self.end.pages(), 1);
        if room.packets == 0 || room.words < words {
            return Some(room);
        }
        None
    }

    /// The room that is left of the list of what was sent, where it is too little for this packet.
    #[tactic(auto, using(crate::proofs::ItemLaws::got_view))]
    pub fn lacks_send(&self, packet: &[u64]) -> Option<Room>
        requires { length packet.now ≤ 384 }
        ensures lacks { MatchOption result (HasSendRoom packet.now self.now) (λ r. LacksSendOf r.packets r.words packet.now self.now) }
        ensures got { got_of self.now.state.past ≡ self.now.state.got }
    {
        let room = self.end.spare_sent();
        let words = packet.len() as u64 + words_of_pages(self.end.pages(), 1);
        if room.packets == 0 || room.words < words {
            return Some(room);
        }
        None
    }

    /// Whether it is broken, where it neither sleeps nor is marked.
    pub fn is_broken(&self) -> bool
        requires awake { (self.now.state.machine.asleep ≡ false) × (self.now.state.machine.marked ≡ false) }
        ensures broken { result ≡ true → IsBroken self.now }
        ensures ready { result ≡ false → IsReady self.now }
        ensures honest { is_some (S.told self.now.seat) ≡ true → result ≡ false }
    {
        !self.end.is_ready()
    }

    /// Why it is broken: the value that it refused.
    pub fn why(&self) -> Why
        requires { IsBroken self.now }
        ensures { result ≡ why_of self.now.state.machine }
    {
        match self.end.broken() {
            Some(why) => why,
            None => unreachable!(),
        }
    }

    // The cells of each ring.
    fn cells(&self) -> u32
        ensures value { result ≡ self.now.state.machine.cells }
        ensures most { result ≤ 16777216 }
    {
        self.end.cells()
    }

    // The channel's data pages.
    fn pages(&self) -> u32
        ensures { result ≡ self.now.end.state.pages.count }
    {
        self.end.pages()
    }

    /// A law, and the call does nothing: of the pages, a request may be sent under an id that isn't open, where it lends the page of its id or none.
    pub fn lends_what_is_closed(&self)
        ensures { (is_open : ℕ → Bool) (p : List ℕ) → HasHome is_open self.now.end.state → (kind_of p == 11) ≡ false → is_open (id_of p) ≡ false → LendsItsOwn (layout self.now.end.state.pages.count) self.now.end.state.machine.side p → MayLend self.now.end.state p }
    {
        // For the proof: what a value keeps is known where the value is read.
        let _ = &self.end;
    }

    /// A law, and the call does nothing: nothing is due, in a channel with data pages what it sent and got is what its pages' items are read as, and what its
    /// seat tells is the end's state.
    pub fn stands_on_pages(&self)
        ensures clear { IsClear self.now.end.state.pages }
        ensures items { self.now.end.state.pages.count ≢ 0 → (packets self.now.end.state.pages.sent ≡ self.now.end.state.sent) × (packets self.now.end.state.pages.got ≡ self.now.end.state.got) }
        ensures read { self.now.end.state.pages.count ≢ 0 → (sent_of self.now.state.past ≡ map T.said self.now.end.state.pages.sent) × (got_of self.now.state.past ≡ map T.said self.now.end.state.pages.got) }
        ensures listed { length self.now.end.state.pages.owners ≡ self.now.end.state.pages.count }
        ensures got { got_of self.now.state.past ≡ self.now.state.got }
        ensures told { (u : Told) → S.told self.now.seat ≡ Some u → u.state ≡ self.now.end.state }
    {
        self.end.items_fit();
    }

    /// A law, and the call does nothing: whatever its peer wrote, the end came from a new one by whole calls alone, and knows of the channel what their steps answered.
    pub fn comes_by_calls(&self)
        ensures { CameNew S.tale self.now.end }
    {
        // For the proof: what a value keeps is known where the value is read.
        let _ = &self.end;
    }

    /// Whether it sleeps until its signal is up.
    pub fn is_asleep(&self) -> bool
        ensures { result ≡ self.now.state.machine.asleep }
    {
        self.end.is_asleep()
    }

    /// How many packets were got.
    pub fn got_len(&self) -> usize
        ensures { result ≡ length self.now.state.got }
    {
        self.end.got().len()
    }

    /// The i-th packet that was got.
    pub fn got(&self, i: usize) -> &[u64]
        requires { i < length self.now.state.got }
        ensures value { slice_get self.now.state.got i ≡ Some (T.said (item_of result.now (words_at self.now.end.state.pages.got i))) }
        ensures bare { self.now.end.state.pages.count ≡ 0 → slice_get self.now.state.got i ≡ Some (T.said (item_of result.now [])) }
        ensures packet { IsPacket result.now }
    {
        match self.end.got().get(i) {
            Some(packet) => packet,
            None => unreachable!(),
        }
    }

    /// The page words that came with the i-th packet that was got.
    pub fn words(&self, i: usize) -> &[u64]
        requires { i < length self.now.state.got }
        ensures value { result.now ≡ words_at self.now.end.state.pages.got i }
        ensures few { length result.now ≤ 512 }
    {
        match self.end.got().lent(i) {
            Some(words) => words,
            None => unreachable!(),
        }
    }

    /// The packet that was got last, where one was.
    pub fn last(&self) -> &[u64]
        requires { 0 < length self.now.state.got }
        ensures value { (before : List Item) (p : Item) → self.now.state.got ≡ before ++ p ∷ [] → T.said (item_of result.now (words_at self.now.end.state.pages.got (length self.now.state.got - 1))) ≡ p }
        ensures bare { self.now.end.state.pages.count ≡ 0 → (before : List Item) (p : Item) → self.now.state.got ≡ before ++ p ∷ [] → T.said (item_of result.now []) ≡ p }
        ensures packet { IsPacket result.now }
    {
        self.got(self.got_len() - 1)
    }

    /// The page words that came with it.
    pub fn last_words(&self) -> &[u64]
        requires { 0 < length self.now.state.got }
        ensures value { result.now ≡ words_at self.now.end.state.pages.got (length self.now.state.got - 1) }
        ensures few { length result.now ≤ 512 }
    {
        self.words(self.got_len() - 1)
    }

    /// Sends a packet, if the ring has room for it, behind a store of these page words into the part of a page that goes along with it. The signal is raised where
    /// the peer waits for it. Where the peer's read index is in no form the end is broken, which can't be where the seat tells its end's state.
    pub fn send(&mut self, packet: &[u64], words: &[u64]) -> Tried
        requires ready { IsReady self.old }
        requires packet { IsPacket packet.now }
        requires most { length packet.now ≤ 384 }
        requires lays { CanLay self.old.end packet.now words.now }
        requires room { HasSendRoom packet.now self.old }
        ensures past { self.new.state.past ≡ past_tried result (T.said (item_sent self.old packet.now words.now)) self.old.state.past }
        ensures lays { Lays packet.now words.now (along self.old.end.state.pages packet.now) (item_sent self.old packet.now words.now) }
        ensures bare { self.old.end.state.pages.count ≡ 0 → item_sent self.old packet.now words.now ≡ item_of packet.now [] }
        ensures tries { Tries result self.new }
        ensures honest { is_some (S.told self.old.seat) ≡ true → result ≢ BrokenTry }
        ensures stays { Stays S.channel S.told self.old self.new }
        ensures got { (self.new.state.got ≡ self.old.state.got) × (self.new.spare_got ≡ self.old.spare_got) }
        ensures unmarked { has_marked self.old.state.past ≡ false }
        ensures unsent { result ≢ SentTry → self.new.spare_sent ≡ self.old.spare_sent }
        ensures found { result ≡ FullTry → (self.new.state.machine.room ≤ length packet.now + 1) × (self.new.state.machine.words ≡ length packet.now) }
        ensures tried { TriedWith S.told S.tale packet.now words.now self.old.end self.new.end }
        ensures full { result ≡ FullTry → self.new.end.state.machine.ended ≡ EndedFull }
        ensures home { SendsHome result packet.now self.old.end.state self.new.end.state }
        ensures into { SentInto (length packet.now) self.old self.new }
    {
        lay_all(&mut self.end, packet, words);
        let tried = tried_by(self.end.send(packet));
        self.end.items_fit();
        tried
    }

    /// Takes the first packet that waits, if one does, with all its page words, and gives its cells back. Where what it loads is no packet the end is broken, which
    /// can't be where the seat tells its end's state.
    pub fn take(&mut self) -> Found
        requires ready { IsReady self.old }
        requires room { HasTakeRoom self.old }
        ensures list { got_of self.old.state.past ≡ self.old.state.got }
        ensures took { TookOne result self.old.state self.new.state }
        ensures finds { Finds result self.new }
        ensures honest { is_some (S.told self.old.seat) ≡ true → result ≢ BrokenFind }
        ensures stays { Stays S.channel S.told self.old self.new }
        ensures sent { self.new.spare_sent ≡ self.old.spare_sent }
        ensures none { result ≢ PacketFind → (self.new.state.got ≡ self.old.state.got) × (self.new.spare_got ≡ self.old.spare_got) }
        ensures looked { result ≡ NothingFind → FoundNone S.told S.tale self.old.end self.new.end }
        ensures home { TakesHome result self.old self.new }
        ensures into { GotInto self.old self.new }
    {
        let found = found_by(self.end.take_in());
        if !has_packet(found) {
            self.end.items_fit();
            return found;
        }
        self.end.stands_inside();
        load_all(&mut self.end);
        self.end.items_fit();
        self.end.commit();
        found
    }

    /// Arms the signal, and looks once more for packets, for the room in bytes that is wanted, and for the peer's mark. Where it finds none of these the end
    /// is asleep.
    #[tactic(auto, using(crate::proofs::PortLaws::arm_ended))]
    pub fn arm(&mut self, want: Option<u32>) -> ArmResult
        requires ready { IsReady self.old }
        requires want { IsNeed want }
        ensures past { self.new.state.past ≡ looked result self.old.state.past }
        ensures asleep { self.new.state.machine.asleep ≡ is_asleep result }
        ensures idle { self.new.state.machine.stage ≡ Idle }
        ensures ended { self.new.state.machine.ended ≡ armed_by result }
        ensures found { self.new.end.state.machine.ended ≡ armed_by result }
        ensures once { ArmedOnce S.told S.tale want self.old.end self.new.end }
        ensures unmarked { self.new.state.machine.marked ≡ false }
        ensures want { self.new.state.machine.asleep ≡ true → self.new.state.machine.want ≡ want_of want }
        ensures home { KeepsHome self.old.end.state self.new.end.state }
        ensures stays { Stays S.channel S.told self.old self.new }
        ensures lists { (self.new.state.got ≡ self.old.state.got) × (self.new.spare_got ≡ self.old.spare_got) × (self.new.spare_sent ≡ self.old.spare_sent) }
    {
        let found = self.end.arm(want);
        looked_by(found, self.end.saw_mark())
    }

    /// Takes the signal of an end that is asleep, if it is up: then the end is awake.
    #[tactic(auto, using(crate::proofs::PortLaws::poll_ended))]
    pub fn poll(&mut self) -> bool
        requires asleep { self.old.state.machine.asleep ≡ true }
        requires unmarked { self.old.state.machine.marked ≡ false }
        ensures asleep { self.new.state.machine.asleep ≡ not result }
        ensures idle { self.new.state.machine.stage ≡ Idle }
        ensures ended { self.new.state.machine.ended ≡ polled_by result }
        ensures polled { PolledOnce S.told S.tale self.old self.new }
        ensures want { self.new.state.machine.asleep ≡ true → self.new.state.machine.want ≡ self.old.state.machine.want }
        ensures unmarked { self.new.state.machine.marked ≡ false }
        ensures past { self.new.state.past ≡ self.old.state.past }
        ensures home { KeepsHome self.old.end.state self.new.end.state }
        ensures stays { Stays S.channel S.told self.old self.new }
        ensures lists { (self.new.state.got ≡ self.old.state.got) × (self.new.spare_got ≡ self.old.spare_got) × (self.new.spare_sent ≡ self.old.spare_sent) }
    {
        self.end.poll_signal()
    }

    /// Sleeps until the signal was up.
    pub fn sleep<R: Wait>(&mut self, rt: &R)
        requires asleep { self.old.state.machine.asleep ≡ true }
        requires unmarked { self.old.state.machine.marked ≡ false }
        ensures ready { IsReady self.new }
        ensures past { self.new.state.past ≡ self.old.state.past }
        ensures home { KeepsHome self.old.end.state self.new.end.state }
        ensures stays { Stays S.channel S.told self.old self.new }
        ensures lists { (self.new.state.got ≡ self.old.state.got) × (self.new.spare_got ≡ self.old.spare_got) × (self.new.spare_sent ≡ self.old.spare_sent) }
    {
        sleep(&mut self.end, rt);
    }

    /// Says that this end sends nothing more.
    pub fn mark(&mut self)
        requires ready { IsReady self.old }
        ensures past { self.new.state.past ≡ Marked ∷ self.old.state.past }
        ensures marked { self.new.state.machine.marked ≡ true }
        ensures awake { self.new.state.machine.asleep ≡ false }
        ensures once { MarkedOnce S.told S.tale self.old.end self.new.end }
        ensures first { has_marked self.old.state.past ≡ false }
        ensures found { (self.new.state.machine.room ≡ self.old.state.machine.room) × (self.new.state.machine.words ≡ self.old.state.machine.words) }
        ensures got { got_of self.new.state.past ≡ self.new.state.got }
        ensures home { KeepsHome self.old.end.state self.new.end.state }
        ensures stays { Stays S.channel S.told self.old self.new }
        ensures lists { (self.new.state.got ≡ self.old.state.got) × (self.new.spare_got ≡ self.old.spare_got) × (self.new.spare_sent ≡ self.old.spare_sent) }
    {
        self.end.mark();
    }

    /// The end that it stands over.
    pub fn into_end(self) -> End<S>
        ensures end { result ≡ self.end }
        ensures line { self ≡ line_of T.said result }
        ensures stands { IsLine S.told result }
        ensures came { CameNew S.tale result }
        ensures past { self.state.past ≡ past_as T.said result.state }
    {
        let Port { end, of: _ } = self;
        end
    }
}

// What an arm found, by its answer.
fn looked_by(found: Armed, saw: bool) -> ArmResult
    ensures { result ≡ look_of found saw }
{
    match found {
        Armed::Asleep => ArmResult::Nothing,
        Armed::Work => if saw {
            ArmResult::Mark
        } else {
            ArmResult::Work
        },
    }
}
