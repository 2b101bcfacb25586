//! One end as a pure machine: it names its next step, and is fed what the step gave.
ghost use Rattle.std.specs.Prelude.{◌≡◌, ◌≢◌, ◌+◌, ◌/◌, ◌<◌, ◌≤◌, true, false, cond, Some, None};
ghost use Rattle.ring_machine.specs.Places.{IsRingSize};
ghost use Rattle.ring_machine.specs.Steps.{IsSound, machine_new, is_busy_at, is_took, next_of, fed};
ghost use Rattle.ring_machine.specs.Steps.{send_begun, take_begun, commit_begun, arm_begun, poll_begun, mark_begun, peer_mark_begun};
ghost use Rattle.ring_machine.specs.Endings.{last_of, why_of, mode_of, indices_of, want_of, IsWant, free_bytes, need_bytes, bad_by, send_answer, take_refusal, commit_answer, is_asleep, peer_mark_answer};
ghost use Rattle.ring_machine.specs.declared.machine.Stage.TheVariants.{Idle, Stopped};
ghost use Rattle.ring_machine.specs.Endings.{refused};
ghost use Rattle.page_kept.specs.declared.page_call.PageCall.TheVariants.{Off};
ghost use Rattle.ring_machine.specs.PageCalls.{PagesFit, IsQuiet, is_paging, is_under_way, next_in, core_pages, page_store_begun, owes, lent_load_begun, pages_fed};

use crate::fed::feed_machine;
use crate::last::{Armed, Bad, Indices, Last, Mode, SendRefusal, Signalled, TakeRefusal, Why};
use crate::machine::{EndMachine, Ending, Stage};
use crate::next::next_machine;
use crate::page_core::PageCore;
use crate::place::{Op, Side};
use crate::ring::used_in;
use page_kept::{Due, PageCall};

/// One end as a pure machine. The command under way names its next step, is fed what the step gave, and so on until it ends.
#[derive(Clone, Copy)]
pub struct EndCore {
    /// The end as plain data.
    pub machine: EndMachine,
    /// What it knows of its channel's data pages.
    pub pages: PageCore,
    /// Its indices and lengths lie in their ranges, and its stage and flags fit each other.
    pub ghost sound: { IsSound machine },
    /// A page call is one of the channel's, and is under way where no other command is.
    pub ghost fit: { PagesFit pages machine.stage },
}

impl EndCore {
    /// A new end of a channel whose rings have `d` bytes of data, whole pages of 4,096 up to 128 MB, and which has so many data pages, at most 128.
    #[tactic(auto, using(crate::proofs::Fitting::fit_new))]
    pub fn make(side: Side, d: u32, pages: u32) -> EndCore
        requires size { IsRingSize d }
        requires pages { pages ≤ 128 }
        ensures machine { result.machine ≡ machine_new side (d / 8) }
        ensures pages { result.pages ≡ core_pages pages }
    {
        EndCore {
            machine: EndMachine {
                cells: d / 8,
                write: 0,
                read: 0,
                start: 0,
                old: 0,
                seen: 0,
                len: 0,
                done: 0,
                value: 0,
                want: 0,
                room: 0,
                words: 0,
                side,
                stage: Stage::Idle,
                ended: Ending::Fresh,
                masked: true,
                asleep: false,
                marked: false,
                peer_marked: false,
                drained: false,
                saw: false,
            },
            pages: PageCore::new(pages),
        }
    }

    /// Begins a send of a packet of `len` words, at least 2, that fits.
    #[tactic(auto, using(crate::proofs::Fitting::fit_begun))]
    #[inline(always)]
    pub fn begin_send(&mut self, len: u32)
        requires idle { self.old.machine.stage ≡ Idle }
        requires awake { self.old.machine.asleep ≡ false }
        requires unmarked { self.old.machine.marked ≡ false }
        requires words { 2 ≤ len }
        requires fits { len + 1 < self.old.machine.cells }
        requires quiet { IsQuiet self.old.pages }
        ensures machine { self.new.machine ≡ send_begun self.old.machine len }
        ensures pages { self.new.pages ≡ self.old.pages }
    {
        self.machine.stage = Stage::SendRead;
        self.machine.len = len;
        self.machine.done = 0;
    }

    /// Begins a take.
    #[tactic(auto, using(crate::proofs::Fitting::fit_begun))]
    #[inline(always)]
    pub fn begin_take(&mut self)
        requires idle { self.old.machine.stage ≡ Idle }
        requires awake { self.old.machine.asleep ≡ false }
        requires unmarked { self.old.machine.marked ≡ false }
        requires quiet { IsQuiet self.old.pages }
        ensures machine { self.new.machine ≡ take_begun self.old.machine }
        ensures pages { self.new.pages ≡ self.old.pages }
    {
        self.machine.stage = Stage::TakeWrite;
        self.machine.len = 0;
        self.machine.done = 0;
    }

    /// Begins a commit of all packets that were taken.
    #[tactic(auto, using(crate::proofs::Fitting::fit_begun))]
    #[inline(always)]
    pub fn begin_commit(&mut self)
        requires idle { self.old.machine.stage ≡ Idle }
        requires awake { self.old.machine.asleep ≡ false }
        requires unmarked { self.old.machine.marked ≡ false }
        requires quiet { IsQuiet self.old.pages }
        ensures machine { self.new.machine ≡ commit_begun self.old.machine }
        ensures pages { self.new.pages ≡ self.old.pages }
    {
        self.machine.stage = Stage::CommitRead;
        self.machine.len = 0;
        self.machine.done = 0;
    }

    /// Begins to arm the signal of an end that has committed all that it took. `want` is the room in bytes that it waits for besides packets.
    #[tactic(auto, using(crate::proofs::Fitting::fit_begun))]
    #[inline(always)]
    pub fn begin_arm(&mut self, want: Option<u32>)
        requires idle { self.old.machine.stage ≡ Idle }
        requires awake { self.old.machine.asleep ≡ false }
        requires unmarked { self.old.machine.marked ≡ false }
        requires committed { self.old.machine.start ≡ self.old.machine.read }
        requires want { IsWant self.old.machine.cells want }
        requires quiet { IsQuiet self.old.pages }
        ensures machine { self.new.machine ≡ arm_begun self.old.machine (want_of want) }
        ensures pages { self.new.pages ≡ self.old.pages }
    {
        let want = match want {
            Some(room) => room,
            None => 0,
        };
        self.machine.stage = if want == 0 {
            Stage::ArmMask
        } else {
            Stage::ArmPending
        };
        self.machine.len = 0;
        self.machine.done = 0;
        self.machine.want = want;
        self.machine.saw = false;
    }

    /// Begins to look whether the signal was raised.
    #[tactic(auto, using(crate::proofs::Fitting::fit_begun))]
    #[inline(always)]
    pub fn begin_poll(&mut self)
        requires idle { self.old.machine.stage ≡ Idle }
        requires asleep { self.old.machine.asleep ≡ true }
        requires off { self.old.pages.call ≡ Off }
        ensures machine { self.new.machine ≡ poll_begun self.old.machine }
        ensures pages { self.new.pages ≡ self.old.pages }
    {
        self.machine.stage = Stage::PollSignal;
        self.machine.len = 0;
        self.machine.done = 0;
    }

    /// Begins to say that this end sends nothing more.
    #[tactic(auto, using(crate::proofs::Fitting::fit_begun))]
    #[inline(always)]
    pub fn begin_mark(&mut self)
        requires idle { self.old.machine.stage ≡ Idle }
        requires awake { self.old.machine.asleep ≡ false }
        requires unmarked { self.old.machine.marked ≡ false }
        requires quiet { IsQuiet self.old.pages }
        ensures machine { self.new.machine ≡ mark_begun self.old.machine }
        ensures pages { self.new.pages ≡ self.old.pages }
    {
        self.machine.stage = Stage::MarkStore;
        self.machine.len = 0;
        self.machine.done = 0;
    }

    /// Begins to look for the peer's mark.
    #[tactic(auto, using(crate::proofs::Fitting::fit_begun))]
    #[inline(always)]
    pub fn begin_peer_mark(&mut self)
        requires idle { self.old.machine.stage ≡ Idle }
        requires awake { self.old.machine.asleep ≡ false }
        requires unmarked { self.old.machine.marked ≡ false }
        requires off { self.old.pages.call ≡ Off }
        ensures machine { self.new.machine ≡ peer_mark_begun self.old.machine }
        ensures pages { self.new.pages ≡ self.old.pages }
    {
        self.machine.stage = Stage::PeerMark;
        self.machine.len = 0;
        self.machine.done = 0;
    }

    /// Begins to store a word of a page of the channel. Whether its end has the page, or holds it and the word is lent, the machine doesn't know.
    #[tactic(auto, using(crate::proofs::Fitting::fit_store))]
    #[inline(always)]
    pub fn begin_page_store(&mut self, page: u32, word: u32, v: u64)
        requires idle { self.old.machine.stage ≡ Idle }
        requires unmarked { self.old.machine.marked ≡ false }
        requires quiet { IsQuiet self.old.pages }
        requires page { page < self.old.pages.count }
        requires word { word < 512 }
        ensures machine { self.new.machine ≡ self.old.machine }
        ensures pages { self.new.pages ≡ page_store_begun self.old.pages page word v }
    {
        self.pages.call = PageCall::StoreWord {
            page,
            word,
            value: v,
        };
    }

    /// Takes that a take left the first words of a page to load.
    #[tactic(auto, using(crate::proofs::Fitting::fit_owes))]
    pub fn queue_load(&mut self, page: u32, words: u32)
        requires page { page < self.old.pages.count }
        requires words { (0 < words) × (words ≤ 512) }
        ensures machine { self.new.machine ≡ self.old.machine }
        ensures pages { self.new.pages ≡ owes self.old.pages page words }
    {
        self.pages.due = Due::Loads {
            page,
            words,
            done: 0,
        };
    }

    /// Begins to load the page words that the last take left to load. Where there are none, no command is under way then.
    #[tactic(auto, using(crate::proofs::Fitting::fit_load))]
    pub fn begin_lent_load(&mut self)
        requires idle { self.old.machine.stage ≡ Idle }
        requires off { self.old.pages.call ≡ Off }
        ensures machine { self.new.machine ≡ self.old.machine }
        ensures pages { self.new.pages ≡ lent_load_begun self.old.pages }
    {
        self.pages.call = match self.pages.due {
            Due::Clear => PageCall::Off,
            Due::Loads { page, words, done } => PageCall::LoadWords { page, words, done },
        };
        self.pages.due = Due::Clear;
    }

    /// The next step, or none exactly where no command is under way. `packet` is what is being sent, and empty otherwise.
    #[tactic(auto, using(crate::proofs::Bounds::rests_none, crate::proofs::Tables::busy_next))]
    #[inline(always)]
    pub fn next(&self, packet: &[u64]) -> Option<Op>
        ensures rings { is_busy_at self.now.machine.stage ≡ true → result ≡ next_of self.now.machine packet.now }
        ensures whole { result ≡ next_in self.now.machine self.now.pages.call packet.now }
    {
        match self.machine.stage {
            Stage::Idle => self.pages.next(),
            _ => match next_machine(&self.machine, packet) {
                Some(op) => Some(op),
                None => self.pages.next(),
            },
        }
    }

    /// Takes what the step gave: the value that it loaded or exchanged, or anything for a store.
    #[tactic(auto, using(crate::proofs::Fitting::fit_on, crate::proofs::Fitting::fit_fed, crate::proofs::Sound::fed_sound))]
    #[inline(always)]
    pub fn feed(&mut self, v: u64)
        requires busy { is_under_way self.old.machine.stage self.old.pages.call ≡ true }
        ensures next { self.new.machine ≡ fed self.old.machine v }
        ensures rings { is_busy_at self.old.machine.stage ≡ true → self.new.pages ≡ self.old.pages }
        ensures pages { is_busy_at self.old.machine.stage ≡ false → self.new.pages ≡ pages_fed self.old.pages }
    {
        match self.machine.stage {
            Stage::Idle => self.pages.feed(),
            _ => feed_machine(&mut self.machine, v),
        }
    }

    /// As `feed`, where the step is that of a page call: the rings stay as they are.
    #[tactic(auto, using(crate::proofs::Fitting::fit_on, crate::proofs::Fitting::fit_fed))]
    #[inline(always)]
    pub fn feed_page(&mut self)
        requires rests { is_busy_at self.old.machine.stage ≡ false }
        requires call { is_paging self.old.pages.call ≡ true }
        ensures machine { self.new.machine ≡ self.old.machine }
        ensures pages { self.new.pages ≡ pages_fed self.old.pages }
    {
        self.pages.feed();
    }
}

impl EndCore {
    /// Whether the end can make calls.
    pub fn mode(&self) -> Mode
        ensures { result ≡ mode_of self.now.machine }
    {
        let m = &self.machine;
        match m.stage {
            Stage::Stopped => Mode::Stopped { why: self.why() },
            Stage::PollMask => Mode::Asleep,
            Stage::PollPending => Mode::Asleep,
            _ => {
                if m.marked {
                    Mode::Marked
                } else if m.asleep {
                    Mode::Asleep
                } else {
                    Mode::Awake
                }
            }
        }
    }

    /// The private indices of the end in bytes, and the read index that it last committed.
    pub fn indices(&self) -> Indices
        ensures { result ≡ indices_of self.now.machine }
    {
        Indices {
            write: 8 * self.machine.write,
            read: 8 * self.machine.read,
            start: 8 * self.machine.start,
        }
    }

    /// How the last command ended, also while a later one is under way.
    pub fn last(&self) -> Last
        ensures { result ≡ last_of self.now.machine }
    {
        let m = &self.machine;
        match m.ended {
            Ending::Fresh => Last::Fresh,
            Ending::SentQuiet => Last::Sent(Signalled::Quiet),
            Ending::SentRaised => Last::Sent(Signalled::Raised),
            Ending::Full => Last::Full {
                free: self.free(),
                need: self.need(),
            },
            Ending::Took => Last::Took { words: m.words },
            Ending::Empty => Last::Empty { at: 8 * m.read },
            Ending::CommittedQuiet => Last::Committed(Signalled::Quiet),
            Ending::CommittedRaised => Last::Committed(Signalled::Raised),
            Ending::FellAsleep => Last::Armed(Armed::Asleep),
            Ending::FoundWork => Last::Armed(Armed::Work),
            Ending::NoSignal => Last::Polled(false),
            Ending::Woke => Last::Polled(true),
            Ending::Marked => Last::Marked,
            Ending::PeerMarkDown => Last::PeerMark(false),
            Ending::PeerMarkUp => Last::PeerMark(true),
            Ending::BadPeer => Last::Broke { why: self.why() },
            Ending::BadIndex => Last::Broke { why: self.why() },
            Ending::BadLength => Last::Broke { why: self.why() },
            Ending::BadOffset => Last::Broke { why: self.why() },
        }
    }

    // The free bytes that a send found which had too little room.
    pub(crate) fn free(&self) -> u32
        ensures { result ≡ free_bytes self.now.machine }
    {
        8 * self.machine.room
    }

    // The bytes that its packet needs, with the trailer.
    pub(crate) fn need(&self) -> u32
        ensures { result ≡ need_bytes self.now.machine }
    {
        8 * self.machine.words + 8
    }

    // What is wrong with the packet that the end refused, or with its index.
    pub(crate) fn bad(&self) -> Bad
        ensures { result ≡ bad_by self.now.machine.ended self.now.machine }
    {
        let m = &self.machine;
        match m.ended {
            Ending::BadIndex => Bad::Index { value: m.value },
            Ending::BadLength => Bad::Length {
                len8: (m.value / 65536) as u16,
                avail: 8 * used_in(m.cells, m.read, m.seen),
            },
            _ => Bad::Offset {
                offset8: (m.value % 65536) as u16,
                len8: (m.value / 65536) as u16,
            },
        }
    }

    /// What the end refused.
    pub fn why(&self) -> Why
        ensures { result ≡ why_of self.now.machine }
    {
        match self.machine.ended {
            Ending::BadPeer => Why::BadPeer {
                index: self.machine.value,
            },
            _ => Why::Malformed(self.bad()),
        }
    }

    /// A page call is under way.
    #[inline(always)]
    pub fn is_paging(&self) -> bool
        ensures { result ≡ is_paging self.now.pages.call }
    {
        match self.pages.call {
            PageCall::Off => false,
            PageCall::StoreWord { .. } => true,
            PageCall::LoadWords { .. } => true,
        }
    }

    /// A command of the rings is under way.
    #[inline(always)]
    pub fn is_busy(&self) -> bool
        ensures { result ≡ is_busy_at self.now.machine.stage }
    {
        match self.machine.stage {
            Stage::Idle => false,
            Stage::Stopped => false,
            _ => true,
        }
    }
}

impl EndCore {
    /// Whether the end refused before.
    #[inline(always)]
    pub fn is_stopped(&self) -> bool
        ensures stopped { result ≡ true → self.now.machine.stage ≡ Stopped }
        ensures not { result ≡ false → self.now.machine.stage ≢ Stopped }
    {
        match self.machine.stage {
            Stage::Stopped => true,
            _ => false,
        }
    }

    /// What a send that ended so answers: it was sent, or refused for want of room or by a read index in no form.
    #[inline(always)]
    pub fn send_answered(&self) -> Result<Signalled, SendRefusal>
        ensures { result ≡ send_answer self.now.machine.ended self.now.machine }
    {
        match self.machine.ended {
            Ending::SentQuiet => Ok(Signalled::Quiet),
            Ending::SentRaised => Ok(Signalled::Raised),
            Ending::Full => Err(SendRefusal::Full {
                free: self.free(),
                need: self.need(),
            }),
            _ => Err(SendRefusal::BadPeer {
                index: self.machine.value,
            }),
        }
    }

    /// What a take that ended so answers: it took a packet, found none, or refused what it loaded.
    #[inline(always)]
    pub fn take_answered(&self) -> Result<(), TakeRefusal>
        ensures { refused result ≡ cond (is_took self.now.machine.ended) None (Some (take_refusal self.now.machine.ended self.now.machine)) }
    {
        match self.machine.ended {
            Ending::Took => Ok(()),
            Ending::Empty => Err(TakeRefusal::Empty {
                at: 8 * self.machine.read,
            }),
            _ => Err(TakeRefusal::Malformed(self.bad())),
        }
    }

    /// What a commit that ended so answers.
    #[inline(always)]
    pub fn commit_answered(&self) -> Signalled
        ensures { result ≡ commit_answer self.now.machine.ended }
    {
        match self.machine.ended {
            Ending::CommittedRaised => Signalled::Raised,
            _ => Signalled::Quiet,
        }
    }

    /// What an arm answers: the end is asleep, or a look found something.
    #[inline(always)]
    pub fn arm_answered(&self) -> Armed
        ensures { is_asleep result ≡ self.now.machine.asleep }
    {
        if self.machine.asleep {
            Armed::Asleep
        } else {
            Armed::Work
        }
    }

    /// What a look for the peer's mark answers.
    #[inline(always)]
    pub fn peer_mark_answered(&self) -> bool
        ensures { result ≡ peer_mark_answer self.now.machine.ended }
    {
        match self.machine.ended {
            Ending::PeerMarkUp => true,
            _ => false,
        }
    }
}
