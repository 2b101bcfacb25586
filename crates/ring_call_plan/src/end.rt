//! The end that the caller keeps, the plans, and what the calls answer.
ghost use Rattle.std.specs.Prelude.{◌≡◌, ◌/◌, true, false};
ghost use Rattle.io_edge.specs.declared.side.Side.{Side};
ghost use Rattle.ring_machine.specs.Steps.{machine_new};
ghost use Rattle.ring_call_plan.specs.Numbers.{is_size, is_formed, is_at};
ghost use Rattle.ring_call_plan.specs.Shown.{Shows};

/// The most cells of a ring: 128 MB.
pub const MOST_CELLS: u32 = 16777216;

const MOST_BYTES: u32 = 134217728;

/// What the calls answer, by number: how a call ended, under the numbers of the machine's endings, or that it goes on.
pub struct Answer;

impl Answer {
    /// The call doesn't fit the end's state or its numbers: nothing changed.
    pub const NO_CALL: u32 = 0;
    /// The packet is sent, and no signal is owed.
    pub const SENT_QUIET: u32 = 1;
    /// The packet is sent: the caller raises the peer's signal.
    pub const SENT_RAISED: u32 = 2;
    /// Too little room for the packet.
    pub const FULL: u32 = 3;
    /// The peer's read index is in no form: the end is stopped.
    pub const BAD_PEER: u32 = 4;
    /// No packet.
    pub const EMPTY: u32 = 6;
    /// The peer's write index is in no form: the end is stopped.
    pub const BAD_INDEX: u32 = 7;
    /// The packet's length is in no form: the end is stopped.
    pub const BAD_LENGTH: u32 = 8;
    /// The payload's offset is in no form: the end is stopped.
    pub const BAD_OFFSET: u32 = 9;
    /// The room is given back, and no signal is owed.
    pub const COMMITTED_QUIET: u32 = 10;
    /// The room is given back: the caller raises the peer's signal.
    pub const COMMITTED_RAISED: u32 = 11;
    /// The end is asleep.
    pub const FELL_ASLEEP: u32 = 12;
    /// An arm found something: the end is awake, and the caller stores mask 1.
    pub const FOUND_WORK: u32 = 13;
    /// The signal is down: the end stays asleep.
    pub const NO_SIGNAL: u32 = 14;
    /// The signal was up: the end is awake, and the caller stores mask 1.
    pub const WOKE: u32 = 15;
    /// The caller goes on as planned.
    pub const PLANNED: u32 = 19;
    /// As `FOUND_WORK`, and the caller stores pending 0 too.
    pub const FOUND_WORK_ROOM: u32 = 20;
    /// As `WOKE`, and the caller stores pending 0 too.
    pub const WOKE_ROOM: u32 = 21;
}

/// What the end does.
pub struct State;

impl State {
    pub const IDLE: u32 = 0;

    pub const STOPPED: u32 = 1;
    /// A send is planned.
    pub const SENDING: u32 = 2;
    /// A take waits for the first cell.
    pub const TAKING: u32 = 3;
    /// A commit is planned.
    pub const GIVING: u32 = 4;
    /// An arm is planned.
    pub const ARMING: u32 = 5;

    pub const ASLEEP: u32 = 6;

    pub const MARKED: u32 = 7;
}

/// One end of a channel. Indices and lengths count cells of 8 bytes.
#[repr(C)]
#[derive(Clone, Copy)]
pub struct PlanEnd {
    /// The cells of a ring.
    pub cells: u32,
    /// The private write index of the outgoing ring.
    pub write: u32,
    /// The private read index of the incoming ring.
    pub read: u32,
    /// The read index that was last committed.
    pub start: u32,
    /// The index that the call loaded first.
    pub seen: u32,
    /// The words of the packet under way.
    pub len: u32,
    /// The room in bytes that the last arm waits for, or 0.
    pub want: u32,
    /// What the end does.
    pub state: u32,
}

/// The stores of a send: `first` words of the packet from byte `at` of the ring on, and then `second` words from its beginning on; the trailer; and the
/// write index.
#[repr(C)]
#[derive(Clone, Copy)]
pub struct SendPlan {
    pub at: u32,
    pub first: u32,
    pub second: u32,
    pub trailer_at: u32,
    pub trailer: u64,
    pub write: u32,
}

/// The loads of a take after the packet's first word: `first` words from byte `at` of the ring on, and then `second` words from its beginning on. The packet
/// has `len` words, and its payload begins at word `offset`.
#[repr(C)]
#[derive(Clone, Copy)]
pub struct TakePlan {
    pub at: u32,
    pub first: u32,
    pub second: u32,
    pub len: u32,
    pub offset: u32,
}

impl PlanEnd {
    // The numbers lie in their ranges.
    #[inline(always)]
    pub(crate) fn is_formed(&self) -> bool
        ensures { result ≡ is_formed self.now }
    {
        self.cells <= MOST_CELLS
            && self.write < self.cells
            && self.read < self.cells
            && self.start < self.cells
            && self.seen < self.cells
            && self.len < self.cells
    }

    // An end in form is in this state.
    #[inline(always)]
    pub(crate) fn is_at(&self, state: u32) -> bool
        ensures { result ≡ is_at state self.now }
    {
        self.state == state && self.is_formed()
    }
}

/// Makes a new end of a channel whose rings have `d` bytes of data, where that is a multiple of 4,096 up to 128 MB. Otherwise nothing changes.
#[inline(always)]
pub fn end_make(end: &mut PlanEnd, d: u32) -> bool
    ensures says { result ≡ is_size d }
    ensures unchanged { result ≡ false → end.new ≡ end.old }
    ensures machine { result ≡ true → (x : Side) → Shows end.new (machine_new x (d / 8)) }
{
    if d % 4096 != 0 || d < 4096 || d > MOST_BYTES {
        return false;
    }
    *end = PlanEnd {
        cells: d / 8,
        write: 0,
        read: 0,
        start: 0,
        seen: 0,
        len: 0,
        want: 0,
        state: State::IDLE,
    };
    true
}
