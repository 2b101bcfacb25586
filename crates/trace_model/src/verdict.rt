//! What a checker says of a trace.

/// Why a line goes on no run. The reasons come in this order.
#[derive(Clone, Copy, Debug, PartialEq, Eq)]
pub enum WrongWhy {
    /// A call comes while one of that end is under way.
    Busy = 1,
    /// The call's condition doesn't hold.
    Condition = 2,
    /// A step comes with no call of that end under way.
    Idle = 3,
    /// The step isn't the next one of the end, with its place, and the value that it stores.
    Step = 4,
    /// A load or an exchange has another value than the word has.
    Value = 5,
}

/// What a checker says of a trace.
#[derive(Clone, Copy, Debug, PartialEq, Eq)]
pub enum Verdict {
    /// All lines are a run.
    Run {
        /// The steps of both ends.
        steps: u32,
        /// The packets that the guest sent.
        guest_sent: u32,
        /// The packets that the guest got.
        guest_got: u32,
        /// The packets that the host sent.
        host_sent: u32,
        /// The packets that the host got.
        host_got: u32,
    },
    /// The lines before this one are a run, and it goes on none.
    Wrong {
        /// The line, counted from 1.
        line: u32,
        /// The first reason against it.
        why: WrongWhy,
    },
}
