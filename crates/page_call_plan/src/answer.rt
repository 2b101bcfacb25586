//! What the calls on pages answer.

/// What the calls on pages answer, by number. The first three are also answers of the plans of a ring's end.
pub struct PageAnswer;

impl PageAnswer {
    /// The call doesn't fit the end's state or its numbers: nothing changed.
    pub const NO_CALL: u32 = 0;
    /// The packet is taken, and no page came with it.
    pub const TOOK: u32 = 5;
    /// The caller goes on as planned.
    pub const PLANNED: u32 = 19;
    /// Words of a page are to be loaded first.
    pub const DUE: u32 = 22;
    /// The end doesn't have the page, or has lent it.
    pub const NOT_OWNED: u32 = 23;
    /// The words go past those of the page that the end may store to.
    pub const OUTSIDE: u32 = 24;
    /// A packet that lends a page has the id of a request that isn't completed.
    pub const ID_OPEN: u32 = 25;
    /// A completion answers no request that was taken.
    pub const ID_NOT_OWED: u32 = 26;
    /// There is no room for one more id.
    pub const NO_IDS: u32 = 27;
    /// What was planned counts as done.
    pub const DONE: u32 = 28;
}
