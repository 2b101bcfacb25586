//! The first words of a page.

/// The first words of a page, that a packet lends or brings back.
#[derive(Clone, Copy)]
pub struct Loan {
    /// The page.
    pub page: u32,
    /// How many of its words.
    pub words: u32,
}
