//! The page words that an end has still to load.

/// The page words that an end has still to load.
#[derive(Clone, Copy)]
pub enum Due {
    /// None.
    Clear,
    /// The first words of a page, of which some are loaded.
    Loads {
        /// The page.
        page: u32,
        /// How many words there are.
        words: u32,
        /// How many of them are loaded.
        done: u32,
    },
}
