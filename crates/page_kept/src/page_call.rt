//! A call of an end on page words.

/// The call on page words that an end is in.
#[derive(Clone, Copy)]
pub enum PageCall {
    /// None.
    Off,
    /// It stores a word of a page.
    StoreWord {
        /// The page.
        page: u32,
        /// Which of its 512 words.
        word: u32,
        /// What it becomes.
        value: u64,
    },
    /// It loads the first words of a page.
    LoadWords {
        /// The page.
        page: u32,
        /// How many words it loads in all.
        words: u32,
        /// How many of them are loaded.
        done: u32,
    },
}
