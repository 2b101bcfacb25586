//! What an end keeps of its channel's pages.
use crate::due::Due;
use crate::item::Item;
use crate::owner::Owner;
use crate::page_call::PageCall;
use std::collections::LinkedList;

/// What an end keeps of its channel's pages. No value of it is made: a `LinkedList` is a list in contracts.
pub struct Kept {
    /// How many pages the channel has.
    pub count: u32,
    /// The items that the end sent, in order.
    pub sent: LinkedList<Item>,
    /// The items that it got and whose page words it has, in order.
    pub got: LinkedList<Item>,
    /// What it has to do with each page.
    pub owners: LinkedList<Owner>,
    /// Its copy of the page words, 512 a page.
    pub copy: LinkedList<u64>,
    /// What it has to load.
    pub due: Due,
    /// The call on page words that it is in.
    pub call: PageCall,
}
