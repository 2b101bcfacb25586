//! What the machine of an end knows of its channel's data pages.
ghost use Rattle.std.specs.Prelude.{◌≡◌, true};
ghost use Rattle.ring_machine.specs.PageCalls.{is_call_of, core_pages, page_op, pages_fed};

use crate::place::{Op, Place};
use page_kept::{Due, PageCall};

/// The data pages of a channel, as the machine of one end knows them.
#[derive(Clone, Copy)]
pub struct PageCore {
    /// How many pages the channel has.
    pub count: u32,
    /// The page call under way.
    pub call: PageCall,
    /// The page words that the last take left to load.
    pub due: Due,
}

impl PageCore {
    /// The pages of a new end: it is in no page call, and nothing is due.
    pub fn new(count: u32) -> PageCore
        ensures { result ≡ core_pages count }
    {
        PageCore {
            count,
            call: PageCall::Off,
            due: Due::Clear,
        }
    }

    // The step of the page call, or none exactly where none is under way.
    #[inline(always)]
    pub(crate) fn next(&self) -> Option<Op>
        ensures { result ≡ page_op self.now.call }
    {
        match self.call {
            PageCall::Off => None,
            PageCall::StoreWord { page, word, value } => Some(Op::Store(
                Place::Page(page, word),
                value,
            )),
            PageCall::LoadWords {
                page,
                words: _,
                done,
            } => Some(Op::Load(Place::Page(page, done))),
        }
    }

    // Takes that the step was made.
    #[tactic(auto, using(crate::proofs::Fitting::inside_load))]
    #[inline(always)]
    pub(crate) fn feed(&mut self)
        requires { is_call_of self.old.count self.old.call ≡ true }
        ensures { self.new ≡ pages_fed self.old }
    {
        self.call = match self.call {
            PageCall::Off => PageCall::Off,
            PageCall::StoreWord { .. } => PageCall::Off,
            PageCall::LoadWords { page, words, done } => {
                if done + 1 < words {
                    PageCall::LoadWords {
                        page,
                        words,
                        done: done + 1,
                    }
                } else {
                    PageCall::Off
                }
            }
        };
    }
}
