//! The loops that store and load the words of a page, one step a word.
ghost use Rattle.std.specs.Prelude.{◌≡◌, ℕ, ◌<◌, ◌≤◌, length, false, IfSome};
ghost use Rattle.page_kept.specs.Keepers.{MayStore};
ghost use Rattle.page_kept.specs.Layouts.{layout};
ghost use Rattle.page_kept.specs.declared.due.Due.TheVariants.{Loads};
ghost use Rattle.page_table.specs.Table.{IsPart};
ghost use Rattle.ring_core.specs.Pages.{Paged, kept_of, part_len, part_words};
ghost use Rattle.ring_core.specs.PageWords.{Rests, StoresWords, LoadsWords};

use crate::driver::page_step;
use crate::seat::Seatlike;
use page_table::{Loan, PageTable};
use ring_machine::EndCore;

/// The words of this part of a page, or none.
pub fn words_in(table: &PageTable, part: Option<Loan>) -> &[u64]
    requires { IfSome part (λ a. IsPart table.now.owners a) }
    ensures words { result.now ≡ part_words table.now.copy part }
    ensures len { length result.now ≡ part_len part }
{
    match part {
        Some(part) => table.words(part),
        None => &[],
    }
}

/// Stores words into a page, from its first word on, and into the table's copy of it. Each step leaves the machine as it was.
pub fn store_words<S: Seatlike>(
    seat: &mut S,
    core: &EndCore,
    table: &mut PageTable,
    page: u32,
    words: &[u64],
)
    requires rests { Rests S.cells S.pages S.told seat.old core.now table.old }
    requires few { length words.now ≤ 512 }
    requires unmarked { core.now.machine.marked ≡ false }
    requires may { (sent got : Paged) (w : ℕ) → w < length words.now → MayStore (layout core.now.pages.count) core.now.machine.side (kept_of core.now.pages sent got table.old) page w }
    ensures stores { StoresWords S.told S.tale seat.old seat.new core.now table.old table.new page words.now }
    ensures same { S.same seat.old seat.new }
    ensures cells { S.cells seat.new ≡ core.now.machine.cells }
{
    table.lends_in_bounds();
    if words.is_empty() {
        return;
    }
    // The steps are made by a copy of the machine, which stays in registers.
    let mut fast = *core;
    for word in 0..words.len() as u32 {
        fast.begin_page_store(page, word, words[word as usize]);
        page_step(seat, &mut fast);
    }
    table.set_words(page, words);
}

/// Loads the words of a page that are due into the table's copy of it.
pub fn load_words<S: Seatlike>(
    seat: &mut S,
    core: &mut EndCore,
    table: &mut PageTable,
    page: u32,
    words: u32,
)
    requires rests { Rests S.cells S.pages S.told seat.old core.old table.old }
    requires due { core.old.pages.due ≡ Loads page words 0 }
    ensures loads { LoadsWords S.told S.tale seat.old seat.new core.old core.new table.old table.new page words }
    ensures same { S.same seat.old seat.new }
    ensures cells { S.cells seat.new ≡ core.old.machine.cells }
{
    let mut fast = *core;
    fast.begin_lent_load();
    for word in 0..words {
        let v = page_step(seat, &mut fast);
        table.set_word(page, word, v);
    }
    *core = fast;
}
