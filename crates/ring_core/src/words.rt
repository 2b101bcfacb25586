//! Words in memory, and one step on them.
ghost use Rattle.std.specs.Prelude.{◌≡◌, ℕ, length, slice_set, slice_index};
ghost use Rattle.ring_core.specs.Told.{written, answer_in};

use ring_machine::{Op, mark_index, place_index, signal_index};

// Changes a word. Past the end nothing is changed.
#[inline(always)]
pub(crate) fn put_at(words: &mut Vec<u64>, i: usize, v: u64)
    ensures items { words.new.items ≡ slice_set words.old.items i v }
    ensures len { length words.new.items ≡ length words.old.items }
{
    if i < words.len() {
        words[i] = v;
    }
}

// A word, or 0 past the end.
#[inline(always)]
pub(crate) fn look_at(words: &Vec<u64>, i: usize) -> u64
    ensures { result ≡ slice_index words.now.items i }
{
    match words.get(i) {
        Some(v) => *v,
        None => 0,
    }
}

/// Makes a step on the words of a channel whose rings have `cells` cells, and gives its answer.
#[inline(always)]
pub(crate) fn act(words: &mut Vec<u64>, cells: u32, op: Op) -> u64
    ensures words { words.new.items ≡ written cells op words.old.items }
    ensures len { length words.new.items ≡ length words.old.items }
    ensures answer { result ≡ answer_in cells op words.old.items }
{
    match op {
        Op::Load(place) => look_at(words, place_index(cells, place)),
        Op::Store(place, v) => {
            put_at(words, place_index(cells, place), v);
            0
        }
        Op::Raise(side) => {
            put_at(words, signal_index(cells, side), 1);
            0
        }
        Op::TakeSignal(side) => {
            let at = signal_index(cells, side);
            let v = look_at(words, at);
            put_at(words, at, 0);
            v
        }
        Op::StoreMark(side) => {
            put_at(words, mark_index(cells, side), 1);
            0
        }
    }
}
