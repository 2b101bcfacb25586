//! The text of what a call comes to.
ghost use Rattle.std.specs.Prelude.{◌≡◌, ◌≤◌, ◌+◌, ◌*◌, ◌++◌, cond, OnOk, codes, vec_len, length};
ghost use Rattle.std.specs.Result.{is_ok};
ghost use Rattle.line_words.specs.Values.{hex_16};
ghost use Rattle.std.specs.Fmt.{decimal};
ghost use Rattle.hostile_honest_end.specs.Text.{bad_text, words_text, sent_text, took_text, committed_text, armed_text, polled_text};

use line_words::hex_16;
use ring_machine::{Armed, Bad, SendRefusal, Signalled, TakeRefusal};
use script_text::push_decimal;
use std::alloc::AllocError;

/// Puts these bytes behind the text.
pub(crate) fn push(text: &mut Vec<u8>, bytes: &[u8]) -> Result<(), AllocError>
    ensures text { OnOk result (text.new.items ≡ text.old.items ++ bytes.now) }
    ensures short { OnOk result (vec_len text.new ≤ vec_len text.old + length bytes.now) }
{
    text.extend_from_slice(bytes)?;
    Ok(())
}

// A text before a number.
fn push_named(text: &mut Vec<u8>, name: &[u8], number: u32) -> Result<(), AllocError>
    ensures text { OnOk result (text.new.items ≡ text.old.items ++ (name.now ++ decimal number)) }
    ensures short { OnOk result (vec_len text.new ≤ vec_len text.old + length name.now + 20) }
{
    text.extend_from_slice(name)?;
    push_decimal(text, u64::from(number))
}

fn push_bad(text: &mut Vec<u8>, bad: Bad) -> Result<(), AllocError>
    ensures text { OnOk result (text.new.items ≡ text.old.items ++ bad_text bad) }
    ensures short { OnOk result (vec_len text.new ≤ vec_len text.old + 80) }
{
    match bad {
        Bad::Index { value } => push_named(text, b"malformed index ", value),
        Bad::Length { len8, avail } => {
            push_named(text, b"malformed length ", u32::from(len8))?;
            push_named(text, b" avail ", avail)
        }
        Bad::Offset { offset8, len8 } => {
            push_named(text, b"malformed offset ", u32::from(offset8))?;
            push_named(text, b" length ", u32::from(len8))
        }
    }
}

/// What a send came to: it was sent, with or without a raise of the peer's signal; the ring had too little room; or the peer's index is in no form.
pub(crate) fn push_sent(
    text: &mut Vec<u8>,
    answer: Result<Signalled, SendRefusal>,
) -> Result<(), AllocError>
    ensures text { OnOk result (text.new.items ≡ text.old.items ++ sent_text answer) }
    ensures short { OnOk result (vec_len text.new ≤ vec_len text.old + 80) }
{
    match answer {
        Ok(Signalled::Raised) => push(text, b"sent raised"),
        Ok(Signalled::Quiet) => push(text, b"sent quiet"),
        Err(SendRefusal::Full { free, need }) => {
            push_named(text, b"full free ", free)?;
            push_named(text, b" need ", need)
        }
        Err(SendRefusal::BadPeer { index }) => push_named(text, b"bad peer ", index),
        Err(SendRefusal::Stopped { .. }) => push(text, b"stopped"),
    }
}

fn push_word(text: &mut Vec<u8>, word: u64) -> Result<(), AllocError>
    ensures text { OnOk result (text.new.items ≡ text.old.items ++ (codes " " ++ hex_16 word)) }
    ensures short { OnOk result (vec_len text.new ≤ vec_len text.old + 17) }
{
    text.extend_from_slice(b" ")?;
    text.extend_from_slice(&hex_16(word))?;
    Ok(())
}

// The words of a packet that was taken.
fn push_words(text: &mut Vec<u8>, words: &[u64]) -> Result<(), AllocError>
    ensures text { OnOk result (text.new.items ≡ text.old.items ++ words_text words.now) }
    ensures short { OnOk result (vec_len text.new ≤ vec_len text.old + 17 * length words.now) }
{
    let mut rest = words;
    while let [word, after @ ..] = rest {
        push_word(text, *word)?;
        rest = after;
    }
    Ok(())
}

/// What a take came to: a packet, whose words are these; none; or what stood there is no packet, or the index is in no form.
pub(crate) fn push_took(
    text: &mut Vec<u8>,
    answer: Result<(), TakeRefusal>,
    words: &[u64],
) -> Result<(), AllocError>
    ensures text { OnOk result (text.new.items ≡ text.old.items ++ took_text answer words.now) }
    ensures short { OnOk result (vec_len text.new ≤ vec_len text.old + (80 + cond (is_ok answer) (17 * length words.now) 0)) }
{
    match answer {
        Ok(()) => {
            push(text, b"took")?;
            push_words(text, words)
        }
        Err(TakeRefusal::Empty { at }) => push_named(text, b"empty at ", at),
        Err(TakeRefusal::Malformed(bad)) => push_bad(text, bad),
        Err(TakeRefusal::Stopped { .. }) => push(text, b"stopped"),
    }
}

/// Whether a commit raised the peer's signal.
pub(crate) fn push_committed(text: &mut Vec<u8>, answer: Signalled) -> Result<(), AllocError>
    ensures text { OnOk result (text.new.items ≡ text.old.items ++ committed_text answer) }
    ensures short { OnOk result (vec_len text.new ≤ vec_len text.old + 80) }
{
    match answer {
        Signalled::Raised => push(text, b"committed raised"),
        Signalled::Quiet => push(text, b"committed quiet"),
    }
}

/// Whether an arm found work.
pub(crate) fn push_armed(text: &mut Vec<u8>, answer: Armed) -> Result<(), AllocError>
    ensures text { OnOk result (text.new.items ≡ text.old.items ++ armed_text answer) }
    ensures short { OnOk result (vec_len text.new ≤ vec_len text.old + 80) }
{
    match answer {
        Armed::Asleep => push(text, b"asleep"),
        Armed::Work => push(text, b"work"),
    }
}

/// Whether the signal was up.
pub(crate) fn push_polled(text: &mut Vec<u8>, answer: bool) -> Result<(), AllocError>
    ensures text { OnOk result (text.new.items ≡ text.old.items ++ polled_text answer) }
    ensures short { OnOk result (vec_len text.new ≤ vec_len text.old + 80) }
{
    if answer {
        push(text, b"signal 1")
    } else {
        push(text, b"signal 0")
    }
}
