//! Words of lines, numbers in either base, and what a line says.
ghost use Rattle.std.specs.Prelude.{◌≡◌, true};

use crate::check::check;
use line_words::{cut, hex_16, is_hex_16, is_value, number_of_hex_16, value_of, words_in};
use ring_machine::{Op, Place, Ring, Side};
use script_text::first_word;
use std::alloc::AllocGlobal;
use std::process::Abort;
use trace_lines::{Said, read_line};
use trace_model::{TraceWhat, Words};

#[test]
fn words_are_found(rt: HostRuntime) {
    check(&rt, words_in(b"a\tb").is_none());
    match words_in(b"  # a comment") {
        Some(rest) => check(&rt, rest.is_empty()),
        None => check(&rt, false),
    }
    match words_in(b"  call guest") {
        Some(rest) => match first_word(rest) {
            Some((word, _)) => check(&rt, word == b"call".as_slice()),
            None => check(&rt, false),
        },
        None => check(&rt, false),
    }
    match cut(b"ab,cd,e", b',') {
        Some((front, rest)) => {
            check(&rt, front == b"ab".as_slice() && rest == b"cd,e".as_slice())
        }
        None => check(&rt, false),
    }
}

fn value_is(rt: &impl Abort, word: &[u8], wanted: Option<u64>) {
    if is_value(word) {
        check(rt, value_of(word) == wanted);
    } else {
        check(rt, false);
    }
}

#[test]
fn values_are_read(rt: HostRuntime) {
    value_is(&rt, b"0", Some(0));
    value_is(&rt, b"0x18", Some(24));
    value_is(&rt, b"0xFFFFffffFFFFffff", Some(u64::MAX));
    value_is(&rt, b"18446744073709551616", None);
    check(&rt, !is_value(b"0x"));
    check(&rt, !is_value(b"018"));
    check(&rt, !is_value(b"0x00000000000000018"));
    let digits = hex_16(0x0123_4567_89ab_cdef);
    check(&rt, digits.as_slice() == b"0123456789abcdef".as_slice());
    check(&rt, !is_hex_16(b"0123456789abcde"));
    if is_hex_16(&digits) {
        check(&rt, number_of_hex_16(&digits) == 0x0123_4567_89ab_cdef);
    } else {
        check(&rt, false);
    }
}

#[test]
fn lines_are_read(rt: HostRuntime) {
    match read_line(
        rt.alloc(),
        1,
        None,
        true,
        b"step guest load tohost.cell.8 0x10",
    ) {
        Ok(Said::Says(Some(TraceWhat::Step(side, op, value)))) => check(
            &rt,
            side == Side::Guest && op == Op::Load(Place::Cell(Ring::ToHost, 8)) && value == 16,
        ),
        _ => check(&rt, false),
    }
    let mut words = Words::of(vec![in rt.alloc(); 1, 2].expect(&rt, "memory"));
    check(&rt, words.as_slice().len() == 2);
    words.clear();
    check(&rt, words.as_slice().is_empty());
}
