//! Recorded runs of random calls, and the same runs with one digit changed.
use crate::check::check;
use crate::random::Random;
use crate::turns::Turn;
use ring_core::Side;
use script_text::first_line;
use std::alloc::{AllocError, AllocGlobal, Global};
use std::process::Abort;
use trace_check::{TraceFault, Verdict, check as verdict_on};

// Random calls of both ends over one memory, step by step in random turns: what each end made, sent and got. Each has had room for all its steps.
fn make_turns(
    alloc: Global,
    random: &mut Random,
    turns: u32,
    guest: &mut Turn,
    host: &mut Turn,
    text: &mut Vec<u8>,
) -> Result<Verdict, AllocError> {
    // The memory is the guest's. An end arms only where its peer is free, so that they don't sleep both.
    for _ in 0..turns {
        if random.number() % 2 == 0 {
            guest.turn(alloc, random, host.is_free(), text)?;
        } else {
            host.swap(guest);
            host.turn(alloc, random, guest.is_free(), text)?;
            host.swap(guest);
        }
    }
    if guest.full() || host.full() {
        return Err(AllocError);
    }
    let (guest_steps, guest_sent, guest_got) = guest.counts();
    let (host_steps, host_sent, host_got) = host.counts();
    Ok(Verdict::Run {
        steps: guest_steps.wrapping_add(host_steps),
        guest_sent,
        guest_got,
        host_sent,
        host_got,
    })
}

// A run of random calls: its lines, and what each end made, sent and got.
fn recorded(
    alloc: Global,
    random: &mut Random,
    turns: u32,
) -> Result<(Vec<u8>, Verdict), AllocError> {
    let mut text = Vec::new(alloc);
    let mut guest = Turn::make(alloc, Side::Guest, turns)?;
    let mut host = Turn::make(alloc, Side::Host, turns)?;
    let run = make_turns(alloc, random, turns, &mut guest, &mut host, &mut text)?;
    Ok((text, run))
}

// The words that an end stored in the lines behind its call, up to its next call.
fn stored(behind: &[u8], call: &[u8], store: &[u8]) -> usize {
    let mut rest = behind;
    let mut count: usize = 0;
    while let Some((line, after)) = first_line(rest) {
        if line.starts_with(call) {
            return count;
        }
        if line.starts_with(store) {
            count = count.wrapping_add(1);
        }
        rest = after;
    }
    count
}

// Whether the first word of a packet of so many words is still one once its digit at this place is this one: flags, length, offset of the payload and type have
// four digits each. Flags and type may be any, the length is the packet's, and the offset is 2 at least and no more than the length.
fn is_head(at: usize, digit: u8, words: usize) -> bool {
    match at {
        0..=3 | 12..=15 => true,
        11 => b'2' <= digit && usize::from(digit - b'0') <= words,
        _ => false,
    }
}

// A send stores its words one by one, once it has found room: a word that it didn't store may be another one, and the first word too where it is still that of a
// packet of so many words.
fn may_send_so(words: &[u8], at: usize, digit: u8, stored: usize) -> bool {
    let word = at / 17;
    stored <= word && (word > 0 || is_head(at, digit, words.len() / 17 + 1))
}

// An arm stores the room that it waits for as its first step: before that it may be another one, of 24 bytes at least and without a zero in front.
fn may_want_so(want: &[u8], stored: usize) -> bool {
    match want {
        [a, b] => stored == 0 && (*a == b'2' && *b >= b'4' || *a > b'2'),
        _ => false,
    }
}

// What stands behind this front.
fn behind<'a>(line: &'a [u8], front: &[u8]) -> Option<&'a [u8]> {
    if line.starts_with(front) && front.len() <= line.len() {
        Some(&line[front.len()..])
    } else {
        None
    }
}

// The same, of the calls of one end.
fn may_be_of(line: &[u8], at: usize, digit: u8, after: &[u8], call: &[u8], store: &[u8]) -> bool {
    let Some(what) = behind(line, call) else {
        return false;
    };
    if let Some(words) = behind(what, b"send ") {
        let at = at.wrapping_sub(line.len().wrapping_sub(words.len()));
        return may_send_so(words, at, digit, stored(after, call, store));
    }
    match behind(what, b"arm ") {
        Some(want) => may_want_so(want, stored(after, call, store)),
        None => false,
    }
}

// Whether a run stays one with this digit at this place of a line, which lines follow. Each digit of a step's line tells which step it is, or what it answered, and
// so no other one is right. A digit of a call's line may be another one as long as no step behind it has used what it tells, and the call's condition holds.
fn may_be(line: &[u8], at: usize, digit: u8, after: &[u8]) -> bool {
    may_be_of(line, at, digit, after, b"call guest ", b"step guest store ")
        || may_be_of(line, at, digit, after, b"call host ", b"step host store ")
}

// Changes the first digit from this place on into another, and gives its place.
fn change(text: &mut Vec<u8>, from: usize, by: u8) -> Option<usize> {
    for at in from..text.len() {
        let c = text[at];
        if b'0' <= c && c <= b'9' {
            text[at] = b'0' + (c - b'0' + 1 + by % 9) % 10;
            return Some(at);
        }
    }
    None
}

// What a checker says of a run with another digit at this place, against the rule: it is that run still where the rule allows the digit, and otherwise the digit's
// own line is in no form, or it or one behind it goes on no run. Gives whether the rule allows it.
fn stands(rt: &(impl Abort + AllocGlobal), text: &[u8], at: usize, run: Verdict) -> bool {
    let mut rest = text;
    let mut number: u32 = 1;
    let mut start: usize = 0;
    while let Some((line, after)) = first_line(rest) {
        let end = text.len().wrapping_sub(after.len());
        if at < end && at < text.len() {
            let may = may_be(line, at.wrapping_sub(start), text[at], after);
            match verdict_on(rt.alloc(), text) {
                Ok(Verdict::Wrong { line, .. }) => check(rt, !may && number <= line),
                Ok(verdict) => check(rt, may && verdict == run),
                Err(TraceFault::Form { line, .. }) => check(rt, !may && line == number),
                Err(TraceFault::Memory) => check(rt, false),
            }
            return may;
        }
        number = number.wrapping_add(1);
        start = end;
        rest = after;
    }
    check(rt, false);
    false
}

fn is_run(rt: &(impl Abort + AllocGlobal), text: &[u8], run: Verdict) {
    match verdict_on(rt.alloc(), text) {
        Ok(verdict) => check(rt, verdict == run),
        Err(_) => check(rt, false),
    }
}

// 2,500 runs are runs, and each of them with one digit changed is none, or is one by the rule.
fn runs_stand(rt: &(impl Abort + AllocGlobal), seed: u64) {
    let mut random = Random::from(seed);
    let mut changed: u32 = 0;
    let mut allowed: u32 = 0;
    for i in 0..2_500 {
        // One in a hundred is long enough to fill a ring.
        let turns = if i % 100 == 0 {
            600
        } else {
            8 + (random.number() % 64) as u32
        };
        let (mut text, run) = recorded(rt.alloc(), &mut random, turns).expect(rt, "memory");
        is_run(rt, &text, run);
        let from = (random.number() % (text.len() as u64 + 1)) as usize;
        let by = (random.number() % 9) as u8;
        if let Some(at) = change(&mut text, from, by) {
            changed = changed.wrapping_add(1);
            if stands(rt, &text, at, run) {
                allowed = allowed.wrapping_add(1);
            }
        }
    }
    // A run may have no digit behind a place, and few digits may be other ones.
    check(rt, 2_450 < changed && 80 < allowed && allowed < 600);
}

#[test]
fn first_runs_stand(rt: HostRuntime) {
    runs_stand(&rt, 1);
}

#[test]
fn second_runs_stand(rt: HostRuntime) {
    runs_stand(&rt, 2);
}

#[test]
fn third_runs_stand(rt: HostRuntime) {
    runs_stand(&rt, 3);
}

#[test]
fn fourth_runs_stand(rt: HostRuntime) {
    runs_stand(&rt, 4);
}

#[test]
fn a_long_run_is_a_run(rt: HostRuntime) {
    let mut random = Random::from(7);
    let (text, run) = recorded(rt.alloc(), &mut random, 15_000).expect(&rt, "memory");
    is_run(&rt, &text, run);
    match run {
        Verdict::Run {
            steps,
            guest_sent,
            guest_got,
            host_sent,
            host_got,
        } => {
            check(&rt, 10_000 < steps && 100 < guest_sent && 100 < host_sent);
            check(&rt, 100 < guest_got && 100 < host_got);
        }
        Verdict::Wrong { .. } => check(&rt, false),
    }
}
