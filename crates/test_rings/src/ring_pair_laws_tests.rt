//! Both ends over one memory, by turns.
ghost use Rattle.std.specs.Prelude.{◌≡◌, ℕ, ◌+◌, ◌<◌, ◌≤◌, List, Result, false, length};
ghost use Rattle.page_kept.specs.declared.due.Due.TheVariants.{Clear};
ghost use Rattle.ring_machine.specs.declared.machine.Stage.TheVariants.{Idle};
ghost use Rattle.ring_machine.specs.States.{IsPacket};
ghost use Rattle.ring_machine.specs.declared.last.TakeRefusal.{TakeRefusal as Refusal};
ghost use Rattle.ring_machine.specs.Endings.{refused};
ghost use Rattle.ring_pair_laws.specs.Calls.{SendSays, CommitSays, TakeSays};

use crate::check::check;
use crate::ends::solo_end;
use crate::packet::packet;
use ring_core::{
    End, Room, SendRefusal, Side, Signalled, SoloMem, TakeRefusal, may_send, may_take,
};

// The room of each list.
const ROOM: Room = Room {
    packets: 8,
    words: 4096,
};

// A send, which says what the laws of a pair take of it.
fn send(e: &mut End<SoloMem>, p: &[u64]) -> Result<Signalled, SendRefusal>
    requires awake { (e.old.state.machine.asleep ≡ false) × (e.old.state.machine.marked ≡ false) }
    requires bare { e.old.state.pages.count ≡ 0 }
    requires packet { IsPacket p.now × (length p.now + 1 < e.old.state.machine.cells) }
    requires room { (0 < e.old.spare_sent.packets) × (length p.now ≤ e.old.spare_sent.words) }
    ensures { SendSays e.old e.new p.now result }
{
    e.send(p)
}

// A commit, which says what the laws of a pair take of it.
fn commit(e: &mut End<SoloMem>) -> Signalled
    requires ready { (e.old.state.machine.stage ≡ Idle) × (e.old.state.machine.asleep ≡ false) × (e.old.state.machine.marked ≡ false) }
    requires clear { e.old.state.pages.due ≡ Clear }
    ensures { CommitSays e.old e.new result }
{
    e.commit()
}

// A take, and whether it gave these words. It says what the laws of a pair take of it.
fn take(e: &mut End<SoloMem>, want: &[u64]) -> Result<bool, TakeRefusal>
    requires awake { (e.old.state.machine.asleep ≡ false) × (e.old.state.machine.marked ≡ false) }
    requires room { (0 < e.old.spare_got.packets) × (e.old.state.machine.cells ≤ e.old.spare_got.words) }
    requires clear { e.old.state.pages.due ≡ Clear }
    ensures { (r : Result (List ℕ) Refusal) × (refused r ≡ refused result) × TakeSays e.old e.new r }
{
    match e.take() {
        Ok(taken) => Ok(taken.words() == want),
        Err(refusal) => Err(refusal),
    }
}

// Whether a send may be made, and answers so.
fn sends(e: &mut End<SoloMem>, p: &[u64], want: Result<Signalled, SendRefusal>) -> bool {
    if !may_send(e, p) {
        return false;
    }
    send(e, p) == want
}

// Whether a take may be made, and answers so.
fn takes(e: &mut End<SoloMem>, p: &[u64], want: Result<bool, TakeRefusal>) -> bool {
    if !may_take(e) {
        return false;
    }
    take(e, p) == want
}

// Whether a commit may be made, and raises nothing.
fn commits(e: &mut End<SoloMem>) -> bool {
    e.is_ready() && !e.is_due() && commit(e) == Signalled::Quiet
}

// Whether the channel's memory can go from one end to the other, and does.
fn hands(from: &mut End<SoloMem>, to: &mut End<SoloMem>) -> bool {
    if from.cells() != to.cells() || from.pages() != to.pages() {
        return false;
    }
    from.swap_memory(to);
    true
}

// A packet one way: it is sent, taken, and given back, and no other one waits at this offset.
fn passes(from: &mut End<SoloMem>, to: &mut End<SoloMem>, p: &[u64], at: u32) -> bool {
    let sent = sends(from, p, Ok(Signalled::Quiet));
    let handed = hands(from, to);
    let taken = takes(to, p, Ok(true));
    let given_back = commits(to);
    let empty = takes(to, p, Err(TakeRefusal::Empty { at }));
    sent && handed && taken && given_back && empty
}

// The second long packet goes on at the first cell.
fn goes_round(g: &mut End<SoloMem>, h: &mut End<SoloMem>, long: &[u64], short: &[u64]) -> bool {
    let first = passes(g, h, long, 4088);
    let second = passes(h, g, short, 32);
    let third = passes(g, h, long, 4080);
    let fourth = passes(h, g, long, 24);
    first && second && third && fourth
}

// There is no room for the short packet behind the long one, also once that is taken, before it is given back.
fn stays_full(g: &mut End<SoloMem>, h: &mut End<SoloMem>, long: &[u64], short: &[u64]) -> bool {
    let full = Err(SendRefusal::Full { free: 8, need: 24 });
    let sent = sends(g, long, Ok(Signalled::Quiet));
    let second = sends(g, short, full);
    let handed = hands(g, h);
    let taken = takes(h, long, Ok(true));
    let back = hands(h, g);
    let third = sends(g, short, full);
    sent && second && handed && taken && back && third
}

// Whether an end sent two packets and got two, the last of which was this one.
fn ends(e: End<SoloMem>, last: &[u64]) -> bool {
    let (memory, sent, got) = e.into_parts();
    drop(memory);
    sent.len() == 2 && got.len() == 2 && got.get(1) == Some(last)
}

#[test]
fn packets_come_as_they_went(rt: HostRuntime) {
    let mut g = solo_end(&rt, Side::Guest, ROOM);
    let mut h = solo_end(&rt, Side::Host, ROOM);
    let long = packet(&rt, 510, 7);
    let short = packet(&rt, 3, 9);
    let round = goes_round(&mut g, &mut h, long.as_slice(), short.as_slice());
    let guest = ends(g, long.as_slice());
    let host = ends(h, long.as_slice());
    check(&rt, round && guest && host);
}

#[test]
fn a_full_ring_refuses_until_a_commit(rt: HostRuntime) {
    let mut g = solo_end(&rt, Side::Guest, ROOM);
    let mut h = solo_end(&rt, Side::Host, ROOM);
    let long = packet(&rt, 510, 7);
    let short = packet(&rt, 2, 9);
    let full = stays_full(&mut g, &mut h, long.as_slice(), short.as_slice());
    let to_host = hands(&mut g, &mut h);
    let given_back = commits(&mut h);
    let to_guest = hands(&mut h, &mut g);
    let passed = passes(&mut g, &mut h, short.as_slice(), 16);
    check(&rt, full && to_host && given_back && to_guest && passed);
    drop(g);
    drop(h);
}
