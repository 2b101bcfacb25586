//! Two ends of a channel whose rings have one page each. A packet of three words, whose payload begins at word 2, goes to the host, and wakes it.
use ring_call_plan::{
    Answer, PlanEnd, SendPlan, State, TakePlan, arm_done, arm_plan, commit_done, commit_plan,
    end_make, mark_done, poll_done, send_done, send_plan, take_head, take_plan,
};
use std::process::Abort;

// The first word of a packet in band of three words, whose payload begins at word 2.
const HEAD: u64 = 0x0000_0003_0002_0006;

fn check(rt: &impl Abort, holds: bool) {
    assert!(rt; holds);
}

fn blank() -> PlanEnd {
    PlanEnd {
        cells: 0,
        write: 0,
        read: 0,
        start: 0,
        seen: 0,
        len: 0,
        want: 0,
        state: 0,
    }
}

// A new end whose rings have 512 cells.
fn new_end(rt: &impl Abort) -> PlanEnd {
    let mut end = blank();
    check(rt, end_make(&mut end, 4096));
    end
}

fn no_stores() -> SendPlan {
    SendPlan {
        at: 0,
        first: 0,
        second: 0,
        trailer_at: 0,
        trailer: 0,
        write: 0,
    }
}

fn no_loads() -> TakePlan {
    TakePlan {
        at: 0,
        first: 0,
        second: 0,
        len: 0,
        offset: 0,
    }
}

fn is_stores(p: &SendPlan, at: u32, first: u32, second: u32, trailer_at: u32, write: u32) -> bool {
    p.at == at
        && p.first == first
        && p.second == second
        && p.trailer_at == trailer_at
        && p.write == write
}

#[test]
fn sizes_are_tested(rt: HostRuntime) {
    let mut end = blank();
    check(&rt, !end_make(&mut end, 0));
    check(&rt, !end_make(&mut end, 4104));
    check(&rt, !end_make(&mut end, 134221824));
    check(&rt, end.cells == 0);
    check(&rt, end_make(&mut end, 134217728));
    check(&rt, end.cells == 16777216);
}

#[test]
fn a_packet_goes_over_and_room_comes_back(rt: HostRuntime) {
    let mut guest = new_end(&rt);
    let mut plan = no_stores();
    check(
        &rt,
        send_plan(&mut guest, HEAD, 0, &mut plan) == Answer::PLANNED,
    );
    check(&rt, is_stores(&plan, 0, 3, 0, 24, 32) && plan.trailer == 0);
    // a plan is done once, and no other call begins before that
    let mut other = 7;
    check(&rt, commit_plan(&mut guest, &mut other) == Answer::NO_CALL);
    check(&rt, other == 7);
    check(&rt, send_done(&mut guest, 0, 0) == Answer::SENT_RAISED);
    check(&rt, send_done(&mut guest, 0, 0) == Answer::NO_CALL);
    check(&rt, guest.write == 4);

    let mut host = new_end(&rt);
    let mut at = 9;
    check(&rt, take_plan(&mut host, 0, &mut at) == Answer::EMPTY);
    check(&rt, at == 9);
    check(&rt, take_plan(&mut host, 32, &mut at) == Answer::PLANNED);
    check(&rt, at == 0);
    let mut rest = no_loads();
    check(
        &rt,
        take_head(&mut host, HEAD, &mut rest) == Answer::PLANNED,
    );
    check(&rt, rest.at == 8 && rest.first == 2 && rest.second == 0);
    check(&rt, rest.len == 3 && rest.offset == 2);

    // 4,096 bytes are free now and 32 were given back, so that a peer which waits for 4,064 to 4,095 is raised
    let mut index = 0;
    check(&rt, commit_plan(&mut host, &mut index) == Answer::PLANNED);
    check(&rt, index == 32);
    check(
        &rt,
        commit_done(&mut host, 1, 4064, 32) == Answer::COMMITTED_RAISED,
    );
    check(&rt, host.start == 4 && host.state == State::IDLE);
    check(&rt, commit_plan(&mut host, &mut index) == Answer::PLANNED);
    check(
        &rt,
        commit_done(&mut host, 0, 4064, 32) == Answer::COMMITTED_QUIET,
    );
}

#[test]
fn a_packet_goes_round_the_ring(rt: HostRuntime) {
    let mut guest = new_end(&rt);
    guest.write = 510;
    let mut plan = no_stores();
    check(
        &rt,
        send_plan(&mut guest, HEAD, 4080, &mut plan) == Answer::PLANNED,
    );
    check(&rt, is_stores(&plan, 4080, 2, 1, 8, 16));
    check(&rt, plan.trailer == 4080 << 32);
    check(&rt, send_done(&mut guest, 1, 0) == Answer::SENT_QUIET);
    check(&rt, guest.write == 2);
    // with its trailer the packet needs four cells, and as many are no room
    check(
        &rt,
        send_plan(&mut guest, HEAD, 48, &mut plan) == Answer::FULL,
    );
    check(
        &rt,
        send_plan(&mut guest, HEAD, 4, &mut plan) == Answer::BAD_PEER,
    );
    check(&rt, guest.state == State::STOPPED);

    let mut host = new_end(&rt);
    host.read = 510;
    host.start = 510;
    let mut at = 0;
    check(&rt, take_plan(&mut host, 16, &mut at) == Answer::PLANNED);
    let mut rest = no_loads();
    check(
        &rt,
        take_head(&mut host, HEAD, &mut rest) == Answer::PLANNED,
    );
    check(&rt, rest.at == 4088 && rest.first == 1 && rest.second == 1);
    check(&rt, host.read == 2);
}

#[test]
fn bad_packets_stop_the_end(rt: HostRuntime) {
    let mut rest = no_loads();
    let mut at = 0;
    let mut long = new_end(&rt);
    check(&rt, take_plan(&mut long, 32, &mut at) == Answer::PLANNED);
    check(
        &rt,
        take_head(&mut long, 0x0000_0004_0002_0006, &mut rest) == Answer::BAD_LENGTH,
    );
    check(&rt, long.state == State::STOPPED);
    let mut off = new_end(&rt);
    check(&rt, take_plan(&mut off, 32, &mut at) == Answer::PLANNED);
    check(
        &rt,
        take_head(&mut off, 0x0000_0003_0004_0006, &mut rest) == Answer::BAD_OFFSET,
    );
    let mut bad = new_end(&rt);
    check(&rt, take_plan(&mut bad, 4096, &mut at) == Answer::BAD_INDEX);
}

#[test]
fn an_end_sleeps_and_wakes(rt: HostRuntime) {
    let mut host = new_end(&rt);
    check(&rt, arm_plan(&mut host, 0) == Answer::PLANNED);
    check(&rt, arm_done(&mut host, 32, 0, 0) == Answer::FOUND_WORK);
    check(&rt, arm_plan(&mut host, 0) == Answer::PLANNED);
    check(&rt, arm_done(&mut host, 0, 0, 0) == Answer::FELL_ASLEEP);
    check(&rt, poll_done(&mut host, 0) == Answer::NO_SIGNAL);
    check(&rt, poll_done(&mut host, 1) == Answer::WOKE);
    // room is 1 to 23 bytes, or a whole ring: no room to wait for
    check(&rt, arm_plan(&mut host, 23) == Answer::NO_CALL);
    check(&rt, arm_plan(&mut host, 4096) == Answer::NO_CALL);
    check(&rt, arm_plan(&mut host, 4000) == Answer::PLANNED);
    check(&rt, arm_done(&mut host, 0, 0, 0) == Answer::FOUND_WORK_ROOM);
    host.write = 500;
    check(&rt, arm_plan(&mut host, 4000) == Answer::PLANNED);
    check(&rt, arm_done(&mut host, 0, 0, 0) == Answer::FELL_ASLEEP);
    check(&rt, poll_done(&mut host, 1) == Answer::WOKE_ROOM);
    check(&rt, host.want == 0);
    check(&rt, mark_done(&mut host) == Answer::PLANNED);
    check(&rt, host.state == State::MARKED);
    check(&rt, mark_done(&mut host) == Answer::NO_CALL);
}
