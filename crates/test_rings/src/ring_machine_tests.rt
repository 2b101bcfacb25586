//! What the pure machine of an end decides and tells, beside answers that were worked out by hand.
use crate::check::check;
use ring_machine::{EndCore, Indices, Mode, Side, raise_on_commit, raise_on_write};

fn raises(pending: u32) -> bool {
    raise_on_commit(4096, 4000, 0, 96, pending)
}

#[test]
fn decisions_of_the_signal(rt: HostRuntime) {
    check(&rt, raise_on_write(96, 0, 96));
    check(&rt, !raise_on_write(96, 1, 96));
    check(&rt, !raise_on_write(96, 0, 0));
    check(
        &rt,
        !raises(0) && !raises(95) && raises(96) && raises(191) && !raises(192),
    );
}

// Whether an end can make calls, and these are its indices in bytes.
fn is_awake_at(core: &EndCore, write: u32, read: u32, start: u32) -> bool {
    core.mode() == Mode::Awake && core.indices() == Indices { write, read, start }
}

// Feeds an end what a step gave, where it has one, with nothing to send.
fn is_fed(core: &mut EndCore, v: u64) -> bool {
    if core.next(&[]).is_none() {
        return false;
    }
    core.feed(v);
    true
}

// An end tells at each moment whether it can make calls, and where its indices stand: a packet of three words moves the read index by 32 bytes, a commit the
// other one.
#[test]
fn an_end_tells_its_mode_and_indices(rt: HostRuntime) {
    let mut core = EndCore::make(Side::Host, 4096, 0);
    check(&rt, is_awake_at(&core, 0, 0, 0));
    core.begin_take();
    let taken = is_fed(&mut core, 32) && is_fed(&mut core, 0x3_0002_0006);
    check(&rt, taken && is_fed(&mut core, 7) && is_fed(&mut core, 8));
    check(
        &rt,
        core.next(&[]).is_none() && is_awake_at(&core, 0, 32, 0),
    );
}

// An end is at a page from the moment that a call of one begins until its last step was fed: a store of a word makes one step.
#[test]
fn an_end_tells_that_it_is_at_a_page(rt: HostRuntime) {
    let mut core = EndCore::make(Side::Host, 4096, 1);
    let before = core.is_paging();
    core.begin_page_store(0, 511, 7);
    let within = core.is_paging();
    let fed = is_fed(&mut core, 0);
    check(&rt, !before && within && fed && !core.is_paging());
}
