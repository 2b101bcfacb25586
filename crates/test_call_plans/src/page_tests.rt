//! The pages of two ends of a channel with two data pages, both the guest's: page 1 goes to the host by a request that lends 1,000 bytes of it, and back by its completion.
use page_call_plan::{
    IdSlot, PageAnswer, PageEnd, PageOwner, PageRun, PageSlot, load_done, load_plan, page_drop,
    page_make, page_ready, page_send_done, page_send_plan, page_take_done, page_take_plan,
    store_done, store_plan,
};
use std::process::Abort;

fn check(rt: &impl Abort, holds: bool) {
    assert!(rt; holds);
}

// What an end keeps of its pages, in memory of its own.
#[derive(Drop)]
struct Pages {
    end: PageEnd,
    slots: [PageSlot; 2],
    asks: [IdSlot; 2],
    owed: [IdSlot; 2],
}

impl Pages {
    fn make(rt: &impl Abort, host: bool) -> Pages {
        let slot = PageSlot {
            tid: 9,
            words: 9,
            owner: 9,
        };
        let id = IdSlot { tid: 9, count: 9 };
        let mut pages = Pages {
            end: PageEnd {
                state: 9,
                due_page: 9,
                due_words: 9,
            },
            slots: [slot; 2],
            asks: [id; 2],
            owed: [id; 2],
        };
        check(
            rt,
            page_make(
                &mut pages.end,
                &mut pages.slots,
                &mut pages.asks,
                &mut pages.owed,
                host,
            ),
        );
        pages
    }

    fn may_send(&mut self, packet: &[u64]) -> u32 {
        page_send_plan(&mut self.end, &self.slots, &self.asks, &self.owed, packet)
    }

    fn sent(&mut self, packet: &[u64]) -> u32 {
        page_send_done(
            &mut self.end,
            &mut self.slots,
            &mut self.asks,
            &mut self.owed,
            packet,
        )
    }

    fn may_take(&mut self) -> u32 {
        page_take_plan(&mut self.end, &self.slots, &self.owed)
    }

    fn took(&mut self, packet: &[u64]) -> u32 {
        page_take_done(
            &mut self.end,
            &mut self.slots,
            &mut self.asks,
            &mut self.owed,
            packet,
        )
    }

    fn may_store(&mut self, page: u32, from: u32, words: u32) -> u32 {
        let mut run = no_run();
        store_plan(&mut self.end, &self.slots, page, from, words, &mut run)
    }
}

fn no_run() -> PageRun {
    PageRun {
        page: 7,
        at: 7,
        bytes: 7,
    }
}

// A packet of type 9 with this id and one range, of 1,000 bytes from the beginning of this page on.
fn request(id: u64, page: u64) -> [u64; 5] {
    [0x0000_0005_0005_0009, id, 0x1_0000_0000, 1000, page]
}

fn completion(id: u64) -> [u64; 2] {
    [0x0000_0002_0002_000b, id]
}

#[test]
fn a_page_goes_there_and_back(rt: HostRuntime) {
    let mut guest = Pages::make(&rt, false);
    let mut host = Pages::make(&rt, true);
    check(&rt, guest.slots[1].owner == PageOwner::HAS);
    check(&rt, host.slots[1].owner == PageOwner::AWAY);
    check(&rt, page_ready(&guest.end));

    let mut run = no_run();
    check(
        &rt,
        store_plan(&mut guest.end, &guest.slots, 1, 0, 512, &mut run) == PageAnswer::PLANNED,
    );
    check(&rt, run.page == 1 && run.at == 0 && run.bytes == 4096);
    // what is planned isn't done, and no other call comes between
    check(&rt, guest.may_send(&request(5, 1)) == PageAnswer::NO_CALL);
    check(&rt, store_done(&mut guest.end) == PageAnswer::DONE);
    check(&rt, store_done(&mut guest.end) == PageAnswer::NO_CALL);

    check(&rt, guest.may_send(&request(5, 1)) == PageAnswer::PLANNED);
    check(&rt, guest.sent(&request(5, 1)) == PageAnswer::DONE);
    check(&rt, guest.sent(&request(5, 1)) == PageAnswer::NO_CALL);
    check(&rt, guest.slots[1].owner == PageOwner::LENT);
    check(&rt, guest.slots[1].tid == 5 && guest.slots[1].words == 125);
    check(&rt, guest.may_store(1, 0, 1) == PageAnswer::NOT_OWNED);
    check(&rt, guest.may_send(&request(6, 1)) == PageAnswer::NOT_OWNED);
    check(&rt, guest.may_send(&request(5, 0)) == PageAnswer::ID_OPEN);

    check(
        &rt,
        host.may_send(&completion(5)) == PageAnswer::ID_NOT_OWED,
    );
    check(&rt, host.may_take() == PageAnswer::PLANNED);
    check(&rt, host.took(&request(5, 1)) == PageAnswer::DUE);
    check(&rt, !page_ready(&host.end));
    check(&rt, host.may_take() == PageAnswer::DUE);
    check(&rt, host.may_send(&completion(5)) == PageAnswer::DUE);
    check(
        &rt,
        load_plan(&mut host.end, &host.slots, &mut run) == PageAnswer::PLANNED,
    );
    check(&rt, run.page == 1 && run.at == 0 && run.bytes == 1000);
    check(&rt, load_done(&mut host.end) == PageAnswer::DONE);
    check(&rt, load_done(&mut host.end) == PageAnswer::NO_CALL);
    check(&rt, host.may_store(1, 100, 26) == PageAnswer::OUTSIDE);
    check(&rt, host.may_store(0, 0, 1) == PageAnswer::NOT_OWNED);
    check(&rt, host.may_store(1, 100, 25) == PageAnswer::PLANNED);
    check(&rt, store_done(&mut host.end) == PageAnswer::DONE);

    check(&rt, host.may_send(&completion(5)) == PageAnswer::PLANNED);
    check(&rt, page_drop(&mut host.end) == PageAnswer::DONE);
    check(&rt, host.may_send(&completion(5)) == PageAnswer::PLANNED);
    check(&rt, host.sent(&completion(5)) == PageAnswer::DONE);
    check(&rt, host.slots[1].owner == PageOwner::AWAY);
    check(
        &rt,
        host.may_send(&completion(5)) == PageAnswer::ID_NOT_OWED,
    );

    check(&rt, guest.may_take() == PageAnswer::PLANNED);
    check(&rt, guest.took(&completion(5)) == PageAnswer::DUE);
    check(
        &rt,
        load_plan(&mut guest.end, &guest.slots, &mut run) == PageAnswer::PLANNED,
    );
    check(&rt, run.page == 1 && run.bytes == 1000);
    check(&rt, load_done(&mut guest.end) == PageAnswer::DONE);
    check(&rt, guest.slots[1].owner == PageOwner::HAS);
    check(&rt, guest.may_send(&request(5, 0)) == PageAnswer::PLANNED);
}

#[test]
fn a_peer_lends_no_page_that_it_has_not(rt: HostRuntime) {
    let mut guest = Pages::make(&rt, false);
    check(&rt, guest.may_take() == PageAnswer::PLANNED);
    // it names a page of the guest itself
    check(&rt, guest.took(&request(5, 1)) == PageAnswer::TOOK);
    check(&rt, guest.slots[1].owner == PageOwner::HAS);
    check(&rt, page_ready(&guest.end));
    // a completion of nothing brings no page, and closes no request
    check(&rt, guest.may_take() == PageAnswer::PLANNED);
    check(&rt, guest.took(&completion(8)) == PageAnswer::TOOK);
    check(&rt, guest.may_send(&request(8, 2)) == PageAnswer::PLANNED);
    check(&rt, guest.sent(&request(8, 2)) == PageAnswer::DONE);
    // a second request of the id lends nothing, so that it may go, and a third one that lends may not
    check(&rt, guest.may_send(&request(8, 0)) == PageAnswer::ID_OPEN);
    check(&rt, guest.asks[0].tid == 8 && guest.asks[0].count == 1);
}

#[test]
fn ids_have_so_much_room(rt: HostRuntime) {
    let mut guest = Pages::make(&rt, false);
    for id in 1..=2 {
        check(&rt, guest.may_send(&request(id, 9)) == PageAnswer::PLANNED);
        check(&rt, guest.sent(&request(id, 9)) == PageAnswer::DONE);
    }
    check(&rt, guest.may_send(&request(3, 9)) == PageAnswer::NO_IDS);
    // one that is open has a slot
    check(&rt, guest.may_send(&request(2, 9)) == PageAnswer::PLANNED);
    check(&rt, guest.sent(&request(2, 9)) == PageAnswer::DONE);
    check(&rt, guest.asks[1].tid == 2 && guest.asks[1].count == 2);
}
