//! Runs that were worked out by hand.
use crate::output::prints;

#[test]
fn sends_fill_the_ring(rt: HostRuntime) {
    // A packet fills the ring but for a word.
    prints(
        &rt,
        b"send 510\nsend 2\n",
        b"1 sent quiet\n2 full free 8 need 24\nend steps 515\n",
    );
    // A peer makes room just before a step, and a packet wraps.
    prints(
        &rt,
        b"before 515 set out read 4088\nsend 510\nsend 3\nshow out 16\n",
        b"2 sent quiet\n3 sent quiet\n4 word 00000ff800000000\nend steps 521\n",
    );
}

#[test]
fn refusals_say_the_value(rt: HostRuntime) {
    // A length below two words.
    prints(
        &rt,
        b"set in write 96\nset in cell 0 0x0000000100020006\ntake\n",
        b"3 malformed length 1 avail 96\nend steps 2\n",
    );
    // A length past what was written.
    prints(
        &rt,
        b"set in write 96\nset in cell 0 0x0000000c00020006\ntake\n",
        b"3 malformed length 12 avail 96\nend steps 2\n",
    );
    // An index in no form stops the end.
    prints(
        &rt,
        b"set in write 4097\ntake\ntake\n",
        b"2 malformed index 4097\n3 stopped\nend steps 1\n",
    );
}

#[test]
fn a_packet_is_its_copy(rt: HostRuntime) {
    // A word that changes behind its load.
    prints(
        &rt,
        b"set in write 32\nset in cell 0 0x0000000300020006\nbefore 3 set in cell 0 0x0000000200020006\ntake\ncommit\n",
        b"4 took 0000000300020006 0000000000000000 0000000000000000\n5 committed quiet\nend steps 7\n",
    );
}

#[test]
fn parts_answer(rt: HostRuntime) {
    // A table of one id.
    prints(
        &rt,
        b"table 1\naccept\naccept\ncomplete 1\ncomplete 1\n",
        b"1 table 1\n2 id 1\n3 table full 1\n4 completed\n5 unknown 1\nend steps 0\n",
    );
    // A body of no list.
    prints(
        &rt,
        b"gpadl 090000000000000000000000101e0e000700000000000000\n",
        b"1 gpadl handle 925200\nend steps 0\n",
    );
    // A page past the guest's.
    prints(
        &rt,
        b"packet 09000500050000000000000000000000000000000100000000020000000000004000000000000000\n",
        b"1 lent none\nend steps 0\n",
    );
    // The guest's last page.
    prints(
        &rt,
        b"packet 09000500050000000000000000000000000000000100000000020000000000003f00000000000000\n",
        b"1 lent page 63 bytes 512\nend steps 0\n",
    );
}

#[test]
fn calls_say_how_they_ended(rt: HostRuntime) {
    // Nothing waits; the end arms, sleeps, and its signal is down. Asleep it neither sends, takes nor commits.
    prints(
        &rt,
        b"take\ncommit\narm\npoll\nsend 2\ntake\ncommit\narm 24\n",
        b"1 empty at 0\n2 committed quiet\n3 asleep\n4 signal 0\n5 refused\n6 refused\n7 refused\n8 refused\nend steps 8\n",
    );
    // A packet is taken, and all is committed before an arm.
    prints(
        &rt,
        b"set in write 24\nset in cell 0 0x0000000200020006\ntake\narm\ncommit\narm\nshow in 0\npoll\n",
        b"3 took 0000000200020006 0000000000000000\n4 refused\n5 committed quiet\n6 asleep\n7 word 0000000200020006\n8 signal 0\nend steps 10\n",
    );
}

#[test]
fn a_stopped_end_stays_so(rt: HostRuntime) {
    prints(
        &rt,
        b"set out read 7\nsend 2\nsend 2\ntake\ncommit\narm\npoll\n",
        b"2 bad peer 7\n3 stopped\n4 stopped\n5 refused\n6 refused\n7 refused\nend steps 1\n",
    );
}

#[test]
fn page_lists_come_in_pieces(rt: HostRuntime) {
    prints(
        &rt,
        b"gpadl 00\ngpadl 0300000000000000\nvstor 00\npacket 06000200030000000000000000000000\naccept\ncomplete 2\ntable 2\naccept\n",
        b"1 short 1 need 8\n2 other 3\n3 vstor short 1 need 64\n4 packet length 3 have 2\n5 id 1\n6 unknown 2\n7 table 2\n8 id 1\nend steps 0\n",
    );
}
