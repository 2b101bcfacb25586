//! Lines that move a device's interrupts to another virtual processor.
use crate::call::{check_answers, check_refusals};
use bus_script::Why6;

// Scripts, and their reports: the host answers from version 5.3 on, says nothing at 4.1 to 5.2, and no message is sent below.
const MOVES: &[(&[u8], &[u8])] = &[
    (
        b"contact 5.3 5.3\noffer hb hb\nmodify hb 3\nbeat hb 41\n",
        b"1 version 5.3 tried 5.3\n3 modified 3\n4 done @0 seq 42\nend requests 1 done 1 rescinded 0\n",
    ),
    (
        b"contact 5.3 4.0\noffer hb hb\nmodify hb 3\nbeat hb 41\n",
        b"1 version 4.0 tried 5.3 5.2 5.1 5.0 4.1 4.0\n3 modify unsupported\n4 done @0 seq 42\nend requests 1 done 1 rescinded 0\n",
    ),
    (
        b"offer hb hb\nmodify hb 3\nbeat hb 41\n",
        b"2 modified 3 unanswered\n3 done @0 seq 42\nend requests 1 done 1 rescinded 0\n",
    ),
    (
        b"contact 4.1 5.3\noffer hb hb\nmodify hb 0\n",
        b"1 version 4.1 tried 4.1\n3 modified 0 unanswered\nend requests 0 done 0 rescinded 0\n",
    ),
    (
        b"contact 5.3 5.3\noffer disk d 64 2\noffer net n 020000000001 020000000002\noffer hb h\nready d\nmodify h 63\nmodify d 7\nmodify n 1\nbeat h 1\n",
        b"1 version 5.3 tried 5.3\n5 done @0 good\n6 modified 63\n7 modified 7\n8 modified 1\n9 done @0 seq 2\nend requests 2 done 2 rescinded 0\n",
    ),
    (
        b"contact 5.3 5.3\noffer hb a\noffer disk b 64 0\nmodify a 1\nclose a\nmodify b 2\nready b\nrescind b after 1\nphase\nmodify a 3\nmodify b 4\nphase\nbeat a 1\nmodify a 5\n",
        b"1 version 5.3 tried 5.3\n4 modified 1\n6 modified 2\n7 done @0 good\n10 closed\n11 gone\n13 closed\n14 closed\nend requests 2 done 1 rescinded 0\n",
    ),
    (
        b"contact 5.3 5.3\noffer hb a\nmodify a 1\nphase\nbeat a 1\nphase\nmodify a 2\nbeat a 2\n",
        b"1 version 5.3 tried 5.3\n3 modified 1\n5 done @0 seq 2\n7 modified 2\n8 done @1 seq 3\nend requests 2 done 2 rescinded 0\n",
    ),
];

#[test]
fn devices_are_moved(rt: HostRuntime) {
    check_answers(&rt, b"run", MOVES);
}

// Scripts that are refused, with their first wrong line and the reason.
const WRONG: &[(&[u8], u32, Why6)] = &[
    (b"offer hb a\nmodify a 64\n", 2, Why6::Range),
    (b"offer hb a\nmodify a 01\n", 2, Why6::Form),
    (b"offer hb a\nmodify a\n", 2, Why6::Form),
    (b"offer hb a\nmodify b 1\n", 2, Why6::UnknownName),
    (b"offer hb a\nmodify a 1\nmodify a 2\n", 3, Why6::Repeat),
    (b"offer hb a\nmodify a 1\noffer hb b\n", 3, Why6::Order),
];

#[test]
fn wrong_moves_are_refused(rt: HostRuntime) {
    check_refusals(&rt, b"run", WRONG);
}
