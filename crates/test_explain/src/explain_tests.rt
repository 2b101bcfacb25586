//! What is said of scripts, each with its first wrong line.
use script_explain::explain;
use std::process::Abort;

/// Stops the test unless this is said of a script, and it is refused or isn't.
fn says(rt: &(impl Abort + AllocGlobal), script: &[u8], refused: bool, text: &[u8]) {
    let said = explain(rt.alloc(), script).expect(rt, "memory");
    let same = said.refused == refused && said.text.as_slice() == text;
    assert!(rt; same);
}

#[test]
fn a_script_has_no_wrong_line(rt: HostRuntime) {
    says(
        &rt,
        b"offer hb h\nbeat h 41\n",
        false,
        b"no line is wrong\n",
    );
    says(&rt, b"", false, b"no line is wrong\n");
}

#[test]
fn a_number_is_out_of_range(rt: HostRuntime) {
    says(
        &rt,
        b"offer disk d0 64 0\r\n# a comment\r\nread d0 1  70\r\n",
        true,
        b"script line 3: Range\n    read d0 1  70\n               ^^\n    read NAME LBA COUNT: LBA is 0 to 18446744073709551615, COUNT 0 to 8\n",
    );
    says(
        &rt,
        b"offer disk d0 64 0\nbad d0 64\n",
        true,
        b"script line 2: Range\n    bad d0 64\n           ^^\n    bad NAME LBA: LBA is below the disk's number of blocks\n",
    );
}

#[test]
fn a_word_is_missing(rt: HostRuntime) {
    says(
        &rt,
        b"offer disk d0 64",
        true,
        b"script line 1: Form\n    offer disk d0 64\n                    ^\n    offer disk NAME BLOCKS SUBS: BLOCKS is 1 to 1099511627776, SUBS 0 to 3\n",
    );
}

#[test]
fn a_name_is_unknown(rt: HostRuntime) {
    says(
        &rt,
        b"offer hb a\ncapacity16 a\n",
        true,
        b"script line 2: UnknownName\n    capacity16 a\n               ^\n    capacity16 NAME\n",
    );
}

#[test]
fn a_setting_comes_late(rt: HostRuntime) {
    says(
        &rt,
        b"offer hb a\nbeat a 1\n  ring a 2\n",
        true,
        b"script line 3: Order\n      ring a 2\n      ^^^^\n    ring NAME PAGES: PAGES is 1 to 16\n",
    );
}

#[test]
fn a_name_is_offered_twice(rt: HostRuntime) {
    says(
        &rt,
        b"offer hb a\noffer shutdown b\noffer shutdown a\n",
        true,
        b"script line 3: Repeat\n    offer shutdown a\n                   ^\n    said in line 1 already\n",
    );
}

#[test]
fn no_row_begins_so(rt: HostRuntime) {
    says(
        &rt,
        b"beet hb 41\n",
        true,
        b"script line 1: Form\n    beet hb 41\n    ^^^^\n",
    );
}

#[test]
fn a_line_of_pairs_is_wrong(rt: HostRuntime) {
    says(
        &rt,
        b"offer kvp k\nkvp k set 5 color blue\n",
        true,
        b"script line 2: Range\n    kvp k set 5 color blue\n              ^\n    kvp NAME set POOL KEY VALUE: POOL is 0 to 4, KEY 1 to 255 characters, VALUE 1 to 1023\n",
    );
    says(
        &rt,
        b"offer kvp k\nkvp k enum 0 4294967296\n",
        true,
        b"script line 2: Range\n    kvp k enum 0 4294967296\n                 ^^^^^^^^^^\n    kvp NAME enum POOL INDEX: POOL is 0 to 4, INDEX 0 to 4294967295\n",
    );
    says(
        &rt,
        b"offer kvp k\nkvp k get 0\n",
        true,
        b"script line 2: Form\n    kvp k get 0\n               ^\n    kvp NAME get POOL KEY: POOL is 0 to 4, KEY 1 to 255 characters\n",
    );
    says(
        &rt,
        b"offer kvp k\nkvp k put 0 a\n",
        true,
        b"script line 2: Form\n    kvp k put 0 a\n          ^^^\n    kvp NAME set POOL KEY VALUE, kvp NAME get POOL KEY, kvp NAME del POOL KEY or kvp NAME enum POOL INDEX\n",
    );
    says(
        &rt,
        b"offer hb k\nkvp k del 0 a\n",
        true,
        b"script line 2: UnknownName\n    kvp k del 0 a\n        ^\n    kvp NAME del POOL KEY: POOL is 0 to 4, KEY 1 to 255 characters\n",
    );
}

// A count of up to 8 blocks is none that is out of its range.
#[test]
fn the_place_is_out_of_range(rt: HostRuntime) {
    says(
        &rt,
        b"offer disk d0 64 0\nread d0 18446744073709551616 8\n",
        true,
        b"script line 2: Range\n    read d0 18446744073709551616 8\n            ^^^^^^^^^^^^^^^^^^^^\n    read NAME LBA COUNT: LBA is 0 to 18446744073709551615, COUNT 0 to 8\n",
    );
}
