//! Inputs that are refused, each with its first wrong line and the first reason.
use crate::output::{prints, refused};
use script_text::Why6;

#[test]
fn lines_have_a_form(rt: HostRuntime) {
    refused(&rt, b"set out signal 1", 1, Why6::Form);
    refused(&rt, b"set up read 0", 1, Why6::Form);
    refused(&rt, b"before 3 take", 1, Why6::Form);
    refused(&rt, b"arm 24 24", 1, Why6::Form);
    refused(&rt, b"set in read 007", 1, Why6::Form);
    refused(&rt, b"set in read 0x", 1, Why6::Form);
    refused(&rt, b"gpadl", 1, Why6::Form);
    refused(&rt, b"gpadl 0", 1, Why6::Form);
}

#[test]
fn values_have_a_range(rt: HostRuntime) {
    refused(&rt, b"ring 0", 1, Why6::Range);
    refused(&rt, b"ring 17", 1, Why6::Range);
    refused(&rt, b"set in read 18446744073709551616", 1, Why6::Range);
    refused(&rt, b"set in cell 4 0", 1, Why6::Range);
    refused(&rt, b"set in cell 4096 0", 1, Why6::Range);
    refused(&rt, b"before 0 set in read 0", 1, Why6::Range);
    refused(&rt, b"before 1000001 set in read 0", 1, Why6::Range);
    refused(&rt, b"send 1", 1, Why6::Range);
    refused(&rt, b"send 511", 1, Why6::Range);
    refused(&rt, b"arm 23", 1, Why6::Range);
    refused(&rt, b"arm 4096", 1, Why6::Range);
    refused(&rt, b"table 65", 1, Why6::Range);
    refused(&rt, b"packet 0000000000000000", 1, Why6::Range);
}

#[test]
fn lines_have_an_order(rt: HostRuntime) {
    refused(&rt, b"take\nset in read 0", 2, Why6::Order);
    refused(
        &rt,
        b"take\nbefore 3 set in read 18446744073709551616",
        2,
        Why6::Order,
    );
    refused(&rt, b"ring 1\nring 2", 2, Why6::Order);
    // Comments and empty lines are no lines with words.
    prints(
        &rt,
        b"# a ring\n\nring 2\nsend 511\n",
        b"4 sent quiet\nend steps 515\n",
    );
    prints(&rt, b"", b"end steps 0\n");
}
