//! Layouts and fields on bytes written by hand.

ghost use Rattle.std.specs.Prelude.{◌≡◌};

use crate::check::check;
use std::process::Abort;
use wire_table::{Checked, Field, Layout, LayoutFault, fields};

const MARKED: Layout<3> = Layout {
    size: 24,
    fields: [
        Field { at: 0, width: 4 },
        Field { at: 4, width: 2 },
        Field { at: 22, width: 2 },
    ],
};

// Fields 1 and 2 share byte 10, fields 2 and 3 share two bytes, and field 1 ends past the size.
const OVERLAPPING: Layout<4> = Layout {
    size: 12,
    fields: [
        Field { at: 0, width: 8 },
        Field { at: 9, width: 2 },
        Field { at: 10, width: 4 },
        Field { at: 12, width: 2 },
    ],
};

// Fields that touch are apart. Fields 1 and 2 end past the size.
const LONG: Layout<3> = Layout {
    size: 11,
    fields: [
        Field { at: 0, width: 8 },
        Field { at: 8, width: 4 },
        Field { at: 12, width: 4 },
    ],
};

struct Marked {
    kind: u32,
    mark: u16,
    id: [u8; 16],
    end: u16,
    length: usize,
}

fn marked_table(rt: &impl Abort) -> Checked<3>
    ensures { result.layout ≡ MARKED }
{
    let Ok(table) = MARKED.check() else {
        panic!(rt; "refused");
    };
    table
}

fn write_marked(rt: &impl Abort, out: &mut [u8; 24], id: &[u8; 16]) {
    let table = marked_table(rt);
    fields!(put table in out: num 0 = 0x0403_0201u32, num 1 = 0x0605u16, raw 6 = id, num 2 = 0x0807u16);
}

fn read_marked(rt: &impl Abort, bytes: &[u8; 24]) -> Marked {
    let table = marked_table(rt);
    fields!(get table in bytes: Marked { kind: u32 0, mark: u16 1, id: raw 6, end: u16 2, length: is (bytes.len()) })
}

#[test]
fn a_table_reads_what_it_writes(rt: HostRuntime) {
    let mut bytes = [0xee; 24];
    write_marked(&rt, &mut bytes, &[9; 16]);
    let want = [
        1u8, 2, 3, 4, 5, 6, 9, 9, 9, 9, 9, 9, 9, 9, 9, 9, 9, 9, 9, 9, 9, 9, 7, 8,
    ];
    check(&rt, bytes == want);
    let Marked {
        kind,
        mark,
        id,
        end,
        length,
    } = read_marked(&rt, &bytes);
    check(&rt, kind == 0x0403_0201);
    check(&rt, mark == 0x0605);
    check(&rt, id == [9; 16]);
    check(&rt, end == 0x0807);
    check(&rt, length == 24);
}

#[test]
fn a_wrong_layout_is_refused(rt: HostRuntime) {
    let Err(first) = OVERLAPPING.check() else {
        panic!(rt; "accepted");
    };
    check(
        &rt,
        first
            == LayoutFault::Overlap {
                first: 1,
                second: 2,
            },
    );
    let Err(second) = LONG.check() else {
        panic!(rt; "accepted");
    };
    check(&rt, second == LayoutFault::PastEnd { field: 1 });
}
