//! A table of two ids, and one of three.
ghost use Rattle.std.specs.Prelude.{◌≤◌};

use crate::check::check;
use std::process::Abort;
use txn_table::{TxnTable, UnknownTid};

// A table of so many ids.
fn table_of(rt: &(impl Abort + AllocGlobal), size: u32) -> TxnTable<u32>
    requires { (1 ≤ size) × (size ≤ 64) }
{
    let Ok(table) = TxnTable::make(rt.alloc(), size) else {
        panic!(rt; "no memory");
    };
    table
}

// The id of a request that is accepted.
fn accept(rt: &impl Abort, table: &mut TxnTable<u32>, req: u32) -> u64 {
    let Ok(id) = table.accept(req) else {
        panic!(rt; "no id");
    };
    id
}

// Whether a request is refused, since the table of so many ids is full.
fn is_full(table: &mut TxnTable<u32>, size: u32, req: u32) -> bool {
    match table.accept(req) {
        Ok(_) => false,
        Err(full) => full.size == size && full.req == req,
    }
}

// What comes of the end of a request.
fn complete(rt: &impl Abort, table: &mut TxnTable<u32>, tid: u64, want: Result<u32, UnknownTid>) {
    check(rt, table.complete(tid) == want);
}

#[test]
fn two_ids(rt: HostRuntime) {
    let mut table = table_of(&rt, 2);
    check(&rt, table.count() == 0);
    let a = accept(&rt, &mut table, 70);
    let b = accept(&rt, &mut table, 71);
    check(&rt, a != b);
    check(&rt, 1 <= a && a <= 2 && 1 <= b && b <= 2);
    check(&rt, is_full(&mut table, 2, 72));
    check(&rt, table.count() == 2);
    complete(&rt, &mut table, a, Ok(70));
    complete(&rt, &mut table, a, Err(UnknownTid { tid: a }));
    for tid in [0, 3, 18_446_744_073_709_551_615] {
        complete(&rt, &mut table, tid, Err(UnknownTid { tid }));
    }
    check(&rt, table.count() == 1);
}

// The requests that a table gives back all at once, behind 9.
fn rescinded(rt: &(impl Abort + AllocGlobal), table: &mut TxnTable<u32>) -> Vec<u32> {
    let Ok(mut out) = Vec::with_capacity(rt.alloc(), 4) else {
        panic!(rt; "no memory");
    };
    out.push_reserved(9);
    check(rt, out.len() + table.count() as usize <= out.capacity());
    table.rescind_all(&mut out);
    out
}

#[test]
fn all_at_once(rt: HostRuntime) {
    let mut table = table_of(&rt, 3);
    for req in [70, 71, 72] {
        check(&rt, accept(&rt, &mut table, req) > 0);
    }
    complete(&rt, &mut table, 2, Ok(71));
    let out = rescinded(&rt, &mut table);
    check(&rt, out.as_slice() == [9, 70, 72].as_slice());
    check(&rt, table.count() == 0);
}
