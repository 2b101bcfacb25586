//! Pools: 256 pairs, their order, and what each call leaves.

use crate::check::check;
use crate::texts::{is, key, of, value};
use kvp_pool::{Key, Pool, PoolFull, Units, Val};
use std::process::Abort;
use std::test::Fail;

// The pair at a place has this key and this value.
fn has_at(rt: &impl Abort, pool: &Pool, index: usize, name: &str, text: &str) {
    match pool.nth(index) {
        Some(pair) => {
            check(rt, is(pair.0.units(), name));
            check(rt, is(pair.1.units(), text));
        }
        None => check(rt, false),
    }
}

#[test]
fn a_pair_is_set_read_and_deleted(rt: HostRuntime) -> Result<(), Fail> {
    let mut pool = Pool::make(rt.alloc())?;
    let color = key(&rt, "color");
    check(&rt, pool.get(&color).is_none());
    check(&rt, !pool.delete(&color));
    check(&rt, pool.set(&color, &value(&rt, "blue")) == Ok(()));
    check(&rt, pool.len() == 1);
    has_at(&rt, &pool, 0, "color", "blue");
    check(&rt, pool.set(&color, &value(&rt, "")) == Ok(()));
    check(&rt, pool.len() == 1);
    has_at(&rt, &pool, 0, "color", "");
    check(&rt, pool.nth(1).is_none());
    check(&rt, pool.delete(&color));
    check(&rt, pool.len() == 0);
    Ok(())
}

#[test]
fn keys_stand_in_order_of_their_units(rt: HostRuntime) -> Result<(), Fail> {
    let mut pool = Pool::make(rt.alloc())?;
    for name in ["b", "aa", "ab", "a"] {
        check(&rt, pool.set(&key(&rt, name), &value(&rt, name)) == Ok(()));
    }
    has_at(&rt, &pool, 0, "a", "a");
    has_at(&rt, &pool, 1, "aa", "aa");
    has_at(&rt, &pool, 2, "ab", "ab");
    has_at(&rt, &pool, 3, "b", "b");
    // The unit 0x0100 has a low byte of 0, and stands behind all characters.
    let far: Key = of(&rt, &[0x0100]);
    check(&rt, pool.set(&far, &value(&rt, "far")) == Ok(()));
    match pool.nth(4) {
        Some(pair) => check(&rt, pair.0.units() == [0x0100].as_slice()),
        None => check(&rt, false),
    }
    Ok(())
}

// A key of two units, by its number.
fn numbered(rt: &impl Abort, i: u16) -> Key {
    of(rt, &[1 + i / 16, 1 + i % 16])
}

#[test]
fn a_pool_has_256_pairs(rt: HostRuntime) -> Result<(), Fail> {
    let mut pool = Pool::make(rt.alloc())?;
    for i in 0..256u16 {
        check(
            &rt,
            pool.set(&numbered(&rt, 255 - i), &of(&rt, &[1 + i])) == Ok(()),
        );
    }
    check(&rt, pool.len() == 256);
    let more: Key = of(&rt, &[0xffff]);
    check(&rt, pool.set(&more, &value(&rt, "more")) == Err(PoolFull));
    check(&rt, pool.get(&more).is_none());
    for i in 0..256u16 {
        match pool.nth(usize::from(i)) {
            Some(pair) => {
                check(&rt, pair.0.units() == [1 + i / 16, 1 + i % 16].as_slice());
                check(&rt, pair.1.units() == [256 - i].as_slice());
            }
            None => check(&rt, false),
        }
    }
    check(&rt, pool.nth(256).is_none());
    // A key that is there takes another value in a full pool.
    check(
        &rt,
        pool.set(&numbered(&rt, 100), &value(&rt, "other")) == Ok(()),
    );
    check(&rt, pool.len() == 256);
    match pool.get(&numbered(&rt, 100)) {
        Some(text) => check(&rt, is(text.units(), "other")),
        None => check(&rt, false),
    }
    check(&rt, pool.delete(&numbered(&rt, 7)));
    check(&rt, pool.set(&more, &value(&rt, "more")) == Ok(()));
    match pool.nth(255) {
        Some(pair) => check(&rt, pair.0.units() == [0xffff].as_slice()),
        None => check(&rt, false),
    }
    Ok(())
}

#[test]
fn texts_have_bounds(rt: HostRuntime) {
    check(&rt, Units::<1, 255>::try_of(&[]).is_none());
    check(&rt, Units::<1, 255>::try_of(&[1, 0]).is_none());
    check(&rt, Units::<1, 255>::try_of(&[7; 256]).is_none());
    check(&rt, Units::<0, 1023>::try_of(&[7; 1024]).is_none());
    let longest: Key = of(&rt, &[7; 255]);
    check(&rt, longest.again().units() == [7; 255].as_slice());
    let longest: Val = of(&rt, &[0xffff; 1023]);
    check(&rt, longest.units().len() == 1023);
}
