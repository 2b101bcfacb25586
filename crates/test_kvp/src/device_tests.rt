//! The key-value device: the requests of a script, and a request of each kind that it refuses.

use crate::check::check;
use crate::texts::{is, key, value};
use hist_lock::Machine;
use kvp_ic::{Kvp, KvpMachine, KvpReply};
use std::process::Abort;
use std::test::Fail;

// A reply with this status and these texts, where they are to be there.
fn is_reply(rt: &impl Abort, r: &KvpReply, status: u32, name: Option<&str>, text: Option<&str>) {
    check(rt, r.status == status);
    match (&r.key, name) {
        (Some(key), Some(name)) => check(rt, is(key.units(), name)),
        (None, None) => {}
        _ => check(rt, false),
    }
    match (&r.value, text) {
        (Some(value), Some(text)) => check(rt, is(value.units(), text)),
        (None, None) => {}
        _ => check(rt, false),
    }
}

#[test]
fn a_script_is_served(rt: HostRuntime) -> Result<(), Fail> {
    let mut device = KvpMachine::make(rt.alloc())?;
    let set = Kvp::Set {
        pool: 1,
        key: key(&rt, "color"),
        value: value(&rt, "blue"),
    };
    is_reply(&rt, &device.apply(&set), 0, None, None);
    let get = Kvp::Get {
        pool: 1,
        key: key(&rt, "color"),
    };
    is_reply(&rt, &device.apply(&get), 0, None, Some("blue"));
    let first = Kvp::Enum { pool: 1, index: 0 };
    let reply = device.apply(&first);
    is_reply(&rt, &reply, 0, Some("color"), Some("blue"));
    is_reply(
        &rt,
        &KvpMachine::copy(&reply),
        0,
        Some("color"),
        Some("blue"),
    );
    let second = Kvp::Enum { pool: 1, index: 1 };
    is_reply(&rt, &device.apply(&second), 0x8007_0103, None, None);
    let elsewhere = Kvp::Enum { pool: 0, index: 0 };
    is_reply(&rt, &device.apply(&elsewhere), 0x8007_0103, None, None);
    let far = Kvp::Enum {
        pool: 1,
        index: 0xffff_ffff,
    };
    is_reply(&rt, &device.apply(&far), 0x8007_0103, None, None);
    let delete = Kvp::Delete {
        pool: 1,
        key: key(&rt, "color"),
    };
    is_reply(&rt, &device.apply(&delete.again()), 0, None, None);
    is_reply(&rt, &device.apply(&delete), 0x8007_0103, None, None);
    is_reply(&rt, &device.apply(&get), 0x8007_0103, None, None);
    let nowhere = Kvp::Get {
        pool: 5,
        key: key(&rt, "color"),
    };
    is_reply(&rt, &device.apply(&nowhere), 0x8007_0057, None, None);
    Ok(())
}
