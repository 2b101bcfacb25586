//! A box of one message, order, and a split box.
ghost use Rattle.std.specs.Prelude.{◌≡◌};
ghost use Rattle.vmbus_msg.specs.declared.msg.Msg.TheVariants.{RelidReleased};

use crate::check::check;
use mail_box::{MailBox, Named, Nothing};
use std::test::Fail;
use vmbus_msg::Msg;

// The relid of a released channel, which the tests tell messages by.
fn relid(m: &Msg) -> u32 {
    match m {
        Msg::RelidReleased { padding: _, relid } => *relid,
        _ => 0,
    }
}

// A message with this relid.
fn released(relid: u32) -> Msg
    ensures { result ≡ RelidReleased 0 relid }
{
    Msg::RelidReleased { padding: 0, relid }
}

#[test]
fn one_message(rt: HostRuntime) -> Result<(), Fail> {
    let mut mail = MailBox::make(rt.alloc(), 1)?;
    check(&rt, mail.take().is_none());
    check(&rt, mail.put(released(7)).is_ok());
    match mail.put(released(8)) {
        Ok(()) => check(&rt, false),
        Err(full) => check(&rt, relid(&full.m) == 8),
    }
    check(&rt, mail.take().as_ref().map(relid) == Some(7));
    check(&rt, mail.take().is_none());
    Ok(())
}

#[test]
fn in_order(rt: HostRuntime) -> Result<(), Fail> {
    let mut mail = MailBox::make(rt.alloc(), 3)?;
    for round in [0, 10, 20] {
        for i in [1, 2, 3] {
            check(&rt, mail.put(released(round + i)).is_ok());
        }
        check(&rt, mail.put(released(99)).is_err());
        for i in [1, 2, 3] {
            check(&rt, mail.take().as_ref().map(relid) == Some(round + i));
        }
    }
    Ok(())
}

// What may be put into the split box: two messages, in this order.
struct Two;

impl Named for Two {
    ghost use Rattle.std.specs.Prelude.{[], ◌∷◌};
    ghost use Rattle.vmbus_msg.specs.declared.msg.Msg.TheVariants.{RelidReleased};

    ghost named = { RelidReleased 0 7 ∷ RelidReleased 0 8 ∷ [] };

    ghost last = { RelidReleased 0 9 };
}

#[test]
fn split_box_of_one(rt: HostRuntime) -> Result<(), Fail> {
    let mail = MailBox::make(rt.alloc(), 1)?;
    let (mut post, mut fetch) = mail.split::<Two>();
    check(
        &rt,
        post.put::<Nothing, HostRuntime>(&rt, released(7)).is_ok(),
    );
    match post.put::<Nothing, HostRuntime>(&rt, released(8)) {
        Ok(()) => check(&rt, false),
        Err(full) => check(&rt, relid(&full.m) == 8),
    }
    let first = fetch.take::<Nothing, HostRuntime>(&rt);
    check(&rt, first.as_ref().map(relid) == Some(7));
    check(&rt, fetch.take::<Nothing, HostRuntime>(&rt).is_none());
    check(&rt, MailBox::unite(&rt, post, fetch) == 0);
    Ok(())
}
