//! A mail box whose two ends stand on two threads.
ghost use Rattle.std.specs.Prelude.{◌≡◌, ◌≤◌, [], ◌∷◌, length, vec_capacity, IfOk};
ghost use Rattle.vmbus_msg.specs.declared.msg.Msg.TheVariants.{CloseChannel, RelidReleased};

use mail_box::{FetchEnd, MailBox, Named, Nothing, PostEnd};
use std::alloc::{AllocError, Global};
use std::sync::Wait;
use std::thread::{Threads, join};
use vmbus_msg::Msg;

// Puts each of these, in order, and sleeps where the box is full.
fn put_all<R: Wait>(rt: &R, mut post: PostEnd, messages: &[Msg]) -> PostEnd
    requires named { post.named ≡ messages.now }
    requires new { post.put ≡ [] }
    ensures { result ≡ record post { put = messages.now } }
{
    let mut next = 0;
    for _ in rt.forever() {
        if next >= messages.len() {
            return post;
        }
        match post.put::<Nothing, R>(rt, messages[next]) {
            Ok(()) => next += 1,
            Err(_) => post.wait_for_room(rt),
        }
    }
    unreachable!()
}

// Takes so many, and sleeps where the box is empty.
fn take_all<R: Wait>(
    rt: &R,
    mut fetch: FetchEnd,
    mut got: Vec<Msg>,
    count: usize,
) -> (FetchEnd, Vec<Msg>)
    requires new { fetch.taken ≡ [] }
    requires empty { got.items ≡ [] }
    requires room { count ≤ vec_capacity got }
    ensures taken { result.0 ≡ record fetch { taken = result.1.items } }
    ensures count { length result.1.items ≡ count }
{
    for _ in rt.forever() {
        if got.len() >= count {
            return (fetch, got);
        }
        match fetch.take::<Nothing, R>(rt) {
            Some(message) => got.push_reserved(message),
            None => fetch.wait_for_mail(rt),
        }
    }
    unreachable!()
}

/// One thread puts the messages that `N` names, and another one takes as many: what it took. The refusal is want of memory.
pub fn carry_mail<N: Named, R: Threads + Wait + Sync>(
    rt: &R,
    alloc: Global,
    messages: &[Msg],
) -> Result<Vec<Msg>, AllocError>
    requires { N.named ≡ messages.now }
    ensures { IfOk result (λ got. got.items ≡ messages.now) }
{
    let count = messages.len();
    let got = Vec::with_capacity(alloc, count)?;
    let (post, fetch) = MailBox::make(alloc, 4)?.split::<N>();
    let (post, taken) = join(
        rt,
        move || -> PostEnd
            requires { (post.named ≡ messages.now) × (post.put ≡ []) }
            ensures { result ≡ record post { put = messages.entry.now } }
        { put_all(rt, post, messages) },
        move || -> (FetchEnd, Vec<Msg>)
            requires { (fetch.taken ≡ []) × (got.items ≡ []) × (count ≤ vec_capacity got) }
            ensures taken { result.0 ≡ record fetch { taken = result.1.items } }
            ensures count { length result.1.items ≡ count }
        { take_all(rt, fetch, got, count) },
    );
    let (fetch, got) = taken;
    let _left = MailBox::unite(rt, post, fetch);
    Ok(got)
}

/// The messages of a guest that closes a channel and gives it back, for contracts alone.
pub struct GivesBack;

impl Named for GivesBack {
    ghost use Rattle.std.specs.Prelude.{[], ◌∷◌};
    ghost use Rattle.vmbus_msg.specs.declared.msg.Msg.TheVariants.{CloseChannel, RelidReleased, Unload};

    ghost named = { CloseChannel 0 7 ∷ RelidReleased 0 7 ∷ [] };

    ghost last = { Unload 0 };
}

/// A guest closes the channel with relid 7 and gives it back: what its host takes on another thread.
pub fn give_back<R: Threads + Wait + Sync>(rt: &R, alloc: Global) -> Result<Vec<Msg>, AllocError>
    ensures { IfOk result (λ got. got.items ≡ CloseChannel 0 7 ∷ RelidReleased 0 7 ∷ []) }
{
    let (padding, relid) = (0, 7);
    let messages = [
        Msg::CloseChannel { padding, relid },
        Msg::RelidReleased { padding, relid },
    ];
    carry_mail::<GivesBack, R>(rt, alloc, &messages)
}
