//! A box of control messages: first in, first out.
ghost use Rattle.std.specs.Prelude.{◌≡◌, List, ◌<◌, ◌≤◌, [], ◌∷◌, ◌++◌, length, IfOk, IfErr, OnOk, MatchOption};
ghost use Rattle.vmbus_msg.specs.declared.msg.Msg.{Msg};
ghost use Rattle.mail_box.specs.Mail.{Closes};

use crate::closed::ClosedQueue;
use crate::ends::{FetchEnd, PostEnd};
use crate::full::MailFull;
use crate::rule::{Named, Queue, Roles, Token};
use crate::shared::Shared;
use std::alloc::{AllocError, Global};
use std::collections::VecDeque;
use std::marker::Model;
use std::sync::{Arc, Wait};
use vmbus_msg::Msg;

/// Control messages that one side has sent and the other has not taken yet.
///
/// As the message slots of a SynIC (Linux's `struct hv_message_page`, include/asm-generic/
/// hyperv-tlfs.h), but with a size of its own. Only `make` takes memory.
#[derive(Drop)]
pub struct MailBox {
    size: u32,
    mail: VecDeque<Msg>,
    // The queue of a split box has two owners from the start, so that splitting takes no memory.
    post: Arc<Shared>,
    fetch: Arc<Shared>,
    pass: Token,
}

impl Model for MailBox {
    ghost use Rattle.std.specs.Prelude.{◌≡◌, ◌≤◌, length, true, []};
    ghost use Rattle.std.specs.Arc.{arc_value};
    ghost use Rattle.std.specs.VecDeque.{deque_capacity};
    ghost use Rattle.crossbeam_queue.specs.Passes.{IsPassOf, ruled_capacity};
    ghost use Rattle.mail_box.specs.Mail.{Mail};
    ghost use Rattle.mail_box.specs.Letters.{log, no_last, known};

    ghost Value = { Mail };

    ghost view = { λ b. record { size = b.size; queue = b.mail.items } };

    ghost invariant = { λ b. (length b.mail.items ≤ b.size) × (b.size ≤ deque_capacity b.mail) × (ruled_capacity (arc_value b.post).queue ≡ b.size) × IsPassOf (arc_value b.post).queue b.pass × (arc_value b.fetch ≡ arc_value b.post) × (known b.pass ≡ log true true [] no_last [] []) };
}

impl MailBox {
    /// An empty box for at most `size` messages, 1 to 64.
    pub fn make(alloc: Global, size: u32) -> Result<MailBox, AllocError>
        requires { (1 ≤ size) × (size ≤ 64) }
        ensures { IfOk result (λ b. b ≡ record { size = size; queue = [] }) }
    {
        let mail = VecDeque::with_capacity(alloc, size as usize)?;
        let (queue, pass) = Queue::ruled(alloc, size as usize)?;
        let post = Arc::new(alloc, Shared::over(queue))?;
        let fetch = Arc::try_clone(&post)?;
        Ok(MailBox {
            size,
            mail,
            post,
            fetch,
            pass,
        })
    }

    /// Puts a message behind the others.
    ///
    /// It refuses exactly where `size` messages are in the box, and then nothing is changed.
    pub fn put(&mut self, m: Msg) -> Result<(), MailFull>
        ensures put { OnOk result ((length self.old.queue < self.old.size) × (self.new ≡ record { size = self.old.size; queue = self.old.queue ++ m ∷ [] })) }
        ensures full { IfErr result (λ e. (length self.old.queue ≡ self.old.size) × (self.new ≡ self.old) × (e.m ≡ m)) }
    {
        if self.mail.len() == self.size as usize {
            return Err(MailFull { m });
        }
        self.mail.push_back_reserved(m);
        Ok(())
    }

    /// Takes the first message: none exactly where the box is empty.
    pub fn take(&mut self) -> Option<Msg>
        ensures queue { MatchOption result ((self.old.queue ≡ []) × (self.new.queue ≡ [])) (λ m. self.old.queue ≡ m ∷ self.new.queue) }
        ensures size { self.new.size ≡ self.old.size }
    {
        self.mail.pop_front()
    }

    /// Two ends, for a thread each, over a queue that `make` has made. The box is empty. The caller
    /// names the messages that may be put, in order, and one that may end them early.
    pub fn split<N: Named>(self) -> (PostEnd, FetchEnd)
        requires empty { self.queue ≡ [] }
        ensures post { result.0 ≡ record { queue = result.0.queue; size = self.size; named = N.named; last = N.last; put = [] } }
        ensures fetch { result.1 ≡ record { queue = result.0.queue; size = self.size; named = N.named; last = N.last; taken = [] } }
    {
        let MailBox {
            size: _,
            mail: _,
            post,
            fetch,
            mut pass,
        } = self;
        let other = post.queue.another::<Roles<N>>(&mut pass);
        (
            PostEnd { shared: post, pass },
            FetchEnd {
                shared: fetch,
                pass: other,
            },
        )
    }

    /// Ends both ends of one queue, and answers how many messages were put and not taken. What was
    /// taken is a front of what was put, which is longer by that number. The call may wait for another
    /// thread.
    pub fn unite<R: Wait>(rt: &R, post: PostEnd, fetch: FetchEnd) -> u32
        requires one { post.queue ≡ fetch.queue }
        ensures { (rest : List Msg) × (post.put ≡ fetch.taken ++ rest) × (length rest ≡ result) }
    {
        MailBox::close(rt, post, fetch).left()
    }

    /// Ends both ends of one queue, and tells what passed through it: all that was put, all that was
    /// taken, and how many messages were put and not taken. The call may wait for another thread.
    pub fn close<R: Wait>(rt: &R, post: PostEnd, fetch: FetchEnd) -> ClosedQueue
        requires one { post.queue ≡ fetch.queue }
        ensures { Closes post fetch result }
    {
        ClosedQueue::of(rt, post, fetch)
    }
}
