//! A queue whose ends are no more.
ghost use Rattle.std.specs.Prelude.{◌≡◌};
ghost use Rattle.mail_box.specs.Mail.{Closes};

use crate::ends::{FetchEnd, PostEnd};
use crate::rule::{Both, Rest, Token};
use std::marker::Model;
use std::sync::Wait;

/// What passed through a queue whose two ends were ended together, which alone makes one. Contracts
/// see which queue it was, all that was put and all that was taken.
#[derive(Drop)]
pub struct ClosedQueue {
    // Both ends' pass, in one.
    pass: Token,
    left: u32,
}

impl Model for ClosedQueue {
    ghost use Rattle.std.specs.Prelude.{◌≡◌, true};
    ghost use Rattle.mail_box.specs.Mail.{Closed};
    ghost use Rattle.mail_box.specs.Letters.{known};

    ghost Value = { Closed };

    ghost view = { λ q. record { queue = q.pass.table_id; put = (known q.pass).put; taken = (known q.pass).taken; left = q.left } };

    ghost invariant = { λ q. ((known q.pass).posts ≡ true) × ((known q.pass).fetches ≡ true) };
}

impl ClosedQueue {
    // Ends both ends of one queue.
    pub(crate) fn of<R: Wait>(rt: &R, post: PostEnd, fetch: FetchEnd) -> ClosedQueue
        requires one { post.queue ≡ fetch.queue }
        ensures { Closes post fetch result }
    {
        let PostEnd { shared, mut pass } = post;
        let FetchEnd {
            shared: _,
            pass: other,
        } = fetch;
        shared.queue.absorb::<Both>(&mut pass, other);
        let left = shared.queue.len_as::<Rest, R>(rt, &mut pass) as u32;
        ClosedQueue { pass, left }
    }

    /// How many messages were put and not taken.
    pub fn left(&self) -> u32
        ensures { result ≡ self.now.left }
    {
        self.left
    }
}
