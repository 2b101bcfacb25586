//! The outcomes of one channel's requests.
ghost use Rattle.std.specs.Prelude.{◌≡◌, ◌+◌, ◌-◌, ◌≤◌, ◌∷◌, [], length, MatchOption};
ghost use Rattle.bus_script.specs.declared.outcome.LineResult.TheVariants.{Unserved};
ghost use Rattle.bus_plan.specs.Served.{left_in, served_line};

use bus_script::{LineResult, Reply};
use std::marker::Model;
use std::vec::IntoIter;

/// The outcomes of a channel's requests that were not taken yet, made one by one as they are taken. The served requests come first, each with its place in
/// the history, and the first of those with their replies.
#[derive(Drop)]
pub struct ChannelOutcomes {
    serials: IntoIter<u32>,
    replies: IntoIter<Reply>,
    unserved: usize,
}

impl Model for ChannelOutcomes {
    ghost use Rattle.std.specs.Prelude.{◌≡◌, List, length};
    ghost use Rattle.std.specs.Vec.Iter.{into_iter_items, into_iter_len};
    ghost use Rattle.bus_plan.specs.Served.{left_in};
    ghost use Rattle.bus_script.specs.declared.outcome.LineResult.{LineResult as OneResult};

    ghost Value = { List OneResult };

    ghost view = { λ c. left_in (into_iter_items c.serials) (into_iter_items c.replies) c.unserved };

    ghost invariant = { λ c. (into_iter_len c.serials ≡ length (into_iter_items c.serials)) × (into_iter_len c.replies ≡ length (into_iter_items c.replies)) };
}

/// The outcome of a request that was served: it is done where its reply came back.
fn served(serial: u32, reply: Option<Reply>) -> LineResult
    ensures { result ≡ served_line serial reply }
{
    match reply {
        Some(reply) => {
            return LineResult::Done { serial, reply };
        }
        None => {
            return LineResult::RescindedServed { serial };
        }
    }
}

/// The next of the outcomes of so many requests that were not served.
fn next_unserved(unserved: &mut usize) -> Option<LineResult>
    ensures { MatchOption result ((unserved.old ≡ 0) × (unserved.new ≡ 0)) (λ r. (r ≡ Unserved) × (unserved.old ≡ unserved.new + 1)) }
{
    if *unserved == 0 {
        return None;
    }
    *unserved -= 1;
    Some(LineResult::Unserved)
}

impl ChannelOutcomes {
    /// Of so many requests, of which the first were served: these are their places in the history, and these the replies that came back.
    pub fn of(asked: usize, serials: Vec<u32>, replies: Vec<Reply>) -> ChannelOutcomes
        requires { length serials.items ≤ asked }
        ensures { result ≡ left_in serials.items replies.items (asked - length serials.items) }
    {
        let unserved = asked - serials.len();
        ChannelOutcomes {
            serials: serials.into_iter(),
            replies: replies.into_iter(),
            unserved,
        }
    }

    /// Takes the next one.
    pub(crate) fn next(&mut self) -> Option<LineResult>
        ensures { MatchOption result (self.old ≡ []) (λ r. self.old ≡ r ∷ self.new) }
    {
        match self.serials.next() {
            Some(serial) => Some(served(serial, self.replies.next())),
            None => next_unserved(&mut self.unserved),
        }
    }
}
