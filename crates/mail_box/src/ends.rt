//! The two ends of a split box.
ghost use Rattle.std.specs.Prelude.{◌≡◌, [], ◌∷◌, ◌++◌, IfErr, OnOk, MatchOption};
ghost use Rattle.std.specs.Arc.{arc_value};
ghost use Rattle.crossbeam_queue.specs.Fifo.{Held};
ghost use Rattle.crossbeam_queue.specs.Passes.{view, IsPassOf, ruled_capacity};
ghost use Rattle.mail_box.specs.Letters.{posting, fetching, MaySay, Teaches};

use crate::full::MailFull;
use crate::rule::{Log, Puts, Takes, Token};
use crate::shared::Shared;
use crossbeam_queue::protocol::Lesson;
use std::marker::Model;
use std::sync::{Arc, Wait};
use vmbus_msg::Msg;

/// The end that puts messages. Contracts see all that was put, in order.
#[derive(Drop)]
pub struct PostEnd {
    pub(crate) shared: Arc<Shared>,
    pub(crate) pass: Token,
}

impl Model for PostEnd {
    ghost use Rattle.std.specs.Prelude.{◌≡◌, ◌<◌, ◌^◌};
    ghost use Rattle.std.specs.Arc.{arc_value};
    ghost use Rattle.crossbeam_queue.specs.Passes.{IsPassOf, ruled_capacity};
    ghost use Rattle.mail_box.specs.Mail.{Post};
    ghost use Rattle.mail_box.specs.Letters.{post_seen, posting, known};

    ghost Value = { Post };

    ghost view = { λ e. post_seen e.pass.table_id (ruled_capacity (arc_value e.shared).queue) (known e.pass) };

    ghost invariant = { λ e. IsPassOf (arc_value e.shared).queue e.pass × (known e.pass ≡ posting (post_seen e.pass.table_id (ruled_capacity (arc_value e.shared).queue) (known e.pass))) × (ruled_capacity (arc_value e.shared).queue < 2 ^ 32) };
}

impl PostEnd {
    /// Puts a message behind the others: the next one of the named list, or the last message.
    ///
    /// Where it comes back nothing is changed. The call looks at the queue and gives the message back
    /// where it holds `size` of them. What is promised of that is less: there is a state that the rule
    /// allows, in which the queue holds `size` messages and this end has put what it put, so at least
    /// `size` messages were put in all. The call may wait for the other thread.
    pub fn put<M: Lesson<Msg, Log>, R: Wait>(&mut self, rt: &R, m: Msg) -> Result<(), MailFull>
        requires may { MaySay self.old.named self.old.last (self.old.put ++ m ∷ []) }
        requires teaches { Teaches M.fact }
        ensures put { OnOk result (self.new ≡ record self.old { put = self.old.put ++ m ∷ [] }) }
        ensures full { IfErr result (λ e. (e.m ≡ m) × (self.new ≡ self.old) × Held self.old.size (M.fact (posting self.old))) }
    {
        match self
            .shared
            .queue
            .push_as::<Puts<M>, R>(rt, &mut self.pass, m)
        {
            Ok(()) => {
                self.shared.mail.unpark();
                Ok(())
            }
            Err(m) => Err(MailFull { m }),
        }
    }

    /// Sleeps until the other end has taken a message, or returns for no reason. It doesn't sleep where
    /// one was taken behind a look of this end that found the queue full.
    pub fn wait_for_room<R: Wait>(&self, rt: &R) {
        self.shared.room.park(rt);
    }
}

/// The end that takes messages. Contracts see all that was taken, in order.
#[derive(Drop)]
pub struct FetchEnd {
    pub(crate) shared: Arc<Shared>,
    pub(crate) pass: Token,
}

impl Model for FetchEnd {
    ghost use Rattle.std.specs.Prelude.{◌≡◌};
    ghost use Rattle.std.specs.Arc.{arc_value};
    ghost use Rattle.crossbeam_queue.specs.Passes.{IsPassOf, ruled_capacity};
    ghost use Rattle.mail_box.specs.Mail.{Fetch};
    ghost use Rattle.mail_box.specs.Letters.{fetch_seen, fetching, known};

    ghost Value = { Fetch };

    ghost view = { λ e. fetch_seen e.pass.table_id (ruled_capacity (arc_value e.shared).queue) (known e.pass) };

    ghost invariant = { λ e. IsPassOf (arc_value e.shared).queue e.pass × (known e.pass ≡ fetching (fetch_seen e.pass.table_id (ruled_capacity (arc_value e.shared).queue) (known e.pass))) };
}

impl FetchEnd {
    /// Takes the next message. What was taken is a front of the named list, or such a front and the
    /// last message.
    ///
    /// The call looks at the queue and gives none where it is empty; nothing is changed then. What is
    /// promised of that is less: there is a state that the rule allows, in which the queue is empty and
    /// this end has taken what it took. The call may wait for the other thread.
    pub fn take<M: Lesson<Msg, Log>, R: Wait>(&mut self, rt: &R) -> Option<Msg>
        requires teaches { Teaches M.fact }
        ensures { MatchOption result ((self.new ≡ self.old) × Held 0 (M.fact (fetching self.old))) (λ m. (self.new ≡ record self.old { taken = self.old.taken ++ m ∷ [] }) × MaySay self.old.named self.old.last (self.old.taken ++ m ∷ [])) }
    {
        let m = self.shared.queue.pop_as::<Takes<M>, R>(rt, &mut self.pass)?;
        self.shared.room.unpark();
        Some(m)
    }

    /// Sleeps until the other end has put a message, or returns for no reason. It doesn't sleep where
    /// one was put behind a look of this end that found the queue empty.
    pub fn wait_for_mail<R: Wait>(&self, rt: &R) {
        self.shared.mail.park(rt);
    }
}
