//! What a host sends.
ghost use Rattle.std.specs.Prelude.{◌≡◌, ◌+◌, ◌<◌, ◌≤◌, ◌++◌, ◌∷◌, [], length, vec_len, vec_capacity, OnOk, OnErr, IfErr};
ghost use Rattle.std.specs.Option.{option_to_list};
ghost use Rattle.control_model.specs.Messages.{Fits};
ghost use Rattle.control_model.specs.declared.fault.ControlFault.TheVariants.{Memory};
ghost use Rattle.host_end.specs.Feeding.{Posts, with_mail};

use crate::HostControl;
use control_model::{Burst, ControlFault, messages};
use mail_box::MailBox;
use std::alloc::AllocError;
use vmbus_msg::Msg;

impl HostControl {
    // Keeps a message that was taken, and posts what comes of it.
    pub(crate) fn send(
        &mut self,
        m: &Msg,
        burst: &Burst,
        post: &mut MailBox,
    ) -> Result<(), ControlFault>
        requires fits { Fits burst.now }
        requires room { length post.old.queue + 32 ≤ post.old.size }
        ensures posted { OnOk result (Posts self.old self.new burst.now (m.now ∷ []) post.old post.new) }
        ensures refused { IfErr result (λ fault. (fault ≡ Memory) × (self.new ≡ self.old) × (post.new ≡ post.old)) }
    {
        match self.post(Some(*m), burst, post) {
            Ok(()) => Ok(()),
            Err(_) => Err(ControlFault::Memory),
        }
    }

    // Posts messages, and keeps the one that was taken before, if one was.
    pub(crate) fn post(
        &mut self,
        fed: Option<Msg>,
        burst: &Burst,
        post: &mut MailBox,
    ) -> Result<(), AllocError>
        requires fits { Fits burst.now }
        requires room { length post.old.queue + 32 ≤ post.old.size }
        ensures posted { OnOk result (Posts self.old self.new burst.now (option_to_list fed) post.old post.new) }
        ensures refused { OnErr result ((self.new ≡ self.old) × (post.new ≡ post.old)) }
    {
        let sent = messages(self.alloc, &self.plan, burst)?;
        self.posted.reserve(sent.len())?;
        self.fed.reserve(1)?;
        if let Some(m) = fed {
            self.fed.push_reserved(m);
        }
        put_all(&mut self.posted, &sent, post);
        Ok(())
    }
}

// Puts messages behind those that were posted, and into the box.
pub(crate) fn put_all(posted: &mut Vec<Msg>, sent: &[Msg], post: &mut MailBox)
    requires reserved { vec_len posted.old + length sent.now ≤ vec_capacity posted.old }
    requires room { length post.old.queue + length sent.now ≤ post.old.size }
    ensures posted { posted.new.items ≡ posted.old.items ++ sent.now }
    ensures mail { post.new ≡ with_mail post.old sent.now }
{
    for m in sent {
        put(posted, m, post);
    }
}

// Puts a message behind those that were posted, and into the box.
pub(crate) fn put(posted: &mut Vec<Msg>, m: &Msg, post: &mut MailBox)
    requires reserved { vec_len posted.old < vec_capacity posted.old }
    requires room { length post.old.queue < post.old.size }
    ensures posted { posted.new.items ≡ posted.old.items ++ m.now ∷ [] }
    ensures len { vec_len posted.new ≡ vec_len posted.old + 1 }
    ensures capacity { vec_capacity posted.new ≡ vec_capacity posted.old }
    ensures mail { post.new ≡ with_mail post.old (m.now ∷ []) }
{
    posted.push_reserved(*m);
    let Ok(()) = post.put(*m) else { unreachable!() };
}
