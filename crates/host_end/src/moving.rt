//! Channels are moved to other processors.
ghost use Rattle.std.specs.Prelude.{◌≡◌, ◌+◌, ◌^◌, ◌<◌, ◌≤◌, length, OnSome};
ghost use Rattle.control_model.specs.Messages.{Fits};
ghost use Rattle.control_model.specs.Channels.{by_relid};
ghost use Rattle.control_model.specs.Host.{mover_in, waits_move, moved_then, moved_burst, on_modify};
ghost use Rattle.control_model.specs.Guest.{can_modify, is_answered};
ghost use Rattle.host_end.specs.Feeding.{Comes};

use crate::HostControl;
use chan_state::{Action, Event};
use contact::{Part, Version, answers_modify, has_modify};
use control_model::{Burst, ControlFault, HostWait, Opening};
use mail_box::MailBox;
use vmbus_msg::Msg;

impl HostControl {
    // MODIFYCHANNEL goes by the table of a channel's life, and is answered where the table says so, from
    // 5.3 on.
    pub(crate) fn hear_modify(
        &mut self,
        m: &Msg,
        relid: u32,
        vp: u32,
        post: &mut MailBox,
    ) -> Result<(), ControlFault>
        requires room { length post.old.queue + 32 ≤ post.old.size }
        ensures { Comes (on_modify self.old relid vp (by_relid self.old.channels relid)) self.old self.new m.now post.old post.new result }
    {
        let Some(mut life) = self.life(relid) else {
            return Err(ControlFault::Relid { value: relid });
        };
        let answered = is_answered(self.version);
        let action = match life.event(Event::ModifySeen { vp, answered }) {
            Ok(action) => action,
            Err(fault) => return Err(ControlFault::State(fault)),
        };
        let awaits = self.moved_then(relid);
        self.send(m, &moved_burst(relid, action), post)?;
        self.awaits = awaits;
        self.channels[relid as usize - 1] = life;
        Ok(())
    }

    // What it waits for once a channel was moved.
    fn moved_then(&self, relid: u32) -> HostWait
        ensures { result ≡ moved_then self.now self.now.awaits relid }
    {
        match self.awaits {
            HostWait::Modify(number) => self.move_behind(number, relid),
            other => other,
        }
    }

    // The same, where it waited for the opening with this number among those that are moved.
    fn move_behind(&self, number: usize, relid: u32) -> HostWait
        ensures { result ≡ moved_then self.now (HostWait.Modify number) relid }
    {
        match self.mover(self.part(), number) {
            Some(o) if o.relid == relid => self.wait_move(self.part(), number + 1),
            _ => HostWait::Modify(number),
        }
    }

    // It waits for the opening with this number among those that are moved, if there is one.
    pub(crate) fn wait_move(&self, part: Option<Part>, number: usize) -> HostWait
        ensures { result ≡ waits_move number (mover_in self.now part number) }
    {
        match self.mover(part, number) {
            Some(_) => HostWait::Modify(number),
            None => HostWait::Nothing,
        }
    }

    // Of the phase that starts in a part, the opening with this number among those that are moved: none
    // below 4.1.
    fn mover(&self, part: Option<Part>, number: usize) -> Option<Opening>
        ensures mover { result ≡ mover_in self.now part number }
        ensures small { OnSome result (number + 1 < 2 ^ 64) }
    {
        self.plan.mover(part, can_modify(self.version), number)
    }
}

// MODIFYCHANNEL_RESPONSE with status 0, where the table of a channel's life says so.
fn moved_burst(relid: u32, action: Action) -> Burst
    ensures burst { result ≡ moved_burst relid action }
    ensures fits { Fits result }
{
    match action {
        Action::SendModified => Burst::One(Msg::ModifyChannelResponse {
            padding: 0,
            relid,
            status: 0,
        }),
        _ => Burst::Empty,
    }
}

// Whether the version has MODIFYCHANNEL.
fn can_modify(version: Option<Version>) -> bool
    ensures { result ≡ can_modify version }
{
    match version {
        Some(v) => has_modify(v),
        None => false,
    }
}

// Whether the host answers it.
fn is_answered(version: Option<Version>) -> bool
    ensures { result ≡ is_answered version }
{
    match version {
        Some(v) => answers_modify(v),
        None => false,
    }
}
