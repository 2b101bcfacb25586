//! A channel is opened, and the sub-channels of its device are offered.
ghost use Rattle.std.specs.Prelude.{◌≡◌, ◌+◌, ◌≤◌, ◌++◌, length, replicate, vec_len, vec_capacity, OnOk, OnErr};
ghost use Rattle.control_model.specs.Messages.{Fits};
ghost use Rattle.control_model.specs.Channels.{by_relid};
ghost use Rattle.control_model.specs.Host.{on_open, opened_then, with_offers, opened_burst, subs_offered, opened_subs, offered_life};
ghost use Rattle.host_end.specs.Feeding.{Comes, Opens};

use crate::HostControl;
use crate::answers::opened;
use crate::posting::put_all;
use chan_state::{Action, ChanState, Event};
use control_model::{Buffer, Burst, ControlFault, HostWait, messages};
use io_edge::Side;
use mail_box::MailBox;
use std::alloc::AllocError;
use vmbus_msg::Msg;

impl HostControl {
    // OPENCHANNEL goes by the table of a channel's life, and is answered where the table says so.
    pub(crate) fn hear_open(
        &mut self,
        m: &Msg,
        relid: u32,
        openid: u32,
        post: &mut MailBox,
    ) -> Result<(), ControlFault>
        requires room { length post.old.queue + 32 ≤ post.old.size }
        ensures { Comes (on_open self.old relid openid (by_relid self.old.channels relid)) self.old self.new m.now post.old post.new result }
    {
        let Some(mut life) = self.life(relid) else {
            return Err(ControlFault::Relid { value: relid });
        };
        let action = match life.event(Event::OpenSeen) {
            Ok(action) => action,
            Err(fault) => return Err(ControlFault::State(fault)),
        };
        let burst = self.opened_burst(relid, openid, action);
        match self.open(m, relid, life, action, &burst, post) {
            Ok(()) => Ok(()),
            Err(_) => Err(ControlFault::Memory),
        }
    }

    // The same, for a channel that stands so then: behind a device's first channel its sub-channels are
    // offered. All room is made first.
    fn open(
        &mut self,
        m: &Msg,
        relid: u32,
        life: ChanState,
        action: Action,
        burst: &Burst,
        post: &mut MailBox,
    ) -> Result<(), AllocError>
        requires named { 1 ≤ relid }
        requires known { relid ≤ length self.old.channels }
        requires fits { Fits burst.now }
        requires room { length post.old.queue + 32 ≤ post.old.size }
        ensures opened { OnOk result (Opens self.old self.new m.now relid life action burst.now post.old post.new) }
        ensures refused { OnErr result ((self.new ≡ self.old) × (post.new ≡ post.old)) }
    {
        let awaits = self.opened_then(relid);
        let subs = self.opened_subs(relid, action);
        let sent = messages(self.alloc, &self.plan, burst)?;
        self.posted.reserve(sent.len())?;
        self.fed.reserve(1)?;
        self.channels.reserve(subs)?;
        self.fed.push_reserved(*m);
        put_all(&mut self.posted, &sent, post);
        self.awaits = awaits;
        self.channels[relid as usize - 1] = life;
        add_offered(&mut self.channels, subs);
        Ok(())
    }

    // What it waits for once a channel was opened: the page list of its receive buffer, where it has
    // buffers, and the next opening otherwise.
    fn opened_then(&self, relid: u32) -> HostWait
        ensures { result ≡ opened_then self.now self.now.awaits relid }
    {
        match self.awaits {
            HostWait::Open(place) => match self.plan.opening(self.part(), place) {
                Some(o) if o.relid == relid && o.buffers => HostWait::Fill(place, Buffer::Receive),
                Some(o) if o.relid == relid => self.waits_list(self.part(), place + 1),
                _ => HostWait::Open(place),
            },
            other => other,
        }
    }

    // OPENCHANNEL_RESULT, where the table of a channel's life says so.
    fn opened_burst(&self, relid: u32, openid: u32, action: Action) -> Burst
        ensures burst { result ≡ opened_burst self.now relid openid action }
        ensures fits { Fits result }
    {
        match action {
            Action::SendResult => self.with_offers(relid, opened(relid, openid)),
            _ => Burst::Empty,
        }
    }

    // An answer, and behind it the offers of the sub-channels of the device whose first channel was
    // waited for.
    fn with_offers(&self, relid: u32, answer: Msg) -> Burst
        ensures burst { result ≡ with_offers self.now self.now.awaits relid answer }
        ensures fits { Fits result }
    {
        match self.awaits {
            HostWait::Open(place) => {
                if self.is_of(relid, place) {
                    Burst::Opens(answer, self.part, place)
                } else {
                    Burst::One(answer)
                }
            }
            _ => Burst::One(answer),
        }
    }

    // How many sub-channels are offered then.
    fn opened_subs(&self, relid: u32, action: Action) -> usize
        ensures { result ≡ length (opened_subs self.now relid action) }
    {
        match action {
            Action::SendResult => self.subs_offered(relid),
            _ => 0,
        }
    }

    // The same, where the channel is open.
    fn subs_offered(&self, relid: u32) -> usize
        ensures { result ≡ length (subs_offered self.now self.now.awaits relid) }
    {
        match self.awaits {
            HostWait::Open(place) => {
                if self.is_of(relid, place) {
                    self.plan.subs_behind(self.part, place).len()
                } else {
                    0
                }
            }
            _ => 0,
        }
    }
}

// Adds so many channels, as they are offered.
fn add_offered(channels: &mut Vec<ChanState>, count: usize)
    requires { vec_len channels.old + count ≤ vec_capacity channels.old }
    ensures { channels.new.items ≡ channels.old.items ++ replicate count offered_life }
{
    for _ in 0..count {
        channels.push_reserved(ChanState::make(Side::Host));
    }
}
