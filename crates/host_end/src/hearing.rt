//! What a host does about each message.
ghost use Rattle.std.specs.Prelude.{◌≡◌, ◌+◌, ◌≤◌, length, map, IfOk, Some, None, Ok};
ghost use Rattle.control_model.specs.Channels.{by_relid, row_of};
ghost use Rattle.chan_state.specs.declared.event.Event.TheVariants.{TeardownSeen};
ghost use Rattle.control_model.specs.Plan.{opening_in};
ghost use Rattle.control_model.specs.Host.{on_contact, on_request, on_close, on_teardown, empties_one, emptied_then, teardown_by, on_release, on_unload, waits_list, is_of, closed_then, offered_life};
ghost use Rattle.host_end.specs.Feeding.{Comes};

use crate::HostControl;
use crate::answers::{and_rescind, is_rescinded, respond, torn_answer, torndown};
use crate::ending::{end_list, put_rescinded};
use crate::lists::{let_go, tear_list};
use chan_state::{ChanState, Event};
use contact::{Kind, Part, Version, host_accepts};
use control_model::{Buffer, Burst, ControlFault, HostWait, buffer_list};
use gpadl::GpadlFault;
use io_edge::Side;
use mail_box::MailBox;
use std::alloc::{AllocError, Global};
use vmbus_msg::Msg;

impl HostControl {
    // It waits for the page list of the opening at a place, if there is one, or, where its channel is
    // that of a service, for the guest to ask for it; behind the last one for the first channel that is
    // moved.
    pub(crate) fn waits_list(&self, part: Option<Part>, place: usize) -> HostWait
        ensures { result ≡ waits_list self.now part place (opening_in self.now.plan part place) }
    {
        match self.plan.opening(part, place) {
            Some(o) if o.dialed.is_some() => HostWait::Connect(place),
            Some(_) => HostWait::List(place),
            None => self.wait_move(part, 0),
        }
    }

    // Whether the opening at a place of the part under way is of this channel.
    pub(crate) fn is_of(&self, relid: u32, place: usize) -> bool
        ensures { result ≡ is_of relid (opening_in self.now.plan self.now.part place) }
    {
        match self.plan.opening(self.part(), place) {
            Some(o) => o.relid == relid,
            None => false,
        }
    }

    // INITIATE_CONTACT is answered by 1 where this side has the version, and by 0 otherwise.
    pub(crate) fn hear_contact(
        &mut self,
        m: &Msg,
        asked: Version,
        post: &mut MailBox,
    ) -> Result<(), ControlFault>
        requires room { length post.old.queue + 32 ≤ post.old.size }
        ensures { Comes (Ok (on_contact self.old self.old.awaits asked.0)) self.old self.new m.now post.old post.new result }
    {
        match self.awaits {
            HostWait::Contact => {
                if host_accepts(self.plan.host(), asked) {
                    self.send(m, &Burst::One(respond(1)), post)?;
                    self.awaits = HostWait::Request;
                    self.version = Some(asked);
                    Ok(())
                } else {
                    self.send(m, &Burst::One(respond(0)), post)
                }
            }
            _ => self.send(m, &Burst::Empty, post),
        }
    }

    // REQUESTOFFERS is answered by an offer for each device.
    pub(crate) fn hear_request(&mut self, m: &Msg, post: &mut MailBox) -> Result<(), ControlFault>
        requires room { length post.old.queue + 32 ≤ post.old.size }
        ensures { Comes (Ok (on_request self.old self.old.awaits)) self.old self.new m.now post.old post.new result }
    {
        match self.awaits {
            HostWait::Request => {
                let Ok(channels) = offered(self.alloc, self.plan.kinds()) else {
                    return Err(ControlFault::Memory);
                };
                self.send(m, &Burst::Offers, post)?;
                self.awaits = HostWait::Nothing;
                self.channels = channels;
                Ok(())
            }
            _ => self.send(m, &Burst::Empty, post),
        }
    }

    // CLOSECHANNEL goes by the table, and isn't answered.
    pub(crate) fn hear_close(
        &mut self,
        m: &Msg,
        relid: u32,
        post: &mut MailBox,
    ) -> Result<(), ControlFault>
        requires room { length post.old.queue + 32 ≤ post.old.size }
        ensures { Comes (on_close self.old relid (by_relid self.old.channels relid)) self.old self.new m.now post.old post.new result }
    {
        let Some(mut life) = self.life(relid) else {
            return Err(ControlFault::Relid { value: relid });
        };
        match life.event(Event::CloseSeen) {
            Ok(_) => {}
            Err(fault) => return Err(ControlFault::State(fault)),
        }
        let awaits = self.closed_then(relid);
        self.send(m, &Burst::Empty, post)?;
        self.awaits = awaits;
        self.channels[relid as usize - 1] = life;
        Ok(())
    }

    // What it waits for once a channel was closed.
    fn closed_then(&self, relid: u32) -> HostWait
        ensures { result ≡ closed_then self.now self.now.awaits relid }
    {
        match self.awaits {
            HostWait::Close(place) => {
                if self.is_of(relid, place) {
                    HostWait::Teardown(place)
                } else {
                    HostWait::Close(place)
                }
            }
            other => other,
        }
    }

    // GPADL_TEARDOWN names a live list, unless its channel is rescinded; it goes by the table, and is
    // answered where the table says so. The list isn't live any more then. That of a buffer is answered
    // by itself, and no channel goes on.
    pub(crate) fn hear_teardown(
        &mut self,
        m: &Msg,
        relid: u32,
        gpadl: u32,
        post: &mut MailBox,
    ) -> Result<(), ControlFault>
        requires room { length post.old.queue + 32 ≤ post.old.size }
        ensures { Comes (on_teardown self.old relid gpadl (by_relid self.old.channels relid)) self.old self.new m.now post.old post.new result }
    {
        let Some(life) = self.life(relid) else {
            return Err(ControlFault::Relid { value: relid });
        };
        if is_rescinded(life) {
            return self.tear_down(m, relid, gpadl, life, post);
        }
        if self.lists.is_live(gpadl) {
            if self.plan.is_buffer(self.part, relid, gpadl) {
                return self.empty(m, relid, gpadl, post);
            }
            return self.tear_down(m, relid, gpadl, life, post);
        }
        Err(ControlFault::Gpadl(GpadlFault::Handle { id: gpadl }))
    }

    // The page list of a buffer is let go, and that is answered.
    fn empty(
        &mut self,
        m: &Msg,
        relid: u32,
        gpadl: u32,
        post: &mut MailBox,
    ) -> Result<(), ControlFault>
        requires room { length post.old.queue + 32 ≤ post.old.size }
        ensures { Comes (Ok (empties_one self.old relid gpadl)) self.old self.new m.now post.old post.new result }
    {
        let awaits = self.emptied_then(relid, gpadl);
        self.send(m, &Burst::One(torndown(gpadl)), post)?;
        let_go(&mut self.lists, gpadl);
        self.awaits = awaits;
        Ok(())
    }

    // What it waits for once the page list of a buffer was torn down: that of the receive buffer is torn
    // down behind that of the send buffer, and behind both the channel closed.
    fn emptied_then(&self, relid: u32, gpadl: u32) -> HostWait
        ensures { result ≡ emptied_then self.now self.now.awaits relid gpadl }
    {
        match self.awaits {
            HostWait::Empty(place, buffer) => match self.plan.opening(self.part(), place) {
                Some(o) if o.relid == relid && buffer_list(&o, buffer) == gpadl => match buffer {
                    Buffer::Send => HostWait::Empty(place, Buffer::Receive),
                    Buffer::Receive => HostWait::Close(place),
                },
                _ => HostWait::Empty(place, buffer),
            },
            other => other,
        }
    }

    // The same, for a channel that stands so, where the list may be torn down.
    fn tear_down(
        &mut self,
        m: &Msg,
        relid: u32,
        gpadl: u32,
        life: ChanState,
        post: &mut MailBox,
    ) -> Result<(), ControlFault>
        requires channel { by_relid self.old.channels relid ≡ Some life }
        requires room { length post.old.queue + 32 ≤ post.old.size }
        ensures { Comes (teardown_by self.old relid gpadl life (row_of life TeardownSeen)) self.old self.new m.now post.old post.new result }
    {
        let mut now = life;
        let action = match now.event(Event::TeardownSeen) {
            Ok(action) => action,
            Err(fault) => return Err(ControlFault::State(fault)),
        };
        let next = self.torn_then(relid, now);
        self.send(
            m,
            &and_rescind(torn_answer(gpadl, action), next.rescinds),
            post,
        )?;
        tear_list(&mut self.lists, gpadl, action);
        self.channels[relid as usize - 1] = now;
        self.awaits = next.awaits;
        put_rescinded(&mut self.channels, next.rescinds);
        end_list(&mut self.lists, next.rescinds);
        Ok(())
    }

    // RELID_RELEASED goes by the table. The next channel may be one that is rescinded.
    pub(crate) fn hear_release(
        &mut self,
        m: &Msg,
        relid: u32,
        post: &mut MailBox,
    ) -> Result<(), ControlFault>
        requires room { length post.old.queue + 32 ≤ post.old.size }
        ensures { Comes (on_release self.old relid (by_relid self.old.channels relid)) self.old self.new m.now post.old post.new result }
    {
        let Some(mut life) = self.life(relid) else {
            return Err(ControlFault::Relid { value: relid });
        };
        match life.event(Event::ReleaseSeen) {
            Ok(_) => {}
            Err(fault) => return Err(ControlFault::State(fault)),
        }
        let next = self.released_then(relid);
        self.send(m, &and_rescind(None, next.rescinds), post)?;
        self.channels[relid as usize - 1] = life;
        self.awaits = next.awaits;
        put_rescinded(&mut self.channels, next.rescinds);
        end_list(&mut self.lists, next.rescinds);
        Ok(())
    }

    // UNLOAD is answered where it is waited for.
    pub(crate) fn hear_unload(&mut self, m: &Msg, post: &mut MailBox) -> Result<(), ControlFault>
        requires room { length post.old.queue + 32 ≤ post.old.size }
        ensures { Comes (Ok (on_unload self.old self.old.awaits)) self.old self.new m.now post.old post.new result }
    {
        match self.awaits {
            HostWait::Unload => {
                self.send(m, &Burst::One(Msg::UnloadResponse { padding: 0 }), post)?;
                self.awaits = HostWait::Nothing;
                Ok(())
            }
            _ => self.send(m, &Burst::Empty, post),
        }
    }
}

// A channel for each device, as it is offered.
fn offered(alloc: Global, kinds: &[Kind]) -> Result<Vec<ChanState>, AllocError>
    ensures { IfOk result (λ channels. channels.items ≡ map (λ kind. offered_life) kinds.now) }
{
    kinds
        .iter()
        .map(|_| ChanState::make(Side::Host))
        .collect(alloc)
}
