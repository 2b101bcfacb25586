//! A guest asks for a service, and its channel is offered.
ghost use Rattle.std.specs.Prelude.{◌≡◌, ◌+◌, ◌≤◌, length, Ok, OnOk, OnErr};
ghost use Rattle.control_model.specs.Host.{connects_to, offers_service, on_connect};
ghost use Rattle.host_end.specs.Feeding.{Comes, Took};

use crate::HostControl;
use crate::posting::put_all;
use chan_state::ChanState;
use contact::service_id;
use control_model::{Burst, ControlFault, HostWait, Opening, messages, offer_service};
use io_edge::Side;
use mail_box::MailBox;
use std::alloc::AllocError;
use vmbus_msg::Msg;

impl HostControl {
    // TL_CONNECT_REQUEST is answered by the offer of the service's channel, where it asks for the
    // service that the host waits for. Nothing comes of another one.
    pub(crate) fn hear_connect(
        &mut self,
        m: &Msg,
        service: &[u8; 16],
        post: &mut MailBox,
    ) -> Result<(), ControlFault>
        requires room { length post.old.queue + 32 ≤ post.old.size }
        ensures { Comes (Ok (on_connect self.old self.old.awaits service.now)) self.old self.new m.now post.old post.new result }
    {
        match self.awaits {
            HostWait::Connect(place) => match self.plan.opening(self.part, place) {
                Some(o) => self.connect(m, place, &o, service, post),
                None => self.send(m, &Burst::Empty, post),
            },
            _ => self.send(m, &Burst::Empty, post),
        }
    }

    // The same, while the opening at a place waits for it.
    fn connect(
        &mut self,
        m: &Msg,
        place: usize,
        o: &Opening,
        service: &[u8; 16],
        post: &mut MailBox,
    ) -> Result<(), ControlFault>
        requires room { length post.old.queue + 32 ≤ post.old.size }
        ensures { Comes (Ok (connects_to self.old place o.now service.now o.now.dialed)) self.old self.new m.now post.old post.new result }
    {
        match o.dialed {
            Some(port) if *service == service_id(port) => {
                match self.offer_channel(m, place, port, o.relid, post) {
                    Ok(()) => Ok(()),
                    Err(_) => Err(ControlFault::Memory),
                }
            }
            _ => self.send(m, &Burst::Empty, post),
        }
    }

    // The channel of the service at a port is offered, and its page list waited for. All room is made
    // first.
    fn offer_channel(
        &mut self,
        m: &Msg,
        place: usize,
        port: u32,
        relid: u32,
        post: &mut MailBox,
    ) -> Result<(), AllocError>
        requires room { length post.old.queue + 32 ≤ post.old.size }
        ensures offered { OnOk result (Took (offers_service self.old place port relid) self.old self.new m.now post.old post.new) }
        ensures refused { OnErr result ((self.new ≡ self.old) × (post.new ≡ post.old)) }
    {
        let burst = Burst::One(offer_service(port, relid));
        let sent = messages(self.alloc, &self.plan, &burst)?;
        self.posted.reserve(sent.len())?;
        self.fed.reserve(1)?;
        self.channels.reserve(1)?;
        self.fed.push_reserved(*m);
        put_all(&mut self.posted, &sent, post);
        self.awaits = HostWait::List(place);
        self.channels.push_reserved(ChanState::make(Side::Host));
        Ok(())
    }
}
