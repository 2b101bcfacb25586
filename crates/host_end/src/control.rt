//! A host's control.
ghost use Rattle.std.specs.Prelude.{◌≡◌, ◌+◌, ◌≤◌, [], length, IfOk, OnOk, OnErr, IsTrue, Some};
ghost use Rattle.control_model.specs.Openings.{plan_of};
ghost use Rattle.control_model.specs.Sock.{sock_plan};
ghost use Rattle.control_model.specs.Host.{new_host, host_hears, host_done, host_state_of, host_can_begin, HostBegins};
ghost use Rattle.host_end.specs.Feeding.{Comes};
ghost use Rattle.control_model.specs.Channels.{by_relid};
ghost use Rattle.control_model.specs.Plan.{part_after};

use crate::answers::and_rescind;
use crate::ending::{end_list, put_rescinded};
use bus_script::Script;
use chan_state::{ChanState, State};
use contact::{Part, Version};
use control_model::{ControlFault, ControlPlan, HostWait, type_of};
use gpadl::Assembler;
use mail_box::MailBox;
use std::alloc::{AllocError, Global};
use std::marker::Model;
use vmbus_msg::Msg;

/// The host's end of the control path: it answers a guest's control messages, and takes channels
/// back that are rescinded.
///
/// Contracts see the plan that it goes by, the part under way and what it waits for in it, the
/// agreed version, its channels and page lists, and all messages that it posted and was fed.
#[derive(Drop)]
pub struct HostControl {
    pub(crate) alloc: Global,
    pub(crate) plan: ControlPlan,
    pub(crate) part: Option<Part>,
    pub(crate) awaits: HostWait,
    pub(crate) version: Option<Version>,
    pub(crate) channels: Vec<ChanState>,
    pub(crate) lists: Assembler,
    pub(crate) posted: Vec<Msg>,
    pub(crate) fed: Vec<Msg>,
}

impl Model for HostControl {
    ghost use Rattle.control_model.specs.Openings.{plan_of};
    ghost use Rattle.control_model.specs.Host.{new_host, HostSeen};

    ghost Value = { HostSeen };

    ghost view = { λ c. record { plan = c.plan; part = c.part; awaits = c.awaits; version = c.version; channels = c.channels.items; lists = c.lists; posted = c.posted.items; fed = c.fed.items } };
}

impl HostControl {
    /// The control of a script's host, before its first part.
    pub fn make(alloc: Global, script: &Script) -> Result<HostControl, AllocError>
        ensures { IfOk result (λ control. control ≡ new_host (plan_of script.now)) }
    {
        let plan = ControlPlan::of(alloc, script)?;
        Ok(HostControl::of_plan(alloc, plan))
    }

    /// The control of the host of a socket of the service at a port, before its first part: it has 5.2
    /// and offers no device, offers the service's channel once the guest asks for it, and takes it
    /// back at the end of the one phase.
    pub fn make_sock(alloc: Global, port: u32) -> Result<HostControl, AllocError>
        ensures { IfOk result (λ control. control ≡ new_host (sock_plan port)) }
    {
        let plan = ControlPlan::of_sock(alloc, port)?;
        Ok(HostControl::of_plan(alloc, plan))
    }

    /// The control of a plan, before its first part.
    pub fn of_plan(alloc: Global, plan: ControlPlan) -> HostControl
        ensures { result ≡ new_host plan }
    {
        HostControl {
            alloc,
            plan,
            part: None,
            awaits: HostWait::Nothing,
            version: None,
            channels: Vec::new(alloc),
            lists: Assembler::make(alloc),
            posted: Vec::new(alloc),
            fed: Vec::new(alloc),
        }
    }

    /// Whether a part has begun and this side has sent and taken all its messages of that part, of
    /// which there may be none.
    pub fn done(&self) -> bool
        ensures { result ≡ host_done self.now }
    {
        self.part.is_some() && matches!(self.awaits, HostWait::Nothing)
    }

    /// The agreed version: none before it was told.
    pub fn version(&self) -> Option<Version>
        ensures { result ≡ self.now.version }
    {
        self.version
    }

    /// The state of the channel with this relid: none where no channel has it.
    pub fn state(&self, relid: u32) -> Option<State>
        ensures { result ≡ host_state_of self.now relid }
    {
        match self.life(relid) {
            Some(life) => Some(life.state()),
            None => None,
        }
    }

    /// The part that began last: none before the first.
    pub fn part(&self) -> Option<Part>
        ensures { result ≡ self.now.part }
    {
        self.part
    }

    /// The part that comes next, if one does.
    pub fn next_part(&self) -> Option<Part>
        ensures { result ≡ part_after self.now.plan self.now.part }
    {
        self.plan.part_after(self.part)
    }

    /// All messages that it posted, in order.
    pub fn posted(&self) -> &[Msg]
        ensures { result.now ≡ self.now.posted }
    {
        &self.posted
    }

    /// All messages that it was fed and took, in order.
    pub fn fed(&self) -> &[Msg]
        ensures { result.now ≡ self.now.fed }
    {
        &self.fed
    }

    // The life of the channel with this relid.
    pub(crate) fn life(&self, relid: u32) -> Option<ChanState>
        ensures { result ≡ by_relid self.now.channels relid }
    {
        if relid == 0 {
            return None;
        }
        self.channels.get(relid as usize - 1).copied()
    }

    /// Begins a part, which is the next one. The host sends nothing unasked, but for a
    /// RESCIND_CHANNELOFFER where the first channel of a phase that ends is to be rescinded. `post` is
    /// empty. Nothing is changed where memory is wanting.
    pub fn begin(&mut self, part: Part, post: &mut MailBox) -> Result<(), AllocError>
        requires part { part_after self.old.plan self.old.part ≡ Some part }
        requires ready { IsTrue (host_can_begin self.old) }
        requires post { post.old ≡ record { size = 64; queue = [] } }
        ensures begun { OnOk result (HostBegins self.old part post.new.queue self.new × (post.new.size ≡ 64)) }
        ensures refused { OnErr result ((self.new ≡ self.old) × (post.new ≡ post.old)) }
    {
        let next = self.first_next(part);
        self.post(None, &and_rescind(None, next.rescinds), post)?;
        self.awaits = next.awaits;
        put_rescinded(&mut self.channels, next.rescinds);
        end_list(&mut self.lists, next.rescinds);
        self.part = Some(part);
        Ok(())
    }

    /// Takes a message of the guest, and puts what comes of it into `post`.
    ///
    /// A TL_CONNECT_REQUEST of the service that the plan's next channel is of is answered by the offer of
    /// that channel; nothing comes of one of another service, or at another time.
    ///
    /// A MODIFYCHANNEL of an open channel is answered by MODIFYCHANNEL_RESPONSE with status 0 from 5.3 on,
    /// and not answered below.
    ///
    /// It refuses, in this order: as `Unasked` a message of a type that no guest sends; as `Relid` one
    /// that names no channel; as `Gpadl` a piece that the assembler refuses, and a GPADL_TEARDOWN of a
    /// list that isn't live, for a channel that isn't rescinded; as `State` one for which the table of
    /// a channel's life has no row; and as `Memory` one for which there is no memory. A refusal
    /// changes nothing. A message that isn't the next one and means nothing to a channel is kept and
    /// not answered.
    pub fn feed(&mut self, m: &Msg, post: &mut MailBox) -> Result<(), ControlFault>
        requires room { length post.old.queue + 32 ≤ post.old.size }
        ensures { Comes (host_hears self.old m.now) self.old self.new m.now post.old post.new result }
    {
        match m {
            Msg::InitiateContact { version, .. } => self.hear_contact(m, Version(*version), post),
            Msg::RequestOffers { .. } => self.hear_request(m, post),
            Msg::TlConnectRequest { host_service, .. } => self.hear_connect(m, host_service, post),
            Msg::GpadlHeader(h) => self.hear_header(m, h.relid, post),
            Msg::GpadlBody(_) => self.hear_piece(m, post),
            Msg::OpenChannel { relid, openid, .. } => self.hear_open(m, *relid, *openid, post),
            Msg::ModifyChannel {
                relid,
                target_vp,
                ..
            } => self.hear_modify(m, *relid, *target_vp, post),
            Msg::CloseChannel { relid, .. } => self.hear_close(m, *relid, post),
            Msg::GpadlTeardown { relid, gpadl, .. } => {
                self.hear_teardown(m, *relid, *gpadl, post)
            }
            Msg::RelidReleased { relid, .. } => self.hear_release(m, *relid, post),
            Msg::Unload { .. } => self.hear_unload(m, post),
            _ => Err(ControlFault::Unasked { kind: type_of(m) }),
        }
    }
}
