//! The guest's side of the control path.
ghost use Rattle.std.specs.Prelude.{◌≡◌, ◌+◌, ◌-◌, ◌<◌, ◌≤◌, ◌++◌, List, [], ◌∷◌, length, slice_set, vec_len, vec_capacity, Some, None, IfOk, IfErr, OnOk, OnErr, IsTrue};
ghost use Rattle.std.specs.Option.{option_to_list};
ghost use Rattle.contact.specs.declared.version.Version.{Version};
ghost use Rattle.chan_state.specs.declared.state.State.{State};
ghost use Rattle.vmbus_msg.specs.declared.msg.Msg.{Msg};
ghost use Rattle.mail_box.specs.Mail.{Mail};
ghost use Rattle.control_model.specs.declared.guest_wait.GuestWait.TheVariants.{Nothing};
ghost use Rattle.control_model.specs.Plan.{BusPlan, part_after, IsPlan};
ghost use Rattle.control_model.specs.Openings.{plan_of};
ghost use Rattle.control_model.specs.Sock.{sock_plan};
ghost use Rattle.control_model.specs.Messages.{Sends};
ghost use Rattle.control_model.specs.Channels.{by_relid, move_at, move_all, changed};
ghost use Rattle.guest_end.specs.Handles.{AreApart, next_handle};
ghost use Rattle.guest_end.specs.Told.{lists_told, told_by};
ghost use Rattle.control_model.specs.Guest.{new_guest, IsFit, GuestSeen, guest_done, can_begin, state_of, guest_hears, guest_after, GuestBegins, GuestTakes, Refuses};

use crate::turns::{by_relid, lived};
use bus_script::Script;
use chan_state::{Event, State};
use contact::{Part, Version};
use control_model::{
    Change, Channel, ControlFault, ControlPlan, GuestTurn, GuestWait, Move, Moves, messages,
};
use mail_box::MailBox;
use std::alloc::{AllocError, Global};
use std::marker::Model;
use vmbus_msg::Msg;

/// The control of a guest: it agrees with its host on a version, takes the offers, opens channels,
/// and closes them or gives them back, phase by phase, and says farewell.
///
/// Contracts see which part of that is under way, what it waits for, its channels, and all messages
/// that it posted and was fed.
#[derive(Drop)]
pub struct GuestControl {
    alloc: Global,
    pub(crate) plan: ControlPlan,
    pub(crate) part: Option<Part>,
    pub(crate) awaits: GuestWait,
    pub(crate) version: Option<Version>,
    pub(crate) channels: Vec<Channel>,
    // Where each page list that was set up had a greater handle than all before it: the number from
    // which on no channel has one. No two channels have the same handle then.
    pub(crate) rising: Option<u64>,
    posted: Vec<Msg>,
    fed: Vec<Msg>,
}

impl Model for GuestControl {
    ghost use Rattle.std.specs.Prelude.{◌≤◌, length};
    ghost use Rattle.control_model.specs.Plan.{most_channels};
    ghost use Rattle.control_model.specs.Guest.{GuestSeen, IsListed};
    ghost use Rattle.guest_end.specs.Handles.{AreApart};

    ghost Value = { GuestSeen };

    ghost view = { λ c. record { plan = c.plan; part = c.part; awaits = c.awaits; version = c.version; channels = c.channels.items; posted = c.posted.items; fed = c.fed.items } };

    ghost invariant = { λ c. IsListed c.awaits × (length c.channels.items ≤ most_channels) × AreApart c.rising c.channels.items };
}

impl GuestControl {
    /// The control of a script's guest, before its first part.
    pub fn make(alloc: Global, script: &Script) -> Result<GuestControl, AllocError>
        ensures made { IfOk result (λ control. control ≡ new_guest (plan_of script.now)) }
        ensures plan { IfOk result (λ control. IsPlan control.plan) }
    {
        let plan = ControlPlan::of(alloc, script)?;
        Ok(GuestControl::of_plan(alloc, plan))
    }

    /// The control of a guest that opens a socket of the service at a port, before its first part: it
    /// agrees on 5.2 and is offered no device, asks for the service's channel and opens it in one
    /// phase, and gives it back at the end of that.
    pub fn make_sock(alloc: Global, port: u32) -> Result<GuestControl, AllocError>
        ensures made { IfOk result (λ control. control ≡ new_guest (sock_plan port)) }
        ensures plan { IfOk result (λ control. IsPlan control.plan) }
    {
        let plan = ControlPlan::of_sock(alloc, port)?;
        Ok(GuestControl::of_plan(alloc, plan))
    }

    /// The control of a plan, before its first part.
    pub fn of_plan(alloc: Global, plan: ControlPlan) -> GuestControl
        ensures made { result ≡ new_guest plan }
        ensures plan { IsPlan result.plan }
    {
        GuestControl {
            alloc,
            plan,
            part: None,
            awaits: GuestWait::Nothing,
            version: None,
            channels: Vec::new(alloc),
            rising: Some(0),
            posted: Vec::new(alloc),
            fed: Vec::new(alloc),
        }
    }

    /// Begins a part: it sends what the guest sends unasked at the start of that part. `post` is
    /// empty. Nothing is changed where memory is wanting.
    pub fn begin(&mut self, part: Part, post: &mut MailBox) -> Result<(), AllocError>
        requires part { part_after self.old.plan self.old.part ≡ Some part }
        requires ready { IsTrue (can_begin self.old) }
        requires post { post.old ≡ record { size = 64; queue = [] } }
        ensures begun { OnOk result (GuestBegins self.old part post.new.queue self.new × (post.new.size ≡ 64)) }
        ensures refused { OnErr result ((self.new ≡ self.old) × (post.new ≡ post.old)) }
    {
        let turn = self.begins(part);
        self.go(Some(part), turn, None, post)
    }

    /// Takes a message of the host, and sends what comes of it. `post` has room for 32 messages.
    ///
    /// A message of a type that a guest never takes is refused as `Unasked`; one that names a relid
    /// that no channel has as `Relid`; an offer of an unknown class as `Offer`; a GPADL_TORNDOWN
    /// with a handle of which no channel set up the list as `Gpadl`; one for which the channel's life
    /// has no place as `State`; `Memory` comes after these. A refusal changes nothing.
    ///
    /// Behind the last OPENCHANNEL_RESULT of a phase it sends a MODIFYCHANNEL for the first channel of
    /// each device that the phase moves, in order of offer, from 4.1 on; from 5.3 on it waits for a
    /// MODIFYCHANNEL_RESPONSE to each.
    ///
    /// A RESCIND_CHANNELOFFER is answered at once, by RELID_RELEASED, whenever it comes.
    ///
    /// A message that is not the next one, and does nothing to a channel, is kept in `fed` alone.
    pub fn feed(&mut self, m: &Msg, post: &mut MailBox) -> Result<(), ControlFault>
        requires { length post.old.queue + 32 ≤ post.old.size }
        ensures taken { OnOk result ((sent : List Msg) × (GuestTakes self.old m.now sent self.new × (post.new ≡ record { size = post.old.size; queue = post.old.queue ++ sent }))) }
        ensures refused { IfErr result (λ fault. Refuses (guest_hears self.old m.now) fault × (self.new ≡ self.old) × (post.new ≡ post.old)) }
    {
        match self.hears(m) {
            Ok(turn) => match self.go(self.part, turn, Some(*m), post) {
                Ok(()) => Ok(()),
                Err(_) => Err(ControlFault::Memory),
            },
            Err(fault) => Err(fault),
        }
    }

    /// Whether a part has begun, and nothing more of it is to be sent or taken.
    pub fn done(&self) -> bool
        ensures { result ≡ guest_done self.now }
    {
        self.part.is_some() && matches!(self.awaits, GuestWait::Nothing)
    }

    /// The agreed version, once the host supported one.
    pub fn version(&self) -> Option<Version>
        ensures { result ≡ self.now.version }
    {
        self.version
    }

    /// The state of the channel with this relid, if there is one.
    pub fn state(&self, relid: u32) -> Option<State>
        ensures { result ≡ state_of self.now relid }
    {
        match self.channel(relid) {
            Some(channel) => Some(channel.life.state()),
            None => None,
        }
    }

    /// The part that began last.
    pub fn part(&self) -> Option<Part>
        ensures { result ≡ self.now.part }
    {
        self.part
    }

    /// The part that comes next, if one does.
    pub fn next_part(&self) -> Option<Part>
        ensures { result ≡ part_after self.now.plan self.now.part }
    {
        self.plan.part_after(self.part)
    }

    /// All messages that it sent, in order.
    pub fn posted(&self) -> &[Msg]
        ensures { result.now ≡ self.now.posted }
    {
        &self.posted
    }

    /// The handles of the last two page lists that it told the host for a channel, in order. Once a network's channel is open these are the receive buffer's and the send buffer's. 0 stands for none.
    pub fn last_lists(&self, relid: u32) -> (u32, u32)
        ensures { result ≡ lists_told relid (0, 0) self.now.posted }
    {
        last_lists(&self.posted, relid)
    }

    /// All messages that it took, in order.
    pub fn fed(&self) -> &[Msg]
        ensures { result.now ≡ self.now.fed }
    {
        &self.fed
    }

    // Makes a turn: it sends the turn's messages, and keeps them and the one that it was fed. All
    // room is made first.
    fn go(
        &mut self,
        part: Option<Part>,
        turn: GuestTurn,
        fed: Option<Msg>,
        post: &mut MailBox,
    ) -> Result<(), AllocError>
        requires fits { IsFit self.old turn }
        requires room { length post.old.queue + 17 ≤ post.old.size }
        ensures gone { OnOk result ((sent : List Msg) × (Sends self.old.plan turn.burst sent × (self.new ≡ guest_after self.old part turn sent (option_to_list fed)) × (post.new ≡ record { size = post.old.size; queue = post.old.queue ++ sent }))) }
        ensures refused { OnErr result ((self.new ≡ self.old) × (post.new ≡ post.old)) }
    {
        let sent = messages(self.alloc, &self.plan, &turn.burst)?;
        self.posted.reserve(sent.len())?;
        self.fed.reserve(1)?;
        self.channels.reserve(2)?;
        change(&mut self.channels, &mut self.rising, turn.heard);
        change(&mut self.channels, &mut self.rising, turn.wished);
        if let Some(m) = fed {
            self.fed.push_reserved(m);
        }
        send(sent.as_slice(), &mut self.posted, post);
        self.part = part;
        self.awaits = turn.awaits;
        self.version = turn.version;
        Ok(())
    }
}

// What becomes of the channels.
fn change(channels: &mut Vec<Channel>, rising: &mut Option<u64>, change: Change)
    requires { vec_len channels.old < vec_capacity channels.old }
    ensures changed { channels.new.items ≡ changed channels.old.items change }
    ensures apart { AreApart rising.old channels.old.items → AreApart rising.new channels.new.items }
    ensures len { vec_len channels.new ≤ vec_len channels.old + 1 }
    ensures capacity { vec_capacity channels.new ≡ vec_capacity channels.old }
{
    match change {
        Change::Same => (),
        Change::Offered(channel) => {
            if channel.gpadl.is_some() {
                *rising = None;
            }
            channels.push_reserved(channel);
        }
        Change::Now { relid, channel } => put(channels, rising, relid, channel),
        Change::Moved { moves, answered } => move_all(channels, rising, &moves, answered),
    }
}

// Each of these channels is moved.
fn move_all(channels: &mut [Channel], rising: &mut Option<u64>, moves: &Moves, answered: bool)
    ensures moved { channels.new ≡ move_all channels.old answered moves.now }
    ensures apart { AreApart rising.old channels.old → AreApart rising.new channels.new }
{
    for m in moves.as_slice() {
        move_one(channels, rising, *m, answered);
    }
}

// A channel is moved, where the table of its life has a row for that.
fn move_one(channels: &mut [Channel], rising: &mut Option<u64>, m: Move, answered: bool)
    ensures moved { channels.new ≡ move_at channels.old answered m (by_relid channels.old m.relid) }
    ensures apart { AreApart rising.old channels.old → AreApart rising.new channels.new }
{
    let Some(channel) = by_relid(channels, m.relid) else {
        return;
    };
    let event = Event::WantModify { vp: m.vp, answered };
    match lived(channel, event) {
        Ok(now) => put(channels, rising, m.relid, now),
        Err(_) => (),
    }
}

// Puts a channel at its place.
fn put(channels: &mut [Channel], rising: &mut Option<u64>, relid: u32, channel: Channel)
    ensures put { channels.new ≡ slice_set channels.old (relid - 1) channel }
    ensures apart { AreApart rising.old channels.old → AreApart rising.new channels.new }
{
    let place = relid.saturating_sub(1) as usize;
    if place < channels.len() {
        *rising = next_handle(*rising, channels[place].gpadl, channel.gpadl);
        channels[place] = channel;
    }
}

// The number from which on no channel has a handle, where one has this handle in place of another.
fn next_handle(rising: Option<u64>, before: Option<u32>, now: Option<u32>) -> Option<u64>
    ensures { result ≡ next_handle rising before now }
{
    let Some(handle) = now else {
        return rising;
    };
    if before == Some(handle) {
        return rising;
    }
    match rising {
        Some(next) if next <= handle as u64 => Some(handle as u64 + 1),
        _ => None,
    }
}

// The handles of the last two page lists of a channel, behind one more message.
fn told_behind(relid: u32, told: (u32, u32), m: &Msg) -> (u32, u32)
    ensures { result ≡ told_by relid told m.now }
{
    match m {
        Msg::GpadlHeader(header) => if header.relid == relid {
            (told.1, header.gpadl)
        } else {
            told
        },
        _ => told,
    }
}

// The handles of the last two page lists of a channel that stand in messages.
fn last_lists(posted: &[Msg], relid: u32) -> (u32, u32)
    ensures { result ≡ lists_told relid (0, 0) posted.now }
{
    let mut told = (0, 0);
    for m in posted {
        told = told_behind(relid, told, m);
    }
    told
}

// Puts messages into the box, and behind those that were posted.
fn send(sent: &[Msg], posted: &mut Vec<Msg>, post: &mut MailBox)
    requires room { length post.old.queue + length sent.now ≤ post.old.size }
    requires reserved { vec_len posted.old + length sent.now ≤ vec_capacity posted.old }
    ensures posted { posted.new.items ≡ posted.old.items ++ sent.now }
    ensures post { post.new ≡ record { size = post.old.size; queue = post.old.queue ++ sent.now } }
{
    for m in sent {
        posted.push_reserved(*m);
        let Ok(()) = post.put(*m) else { unreachable!() };
    }
}
