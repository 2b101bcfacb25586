//! A control path: the controls of a guest and of its host, and the queues between them.
ghost use Rattle.std.specs.Prelude.{◌≡◌, [], Some, None, IfOk, IfErr};
ghost use Rattle.contact.specs.declared.part.Part.TheVariants.{Unload};
ghost use Rattle.control_model.specs.Plan.{part_after};
ghost use Rattle.control_model.specs.Openings.{plan_of};
ghost use Rattle.control_model.specs.Sock.{sock_plan};
ghost use Rattle.control_model.specs.Messages.{farewell, farewell_taken};
ghost use Rattle.control_model.specs.Said.{said_by_guest, said_by_host};
ghost use Rattle.control_model.specs.Guest.{new_guest};
ghost use Rattle.control_model.specs.Host.{new_host};
ghost use Rattle.control_laws.specs.Over.{IsOver};
ghost use Rattle.control_side.specs.Sides.{Serves};
ghost use Rattle.guest_end.specs.AsSide.{guest_side};
ghost use Rattle.guest_end.specs.Told.{lists_told};
ghost use Rattle.host_end.specs.AsSide.{host_side};
ghost use Rattle.mail_box.specs.Mail.{Closes};
ghost use Rattle.control_path.specs.Path.{AreNew, joined, Rests, RanPart, EndsInWant, RanInWant};

use crate::{PartSide, PathOver, PathWant, run_part, settle};
use bus_script::Script;
use contact::Part;
use control_side::PartLeft;
use guest_end::GuestControl;
use host_end::HostControl;
use mail_box::{FetchEnd, MailBox, Named, PostEnd};
use std::alloc::{AllocError, Global};
use std::marker::Brand;
use std::sync::Wait;
use std::thread::Threads;

/// How many messages a queue holds.
const BOX_SIZE: u32 = 64;

/// The control of a guest and the control of its host, each with its ends of the queues between
/// them.
#[derive(Drop)]
pub struct ControlPath {
    guest: GuestControl,
    host: HostControl,
    guest_post: PostEnd,
    guest_fetch: FetchEnd,
    host_post: PostEnd,
    host_fetch: FetchEnd,
    // For what each control answers in a part; empty between two parts.
    guest_box: MailBox,
    host_box: MailBox,
}

impl ControlPath {
    /// The path of a script's guest and host, before their first part.
    pub fn make(alloc: Global, script: &Script) -> Result<ControlPath, AllocError>
        ensures rests { IfOk result (λ p. Rests p) }
        ensures guest { IfOk result (λ p. p.guest ≡ new_guest (plan_of script.now)) }
        ensures host { IfOk result (λ p. p.host ≡ new_host (plan_of script.now)) }
    {
        let guest = GuestControl::make(alloc, script)?;
        let host = HostControl::make(alloc, script)?;
        join::<Brand, Brand>(alloc, guest, host)
    }

    /// The path of the guest and the host of a socket of the service at a port, before their first part.
    pub fn make_sock(alloc: Global, port: u32) -> Result<ControlPath, AllocError>
        ensures rests { IfOk result (λ p. Rests p) }
        ensures guest { IfOk result (λ p. p.guest ≡ new_guest (sock_plan port)) }
        ensures host { IfOk result (λ p. p.host ≡ new_host (sock_plan port)) }
    {
        let guest = GuestControl::make_sock(alloc, port)?;
        let host = HostControl::make_sock(alloc, port)?;
        join::<Brand, Brand>(alloc, guest, host)
    }

    /// The part that comes next, if one does.
    pub fn next_part(&self) -> Option<Part>
        ensures { result ≡ part_after self.now.guest.plan self.now.guest.part }
    {
        self.guest.next_part()
    }

    /// The handles of the last two page lists that the guest told the host for a channel: those of the buffers of an open network's channel, the receive buffer's first. 0 stands for none.
    pub fn last_lists(&self, relid: u32) -> (u32, u32)
        ensures { result ≡ lists_told relid (0, 0) self.now.guest.posted }
    {
        self.guest.last_lists(relid)
    }

    /// Runs the next part: the host's control serves it on a thread, and the guest's on this one.
    /// Both are done with the part then, and what each was fed is a front of what the other posted.
    ///
    /// It takes no memory but what a control takes. The one error is that a control wanted memory: a
    /// control refuses for no other reason, but for the message that ends the other side's early. Then
    /// both queues are ended.
    pub fn run<R: Threads + Wait + Sync>(self, rt: &R, part: Part) -> Result<ControlPath, PathWant>
        requires rests { Rests self }
        requires part { part_after self.guest.plan self.guest.part ≡ Some part }
        ensures ran { IfOk result (λ path. RanPart self path part) }
        ensures wants { IfErr result (λ want. RanInWant self part want.ends) }
    {
        let ControlPath {
            guest,
            host,
            guest_post,
            guest_fetch,
            host_post,
            host_fetch,
            guest_box,
            host_box,
        } = self;
        let guest = PartSide {
            control: guest,
            fetch: guest_fetch,
            post: guest_post,
            local: guest_box,
        };
        let host = PartSide {
            control: host,
            fetch: host_fetch,
            post: host_post,
            local: host_box,
        };
        let (guest, host) = run_part(rt, guest, host, part);
        go_on(rt, guest, host)
    }

    /// Ends both queues, once both controls are done with the farewell. They have one version, the
    /// greatest that both know; each said all that it has to say for its plan, and was fed what the
    /// other said; and at both each channel that was rescinded is given back, each other one that was
    /// ever opened is closed, and each one that wasn't is offered.
    /// What passed through each queue is all that its one side posted and the other was fed.
    pub fn end<R: Wait>(self, rt: &R) -> PathOver
        requires rests { Rests self }
        requires last { self.guest.part ≡ Some Unload }
        ensures guest { result.guest ≡ self.guest }
        ensures host { result.host ≡ self.host }
        ensures plan { result.host.plan ≡ result.guest.plan }
        ensures over { IsOver result.guest.plan result.guest result.host }
        ensures to_host { Closes self.guest_post self.host_fetch result.to_host }
        ensures to_guest { Closes self.host_post self.guest_fetch result.to_guest }
        ensures host_got { (result.to_host.put ≡ result.guest.posted) × (result.to_host.left ≡ 0) }
        ensures guest_got { (result.to_guest.put ≡ result.host.posted) × (result.to_guest.left ≡ 0) }
    {
        let to_host = MailBox::close(rt, self.guest_post, self.host_fetch);
        let to_guest = MailBox::close(rt, self.host_post, self.guest_fetch);
        PathOver {
            guest: self.guest,
            host: self.host,
            to_host,
            to_guest,
        }
    }
}

// A path of two new controls of one plan, over two queues with the names of what both say.
fn join<N: Named, M: Named>(
    alloc: Global,
    guest: GuestControl,
    host: HostControl,
) -> Result<ControlPath, AllocError>
    requires new { AreNew guest host }
    requires to_host { (N.named ≡ said_by_guest guest.plan) × (N.last ≡ farewell_taken) }
    requires to_guest { (M.named ≡ said_by_host guest.plan) × (M.last ≡ farewell) }
    ensures joined { IfOk result (λ p. Rests p) }
    ensures guest { IfOk result (λ p. p.guest ≡ guest) }
    ensures host { IfOk result (λ p. p.host ≡ host) }
{
    let to_host = MailBox::make(alloc, BOX_SIZE)?;
    let to_guest = MailBox::make(alloc, BOX_SIZE)?;
    let (guest_post, host_fetch) = to_host.split::<N>();
    let (host_post, guest_fetch) = to_guest.split::<M>();
    let guest_box = MailBox::make(alloc, BOX_SIZE)?;
    let host_box = MailBox::make(alloc, BOX_SIZE)?;
    Ok(ControlPath {
        guest,
        host,
        guest_post,
        guest_fetch,
        host_post,
        host_fetch,
        guest_box,
        host_box,
    })
}

// The path behind a part. Where a side refused, both queues are ended at once: one of the two wanted
// memory.
fn go_on<R: Wait>(
    rt: &R,
    guest: PartLeft<GuestControl>,
    host: PartLeft<HostControl>,
) -> Result<ControlPath, PathWant>
    requires guest { Serves (guest_side guest.done.control) guest.done.fetch guest.done.post [] guest.done.fault }
    requires host { Serves (host_side host.done.control) host.done.fetch host.done.post [] host.done.fault }
    requires to_host { guest.done.post.queue ≡ host.done.fetch.queue }
    requires to_guest { host.done.post.queue ≡ guest.done.fetch.queue }
    requires one { host.done.control.plan ≡ guest.done.control.plan }
    ensures path { IfOk result (λ p. p ≡ joined guest host) }
    ensures guest_fault { IfOk result (λ p. guest.done.fault ≡ None) }
    ensures host_fault { IfOk result (λ p. host.done.fault ≡ None) }
    ensures wants { IfErr result (λ want. EndsInWant guest.done host.done want.ends) }
{
    let guest_box = guest.local;
    let host_box = host.local;
    let guest = guest.done;
    let host = host.done;
    if guest.fault.is_none() && host.fault.is_none() {
        return Ok(ControlPath {
            guest: guest.control,
            host: host.control,
            guest_post: guest.post,
            guest_fetch: guest.fetch,
            host_post: host.post,
            host_fetch: host.fetch,
            guest_box,
            host_box,
        });
    }
    let ends = settle(rt, guest, host);
    Err(PathWant { ends })
}
