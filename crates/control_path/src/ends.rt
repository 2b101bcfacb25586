//! The end of both queues.
ghost use Rattle.std.specs.Prelude.{◌≡◌, []};
ghost use Rattle.control_side.specs.Sides.{Serves};
ghost use Rattle.mail_box.specs.Mail.{Closes};
ghost use Rattle.control_path.specs.Ends.{Hears, IsExplained, IsFedFrom};

use control_model::ControlFault;
use control_side::{Control, PartDone};
use mail_box::{ClosedQueue, MailBox};
use std::sync::Wait;

/// Both controls behind the last part, or behind one in which a side refused.
#[derive(Drop)]
pub struct Ends<G: Control, H: Control> {
    /// The guest's control.
    pub guest: G,
    /// The host's control.
    pub host: H,
    /// Why the guest's refused, where it did.
    pub guest_fault: Option<ControlFault>,
    /// Why the host's refused, where it did.
    pub host_fault: Option<ControlFault>,
    /// What passed from the guest to the host.
    pub to_host: ClosedQueue,
    /// What passed from the host to the guest.
    pub to_guest: ClosedQueue,
}

/// Ends both queues. A side refused, if it did, for want of memory, or the other side's message that
/// ends it early, which that side put for want of memory. Without a fault each side was fed a front
/// of what the other one posted.
pub fn settle<G: Control, H: Control, R: Wait>(
    rt: &R,
    guest: PartDone<G>,
    host: PartDone<H>,
) -> Ends<G, H>
    requires guest { Serves (G.seen guest.control) guest.fetch guest.post [] guest.fault }
    requires host { Serves (H.seen host.control) host.fetch host.post [] host.fault }
    requires to_host { guest.post.queue ≡ host.fetch.queue }
    requires to_guest { host.post.queue ≡ guest.fetch.queue }
    requires guest_hears { Hears (G.seen guest.control) (H.seen host.control) }
    requires host_hears { Hears (H.seen host.control) (G.seen guest.control) }
    ensures guest { result.guest ≡ guest.control }
    ensures host { result.host ≡ host.control }
    ensures guest_fault { result.guest_fault ≡ guest.fault }
    ensures host_fault { result.host_fault ≡ host.fault }
    ensures to_host { Closes guest.post host.fetch result.to_host }
    ensures to_guest { Closes host.post guest.fetch result.to_guest }
    ensures guest_explained { IsExplained guest.fault host.fault }
    ensures host_explained { IsExplained host.fault guest.fault }
    ensures guest_fed { IsFedFrom (G.seen guest.control) (H.seen host.control) guest.fault host.fault }
    ensures host_fed { IsFedFrom (H.seen host.control) (G.seen guest.control) host.fault guest.fault }
{
    let to_host = MailBox::close(rt, guest.post, host.fetch);
    let to_guest = MailBox::close(rt, host.post, guest.fetch);
    Ends {
        guest: guest.control,
        host: host.control,
        guest_fault: guest.fault,
        host_fault: host.fault,
        to_host,
        to_guest,
    }
}
