//! A host's control serves a part over its ends of both queues.
ghost use Rattle.std.specs.Prelude.{◌≡◌, []};
ghost use Rattle.control_side.specs.Sides.{AtRest, Served};
ghost use Rattle.host_end.specs.AsSide.{host_side, HostFollows, HostMayBegin};

use crate::HostControl;
use contact::Part;
use control_model::ControlFault;
use control_side::{Control, PartDone, serve};
use mail_box::{FetchEnd, MailBox, PostEnd};
use std::alloc::AllocError;
use std::sync::Wait;
use vmbus_msg::Msg;

impl Control for HostControl {
    ghost use Rattle.host_end.specs.AsSide.{host_side, HostFollows, HostMayBegin};

    ghost seen = { λ h. host_side h };

    ghost follows = { λ h. HostFollows h };

    ghost can_begin = { λ h part. HostMayBegin h part };

    fn begin(&mut self, part: Part, post: &mut MailBox) -> Result<(), AllocError> {
        HostControl::begin(self, part, post)
    }

    fn feed(&mut self, m: &Msg, post: &mut MailBox) -> Result<(), ControlFault> {
        HostControl::feed(self, m, post)
    }

    fn done(&self) -> bool {
        HostControl::done(self)
    }

    fn parting(&self) -> Msg {
        Msg::Unload { padding: 0 }
    }
}

impl HostControl {
    /// Serves a part, which may wait for the guest.
    ///
    /// It begins the part and takes each message that it fetches. All answers to one message are put
    /// before the next one is fetched, and it ends where it is done with the part. Where it refuses,
    /// it ends too: without memory it puts UNLOAD, which no host ever says by a script and no guest ever
    /// takes, and after any other refusal it puts nothing. `local` is empty.
    pub fn serve<R: Wait>(
        self,
        rt: &R,
        part: Part,
        fetch: FetchEnd,
        post: PostEnd,
        local: MailBox,
    ) -> PartDone<HostControl>
        requires follows { HostFollows self }
        requires part { HostMayBegin self part }
        requires rest { AtRest (host_side self) fetch post }
        requires local { local ≡ record { size = 64; queue = [] } }
        ensures follows { HostFollows result.control }
        ensures served { Served part (host_side self) fetch post (host_side result.control) result.fetch result.post result.fault }
    {
        serve(rt, self, part, fetch, post, local).done
    }
}
