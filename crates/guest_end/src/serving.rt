//! A guest's control serves a part over its ends of both queues.
ghost use Rattle.std.specs.Prelude.{◌≡◌, []};
ghost use Rattle.control_side.specs.Sides.{AtRest, Served};
ghost use Rattle.guest_end.specs.AsSide.{guest_side, GuestFollows, GuestMayBegin};

use crate::GuestControl;
use contact::Part;
use control_model::ControlFault;
use control_side::{Control, PartDone, serve};
use mail_box::{FetchEnd, MailBox, PostEnd};
use std::alloc::AllocError;
use std::sync::Wait;
use vmbus_msg::Msg;

impl Control for GuestControl {
    ghost use Rattle.guest_end.specs.AsSide.{guest_side, GuestFollows, GuestMayBegin};

    ghost seen = { λ g. guest_side g };

    ghost follows = { λ g. GuestFollows g };

    ghost can_begin = { λ g part. GuestMayBegin g part };

    fn begin(&mut self, part: Part, post: &mut MailBox) -> Result<(), AllocError> {
        GuestControl::begin(self, part, post)
    }

    fn feed(&mut self, m: &Msg, post: &mut MailBox) -> Result<(), ControlFault> {
        GuestControl::feed(self, m, post)
    }

    fn done(&self) -> bool {
        GuestControl::done(self)
    }

    fn parting(&self) -> Msg {
        Msg::UnloadResponse { padding: 0 }
    }
}

impl GuestControl {
    /// Serves a part, which may wait for the host.
    ///
    /// It begins the part and takes each message that it fetches. All answers to one message are put
    /// before the next one is fetched, and it ends where it is done with the part. Where it refuses,
    /// it ends too: without memory it puts UNLOAD_RESPONSE, which no guest ever says and no host ever
    /// takes, and after any other refusal it puts nothing. `local` is empty.
    pub fn serve<R: Wait>(
        self,
        rt: &R,
        part: Part,
        fetch: FetchEnd,
        post: PostEnd,
        local: MailBox,
    ) -> PartDone<GuestControl>
        requires follows { GuestFollows self }
        requires part { GuestMayBegin self part }
        requires rest { AtRest (guest_side self) fetch post }
        requires local { local ≡ record { size = 64; queue = [] } }
        ensures follows { GuestFollows result.control }
        ensures served { Served part (guest_side self) fetch post (guest_side result.control) result.fetch result.post result.fault }
    {
        serve(rt, self, part, fetch, post, local).done
    }
}
