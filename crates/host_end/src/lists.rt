//! The page lists of a host.
ghost use Rattle.std.specs.Prelude.{◌≡◌, ◌+◌, ◌≤◌, length, Some, None};
ghost use Rattle.control_model.specs.Channels.{by_relid};
ghost use Rattle.control_model.specs.Plan.{IsOpening};
ghost use Rattle.control_model.specs.declared.host_wait.HostWait.TheVariants.{Fill};
ghost use Rattle.control_model.specs.Host.{on_header, on_piece, listed, lists_torn, without, without_all};
ghost use Rattle.gpadl.specs.Assembly.{fault_of, IsPiece, Partial};
ghost use Rattle.host_end.specs.Feeding.{Comes, list_made};

use crate::HostControl;
use crate::answers::created;
use crate::posting::put;
use chan_state::Action;
use control_model::{Buffer, ControlFault, HostWait, Opening, buffer_list};
use gpadl::{Assembler, Progress};
use mail_box::MailBox;
use vmbus_msg::Msg;

impl HostControl {
    // GPADL_HEADER is of one of the channels.
    pub(crate) fn hear_header(
        &mut self,
        m: &Msg,
        relid: u32,
        post: &mut MailBox,
    ) -> Result<(), ControlFault>
        requires piece { IsPiece m.now }
        requires room { length post.old.queue + 32 ≤ post.old.size }
        ensures { Comes (on_header self.old relid m.now (by_relid self.old.channels relid)) self.old self.new m.now post.old post.new result }
    {
        match self.life(relid) {
            Some(_) => self.hear_piece(m, post),
            None => Err(ControlFault::Relid { value: relid }),
        }
    }

    // GPADL_HEADER and GPADL_BODY go to the assembler. Once a list is whole, GPADL_CREATED says so.
    pub(crate) fn hear_piece(&mut self, m: &Msg, post: &mut MailBox) -> Result<(), ControlFault>
        requires piece { IsPiece m.now }
        requires room { length post.old.queue + 32 ≤ post.old.size }
        ensures { Comes (on_piece self.old m.now (fault_of self.old.lists m.now)) self.old self.new m.now post.old post.new result }
    {
        match self.lists.fault(m) {
            Some(fault) => return Err(ControlFault::Gpadl(fault)),
            None => {}
        }
        let Ok(()) = self.posted.reserve(1) else {
            return Err(ControlFault::Memory);
        };
        let Ok(()) = self.fed.reserve(1) else {
            return Err(ControlFault::Memory);
        };
        let progress = match self.lists.feed(m) {
            Ok(progress) => progress,
            Err(_) => return Err(ControlFault::Memory),
        };
        let made = list_made(&progress);
        self.fed.push_reserved(*m);
        match made {
            Some((relid, handle)) => {
                let answer = created(relid, handle);
                self.awaits = self.listed(relid, handle);
                put(&mut self.posted, &answer, post);
                Ok(())
            }
            None => Ok(()),
        }
    }

    // What it waits for once a list is whole.
    fn listed(&self, relid: u32, handle: u32) -> HostWait
        ensures { (p : Partial) → p.relid ≡ relid → p.handle ≡ handle → result ≡ listed self.now self.now.awaits p }
    {
        match self.awaits {
            HostWait::List(place) => {
                if self.is_of(relid, place) {
                    HostWait::Open(place)
                } else {
                    HostWait::List(place)
                }
            }
            HostWait::Fill(place, buffer) => self.filled(place, buffer, relid, handle),
            other => other,
        }
    }

    // The same, while it waits for the page list of a buffer: that of the send buffer comes behind that of
    // the receive buffer, and behind both the next opening.
    fn filled(&self, place: usize, buffer: Buffer, relid: u32, handle: u32) -> HostWait
        ensures { (p : Partial) → p.relid ≡ relid → p.handle ≡ handle → result ≡ listed self.now (Fill place buffer) p }
    {
        match self.plan.opening(self.part(), place) {
            Some(o) if o.relid == relid && buffer_list(&o, buffer) == handle => match buffer {
                Buffer::Receive => HostWait::Fill(place, Buffer::Send),
                Buffer::Send => self.waits_list(self.part(), place + 1),
            },
            _ => HostWait::Fill(place, buffer),
        }
    }
}

// The channel and the handle of a list that is whole.
fn list_made(progress: &Progress) -> Option<(u32, u32)>
    ensures { result ≡ list_made progress.now }
{
    match progress {
        Progress::More { .. } => None,
        Progress::Done(list) => Some((list.relid, list.handle)),
    }
}

// Lets a list go where the table of a channel's life says that it is torn down.
pub(crate) fn tear_list(lists: &mut Assembler, gpadl: u32, action: Action)
    ensures { lists.new ≡ lists_torn lists.old gpadl action }
{
    match action {
        Action::SendTorndown => let_go(lists, gpadl),
        _ => (),
    }
}

// Lets a list go, so that it isn't live any more.
pub(crate) fn let_go(lists: &mut Assembler, gpadl: u32)
    ensures { lists.new ≡ without lists.old gpadl }
{
    lists.torn(gpadl);
}

// Lets all page lists of an opening go.
pub(crate) fn let_all_go(lists: &mut Assembler, o: &Opening)
    requires { IsOpening o.now }
    ensures { lists.new ≡ without_all lists.old o.now }
{
    if o.buffers {
        let_go(lists, buffer_list(o, Buffer::Send));
        let_go(lists, buffer_list(o, Buffer::Receive));
    }
    let_go(lists, o.gpadl);
}
