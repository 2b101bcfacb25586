//! What a host answers.
ghost use Rattle.std.specs.Prelude.{◌≡◌};
ghost use Rattle.control_model.specs.Messages.{Fits, respond, created, opened, torndown, rescind};
ghost use Rattle.control_model.specs.Host.{torn_answer, and_rescind, is_rescinded};
ghost use Rattle.control_model.specs.Guest.{can_unload};

use chan_state::{Action, ChanState, State};
use contact::Version;
use control_model::{Burst, Rescind};
use vmbus_msg::Msg;

// The first version whose guests unload: 3.0.
const FIRST_UNLOAD: u32 = 0x0003_0000;

// Whether the guest unloads, with the agreed version.
pub(crate) fn can_unload(version: Option<Version>) -> bool
    ensures { result ≡ can_unload version }
{
    match version {
        Some(version) => version.0 >= FIRST_UNLOAD,
        None => false,
    }
}

// VERSION_RESPONSE: 1 accepts, and 0 refuses.
pub(crate) fn respond(supported: u8) -> Msg
    ensures { result ≡ respond supported }
{
    Msg::VersionResponse {
        padding: 0,
        supported,
        state: 0,
        padding2: 0,
        conn: 1,
    }
}

// GPADL_CREATED: the page list is whole.
pub(crate) fn created(relid: u32, gpadl: u32) -> Msg
    ensures { result ≡ created relid gpadl }
{
    Msg::GpadlCreated {
        padding: 0,
        relid,
        gpadl,
        status: 0,
    }
}

// GPADL_TORNDOWN: the page list was let go.
pub(crate) fn torndown(gpadl: u32) -> Msg
    ensures { result ≡ torndown gpadl }
{
    Msg::GpadlTorndown { padding: 0, gpadl }
}

// GPADL_TORNDOWN, where the table of a channel's life says so.
pub(crate) fn torn_answer(gpadl: u32, action: Action) -> Option<Msg>
    ensures { result ≡ torn_answer gpadl action }
{
    match action {
        Action::SendTorndown => Some(torndown(gpadl)),
        _ => None,
    }
}

// RESCIND_CHANNELOFFER: a channel is taken back.
fn rescind(relid: u32) -> Msg
    ensures { result ≡ rescind relid }
{
    Msg::RescindChannelOffer { padding: 0, relid }
}

// The answer, if there is one, and RESCIND_CHANNELOFFER behind it where a channel is rescinded.
pub(crate) fn and_rescind(answer: Option<Msg>, rescinds: Option<Rescind>) -> Burst
    ensures burst { result ≡ and_rescind answer rescinds }
    ensures fits { Fits result }
{
    match answer {
        None => match rescinds {
            None => Burst::Empty,
            Some(r) => Burst::One(rescind(r.opening.relid)),
        },
        Some(m) => match rescinds {
            None => Burst::One(m),
            Some(r) => Burst::Two(m, rescind(r.opening.relid)),
        },
    }
}

// OPENCHANNEL_RESULT with status 0: a channel is open.
pub(crate) fn opened(relid: u32, openid: u32) -> Msg
    ensures { result ≡ opened relid openid }
{
    Msg::OpenChannelResult {
        padding: 0,
        relid,
        openid,
        status: 0,
    }
}

// Whether a channel is rescinded.
pub(crate) fn is_rescinded(life: ChanState) -> bool
    ensures { result ≡ is_rescinded life.state }
{
    matches!(life.state(), State::Rescinded)
}
