//! The table of a channel's life.
ghost use Rattle.std.specs.Prelude.{◌≡◌};
ghost use Rattle.chan_state.specs.Life.{transition};

use crate::{Action, Event, State};
use io_edge::Side;

/// The state after an event and what is to be done, where the table has a row.
pub fn row(side: Side, state: State, event: Event) -> Option<(State, Action)>
    ensures { result ≡ transition side state event }
{
    match side {
        Side::Guest => guest_row(state, event),
        Side::Host => host_row(state, event),
    }
}

// The guest opens, moves to another processor, closes and releases. An offer may be rescinded in
// each state before that. An answer to a move that the rescind has overtaken is passed over.
fn guest_row(state: State, event: Event) -> Option<(State, Action)>
    ensures { result ≡ transition Side.Guest state event }
{
    match (state, event) {
        (State::Offered | State::Closed, Event::WantOpen) => {
            Some((State::Opening, Action::SendOpen))
        }
        (State::Opening, Event::ResultSeen { status: 0 }) => {
            Some((State::Opened, Action::StartRings))
        }
        (State::Opening, Event::ResultSeen { status: _ }) => {
            Some((State::Offered, Action::Nothing))
        }
        (State::Opened, Event::WantModify { answered: true, .. }) => {
            Some((State::Modifying, Action::SendModify))
        }
        (
            State::Opened,
            Event::WantModify {
                answered: false,
                ..
            },
        ) => { Some((State::Opened, Action::SendModify)) }
        (State::Modifying, Event::ModifiedSeen) => Some((State::Opened, Action::Nothing)),
        (State::Opened, Event::WantClose) => Some((State::Closing, Action::SendClose)),
        (State::Closing, Event::TorndownSeen) => Some((State::Closed, Action::EndRings)),
        (
            State::Offered
            | State::Opening
            | State::Opened
            | State::Modifying
            | State::Closing
            | State::Closed,
            Event::RescindSeen,
        ) => Some((State::Rescinded, Action::Settle)),
        (State::Rescinded, Event::ModifiedSeen) => Some((State::Rescinded, Action::Nothing)),
        (State::Rescinded, Event::WantRelease) => Some((State::Released, Action::SendRelease)),
        _ => None,
    }
}

// The host answers, and rescinds. What the guest sent before it knew of a rescind is passed over.
fn host_row(state: State, event: Event) -> Option<(State, Action)>
    ensures { result ≡ transition Side.Host state event }
{
    match (state, event) {
        (State::Offered | State::Closed, Event::OpenSeen) => {
            Some((State::Opened, Action::SendResult))
        }
        (State::Opened, Event::ModifySeen { answered: true, .. }) => {
            Some((State::Opened, Action::SendModified))
        }
        (
            State::Opened,
            Event::ModifySeen {
                answered: false,
                ..
            },
        ) => { Some((State::Opened, Action::Nothing)) }
        (State::Opened, Event::CloseSeen) => Some((State::Closing, Action::Nothing)),
        (State::Closing, Event::TeardownSeen) => Some((State::Closed, Action::SendTorndown)),
        (State::Offered | State::Opened | State::Closing | State::Closed, Event::WantRescind) =>
            Some((State::Rescinded, Action::SendRescind)),
        (
            State::Rescinded,
            Event::OpenSeen | Event::CloseSeen | Event::TeardownSeen | Event::ModifySeen { .. },
        ) => Some((State::Rescinded, Action::Nothing)),
        (State::Rescinded, Event::ReleaseSeen) => Some((State::Released, Action::Nothing)),
        _ => None,
    }
}
