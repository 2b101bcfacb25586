//! Two lives of a channel, and refusals.
use crate::check::check;
use chan_state::{Action, ChanState, Event, State, StateFault};
use io_edge::Side;

// Takes the channel through the events, each with the state after it and what is to be done.
fn live(rt: &impl std::process::Abort, side: Side, life: &[(Event, State, Action)]) {
    let mut channel = ChanState::make(side);
    check(rt, channel.state() == State::Offered);
    for &(event, after, action) in life {
        check(rt, channel.event(event) == Ok(action));
        check(rt, channel.state() == after);
    }
}

#[test]
fn lives(rt: HostRuntime) {
    let open = (Event::WantOpen, State::Opening, Action::SendOpen);
    let opened = (
        Event::ResultSeen { status: 0 },
        State::Opened,
        Action::StartRings,
    );
    let close = (Event::WantClose, State::Closing, Action::SendClose);
    let closed = (Event::TorndownSeen, State::Closed, Action::EndRings);
    let rescinded = (Event::RescindSeen, State::Rescinded, Action::Settle);
    let release = (Event::WantRelease, State::Released, Action::SendRelease);
    let failed = (
        Event::ResultSeen { status: 7 },
        State::Offered,
        Action::Nothing,
    );
    live(
        &rt,
        Side::Guest,
        &[
            open, opened, close, closed, open, opened, rescinded, release,
        ],
    );
    live(&rt, Side::Guest, &[open, failed, open, rescinded, release]);
    live(&rt, Side::Guest, &[open, opened, close, rescinded]);
    live(&rt, Side::Guest, &[open, opened, close, closed, rescinded]);
    live(&rt, Side::Guest, &[rescinded]);

    let open = (Event::OpenSeen, State::Opened, Action::SendResult);
    let close = (Event::CloseSeen, State::Closing, Action::Nothing);
    let closed = (Event::TeardownSeen, State::Closed, Action::SendTorndown);
    let rescind = (Event::WantRescind, State::Rescinded, Action::SendRescind);
    let late_open = (Event::OpenSeen, State::Rescinded, Action::Nothing);
    let late_close = (Event::CloseSeen, State::Rescinded, Action::Nothing);
    let late_teardown = (Event::TeardownSeen, State::Rescinded, Action::Nothing);
    let released = (Event::ReleaseSeen, State::Released, Action::Nothing);
    live(
        &rt,
        Side::Host,
        &[
            open,
            close,
            closed,
            open,
            rescind,
            late_close,
            late_teardown,
            released,
        ],
    );
    live(&rt, Side::Host, &[rescind, late_open, released]);
    live(&rt, Side::Host, &[open, close, rescind]);
    live(&rt, Side::Host, &[open, close, closed, rescind]);
}

#[test]
fn modifies(rt: HostRuntime) {
    let open = (Event::WantOpen, State::Opening, Action::SendOpen);
    let opened = (
        Event::ResultSeen { status: 0 },
        State::Opened,
        Action::StartRings,
    );
    let moving = (
        Event::WantModify {
            vp: 3,
            answered: true,
        },
        State::Modifying,
        Action::SendModify,
    );
    let moved = (Event::ModifiedSeen, State::Opened, Action::Nothing);
    let unanswered = (
        Event::WantModify {
            vp: 5,
            answered: false,
        },
        State::Opened,
        Action::SendModify,
    );
    let close = (Event::WantClose, State::Closing, Action::SendClose);
    let rescinded = (Event::RescindSeen, State::Rescinded, Action::Settle);
    let late = (Event::ModifiedSeen, State::Rescinded, Action::Nothing);
    live(
        &rt,
        Side::Guest,
        &[
            open, opened, moving, moved, unanswered, moving, moved, close,
        ],
    );
    live(
        &rt,
        Side::Guest,
        &[open, opened, moving, rescinded, late, late],
    );

    let open = (Event::OpenSeen, State::Opened, Action::SendResult);
    let answers = (
        Event::ModifySeen {
            vp: 3,
            answered: true,
        },
        State::Opened,
        Action::SendModified,
    );
    let silent = (
        Event::ModifySeen {
            vp: 63,
            answered: false,
        },
        State::Opened,
        Action::Nothing,
    );
    let rescind = (Event::WantRescind, State::Rescinded, Action::SendRescind);
    let late = (
        Event::ModifySeen {
            vp: 1,
            answered: true,
        },
        State::Rescinded,
        Action::Nothing,
    );
    live(
        &rt,
        Side::Host,
        &[open, answers, silent, answers, rescind, late],
    );
}

// The processor of a channel after each of these events: it is taken, or it is refused.
fn processors(rt: &impl std::process::Abort, side: Side, events: &[(Event, bool, u32)]) {
    let mut channel = ChanState::make(side);
    check(rt, channel.vp() == 0);
    for &(event, taken, vp) in events {
        check(rt, channel.event(event).is_ok() == taken);
        check(rt, channel.vp() == vp);
    }
}

#[test]
fn processor(rt: HostRuntime) {
    let want = |vp, answered| Event::WantModify { vp, answered };
    let seen = |vp, answered| Event::ModifySeen { vp, answered };
    processors(
        &rt,
        Side::Guest,
        &[
            (want(1, true), false, 0),
            (Event::WantOpen, true, 0),
            (want(1, false), false, 0),
            (Event::ResultSeen { status: 0 }, true, 0),
            (seen(2, true), false, 0),
            (want(3, true), true, 3),
            (want(4, true), false, 3),
            (Event::WantClose, false, 3),
            (Event::ModifiedSeen, true, 3),
            (want(5, false), true, 5),
            (Event::ModifiedSeen, false, 5),
            (Event::WantClose, true, 5),
            (Event::TorndownSeen, true, 5),
            (Event::WantOpen, true, 5),
        ],
    );
    processors(
        &rt,
        Side::Host,
        &[
            (seen(1, true), false, 0),
            (Event::OpenSeen, true, 0),
            (seen(2, true), true, 2),
            (want(3, true), false, 2),
            (seen(4, false), true, 4),
            (Event::CloseSeen, true, 4),
            (seen(5, false), false, 4),
            (Event::WantRescind, true, 4),
            (seen(6, true), true, 6),
        ],
    );
}

#[test]
fn refusals(rt: HostRuntime) {
    let mut guest = ChanState::make(Side::Guest);
    for event in [
        Event::OpenSeen,
        Event::ResultSeen { status: 0 },
        Event::WantClose,
        Event::WantRescind,
    ] {
        check(
            &rt,
            guest.event(event)
                == Err(StateFault {
                    state: State::Offered,
                    event,
                }),
        );
        check(&rt, guest.state() == State::Offered);
    }
    let mut host = ChanState::make(Side::Host);
    check(&rt, host.event(Event::OpenSeen) == Ok(Action::SendResult));
    for event in [
        Event::OpenSeen,
        Event::TeardownSeen,
        Event::ReleaseSeen,
        Event::RescindSeen,
    ] {
        check(
            &rt,
            host.event(event)
                == Err(StateFault {
                    state: State::Opened,
                    event,
                }),
        );
        check(&rt, host.state() == State::Opened);
    }
}
