//! A host's control by itself, against a guest made by hand.
use crate::check::check;
use crate::made::{empty_box, host_of};
use chan_state::{Event, State, StateFault};
use contact::{Part, Version};
use control_model::ControlFault;
use gpadl::{GpadlFault, to_messages};
use host_end::HostControl;
use mail_box::MailBox;
use std::process::Abort;
use vmbus_msg::Msg;

// Two disks, of which the second one is rescinded in the first phase.
const SCRIPT: &[u8] =
    b"contact 5.1 4.0\noffer disk a 64 0\noffer disk b 64 0\nready a\nrescind b after 0\n";

// A disk with a sub-channel and a heartbeat, which are both moved to other processors: where the host
// answers, and where it doesn't; and where nothing is moved.
const MOVED: &[u8] = b"contact 5.3 5.3\noffer disk a 64 1\noffer hb b\nmodify a 5\nmodify b 63\n";

const UNANSWERED: &[u8] = b"contact 5.3 5.2\noffer hb a\nmodify a 5\n";

const UNSUPPORTED: &[u8] = b"contact 5.3 4.0\noffer hb a\nmodify a 5\n";

// A network.
const NET: &[u8] = b"contact 5.2 5.2\noffer net n 020000000001 0200000000fe\nquery n 0x00010106\n";

// A network that is rescinded.
const NET_RESCINDED: &[u8] =
    b"contact 5.2 5.2\noffer net n 020000000001 0200000000fe\nquery n 0x00010106\nrescind n after 0\n";

const GPADL: u32 = 0xe1e10;

// What the tests tell messages by: the type, and then what it answers with, or relid or handle.
type Told = (u32, u32);

fn told(m: &Msg) -> Told {
    match m {
        Msg::OfferChannel { relid, .. } => (1, *relid),
        Msg::RescindChannelOffer { relid, .. } => (2, *relid),
        Msg::AllOffersDelivered { .. } => (4, 0),
        Msg::OpenChannelResult { relid, .. } => (6, *relid),
        Msg::GpadlCreated { gpadl, .. } => (10, *gpadl),
        Msg::GpadlTorndown { gpadl, .. } => (12, *gpadl),
        Msg::VersionResponse { supported, .. } => (15, *supported as u32),
        Msg::UnloadResponse { .. } => (17, 0),
        Msg::ModifyChannelResponse {
            relid,
            status: 0,
            ..
        } => (24, *relid),
        _ => (0, 0),
    }
}

// A message of the guest, by the fields that the tests give it.
#[derive(Clone, Copy)]
enum Said {
    Contact { version: u32 },
    Request,
    Open { relid: u32, gpadl: u32 },
    Close { relid: u32 },
    Teardown { relid: u32, gpadl: u32 },
    Release { relid: u32 },
    Unload,
    Unloaded,
    Modify { relid: u32, vp: u32 },
    Modified { relid: u32 },
}

fn message(said: Said) -> Msg {
    let padding = 0;
    match said {
        Said::Contact { version } => Msg::InitiateContact {
            padding,
            version,
            target_vcpu: 0,
            page: 0,
            monitor1: 0,
            monitor2: 0,
        },
        Said::Request => Msg::RequestOffers { padding },
        Said::Open { relid, gpadl } => Msg::OpenChannel {
            padding,
            relid,
            openid: relid,
            gpadl,
            target_vp: 0,
            downstream: 2,
            user: [0; 120],
        },
        Said::Close { relid } => Msg::CloseChannel { padding, relid },
        Said::Teardown { relid, gpadl } => Msg::GpadlTeardown {
            padding,
            relid,
            gpadl,
        },
        Said::Release { relid } => Msg::RelidReleased { padding, relid },
        Said::Unload => Msg::Unload { padding },
        Said::Unloaded => Msg::UnloadResponse { padding },
        Said::Modify { relid, vp } => Msg::ModifyChannel {
            padding,
            relid,
            target_vp: vp,
        },
        Said::Modified { relid } => Msg::ModifyChannelResponse {
            padding,
            relid,
            status: 0,
        },
    }
}

// What the host is given, or what is so then.
#[derive(Clone, Copy)]
enum Step {
    // It begins the next part, which is this one.
    Begin(Part),
    // It takes a message.
    Feed(Said),
    // It takes the messages of a list of so many pages, under this handle of this channel, and sends nothing before the last one.
    List {
        relid: u32,
        gpadl: u32,
        pages: usize,
    },
    // A message is refused so, and nothing comes of it.
    Refuse(Said, ControlFault),
    // The channel with this relid is so.
    IsAt(u32, Option<State>),
    // The part is done, or not.
    IsDone(bool),
    // All parts are done. So many messages were sent, and so many taken.
    Ended(usize, usize),
}

// These messages are in the box, and no other.
fn check_sent(rt: &impl Abort, mut post: MailBox, sends: &[Told]) {
    for want in sends {
        check(rt, post.take().as_ref().map(told) == Some(*want));
    }
    check(rt, post.take().is_none());
    drop(post);
}

fn begin(rt: &(impl Abort + AllocGlobal), host: &mut HostControl, part: Part, sends: &[Told]) {
    let Some(next) = host.next_part() else {
        panic!(rt; "no part is left");
    };
    check(rt, next == part);
    check(rt, host.part().is_none() || host.done());
    let mut post = empty_box(rt);
    check(rt, host.begin(next, &mut post).is_ok());
    check(rt, host.part() == Some(part));
    check_sent(rt, post, sends);
}

fn feed(rt: &(impl Abort + AllocGlobal), host: &mut HostControl, m: &Msg, sends: &[Told]) {
    let mut post = empty_box(rt);
    check(rt, host.feed(m, &mut post) == Ok(()));
    check_sent(rt, post, sends);
}

fn feed_list(
    rt: &(impl Abort + AllocGlobal),
    host: &mut HostControl,
    relid: u32,
    gpadl: u32,
    pages: usize,
    sends: &[Told],
) {
    let list = [7; 64];
    check(rt, 1 <= pages && pages <= 64);
    let Ok(messages) = to_messages(rt.alloc(), relid, gpadl, &list[..pages]) else {
        panic!(rt; "no messages");
    };
    let Some((last, front)) = messages.as_slice().split_last() else {
        panic!(rt; "an empty list of messages");
    };
    for m in front {
        feed(rt, host, m, &[]);
    }
    feed(rt, host, last, sends);
    drop(messages);
}

fn refuse(rt: &(impl Abort + AllocGlobal), host: &mut HostControl, m: &Msg, fault: ControlFault) {
    let mut post = empty_box(rt);
    let fed = host.fed().len();
    check(rt, host.feed(m, &mut post) == Err(fault));
    check(rt, host.fed().len() == fed);
    check_sent(rt, post, &[]);
}

fn take(rt: &(impl Abort + AllocGlobal), host: &mut HostControl, step: Step, sends: &[Told]) {
    match step {
        Step::Begin(part) => begin(rt, host, part, sends),
        Step::Feed(said) => feed(rt, host, &message(said), sends),
        Step::List {
            relid,
            gpadl,
            pages,
        } => feed_list(rt, host, relid, gpadl, pages, sends),
        Step::Refuse(said, fault) => refuse(rt, host, &message(said), fault),
        Step::IsAt(relid, state) => check(rt, host.state(relid) == state),
        Step::IsDone(done) => check(rt, host.done() == done),
        Step::Ended(posted, fed) => {
            check(rt, host.done() && host.next_part().is_none());
            check(rt, (host.posted().len(), host.fed().len()) == (posted, fed));
        }
    }
}

const STAY: &[(Step, &[Told])] = &[
    (Step::Begin(Part::Contact), &[]),
    (
        Step::Refuse(Said::Unloaded, ControlFault::Unasked { kind: 17 }),
        &[],
    ),
    (
        Step::Refuse(
            Said::Open {
                relid: 1,
                gpadl: GPADL,
            },
            ControlFault::Relid { value: 1 },
        ),
        &[],
    ),
    (Step::Feed(Said::Request), &[]),
    (Step::Feed(Said::Contact { version: 0x5_0001 }), &[(15, 0)]),
    (Step::Feed(Said::Contact { version: 0x4_0000 }), &[(15, 1)]),
    (Step::IsDone(false), &[]),
    (Step::Feed(Said::Request), &[(1, 1), (1, 2), (4, 0)]),
    (Step::IsDone(true), &[]),
    (Step::IsAt(2, Some(State::Offered)), &[]),
    (Step::IsAt(3, None), &[]),
    (Step::Begin(Part::PhaseStart(0)), &[]),
    (
        Step::List {
            relid: 1,
            gpadl: GPADL,
            pages: 4,
        },
        &[(10, GPADL)],
    ),
    (
        Step::Refuse(
            Said::Teardown { relid: 1, gpadl: 9 },
            ControlFault::Gpadl(GpadlFault::Handle { id: 9 }),
        ),
        &[],
    ),
    (
        Step::Feed(Said::Open {
            relid: 1,
            gpadl: GPADL,
        }),
        &[(6, 1)],
    ),
    (
        Step::List {
            relid: 2,
            gpadl: GPADL + 1,
            pages: 34,
        },
        &[(10, GPADL + 1)],
    ),
    (
        Step::Feed(Said::Open {
            relid: 2,
            gpadl: GPADL + 1,
        }),
        &[(6, 2)],
    ),
    (Step::IsDone(true), &[]),
    (Step::IsAt(2, Some(State::Opened)), &[]),
    (Step::Begin(Part::PhaseEnd(0)), &[]),
    (Step::Feed(Said::Close { relid: 1 }), &[]),
    (
        Step::Refuse(
            Said::Release { relid: 2 },
            ControlFault::State(StateFault {
                state: State::Opened,
                event: Event::ReleaseSeen,
            }),
        ),
        &[],
    ),
    (
        Step::Feed(Said::Teardown {
            relid: 1,
            gpadl: GPADL,
        }),
        &[(12, GPADL), (2, 2)],
    ),
    (Step::Feed(Said::Release { relid: 2 }), &[]),
    (Step::IsAt(2, Some(State::Released)), &[]),
    (Step::Begin(Part::Unload), &[]),
    (Step::Feed(Said::Unload), &[(17, 0)]),
    (Step::Ended(12, 13), &[]),
];

// Both channels are moved once all three are open. A message for another channel is an event of it,
// which is answered, and the host waits on.
const MOVE_BOTH: &[(Step, &[Told])] = &[
    (Step::Begin(Part::Contact), &[]),
    (
        Step::Refuse(
            Said::Modified { relid: 1 },
            ControlFault::Unasked { kind: 24 },
        ),
        &[],
    ),
    (Step::Feed(Said::Contact { version: 0x5_0003 }), &[(15, 1)]),
    (Step::Feed(Said::Request), &[(1, 1), (1, 2), (4, 0)]),
    (
        Step::Refuse(
            Said::Modify { relid: 1, vp: 5 },
            ControlFault::State(StateFault {
                state: State::Offered,
                event: Event::ModifySeen {
                    vp: 5,
                    answered: true,
                },
            }),
        ),
        &[],
    ),
    (Step::Begin(Part::PhaseStart(0)), &[]),
    (
        Step::List {
            relid: 1,
            gpadl: GPADL,
            pages: 4,
        },
        &[(10, GPADL)],
    ),
    (
        Step::Feed(Said::Open {
            relid: 1,
            gpadl: GPADL,
        }),
        &[(6, 1), (1, 3)],
    ),
    (
        Step::List {
            relid: 3,
            gpadl: GPADL + 1,
            pages: 4,
        },
        &[(10, GPADL + 1)],
    ),
    (
        Step::Feed(Said::Open {
            relid: 3,
            gpadl: GPADL + 1,
        }),
        &[(6, 3)],
    ),
    (
        Step::List {
            relid: 2,
            gpadl: GPADL + 2,
            pages: 4,
        },
        &[(10, GPADL + 2)],
    ),
    (
        Step::Feed(Said::Open {
            relid: 2,
            gpadl: GPADL + 2,
        }),
        &[(6, 2)],
    ),
    (Step::IsDone(false), &[]),
    (
        Step::Refuse(
            Said::Modify { relid: 9, vp: 5 },
            ControlFault::Relid { value: 9 },
        ),
        &[],
    ),
    (Step::Feed(Said::Modify { relid: 2, vp: 63 }), &[(24, 2)]),
    (Step::IsDone(false), &[]),
    (Step::Feed(Said::Modify { relid: 1, vp: 5 }), &[(24, 1)]),
    (Step::IsDone(false), &[]),
    (Step::Feed(Said::Modify { relid: 2, vp: 63 }), &[(24, 2)]),
    (Step::IsDone(true), &[]),
    (Step::Feed(Said::Modify { relid: 3, vp: 1 }), &[(24, 3)]),
    (Step::IsAt(3, Some(State::Opened)), &[]),
    (Step::Begin(Part::PhaseEnd(0)), &[]),
    (Step::Feed(Said::Close { relid: 3 }), &[]),
    (
        Step::Feed(Said::Teardown {
            relid: 3,
            gpadl: GPADL + 1,
        }),
        &[(12, GPADL + 1), (2, 3)],
    ),
    (Step::Feed(Said::Modify { relid: 3, vp: 1 }), &[]),
    (Step::Feed(Said::Release { relid: 3 }), &[]),
    (Step::Feed(Said::Close { relid: 1 }), &[]),
    (
        Step::Feed(Said::Teardown {
            relid: 1,
            gpadl: GPADL,
        }),
        &[(12, GPADL)],
    ),
    (Step::Feed(Said::Close { relid: 2 }), &[]),
    (
        Step::Feed(Said::Teardown {
            relid: 2,
            gpadl: GPADL + 2,
        }),
        &[(12, GPADL + 2)],
    ),
    (Step::IsAt(1, Some(State::Closed)), &[]),
    (Step::Begin(Part::Unload), &[]),
    (Step::Feed(Said::Unload), &[(17, 0)]),
    (Step::Ended(20, 21), &[]),
];

// A host takes these steps in turn; each sends the messages beside it.
fn take_each(rt: &(impl Abort + AllocGlobal), host: &mut HostControl, steps: &[(Step, &[Told])]) {
    for (step, sends) in steps {
        take(rt, host, *step, sends);
    }
}

// So does a host of a script, from its start on.
fn take_all(
    rt: &(impl Abort + AllocGlobal),
    script: &[u8],
    steps: &[(Step, &[Told])],
) -> HostControl {
    let mut host = host_of(rt, script);
    check(
        rt,
        host.part().is_none() && host.version().is_none() && !host.done(),
    );
    take_each(rt, &mut host, steps);
    host
}

// A host of one device offers it, and opens its channel.
const OPEN_ONE: &[(Step, &[Told])] = &[
    (Step::Feed(Said::Request), &[(1, 1), (4, 0)]),
    (Step::Begin(Part::PhaseStart(0)), &[]),
    (
        Step::List {
            relid: 1,
            gpadl: GPADL,
            pages: 4,
        },
        &[(10, GPADL)],
    ),
    (
        Step::Feed(Said::Open {
            relid: 1,
            gpadl: GPADL,
        }),
        &[(6, 1)],
    ),
];

fn opens_one(rt: &(impl Abort + AllocGlobal), script: &[u8], version: u32) -> HostControl {
    let mut host = take_all(rt, script, &[(Step::Begin(Part::Contact), &[])]);
    feed(
        rt,
        &mut host,
        &message(Said::Contact { version }),
        &[(15, 1)],
    );
    take_each(rt, &mut host, OPEN_ONE);
    host
}

// The page lists of a network's buffers come behind its channel's answer. One that is let go out of turn, and
// sent again, makes the channel go on nowhere.
const FILL: &[(Step, &[Told])] = &[
    (Step::Begin(Part::Contact), &[]),
    (Step::Feed(Said::Contact { version: 0x5_0002 }), &[(15, 1)]),
    (Step::Feed(Said::Request), &[(1, 1), (4, 0)]),
    (Step::Begin(Part::PhaseStart(0)), &[]),
    (
        Step::List {
            relid: 1,
            gpadl: GPADL,
            pages: 4,
        },
        &[(10, GPADL)],
    ),
    (
        Step::Feed(Said::Open {
            relid: 1,
            gpadl: GPADL,
        }),
        &[(6, 1)],
    ),
    (Step::IsDone(false), &[]),
    (
        Step::Refuse(
            Said::Teardown {
                relid: 1,
                gpadl: GPADL + 1,
            },
            ControlFault::Gpadl(GpadlFault::Handle { id: GPADL + 1 }),
        ),
        &[],
    ),
    (
        Step::List {
            relid: 1,
            gpadl: GPADL + 1,
            pages: 64,
        },
        &[(10, GPADL + 1)],
    ),
    (
        Step::Feed(Said::Teardown {
            relid: 1,
            gpadl: GPADL + 1,
        }),
        &[(12, GPADL + 1)],
    ),
    (Step::IsAt(1, Some(State::Opened)), &[]),
    (
        Step::List {
            relid: 1,
            gpadl: GPADL + 1,
            pages: 64,
        },
        &[(10, GPADL + 1)],
    ),
    (Step::IsDone(false), &[]),
    (
        Step::List {
            relid: 1,
            gpadl: GPADL + 2,
            pages: 64,
        },
        &[(10, GPADL + 2)],
    ),
    (Step::IsDone(true), &[]),
    (Step::Begin(Part::PhaseEnd(0)), &[]),
    (
        Step::Feed(Said::Teardown {
            relid: 1,
            gpadl: GPADL + 2,
        }),
        &[(12, GPADL + 2)],
    ),
    (
        Step::Refuse(
            Said::Teardown {
                relid: 1,
                gpadl: GPADL + 2,
            },
            ControlFault::Gpadl(GpadlFault::Handle { id: GPADL + 2 }),
        ),
        &[],
    ),
    (
        Step::Feed(Said::Teardown {
            relid: 1,
            gpadl: GPADL + 1,
        }),
        &[(12, GPADL + 1)],
    ),
    (Step::IsAt(1, Some(State::Opened)), &[]),
    (Step::Feed(Said::Close { relid: 1 }), &[]),
    (
        Step::Feed(Said::Teardown {
            relid: 1,
            gpadl: GPADL,
        }),
        &[(12, GPADL)],
    ),
    (Step::IsAt(1, Some(State::Closed)), &[]),
    (Step::IsDone(true), &[]),
    (Step::Begin(Part::Unload), &[]),
    (Step::Feed(Said::Unload), &[(17, 0)]),
    (Step::Ended(13, 19), &[]),
];

// The rescind of a network ends the page lists of its rings and of both its buffers: a guest that tears them down
// is told nothing, and each of the three handles is free for a new list.
const RESCIND_NET: &[(Step, &[Told])] = &[
    (Step::Begin(Part::Contact), &[]),
    (Step::Feed(Said::Contact { version: 0x5_0002 }), &[(15, 1)]),
    (Step::Feed(Said::Request), &[(1, 1), (4, 0)]),
    (Step::Begin(Part::PhaseStart(0)), &[]),
    (
        Step::List {
            relid: 1,
            gpadl: GPADL,
            pages: 4,
        },
        &[(10, GPADL)],
    ),
    (
        Step::Feed(Said::Open {
            relid: 1,
            gpadl: GPADL,
        }),
        &[(6, 1)],
    ),
    (
        Step::List {
            relid: 1,
            gpadl: GPADL + 1,
            pages: 64,
        },
        &[(10, GPADL + 1)],
    ),
    (
        Step::List {
            relid: 1,
            gpadl: GPADL + 2,
            pages: 64,
        },
        &[(10, GPADL + 2)],
    ),
    (Step::IsDone(true), &[]),
    (Step::Begin(Part::PhaseEnd(0)), &[(2, 1)]),
    (Step::IsAt(1, Some(State::Rescinded)), &[]),
    (
        Step::Feed(Said::Teardown {
            relid: 1,
            gpadl: GPADL + 2,
        }),
        &[],
    ),
    (
        Step::Feed(Said::Teardown {
            relid: 1,
            gpadl: GPADL + 1,
        }),
        &[],
    ),
    (
        Step::Feed(Said::Teardown {
            relid: 1,
            gpadl: GPADL,
        }),
        &[],
    ),
    (
        Step::List {
            relid: 1,
            gpadl: GPADL,
            pages: 4,
        },
        &[(10, GPADL)],
    ),
    (
        Step::List {
            relid: 1,
            gpadl: GPADL + 1,
            pages: 64,
        },
        &[(10, GPADL + 1)],
    ),
    (
        Step::List {
            relid: 1,
            gpadl: GPADL + 2,
            pages: 64,
        },
        &[(10, GPADL + 2)],
    ),
    (Step::IsAt(1, Some(State::Rescinded)), &[]),
    (Step::IsDone(false), &[]),
    (Step::Feed(Said::Release { relid: 1 }), &[]),
    (Step::IsAt(1, Some(State::Released)), &[]),
    (Step::IsDone(true), &[]),
];

#[test]
fn buffers_have_lists(rt: HostRuntime) {
    drop(take_all(&rt, NET, FILL));
}

#[test]
fn a_rescind_ends_a_networks_lists(rt: HostRuntime) {
    drop(take_all(&rt, NET_RESCINDED, RESCIND_NET));
}

#[test]
fn host_stay(rt: HostRuntime) {
    let host = take_all(&rt, SCRIPT, STAY);
    check(&rt, host.version() == Some(Version(0x4_0000)));
    drop(host);
}

#[test]
fn channels_are_moved(rt: HostRuntime) {
    let host = take_all(&rt, MOVED, MOVE_BOTH);
    check(&rt, host.version() == Some(Version(0x5_0003)));
    drop(host);
}

// Below 5.3 the host waits for the message and doesn't answer it, and below 4.1 it waits for none.
#[test]
fn moves_by_version(rt: HostRuntime) {
    let mut unanswered = opens_one(&rt, UNANSWERED, 0x5_0002);
    check(&rt, !unanswered.done());
    take(
        &rt,
        &mut unanswered,
        Step::Feed(Said::Modify { relid: 1, vp: 5 }),
        &[],
    );
    check(&rt, unanswered.done());
    drop(unanswered);
    let unsupported = opens_one(&rt, UNSUPPORTED, 0x4_0000);
    check(&rt, unsupported.done());
    drop(unsupported);
}
