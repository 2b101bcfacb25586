//! A whole stay on the bus against a host made by hand, and refusals.
use crate::check::check;
use crate::made::{empty_box, guest_of};
use chan_state::{Event, State, StateFault};
use contact::{Kind, Part, Version, offer};
use control_model::ControlFault;
use gpadl::GpadlFault;
use guest_end::GuestControl;
use mail_box::MailBox;
use std::process::Abort;
use vmbus_msg::Msg;

// Two heartbeat devices in the first phase, of which one is closed in it, and the other one in the
// second.
const SCRIPT: &[u8] =
    b"contact 5.1 4.0\noffer hb a\noffer shutdown b\nring b 16\nbeat a 1\nclose a\ndown b 0\nphase\ndown b 0\n";

// Two disks, of which the first one, or the second one, is rescinded, and the other one closed.
const FIRST_RESCINDED: &[u8] =
    b"contact 5.2 5.2\noffer disk a 64 0\noffer disk b 64 0\nrescind a after 0\nready b\n";

const SECOND_RESCINDED: &[u8] =
    b"contact 5.2 5.2\noffer disk a 64 0\noffer disk b 64 0\nready a\nrescind b after 0\n";

// A disk with a sub-channel and a heartbeat, which are both moved to other processors.
const MOVED: &[u8] =
    b"contact 5.3 5.3\noffer disk a 64 1\noffer hb b\nmodify a 5\nmodify b 63\nclose b\n";

// Two disks that are moved: with a host that answers, and where none does or none is asked.
const ANSWERED: &[u8] =
    b"contact 5.3 5.3\noffer disk a 64 0\noffer disk b 64 0\nmodify b 3\nmodify a 0\nrescind a after 0\n";

const UNANSWERED: &[u8] =
    b"contact 5.2 5.3\noffer disk a 64 0\noffer disk b 64 0\nmodify a 0\nmodify b 3\n";

const FIRST_TOLD: &[u8] =
    b"contact 4.1 5.3\noffer disk a 64 0\noffer disk b 64 0\nmodify a 0\nmodify b 3\n";

const UNSUPPORTED: &[u8] =
    b"contact 4.0 5.3\noffer disk a 64 0\noffer disk b 64 0\nmodify a 0\nmodify b 3\n";

// A network.
const NET: &[u8] = b"contact 5.2 5.2\noffer net n 020000000001 0200000000fe\nquery n 0x00010106\n";

// A network that is rescinded.
const NET_RESCINDED: &[u8] =
    b"contact 5.2 5.2\noffer net n 020000000001 0200000000fe\nquery n 0x00010106\nrescind n after 0\n";

// What the tests tell messages by: the type, and then relid or version, handle or processor, and the ring
// to the guest or the number of frames.
type Told = (u32, u32, u32, u32);

fn told(m: &Msg) -> Told {
    match m {
        Msg::RequestOffers { .. } => (3, 0, 0, 0),
        Msg::OpenChannel {
            relid,
            gpadl,
            downstream,
            ..
        } => (5, *relid, *gpadl, *downstream),
        Msg::CloseChannel { relid, .. } => (7, *relid, 0, 0),
        Msg::GpadlHeader(h) => (8, h.relid, h.gpadl, h.frames.len() as u32),
        Msg::GpadlBody(b) => (9, b.msgnumber, b.gpadl, b.frames.len() as u32),
        Msg::GpadlTeardown { relid, gpadl, .. } => (11, *relid, *gpadl, 0),
        Msg::RelidReleased { relid, .. } => (13, *relid, 0, 0),
        Msg::InitiateContact { version, .. } => (14, *version, 0, 0),
        Msg::Unload { .. } => (16, 0, 0, 0),
        Msg::ModifyChannel {
            relid,
            target_vp,
            ..
        } => (22, *relid, *target_vp, 0),
        _ => (0, 0, 0, 0),
    }
}

// The first page of a list's message.
fn first_page(m: &Msg) -> Option<u64> {
    match m {
        Msg::GpadlHeader(h) => h.frames.as_slice().first().copied(),
        Msg::GpadlBody(b) => b.frames.as_slice().first().copied(),
        _ => None,
    }
}

// A message of the host, by the fields that the tests give it.
#[derive(Clone, Copy)]
enum Said {
    Response { supported: u8 },
    Offer { kind: Kind, relid: u32, sub: u16 },
    Delivered,
    Created { relid: u32, gpadl: u32 },
    Opened { relid: u32, status: u32 },
    Torndown { gpadl: u32 },
    Rescind { relid: u32 },
    Unloaded,
    Close { relid: u32 },
    Modify { relid: u32 },
    Modified { relid: u32 },
}

fn message(said: Said) -> Msg {
    let padding = 0;
    match said {
        Said::Response { supported } => Msg::VersionResponse {
            padding,
            supported,
            state: 0,
            padding2: 0,
            conn: 1,
        },
        Said::Offer { kind, relid, sub } => offer(kind, relid, sub),
        Said::Delivered => Msg::AllOffersDelivered { padding },
        Said::Created { relid, gpadl } => Msg::GpadlCreated {
            padding,
            relid,
            gpadl,
            status: 0,
        },
        Said::Opened { relid, status } => Msg::OpenChannelResult {
            padding,
            relid,
            openid: relid,
            status,
        },
        Said::Torndown { gpadl } => Msg::GpadlTorndown { padding, gpadl },
        Said::Rescind { relid } => Msg::RescindChannelOffer { padding, relid },
        Said::Unloaded => Msg::UnloadResponse { padding },
        Said::Close { relid } => Msg::CloseChannel { padding, relid },
        Said::Modify { relid } => Msg::ModifyChannel {
            padding,
            relid,
            target_vp: 1,
        },
        Said::Modified { relid } => Msg::ModifyChannelResponse {
            padding,
            relid,
            status: 0,
        },
    }
}

// What the guest is given, or what is so then.
#[derive(Clone, Copy)]
enum Step {
    // It begins the next part, which is this one.
    Begin(Part),
    // It takes a message.
    Feed(Said),
    // A message is refused so, and nothing comes of it.
    Refuse(Said, ControlFault),
    // The channel with this relid is so.
    IsAt(u32, Option<State>),
    // The part is done, or not.
    IsDone(bool),
    // This version is agreed.
    Agreed(u32),
    // The list's message that was sent last begins with this page.
    FirstPage(u64),
    // All parts are done. So many messages were sent, and so many taken.
    Ended(usize, usize),
    // So many messages were taken.
    Taken(usize),
}

// These messages are in the box, and no other.
fn check_sent(rt: &impl Abort, mut post: MailBox, sends: &[Told]) {
    for want in sends {
        check(rt, post.take().as_ref().map(told) == Some(*want));
    }
    check(rt, post.take().is_none());
    drop(post);
}

fn begin(rt: &(impl Abort + AllocGlobal), guest: &mut GuestControl, part: Part, sends: &[Told]) {
    let Some(next) = guest.next_part() else {
        panic!(rt; "no part is left");
    };
    check(rt, next == part);
    check(rt, guest.part().is_none() || guest.done());
    let mut post = empty_box(rt);
    check(rt, guest.begin(next, &mut post).is_ok());
    check(rt, guest.part() == Some(part));
    check_sent(rt, post, sends);
}

fn feed(rt: &(impl Abort + AllocGlobal), guest: &mut GuestControl, m: &Msg, sends: &[Told]) {
    let mut post = empty_box(rt);
    check(rt, guest.feed(m, &mut post) == Ok(()));
    check_sent(rt, post, sends);
}

fn refuse(rt: &(impl Abort + AllocGlobal), guest: &mut GuestControl, m: &Msg, fault: ControlFault) {
    let mut post = empty_box(rt);
    let fed = guest.fed().len();
    check(rt, guest.feed(m, &mut post) == Err(fault));
    check(rt, guest.fed().len() == fed);
    check_sent(rt, post, &[]);
}

fn take(rt: &(impl Abort + AllocGlobal), guest: &mut GuestControl, step: Step, sends: &[Told]) {
    match step {
        Step::Begin(part) => begin(rt, guest, part, sends),
        Step::Feed(said) => feed(rt, guest, &message(said), sends),
        Step::Refuse(said, fault) => refuse(rt, guest, &message(said), fault),
        Step::IsAt(relid, state) => check(rt, guest.state(relid) == state),
        Step::IsDone(done) => check(rt, guest.done() == done),
        Step::Agreed(version) => check(rt, guest.version() == Some(Version(version))),
        Step::FirstPage(page) => {
            check(rt, guest.posted().last().and_then(first_page) == Some(page));
        }
        Step::Ended(posted, fed) => {
            check(rt, guest.done() && guest.next_part().is_none());
            check(
                rt,
                (guest.posted().len(), guest.fed().len()) == (posted, fed),
            );
        }
        Step::Taken(fed) => check(rt, guest.fed().len() == fed),
    }
}

// A guest takes these steps in turn; each sends the messages beside it.
fn take_each(rt: &(impl Abort + AllocGlobal), guest: &mut GuestControl, steps: &[(Step, &[Told])]) {
    for (step, sends) in steps {
        take(rt, guest, *step, sends);
    }
}

// So does a guest of a script, from its start on.
fn take_all(rt: &(impl Abort + AllocGlobal), script: &[u8], steps: &[(Step, &[Told])]) {
    let mut guest = guest_of(rt, script);
    check(
        rt,
        guest.part().is_none() && guest.version().is_none() && !guest.done(),
    );
    take_each(rt, &mut guest, steps);
    drop(guest);
}

const GPADL: u32 = 0xe1e10;

const STAY: &[(Step, &[Told])] = &[
    (Step::Begin(Part::Contact), &[(14, 0x5_0001, 0, 0)]),
    (
        Step::Feed(Said::Response { supported: 0 }),
        &[(14, 0x5_0000, 0, 0)],
    ),
    (
        Step::Feed(Said::Response { supported: 0 }),
        &[(14, 0x4_0001, 0, 0)],
    ),
    (
        Step::Feed(Said::Response { supported: 0 }),
        &[(14, 0x4_0000, 0, 0)],
    ),
    (Step::Feed(Said::Response { supported: 1 }), &[(3, 0, 0, 0)]),
    (Step::Agreed(0x4_0000), &[]),
    (
        Step::Feed(Said::Offer {
            kind: Kind::Beat,
            relid: 1,
            sub: 0,
        }),
        &[],
    ),
    (
        Step::Feed(Said::Offer {
            kind: Kind::Down,
            relid: 2,
            sub: 0,
        }),
        &[],
    ),
    (Step::IsDone(false), &[]),
    (Step::Feed(Said::Delivered), &[]),
    (Step::IsDone(true), &[]),
    (Step::IsAt(2, Some(State::Offered)), &[]),
    (Step::IsAt(3, None), &[]),
    (Step::Begin(Part::PhaseStart(0)), &[(8, 1, GPADL, 4)]),
    (
        Step::Feed(Said::Created {
            relid: 1,
            gpadl: GPADL,
        }),
        &[(5, 1, GPADL, 2)],
    ),
    (Step::IsAt(1, Some(State::Opening)), &[]),
    (
        Step::Feed(Said::Opened {
            relid: 1,
            status: 0,
        }),
        &[(8, 2, GPADL + 1, 26), (9, 0, GPADL + 1, 8)],
    ),
    (Step::FirstPage(30), &[]),
    (
        Step::Feed(Said::Created {
            relid: 2,
            gpadl: GPADL + 1,
        }),
        &[(5, 2, GPADL + 1, 17)],
    ),
    (Step::IsDone(false), &[]),
    (
        Step::Feed(Said::Opened {
            relid: 2,
            status: 0,
        }),
        &[],
    ),
    (Step::IsDone(true), &[]),
    (Step::IsAt(2, Some(State::Opened)), &[]),
    (
        Step::Begin(Part::PhaseEnd(0)),
        &[(7, 1, 0, 0), (11, 1, GPADL, 0)],
    ),
    (
        Step::Feed(Said::Torndown { gpadl: GPADL }),
        &[(7, 2, 0, 0), (11, 2, GPADL + 1, 0)],
    ),
    (Step::IsAt(2, Some(State::Closing)), &[]),
    (Step::Feed(Said::Torndown { gpadl: GPADL + 1 }), &[]),
    (Step::IsAt(1, Some(State::Closed)), &[]),
    (
        Step::Begin(Part::PhaseStart(1)),
        &[(8, 2, GPADL + 2, 26), (9, 0, GPADL + 2, 8)],
    ),
    (Step::FirstPage(64), &[]),
    (
        Step::Feed(Said::Created {
            relid: 2,
            gpadl: GPADL + 2,
        }),
        &[(5, 2, GPADL + 2, 17)],
    ),
    (
        Step::Feed(Said::Opened {
            relid: 2,
            status: 0,
        }),
        &[],
    ),
    (
        Step::Begin(Part::PhaseEnd(1)),
        &[(7, 2, 0, 0), (11, 2, GPADL + 2, 0)],
    ),
    (Step::Feed(Said::Torndown { gpadl: GPADL + 2 }), &[]),
    (Step::Begin(Part::Unload), &[(16, 0, 0, 0)]),
    (Step::Feed(Said::Unloaded), &[]),
    (Step::Ended(20, 17), &[]),
];

const REFUSALS: &[(Step, &[Told])] = &[
    (Step::Begin(Part::Contact), &[(14, 0x5_0001, 0, 0)]),
    (
        Step::Refuse(Said::Close { relid: 9 }, ControlFault::Unasked { kind: 7 }),
        &[],
    ),
    (
        Step::Refuse(
            Said::Created { relid: 9, gpadl: 1 },
            ControlFault::Relid { value: 9 },
        ),
        &[],
    ),
    (
        Step::Refuse(
            Said::Torndown { gpadl: GPADL },
            ControlFault::Gpadl(GpadlFault::Handle { id: GPADL }),
        ),
        &[],
    ),
    (Step::Feed(Said::Response { supported: 7 }), &[]),
    (Step::Feed(Said::Delivered), &[]),
    (
        Step::Feed(Said::Offer {
            kind: Kind::Beat,
            relid: 1,
            sub: 0,
        }),
        &[],
    ),
    (Step::IsAt(1, None), &[]),
    (Step::Feed(Said::Response { supported: 1 }), &[(3, 0, 0, 0)]),
    (
        Step::Feed(Said::Offer {
            kind: Kind::Down,
            relid: 1,
            sub: 0,
        }),
        &[],
    ),
    (Step::IsAt(1, None), &[]),
    (
        Step::Feed(Said::Offer {
            kind: Kind::Beat,
            relid: 2,
            sub: 0,
        }),
        &[],
    ),
    (Step::IsAt(1, None), &[]),
    (
        Step::Feed(Said::Offer {
            kind: Kind::Beat,
            relid: 1,
            sub: 1,
        }),
        &[],
    ),
    (Step::IsAt(1, None), &[]),
    (Step::Feed(Said::Delivered), &[]),
    (Step::IsAt(1, None), &[]),
    (
        Step::Feed(Said::Offer {
            kind: Kind::Beat,
            relid: 1,
            sub: 0,
        }),
        &[],
    ),
    (
        Step::Refuse(
            Said::Opened {
                relid: 1,
                status: 0,
            },
            ControlFault::State(StateFault {
                state: State::Offered,
                event: Event::ResultSeen { status: 0 },
            }),
        ),
        &[],
    ),
    (Step::Feed(Said::Rescind { relid: 1 }), &[(13, 1, 0, 0)]),
    (Step::IsAt(1, Some(State::Released)), &[]),
    (Step::Taken(10), &[]),
];

// The guest waits for the first channel to be rescinded, gives it back, and closes the second one.
const RESCIND_FIRST: &[(Step, &[Told])] = &[
    (Step::Begin(Part::Contact), &[(14, 0x5_0002, 0, 0)]),
    (Step::Feed(Said::Response { supported: 1 }), &[(3, 0, 0, 0)]),
    (
        Step::Feed(Said::Offer {
            kind: Kind::Disk,
            relid: 1,
            sub: 0,
        }),
        &[],
    ),
    (
        Step::Feed(Said::Offer {
            kind: Kind::Disk,
            relid: 2,
            sub: 0,
        }),
        &[],
    ),
    (Step::Feed(Said::Delivered), &[]),
    (Step::Begin(Part::PhaseStart(0)), &[(8, 1, GPADL, 4)]),
    (
        Step::Feed(Said::Created {
            relid: 1,
            gpadl: GPADL,
        }),
        &[(5, 1, GPADL, 2)],
    ),
    (
        Step::Feed(Said::Opened {
            relid: 1,
            status: 0,
        }),
        &[(8, 2, GPADL + 1, 4)],
    ),
    (
        Step::Feed(Said::Created {
            relid: 2,
            gpadl: GPADL + 1,
        }),
        &[(5, 2, GPADL + 1, 2)],
    ),
    (
        Step::Feed(Said::Opened {
            relid: 2,
            status: 0,
        }),
        &[],
    ),
    (Step::Begin(Part::PhaseEnd(0)), &[]),
    (Step::IsDone(false), &[]),
    (
        Step::Feed(Said::Rescind { relid: 1 }),
        &[(13, 1, 0, 0), (7, 2, 0, 0), (11, 2, GPADL + 1, 0)],
    ),
    (Step::IsAt(1, Some(State::Released)), &[]),
    (Step::Feed(Said::Torndown { gpadl: GPADL + 1 }), &[]),
    (Step::IsAt(2, Some(State::Closed)), &[]),
    (Step::IsDone(true), &[]),
    (
        Step::Refuse(
            Said::Rescind { relid: 1 },
            ControlFault::State(StateFault {
                state: State::Released,
                event: Event::RescindSeen,
            }),
        ),
        &[],
    ),
];

// The guest closes the first channel, waits for the second one to be rescinded, and gives it back.
const RESCIND_SECOND: &[(Step, &[Told])] = &[
    (Step::Begin(Part::Contact), &[(14, 0x5_0002, 0, 0)]),
    (Step::Feed(Said::Response { supported: 1 }), &[(3, 0, 0, 0)]),
    (
        Step::Feed(Said::Offer {
            kind: Kind::Disk,
            relid: 1,
            sub: 0,
        }),
        &[],
    ),
    (
        Step::Feed(Said::Offer {
            kind: Kind::Disk,
            relid: 2,
            sub: 0,
        }),
        &[],
    ),
    (Step::Feed(Said::Delivered), &[]),
    (Step::Begin(Part::PhaseStart(0)), &[(8, 1, GPADL, 4)]),
    (
        Step::Feed(Said::Created {
            relid: 1,
            gpadl: GPADL,
        }),
        &[(5, 1, GPADL, 2)],
    ),
    (
        Step::Feed(Said::Opened {
            relid: 1,
            status: 0,
        }),
        &[(8, 2, GPADL + 1, 4)],
    ),
    (
        Step::Feed(Said::Created {
            relid: 2,
            gpadl: GPADL + 1,
        }),
        &[(5, 2, GPADL + 1, 2)],
    ),
    (
        Step::Feed(Said::Opened {
            relid: 2,
            status: 0,
        }),
        &[],
    ),
    (
        Step::Begin(Part::PhaseEnd(0)),
        &[(7, 1, 0, 0), (11, 1, GPADL, 0)],
    ),
    (Step::Feed(Said::Torndown { gpadl: GPADL }), &[]),
    (Step::IsDone(false), &[]),
    (Step::Feed(Said::Rescind { relid: 2 }), &[(13, 2, 0, 0)]),
    (Step::IsAt(1, Some(State::Closed)), &[]),
    (Step::IsAt(2, Some(State::Released)), &[]),
    (Step::IsDone(true), &[]),
];

// Both channels are moved once all three are open, and their answers come in the other order. A
// sub-channel isn't moved. What isn't awaited is refused as its channel's life says.
const MOVE_BOTH: &[(Step, &[Told])] = &[
    (Step::Begin(Part::Contact), &[(14, 0x5_0003, 0, 0)]),
    (Step::Feed(Said::Response { supported: 1 }), &[(3, 0, 0, 0)]),
    (
        Step::Feed(Said::Offer {
            kind: Kind::Disk,
            relid: 1,
            sub: 0,
        }),
        &[],
    ),
    (
        Step::Feed(Said::Offer {
            kind: Kind::Beat,
            relid: 2,
            sub: 0,
        }),
        &[],
    ),
    (Step::Feed(Said::Delivered), &[]),
    (Step::Begin(Part::PhaseStart(0)), &[(8, 1, GPADL, 4)]),
    (
        Step::Feed(Said::Created {
            relid: 1,
            gpadl: GPADL,
        }),
        &[(5, 1, GPADL, 2)],
    ),
    (
        Step::Feed(Said::Opened {
            relid: 1,
            status: 0,
        }),
        &[],
    ),
    (
        Step::Feed(Said::Offer {
            kind: Kind::Disk,
            relid: 3,
            sub: 1,
        }),
        &[(8, 3, GPADL + 1, 4)],
    ),
    (
        Step::Feed(Said::Created {
            relid: 3,
            gpadl: GPADL + 1,
        }),
        &[(5, 3, GPADL + 1, 2)],
    ),
    (
        Step::Feed(Said::Opened {
            relid: 3,
            status: 0,
        }),
        &[(8, 2, GPADL + 2, 4)],
    ),
    (
        Step::Feed(Said::Created {
            relid: 2,
            gpadl: GPADL + 2,
        }),
        &[(5, 2, GPADL + 2, 2)],
    ),
    (
        Step::Feed(Said::Opened {
            relid: 2,
            status: 0,
        }),
        &[(22, 1, 5, 0), (22, 2, 63, 0)],
    ),
    (Step::IsDone(false), &[]),
    (Step::IsAt(1, Some(State::Modifying)), &[]),
    (
        Step::Refuse(
            Said::Modified { relid: 9 },
            ControlFault::Relid { value: 9 },
        ),
        &[],
    ),
    (
        Step::Refuse(
            Said::Modified { relid: 3 },
            ControlFault::State(StateFault {
                state: State::Opened,
                event: Event::ModifiedSeen,
            }),
        ),
        &[],
    ),
    (
        Step::Refuse(
            Said::Modify { relid: 1 },
            ControlFault::Unasked { kind: 22 },
        ),
        &[],
    ),
    (Step::Feed(Said::Modified { relid: 2 }), &[]),
    (Step::IsAt(2, Some(State::Opened)), &[]),
    (Step::IsDone(false), &[]),
    (Step::Feed(Said::Modified { relid: 1 }), &[]),
    (Step::IsDone(true), &[]),
    (
        Step::Refuse(
            Said::Modified { relid: 1 },
            ControlFault::State(StateFault {
                state: State::Opened,
                event: Event::ModifiedSeen,
            }),
        ),
        &[],
    ),
    (
        Step::Begin(Part::PhaseEnd(0)),
        &[(7, 3, 0, 0), (11, 3, GPADL + 1, 0)],
    ),
    (Step::Feed(Said::Torndown { gpadl: GPADL + 1 }), &[]),
    (
        Step::Feed(Said::Rescind { relid: 3 }),
        &[(13, 3, 0, 0), (7, 1, 0, 0), (11, 1, GPADL, 0)],
    ),
    (
        Step::Feed(Said::Torndown { gpadl: GPADL }),
        &[(7, 2, 0, 0), (11, 2, GPADL + 2, 0)],
    ),
    (Step::Feed(Said::Torndown { gpadl: GPADL + 2 }), &[]),
    (Step::IsAt(2, Some(State::Closed)), &[]),
    (Step::Begin(Part::Unload), &[(16, 0, 0, 0)]),
    (Step::Feed(Said::Unloaded), &[]),
    (Step::Ended(18, 18), &[]),
];

// The version is accepted, and both channels are opened but for the last answer.
const OPEN_BOTH: &[(Step, &[Told])] = &[
    (Step::Feed(Said::Response { supported: 1 }), &[(3, 0, 0, 0)]),
    (
        Step::Feed(Said::Offer {
            kind: Kind::Disk,
            relid: 1,
            sub: 0,
        }),
        &[],
    ),
    (
        Step::Feed(Said::Offer {
            kind: Kind::Disk,
            relid: 2,
            sub: 0,
        }),
        &[],
    ),
    (Step::Feed(Said::Delivered), &[]),
    (Step::Begin(Part::PhaseStart(0)), &[(8, 1, GPADL, 4)]),
    (
        Step::Feed(Said::Created {
            relid: 1,
            gpadl: GPADL,
        }),
        &[(5, 1, GPADL, 2)],
    ),
    (
        Step::Feed(Said::Opened {
            relid: 1,
            status: 0,
        }),
        &[(8, 2, GPADL + 1, 4)],
    ),
    (
        Step::Feed(Said::Created {
            relid: 2,
            gpadl: GPADL + 1,
        }),
        &[(5, 2, GPADL + 1, 2)],
    ),
];

// A guest of two disks, the first of which is moved to processor 0 and the second one to 3, up to the
// last answer before it moves them.
fn opens_both(rt: &(impl Abort + AllocGlobal), script: &[u8], version: u32) -> GuestControl {
    let mut guest = guest_of(rt, script);
    begin(rt, &mut guest, Part::Contact, &[(14, version, 0, 0)]);
    take_each(rt, &mut guest, OPEN_BOTH);
    guest
}

// The last channel is open now.
const LAST_OPEN: Step = Step::Feed(Said::Opened {
    relid: 2,
    status: 0,
});

const BOTH_MOVED: &[Told] = &[(22, 1, 0, 0), (22, 2, 3, 0)];

// A channel is rescinded before its answer comes: no answer is awaited then, and none is taken.
const RESCIND_MOVED: &[(Step, &[Told])] = &[
    (LAST_OPEN, BOTH_MOVED),
    (Step::Feed(Said::Rescind { relid: 1 }), &[(13, 1, 0, 0)]),
    (Step::IsAt(1, Some(State::Released)), &[]),
    (Step::IsDone(false), &[]),
    (
        Step::Refuse(
            Said::Modified { relid: 1 },
            ControlFault::State(StateFault {
                state: State::Released,
                event: Event::ModifiedSeen,
            }),
        ),
        &[],
    ),
    (Step::Feed(Said::Modified { relid: 2 }), &[]),
    (Step::IsDone(true), &[]),
    (Step::IsAt(2, Some(State::Opened)), &[]),
    (Step::Taken(10), &[]),
    (Step::Begin(Part::PhaseEnd(0)), &[]),
];

// A channel that was rescinded before all were open isn't moved.
const RESCIND_BEFORE: &[(Step, &[Told])] = &[
    (Step::Feed(Said::Rescind { relid: 1 }), &[(13, 1, 0, 0)]),
    (LAST_OPEN, &[(22, 2, 3, 0)]),
    (Step::IsDone(false), &[]),
    (Step::Feed(Said::Modified { relid: 2 }), &[]),
    (Step::IsDone(true), &[]),
];

// The first channel is moved and rescinded at the end of its phase, and the second one closed.
const MOVE_AND_RESCIND: &[(Step, &[Told])] = &[
    (LAST_OPEN, BOTH_MOVED),
    (Step::Feed(Said::Modified { relid: 1 }), &[]),
    (Step::IsDone(false), &[]),
    (Step::Feed(Said::Modified { relid: 2 }), &[]),
    (Step::Begin(Part::PhaseEnd(0)), &[]),
    (
        Step::Feed(Said::Rescind { relid: 1 }),
        &[(13, 1, 0, 0), (7, 2, 0, 0), (11, 2, GPADL + 1, 0)],
    ),
    (Step::Feed(Said::Torndown { gpadl: GPADL + 1 }), &[]),
    (Step::IsDone(true), &[]),
];

fn goes_on(
    rt: &(impl Abort + AllocGlobal),
    script: &[u8],
    version: u32,
    steps: &[(Step, &[Told])],
) {
    let mut guest = opens_both(rt, script, version);
    take_each(rt, &mut guest, steps);
    drop(guest);
}

// The page lists of a network's buffers are sent behind its channel's answer, one at a time, and torn down
// before it is closed. A message of one that isn't the awaited one makes the channel go on nowhere.
const FILL: &[(Step, &[Told])] = &[
    (Step::Begin(Part::Contact), &[(14, 0x5_0002, 0, 0)]),
    (Step::Feed(Said::Response { supported: 1 }), &[(3, 0, 0, 0)]),
    (
        Step::Feed(Said::Offer {
            kind: Kind::Net,
            relid: 1,
            sub: 0,
        }),
        &[],
    ),
    (Step::Feed(Said::Delivered), &[]),
    (Step::Begin(Part::PhaseStart(0)), &[(8, 1, GPADL, 4)]),
    (
        Step::Feed(Said::Created {
            relid: 1,
            gpadl: GPADL,
        }),
        &[(5, 1, GPADL, 2)],
    ),
    (
        Step::Feed(Said::Created {
            relid: 1,
            gpadl: GPADL + 1,
        }),
        &[],
    ),
    (
        Step::Feed(Said::Opened {
            relid: 1,
            status: 0,
        }),
        &[
            (8, 1, GPADL + 1, 26),
            (9, 0, GPADL + 1, 28),
            (9, 1, GPADL + 1, 10),
        ],
    ),
    (Step::FirstPage(58), &[]),
    (Step::IsAt(1, Some(State::Opened)), &[]),
    (
        Step::Feed(Said::Created {
            relid: 1,
            gpadl: GPADL + 2,
        }),
        &[],
    ),
    (
        Step::Refuse(
            Said::Torndown { gpadl: GPADL + 1 },
            ControlFault::Gpadl(GpadlFault::Handle { id: GPADL + 1 }),
        ),
        &[],
    ),
    (Step::IsDone(false), &[]),
    (
        Step::Feed(Said::Created {
            relid: 1,
            gpadl: GPADL + 1,
        }),
        &[
            (8, 1, GPADL + 2, 26),
            (9, 0, GPADL + 2, 28),
            (9, 1, GPADL + 2, 10),
        ],
    ),
    (Step::FirstPage(122), &[]),
    (
        Step::Feed(Said::Created {
            relid: 1,
            gpadl: GPADL + 2,
        }),
        &[],
    ),
    (Step::IsDone(true), &[]),
    (Step::Begin(Part::PhaseEnd(0)), &[(11, 1, GPADL + 2, 0)]),
    (
        Step::Refuse(
            Said::Torndown { gpadl: GPADL + 1 },
            ControlFault::Gpadl(GpadlFault::Handle { id: GPADL + 1 }),
        ),
        &[],
    ),
    (
        Step::Feed(Said::Torndown { gpadl: GPADL + 2 }),
        &[(11, 1, GPADL + 1, 0)],
    ),
    (Step::IsAt(1, Some(State::Opened)), &[]),
    (
        Step::Feed(Said::Torndown { gpadl: GPADL + 1 }),
        &[(7, 1, 0, 0), (11, 1, GPADL, 0)],
    ),
    (Step::IsAt(1, Some(State::Closing)), &[]),
    (Step::Feed(Said::Torndown { gpadl: GPADL }), &[]),
    (Step::IsAt(1, Some(State::Closed)), &[]),
    (Step::IsDone(true), &[]),
];

// The rescind of a network ends its rings' page list and both of its buffers: the guest tears none of the three
// down, and awaits none to be.
const RESCIND_NET: &[(Step, &[Told])] = &[
    (Step::Begin(Part::Contact), &[(14, 0x5_0002, 0, 0)]),
    (Step::Feed(Said::Response { supported: 1 }), &[(3, 0, 0, 0)]),
    (
        Step::Feed(Said::Offer {
            kind: Kind::Net,
            relid: 1,
            sub: 0,
        }),
        &[],
    ),
    (Step::Feed(Said::Delivered), &[]),
    (Step::Begin(Part::PhaseStart(0)), &[(8, 1, GPADL, 4)]),
    (
        Step::Feed(Said::Created {
            relid: 1,
            gpadl: GPADL,
        }),
        &[(5, 1, GPADL, 2)],
    ),
    (
        Step::Feed(Said::Opened {
            relid: 1,
            status: 0,
        }),
        &[
            (8, 1, GPADL + 1, 26),
            (9, 0, GPADL + 1, 28),
            (9, 1, GPADL + 1, 10),
        ],
    ),
    (
        Step::Feed(Said::Created {
            relid: 1,
            gpadl: GPADL + 1,
        }),
        &[
            (8, 1, GPADL + 2, 26),
            (9, 0, GPADL + 2, 28),
            (9, 1, GPADL + 2, 10),
        ],
    ),
    (
        Step::Feed(Said::Created {
            relid: 1,
            gpadl: GPADL + 2,
        }),
        &[],
    ),
    (Step::IsDone(true), &[]),
    (Step::Begin(Part::PhaseEnd(0)), &[]),
    (Step::IsDone(false), &[]),
    (Step::Feed(Said::Rescind { relid: 1 }), &[(13, 1, 0, 0)]),
    (Step::IsAt(1, Some(State::Released)), &[]),
    (
        Step::Refuse(
            Said::Torndown { gpadl: GPADL + 2 },
            ControlFault::Gpadl(GpadlFault::Handle { id: GPADL + 2 }),
        ),
        &[],
    ),
    (
        Step::Refuse(
            Said::Torndown { gpadl: GPADL + 1 },
            ControlFault::Gpadl(GpadlFault::Handle { id: GPADL + 1 }),
        ),
        &[],
    ),
    (
        Step::Refuse(
            Said::Torndown { gpadl: GPADL },
            ControlFault::State(StateFault {
                state: State::Released,
                event: Event::TorndownSeen,
            }),
        ),
        &[],
    ),
    (Step::IsDone(true), &[]),
    (Step::Begin(Part::Unload), &[(16, 0, 0, 0)]),
];

#[test]
fn buffers_have_lists(rt: HostRuntime) {
    take_all(&rt, NET, FILL);
}

#[test]
fn a_rescind_ends_a_networks_lists(rt: HostRuntime) {
    take_all(&rt, NET_RESCINDED, RESCIND_NET);
}

#[test]
fn whole_stay(rt: HostRuntime) {
    take_all(&rt, SCRIPT, STAY);
}

#[test]
fn refusals(rt: HostRuntime) {
    take_all(&rt, SCRIPT, REFUSALS);
}

#[test]
fn rescinded_and_closed(rt: HostRuntime) {
    take_all(&rt, FIRST_RESCINDED, RESCIND_FIRST);
    take_all(&rt, SECOND_RESCINDED, RESCIND_SECOND);
}

#[test]
fn channels_are_moved(rt: HostRuntime) {
    take_all(&rt, MOVED, MOVE_BOTH);
    goes_on(&rt, ANSWERED, 0x5_0003, MOVE_AND_RESCIND);
}

#[test]
fn moved_channels_are_rescinded(rt: HostRuntime) {
    goes_on(&rt, ANSWERED, 0x5_0003, RESCIND_MOVED);
    goes_on(&rt, ANSWERED, 0x5_0003, RESCIND_BEFORE);
}

// Below 5.3 no answer is awaited, and below 4.1 nothing is sent.
const MOVED_AT_ONCE: &[(Step, &[Told])] = &[
    (LAST_OPEN, BOTH_MOVED),
    (Step::IsAt(1, Some(State::Opened)), &[]),
    (Step::IsDone(true), &[]),
];

const NOT_MOVED: &[(Step, &[Told])] = &[
    (LAST_OPEN, &[]),
    (Step::IsAt(1, Some(State::Opened)), &[]),
    (Step::IsDone(true), &[]),
];

#[test]
fn moves_by_version(rt: HostRuntime) {
    goes_on(&rt, UNANSWERED, 0x5_0002, MOVED_AT_ONCE);
    goes_on(&rt, FIRST_TOLD, 0x4_0001, MOVED_AT_ONCE);
    goes_on(&rt, UNSUPPORTED, 0x4_0000, NOT_MOVED);
}
