//! The control path of a socket: a guest that asks for a service, and a host that offers its channel.
ghost use Rattle.std.specs.Prelude.{◌≡◌, [], Some};
ghost use Rattle.control_model.specs.Plan.{part_after};
ghost use Rattle.control_path.specs.Path.{Rests};

use crate::check::check;
use chan_state::State;
use contact::{Kind, OfferFault, Part, Version, offer};
use control_model::ControlFault;
use control_path::{ControlPath, PathOver};
use gpadl::to_messages;
use guest_end::GuestControl;
use host_end::HostControl;
use mail_box::MailBox;
use std::process::Abort;
use std::sync::Wait;
use std::thread::Threads;
use vmbus_msg::Msg;

const PORT: u32 = 0x0102_0304;

// The ids of 00000001-facb-11e6-bd58-64006a7986d3 and 01020304-facb-11e6-bd58-64006a7986d3, the first
// three groups little-endian, as srv_id_template of Linux's net/vmw_vsock/hyperv_transport.c has them.
const ENDPOINT: &[u8; 16] = &[
    1, 0, 0, 0, 0xcb, 0xfa, 0xe6, 0x11, 0xbd, 0x58, 0x64, 0, 0x6a, 0x79, 0x86, 0xd3,
];

const SERVICE: &[u8; 16] = &[
    4, 3, 2, 1, 0xcb, 0xfa, 0xe6, 0x11, 0xbd, 0x58, 0x64, 0, 0x6a, 0x79, 0x86, 0xd3,
];

const OTHER_TAIL: &[u8; 16] = &[
    4, 3, 2, 1, 0xcb, 0xfa, 0xe6, 0x11, 0xbd, 0x58, 0x64, 0, 0x6a, 0x79, 0x86, 0xd4,
];

const GPADL: u32 = 0xe1e10;

// What the tests tell messages by: the type, and then relid, handle, version or answer, the number of
// frames, the ring to the guest, or the connection.
type Told = (u32, u32, u32);

fn told(m: &Msg) -> Told {
    match m {
        Msg::OfferChannel {
            if_type,
            relid,
            sub: 0,
            ..
        } if *if_type == *SERVICE => (1, *relid, 0),
        Msg::RescindChannelOffer { relid, .. } => (2, *relid, 0),
        Msg::RequestOffers { .. } => (3, 0, 0),
        Msg::AllOffersDelivered { .. } => (4, 0, 0),
        Msg::OpenChannel {
            relid,
            gpadl: GPADL,
            downstream,
            ..
        } => (5, *relid, *downstream),
        Msg::OpenChannelResult {
            relid,
            status: 0,
            ..
        } => (6, *relid, 0),
        Msg::GpadlHeader(h) => (8, h.relid, h.frames.len() as u32),
        Msg::GpadlBody(b) => (9, b.gpadl, b.frames.len() as u32),
        Msg::GpadlCreated {
            relid,
            status: 0,
            ..
        } => (10, *relid, 0),
        Msg::RelidReleased { relid, .. } => (13, *relid, 0),
        Msg::InitiateContact { version, .. } => (14, *version, 0),
        Msg::VersionResponse { supported, .. } => (15, *supported as u32, 0),
        Msg::Unload { .. } => (16, 0, 0),
        Msg::UnloadResponse { .. } => (17, 0, 0),
        Msg::TlConnectRequest {
            padding: 0,
            guest_endpoint,
            host_service,
        } if *guest_endpoint == *ENDPOINT && *host_service == *SERVICE => (21, 0, 0),
        _ => (0, 0, 0),
    }
}

const GUEST_SAYS: &[Told] = &[
    (14, 0x5_0002, 0),
    (3, 0, 0),
    (21, 0, 0),
    (8, 1, 26),
    (9, GPADL, 8),
    (5, 1, 17),
    (13, 1, 0),
    (16, 0, 0),
];

const HOST_SAYS: &[Told] = &[
    (15, 1, 0),
    (4, 0, 0),
    (1, 1, 0),
    (10, 1, 0),
    (6, 1, 0),
    (2, 1, 0),
    (17, 0, 0),
];

// These messages were said, and no other.
fn check_said(rt: &impl Abort, posted: &[Msg], says: &[Told]) {
    check(rt, posted.len() == says.len());
    for (m, want) in posted.iter().zip(says) {
        check(rt, told(m) == *want);
    }
}

// Runs this part, which is the next one.
fn runs<R: Abort + Threads + Wait + Sync>(rt: &R, path: ControlPath, part: Part) -> ControlPath
    requires rests { Rests path }
    requires part { part_after path.guest.plan path.guest.part ≡ Some part }
    ensures rests { Rests result }
    ensures part { result.guest.part ≡ Some part }
{
    match path.run(rt, part) {
        Ok(path) => path,
        Err(want) => {
            drop(want);
            panic!(rt; "a side wanted memory");
        }
    }
}

// Runs the next part, which is this one.
fn go<R: Abort + Threads + Wait + Sync>(rt: &R, path: ControlPath, part: Part) -> ControlPath
    requires { Rests path }
    ensures { Rests result }
{
    let Some(next) = path.next_part() else {
        panic!(rt; "no part is left");
    };
    check(rt, next == part);
    runs(rt, path, next)
}

// Runs the farewell, which is the last part.
fn farewell<R: Abort + Threads + Wait + Sync>(rt: &R, path: ControlPath) -> PathOver
    requires { Rests path }
{
    let Some(Part::Unload) = path.next_part() else {
        panic!(rt; "the farewell isn't next");
    };
    runs(rt, path, Part::Unload).end(rt)
}

// Runs all parts of a socket's path.
fn stay<R: Abort + AllocGlobal + Threads + Wait + Sync>(rt: &R) -> PathOver {
    let Ok(path) = ControlPath::make_sock(rt.alloc(), PORT) else {
        panic!(rt; "no path");
    };
    let contacted = go(rt, path, Part::Contact);
    let opened = go(rt, contacted, Part::PhaseStart(0));
    let ended = go(rt, opened, Part::PhaseEnd(0));
    farewell(rt, ended)
}

#[test]
fn a_path_of_a_socket(rt: HostRuntime) {
    let over = stay(&rt);
    let (guest, host) = (&over.guest, &over.host);
    check_said(&rt, guest.posted(), GUEST_SAYS);
    check_said(&rt, host.fed(), GUEST_SAYS);
    check_said(&rt, host.posted(), HOST_SAYS);
    check_said(&rt, guest.fed(), HOST_SAYS);
    check(
        &rt,
        guest.version() == Some(Version(0x5_0002)) && host.version() == guest.version(),
    );
    check(
        &rt,
        guest.state(1) == Some(State::Released) && host.state(1) == Some(State::Released),
    );
    check(&rt, guest.state(2).is_none() && host.state(2).is_none());
    drop(over);
}

// An empty box.
fn empty_box(rt: &(impl Abort + AllocGlobal)) -> MailBox
    ensures { result ≡ record { size = 64; queue = [] } }
{
    let Ok(post) = MailBox::make(rt.alloc(), 64) else {
        panic!(rt; "no box");
    };
    post
}

// These messages are in the box, and no other.
fn check_sent(rt: &impl Abort, mut post: MailBox, sends: &[Told]) {
    for want in sends {
        check(rt, post.take().as_ref().map(told) == Some(*want));
    }
    check(rt, post.take().is_none());
    drop(post);
}

fn begin_guest(
    rt: &(impl Abort + AllocGlobal),
    guest: &mut GuestControl,
    part: Part,
    sends: &[Told],
) {
    let Some(next) = guest.next_part() else {
        panic!(rt; "no part is left");
    };
    check(rt, next == part);
    check(rt, guest.part().is_none() || guest.done());
    let mut post = empty_box(rt);
    check(rt, guest.begin(next, &mut post).is_ok());
    check_sent(rt, post, sends);
}

fn feed_guest(rt: &(impl Abort + AllocGlobal), guest: &mut GuestControl, m: &Msg, sends: &[Told]) {
    let mut post = empty_box(rt);
    check(rt, guest.feed(m, &mut post) == Ok(()));
    check_sent(rt, post, sends);
}

// A message is refused so, and nothing comes of it.
fn refuse_guest(
    rt: &(impl Abort + AllocGlobal),
    guest: &mut GuestControl,
    m: &Msg,
    fault: ControlFault,
) {
    let mut post = empty_box(rt);
    let fed = guest.fed().len();
    check(rt, guest.feed(m, &mut post) == Err(fault));
    check_sent(rt, post, &[]);
    check(rt, guest.fed().len() == fed);
}

// A guest whose contact is done, and which asked for its service.
fn dialed(rt: &(impl Abort + AllocGlobal)) -> GuestControl {
    let Ok(mut guest) = GuestControl::make_sock(rt.alloc(), PORT) else {
        panic!(rt; "no guest");
    };
    begin_guest(rt, &mut guest, Part::Contact, &[(14, 0x5_0002, 0)]);
    let accepted = Msg::VersionResponse {
        padding: 0,
        supported: 1,
        state: 0,
        padding2: 0,
        conn: 1,
    };
    feed_guest(rt, &mut guest, &accepted, &[(3, 0, 0)]);
    feed_guest(rt, &mut guest, &Msg::AllOffersDelivered { padding: 0 }, &[]);
    check(rt, guest.done() && guest.state(1).is_none());
    begin_guest(rt, &mut guest, Part::PhaseStart(0), &[(21, 0, 0)]);
    guest
}

// An offer of the service at a port.
fn service_at(port: u32, relid: u32, sub: u16) -> Msg {
    offer(Kind::Sock { port }, relid, sub)
}

#[test]
fn a_guest_waits_for_its_service(rt: HostRuntime) {
    let mut guest = dialed(&rt);
    // of another port, of another number, of a sub-channel, of a device
    let none = &[];
    feed_guest(&rt, &mut guest, &service_at(PORT + 1, 1, 0), none);
    feed_guest(&rt, &mut guest, &service_at(0x0403_0201, 1, 0), none);
    feed_guest(&rt, &mut guest, &service_at(PORT, 2, 0), none);
    feed_guest(&rt, &mut guest, &service_at(PORT, 1, 1), none);
    feed_guest(&rt, &mut guest, &offer(Kind::Disk, 1, 0), none);
    check(&rt, guest.state(1).is_none() && !guest.done());
    feed_guest(
        &rt,
        &mut guest,
        &service_at(PORT, 1, 0),
        &[(8, 1, 26), (9, GPADL, 8)],
    );
    check(&rt, guest.state(1) == Some(State::Offered));
    // a second offer adds no channel
    feed_guest(&rt, &mut guest, &service_at(PORT, 2, 0), none);
    check(&rt, guest.state(2).is_none());
    drop(guest);
}

// An offer with this class id.
fn offered_as(rt: &impl Abort, class: &[u8; 16]) -> Msg {
    let Msg::OfferChannel {
        padding,
        if_instance,
        reserved1,
        reserved2,
        chn_flags,
        mmio,
        user,
        sub,
        reserved3,
        relid,
        monitorid,
        monitor,
        interrupt,
        connection,
        ..
    } = service_at(PORT, 1, 0)
    else {
        panic!(rt; "no offer");
    };
    Msg::OfferChannel {
        padding,
        if_type: *class,
        if_instance,
        reserved1,
        reserved2,
        chn_flags,
        mmio,
        user,
        sub,
        reserved3,
        relid,
        monitorid,
        monitor,
        interrupt,
        connection,
    }
}

#[test]
fn an_id_with_another_tail_is_no_service(rt: HostRuntime) {
    let mut guest = dialed(&rt);
    let fault = ControlFault::Offer(OfferFault::Class { id: *OTHER_TAIL });
    refuse_guest(&rt, &mut guest, &offered_as(&rt, OTHER_TAIL), fault);
    check(&rt, guest.state(1).is_none());
    feed_guest(
        &rt,
        &mut guest,
        &offered_as(&rt, SERVICE),
        &[(8, 1, 26), (9, GPADL, 8)],
    );
    drop(guest);
}

fn begin_host(rt: &(impl Abort + AllocGlobal), host: &mut HostControl, part: Part, sends: &[Told]) {
    let Some(next) = host.next_part() else {
        panic!(rt; "no part is left");
    };
    check(rt, next == part);
    check(rt, host.part().is_none() || host.done());
    let mut post = empty_box(rt);
    check(rt, host.begin(next, &mut post).is_ok());
    check_sent(rt, post, sends);
}

fn feed_host(rt: &(impl Abort + AllocGlobal), host: &mut HostControl, m: &Msg, sends: &[Told]) {
    let mut post = empty_box(rt);
    let fed = host.fed().len();
    check(rt, host.feed(m, &mut post) == Ok(()));
    check_sent(rt, post, sends);
    check(rt, host.fed().len() == fed + 1);
}

fn refuse_host(
    rt: &(impl Abort + AllocGlobal),
    host: &mut HostControl,
    m: &Msg,
    fault: ControlFault,
) {
    let mut post = empty_box(rt);
    let fed = host.fed().len();
    check(rt, host.feed(m, &mut post) == Err(fault));
    check_sent(rt, post, &[]);
    check(rt, host.fed().len() == fed);
}

// A guest asks for a service.
fn connect(service: &[u8; 16]) -> Msg {
    Msg::TlConnectRequest {
        padding: 0,
        guest_endpoint: *ENDPOINT,
        host_service: *service,
    }
}

// A host to which the contact was made.
fn contacted(rt: &(impl Abort + AllocGlobal)) -> HostControl {
    let Ok(mut host) = HostControl::make_sock(rt.alloc(), PORT) else {
        panic!(rt; "no host");
    };
    begin_host(rt, &mut host, Part::Contact, &[]);
    let proposed = Msg::InitiateContact {
        padding: 0,
        version: 0x5_0002,
        target_vcpu: 0,
        page: 0,
        monitor1: 0,
        monitor2: 0,
    };
    feed_host(rt, &mut host, &connect(SERVICE), &[]);
    feed_host(rt, &mut host, &proposed, &[(15, 1, 0)]);
    feed_host(
        rt,
        &mut host,
        &Msg::RequestOffers { padding: 0 },
        &[(4, 0, 0)],
    );
    feed_host(rt, &mut host, &connect(SERVICE), &[]);
    check(rt, host.done() && host.state(1).is_none());
    host
}

#[test]
fn a_host_offers_its_service_once_it_is_asked_for(rt: HostRuntime) {
    let mut host = contacted(&rt);
    begin_host(&rt, &mut host, Part::PhaseStart(0), &[]);
    let Ok(list) = to_messages(rt.alloc(), 1, GPADL, &[0; 34]) else {
        panic!(rt; "no list");
    };
    let early = ControlFault::Relid { value: 1 };
    refuse_host(&rt, &mut host, &list.as_slice()[0], early);
    feed_host(&rt, &mut host, &connect(OTHER_TAIL), &[]);
    feed_host(&rt, &mut host, &connect(ENDPOINT), &[]);
    check(&rt, host.state(1).is_none());
    feed_host(&rt, &mut host, &connect(SERVICE), &[(1, 1, 0)]);
    check(&rt, host.state(1) == Some(State::Offered));
    // it is offered once
    feed_host(&rt, &mut host, &connect(SERVICE), &[]);
    check(&rt, host.state(2).is_none());
    feed_host(&rt, &mut host, &list.as_slice()[0], &[]);
    feed_host(&rt, &mut host, &list.as_slice()[1], &[(10, 1, 0)]);
    drop(list);
    drop(host);
}
