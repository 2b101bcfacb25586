//! All versions, all kinds, and services of sockets.
use crate::check::check;
use contact::{
    Kind, OfferFault, Offered, Version, agree, answers_modify, has_modify, host_accepts,
    next_version, offer, offers, port_in, read_offer, service_id,
};
use std::process::Abort;
use std::test::Fail;
use vmbus_msg::Msg;

const V5_3: Version = Version(327_683);

const V5_2: Version = Version(327_682);

const V5_1: Version = Version(327_681);

const V5_0: Version = Version(327_680);

const V4_1: Version = Version(262_145);

const V4_0: Version = Version(262_144);

const V3_0: Version = Version(196_608);

const V2_4: Version = Version(131_076);

// Each version, and the one that is tried after it.
const NEXT: [(Version, Option<Version>); 8] = [
    (V5_3, Some(V5_2)),
    (V5_2, Some(V5_1)),
    (V5_1, Some(V5_0)),
    (V5_0, Some(V4_1)),
    (V4_1, Some(V4_0)),
    (V4_0, Some(V3_0)),
    (V3_0, Some(V2_4)),
    (V2_4, None),
];

// A host's highest version, the version that it is asked for, and whether it accepts that.
const ASKED: [(Version, Version, bool); 8] = [
    (V5_3, V5_3, true),
    (V5_3, Version(327_684), false),
    (V5_2, V5_2, true),
    (V5_1, V5_2, false),
    (V2_4, V2_4, true),
    (V5_2, V5_3, false),
    (V5_2, Version(131_072), false),
    (Version(4_294_967_295), V3_0, true),
];

#[test]
fn versions(rt: HostRuntime) {
    for (version, next) in NEXT {
        check(&rt, next_version(version) == next);
    }
    for (highest, asked, accepts) in ASKED {
        check(&rt, host_accepts(highest, asked) == accepts);
    }
    check(&rt, agree(V5_2, V4_0) == V4_0);
    check(&rt, agree(V3_0, V5_1) == V3_0);
    check(&rt, agree(V2_4, V2_4) == V2_4);
    check(&rt, agree(V5_3, V5_2) == V5_2);
}

// Each version, whether it has MODIFYCHANNEL, and whether a host answers that.
const MODIFIES: [(Version, bool, bool); 8] = [
    (V5_3, true, true),
    (V5_2, true, false),
    (V5_1, true, false),
    (V5_0, true, false),
    (V4_1, true, false),
    (V4_0, false, false),
    (V3_0, false, false),
    (V2_4, false, false),
];

#[test]
fn modifies(rt: HostRuntime) {
    for (version, has, answers) in MODIFIES {
        check(&rt, has_modify(version) == has);
        check(&rt, answers_modify(version) == answers);
    }
}

// An offer's class id, the number in its instance id, its relid and its connection.
fn parts(m: &Msg) -> ([u8; 16], u8, u32, u32) {
    match m {
        Msg::OfferChannel {
            if_type,
            if_instance,
            relid,
            connection,
            ..
        } => { (*if_type, if_instance[0], *relid, *connection) }
        _ => ([0; 16], 0, 0, 0),
    }
}

// The message offers a device of this kind, with this relid.
fn check_offer(rt: &impl Abort, m: &Msg, kind: Kind, relid: u32) {
    check(rt, matches!(m, Msg::OfferChannel { .. }));
    check(
        rt,
        read_offer(m)
            == Ok(Offered {
                relid,
                kind,
                sub: 0,
            }),
    );
    let (_, instance, number, connection) = parts(m);
    check(
        rt,
        (u32::from(instance), number, connection) == (relid, relid, relid),
    );
}

#[test]
fn all_kinds(rt: HostRuntime) -> Result<(), Fail> {
    let kinds = [Kind::Beat, Kind::Down, Kind::Disk, Kind::Net, Kind::Kvp];
    let messages = offers(rt.alloc(), &kinds)?;
    check(&rt, messages.len() == 5);
    check_offer(&rt, &messages[0], Kind::Beat, 1);
    check_offer(&rt, &messages[1], Kind::Down, 2);
    check_offer(&rt, &messages[2], Kind::Disk, 3);
    check_offer(&rt, &messages[3], Kind::Net, 4);
    check_offer(&rt, &messages[4], Kind::Kvp, 5);
    let scsi = parts(&messages[2]).0;
    check(
        &rt,
        &scsi[..8] == [0xd9, 0x63, 0x61, 0xba, 0xa1, 0x04, 0x29, 0x4d].as_slice(),
    );
    check(
        &rt,
        &scsi[8..] == [0xb6, 0x05, 0x72, 0xe2, 0xff, 0xb1, 0xdc, 0x7f].as_slice(),
    );
    let pairs = parts(&messages[4]).0;
    check(
        &rt,
        &pairs[..8] == [0xe7, 0xf4, 0xa0, 0xa9, 0x45, 0x5a, 0x96, 0x4d].as_slice(),
    );
    check(
        &rt,
        &pairs[8..] == [0xb8, 0x27, 0x8a, 0x84, 0x1e, 0x8c, 0x03, 0xe6].as_slice(),
    );
    Ok(())
}

#[test]
fn unknown_class(rt: HostRuntime) {
    let mut m = offer(Kind::Net, 9, 3);
    check(
        &rt,
        read_offer(&m)
            == Ok(Offered {
                relid: 9,
                kind: Kind::Net,
                sub: 3,
            }),
    );
    if let Msg::OfferChannel { if_type, .. } = &mut m {
        *if_type = [7; 16];
    }
    check(&rt, matches!(m, Msg::OfferChannel { .. }));
    check(
        &rt,
        read_offer(&m) == Err(OfferFault::Class { id: [7; 16] }),
    );
}

// 00000005-facb-11e6-bd58-64006a7986d3
const SERVICE_5: [u8; 16] = [
    0x05, 0x00, 0x00, 0x00, 0xcb, 0xfa, 0xe6, 0x11, 0xbd, 0x58, 0x64, 0x00, 0x6a, 0x79, 0x86, 0xd3,
];

// 89abcdef-facb-11e6-bd58-64006a7986d3
const SERVICE_89ABCDEF: [u8; 16] = [
    0xef, 0xcd, 0xab, 0x89, 0xcb, 0xfa, 0xe6, 0x11, 0xbd, 0x58, 0x64, 0x00, 0x6a, 0x79, 0x86, 0xd3,
];

#[test]
fn services(rt: HostRuntime) {
    check(&rt, service_id(5) == SERVICE_5);
    check(&rt, service_id(0x89ab_cdef) == SERVICE_89ABCDEF);
    check(&rt, port_in(&SERVICE_5) == Some(5));
    check(&rt, port_in(&SERVICE_89ABCDEF) == Some(0x89ab_cdef));
    let mut other = SERVICE_5;
    other[15] = 0xd2;
    check(&rt, port_in(&other) == None);
}

#[test]
fn offered_services(rt: HostRuntime) {
    let kind = Kind::Sock { port: 0x89ab_cdef };
    let mut m = offer(kind, 1, 0);
    check(&rt, parts(&m).0 == SERVICE_89ABCDEF);
    check(
        &rt,
        read_offer(&m)
            == Ok(Offered {
                relid: 1,
                kind,
                sub: 0,
            }),
    );
    let mut other = SERVICE_89ABCDEF;
    other[4] = 0xcc;
    if let Msg::OfferChannel { if_type, .. } = &mut m {
        *if_type = other;
    }
    check(&rt, matches!(m, Msg::OfferChannel { .. }));
    check(&rt, read_offer(&m) == Err(OfferFault::Class { id: other }));
}
