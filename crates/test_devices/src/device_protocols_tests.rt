//! Packets of each kind of channel against those that Linux's own structs make, and back.
ghost use Rattle.std.specs.Prelude.{◌≡◌, ◌≤◌, length, IfOk};
ghost use Rattle.contact.specs.declared.kind.DeviceKind.TheVariants.{Beat, Down, Disk as DiskKind};

use crate::check::check;
use crate::said::said;
use bus_script::{Ask, Reply};
use channel_protocol::Protocol;
use contact::DeviceKind;
use device_any::{DeviceProtocol, DeviceWire, is_askable};
use device_wire::BufferLists;
use hist_lock::Machine;
use scsi_disk::{Chunk, Disk, DiskReply, DiskRequest};
use std::alloc::Global;
use std::process::Abort;
use std::test::Fail;
use util_ic::{BeatMachine, DownMachine, IcAsk};
use vm_page::bytes_of;

/// The protocol of a channel on which this one thing is asked.
fn protocol_of(
    rt: &impl Abort,
    alloc: Global,
    kind: DeviceKind,
    ask: Ask,
) -> Result<DeviceProtocol, Fail>
    ensures { IfOk result (λ t. t.kind ≡ kind) }
{
    if !is_askable(kind, &ask) {
        panic!(rt; "it can't be asked");
    }
    let mut asks = Vec::with_capacity(alloc, 1)?;
    asks.push(ask)?;
    Ok(DeviceProtocol::make(DeviceWire::of(kind), 0, 0, BufferLists::NONE, asks))
}

/// Wants a packet of this first word and id with these first bytes of its payload, and zeros behind them up to 64 bytes.
fn is_packet(rt: &impl Abort, packet: &[u64], first: u64, id: u64, front: &[u8])
    requires { length front.now ≤ 64 }
{
    check(rt, packet.len() >= 10);
    check(rt, (packet[0], packet[1]) == (first, id));
    let mut want = [0; 64];
    want[..front.len()].copy_from_slice(front);
    let mut bytes = [0; 64];
    bytes_of(&packet[2..10], &mut bytes);
    check(rt, bytes == want);
}

/// In-band data with flag 1, and a completion, both of 64 bytes: 10 words.
const ASKS: u64 = 0x0001_000a_0002_0006;

const DONE: u64 = 0x000a_0002_000b;

/// The k-th packet of a disk's start-up begins with these bytes, and what comes back with those.
fn starts(
    rt: &impl Abort,
    alloc: Global,
    protocol: &DeviceProtocol,
    k: u32,
    asked: [u8; 14],
    back: &[u8],
)
    requires { length back.now ≤ 64 }
{
    check(rt, protocol.count() == protocol.starts());
    check(rt, k < protocol.starts());
    let mut words = [0; 384];
    let len = protocol.encode(k, 40, &mut words, &mut [0; 512]).packet;
    let packet = &words[..len];
    is_packet(rt, packet, ASKS, 40, &asked);
    check(
        rt,
        protocol.is_waiting(packet) && protocol.head(packet, &[]).is_none(),
    );
    let mut out = [0; 384];
    let len = protocol.write_fixed(packet, &[], &mut out);
    check(rt, len > 0);
    is_packet(rt, &out[..len], DONE, 40, back);
    check(
        rt,
        said(rt, alloc, protocol, k, &[], &out[..len], &[]).is_none(),
    );
}

#[test]
fn disks_start_up(rt: HostRuntime) -> Result<(), Fail> {
    let protocol = DeviceProtocol::make(
        DeviceWire::of(DeviceKind::Disk),
        0,
        0,
        BufferLists::NONE,
        Vec::with_capacity(rt.alloc(), 0)?,
    );
    check(&rt, protocol.starts() == 4);
    let t = &protocol;
    starts(
        &rt,
        rt.alloc(),
        t,
        0,
        [7, 0, 0, 0, 1, 0, 0, 0, 0, 0, 0, 0, 0, 0],
        &[1, 0, 0, 0, 1],
    );
    let version = [1, 0, 0, 0, 1, 0, 0, 0, 0, 0, 0, 0, 2, 6];
    starts(
        &rt,
        rt.alloc(),
        t,
        1,
        [9, 0, 0, 0, 1, 0, 0, 0, 0, 0, 0, 0, 2, 6],
        &version,
    );
    // At most 3 sub-channels, flags 1, at most 4,096 bytes.
    let most = [
        1, 0, 0, 0, 1, 0, 0, 0, 0, 0, 0, 0, 0, 0, 0, 0, 3, 0, 0, 0, 1, 0, 0, 0, 0, 16,
    ];
    starts(
        &rt,
        rt.alloc(),
        t,
        2,
        [10, 0, 0, 0, 1, 0, 0, 0, 0, 0, 0, 0, 0, 0],
        &most,
    );
    starts(
        &rt,
        rt.alloc(),
        t,
        3,
        [8, 0, 0, 0, 1, 0, 0, 0, 0, 0, 0, 0, 0, 0],
        &[1, 0, 0, 0, 1],
    );
    Ok(())
}

// The first channel asks for the sub-channels in the end, and a sub-channel asks for nothing.
#[test]
fn disks_ask_for_sub_channels(rt: HostRuntime) -> Result<(), Fail> {
    let first = DeviceProtocol::make(
        DeviceWire::of(DeviceKind::Disk),
        0,
        3,
        BufferLists::NONE,
        Vec::with_capacity(rt.alloc(), 0)?,
    );
    check(&rt, first.starts() == 5);
    starts(
        &rt,
        rt.alloc(),
        &first,
        3,
        [8, 0, 0, 0, 1, 0, 0, 0, 0, 0, 0, 0, 0, 0],
        &[1, 0, 0, 0, 1],
    );
    starts(
        &rt,
        rt.alloc(),
        &first,
        4,
        [13, 0, 0, 0, 1, 0, 0, 0, 0, 0, 0, 0, 3, 0],
        &[1, 0, 0, 0, 1, 0, 0, 0, 0, 0, 0, 0, 3],
    );
    let other = DeviceProtocol::make(
        DeviceWire::of(DeviceKind::Disk),
        2,
        3,
        BufferLists::NONE,
        Vec::with_capacity(rt.alloc(), 0)?,
    );
    check(&rt, (other.count(), other.starts()) == (0, 0));
    Ok(())
}

/// What is asked of a disk under the id 7, and what the guest reads in the answer. The request's packet stays in `words`, and the words of its page in `page`: those that were put
/// there for the request, with the answer's over them.
fn disk_round(
    rt: &impl Abort,
    alloc: Global,
    disk: &mut Disk,
    protocol: &DeviceProtocol,
    words: &mut [u64],
    page: &mut [u64],
) -> Option<Reply>
    requires kind { protocol.now.kind ≡ DiskKind }
    requires words { length words.old ≡ 384 }
    requires page { length page.old ≡ 512 }
{
    check(rt, (protocol.count(), protocol.starts()) == (5, 4));
    check(rt, protocol.has_answer(4));
    let asked = protocol.encode(4, 7, words, page);
    let packet = &words[..asked.packet];
    check(rt, protocol.id(packet) == 7);
    check(rt, protocol.is_waiting(packet));
    let mut answer = [0; 512];
    let mut out = [0; 384];
    let came = &page[..asked.lent];
    let Some(head) = protocol.head(packet, came) else {
        panic!(rt; "nothing is asked")
    };
    let Ask::Disk(request) = protocol.read(packet, came, &head) else {
        panic!(rt; "no disk is asked")
    };
    let reply = Reply::Disk(disk.apply(&request));
    check(rt, protocol.write_fixed(packet, came, &mut out) == 0);
    let back = protocol.write_answer(packet, came, &head, &reply, &mut out, &mut answer);
    check(
        rt,
        back.packet == 10 && protocol.id(&out[..back.packet]) == 7,
    );
    check(rt, protocol.is_answer(&out[..back.packet]));
    page[..back.words].copy_from_slice(&answer[..back.words]);
    said(
        rt,
        alloc,
        protocol,
        4,
        &[],
        &out[..back.packet],
        &page[..asked.lent],
    )
}

/// A command for a disk with this data.
fn command(front: [u8; 10], out: &[u8]) -> Ask
    requires { length out.now ≤ 4096 }
{
    let mut cdb = [0; 16];
    cdb[..10].copy_from_slice(&front);
    Ask::Disk(DiskRequest {
        cdb,
        out: Chunk::of(out),
    })
}

/// The protocol of a disk's channel on which this command is asked.
fn disk_protocol(rt: &impl Abort, alloc: Global, front: [u8; 10], out: &[u8]) -> DeviceProtocol
    requires { length out.now ≤ 4096 }
    ensures { result.kind ≡ DiskKind }
{
    match protocol_of(rt, alloc, DeviceKind::Disk, command(front, out)) {
        Ok(protocol) => protocol,
        Err(_) => panic!(rt; "no memory"),
    }
}

/// What the guest reads in the answer is these bytes.
fn gives(
    rt: &impl Abort,
    alloc: Global,
    disk: &mut Disk,
    protocol: &DeviceProtocol,
    words: &mut [u64],
    page: &mut [u64],
    want: &[u8],
)
    requires kind { protocol.now.kind ≡ DiskKind }
    requires words { length words.old ≡ 384 }
    requires page { length page.old ≡ 512 }
{
    match disk_round(rt, alloc, disk, protocol, words, page) {
        Some(Reply::Disk(DiskReply::Good(back))) => check(rt, back.bytes() == want),
        _ => panic!(rt; "no good reply"),
    }
}

/// What the guest reads in the answer is the check of a block that can't be read, whatever stood in its page.
fn fails(rt: &impl Abort, alloc: Global, disk: &mut Disk, protocol: &DeviceProtocol)
    requires { protocol.now.kind ≡ DiskKind }
{
    let mut words = [0; 384];
    let mut page = [7; 512];
    match disk_round(rt, alloc, disk, protocol, &mut words, &mut page) {
        Some(Reply::Disk(DiskReply::Check { key, asc, ascq })) => {
            check(rt, (key, asc, ascq) == (3, 0x11, 0));
        }
        _ => panic!(rt; "no check"),
    }
    check(rt, page == [7; 512]);
}

/// Wants a packet of type 9 that asks for a completion, of 13 words: one range of 512 bytes from the start of page 6, and a storage packet that begins with these bytes.
fn is_direct(rt: &impl Abort, packet: &[u64], front: &[u8])
    requires packet { length packet.now ≡ 384 }
    requires front { length front.now ≤ 64 }
{
    check(rt, (packet[0], packet[1]) == (0x0001_000d_0005_0009, 7));
    check(rt, (packet[2], packet[3], packet[4]) == (1 << 32, 512, 6));
    let mut want = [0; 64];
    want[..front.len()].copy_from_slice(front);
    let mut bytes = [0; 64];
    bytes_of(&packet[5..13], &mut bytes);
    check(rt, bytes == want);
}

/// A block is written: its data stands in the page of its id, and nothing of it in the packet.
fn writes(rt: &impl Abort, alloc: Global, disk: &mut Disk, protocol: &DeviceProtocol)
    requires { protocol.now.kind ≡ DiskKind }
{
    let mut words = [0; 384];
    let mut page = [7; 512];
    gives(rt, alloc, disk, protocol, &mut words, &mut page, &[]);
    let front = [
        3, 0, 0, 0, 1, 0, 0, 0, 0, 0, 0, 0, 52, 0, 0, 0, 0, 0, 0, 0, 10, 20, 0, 0, 0, 2, 0, 0,
        0x2a, 0, 0, 0, 0, 3, 0, 0, 1,
    ];
    is_direct(rt, &words, &front);
    check(
        rt,
        (page[0], page[63]) == (0x0909_0909_0909_0909, 0x0909_0909_0909_0909),
    );
    check(rt, page[64] == 7);
}

/// The block that was written is read, whatever stood in its page.
fn reads(rt: &impl Abort, alloc: Global, disk: &mut Disk, protocol: &DeviceProtocol)
    requires { protocol.now.kind ≡ DiskKind }
{
    let mut words = [0; 384];
    let mut page = [7; 512];
    gives(rt, alloc, disk, protocol, &mut words, &mut page, &[9; 512]);
    let front = [
        3, 0, 0, 0, 1, 0, 0, 0, 0, 0, 0, 0, 52, 0, 0, 0, 0, 0, 0, 0, 10, 20, 1, 0, 0, 2, 0, 0,
        0x28, 0, 0, 0, 0, 3, 0, 0, 1,
    ];
    is_direct(rt, &words, &front);
    check(rt, page[64] == 7);
}

/// A read that came with half of the page that it names, or without it, asks nothing of the disk, and is stopped with srb_status 4.
#[test]
fn a_read_asks_with_its_page_alone(rt: HostRuntime) {
    let protocol = disk_protocol(&rt, rt.alloc(), [0x28, 0, 0, 0, 0, 3, 0, 0, 1, 0], &[]);
    check(&rt, protocol.count() == 5);
    let mut words = [0; 384];
    let mut page = [7; 512];
    let asked = protocol.encode(4, 7, &mut words, &mut page);
    let packet = &words[..asked.packet];
    check(&rt, asked.lent == 64);
    check(&rt, protocol.head(packet, &[7; 64]).is_some());
    check(&rt, protocol.head(packet, &[7; 32]).is_none());
    check(&rt, protocol.head(packet, &[]).is_none());
    let mut out = [0; 384];
    let done = protocol.write_fixed(packet, &[], &mut out);
    check(&rt, done == 10);
    let stopped = [
        1, 0, 0, 0, 1, 0, 0, 0, 0, 0, 0, 0, 52, 0, 4, 0, 0, 0, 0, 0, 10, 20, 1, 0, 0, 2, 0, 0,
        0x28, 0, 0, 0, 0, 3, 0, 0, 1,
    ];
    is_packet(&rt, &out[..done], DONE, 7, &stopped);
}

#[test]
fn disks_write_and_read(rt: HostRuntime) -> Result<(), Fail> {
    let mut disk = Disk::make(rt.alloc(), 64, &[5])?;
    let write = [0x2a, 0, 0, 0, 0, 3, 0, 0, 1, 0];
    writes(
        &rt,
        rt.alloc(),
        &mut disk,
        &disk_protocol(&rt, rt.alloc(), write, &[9; 512]),
    );
    let read = [0x28, 0, 0, 0, 0, 3, 0, 0, 1, 0];
    reads(
        &rt,
        rt.alloc(),
        &mut disk,
        &disk_protocol(&rt, rt.alloc(), read, &[]),
    );
    let bad = [0x28, 0, 0, 0, 0, 5, 0, 0, 1, 0];
    fails(
        &rt,
        rt.alloc(),
        &mut disk,
        &disk_protocol(&rt, rt.alloc(), bad, &[]),
    );
    Ok(())
}

/// An inquiry for 20 bytes is served with 20, in 3 words of its page. Where only 2 words came it asks nothing of the disk, and is stopped with srb_status 4.
#[test]
fn short_inquiries(rt: HostRuntime) -> Result<(), Fail> {
    let mut disk = Disk::make(rt.alloc(), 64, &[])?;
    let protocol = disk_protocol(&rt, rt.alloc(), [0x12, 0, 0, 0, 20, 0, 0, 0, 0, 0], &[]);
    let mut words = [0; 384];
    let mut page = [7; 512];
    gives(
        &rt,
        rt.alloc(),
        &mut disk,
        &protocol,
        &mut words,
        &mut page,
        b"\x00\x00\x05\x02\x1f\x00\x00\x00RATTLE  VMBU",
    );
    check(&rt, (words[2], words[3], words[4]) == (1 << 32, 20, 6));
    check(&rt, page[3] == 7);
    check(&rt, protocol.count() == 5);
    let asked = protocol.encode(4, 7, &mut words, &mut page);
    let packet = &words[..asked.packet];
    check(&rt, asked.lent == 3);
    check(&rt, protocol.head(packet, &[7; 3]).is_some());
    check(&rt, protocol.head(packet, &[7; 2]).is_none());
    let mut out = [0; 384];
    let done = protocol.write_fixed(packet, &[7; 2], &mut out);
    check(&rt, done == 10);
    let stopped = [
        1, 0, 0, 0, 1, 0, 0, 0, 0, 0, 0, 0, 52, 0, 4, 0, 0, 0, 0, 0, 6, 20, 1, 0, 20, 0, 0, 0,
        0x12, 0, 0, 0, 20,
    ];
    is_packet(&rt, &out[..done], DONE, 7, &stopped);
    Ok(())
}

#[test]
fn some_commands_are_not_asked(rt: HostRuntime) {
    let long = command([0x28, 0, 0, 0, 0, 5, 0, 0, 9, 0], &[]);
    let most = command([0x28, 0, 0, 0, 0, 5, 0, 0, 8, 0], &[]);
    check(&rt, is_askable(DeviceKind::Disk, &most));
    check(&rt, !is_askable(DeviceKind::Disk, &long));
    check(&rt, !is_askable(DeviceKind::Beat, &command([0; 10], &[])));
}

/// A channel's start-up is answered, whatever else is asked.
fn negotiates(rt: &impl Abort, alloc: Global, protocol: &DeviceProtocol) {
    check(rt, (protocol.count(), protocol.starts()) == (2, 1));
    let mut words = [0; 384];
    let len = protocol.encode(0, 4, &mut words, &mut [0; 512]).packet;
    let packet = &words[..len];
    check(
        rt,
        protocol.is_waiting(packet) && protocol.head(packet, &[]).is_none(),
    );
    let mut out = [0; 384];
    let back = protocol.write_fixed(packet, &[], &mut out);
    check(rt, back > 0);
    check(rt, protocol.id(&out[..back]) == 4);
    check(
        rt,
        said(rt, alloc, protocol, 0, &[], &out[..back], &[]).is_none(),
    );
}

/// A heartbeat's sequence number comes back one greater.
#[test]
fn heartbeats(rt: HostRuntime) -> Result<(), Fail> {
    let protocol = protocol_of(
        &rt,
        rt.alloc(),
        DeviceKind::Beat,
        Ask::Ic(IcAsk::Beat { seq: 41 }),
    )?;
    negotiates(&rt, rt.alloc(), &protocol);
    match beat_round(&rt, rt.alloc(), &protocol) {
        Some(Reply::Ic(answer)) => check(&rt, (answer.status, answer.seq) == (0, 42)),
        _ => panic!(rt; "no reply"),
    }
    Ok(())
}

/// What is asked of a heartbeat service, and what the host reads in the answer.
fn beat_round(rt: &impl Abort, alloc: Global, protocol: &DeviceProtocol) -> Option<Reply>
    requires { protocol.now.kind ≡ Beat }
{
    let mut words = [0; 384];
    check(rt, protocol.count() == 2);
    let len = protocol.encode(1, 5, &mut words, &mut [0; 512]).packet;
    let packet = &words[..len];
    let Some(head) = protocol.head(packet, &[]) else {
        panic!(rt; "nothing is asked")
    };
    let asked = protocol.read(packet, &[], &head);
    let Ask::Ic(ask) = asked else {
        panic!(rt; "a disk is asked")
    };
    let reply = Reply::Ic(BeatMachine::make().apply(&ask));
    let mut out = [0; 384];
    let back = protocol.write_answer(packet, &[], &head, &reply, &mut out, &mut [0; 512]);
    let back = back.packet;
    check(rt, back > 0);
    check(rt, protocol.id(&out[..back]) == 5);
    said(rt, alloc, protocol, 1, &[], &out[..back], &[])
}

/// A guest refuses to hibernate.
#[test]
fn shutdowns(rt: HostRuntime) -> Result<(), Fail> {
    let ask = Ask::Ic(IcAsk::Down {
        reason: 1,
        timeout: 2,
        flags: 4,
    });
    let protocol = protocol_of(&rt, rt.alloc(), DeviceKind::Down, ask)?;
    negotiates(&rt, rt.alloc(), &protocol);
    match down_round(&rt, rt.alloc(), &protocol) {
        Some(Reply::Ic(answer)) => check(&rt, answer.status == 0x8000_4005),
        _ => panic!(rt; "no reply"),
    }
    Ok(())
}

/// What is asked of a shutdown service, and what the host reads in the answer.
fn down_round(rt: &impl Abort, alloc: Global, protocol: &DeviceProtocol) -> Option<Reply>
    requires { protocol.now.kind ≡ Down }
{
    let mut words = [0; 384];
    check(rt, protocol.count() == 2);
    let len = protocol.encode(1, 5, &mut words, &mut [0; 512]).packet;
    let packet = &words[..len];
    let Some(head) = protocol.head(packet, &[]) else {
        panic!(rt; "nothing is asked")
    };
    let asked = protocol.read(packet, &[], &head);
    let Ask::Ic(ask) = asked else {
        panic!(rt; "a disk is asked")
    };
    let reply = Reply::Ic(DownMachine::make().apply(&ask));
    let mut out = [0; 384];
    let back = protocol.write_answer(packet, &[], &head, &reply, &mut out, &mut [0; 512]);
    let back = back.packet;
    check(rt, back > 0);
    said(rt, alloc, protocol, 1, &[], &out[..back], &[])
}
