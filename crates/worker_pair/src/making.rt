//! The making of a worker.
ghost use Rattle.std.specs.Prelude.{◌≡◌, ◌≢◌, ◌≤◌, ◌+◌, false, true, length, map, filter, is_some, IfOk, None};
ghost use Rattle.io_edge.specs.declared.side.Side.TheVariants.{Host as HostSide};
ghost use Rattle.std.specs.List.{AllByRecursion};
ghost use Rattle.script_lines.specs.Parts.{kind_asked};
ghost use Rattle.script_lines.specs.Requests.{CanBeCarried, IsSent};
ghost use Rattle.contact.specs.declared.kind.DeviceKind.TheVariants.{Net as NetKind};
ghost use Rattle.script_lines.specs.WellFormed.{CanGo};
ghost use Rattle.script_lines.specs.declared.line.Ask.{Ask as Asked};
ghost use Rattle.script_lines.specs.declared.line.Ask.TheVariants.{Ic as AskedIc, Disk as AskedDisk, Net as AskedNet, Kvp as AskedKvp};
ghost use Rattle.disk_format.specs.PageDisks.{IsPageAsk};
ghost use Rattle.device_kinds.specs.Formats.{besides_on, has_answer_on, lends_on, no_lists, startup};
ghost use Rattle.device_kinds.specs.Kinds.{IsAskable};
ghost use Rattle.worker_port.specs.Line.{paged_end};
ghost use Rattle.channel_model.specs.Roles.{side_that_asks};
ghost use Rattle.worker_pair.specs.Pairs.{pages_on};
ghost use Rattle.worker_pair.specs.Plans.{AllCarried, CanPlan, HasSeat, IsMade, planned, silent, stop_of};
ghost use Rattle.channel_model.specs.Channel.{count_of, held_of};
ghost use Rattle.device_any.specs.Seats.{served_at, kind_at, left_at};
ghost use Rattle.worker_pair.specs.Seats.{IsAt};
ghost use Rattle.worker_pair.specs.Workers.{IsLive, IsOfSide, end_at};

use crate::ChannelPlan;
use crate::worker::{ChannelRequester, ChannelServer, Worker};
use bus_script::Ask;
use chan_state::Stop;
use channel_protocol::Protocol;
use contact::DeviceKind;
use device_any::{DeviceProtocol, DeviceSeat, DeviceWire};
use device_wire::BufferLists;
use io_edge::Side;
use ring_core::End;
use ring_seat::TableSeat;
use rndis_msg::Rndis;
use std::alloc::{AllocError, Global};
use util_ic::IcAsk;
use worker_requester::Requester;
use worker_server::Server;

// A heartbeat or a shutdown can be asked on its channel. It does nothing.
fn service_can(kind: DeviceKind, ask: IcAsk)
    requires { kind_asked (Asked.Ic ask) ≡ kind }
    ensures { IsAskable kind (Asked.Ic ask) }
{
    // For the proof: what a value keeps is known where the value is read.
    let _beat = matches!(ask, IcAsk::Beat { .. });
}

// A command that a disk's channel carries can be asked on it. It does nothing.
fn disk_can(cdb: &[u8], out: &[u8])
    requires { CanBeCarried (record { cdb = cdb.now; out = out.now }) }
    ensures { IsPageAsk (record { cdb = cdb.now; out = out.now }) }
{
    // For the proof: the numbers of a slice that is read are known to fit their type.
    let _len = cdb.len() + out.len();
}

// A message that a line of a script sends can be asked of an adapter. It does nothing.
fn message_can(message: &Rndis)
    requires { IsSent message.now }
    ensures { IsAskable NetKind (Asked.Net message.now) }
{
    // For the proof: what a value keeps is known where the value is read.
    let _message = message;
}

// A request that stands in a script can be asked on its channel. It does nothing.
fn ask_can(kind: DeviceKind, ask: &Ask)
    requires kind { kind_asked ask.now ≡ kind }
    requires goes { CanGo ask.now }
    ensures { IsAskable kind ask.now }
{
    match ask {
        Ask::Ic(ask) => service_can(kind, *ask),
        Ask::Disk(request) => disk_can(&request.cdb, request.out.bytes()),
        Ask::Net(message) => message_can(message),
        _ => {}
    }
}

// And all of these can be. It does nothing.
fn all_can(kind: DeviceKind, asks: &[Ask])
    requires { AllCarried kind asks.now }
    ensures { AllByRecursion (IsAskable kind) asks.now }
{
    for ask in asks {
        ask_can(kind, ask);
    }
}

// How many of so many requests are served.
fn serve_count(stop: Option<Stop>, count: u32) -> u32
    ensures value { result ≡ count_of (stop_of stop) count }
    ensures most { result ≤ count }
{
    match stop {
        None => count,
        Some(stop) => stop.after.min(count),
    }
}

// Whether nothing goes back for the last of them.
fn is_held(stop: Option<Stop>, count: u32) -> bool
    ensures { result ≡ held_of (stop_of stop) count }
{
    match stop {
        None => false,
        Some(stop) => stop.held && stop.after <= count,
    }
}

// How many requests of a channel's start-up have no answer: that of a network tells the host a version.
fn count_silent(kind: DeviceKind, sub: u32) -> u32
    ensures value { result ≡ silent kind sub }
    ensures most { result ≤ 1 }
{
    match kind {
        DeviceKind::Net => if sub == 0 { 1 } else { 0 },
        _ => 0,
    }
}

/// A worker at this side: it serves where it has a seat, and asks where it has none. On a network's channel it tells the plan's page lists there.
pub(crate) fn make_worker(
    alloc: Global,
    side: Side,
    end: End<TableSeat>,
    seat: Option<DeviceSeat>,
    plan: ChannelPlan,
    asks: Vec<Ask>,
) -> Result<Worker, AllocError>
    requires plan { CanPlan side (planned plan asks.items) }
    requires seat { HasSeat side (planned plan asks.items) seat }
    requires side { IsAt side seat }
    requires fresh { end.state ≡ paged_end (pages_on plan.kind plan.window) end.state.machine.cells side }
    requires size { (512 ≤ end.state.machine.cells) × (end.state.machine.cells ≤ 16777216) }
    ensures made { IfOk result (IsMade (planned plan asks.items) seat) }
    ensures end { IfOk result (λ w. ((end_at w).state ≡ end.state) × ((end_at w).seat ≡ end.seat)) }
    ensures live { IfOk result IsLive }
    ensures side { IfOk result (IsOfSide side) }
{
    let sub = u32::from(plan.sub);
    let wire = DeviceWire::of(plan.kind);
    match seat {
        None => {
            // For the proof: that each request can be asked is known of it where it is read, so this goes over all of them; the loop does nothing.
            all_can(plan.kind, &asks);
            let protocol = DeviceProtocol::make(wire, sub, plan.subs, plan.lists, asks);
            let asker = Requester::make(alloc, protocol, end, side, plan.relid, plan.window)?;
            Ok(Worker::Asks(asker))
        }
        Some(seat) => {
            let none = Vec::new(alloc);
            let protocol = DeviceProtocol::make(wire, sub, plan.subs, BufferLists::NONE, none);
            let silent = count_silent(plan.kind, sub);
            let all = protocol.starts();
            let server = Server::make(
                alloc,
                protocol,
                end,
                seat,
                side,
                plan.relid,
                all - silent,
                serve_count(plan.stop, plan.count),
                is_held(plan.stop, plan.count),
                plan.stop.is_some(),
                plan.count + silent,
            )?;
            Ok(Worker::Serves(server))
        }
    }
}
