//! The station as a machine of messages and answers.
ghost use Rattle.std.specs.Prelude.{◌≡◌, ◌≤◌, ◌<◌, length, None, Ok, IfSome};
ghost use Rattle.std.specs.List.{AllByRecursion};
ghost use Rattle.rndis_msg.specs.Messages.{type_of, body_of};
ghost use Rattle.rndis_msg.specs.Grammar.{InForm};
ghost use Rattle.rndis_msg.specs.declared.message_type.MessageType.TheVariants.{PacketMsg, QueryCmplt};
ghost use Rattle.wire_table.specs.Little.{bytes_of};
ghost use Rattle.net_dev.specs.Station.{is_addressed, frame_back, value_bytes, query_reply, set_status, filter_set, initialize_reply, station_reply, station_after, Keeps};

use crate::NetReply;
use crate::objects::{self, Answer, PACKET_FILTER};
use hist_lock::Machine;
use rndis_msg::{Rndis, RndisFault, Small};
use wire_table::{number, put_at};

/// The address of all stations.
const BROADCAST: [u8; 6] = [0xff; 6];

/// RNDIS_STATUS_INVALID_DATA, in Linux `include/linux/rndis.h`.
const INVALID_DATA: u32 = 0xc001_0015;

/// RNDIS_STATUS_NOT_SUPPORTED.
const NOT_SUPPORTED: u32 = 0xc000_00bb;

/// A network device: an adapter with its address, and beyond it one station, which sends each frame that
/// is sent to it back to its sender.
#[derive(Drop)]
pub struct Station {
    /// The adapter's address.
    mac: [u8; 6],
    /// The station's address.
    station: [u8; 6],
    /// The packet filter, as it was set. It keeps no frame out.
    filter: u32,
}

impl Station {
    /// A device with the adapter's address and the station's, and packet filter 0.
    pub fn make(mac: [u8; 6], station: [u8; 6]) -> Station
        ensures { result ≡ record { mac = mac; station = station; filter = 0 } }
    {
        Station {
            mac,
            station,
            filter: 0,
        }
    }

    /// Whether the station takes a frame: it has an Ethernet header, and its destination is the station or
    /// all stations.
    fn is_addressed(&self, frame: &[u8]) -> bool
        ensures { result ≡ is_addressed self.now frame.now }
    {
        frame.len() >= 14 && (frame.starts_with(&self.station) || frame.starts_with(&BROADCAST))
    }

    /// The frame that comes back of one to the station: to its sender, from the station, with the same
    /// type and data.
    fn frame_back(&self, frame: &[u8]) -> Option<Rndis>
        requires { length frame.now ≤ 1514 }
        ensures value { result ≡ frame_back self.now frame.now }
        ensures sized { IfSome result (λ m. (type_of m ≡ PacketMsg) × (length (body_of m) ≡ length frame.now)) }
        ensures bytes { IfSome result (λ m. AllByRecursion (λ b. b < 256) (body_of m)) }
    {
        if !self.is_addressed(frame) {
            return None;
        }
        let mut back = Small::of(&frame[6..12]);
        back.extend(&self.station);
        back.extend(frame.split_at(12).1);
        Some(Rndis::Packet { body: back })
    }

    /// The bytes of an object.
    fn value(&self, answer: Answer) -> Small
        ensures value { result ≡ value_bytes self.now answer }
        ensures few { length result ≤ 40 }
        ensures bytes { AllByRecursion (λ b. b < 256) result }
    {
        match answer {
            Answer::Objects => objects::object_list(),
            Answer::Number(n) => number_bytes(n),
            Answer::Filter => number_bytes(self.filter),
            Answer::Address => Small::of(&self.mac),
        }
    }

    /// The answer to a query: the object's bytes, or that there is no such object.
    fn query(&self, request_id: u32, oid: u32) -> Rndis
        ensures value { result ≡ query_reply self.now request_id oid }
        ensures sized { (type_of result ≡ QueryCmplt) × (length (body_of result) ≤ 40) }
        ensures form { InForm result }
        ensures bytes { AllByRecursion (λ b. b < 256) (body_of result) }
    {
        match objects::answer_of(oid) {
            Some(answer) => Rndis::QueryComplete {
                request_id,
                status: 0,
                body: self.value(answer),
            },
            None => Rndis::QueryComplete {
                request_id,
                status: NOT_SUPPORTED,
                body: Small::empty(),
            },
        }
    }

    /// Sets an object, where it is the packet filter and the value has 4 bytes, and answers the status.
    fn set(&mut self, oid: u32, value: &[u8]) -> u32
        ensures status { result ≡ set_status oid value.now }
        ensures filter { self.new.filter ≡ filter_set self.old.filter oid value.now }
        ensures mac { self.new.mac ≡ self.old.mac }
        ensures station { self.new.station ≡ self.old.station }
    {
        if oid != PACKET_FILTER {
            return NOT_SUPPORTED;
        }
        if value.len() != 4 {
            return INVALID_DATA;
        }
        self.filter = number(value) as u32;
        0
    }

    /// Serves a message.
    fn serve(&mut self, message: &Rndis) -> NetReply
        ensures reply { result ≡ station_reply self.old (Ok message.now) }
        ensures fits { Keeps (Ok message.now) result }
        ensures after { self.new ≡ station_after self.old (Ok message.now) }
    {
        let back = match message {
            Rndis::Packet { body } => self.frame_back(body.bytes()),
            Rndis::Initialize { request_id, .. } => Some(initialize_complete(*request_id)),
            Rndis::Halt { .. } => None,
            Rndis::Query {
                request_id,
                oid,
                ..
            } => Some(self.query(*request_id, *oid)),
            Rndis::Set {
                request_id,
                oid,
                body,
            } => Some(Rndis::SetComplete {
                request_id: *request_id,
                status: self.set(*oid, body.bytes()),
            }),
            Rndis::Reset => {
                self.filter = 0;
                Some(Rndis::ResetComplete {
                    status: 0,
                    addressing_reset: 0,
                })
            }
            Rndis::Keepalive { request_id } => Some(Rndis::KeepaliveComplete {
                request_id: *request_id,
                status: 0,
            }),
            Rndis::InitializeComplete { .. }
            | Rndis::QueryComplete { .. }
            | Rndis::SetComplete { .. }
            | Rndis::ResetComplete { .. }
            | Rndis::KeepaliveComplete { .. } => return refused(),
        };
        NetReply { status: 1, back }
    }
}

/// The answer to what isn't served.
fn refused() -> NetReply
    ensures { result ≡ record { status = 2; back = None } }
{
    NetReply {
        status: 2,
        back: None,
    }
}

/// The bytes of a number.
fn number_bytes(n: u32) -> Small
    ensures value { result ≡ bytes_of 4 n }
    ensures few { length result ≡ 4 }
    ensures bytes { AllByRecursion (λ b. b < 256) result }
{
    let mut bytes = [0; 4];
    put_at(&mut bytes, 0, 4, u64::from(n));
    Small::of(&bytes)
}

/// The answer to an initialize: version 1.0, connectionless, 802.3, one message of 2,048 bytes in a
/// transfer, and no alignment.
fn initialize_complete(request_id: u32) -> Rndis
    ensures { result ≡ initialize_reply request_id }
{
    Rndis::InitializeComplete {
        request_id,
        status: 0,
        major: 1,
        minor: 0,
        device_flags: 1,
        medium: 0,
        max_packets: 1,
        max_transfer: 2048,
        alignment: 0,
    }
}

impl Machine for Station {
    ghost use Rattle.std.specs.Prelude.{refl};
    ghost use Rattle.net_dev.specs.Station.{unfiltered, station_after, station_reply, Keeps};

    type Request = Result<Rndis, RndisFault>;

    type Reply = NetReply;

    ghost first = { unfiltered };

    ghost after = { station_after };

    ghost reply_to = { station_reply };

    ghost fits = { Keeps };

    /// Serves one message, or refuses bytes that are none. It takes no memory.
    ///
    /// A frame to the station or to all stations comes back, any other is passed over. An initialize, a
    /// keepalive and a reset succeed, and a reset puts 0 in the packet filter. A query gives the object's
    /// value, or status 0xc00000bb. A set of 4 bytes is kept as packet filter; of another length it has
    /// status 0xc0010015, and of another object 0xc00000bb. A halt has no answer. What a host sends is
    /// refused.
    ///
    /// Source: the Remote NDIS specification; the guest's part is `drivers/net/hyperv/rndis_filter.c` of Linux
    /// 6.12.
    fn apply(&mut self, request: &Result<Rndis, RndisFault>) -> NetReply
        ensures reply { result ≡ station_reply self.old request.now }
        ensures fits { Keeps request.now result }
        ensures after { self.new ≡ station_after self.old request.now }
    {
        match request {
            Ok(message) => self.serve(message),
            Err(_) => refused(),
        }
    }

    /// The same answer once more. It takes no memory.
    fn copy(reply: &NetReply) -> NetReply {
        reply.again()
    }

    ghost keeps_setup = { λ s q. refl };
}
