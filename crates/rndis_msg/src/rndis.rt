//! The messages.
ghost use Rattle.std.specs.Prelude.{◌≡◌, None};
ghost use Rattle.rndis_msg.specs.Types.{buffer_place};
ghost use Rattle.rndis_msg.specs.Messages.{type_of};

use crate::Small;

/// A Remote NDIS message, with the fields that this protocol's ends look at. Lengths and offsets follow
/// from the buffer. Out-of-band data, per-packet information, handles and reserved fields are written 0
/// and passed over.
#[derive(Drop)]
pub enum Rndis {
    /// REMOTE_NDIS_PACKET_MSG, type 1. Either way: one Ethernet frame.
    Packet {
        body: Small,
    },
    /// REMOTE_NDIS_INITIALIZE_MSG, type 2. Guest to host: begin, with this version and at most so many
    /// bytes in one transfer.
    Initialize {
        request_id: u32,
        major: u32,
        minor: u32,
        max_transfer: u32,
    },
    /// REMOTE_NDIS_INITIALIZE_CMPLT, type 0x80000002. Host to guest: status 0 is success. The alignment
    /// is a power of two's exponent, the medium 0 is 802.3.
    InitializeComplete {
        request_id: u32,
        status: u32,
        major: u32,
        minor: u32,
        device_flags: u32,
        medium: u32,
        max_packets: u32,
        max_transfer: u32,
        alignment: u32,
    },
    /// REMOTE_NDIS_HALT_MSG, type 3. Guest to host: end. Nothing comes back.
    Halt {
        request_id: u32,
    },
    /// REMOTE_NDIS_QUERY_MSG, type 4. Guest to host: what is the value of this object?
    Query {
        request_id: u32,
        oid: u32,
        body: Small,
    },
    /// REMOTE_NDIS_QUERY_CMPLT, type 0x80000004. Host to guest: the value; status 0 is success.
    QueryComplete {
        request_id: u32,
        status: u32,
        body: Small,
    },
    /// REMOTE_NDIS_SET_MSG, type 5. Guest to host: this object gets this value.
    Set {
        request_id: u32,
        oid: u32,
        body: Small,
    },
    /// REMOTE_NDIS_SET_CMPLT, type 0x80000005. Host to guest: status 0 is success.
    SetComplete {
        request_id: u32,
        status: u32,
    },
    /// REMOTE_NDIS_RESET_MSG, type 6. Guest to host: go back to the first state.
    Reset,
    /// REMOTE_NDIS_RESET_CMPLT, type 0x80000006. Host to guest: status 0 is success; where the
    /// addressing was reset the guest sets its filter again.
    ResetComplete {
        status: u32,
        addressing_reset: u32,
    },
    /// REMOTE_NDIS_KEEPALIVE_MSG, type 8. Either way: are you there?
    Keepalive {
        request_id: u32,
    },
    /// REMOTE_NDIS_KEEPALIVE_CMPLT, type 0x80000008. Either way: status 0 is success.
    KeepaliveComplete {
        request_id: u32,
        status: u32,
    },
}

impl Rndis {
    /// The same message. It takes no memory.
    pub fn again(&self) -> Rndis
        ensures { result ≡ self.now }
    {
        match self {
            Rndis::Packet { body } => Rndis::Packet { body: body.again() },
            Rndis::Query {
                request_id,
                oid,
                body,
            } => Rndis::Query {
                request_id: *request_id,
                oid: *oid,
                body: body.again(),
            },
            Rndis::QueryComplete {
                request_id,
                status,
                body,
            } => Rndis::QueryComplete {
                request_id: *request_id,
                status: *status,
                body: body.again(),
            },
            Rndis::Set {
                request_id,
                oid,
                body,
            } => Rndis::Set {
                request_id: *request_id,
                oid: *oid,
                body: body.again(),
            },
            _ => self.again_fixed(),
        }
    }

    /// The same message, of those without a buffer.
    fn again_fixed(&self) -> Rndis
        requires { buffer_place (type_of self.now) ≡ None }
        ensures { result ≡ self.now }
    {
        match *self {
            Rndis::Packet { .. }
            | Rndis::Query { .. }
            | Rndis::QueryComplete { .. }
            | Rndis::Set { .. } => unreachable!(),
            Rndis::Initialize {
                request_id,
                major,
                minor,
                max_transfer,
            } => Rndis::Initialize {
                request_id,
                major,
                minor,
                max_transfer,
            },
            Rndis::InitializeComplete {
                request_id,
                status,
                major,
                minor,
                device_flags,
                medium,
                max_packets,
                max_transfer,
                alignment,
            } => Rndis::InitializeComplete {
                request_id,
                status,
                major,
                minor,
                device_flags,
                medium,
                max_packets,
                max_transfer,
                alignment,
            },
            Rndis::Halt { request_id } => Rndis::Halt { request_id },
            Rndis::SetComplete { request_id, status } => Rndis::SetComplete { request_id, status },
            Rndis::Reset => Rndis::Reset,
            Rndis::ResetComplete {
                status,
                addressing_reset,
            } => Rndis::ResetComplete {
                status,
                addressing_reset,
            },
            Rndis::Keepalive { request_id } => Rndis::Keepalive { request_id },
            Rndis::KeepaliveComplete { request_id, status } => {
                Rndis::KeepaliveComplete { request_id, status }
            }
        }
    }
}
