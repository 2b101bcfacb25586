//! The NVSP messages.

/// A message of the network virtual service, with the fields of struct `nvsp_message` of Linux 6.12,
/// `drivers/net/hyperv/hyperv_net.h`, in their order. Each takes 40 bytes; those behind the fields are 0
/// and passed over.
#[derive(Clone, Copy, Debug, PartialEq, Eq)]
pub enum Nvsp {
    /// NVSP_MSG_TYPE_INIT, 1. Guest to host: the versions that the guest serves.
    Init {
        min: u32,
        max: u32,
    },
    /// NVSP_MSG_TYPE_INIT_COMPLETE, 2. Host to guest: the version; status 1 is success.
    InitComplete {
        version: u32,
        mdl_chain_length: u32,
        status: u32,
    },
    /// NVSP_MSG1_TYPE_SEND_NDIS_VER, 100. Guest to host: the version of NDIS. Nobody answers it.
    NdisVersion {
        major: u32,
        minor: u32,
    },
    /// NVSP_MSG1_TYPE_SEND_RECV_BUF, 101. Guest to host: the page list of the receive buffer.
    ReceiveBuffer {
        gpadl: u32,
        id: u16,
    },
    /// NVSP_MSG1_TYPE_SEND_RECV_BUF_COMPLETE, 102. Host to guest: status 1 is success; how many sections
    /// the receive buffer has, and the first of them.
    ReceiveBufferComplete {
        status: u32,
        count: u32,
        offset: u32,
        sub_alloc_size: u32,
        num_sub_allocs: u32,
        end_offset: u32,
    },
    /// NVSP_MSG1_TYPE_SEND_SEND_BUF, 104. Guest to host: the page list of the send buffer.
    SendBuffer {
        gpadl: u32,
        id: u16,
    },
    /// NVSP_MSG1_TYPE_SEND_SEND_BUF_COMPLETE, 105. Host to guest: status 1 is success; the size of a
    /// section of the send buffer, in bytes.
    SendBufferComplete {
        status: u32,
        section_size: u32,
    },
    /// NVSP_MSG1_TYPE_SEND_RNDIS_PKT, 107. Either way: a Remote NDIS message, data on channel type 0 and
    /// control on 1, in a section of the send buffer; section index 0xffffffff means in none.
    RndisPacket {
        channel_type: u32,
        section_index: u32,
        section_size: u32,
    },
    /// NVSP_MSG1_TYPE_SEND_RNDIS_PKT_COMPLETE, 108. Either way: status 1 is success.
    RndisPacketComplete {
        status: u32,
    },
}
