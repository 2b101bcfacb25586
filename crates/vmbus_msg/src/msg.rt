//! The control messages.

use crate::gpadl_body::GpadlBody;
use crate::gpadl_header::GpadlHeader;

/// A control message, with the fields of `include/linux/hyperv.h` in their order. Its padding and
/// its reserved fields are kept, so that its bytes can be written again.
///
/// A message is always in form: what a page list's header or body may hold is a fact of its type.
#[derive(Clone, Copy)]
pub enum Msg {
    /// OFFERCHANNEL, type 1. Host to guest: a channel is offered.
    OfferChannel {
        padding: u32,
        if_type: [u8; 16],
        if_instance: [u8; 16],
        reserved1: u64,
        reserved2: u64,
        chn_flags: u16,
        mmio: u16,
        user: [u8; 120],
        sub: u16,
        reserved3: u16,
        relid: u32,
        monitorid: u8,
        monitor: u8,
        interrupt: u16,
        connection: u32,
    },
    /// RESCIND_CHANNELOFFER, type 2. Host to guest: an offer is taken back.
    RescindChannelOffer {
        padding: u32,
        relid: u32,
    },
    /// REQUESTOFFERS, type 3. Guest to host: which channels are offered?
    RequestOffers {
        padding: u32,
    },
    /// ALLOFFERS_DELIVERED, type 4. Host to guest: all offers were sent.
    AllOffersDelivered {
        padding: u32,
    },
    /// OPENCHANNEL, type 5. Guest to host: open a channel on a page list.
    OpenChannel {
        padding: u32,
        relid: u32,
        openid: u32,
        gpadl: u32,
        target_vp: u32,
        downstream: u32,
        user: [u8; 120],
    },
    /// OPENCHANNEL_RESULT, type 6. Host to guest: whether a channel is open; status 0 is good.
    OpenChannelResult {
        padding: u32,
        relid: u32,
        openid: u32,
        status: u32,
    },
    /// CLOSECHANNEL, type 7. Guest to host: close a channel.
    CloseChannel {
        padding: u32,
        relid: u32,
    },
    /// GPADL_HEADER, type 8. Guest to host: a page list begins.
    GpadlHeader(GpadlHeader),
    /// GPADL_BODY, type 9. Guest to host: a page list goes on.
    GpadlBody(GpadlBody),
    /// GPADL_CREATED, type 10. Host to guest: a page list is known; status 0 is good.
    GpadlCreated {
        padding: u32,
        relid: u32,
        gpadl: u32,
        status: u32,
    },
    /// GPADL_TEARDOWN, type 11. Guest to host: let a page list go.
    GpadlTeardown {
        padding: u32,
        relid: u32,
        gpadl: u32,
    },
    /// GPADL_TORNDOWN, type 12. Host to guest: a page list is gone.
    GpadlTorndown {
        padding: u32,
        gpadl: u32,
    },
    /// RELID_RELEASED, type 13. Guest to host: a channel's number may be used again.
    RelidReleased {
        padding: u32,
        relid: u32,
    },
    /// INITIATE_CONTACT, type 14. Guest to host: this version is proposed.
    InitiateContact {
        padding: u32,
        version: u32,
        target_vcpu: u32,
        page: u64,
        monitor1: u64,
        monitor2: u64,
    },
    /// VERSION_RESPONSE, type 15. Host to guest: whether a version is supported.
    VersionResponse {
        padding: u32,
        supported: u8,
        state: u8,
        padding2: u16,
        conn: u32,
    },
    /// UNLOAD, type 16. Guest to host: the connection ends.
    Unload {
        padding: u32,
    },
    /// UNLOAD_RESPONSE, type 17. Host to guest: the connection has ended.
    UnloadResponse {
        padding: u32,
    },
    /// TL_CONNECT_REQUEST, type 21. Guest to host: offer a channel of this service for a socket.
    TlConnectRequest {
        padding: u32,
        guest_endpoint: [u8; 16],
        host_service: [u8; 16],
    },
    /// MODIFYCHANNEL, type 22. Guest to host: interrupt this virtual processor for a channel.
    ModifyChannel {
        padding: u32,
        relid: u32,
        target_vp: u32,
    },
    /// MODIFYCHANNEL_RESPONSE, type 24. Host to guest: whether that was done; status 0 is good.
    ModifyChannelResponse {
        padding: u32,
        relid: u32,
        status: u32,
    },
}
