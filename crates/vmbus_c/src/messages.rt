//! Control messages.
ghost use Rattle.std.specs.Prelude.{◌≡◌, ◌≢◌, Some};
ghost use Rattle.vmbus_msg.specs.declared.msg.Msg.{Msg as Message};
ghost use Rattle.vmbus_msg.specs.declared.fault.MsgFault.{MsgFault as Fault};
ghost use Rattle.vmbus_msg.specs.Grammar.{IsMessage};
ghost use Rattle.vmbus_msg.specs.Faults.{fault_of};
ghost use Rattle.vmbus_c.specs.Messages.{bare, fields_of, number_of, told_of};

use vmbus_fault::VmbusFault;
use vmbus_msg::{FieldName, Msg, MsgFault, decode};

/// The numbers of a control message, under the names of Linux's `include/linux/hyperv.h`. Those that its type doesn't have are 0. Ids of 16 bytes, user
/// data and page frame numbers stand in the bytes, at the places that the header names.
#[repr(C)]
#[derive(Clone, Copy, PartialEq, Eq)]
pub struct VmbusMessage {
    /// The type: 1 to 17, 21, 22 or 24.
    pub kind: u32,
    /// The four bytes after the type.
    pub padding: u32,
    /// The channel's number.
    pub relid: u32,
    pub openid: u32,
    pub gpadl: u32,
    /// 0 is good.
    pub status: u32,
    pub target_vp: u32,
    pub downstream: u32,
    pub version: u32,
    pub target_vcpu: u32,
    pub supported: u32,
    pub state: u32,
    pub padding2: u32,
    pub conn: u32,
    pub msgnumber: u32,
    pub range_buflen: u32,
    pub rangecount: u32,
    pub byte_count: u32,
    pub byte_offset: u32,
    /// How many page frame numbers a page list's header or body holds: from byte 28, or 16.
    pub frames: u32,
    pub chn_flags: u32,
    pub mmio: u32,
    pub sub: u32,
    pub reserved3: u32,
    pub monitorid: u32,
    pub monitor: u32,
    pub interrupt: u32,
    pub connection: u32,
    pub page: u64,
    pub monitor1: u64,
    pub monitor2: u64,
    pub reserved1: u64,
    pub reserved2: u64,
}

// A message of this type, and nothing else.
fn bare(kind: u32, padding: u32) -> VmbusMessage
    ensures { result ≡ bare kind padding }
{
    VmbusMessage {
        kind,
        padding,
        relid: 0,
        openid: 0,
        gpadl: 0,
        status: 0,
        target_vp: 0,
        downstream: 0,
        version: 0,
        target_vcpu: 0,
        supported: 0,
        state: 0,
        padding2: 0,
        conn: 0,
        msgnumber: 0,
        range_buflen: 0,
        rangecount: 0,
        byte_count: 0,
        byte_offset: 0,
        frames: 0,
        chn_flags: 0,
        mmio: 0,
        sub: 0,
        reserved3: 0,
        monitorid: 0,
        monitor: 0,
        interrupt: 0,
        connection: 0,
        page: 0,
        monitor1: 0,
        monitor2: 0,
        reserved1: 0,
        reserved2: 0,
    }
}

// The numbers of a message.
pub(crate) fn fields(m: &Msg) -> VmbusMessage
    ensures { result ≡ fields_of m.now }
{
    match *m {
        Msg::OfferChannel {
            padding,
            if_type: _,
            if_instance: _,
            reserved1,
            reserved2,
            chn_flags,
            mmio,
            user: _,
            sub,
            reserved3,
            relid,
            monitorid,
            monitor,
            interrupt,
            connection,
        } => VmbusMessage {
            reserved1,
            reserved2,
            chn_flags: u32::from(chn_flags),
            mmio: u32::from(mmio),
            sub: u32::from(sub),
            reserved3: u32::from(reserved3),
            relid,
            monitorid: u32::from(monitorid),
            monitor: u32::from(monitor),
            interrupt: u32::from(interrupt),
            connection,
            ..bare(1, padding)
        },
        Msg::RescindChannelOffer { padding, relid } => VmbusMessage {
            relid,
            ..bare(2, padding)
        },
        Msg::RequestOffers { padding } => bare(3, padding),
        Msg::AllOffersDelivered { padding } => bare(4, padding),
        Msg::OpenChannel {
            padding,
            relid,
            openid,
            gpadl,
            target_vp,
            downstream,
            user: _,
        } => VmbusMessage {
            relid,
            openid,
            gpadl,
            target_vp,
            downstream,
            ..bare(5, padding)
        },
        Msg::OpenChannelResult {
            padding,
            relid,
            openid,
            status,
        } => VmbusMessage {
            relid,
            openid,
            status,
            ..bare(6, padding)
        },
        Msg::CloseChannel { padding, relid } => VmbusMessage {
            relid,
            ..bare(7, padding)
        },
        Msg::GpadlHeader(h) => VmbusMessage {
            relid: h.relid,
            gpadl: h.gpadl,
            range_buflen: u32::from(h.range_buflen),
            rangecount: u32::from(h.rangecount),
            byte_count: h.byte_count,
            byte_offset: h.byte_offset,
            frames: h.frames.len() as u32,
            ..bare(8, h.padding)
        },
        Msg::GpadlBody(b) => VmbusMessage {
            msgnumber: b.msgnumber,
            gpadl: b.gpadl,
            frames: b.frames.len() as u32,
            ..bare(9, b.padding)
        },
        Msg::GpadlCreated {
            padding,
            relid,
            gpadl,
            status,
        } => VmbusMessage {
            relid,
            gpadl,
            status,
            ..bare(10, padding)
        },
        Msg::GpadlTeardown {
            padding,
            relid,
            gpadl,
        } => VmbusMessage {
            relid,
            gpadl,
            ..bare(11, padding)
        },
        Msg::GpadlTorndown { padding, gpadl } => VmbusMessage {
            gpadl,
            ..bare(12, padding)
        },
        Msg::RelidReleased { padding, relid } => VmbusMessage {
            relid,
            ..bare(13, padding)
        },
        Msg::InitiateContact {
            padding,
            version,
            target_vcpu,
            page,
            monitor1,
            monitor2,
        } => VmbusMessage {
            version,
            target_vcpu,
            page,
            monitor1,
            monitor2,
            ..bare(14, padding)
        },
        Msg::VersionResponse {
            padding,
            supported,
            state,
            padding2,
            conn,
        } => VmbusMessage {
            supported: u32::from(supported),
            state: u32::from(state),
            padding2: u32::from(padding2),
            conn,
            ..bare(15, padding)
        },
        Msg::Unload { padding } => bare(16, padding),
        Msg::UnloadResponse { padding } => bare(17, padding),
        Msg::TlConnectRequest {
            padding,
            guest_endpoint: _,
            host_service: _,
        } => bare(21, padding),
        Msg::ModifyChannel {
            padding,
            relid,
            target_vp,
        } => VmbusMessage {
            relid,
            target_vp,
            ..bare(22, padding)
        },
        Msg::ModifyChannelResponse {
            padding,
            relid,
            status,
        } => VmbusMessage {
            relid,
            status,
            ..bare(24, padding)
        },
    }
}

// The number of a refusal.
fn number(fault: &MsgFault) -> u32
    ensures value { result ≡ number_of fault.now }
    ensures some { result ≢ 0 }
{
    match fault {
        MsgFault::Short { .. } => 1,
        MsgFault::Unknown { .. } => 2,
        MsgFault::Long { .. } => 3,
        MsgFault::Field { .. } => 4,
    }
}

// The numbers of a refusal.
fn told(fault: &MsgFault) -> VmbusFault
    ensures { result ≡ told_of fault.now }
{
    match *fault {
        MsgFault::Short { have, need } => VmbusFault {
            have,
            need,
            field: 0,
            value: 0,
        },
        MsgFault::Unknown { kind } => VmbusFault {
            have: 0,
            need: 0,
            field: 0,
            value: u64::from(kind),
        },
        MsgFault::Long { have } => VmbusFault {
            have,
            need: 0,
            field: 0,
            value: 0,
        },
        MsgFault::Field {
            name: FieldName::RangeBuflen,
            value,
        } => VmbusFault {
            have: 0,
            need: 0,
            field: 1,
            value,
        },
        MsgFault::Field {
            name: FieldName::Rangecount,
            value,
        } => VmbusFault {
            have: 0,
            need: 0,
            field: 2,
            value,
        },
    }
}

/// Reads the control message that the bytes are, all of them, and answers 0. Otherwise it answers the number of the first fault and tells its numbers: 1 short
/// (`have` and `need` bytes), 2 unknown (`value` is the type), 3 long (`have` bytes), 4 a field of a page list's header (`field` 1 is range_buflen and 2
/// rangecount, of this `value`).
#[unsafe(no_mangle)]
pub extern "C" fn vmbus_message_read(
    bytes: &[u8],
    message: &mut VmbusMessage,
    fault: &mut VmbusFault,
) -> u32
    ensures read { result ≡ 0 → (m : Message) × (IsMessage m bytes.now × (message.new ≡ fields_of m)) }
    ensures only { (m : Message) → IsMessage m bytes.now → (result ≡ 0) × (message.new ≡ fields_of m) }
    ensures fault { result ≢ 0 → (e : Fault) × ((fault_of bytes.now ≡ Some e) × (result ≡ number_of e) × (fault.new ≡ told_of e)) }
    ensures kept { (result ≢ 0 → message.new ≡ message.old) × (result ≡ 0 → fault.new ≡ fault.old) }
{
    match decode(bytes) {
        Ok(m) => {
            *message = fields(&m);
            0
        }
        Err(e) => {
            *fault = told(&e);
            number(&e)
        }
    }
}
