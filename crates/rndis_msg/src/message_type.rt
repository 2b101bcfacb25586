//! The types of messages.
ghost use Rattle.std.specs.Prelude.{◌≡◌, ◌+◌, ◌≤◌, Some, IfSome};
ghost use Rattle.rndis_msg.specs.Types.{message_type, number_of_type, fixed_part, buffer_place};

/// The types of messages, by their names in the Remote NDIS specification.
#[derive(Clone, Copy, Debug, PartialEq, Eq)]
pub enum MessageType {
    /// 1.
    PacketMsg,
    /// 2.
    InitializeMsg,
    /// 0x80000002.
    InitializeCmplt,
    /// 3.
    HaltMsg,
    /// 4.
    QueryMsg,
    /// 0x80000004.
    QueryCmplt,
    /// 5.
    SetMsg,
    /// 0x80000005.
    SetCmplt,
    /// 6.
    ResetMsg,
    /// 0x80000006.
    ResetCmplt,
    /// 8.
    KeepaliveMsg,
    /// 0x80000008.
    KeepaliveCmplt,
}

/// Where a message says where its buffer is: the bytes at which these two fields begin.
#[derive(Clone, Copy, Debug, PartialEq, Eq)]
pub struct BufferPlace {
    /// The data or info offset, counted from byte 8.
    pub offset: usize,
    /// The data or info length.
    pub length: usize,
}

impl MessageType {
    /// The type of a number, or `None` where there is none.
    pub(crate) fn of(number: u32) -> Option<MessageType>
        ensures value { result ≡ message_type number }
        ensures again { IfSome result (λ t. number_of_type t ≡ number) }
    {
        match number {
            1 => Some(MessageType::PacketMsg),
            2 => Some(MessageType::InitializeMsg),
            0x8000_0002 => Some(MessageType::InitializeCmplt),
            3 => Some(MessageType::HaltMsg),
            4 => Some(MessageType::QueryMsg),
            0x8000_0004 => Some(MessageType::QueryCmplt),
            5 => Some(MessageType::SetMsg),
            0x8000_0005 => Some(MessageType::SetCmplt),
            6 => Some(MessageType::ResetMsg),
            0x8000_0006 => Some(MessageType::ResetCmplt),
            8 => Some(MessageType::KeepaliveMsg),
            0x8000_0008 => Some(MessageType::KeepaliveCmplt),
            _ => None,
        }
    }

    /// How many bytes the fixed part has, type and length included.
    pub(crate) fn fixed_part(self) -> u32
        ensures value { result ≡ fixed_part self }
        ensures few { result ≤ 52 }
    {
        match self {
            MessageType::PacketMsg => 44,
            MessageType::InitializeCmplt => 52,
            MessageType::QueryMsg | MessageType::SetMsg => 28,
            MessageType::InitializeMsg | MessageType::QueryCmplt => 24,
            MessageType::SetCmplt | MessageType::ResetCmplt | MessageType::KeepaliveCmplt => 16,
            MessageType::HaltMsg | MessageType::ResetMsg | MessageType::KeepaliveMsg => 12,
        }
    }

    /// Where the fields of the buffer stand, in a message that may have one.
    pub(crate) fn buffer_place(self) -> Option<BufferPlace>
        ensures value { result ≡ buffer_place self }
        ensures within { IfSome result (λ p. (p.offset + 4 ≤ fixed_part self) × (p.length + 4 ≤ fixed_part self)) }
    {
        match self {
            MessageType::PacketMsg => Some(BufferPlace {
                offset: 8,
                length: 12,
            }),
            MessageType::QueryMsg | MessageType::QueryCmplt | MessageType::SetMsg => {
                Some(BufferPlace {
                    offset: 20,
                    length: 16,
                })
            }
            _ => None,
        }
    }
}
