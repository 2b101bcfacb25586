//! The operations of a storage packet.
ghost use Rattle.std.specs.Prelude.{◌≡◌, Some};
ghost use Rattle.stor_proto.specs.Operations.{operation_of, number_of_operation};

/// An operation (enum `vstor_packet_operation`).
#[derive(Clone, Copy, Debug, PartialEq, Eq)]
pub enum Operation {
    /// 1: an answer.
    CompleteIo,
    /// 2: the device goes.
    RemoveDevice,
    /// 3: a SCSI request.
    ExecuteSrb,
    /// 7: the start-up begins.
    BeginInitialization,
    /// 8: the start-up ends.
    EndInitialization,
    /// 9: is this version of the protocol served?
    QueryProtocolVersion,
    /// 10: how many sub-channels, and how many bytes at most?
    QueryProperties,
    /// 11: look for devices.
    EnumerateBus,
    /// 13: so many sub-channels are wanted.
    CreateSubChannels,
}

impl Operation {
    /// The operation of a number, or `None` where there is none.
    pub fn of(number: u32) -> Option<Operation>
        ensures { result ≡ operation_of number }
    {
        match number {
            1 => Some(Operation::CompleteIo),
            2 => Some(Operation::RemoveDevice),
            3 => Some(Operation::ExecuteSrb),
            7 => Some(Operation::BeginInitialization),
            8 => Some(Operation::EndInitialization),
            9 => Some(Operation::QueryProtocolVersion),
            10 => Some(Operation::QueryProperties),
            11 => Some(Operation::EnumerateBus),
            13 => Some(Operation::CreateSubChannels),
            _ => None,
        }
    }

    /// Its number.
    pub fn number(self) -> u32
        ensures value { result ≡ number_of_operation self }
        ensures known { operation_of result ≡ Some self }
    {
        match self {
            Operation::CompleteIo => 1,
            Operation::RemoveDevice => 2,
            Operation::ExecuteSrb => 3,
            Operation::BeginInitialization => 7,
            Operation::EndInitialization => 8,
            Operation::QueryProtocolVersion => 9,
            Operation::QueryProperties => 10,
            Operation::EnumerateBus => 11,
            Operation::CreateSubChannels => 13,
        }
    }
}
