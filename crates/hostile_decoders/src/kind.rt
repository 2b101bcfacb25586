//! The number of a message's type.
ghost use Rattle.std.specs.Prelude.{◌≡◌};
ghost use Rattle.vmbus_msg.specs.Grammar.{type_of};

use vmbus_msg::Msg;

/// The number of a message's type.
pub(crate) fn type_of(m: &Msg) -> u32
    ensures { result ≡ type_of m.now }
{
    match m {
        Msg::OfferChannel { .. } => 1,
        Msg::RescindChannelOffer { .. } => 2,
        Msg::RequestOffers { .. } => 3,
        Msg::AllOffersDelivered { .. } => 4,
        Msg::OpenChannel { .. } => 5,
        Msg::OpenChannelResult { .. } => 6,
        Msg::CloseChannel { .. } => 7,
        Msg::GpadlHeader(_) => 8,
        Msg::GpadlBody(_) => 9,
        Msg::GpadlCreated { .. } => 10,
        Msg::GpadlTeardown { .. } => 11,
        Msg::GpadlTorndown { .. } => 12,
        Msg::RelidReleased { .. } => 13,
        Msg::InitiateContact { .. } => 14,
        Msg::VersionResponse { .. } => 15,
        Msg::Unload { .. } => 16,
        Msg::UnloadResponse { .. } => 17,
        Msg::TlConnectRequest { .. } => 21,
        Msg::ModifyChannel { .. } => 22,
        Msg::ModifyChannelResponse { .. } => 24,
    }
}
