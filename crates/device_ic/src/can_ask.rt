//! What can be asked of a service.
ghost use Rattle.std.specs.Prelude.{◌≡◌, true};
ghost use Rattle.ic_format.specs.Services.{IsBeatAsk, IsDownAsk};

use util_ic::IcAsk;

/// Whether a heartbeat is asked.
pub fn is_beat_ask(ask: IcAsk) -> bool
    ensures can { result ≡ true → IsBeatAsk ask }
    ensures only { IsBeatAsk ask → result ≡ true }
{
    matches!(ask, IcAsk::Beat { .. })
}

/// Whether a shutdown is asked.
pub fn is_down_ask(ask: IcAsk) -> bool
    ensures can { result ≡ true → IsDownAsk ask }
    ensures only { IsDownAsk ask → result ≡ true }
{
    matches!(ask, IcAsk::Down { .. })
}
