//! A place at a register, from which the serving end's worker calls it.
ghost use Rattle.std.specs.Prelude.{◌≡◌};

use crate::register::Register;
use crate::register_protocol::RegisterProtocol;
use channel_protocol::Device;
use hist_lock::HistSeat;
use std::sync::Wait;

/// A place at a register's history: each call is one entry there.
#[derive(Drop)]
pub struct RegisterSeat {
    pub(crate) seat: HistSeat<Register>,
}

impl RegisterSeat {
    /// A place from which the calls of this seat are made.
    pub fn over(seat: HistSeat<Register>) -> RegisterSeat
        ensures { result.seat ≡ seat }
    {
        RegisterSeat { seat }
    }
}

impl Device<RegisterProtocol> for RegisterSeat {
    ghost use Rattle.std.specs.Prelude.{◌≡◌, refl};
    ghost use Rattle.std.proofs.Common.{◌∙◌};

    ghost calls = { λ s. s.seat.calls };

    ghost left = { λ s. s.seat.left };

    ghost serves = { λ s t. Unit {0} };

    ghost same = { λ s t. (t.seat.lock ≡ s.seat.lock) × (t.seat.number ≡ s.seat.number) };

    ghost same_refl = { λ s. (refl, refl) };

    ghost same_trans = { λ s t u p q. (q.0 ∙ p.0, q.1 ∙ p.1) };

    fn left(&self) -> u32 {
        self.seat.left()
    }

    fn call<R: Wait>(&mut self, rt: &R, _protocol: &RegisterProtocol, request: u64) -> (u32, u64) {
        let receipt = self.seat.with(rt, request);
        (receipt.serial, receipt.reply)
    }
}
