//! A peer whose indices are in no form.
use ring_core::{EndCore, Seatlike};

/// A seat, of a ring of 16 pages, at which each load gives the greatest number: no index and no length has it.
#[derive(Drop)]
pub struct BadSeat;

impl Seatlike for BadSeat {
    ghost use Rattle.std.specs.Prelude.{None, refl};
    ghost use Rattle.ring_core.specs.Told.{tells_nothing};

    ghost cells = { λ _. 8192 };

    ghost pages = { λ _. 0 };

    ghost tale = { λ _. tells_nothing };

    ghost told = { λ _. None };

    ghost same = { λ _ _. Unit {0} };

    ghost same_refl = { λ _. tt };

    ghost same_trans = { λ _ _ _ _ _. tt };

    ghost same_pages = { λ _ _ _. refl };

    fn perform(&mut self, _core: &EndCore, _packet: &[u64]) -> u64 {
        u64::MAX
    }
}
