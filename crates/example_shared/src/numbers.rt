//! A device to put behind a lock: it gives out numbers.
ghost use Rattle.std.specs.Prelude.{◌≡◌};

use hist_lock::Machine;

/// Gives out numbers of 32 bits: a request asks for so many, and the reply is the first of them. Behind the last one it begins again at 0.
#[derive(Drop)]
pub struct Numbers {
    next: u32,
}

impl Numbers {
    /// One that gives out 0 next.
    pub fn make() -> Numbers
        ensures { result ≡ record { next = 0 } }
    {
        Numbers { next: 0 }
    }
}

impl Machine for Numbers {
    ghost use Rattle.std.specs.Prelude.{◌≡◌, refl};
    ghost use Rattle.example_shared.specs.Given.{behind};

    type Request = u32;

    type Reply = u32;

    ghost first = { λ s. record { next = 0 } };

    ghost after = { λ s q. record { next = behind s.next q } };

    ghost reply_to = { λ s q. s.next };

    ghost fits = { λ q r. Unit {0} };

    fn apply(&mut self, request: &u32) -> u32 {
        let first = self.next;
        self.next = first.wrapping_add(*request);
        first
    }

    fn copy(reply: &u32) -> u32 {
        *reply
    }

    ghost keeps_setup = { λ s q. refl };
}
