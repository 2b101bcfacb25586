//! A device of one's own: a machine of requests and replies.
ghost use Rattle.std.specs.Prelude.{◌≡◌};

use hist_lock::Machine;

/// A register: a request stores a value, and the reply is the one that it held before.
#[derive(Drop)]
pub struct Register {
    value: u64,
}

impl Register {
    /// A register that holds 0.
    pub fn make() -> Register
        ensures { result ≡ record { value = 0 } }
    {
        Register { value: 0 }
    }
}

impl Machine for Register {
    ghost use Rattle.std.specs.Prelude.{◌≡◌, refl};

    type Request = u64;

    type Reply = u64;

    ghost first = { λ s. record { value = 0 } };

    ghost after = { λ s q. record { value = q } };

    ghost reply_to = { λ s q. s.value };

    ghost fits = { λ q r. Unit {0} };

    fn apply(&mut self, request: &u64) -> u64 {
        let before = self.value;
        self.value = *request;
        before
    }

    fn copy(reply: &u64) -> u64 {
        *reply
    }

    ghost keeps_setup = { λ s q. refl };
}
