//! The requests of one id, against their completions.
ghost use Rattle.std.specs.Prelude.{◌≡◌, ℕ, ◌+◌, ◌<◌, ◌≤◌, ◌^◌};
ghost use Rattle.page_table.specs.Ids.{IsBalance, even, is_even};

/// How many requests of one id went one way, against the completions that came the other way. One of the two numbers is 0.
#[derive(Clone, Copy)]
pub struct Balance {
    /// So many requests more.
    pub unanswered: u64,
    /// So many completions more.
    pub unasked: u64,
}

impl Balance {
    /// As many requests as completions.
    pub(crate) fn even() -> Balance
        ensures { result ≡ even }
    {
        Balance {
            unanswered: 0,
            unasked: 0,
        }
    }

    /// Whether there are as many requests as completions.
    pub(crate) fn is_even(self) -> bool
        ensures { result ≡ is_even self }
    {
        self.unanswered == 0 && self.unasked == 0
    }

    /// After one more request.
    pub(crate) fn asked(self) -> Balance
        requires { self.unanswered + 1 < 2 ^ 64 }
        ensures balance { (asks dones : ℕ) → IsBalance asks dones self → IsBalance (asks + 1) dones result }
        ensures grows { (result.unanswered ≤ self.unanswered + 1) × (result.unasked ≤ self.unasked) }
    {
        if self.unasked != 0 {
            return Balance {
                unanswered: self.unanswered,
                unasked: self.unasked - 1,
            };
        }
        Balance {
            unanswered: self.unanswered + 1,
            unasked: self.unasked,
        }
    }

    /// After one more completion.
    pub(crate) fn answered(self) -> Balance
        requires { self.unasked + 1 < 2 ^ 64 }
        ensures balance { (asks dones : ℕ) → IsBalance asks dones self → IsBalance asks (dones + 1) result }
        ensures grows { (result.unanswered ≤ self.unanswered) × (result.unasked ≤ self.unasked + 1) }
    {
        if self.unanswered != 0 {
            return Balance {
                unanswered: self.unanswered - 1,
                unasked: self.unasked,
            };
        }
        Balance {
            unanswered: self.unanswered,
            unasked: self.unasked + 1,
        }
    }
}
