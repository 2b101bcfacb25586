//! Numbers that look random, and are the same in each run.

/// Where the row of numbers stands.
#[derive(Drop)]
pub struct Random {
    state: u64,
}

impl Random {
    /// The row that begins here.
    pub fn from(state: u64) -> Random {
        Random { state }
    }

    /// The next number, of 31 bits.
    pub fn number(&mut self) -> u64 {
        self.state = self
            .state
            .wrapping_mul(6_364_136_223_846_793_005)
            .wrapping_add(1_442_695_040_888_963_407);
        self.state / 0x2_0000_0000
    }
}
