//! The words of a channel that a peer shares.

/// Words that somebody else shares, and may change at any moment. Each call is one step on one word. What is known of it is the implementor's to say: a seat hands
/// it on, whatever it is. Over atomic words, and over mapped pages, nothing is.
pub trait Words {
    ghost use Rattle.std.specs.Prelude.{◌≡◌, ◌<◌, ℕ};

    /// How many words there are.
    ghost count: { Self → ℕ };

    /// Between two states the word at this place gave this value, and nothing else was done.
    ghost loads: { Self → Self → ℕ → ℕ → Type 0 };

    /// The word at this place got this value.
    ghost stores: { Self → Self → ℕ → ℕ → Type 0 };

    /// The word at this place got the first value and gave the second, in one step.
    ghost swaps: { Self → Self → ℕ → ℕ → ℕ → Type 0 };

    /// What stands in a word now.
    fn load(&mut self, at: usize) -> u64
        requires { at < count self.old }
        ensures made { loads self.old self.new at result }
        ensures count { count self.new ≡ count self.old };

    /// Stores a value in a word.
    fn store(&mut self, at: usize, value: u64)
        requires { at < count self.old }
        ensures made { stores self.old self.new at value }
        ensures count { count self.new ≡ count self.old };

    /// Stores a value in a word, and gives what stood there.
    fn swap(&mut self, at: usize, value: u64) -> u64
        requires { at < count self.old }
        ensures made { swaps self.old self.new at value result }
        ensures count { count self.new ≡ count self.old };
}
