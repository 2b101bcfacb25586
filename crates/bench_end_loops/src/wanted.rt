//! What is to be timed.

/// How an end that has nothing to do waits.
#[derive(Clone, Copy)]
pub enum Waiting {
    /// It goes on looking at its ring.
    Spins,
    /// It arms its signal, looks at that so often, and then parks its thread.
    Sleeps { looks: u32 },
}

/// What is timed.
#[derive(Clone, Copy)]
pub enum Part {
    /// A packet on one thread.
    Turns,
    /// Requests on two threads.
    Window,
    /// There and back on two threads.
    Ping,
    /// Calls that carry no packet.
    Calls,
    /// A stop at an index in no form.
    Bad,
    /// Nothing is timed: so much stands at once.
    Space,
    /// Each of them, in small.
    All,
}

/// What is to be timed: the words name it, and then come numbers.
#[derive(Clone, Copy)]
pub struct Wanted {
    pub part: Part,
    pub how: Waiting,
    /// How many packets, requests or calls a round has.
    pub count: u64,
    pub rounds: u64,
    /// The bytes of a packet.
    pub bytes: u64,
    /// How many requests are open at most.
    pub window: u64,
    /// How many numbers were given.
    pub given: u32,
}

impl Wanted {
    /// Everything, in small.
    pub fn small() -> Wanted {
        Wanted {
            part: Part::All,
            how: Waiting::Sleeps { looks: 256 },
            count: 100,
            rounds: 2,
            bytes: 24,
            window: 4,
            given: 0,
        }
    }

    /// Takes in one more word: a part, how an end waits, or the next number, in the order count, rounds, bytes, window. Any other word is passed over.
    pub fn read(&mut self, word: &str) {
        match word {
            "turns" => self.part = Part::Turns,
            "window" => self.part = Part::Window,
            "ping" => self.part = Part::Ping,
            "calls" => self.part = Part::Calls,
            "bad" => self.part = Part::Bad,
            "space" => self.part = Part::Space,
            "spins" => self.how = Waiting::Spins,
            "sleeps" => self.how = Waiting::Sleeps { looks: 256 },
            "parks" => self.how = Waiting::Sleeps { looks: 0 },
            _ => {
                if let Ok(n) = word.parse() {
                    self.number(n);
                }
            }
        }
    }

    // Takes in one more number.
    fn number(&mut self, n: u64) {
        match self.given {
            0 => self.count = n,
            1 => self.rounds = n,
            2 => self.bytes = n,
            _ => self.window = n,
        }
        self.given = self.given.saturating_add(1);
    }
}
