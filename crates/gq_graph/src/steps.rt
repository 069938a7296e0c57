// A counter of steps.
ghost use Rattle.std.specs.Prelude.{◌≡◌, ◌+◌, ◌<◌, ℕ};

use std::marker::Model;

/// The number of steps that a call took. Contracts see it as that number.
#[derive(Debug, Drop)]
pub struct Steps {
    count: u64,
}

impl Model for Steps {
    ghost Value = { ℕ };

    ghost view = { λ s. s.count };
}

impl Steps {
    /// No step.
    pub fn new() -> Steps
        ensures { result ≡ 0 }
    {
        Steps { count: 0 }
    }

    /// Adds one step. The caller ensures that there are fewer than 18446744073709551615 so far.
    pub fn tick(&mut self)
        requires { self.old < u64.MAX }
        ensures { self.new ≡ self.old + 1 }
    {
        self.count += 1;
    }

    /// The number of steps.
    pub fn count(&self) -> u64
        ensures { result ≡ self.now }
    {
        self.count
    }
}
