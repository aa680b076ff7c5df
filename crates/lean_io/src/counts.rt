ghost use Rattle.std.specs.Prelude.{◌≡◌, ◌+◌, ◌≤◌, IfOk};
ghost use Rattle.lean_io.specs.Counts.{raised};

use lean_fixed::NoMemory;
use std::marker::Model;

// How often something happened, as faults, reads and writes are counted. It stands still at its
// last value, 2^64 - 1. Contracts see it as that number.
#[derive(Drop)]
pub struct Count(u64);

impl Model for Count {
    ghost use Rattle.std.specs.Prelude.{ℕ};

    ghost Value = { ℕ };

    ghost view = { λ c. c.0 };
}

impl Count {
    // A count of nothing yet.
    pub fn new() -> Count
        ensures { result ≡ 0 }
    {
        Count(0)
    }

    // The number that was counted.
    pub fn number(&self) -> u64
        ensures { result ≡ self.now }
    {
        self.0
    }

    // Counts one more.
    pub fn rise(&mut self)
        ensures raised { self.new ≡ raised self.old 1 }
        ensures grows { self.old ≤ self.new }
    {
        self.0 = self.0.saturating_add(1);
    }

    // Counts what another count has counted.
    pub fn add(&mut self, more: &Count)
        ensures raised { self.new ≡ raised self.old more.now }
        ensures grows { self.old ≤ self.new }
    {
        self.0 = self.0.saturating_add(more.0);
    }
}

// The number of hands that are out when one more is. `NoMemory`: 2^64 - 1 are out, for which no
// memory is enough.
pub fn one_more(hands: u64) -> Result<u64, NoMemory>
    ensures { IfOk result (λ more. more ≡ hands + 1) }
{
    match hands.checked_add(1) {
        Some(more) => Ok(more),
        None => Err(NoMemory),
    }
}
