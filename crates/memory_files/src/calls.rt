//! The calls on an object in memory, some of which fail.
ghost use Rattle.std.specs.Prelude.{◌≡◌};
ghost use Rattle.memory_files.specs.Calls.{no_calls, next_fails, after_call};

use std::marker::Model;

/// The calls on an object in memory, numbered from 0.
#[derive(Drop)]
pub struct Calls {
    failing: Vec<u64>,
    made: u64,
    faults: u64,
}

impl Model for Calls {
    ghost use Rattle.memory_files.specs.Calls.{CallsView};

    ghost Value = { CallsView };

    ghost view = { λ c. record { failing = c.failing.items; made = c.made; faults = c.faults } };
}

impl Calls {
    /// No call yet; those of the numbers in `failing` are to fail.
    pub fn new(failing: Vec<u64>) -> Calls
        ensures { result ≡ no_calls failing.items }
    {
        Calls {
            failing,
            made: 0,
            faults: 0,
        }
    }

    /// How many calls were made, which is the number of the next one; it stands still at 2^64 - 1.
    pub fn made(&self) -> u64
        ensures { result ≡ self.now.made }
    {
        self.made
    }

    /// Whether the next call is to fail by its number.
    pub fn next_fails(&self) -> bool
        ensures { result ≡ next_fails self.now }
    {
        self.failing.contains(&self.made)
    }

    /// Counts a call.
    pub fn add(&mut self, failed: bool)
        ensures { self.new ≡ after_call failed self.old }
    {
        self.made = self.made.saturating_add(1);
        if failed {
            self.faults = self.faults.saturating_add(1);
        }
    }

    /// How many calls failed.
    pub fn faults(&self) -> u64
        ensures { result ≡ self.now.faults }
    {
        self.faults
    }
}
