//! Counts of faults.

ghost use Rattle.std.specs.Prelude.{◌≡◌, ◌≤◌};
ghost use Rattle.racf_outside.specs.Causes.{Rose, TakesOver};

use crate::streams::Failed;
use std::marker::Model;

/// A count of faults, which stays at 2^64 - 1 once it is there. Each source, sink, shelf and disk counts its own by one
/// of these: a call that fails answers what `count` gives, so that it fails only where the count rose.
#[derive(Drop)]
pub struct Faults {
    /// How many faults.
    number: u64,
}

impl Model for Faults {
    ghost use Rattle.std.specs.Prelude.{ℕ};

    ghost Value = { ℕ };

    ghost view = { λ a. a.number };
}

impl Faults {
    /// No fault.
    pub fn new() -> Faults
        ensures { result ≡ 0 }
    {
        Faults { number: 0 }
    }

    /// How many.
    pub fn number(&self) -> u64
        ensures { result ≡ self.now }
    {
        self.number
    }

    /// Counts a fault.
    pub fn count(&mut self) -> Failed
        ensures rose { Rose self.old self.new }
        ensures no_fewer { self.old ≤ self.new }
    {
        self.number = self.number.saturating_add(1);
        Failed
    }

    /// Counts one fault where what is handed back counted any.
    pub fn take_over(&mut self, handed: u64)
        ensures { TakesOver handed self.old self.new }
    {
        if handed > 0 {
            self.count();
        }
    }
}
