//! The calls of an object in memory, some of which are to fail.

ghost use Rattle.std.specs.Prelude.{◌≡◌, ◌≤◌, is_err, OnOk};
ghost use Rattle.racf_outside.specs.Calls.{CountsCall, no_calls, is_to_fail};
ghost use Rattle.racf_outside.specs.Causes.{HasCause, Rose, TakesOver};

use crate::faults::Faults;
use crate::streams::Failed;
use std::marker::Model;

/// Which calls of an object are to fail, how many came, how many faults were counted, and how many of these for want of
/// memory. The numbers stay at 2^64 - 1 once they are there.
#[derive(Drop)]
pub(crate) struct Calls {
    /// The numbers, from 1, of the calls that are to fail.
    failing: Vec<u64>,
    /// How many calls came.
    made: u64,
    /// How many faults were counted.
    faults: Faults,
    /// How many calls failed for want of memory.
    refusals: Faults,
}

impl Model for Calls {
    ghost use Rattle.racf_outside.specs.Calls.{CallsMade};

    ghost Value = { CallsMade };

    ghost view = { λ a. record { failing = a.failing.items; made = a.made; faults = a.faults; refusals = a.refusals } };
}

impl Calls {
    /// No call has come. Those of the numbers `failing`, counted from 1, are to fail.
    pub(crate) fn new(failing: Vec<u64>) -> Calls
        ensures { result ≡ no_calls failing.items }
    {
        Calls {
            failing,
            made: 0,
            faults: Faults::new(),
            refusals: Faults::new(),
        }
    }

    /// Counts a call, and fails it where it is to fail.
    pub(crate) fn call(&mut self) -> Result<(), Failed>
        ensures counted { CountsCall self.old self.new }
        ensures failed { is_err result ≡ is_to_fail self.old.failing self.new.made }
        ensures cause { HasCause self.old.faults self.new.faults result }
        ensures faultless { OnOk result (self.new.faults ≡ self.old.faults) }
        ensures refusals { self.new.refusals ≡ self.old.refusals }
    {
        self.made = self.made.saturating_add(1);
        if self.failing.contains(&self.made) {
            return Err(self.fault());
        }
        Ok(())
    }

    /// Counts a fault.
    pub(crate) fn fault(&mut self) -> Failed
        ensures rose { Rose self.old.faults self.new.faults }
        ensures no_fewer { self.old.faults ≤ self.new.faults }
        ensures failing { self.new.failing ≡ self.old.failing }
        ensures made { self.new.made ≡ self.old.made }
        ensures refusals { self.new.refusals ≡ self.old.refusals }
    {
        self.faults.count()
    }

    /// Counts a fault that want of memory caused.
    pub(crate) fn refusal(&mut self) -> Failed
        ensures rose { Rose self.old.faults self.new.faults }
        ensures no_fewer { self.old.faults ≤ self.new.faults }
        ensures failing { self.new.failing ≡ self.old.failing }
        ensures made { self.new.made ≡ self.old.made }
        ensures refused { Rose self.old.refusals self.new.refusals }
        ensures no_fewer_refusals { self.old.refusals ≤ self.new.refusals }
    {
        self.refusals.count();
        self.faults.count()
    }

    /// How many faults were counted.
    pub(crate) fn faults(&self) -> u64
        ensures { result ≡ self.now.faults }
    {
        self.faults.number()
    }

    /// Counts one fault where what is handed back counted any.
    pub(crate) fn take_over(&mut self, handed: u64)
        ensures faults { TakesOver handed self.old.faults self.new.faults }
        ensures failing { self.new.failing ≡ self.old.failing }
        ensures made { self.new.made ≡ self.old.made }
        ensures refusals { self.new.refusals ≡ self.old.refusals }
    {
        self.faults.take_over(handed);
    }
}
