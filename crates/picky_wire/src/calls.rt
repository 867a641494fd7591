//! Calls of which some fail by their number, as the sources, sinks and devices in memory have them.

ghost use Rattle.std.specs.Prelude.{◌≡◌, ◌-◌, IfOk};
ghost use Rattle.picky_wire.specs.Count.{Calls, next_fails, passed, failed};

use picky_wire_base::NoMemory;
use std::alloc::Global;
use std::marker::Model;

/// Which calls fail, how many were made and how many failed.
#[derive(Debug, Drop)]
pub struct FailingCalls {
    failing: Vec<u64>,
    made: u64,
    faults: u64,
}

impl Model for FailingCalls {
    ghost Value = { Calls };

    ghost view = { λ c. record { failing = c.failing.items; made = c.made; faults = c.faults } };
}

impl FailingCalls {
    /// No call was made yet, and those whose numbers are listed will fail, counted from 0. Refuses: `NoMemory`.
    pub fn new(alloc: Global, failing: &[u64]) -> Result<FailingCalls, NoMemory>
        ensures { IfOk result
            (λ calls. calls ≡ record { failing = failing.now; made = 0; faults = 0 }) }
    {
        match Vec::from_slice(alloc, failing) {
            Ok(failing) => Ok(FailingCalls {
                failing,
                made: 0,
                faults: 0,
            }),
            Err(_) => Err(NoMemory),
        }
    }

    /// Whether the next call is to fail by its number.
    pub fn next_fails(&self) -> bool
        ensures { result ≡ next_fails self.now }
    {
        self.failing.contains(&self.made)
    }

    /// Counts a call that passed.
    pub fn count_passed(&mut self)
        ensures { self.new ≡ passed self.old }
    {
        self.made = self.made.saturating_add(1);
    }

    /// Counts a call that failed.
    pub fn count_failed(&mut self)
        ensures { self.new ≡ failed self.old }
    {
        self.made = self.made.saturating_add(1);
        self.faults = self.faults.saturating_add(1);
    }
}
