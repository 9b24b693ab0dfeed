ghost use Rattle.std.specs.Prelude.{◌≡◌, ◌≤◌};
ghost use Rattle.cmr_io.specs.Causes.{Rose};
ghost use Rattle.cmr_io.specs.Calls.{next_number};

use crate::device::Failed;
use std::marker::Model;

/// A count of faults. It starts at 0, and stays at the last value of a `u64`.
#[derive(Debug, Drop)]
pub struct FaultCount {
    count: u64,
}

impl Model for FaultCount {
    ghost use Rattle.std.specs.Prelude.{ℕ};

    ghost Value = { ℕ };

    ghost view = { λ faults. faults.count };
}

impl FaultCount {
    /// No call has failed.
    pub fn new() -> Self
        ensures { result ≡ 0 }
    {
        FaultCount { count: 0 }
    }

    /// Counts a failure.
    pub fn fault(&mut self) -> Failed
        ensures count { self.new ≡ next_number self.old }
        ensures rose { Rose self.old self.new }
        ensures later { self.old ≤ self.new }
    {
        self.count = self.count.saturating_add(1);
        Failed
    }
}
