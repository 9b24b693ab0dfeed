// Predicates on numbers.
ghost use Rattle.std.specs.Prelude.{◌≤◌, ◌^◌, ◌↔◌, ℕ, IsTrue, IfOk};
ghost use Rattle.first_hit.specs.First.{IsFirst};

use cmr_base::Memory;
use std::alloc::Global;

/// A predicate on numbers, which several workers evaluate.
pub trait Probe: Sync {
    /// That a number satisfies the predicate.
    ghost holds: { Self → ℕ → Type 0 };

    /// Whether a number satisfies the predicate.
    fn hit(&self, alloc: Global, index: u64) -> Result<bool, Memory>
        ensures { IfOk result (λ yes. IsTrue yes ↔ holds self.now index) };

    /// The least number of a range that satisfies the predicate. A probe overrides this body if it can test consecutive
    /// numbers at a lower cost.
    fn first(&self, alloc: Global, from: u64, to: u64) -> Result<Option<u64>, Memory>
        requires { from ≤ to }
        ensures { IfOk result (IsFirst (holds self.now) from to) }
    {
        for index in from..to {
            if self.hit(alloc, index)? {
                return Ok(Some(index));
            }
        }
        Ok(None)
    }

    /// The number of consecutive numbers that one worker tests at a time.
    fn run(&self) -> u64
        ensures { (1 ≤ result) × (result ≤ 2 ^ 32) }
    {
        64
    }
}
