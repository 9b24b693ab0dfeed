// Kinds of submatrices for a search.
ghost use Rattle.std.specs.Prelude.{◌≤◌, ◌<◌, ◌^◌, ◌↔◌, ℕ, List, IsTrue, IfOk};
ghost use Rattle.cmr_base.specs.Matrix.{Matrix, height};
ghost use Rattle.first_hit.specs.First.{IsFirst, NoneBetween};

use cmr_base::{LineSet, Matrix, Memory};
use std::alloc::Global;

/// A kind of submatrix, for example violators, whose least submatrix in a matrix is searched for. The least submatrix
/// has the least row set, and among the submatrices with this row set it has the least column set. The search tests
/// row sets by their numbers.
pub trait Sought: Sync {
    /// The predicate on the numbers of row sets. The least submatrix has the first row set that satisfies it.
    ghost holds: { Self → Matrix → ℕ → Type 0 };

    /// The definition of the least submatrix, by its rows and columns.
    ghost is_least: { Self → Matrix → List ℕ → List ℕ → Type 0 };

    /// Decides whether the row set with a number satisfies the predicate.
    fn hit(&self, alloc: Global, matrix: &Matrix, number: u64) -> Result<bool, Memory>
        ensures { IfOk result (λ yes. IsTrue yes ↔ holds self.now matrix.now number) };

    /// Gives the least number of a range whose row set satisfies the predicate.
    fn first(
        &self,
        alloc: Global,
        matrix: &Matrix,
        from: u64,
        to: u64,
    ) -> Result<Option<u64>, Memory>
        requires { from ≤ to }
        ensures { IfOk result (IsFirst (holds self.now matrix.now) from to) };

    /// Gives the lines of the least submatrix, from the number of the first row set that satisfies the predicate.
    fn lines(&self, alloc: Global, matrix: &Matrix, number: u64) -> Result<LineSet, Memory>
        requires inside { number < 2 ^ height matrix.now }
        requires here { holds self.now matrix.now number }
        requires first { NoneBetween (holds self.now matrix.now) 0 number }
        ensures { IfOk result (λ lines. is_least self.now matrix.now lines.rows lines.columns) };
}
