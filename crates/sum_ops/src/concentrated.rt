// Concentrated sums of two matrices.
ghost use Rattle.std.specs.Prelude.{◌≡◌, ◌≤◌, ◌+◌, IfOk, IfErr, MatchOption};
ghost use Rattle.cmr_base.specs.Matrix.{height, HasTernaryEntries};
ghost use Rattle.cmr_base.specs.MatrixSums.{HaveConcentratedSum};
ghost use Rattle.cmr_base.specs.MatrixSums.{concentrated_sum as the_concentrated_sum};
ghost use Rattle.sum_ops.specs.SumCauses.{IsConcentratedCause};
ghost use Rattle.sum_ops.specs.SumCores.{IsLastCore, IsFirstCore};

use crate::SumError;
use crate::cores::{is_first_core, last_core};
use crate::plan::{LowerBlock, Plan};
use crate::spread::Spread;
use cmr_base::Matrix;
use std::alloc::Global;

/// Makes the concentrated three-sum `[A 0; K B]` (Seymour; Truemper, Matroid Decomposition; the library CMR).
///
/// * The core is `[g h 0; x y s; z w t]`, with g, h, s, t and x w - y z equal to 1 or -1.
/// * The first matrix ends with the core, and its last column is 0 above the core. A is the first matrix without its
///   last two rows and its last column.
/// * The second matrix begins with the core, and its first row is 0 after the core. B is the second matrix without
///   its first row and its first two columns.
/// * Each row of K combines the last two rows of the first matrix. The same row of the second matrix, in its first
///   two columns, combines its second and third row with the same coefficients.
///
/// `BadConnector`: the matrices do not have this form, or their cores differ. `BadEntry`: they have this form, but an
/// entry of K is not -1, 0 or 1.
pub fn concentrated_sum(alloc: Global, first: &Matrix, second: &Matrix) -> Result<Matrix, SumError>
    requires rows { height first.now + height second.now ≤ 1003 }
    requires columns { first.now.width + second.now.width ≤ 1003 }
    ensures sum { IfOk result (λ sum. sum ≡ the_concentrated_sum first.now second.now) }
    ensures defined { IfOk result (λ _. HaveConcentratedSum first.now second.now) }
    ensures small { IfOk result HasTernaryEntries }
    ensures cause { IfErr result (IsConcentratedCause first.now second.now) }
{
    let Some(determinant) = shared_core(first, second) else {
        return Err(SumError::BadConnector);
    };
    let rows = first.rows() - 2;
    let columns = first.columns() - 1;
    let spread = Spread {
        determinant,
        model: rows,
    };
    if !spread.has_small_entries(first, second, columns) {
        return Err(SumError::BadEntry);
    }
    let plan = Plan {
        rows,
        columns,
        up: 1,
        left: 2,
        upper: false,
        lower: LowerBlock::Spread(spread),
    };
    Ok(plan.sum(alloc, first, second)?)
}

// Gives the determinant of the core with which the first matrix ends and the second matrix begins.
fn shared_core(first: &Matrix, second: &Matrix) -> Option<i8>
    ensures { MatchOption result
        (HaveConcentratedSum first.now second.now → ⊥)
        (λ determinant. IsLastCore first.now determinant × IsFirstCore first.now second.now) }
{
    match last_core(first) {
        Some(determinant) if is_first_core(first, second) => Some(determinant),
        _ => None,
    }
}
