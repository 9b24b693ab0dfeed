// The sums by their kinds.
ghost use Rattle.std.specs.Prelude.{◌≡◌, ◌≤◌, ◌+◌, IfOk, IfErr};
ghost use Rattle.cmr_base.specs.Matrix.{height};
ghost use Rattle.compose.specs.SumKinds.{kind_of_form, HaveSum, lost_rows, lost_columns, IsCauseOf};
ghost use Rattle.compose.specs.SumKinds.{sum_of as the_sum_of};

use cmr_base::{Form, MAX_COLUMNS, MAX_ROWS, Matrix};
use std::alloc::Global;
use sum_ops::{SumError, concentrated_sum, delta_sum, mixed_sum, one_sum, two_sum, y_sum};

/// The kind of a sum of two matrices.
#[derive(Clone, Copy, Debug, PartialEq, Eq)]
pub enum SumKind {
    One,
    Two,
    Delta,
    YForm,
    Mixed,
    Concentrated,
}

impl SumKind {
    /// Gives the kind of sum of a form of three-separations.
    pub fn of(form: Form) -> SumKind
        ensures { result ≡ kind_of_form form }
    {
        match form {
            Form::Delta => SumKind::Delta,
            Form::YForm => SumKind::YForm,
            Form::Mixed => SumKind::Mixed,
            Form::Concentrated => SumKind::Concentrated,
        }
    }

    /// The number of rows of both matrices together, minus the number of rows of the sum.
    pub fn lost_rows(self) -> u32
        ensures { result ≡ lost_rows self }
    {
        match self {
            SumKind::One => 0,
            SumKind::Two => 1,
            SumKind::Delta => 2,
            SumKind::YForm => 4,
            SumKind::Mixed | SumKind::Concentrated => 3,
        }
    }

    /// The number of columns of both matrices together, minus the number of columns of the sum.
    pub fn lost_columns(self) -> u32
        ensures { result ≡ lost_columns self }
    {
        match self {
            SumKind::One => 0,
            SumKind::Two => 1,
            SumKind::Delta => 4,
            SumKind::YForm => 2,
            SumKind::Mixed | SumKind::Concentrated => 3,
        }
    }
}

/// Makes the sum of this kind. Its errors, except an allocation failure:
///
/// * `BadConnector`: the matrices do not have the connecting lines of the sum.
/// * `BadEntry`: they have these lines, but an entry of the concentrated sum is not -1, 0 or 1.
pub fn sum_of(
    alloc: Global,
    kind: SumKind,
    first: &Matrix,
    second: &Matrix,
) -> Result<Matrix, SumError>
    requires rows { height first.now + height second.now ≤ MAX_ROWS + lost_rows kind }
    requires columns { first.now.width + second.now.width ≤ MAX_COLUMNS + lost_columns kind }
    ensures sum { IfOk result (λ sum. sum ≡ the_sum_of kind first.now second.now) }
    ensures connected { IfOk result (λ _. HaveSum kind first.now second.now) }
    ensures cause { IfErr result (IsCauseOf kind first.now second.now) }
{
    match kind {
        SumKind::One => Ok(one_sum(alloc, first, second)?),
        SumKind::Two => two_sum(alloc, first, second),
        SumKind::Delta => delta_sum(alloc, first, second),
        SumKind::YForm => y_sum(alloc, first, second),
        SumKind::Mixed => mixed_sum(alloc, first, second),
        SumKind::Concentrated => concentrated_sum(alloc, first, second),
    }
}
