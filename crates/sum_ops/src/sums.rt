// Sums of two matrices (Truemper, Matroid Decomposition).
ghost use Rattle.std.specs.Prelude.{◌≡◌, ◌≤◌, ◌+◌, ◌↔◌, IsTrue, IfOk, IfErr};
ghost use Rattle.cmr_base.specs.Matrix.{height};
ghost use Rattle.cmr_base.specs.MatrixSums.{HaveTwoSum, HaveCornerSum, HaveThreeSum, connecting_rows, connecting_columns};
ghost use Rattle.cmr_base.specs.MatrixSums.{one_sum as the_one_sum, two_sum as the_two_sum, corner_sum as the_corner_sum, three_sum as the_three_sum};
ghost use Rattle.cmr_base.specs.declared.separation.Form.TheVariants.{Delta, YForm, Mixed};
ghost use Rattle.sum_ops.specs.SumCauses.{IsCause};
ghost use Rattle.sum_ops.specs.Corners.{HaveOneCorner};

use crate::SumError;
use crate::corners::{first_corner, last_corner};
use crate::plan::{LowerBlock, Plan};
use cmr_base::{MAX_COLUMNS, MAX_ROWS, Matrix, Memory};
use std::alloc::Global;

/// Makes the one-sum: the two matrices as diagonal blocks.
pub fn one_sum(alloc: Global, first: &Matrix, second: &Matrix) -> Result<Matrix, Memory>
    requires rows { height first.now + height second.now ≤ MAX_ROWS }
    requires columns { first.now.width + second.now.width ≤ MAX_COLUMNS }
    ensures { IfOk result (λ sum. sum ≡ the_one_sum first.now second.now) }
{
    let plan = Plan {
        rows: first.rows(),
        columns: first.columns(),
        up: 0,
        left: 0,
        upper: false,
        lower: LowerBlock::Zero,
    };
    plan.sum(alloc, first, second)
}

/// Makes the two-sum `[A ab; 0 B]` of `[A a]` and `[b; B]`. `BadConnector`: the first matrix has no column, or the
/// second matrix has no row.
pub fn two_sum(alloc: Global, first: &Matrix, second: &Matrix) -> Result<Matrix, SumError>
    requires rows { height first.now + height second.now ≤ MAX_ROWS + 1 }
    requires columns { first.now.width + second.now.width ≤ MAX_COLUMNS + 1 }
    ensures sum { IfOk result (λ sum. sum ≡ the_two_sum first.now second.now) }
    ensures defined { IfOk result (λ _. HaveTwoSum first.now second.now) }
    ensures cause { IfErr result (IsCause (HaveTwoSum first.now second.now)) }
{
    if first.columns() == 0 || second.rows() == 0 {
        return Err(SumError::BadConnector);
    }
    let plan = Plan {
        rows: first.rows(),
        columns: first.columns() - 1,
        up: 1,
        left: 0,
        upper: true,
        lower: LowerBlock::Zero,
    };
    Ok(plan.sum(alloc, first, second)?)
}

/// Makes the delta sum `[A ab; dc B]` of `[A a a; c 0 e]` and `[e 0 b; d d B]`, with e equal to 1 or -1.
/// `BadConnector`: the matrices do not have this form, or they have different e.
pub fn delta_sum(alloc: Global, first: &Matrix, second: &Matrix) -> Result<Matrix, SumError>
    requires rows { height first.now + height second.now ≤ 1002 }
    requires columns { first.now.width + second.now.width ≤ 1004 }
    ensures sum { IfOk result (λ sum. sum ≡ the_three_sum Delta first.now second.now) }
    ensures defined { IfOk result (λ _. HaveThreeSum Delta first.now second.now) }
    ensures cause { IfErr result (IsCause (HaveThreeSum Delta first.now second.now)) }
{
    corner_sum(alloc, true, true, first, second)
}

/// Makes the Y sum `[A ab; dc B]` of `[A a; c 0; c e]` and `[e b; 0 b; d B]`. Its errors are the errors of
/// `delta_sum`.
pub fn y_sum(alloc: Global, first: &Matrix, second: &Matrix) -> Result<Matrix, SumError>
    requires rows { height first.now + height second.now ≤ 1004 }
    requires columns { first.now.width + second.now.width ≤ 1002 }
    ensures sum { IfOk result (λ sum. sum ≡ the_three_sum YForm first.now second.now) }
    ensures defined { IfOk result (λ _. HaveThreeSum YForm first.now second.now) }
    ensures cause { IfErr result (IsCause (HaveThreeSum YForm first.now second.now)) }
{
    corner_sum(alloc, false, false, first, second)
}

/// Makes the mixed sum `[A ab; dc B]` of `[A a; c 0; c e]` and `[e 0 b; d d B]`. Its errors are the errors of
/// `delta_sum`.
pub fn mixed_sum(alloc: Global, first: &Matrix, second: &Matrix) -> Result<Matrix, SumError>
    requires rows { height first.now + height second.now ≤ 1003 }
    requires columns { first.now.width + second.now.width ≤ 1003 }
    ensures sum { IfOk result (λ sum. sum ≡ the_three_sum Mixed first.now second.now) }
    ensures defined { IfOk result (λ _. HaveThreeSum Mixed first.now second.now) }
    ensures cause { IfErr result (IsCause (HaveThreeSum Mixed first.now second.now)) }
{
    corner_sum(alloc, true, false, first, second)
}

fn connecting_rows(flat: bool) -> u32
    ensures { result ≡ connecting_rows flat }
{
    if flat { 1 } else { 2 }
}

fn connecting_columns(flat: bool) -> u32
    ensures { result ≡ connecting_columns flat }
{
    if flat { 2 } else { 1 }
}

// Makes the sum of two matrices with connecting lines: the first matrix ends with lines of the kind `second_flat`,
// and the second matrix begins with lines of the kind `first_flat`.
fn corner_sum(
    alloc: Global,
    first_flat: bool,
    second_flat: bool,
    first: &Matrix,
    second: &Matrix,
) -> Result<Matrix, SumError>
    requires rows { height first.now + height second.now
        ≤ MAX_ROWS + (connecting_rows second_flat + connecting_rows first_flat) }
    requires columns { first.now.width + second.now.width
        ≤ MAX_COLUMNS + (connecting_columns second_flat + connecting_columns first_flat) }
    ensures sum { IfOk result (λ sum. sum ≡ the_corner_sum first_flat second_flat first.now
        second.now) }
    ensures defined { IfOk result (λ _. HaveCornerSum first_flat second_flat first.now second.now) }
    ensures cause { IfErr result (IsCause (HaveCornerSum first_flat second_flat first.now
        second.now)) }
{
    if !have_one_corner(first, second, second_flat, first_flat) {
        return Err(SumError::BadConnector);
    }
    let plan = Plan {
        rows: first.rows() - connecting_rows(second_flat),
        columns: first.columns() - connecting_columns(second_flat),
        up: connecting_rows(first_flat),
        left: connecting_columns(first_flat),
        upper: true,
        lower: LowerBlock::Product,
    };
    Ok(plan.sum(alloc, first, second)?)
}

// Decides whether the first matrix ends with connecting lines of a kind, the second begins with connecting lines of a
// kind, and both have one corner.
fn have_one_corner(first: &Matrix, second: &Matrix, last: bool, begin: bool) -> bool
    ensures { IsTrue result ↔ HaveOneCorner last begin first.now second.now }
{
    match (last_corner(first, last), first_corner(second, begin)) {
        (Some(one), Some(other)) => one == other,
        _ => false,
    }
}
