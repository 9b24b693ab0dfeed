ghost use Rattle.std.specs.Prelude.{◌≡◌, ◌<◌, ◌≤◌, ◌+◌, ◌^◌, ◌*ℤ◌, ℤ, IfOk, IfSome, IfNone, IsTrue, length};
ghost use Rattle.cmr_base.specs.LineSets.{AllBelow};
ghost use Rattle.cmr_base.specs.Matrix.{Matrix, height, IsEntry};
ghost use Rattle.cmr_base.specs.Signing.{IsSign, signed_sum, IsSigning, IsFirstSigning, HasNoSigning};
ghost use Rattle.ghouila.specs.Numbered.{low_sign, signs_numbered, IsChoice};

use cmr_base::{Indices, MAX_LINES, Matrix, Memory, SignList};
use std::alloc::Global;

/// Gives the first signing of the rows in the order of the signs' numbers, and `None` if and only if there is none.
pub fn plain_signing(
    alloc: Global,
    matrix: &Matrix,
    rows: &Indices,
) -> Result<Option<SignList>, Memory>
    requires in_range { AllBelow (height matrix.now) rows.now }
    requires few { length rows.now ≤ MAX_LINES }
    ensures first { IfOk result (λ answer. IfSome answer (IsFirstSigning matrix.now rows.now)) }
    ensures none { IfOk result (λ answer. IfNone answer (HasNoSigning matrix.now rows.now)) }
{
    let count = rows.len();
    for number in 0..choices(count) {
        let signs = signs_with_number(alloc, count, number)?;
        if is_signing(matrix, rows, &signs) {
            return Ok(Some(signs));
        }
    }
    Ok(None)
}

// The number of choices of signs.
fn choices(count: usize) -> u32
    requires { count ≤ MAX_LINES }
    ensures { result ≡ 2 ^ count }
{
    2u32.pow(count as u32)
}

// Gives the `count` signs with this number.
fn signs_with_number(alloc: Global, count: usize, number: u32) -> Result<SignList, Memory>
    ensures { IfOk result (λ signs. signs ≡ signs_numbered count number) }
{
    let mut signs = SignList::new(alloc);
    let mut rest = number;
    for _place in 0..count {
        signs.push(low_sign(rest))?;
        rest /= 2;
    }
    Ok(signs)
}

// The sign that the lowest bit represents.
fn low_sign(number: u32) -> i8
    ensures { result ≡ low_sign number }
{
    if number % 2 == 1 { -1 } else { 1 }
}

// Decides whether each column's signed sum is -1, 0 or 1.
fn is_signing(matrix: &Matrix, rows: &Indices, signs: &SignList) -> bool
    requires { IsChoice matrix.now rows.now signs.now }
    ensures yes { IsTrue result → IsSigning matrix.now rows.now signs.now }
    ensures no { IsSigning matrix.now rows.now signs.now → IsTrue result }
{
    for column in 0..matrix.columns() {
        let sum = column_sum(matrix, rows, signs, column);
        if sum < -1 || sum > 1 {
            return false;
        }
    }
    true
}

// The signed sum of the rows in a column.
fn column_sum(matrix: &Matrix, rows: &Indices, signs: &SignList, column: u32) -> i32
    requires choice { IsChoice matrix.now rows.now signs.now }
    requires column { column < matrix.now.width }
    ensures { result ≡ signed_sum matrix.now rows.now signs.now column }
{
    let mut sum = 0i32;
    for place in 0..rows.len() {
        let entry = matrix.entry(*rows.get(place), column);
        sum += signed_entry(*signs.get(place), entry);
    }
    sum
}

fn signed_entry(sign: i8, entry: i8) -> i32
    requires sign { IsSign sign }
    requires small { IsEntry entry }
    ensures value { result ≡ sign *ℤ entry }
    ensures small { IsEntry result }
{
    if sign < 0 {
        -i32::from(entry)
    } else {
        i32::from(entry)
    }
}
