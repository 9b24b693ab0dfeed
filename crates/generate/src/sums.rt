// Two-sums of R10 matrices, with some rows negated.
ghost use Rattle.std.specs.Prelude.{◌≡◌, ◌≤◌, ◌<◌, ◌+◌, ◌-◌, ◌*◌, ◌^◌, ◌*ℤ◌, ◌++◌, ◌==◌, pos, length, map, replicate, IfOk, OnOk};
ghost use Rattle.cmr_base.specs.Matrix.{height, row_of, IsEntry};
ghost use Rattle.generate.specs.Signs.{drawn_sign};
ghost use Rattle.generate.specs.Generated.{circulant, circulant_sum, negated_rows, generated_sum};

use cmr_base::{Matrix, Memory, draw, product};
use std::alloc::Global;

/// Makes the two-sum of `size` R10 matrices, with rows negated at random.
pub fn generated_sum(alloc: Global, size: u32, number: u32) -> Result<Matrix, Memory>
    requires positive { 1 ≤ size }
    requires size { size ≤ 249 }
    requires number { number < 2 ^ 31 }
    ensures { IfOk result (λ sum. sum ≡ generated_sum size number) }
{
    let sum = circulant_sum(alloc, size)?;
    let signs = draw(alloc, sum.rows(), 2, 0, number)?;
    negated(alloc, &sum, &signs.numbers)
}

fn circulant(alloc: Global) -> Result<Matrix, Memory>
    ensures { IfOk result (λ m. m ≡ circulant) }
{
    let cells = vec![in alloc;
        1i8, -1, 0, 0, -1, -1, 1, -1, 0, 0, 0, -1, 1, -1, 0, 0, 0, -1, 1, -1, -1, 0, 0, -1, 1,
    ]?;
    Matrix::from_cells(alloc, 5, 5, &cells)
}

fn circulant_sum(alloc: Global, size: u32) -> Result<Matrix, Memory>
    requires positive { 1 ≤ size }
    requires size { size ≤ 249 }
    ensures { IfOk result (λ sum. sum ≡ circulant_sum size) }
{
    let lines = 4 * size + 1;
    let part = circulant(alloc)?;
    let mut cells = Vec::with_capacity(alloc, lines as usize * lines as usize)?;
    for row in 0..lines {
        push_sum_row(&mut cells, &part, size, row)?;
    }
    Matrix::from_cells(alloc, lines, lines, &cells)
}

// Pushes a row of the sum of `size` circulants. One of the circulants begins the row, after zeros. Each later
// circulant replaces the last entry x by the multiple x, -x, 0, 0, -x of its first row.
fn push_sum_row(cells: &mut Vec<i8>, part: &Matrix, size: u32, row: u32) -> Result<(), Memory>
    requires part { part.now ≡ circulant }
    requires size { size ≤ 249 }
    requires row { row < 4 * size + 1 }
    requires positive { 1 ≤ size }
    ensures { OnOk result (cells.new.items ≡ cells.old.items ++ row_of (circulant_sum size) row) }
{
    let before = row.saturating_sub(1) / 4;
    let own_row = row - 4 * before;
    push_zeros(cells, 4 * before)?;
    push_multiple(cells, 1, part, own_row)?;
    let mut last = part.entry(own_row, 4);
    for count in before + 1..size {
        cells.extend_from_slice(&[-last, 0, 0, -last])?;
        last = -last;
    }
    Ok(())
}

fn push_zeros(cells: &mut Vec<i8>, count: u32) -> Result<(), Memory>
    ensures { OnOk result (cells.new.items ≡ cells.old.items ++ replicate count (pos 0)) }
{
    cells.resize(cells.len() + count as usize, 0)?;
    Ok(())
}

// Pushes a row of a matrix, multiplied by a sign.
fn push_multiple(cells: &mut Vec<i8>, factor: i8, matrix: &Matrix, row: u32) -> Result<(), Memory>
    requires factor { IsEntry factor }
    requires row { row < height matrix.now }
    ensures { OnOk result (cells.new.items
        ≡ cells.old.items ++ map (λ z. factor *ℤ z) (row_of matrix.now row)) }
{
    for column in 0..matrix.columns() {
        cells.push(product(factor, matrix.entry(row, column)))?;
    }
    Ok(())
}

// Negates each row with the number 1.
fn negated(alloc: Global, matrix: &Matrix, signs: &[u32]) -> Result<Matrix, Memory>
    requires { length signs.now ≡ height matrix.now }
    ensures { IfOk result (λ m. m ≡ record {
      rows = negated_rows matrix.now.rows signs.now;
      width = matrix.now.width;
    }) }
{
    let rows = matrix.rows();
    let columns = matrix.columns();
    let mut cells = Vec::with_capacity(alloc, rows as usize * columns as usize)?;
    for row in 0..rows {
        push_multiple(&mut cells, sign(signs[row as usize]), matrix, row)?;
    }
    Matrix::from_cells(alloc, rows, columns, &cells)
}

fn sign(number: u32) -> i8
    ensures value { result ≡ drawn_sign number }
    ensures small { IsEntry result }
{
    if number == 1 { -1 } else { 1 }
}
