ghost use Rattle.std.specs.Prelude.{◌≡◌, ◌≢◌, ◌<◌, [], ◌∷◌, IfOk, pos, ℕ};
ghost use Rattle.cmr_base.specs.LineSets.{first_lines, without};
ghost use Rattle.cmr_base.specs.Matrix.{height, entry, IsMatrix};
ghost use Rattle.ghouila.specs.Pivot.{KeepsRowsElsewhere};
ghost use Rattle.cmr_base.specs.PlacedPivots.{pivot_entry};
ghost use Rattle.pivots.specs.ChosenLines.{two_lines};
ghost use Rattle.pivots.specs.Pivoted.{IsPivoted};

use cmr_base::{Indices, LineSet, Matrix, Memory, product};
use ghouila::{first_square_violator, make_pivot};
use std::alloc::Global;

/// The pivot at a nonzero of a matrix, or a violator of the matrix.
#[derive(Debug, Drop)]
pub enum Pivoted {
    /// The pivot, if its entries are -1, 0 and 1.
    Ternary(Matrix),
    /// A violator of the matrix, if the pivot has a 2 or a -2: the lines of the pivot and those of the first such entry, row by
    /// row.
    Violated(LineSet),
}

/// The pivot of a matrix at a nonzero, or a violator of two rows and two columns. The time is that of a copy of the matrix, and
/// a constant for each nonzero of the pivot's row in each row with a nonzero in the pivot's column.
pub fn pivot(alloc: Global, matrix: &Matrix, row: u32, column: u32) -> Result<Pivoted, Memory>
    requires row { row < height matrix.now }
    requires column { column < matrix.now.width }
    requires nonzero { entry matrix.now row column ≢ pos 0 }
    ensures { IfOk result (IsPivoted matrix.now row column) }
{
    let others = other_rows(alloc, matrix, row)?;
    let left = others.as_slice();
    if let Some(two) = first_square_violator(matrix, left, row, column) {
        return Ok(Pivoted::Violated(LineSet {
            rows: two_lines(alloc, row, two.row)?,
            columns: two_lines(alloc, column, two.column)?,
        }));
    }
    let mut work = matrix.copy(alloc)?;
    make_pivot(&mut work, left, row, column);
    multiply_row(&mut work, row, column);
    Ok(Pivoted::Ternary(work))
}

fn other_rows(alloc: Global, matrix: &Matrix, row: u32) -> Result<Indices, Memory>
    ensures others { IfOk result (λ others. others ≡ without (first_lines (height matrix.now))
        row) }
    ensures shape { IsMatrix matrix.now }
{
    let lines = LineSet::all(alloc, matrix.rows(), 0)?;
    Ok(lines.without_row(alloc, row)?.rows)
}

// Multiplies the other entries of a row by one of its entries.
fn multiply_row(work: &mut Matrix, row: u32, column: u32)
    requires row { row < height work.old }
    requires column { column < work.old.width }
    ensures row { (j : ℕ) → j < work.old.width
        → entry work.new row j ≡ pivot_entry (entry work.old) row column row j }
    ensures others { KeepsRowsElsewhere work.old work.new (row ∷ []) }
    ensures shape { IsMatrix work.new }
{
    let factor = work.entry(row, column);
    for other in 0..work.columns() {
        if other != column {
            let multiple = product(factor, work.entry(row, other));
            work.set(row, other, multiple);
        }
    }
}

pub(crate) fn two_lines(alloc: Global, one: u32, other: u32) -> Result<Indices, Memory>
    requires { one ≢ other }
    ensures { IfOk result (λ lines. lines ≡ two_lines one other) }
{
    let mut lines = Indices::new(alloc);
    lines.push(one.min(other))?;
    lines.push(one.max(other))?;
    Ok(lines)
}
