// Blocks of rank two. Their rows are sums of multiples of the two rows of one connector, with factors given by the two columns
// of another connector.
ghost use Rattle.std.specs.Prelude.{◌≡◌, ◌<◌, ◌+ℤ◌, ◌*ℤ◌, ◌↔◌, ℕ, true, false, IsTrue};
ghost use Rattle.std.specs.List.{AllByRecursion};
ghost use Rattle.cmr_base.specs.Cores.{HasEntries, IsBounded, IsCoreAt};
ghost use Rattle.cmr_base.specs.Matrix.{entry, height};
ghost use Rattle.cmr_base.specs.LineSets.{AllBelow};
ghost use Rattle.cmr_base.specs.Separations.{spread_at};
ghost use Rattle.tree_type.specs.Sides.{AreEntries};
ghost use Rattle.cert_check.specs.SideLines.{IsConnectorIn};

use cmr_base::{Connector, Core, Factors, Indices, Matrix};

/// Whether each entry is made from the columns of the first connector, which is flat, and the rows of the second, which is
/// tall.
pub fn is_spread_block(
    matrix: &Matrix,
    rows: &Indices,
    columns: &Indices,
    first: Connector,
    second: Connector,
) -> bool
    requires rows { AllBelow (height matrix.now) rows.now }
    requires columns { AllBelow matrix.now.width columns.now }
    requires first { IsConnectorIn matrix.now true first }
    requires second { IsConnectorIn matrix.now false second }
    ensures { IsTrue result
        ↔ AreEntries (entry matrix.now) rows.now columns.now
        (spread_at (entry matrix.now) first second) }
{
    are_spread_rows(matrix, rows.as_slice(), columns.as_slice(), first, second)
}

fn are_spread_rows(
    matrix: &Matrix,
    rows: &[u32],
    columns: &[u32],
    first: Connector,
    second: Connector,
) -> bool
    requires rows { AllBelow (height matrix.now) rows.now }
    requires columns { AllBelow matrix.now.width columns.now }
    requires first { IsConnectorIn matrix.now true first }
    requires second { IsConnectorIn matrix.now false second }
    ensures { IsTrue result
        ↔ AllByRecursion
        (λ row. AllByRecursion
        (λ column. entry matrix.now row column
        ≡ spread_at (entry matrix.now) first second row column)
        columns.now)
        rows.now }
{
    for row in rows {
        if !is_spread_row(matrix, *row, columns, first, second) {
            return false;
        }
    }
    true
}

fn is_spread_row(
    matrix: &Matrix,
    row: u32,
    columns: &[u32],
    first: Connector,
    second: Connector,
) -> bool
    requires row { row < height matrix.now }
    requires columns { AllBelow matrix.now.width columns.now }
    requires first { IsConnectorIn matrix.now true first }
    requires second { IsConnectorIn matrix.now false second }
    ensures { IsTrue result
        ↔ AllByRecursion
        (λ column. entry matrix.now row column
        ≡ spread_at (entry matrix.now) first second row column)
        columns.now }
{
    let factors = factors_of(matrix, row, first, second);
    is_row_made(matrix, row, columns, factors, second)
}

// Whether each entry of a row is the sum of the entries of the two rows of a tall connector, multiplied by these factors.
fn is_row_made(
    matrix: &Matrix,
    row: u32,
    columns: &[u32],
    factors: Factors,
    second: Connector,
) -> bool
    requires first_factor { IsBounded 4 factors.first }
    requires other_factor { IsBounded 4 factors.other }
    requires row { row < height matrix.now }
    requires columns { AllBelow matrix.now.width columns.now }
    requires second { IsConnectorIn matrix.now false second }
    ensures { IsTrue result
        ↔ AllByRecursion
        (λ column. entry matrix.now row column
        ≡ factors.first *ℤ entry matrix.now second.row column
        +ℤ factors.other *ℤ entry matrix.now second.other column)
        columns.now }
{
    for column in columns {
        if !is_entry_made(matrix, row, *column, factors, second) {
            return false;
        }
    }
    true
}

fn is_entry_made(
    matrix: &Matrix,
    row: u32,
    column: u32,
    factors: Factors,
    second: Connector,
) -> bool
    requires first_factor { IsBounded 4 factors.first }
    requires other_factor { IsBounded 4 factors.other }
    requires row { row < height matrix.now }
    requires column { column < matrix.now.width }
    requires second { IsConnectorIn matrix.now false second }
    ensures { IsTrue result
        ↔ (entry matrix.now row column
        ≡ factors.first *ℤ entry matrix.now second.row column
        +ℤ factors.other *ℤ entry matrix.now second.other column) }
{
    let upper = matrix.entry(second.row, column);
    let lower = matrix.entry(second.other, column);
    matrix.entry(row, column) == factors.entry(upper, lower)
}

fn factors_of(matrix: &Matrix, row: u32, first: Connector, second: Connector) -> Factors
    requires row { row < height matrix.now }
    requires first { IsConnectorIn matrix.now true first }
    requires second { IsConnectorIn matrix.now false second }
    ensures sum { (column : ℕ)
        → spread_at (entry matrix.now) first second row column
        ≡ result.first *ℤ entry matrix.now second.row column
        +ℤ result.other *ℤ entry matrix.now second.other column }
    ensures first { IsBounded 4 result.first }
    ensures other { IsBounded 4 result.other }
{
    let core = core_of(matrix, first, second);
    core.factors(
        core.determinant(),
        matrix.entry(row, first.column),
        matrix.entry(row, first.other),
    )
}

/// The entries in which the rows of a tall connector cross the columns of a flat connector.
pub fn core_of(matrix: &Matrix, first: Connector, second: Connector) -> Core
    requires first { IsConnectorIn matrix.now true first }
    requires second { IsConnectorIn matrix.now false second }
    ensures place { IsCoreAt (entry matrix.now) second.row second.other first.column first.other
        result }
    ensures entries { HasEntries result }
{
    Core::at(matrix, second.row, second.other, first.column, first.other)
}
