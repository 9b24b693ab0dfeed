// The other lines of connectors.
ghost use Rattle.std.specs.Prelude.{◌≡◌, ◌≢◌, ◌<◌, ◌↔◌, pos, true, false, IsTrue};
ghost use Rattle.cmr_base.specs.Matrix.{height, entry, IsMatrix};
ghost use Rattle.cmr_base.specs.Separations.{IsTied, first_is_flat, second_is_flat};
ghost use Rattle.cmr_base.specs.Seeds.{IsLine};
ghost use Rattle.three_sep.specs.NumberedSeeds.{IsBeside};
ghost use Rattle.cuts.specs.LineCuts.{AreInside, HasNames};
ghost use Rattle.three_sep.specs.Searches.{LacksColumn, LacksRow, first_at, line_count, other_line, second_at};

use crate::connectors::Connectors;
use crate::grouped_lines::{GroupedLines, is_flat_other};
use cmr_base::{Connector, Form, Line, RowsAndColumns};
use cuts::{Corners, Groups};

/// The number of columns, or of rows.
pub fn count_of(matrix: &RowsAndColumns<'_>, flat: bool) -> u32
    ensures count { result ≡ line_count matrix.now flat }
    ensures shape { IsMatrix matrix.now }
{
    if flat {
        matrix.columns()
    } else {
        matrix.rows()
    }
}

/// The column, or the row, with a number.
pub fn line_of(flat: bool, other: u32) -> Line
    ensures { result ≡ other_line flat other }
{
    if flat {
        Line::Column(other)
    } else {
        Line::Row(other)
    }
}

/// Decides whether q can be the other line of the first connector.
pub fn is_first_other(matrix: &RowsAndColumns<'_>, form: Form, corners: &Corners, q: u32) -> bool
    requires inside { AreInside matrix.now corners.now }
    requires line { IsLine (height matrix.now) matrix.now.width
        (other_line (first_is_flat form) q) }
    ensures yes { result ≡ true
        → IsTied (entry matrix.now) (first_is_flat form) (first_at corners.now q)
        corners.now.two.row corners.now.two.column }
    ensures no { result ≡ false
        → ¬ (IsTied (entry matrix.now) (first_is_flat form) (first_at corners.now q)
        corners.now.two.row corners.now.two.column) }
{
    if form.first_is_flat() {
        is_flat_other(matrix, corners.one.row, corners.two.row, q)
    } else {
        is_tall_other(matrix, corners.one.column, corners.two.column, q)
    }
}

/// Decides whether o can be the other line of the second connector.
pub fn is_second_other(matrix: &RowsAndColumns<'_>, form: Form, corners: &Corners, o: u32) -> bool
    requires inside { AreInside matrix.now corners.now }
    requires line { IsLine (height matrix.now) matrix.now.width
        (other_line (second_is_flat form) o) }
    ensures yes { result ≡ true
        → IsTied (entry matrix.now) (second_is_flat form) (second_at corners.now o)
        corners.now.one.row corners.now.one.column }
    ensures no { result ≡ false
        → ¬ (IsTied (entry matrix.now) (second_is_flat form) (second_at corners.now o)
        corners.now.one.row corners.now.one.column) }
{
    if form.second_is_flat() {
        is_flat_other(matrix, corners.two.row, corners.one.row, o)
    } else {
        is_tall_other(matrix, corners.two.column, corners.one.column, o)
    }
}

// Decides whether a row is 0 in one column and not in another.
fn is_tall_other(matrix: &RowsAndColumns<'_>, own: u32, across: u32, other: u32) -> bool
    requires own { own < matrix.now.width }
    requires across { across < matrix.now.width }
    requires other { other < height matrix.now }
    ensures yes { result ≡ true
        → (entry matrix.now other own ≡ pos 0) × (entry matrix.now other across ≢ pos 0) }
    ensures no { result ≡ false
        → ¬ ((entry matrix.now other own ≡ pos 0) × (entry matrix.now other across ≢ pos 0)) }
{
    let _rows = matrix.rows();
    let columns = matrix.transposed();
    is_flat_other(&columns, own, across, other)
}

/// Decides whether the flat connectors of the form may have other lines, if the corners are in rows i and k.
pub fn may_have_columns(
    matrix: &RowsAndColumns<'_>,
    groups: &Groups,
    form: Form,
    i: u32,
    k: u32,
) -> bool
    requires names { HasNames matrix.now groups.now }
    requires row { i < height matrix.now }
    requires second_row { k < height matrix.now }
    ensures { result ≡ false → LacksColumn matrix.now groups.now form i k }
{
    let lines = GroupedLines {
        matrix,
        groups,
        rows_from: 0,
        columns_from: matrix.rows(),
    };
    lines.may_have(form.first_is_flat(), form.second_is_flat(), i, k)
}

/// Decides whether the tall connectors of the form may have other lines, if the corners are in columns p and j.
pub fn may_have_rows(
    matrix: &RowsAndColumns<'_>,
    groups: &Groups,
    form: Form,
    p: u32,
    j: u32,
) -> bool
    requires names { HasNames matrix.now groups.now }
    requires column { p < matrix.now.width }
    requires second_column { j < matrix.now.width }
    ensures { result ≡ false → LacksRow matrix.now groups.now form p j }
{
    let rows_from = matrix.rows();
    let columns = matrix.transposed();
    let _columns = columns.rows();
    let lines = GroupedLines {
        matrix: &columns,
        groups,
        rows_from,
        columns_from: 0,
    };
    lines.may_have(!form.first_is_flat(), !form.second_is_flat(), p, j)
}

/// Decides whether a line is in neither connector.
pub fn is_beside(form: Form, connectors: &Connectors, line: Line) -> bool
    ensures { IsTrue result ↔ (IsBeside (first_is_flat form) connectors.now.first line
        × IsBeside (second_is_flat form) connectors.now.second line) }
{
    is_apart(form.first_is_flat(), connectors.first, line)
        && is_apart(form.second_is_flat(), connectors.second, line)
}

fn is_apart(flat: bool, connector: Connector, line: Line) -> bool
    ensures { IsTrue result ↔ IsBeside flat connector line }
{
    let Connector { row, column, other } = connector;
    match line {
        Line::Row(number) => number != row && (flat || number != other),
        Line::Column(number) => number != column && (!flat || number != other),
    }
}
