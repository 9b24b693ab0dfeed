// Lines with the signs that multiply them.
ghost use Rattle.std.specs.Prelude.{◌≡◌, ◌<◌, ◌++◌, map, IfOk, OnOk};
ghost use Rattle.cmr_base.specs.Matrix.{entry, height, IsEntry};
ghost use Rattle.cmr_base.specs.Signing.{IsSign};
ghost use Rattle.compose.specs.Arrangements.{plain, framed, signed_entry, signed_submatrix, AreSignedLines};

use cmr_base::{ItemList, Matrix, Memory, product};
use std::alloc::Global;

/// A row or a column, and the factor 1 or -1.
#[derive(Clone, Copy, Debug, PartialEq, Eq)]
pub struct SignedLine {
    pub line: u32,
    pub sign: i8,
}

/// Lines with their signs, in an order.
pub type SignedLineList = ItemList<SignedLine>;

/// Gives the line the sign 1.
pub fn plain(line: u32) -> SignedLine
    ensures { result ≡ plain line }
{
    SignedLine { line, sign: 1 }
}

/// Gives the lines the sign 1, after the lines of `first` and before the lines of `last`.
pub fn framed(
    alloc: Global,
    first: &[SignedLine],
    lines: &[u32],
    last: &[SignedLine],
) -> Result<SignedLineList, Memory>
    ensures { IfOk result (λ list. list ≡ framed first.now lines.now last.now) }
{
    let mut list = ItemList::new(alloc);
    push_signed(&mut list, first)?;
    push_plain(&mut list, lines)?;
    push_signed(&mut list, last)?;
    Ok(list)
}

fn push_signed(list: &mut SignedLineList, lines: &[SignedLine]) -> Result<(), Memory>
    ensures { OnOk result (list.new ≡ list.old ++ lines.now) }
{
    for line in lines {
        list.push(*line)?;
    }
    Ok(())
}

fn push_plain(list: &mut SignedLineList, lines: &[u32]) -> Result<(), Memory>
    ensures { OnOk result (list.new ≡ list.old ++ map plain lines.now) }
{
    for line in lines {
        list.push(plain(*line))?;
    }
    Ok(())
}

/// Makes the submatrix on these lines in their order, each line multiplied by its sign.
pub fn signed_submatrix(
    alloc: Global,
    matrix: &Matrix,
    rows: &[SignedLine],
    columns: &[SignedLine],
) -> Result<Matrix, Memory>
    requires rows { AreSignedLines (height matrix.now) rows.now }
    requires columns { AreSignedLines matrix.now.width columns.now }
    ensures { IfOk result (λ part. part ≡ signed_submatrix matrix.now rows.now columns.now) }
{
    prove!(rows.len() <= matrix.rows() as usize);
    prove!(columns.len() <= matrix.columns() as usize);
    let mut cells = Vec::with_capacity(alloc, rows.len() * columns.len())?;
    for row in rows {
        push_row(matrix, *row, columns, &mut cells)?;
    }
    Matrix::from_cells(alloc, rows.len() as u32, columns.len() as u32, &cells)
}

fn push_row(
    matrix: &Matrix,
    row: SignedLine,
    columns: &[SignedLine],
    cells: &mut Vec<i8>,
) -> Result<(), Memory>
    requires row { row.line < height matrix.now }
    requires sign { IsSign row.sign }
    requires columns { AreSignedLines matrix.now.width columns.now }
    ensures { OnOk result (cells.new.items
        ≡ cells.old.items ++ map (signed_entry (entry matrix.now) row) columns.now) }
{
    for column in columns {
        cells.push(signed_entry(matrix, row, *column))?;
    }
    Ok(())
}

fn signed_entry(matrix: &Matrix, row: SignedLine, column: SignedLine) -> i8
    requires row { row.line < height matrix.now }
    requires column { column.line < matrix.now.width }
    requires row_sign { IsSign row.sign }
    requires column_sign { IsSign column.sign }
    ensures value { result ≡ signed_entry (entry matrix.now) row column }
    ensures small { IsEntry result }
{
    let entry = matrix.entry(row.line, column.line);
    product(row.sign, product(column.sign, entry))
}
