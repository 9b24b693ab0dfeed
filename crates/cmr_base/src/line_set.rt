ghost use Rattle.std.specs.Prelude.{◌≡◌, ◌≤◌, ◌+◌, length, IfOk};
ghost use Rattle.cmr_base.specs.LineSets.{first_lines, without};

use crate::{Indices, MAX_COLUMNS, MAX_ROWS, Memory};
use std::alloc::Global;

/// A set of lines: rows and columns of a matrix. It names the submatrix on these lines.
#[derive(Debug, Drop)]
pub struct LineSet {
    pub rows: Indices,
    pub columns: Indices,
}

impl LineSet {
    /// All lines of a matrix with `rows` rows and `columns` columns.
    pub fn all(alloc: Global, rows: u32, columns: u32) -> Result<LineSet, Memory>
        ensures rows { IfOk result (λ lines. lines.rows ≡ first_lines rows) }
        ensures columns { IfOk result (λ lines. lines.columns ≡ first_lines columns) }
    {
        Ok(LineSet {
            rows: first_lines(alloc, rows)?,
            columns: first_lines(alloc, columns)?,
        })
    }

    /// The set without a row. It is a copy of the set if the row is not in it.
    pub fn without_row(&self, alloc: Global, row: u32) -> Result<LineSet, Memory>
        ensures rows { IfOk result (λ lines. lines.rows ≡ without self.now.rows row) }
        ensures columns { IfOk result (λ lines. lines.columns ≡ self.now.columns) }
    {
        Ok(LineSet {
            rows: without(alloc, &self.rows, row)?,
            columns: Indices::of(alloc, self.columns.as_slice())?,
        })
    }

    /// The set without a column. It is a copy of the set if the column is not in it.
    pub fn without_column(&self, alloc: Global, column: u32) -> Result<LineSet, Memory>
        ensures rows { IfOk result (λ lines. lines.rows ≡ self.now.rows) }
        ensures columns { IfOk result (λ lines. lines.columns ≡ without self.now.columns column) }
    {
        Ok(LineSet {
            rows: Indices::of(alloc, self.rows.as_slice())?,
            columns: without(alloc, &self.columns, column)?,
        })
    }

    /// The number of lines, rows and columns together.
    pub fn size(&self) -> u32
        requires rows { length self.now.rows ≤ MAX_ROWS }
        requires columns { length self.now.columns ≤ MAX_COLUMNS }
        ensures { result ≡ length self.now.rows + length self.now.columns }
    {
        self.rows.len() as u32 + self.columns.len() as u32
    }
}

fn first_lines(alloc: Global, count: u32) -> Result<Indices, Memory>
    ensures { IfOk result (λ lines. lines ≡ first_lines count) }
{
    let mut lines = Indices::new(alloc);
    for line in 0..count {
        lines.push(line)?;
    }
    Ok(lines)
}

fn without(alloc: Global, lines: &Indices, omitted: u32) -> Result<Indices, Memory>
    ensures { IfOk result (λ rest. rest ≡ without lines.now omitted) }
{
    let mut rest = Indices::new(alloc);
    for line in lines.as_slice() {
        if *line != omitted {
            rest.push(*line)?;
        }
    }
    Ok(rest)
}
