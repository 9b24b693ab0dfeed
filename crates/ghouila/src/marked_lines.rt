ghost use Rattle.std.specs.Prelude.{◌≡◌, ◌<◌, ◌≤◌, ◌↔◌, ◌∷◌, [], ℕ, true, false, length, replicate, slice_set, slice_index_or, IfOk};
ghost use Rattle.cmr_base.specs.Matrix.{Matrix, height, entry};
ghost use Rattle.cmr_base.specs.Members.{IsIn};
ghost use Rattle.cmr_base.specs.Sums.{sum_over};
ghost use Rattle.ghouila.specs.Pivot.{HasSquareViolator};
ghost use Rattle.ghouila.specs.Found.{HasParity, marked, MarksViolator, MarksAgain};

use crate::pivots::Corner;
use cmr_base::{Indices, LineSet, MAX_COLUMNS, MAX_ROWS, Matrix, Memory};
use std::alloc::Global;

/// A violator as marks on its rows and columns, with the parity of the sum of its rows in each column.
#[derive(Debug, Drop)]
pub struct MarkedLines {
    rows: Vec<bool>,
    columns: Vec<bool>,
    odd: Vec<bool>,
}

impl MarkedLines {
    /// Marks no line.
    fn new(alloc: Global, work: &Matrix) -> Result<MarkedLines, Memory>
        ensures rows { IfOk result (λ lines. lines.rows.items ≡ replicate (height work.now) false) }
        ensures columns { IfOk result (λ lines. lines.columns.items
            ≡ replicate work.now.width false) }
        ensures odd { IfOk result (λ lines. lines.odd.items ≡ replicate work.now.width false) }
    {
        Ok(MarkedLines {
            rows: vec![in alloc; false; work.rows() as usize]?,
            columns: vec![in alloc; false; work.columns() as usize]?,
            odd: vec![in alloc; false; work.columns() as usize]?,
        })
    }

    /// Marks the two rows and two columns of a violator.
    pub fn of_square(
        alloc: Global,
        work: &Matrix,
        row: u32,
        column: u32,
        corner: Corner,
    ) -> Result<MarkedLines, Memory>
        requires row { row < height work.now }
        requires column { column < work.now.width }
        requires square { HasSquareViolator work.now row column corner.row corner.column }
        ensures violator { IfOk result (λ lines. MarksViolator work.now (row ∷ corner.row ∷ [])
            lines.rows.items lines.columns.items lines.odd.items) }
        ensures rows { IfOk result (λ lines. (i : ℕ) → IsIn i (marked lines.rows.items)
            ↔ IsIn i (row ∷ corner.row ∷ [])) }
        ensures columns { IfOk result (λ lines. (j : ℕ) → IsIn j (marked lines.columns.items)
            ↔ IsIn j (column ∷ corner.column ∷ [])) }
    {
        let mut lines = MarkedLines::new(alloc, work)?;
        lines.rows[row as usize] = true;
        lines.rows[corner.row as usize] = true;
        lines.columns[column as usize] = true;
        lines.columns[corner.column as usize] = true;
        for place in 0..work.columns() {
            let first = work.entry(row, place) != 0;
            let second = work.entry(corner.row, place) != 0;
            lines.odd[place as usize] = first != second;
        }
        Ok(lines)
    }

    /// Maps the violator of the matrix after a pivot back to a violator of the matrix before it.
    pub fn undo_pivot(&mut self, work: &Matrix, row: u32, column: u32)
        requires row { row < height work.now }
        requires column { column < work.now.width }
        requires row_each { length self.old.rows.items ≡ height work.now }
        requires column_each { length self.old.columns.items ≡ work.now.width }
        requires odd_each { length self.old.odd.items ≡ work.now.width }
        ensures rows { self.new.rows.items
            ≡ slice_set self.old.rows.items row (slice_index_or self.old.odd.items column false) }
        ensures odd { self.new.odd.items ≡ slice_set self.old.odd.items column false }
        ensures columns { MarksAgain (entry work.now row) column self.old.columns.items
            self.new.columns.items }
    {
        let was_there = self.columns[column as usize];
        self.rows[row as usize] = self.odd[column as usize];
        self.odd[column as usize] = false;
        self.columns[column as usize] = false;
        self.columns[column as usize] = is_odd_row(work, row, &self.columns) != was_there;
    }

    /// Gives the marked lines.
    pub fn to_lines(&self, alloc: Global) -> Result<LineSet, Memory>
        requires few_rows { length self.now.rows.items ≤ MAX_ROWS }
        requires few_columns { length self.now.columns.items ≤ MAX_COLUMNS }
        ensures rows { IfOk result (λ lines. lines.rows ≡ marked self.now.rows.items) }
        ensures columns { IfOk result (λ lines. lines.columns ≡ marked self.now.columns.items) }
    {
        Ok(LineSet {
            rows: marked_places(alloc, &self.rows)?,
            columns: marked_places(alloc, &self.columns)?,
        })
    }
}

// Decides whether the entries of the row in the marked columns have an odd sum.
fn is_odd_row(work: &Matrix, row: u32, marks: &[bool]) -> bool
    requires row { row < height work.now }
    requires column_each { length marks.now ≡ work.now.width }
    ensures { HasParity result (sum_over (marked marks.now) (entry work.now row)) }
{
    let mut odd = false;
    for column in 0..work.columns() {
        if marks[column as usize] && work.entry(row, column) != 0 {
            odd = !odd;
        }
    }
    odd
}

fn marked_places(alloc: Global, marks: &[bool]) -> Result<Indices, Memory>
    requires { length marks.now ≤ MAX_ROWS }
    ensures { IfOk result (λ places. places ≡ marked marks.now) }
{
    let mut places = Indices::new(alloc);
    for (place, mark) in marks.iter().enumerate() {
        if *mark {
            places.push(place as u32)?;
        }
    }
    Ok(places)
}
