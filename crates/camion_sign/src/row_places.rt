// The cycle places of a row, computed on demand.
ghost use Rattle.std.specs.Prelude.{◌≡◌, ◌≢◌, ◌<◌, ◌+◌, ℕ, List, Some, pos, true, false, IsTrue, IfOk, OnOk, length};
ghost use Rattle.cmr_base.specs.Matrix.{Matrix, height, entry};
ghost use Rattle.cmr_base.specs.CyclePlaces.{IsCyclePlace};
ghost use Rattle.camion_sign.specs.SignOrder.{IsCycleLines, IsPlaceOf};
ghost use Rattle.camion_sign.specs.Signings.{AreSquare, HasRoomForPlaces, KnowsPlaces, ShowsPlace, ShowsPlaceOf, ShowsPlacesFrom};
ghost use Rattle.camion_sign.specs.Walks.{HasFoundPaths, HasValuesBefore, HasWalked};

use crate::column_parts::ColumnParts;
use crate::cycle_lines::{columns_of_cycle, rows_of_cycle};
use crate::fault::path_to;
use crate::line_words::row_words;
use crate::reach::{Start, walk_from};
use crate::walk::Walk;
use cmr_base::{BitSet, LineSet, Matrix, Memory, RowsAndColumns};
use std::alloc::Global;

/// A signed column that makes a cycle place with a column, and the mark of this place.
#[derive(Clone, Copy)]
pub struct Partner {
    pub column: u32,
    pub mark: i8,
}

/// A forced one: its column, the signed column with which it makes a cycle place, and the mark of this place.
#[derive(Clone, Copy)]
pub struct ForcedOne {
    pub column: u32,
    pub partner: u32,
    pub mark: i8,
}

/// The cycle places of a row, as far as walks have determined them: the columns that make a place with a first column, if they
/// are known. The last walk is kept until a place with another first column is required.
#[derive(Drop)]
pub struct RowPlaces {
    /// The parts of the columns, by the rows before this one.
    pub parts: ColumnParts,
    /// The columns that the rows before this one meet.
    pub touched: BitSet,
    /// The columns of the row that some earlier row meets, for the last walk.
    pub waiting: BitSet,
    pub walk: Walk,
    /// The column at which the last walk began.
    pub walked: Option<u32>,
    /// The marks of places. The entry in a row and a column is 0 if these two columns, first and last, make no place. It is 1 if
    /// the signs on the path of their place have a sum divisible by 4, and -1 otherwise.
    pub links: Matrix,
    /// For each first column whether its places are known.
    pub known: Vec<bool>,
}

impl RowPlaces {
    /// Room for the places of any row. No rows are before the first one.
    pub fn new(alloc: Global, matrix: &RowsAndColumns<'_>) -> Result<RowPlaces, Memory>
        ensures { IfOk result (HasRoomForPlaces matrix.now 0) }
    {
        let columns = matrix.columns();
        Ok(RowPlaces {
            parts: ColumnParts::new(alloc, columns)?,
            touched: BitSet::new(alloc, columns)?,
            waiting: BitSet::new(alloc, columns)?,
            walk: Walk::new(alloc, matrix.rows(), columns)?,
            walked: None,
            links: Matrix::zero(alloc, columns, columns)?,
            known: vec![in alloc; false; columns as usize]?,
        })
    }

    /// Begins a row. Nothing is known of it.
    pub fn begin(&mut self, matrix: &RowsAndColumns<'_>)
        ensures { (signs : Matrix) (row : ℕ) → HasRoomForPlaces matrix.now row self.old
            → HasValuesBefore matrix.now signs row → KnowsPlaces matrix.now signs row self.new }
    {
        self.walked = None;
        self.known.fill(false);
    }

    /// Ends a row, which is before the next one.
    pub fn end(&mut self, matrix: &RowsAndColumns<'_>, row: u32)
        requires row { row < height matrix.now }
        requires room { HasRoomForPlaces matrix.now row self.old }
        ensures { HasRoomForPlaces matrix.now (row + 1) self.new }
    {
        self.parts.join_row(matrix, row);
        self.touched.add_words(row_words(matrix, row));
    }

    /// The mark of the place that two columns make with the row, and 0 if they make none. Columns of different parts make none.
    pub fn mark(
        &mut self,
        matrix: &RowsAndColumns<'_>,
        signs: &Matrix,
        row: u32,
        column: u32,
        partner: u32,
    ) -> Result<i8, Memory>
        requires row { row < height matrix.now }
        requires places { KnowsPlaces matrix.now signs.now row self.old }
        requires column { column < matrix.now.width }
        requires partner { partner < matrix.now.width }
        requires other { partner ≢ column }
        requires first { entry matrix.now row column ≢ pos 0 }
        requires last { entry matrix.now row partner ≢ pos 0 }
        ensures mark { IfOk result
            (ShowsPlaceOf matrix.now signs.now row partner column) }
        ensures places { IfOk result (λ mark.
            KnowsPlaces matrix.now signs.now row self.new) }
    {
        if !self.parts.are_joined(matrix, row, column, partner) {
            return Ok(0);
        }
        if partner < column {
            let start = Start {
                row,
                column: partner,
            };
            self.mark_from(matrix, signs, start, column)
        } else {
            self.mark_from(matrix, signs, Start { row, column }, partner)
        }
    }

    // The mark of a first column and a last one.
    fn mark_from(
        &mut self,
        matrix: &RowsAndColumns<'_>,
        signs: &Matrix,
        start: Start,
        last: u32,
    ) -> Result<i8, Memory>
        requires row { start.row < height matrix.now }
        requires places { KnowsPlaces matrix.now signs.now start.row self.old }
        requires order { start.column < last }
        requires width { last < matrix.now.width }
        requires first { entry matrix.now start.row start.column ≢ pos 0 }
        requires last { entry matrix.now start.row last ≢ pos 0 }
        ensures shows { IfOk result (λ mark.
            ShowsPlace matrix.now signs.now start.row start.column last mark) }
        ensures places { IfOk result (λ mark.
            KnowsPlaces matrix.now signs.now start.row self.new) }
    {
        self.learn(matrix, signs, start)?;
        Ok(self.links.entry(start.column, last))
    }

    // Determines the columns that make a place with a first column, if they are not known.
    fn learn(
        &mut self,
        matrix: &RowsAndColumns<'_>,
        signs: &Matrix,
        start: Start,
    ) -> Result<(), Memory>
        requires row { start.row < height matrix.now }
        requires places { KnowsPlaces matrix.now signs.now start.row self.old }
        requires column { start.column < matrix.now.width }
        requires first { entry matrix.now start.row start.column ≢ pos 0 }
        ensures places { OnOk result (KnowsPlaces matrix.now signs.now start.row self.new) }
        ensures known { OnOk result (ShowsPlacesFrom matrix.now signs.now start.row start.column
            matrix.now.width self.new.links) }
    {
        if self.known[start.column as usize] {
            return Ok(());
        }
        self.walk_at(matrix, signs, start)
    }

    fn walk_at(
        &mut self,
        matrix: &RowsAndColumns<'_>,
        signs: &Matrix,
        start: Start,
    ) -> Result<(), Memory>
        requires row { start.row < height matrix.now }
        requires places { KnowsPlaces matrix.now signs.now start.row self.old }
        requires column { start.column < matrix.now.width }
        requires first { entry matrix.now start.row start.column ≢ pos 0 }
        ensures places { OnOk result (KnowsPlaces matrix.now signs.now start.row self.new) }
        ensures known { OnOk result (ShowsPlacesFrom matrix.now signs.now start.row start.column
            matrix.now.width self.new.links) }
        ensures walked { OnOk result
            (HasFoundPaths matrix.now start.row start.column self.new.walk) }
    {
        self.waiting.clear();
        self.waiting
            .add_common_words(&self.touched, row_words(matrix, start.row));
        walk_from(matrix, signs, &mut self.walk, start, &self.waiting)?;
        note_places(matrix, signs, &self.walk, start, &mut self.links);
        self.known[start.column as usize] = true;
        self.walked = Some(start.column);
        Ok(())
    }

    // Walks from a column, unless the last walk began there.
    fn walk_if_needed(
        &mut self,
        matrix: &RowsAndColumns<'_>,
        signs: &Matrix,
        start: Start,
    ) -> Result<(), Memory>
        requires row { start.row < height matrix.now }
        requires places { KnowsPlaces matrix.now signs.now start.row self.old }
        requires column { start.column < matrix.now.width }
        requires first { entry matrix.now start.row start.column ≢ pos 0 }
        ensures places { OnOk result (KnowsPlaces matrix.now signs.now start.row self.new) }
        ensures walked { OnOk result
            (HasFoundPaths matrix.now start.row start.column self.new.walk) }
    {
        if let Some(column) = self.walked {
            if column == start.column {
                return Ok(());
            }
        }
        self.walk_at(matrix, signs, start)
    }

    /// The lines of the cycle of a place with these columns.
    pub fn cycle(
        &mut self,
        alloc: Global,
        matrix: &RowsAndColumns<'_>,
        signs: &Matrix,
        row: u32,
        column: u32,
        partner: u32,
    ) -> Result<LineSet, Memory>
        requires row { row < height matrix.now }
        requires places { KnowsPlaces matrix.now signs.now row self.old }
        requires place { (path : List ℕ) × IsPlaceOf matrix.now row partner column path }
        ensures cycle { IfOk result (λ cycle. IsCycleLines matrix.now row partner column cycle) }
        ensures places { IfOk result (λ cycle.
            KnowsPlaces matrix.now signs.now row self.new) }
    {
        if partner < column {
            let start = Start {
                row,
                column: partner,
            };
            self.cycle_from(alloc, matrix, signs, start, column)
        } else {
            self.cycle_from(alloc, matrix, signs, Start { row, column }, partner)
        }
    }

    fn cycle_from(
        &mut self,
        alloc: Global,
        matrix: &RowsAndColumns<'_>,
        signs: &Matrix,
        start: Start,
        last: u32,
    ) -> Result<LineSet, Memory>
        requires row { start.row < height matrix.now }
        requires places { KnowsPlaces matrix.now signs.now start.row self.old }
        requires place { (path : List ℕ)
            × IsCyclePlace (entry matrix.now) start.row start.column last path }
        ensures cycle { IfOk result (λ cycle.
            IsCycleLines matrix.now start.row start.column last cycle) }
        ensures places { IfOk result (λ cycle.
            KnowsPlaces matrix.now signs.now start.row self.new) }
    {
        self.walk_if_needed(matrix, signs, start)?;
        let lines = path_to(alloc, matrix, &self.walk, start, last)?;
        Ok(LineSet {
            rows: rows_of_cycle(alloc, start.row, &lines, matrix.rows())?,
            columns: columns_of_cycle(alloc, start.column, last, &lines, matrix.columns())?,
        })
    }
}

// Records the marks of the last columns for a walk from the first column.
fn note_places(
    matrix: &RowsAndColumns<'_>,
    signs: &Matrix,
    walk: &Walk,
    start: Start,
    links: &mut Matrix,
)
    requires row { start.row < height matrix.now }
    requires column { start.column < matrix.now.width }
    requires first { entry matrix.now start.row start.column ≢ pos 0 }
    requires walked { HasWalked matrix.now signs.now start.row start.column walk.now }
    requires square { AreSquare matrix.now links.old }
    ensures shows { ShowsPlacesFrom matrix.now signs.now start.row start.column matrix.now.width
        links.new }
    ensures others { (c d : ℕ) → c ≢ start.column → entry links.new c d ≡ entry links.old c d }
    ensures square { AreSquare matrix.now links.new }
{
    let mut from = start.column + 1;
    while let Some(last) = matrix.by_rows().next_nonzero(start.row, from) {
        links.set(
            start.column,
            last,
            place_mark(matrix, signs, walk, start, last),
        );
        from = last + 1;
    }
}

// The mark of a last column.
fn place_mark(
    matrix: &RowsAndColumns<'_>,
    signs: &Matrix,
    walk: &Walk,
    start: Start,
    last: u32,
) -> i8
    requires order { start.column < last }
    requires width { last < matrix.now.width }
    requires first { entry matrix.now start.row start.column ≢ pos 0 }
    requires last { entry matrix.now start.row last ≢ pos 0 }
    requires walked { HasWalked matrix.now signs.now start.row start.column walk.now }
    ensures { ShowsPlace matrix.now signs.now start.row start.column last result }
{
    if !walk.has_reached(last) {
        return 0;
    }
    let step = walk.steps[walk.places[last as usize] as usize];
    if step.is_two { -1 } else { 1 }
}
