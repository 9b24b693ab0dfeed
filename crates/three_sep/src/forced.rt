// Columns that each good seed of the concentrated form with a given row in side one has in side one.
ghost use Rattle.std.specs.Prelude.{◌≡◌};

use crate::independent::new_row;
use cmr_base::{BitSet, Memory, RowsAndColumns, columns_of};
use std::alloc::Global;

/// Columns that a row forces into side one, and two buffers for columns.
#[derive(Drop)]
pub struct ForcedColumns<'a> {
    matrix: &'a RowsAndColumns<'a>,
    columns: BitSet,
    left: BitSet,
    last: BitSet,
    ghost columns_fit: { columns.size ≡ matrix.now.width },
    ghost left_fits: { left.size ≡ matrix.now.width },
    ghost last_fits: { last.size ≡ matrix.now.width },
}

impl<'a> ForcedColumns<'a> {
    ghost use Rattle.std.specs.Prelude.{◌≡◌, ◌<◌, ℕ, true, IfOk};
    ghost use Rattle.cmr_base.specs.ColumnSets.{has_column};
    ghost use Rattle.cmr_base.specs.Matrix.{height};
    ghost use Rattle.three_sep.specs.Concentrated.{AreForcedWith};
    ghost use Rattle.three_sep.specs.Independent.{AreIndependent};

    /// Gives columns that are in side one of each good seed of the form with row i in side one. It begins with the columns in which row i
    /// is not 0, and adds each column that has three rows that are independent in the columns added before, until no column is added.
    pub fn by_row(alloc: Global, matrix: &RowsAndColumns<'_>, i: u32) -> Result<BitSet, Memory>
        requires { i < height matrix.now }
        ensures size { IfOk result (λ set. set.size ≡ matrix.now.width) }
        ensures forced { IfOk result (λ set. AreForcedWith matrix.now i (has_column set.words)) }
    {
        let mut forced = ForcedColumns::of_row(alloc, matrix, i)?;
        for _round in 0..matrix.columns() {
            if !forced.add_more() {
                return Ok(forced.columns);
            }
        }
        Ok(forced.columns)
    }

    // The columns in which a row is not 0.
    fn of_row(
        alloc: Global,
        matrix: &'a RowsAndColumns<'a>,
        i: u32,
    ) -> Result<ForcedColumns<'a>, Memory>
        requires { i < height matrix.now }
        ensures matrix { IfOk result (λ forced. forced.matrix.now ≡ matrix.entry.now) }
        ensures forced { IfOk result (λ forced. AreForcedWith matrix.entry.now i
            (has_column forced.columns.words)) }
    {
        let mut columns = BitSet::new(alloc, matrix.columns())?;
        columns.add_words(columns_of(matrix.by_rows(), i));
        let left = BitSet::new(alloc, matrix.columns())?;
        let last = BitSet::new(alloc, matrix.columns())?;
        Ok(ForcedColumns {
            matrix,
            columns,
            left,
            last,
        })
    }

    // Adds each column that has three rows that are independent in the columns, and says whether it added any.
    fn add_more(&mut self) -> bool
        ensures matrix { self.new.matrix.now ≡ self.old.matrix.now }
        ensures more { (i : ℕ)
            → AreForcedWith self.old.matrix.now i (has_column self.old.columns.words)
            → AreForcedWith self.old.matrix.now i (has_column self.new.columns.words) }
    {
        let mut grows = false;
        for j in 0..self.matrix.columns() {
            if !self.columns.has(j) && self.are_three_independent(j) {
                self.columns.insert(j);
                grows = true;
            }
        }
        grows
    }

    // Searches for three rows that are not 0 in column j and are independent in the columns: each row is not 0 in one of these columns in
    // which the rows before it are 0. A side with these columns and without column j would have none of these rows, and two rows would make
    // all three. Each row is the first that fits, so three rows settle most columns.
    fn are_three_independent(&mut self, j: u32) -> bool
        requires { j < self.old.matrix.now.width }
        ensures matrix { self.new.matrix.now ≡ self.old.matrix.now }
        ensures columns { self.new.columns ≡ self.old.columns }
        ensures independent { result ≡ true → AreIndependent self.old.matrix.now
            (has_column self.old.columns.words) j }
    {
        let Some(one) = new_row(self.matrix, &self.columns, j, 0) else {
            return false;
        };
        self.left.clear();
        self.left
            .add_outside_words(&self.columns, columns_of(self.matrix.by_rows(), one));
        let Some(two) = new_row(self.matrix, &self.left, j, one + 1) else {
            return false;
        };
        self.last.clear();
        self.last
            .add_outside_words(&self.left, columns_of(self.matrix.by_rows(), two));
        match new_row(self.matrix, &self.last, j, two + 1) {
            Some(_three) => true,
            None => false,
        }
    }
}
