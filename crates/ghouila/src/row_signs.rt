ghost use Rattle.std.specs.Prelude.{◌≡◌, ◌<◌, ◌+ℤ◌, ℕ, pos, length, map, replicate, slice_set, slice_index_or, IfOk};
ghost use Rattle.cmr_base.specs.Matrix.{Matrix, height, entry};
ghost use Rattle.cmr_base.specs.LineSets.{AllBelow};
ghost use Rattle.ghouila.specs.Pivot.{IsTernaryRow};

use cmr_base::{Matrix, Memory, SignList};
use std::alloc::Global;

/// Signs of some rows, with the sum of the signed rows in each column.
#[derive(Debug, Drop)]
pub struct RowSigns {
    signs: Vec<i8>,
    sums: Vec<i8>,
}

impl RowSigns {
    /// Gives no row a sign.
    pub fn new(alloc: Global, work: &Matrix) -> Result<RowSigns, Memory>
        ensures signs { IfOk result (λ s. s.signs.items ≡ replicate (height work.now) (pos 0)) }
        ensures sums { IfOk result (λ s. s.sums.items ≡ replicate work.now.width (pos 0)) }
    {
        Ok(RowSigns {
            signs: vec![in alloc; 0i8; work.rows() as usize]?,
            sums: vec![in alloc; 0i8; work.columns() as usize]?,
        })
    }

    /// Gives the pivot's row the sum of the pivot's column as its sign. The sum of that column then is 0.
    pub fn sign_pivot(&mut self, row: u32, column: u32)
        requires row { row < length self.old.signs.items }
        requires column { column < length self.old.sums.items }
        ensures signs { self.new.signs.items
            ≡ slice_set self.old.signs.items row (slice_index_or self.old.sums.items column
            (pos 0)) }
        ensures sums { self.new.sums.items ≡ slice_set self.old.sums.items column (pos 0) }
    {
        self.signs[row as usize] = self.sums[column as usize];
        self.sums[column as usize] = 0;
    }

    /// Gives the sign +1 to a row that was put aside.
    pub fn sign_aside(&mut self, work: &Matrix, row: u32)
        requires row { row < height work.now }
        requires row_each { length self.old.signs.items ≡ height work.now }
        requires column_each { length self.old.sums.items ≡ work.now.width }
        requires small { IsTernaryRow work.now.width (λ column.
            slice_index_or self.old.sums.items column (pos 0)) }
        ensures signs { self.new.signs.items ≡ slice_set self.old.signs.items row (pos 1) }
        ensures sum_each { length self.new.sums.items ≡ length self.old.sums.items }
        ensures sums { (column : ℕ) → column < work.now.width
            → slice_index_or self.new.sums.items column (pos 0)
            ≡ slice_index_or self.old.sums.items column (pos 0) +ℤ entry work.now row column }
    {
        self.signs[row as usize] = 1;
        for column in 0..work.columns() {
            self.sums[column as usize] += work.entry(row, column);
        }
    }

    /// Gives the signs of these rows, in their order.
    pub fn of_rows(&self, alloc: Global, rows: &[u32]) -> Result<SignList, Memory>
        requires { AllBelow (length self.now.signs.items) rows.now }
        ensures { IfOk result (λ list. list ≡ map
            (λ row. slice_index_or self.now.signs.items row (pos 0)) rows.now) }
    {
        let mut list = SignList::new(alloc);
        for row in rows {
            list.push(self.signs[*row as usize])?;
        }
        Ok(list)
    }
}
