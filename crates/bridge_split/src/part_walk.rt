// Walks over joined rows that number the parts at a row.
ghost use Rattle.std.specs.Prelude.{◌≡◌, ◌<◌, ℕ, true};
ghost use Rattle.cmr_base.specs.ColumnSets.{has_column};

use cmr_base::{BitSet, MAX_ROWS, Matrix, Memory, columns_of};
use std::alloc::Global;

/// The parts of the rows without one of them. One allocation serves for all rows of a matrix.
#[derive(Drop)]
pub struct PartWalk {
    /// The number of each row's part, or `None` if the walk has not met the row.
    pub part: Vec<Option<u32>>,
    // The columns of the rows that the walk has met in one part, except the columns of the removed row.
    reached: BitSet,
    // The columns in which the removed row is 0, and all columns.
    zeros: BitSet,
    all: BitSet,
    ghost zeros_fit: { zeros.size ≡ reached.size },
    ghost all_fit: { all.size ≡ reached.size },
    ghost are_all: { (x : ℕ) → x < all.size → has_column all.words x ≡ true },
}

impl PartWalk {
    ghost use Rattle.std.specs.Prelude.{◌≡◌, ◌<◌, ◌≤◌, ◌+◌, ◌↔◌, ◌&&◌, ◌||◌, not, false, ℕ, Some, None, length, slice_index, slice_set, IfOk, IsTrue};
    ghost use Rattle.std.specs.List.Sorted.{IsStrictlyIncreasing};
    ghost use Rattle.cmr_base.specs.LineSets.{AllBelow};
    ghost use Rattle.cmr_base.specs.Matrix.{height};
    ghost use Rattle.cmr_base.specs.Members.{IsIn};
    ghost use Rattle.cmr_base.specs.Trees.{support};
    ghost use Rattle.cmr_base.specs.ColumnSets.{has_column};
    ghost use Rattle.bridge_split.specs.PartNumbers.{ArePartNumbers, HasPartRoom, IsBetween, IsLeft, IsBetweenParts, IsTouched, IsWalkAt, IsWalkingPart, KeepsParts, left_in, number_at};
    ghost use Rattle.bridge_split.specs.ZeroColumns.{AreZeros};

    /// Room for the walks over the rows of a matrix.
    pub fn new(alloc: Global, matrix: &Matrix) -> Result<PartWalk, Memory>
        ensures { IfOk result (HasPartRoom matrix.now) }
    {
        let columns = matrix.columns();
        let none = BitSet::new(alloc, columns)?;
        Ok(PartWalk {
            part: vec![in alloc; None; matrix.rows() as usize]?,
            reached: BitSet::new(alloc, columns)?,
            zeros: BitSet::new(alloc, columns)?,
            all: none.others(alloc)?,
        })
    }

    /// Numbers the parts of the rows except `row` by their first rows, and returns the number of parts.
    pub fn number_parts(&mut self, matrix: &Matrix, rows: &[u32], row: u32) -> u32
        requires rows { AllBelow (height matrix.now) rows.now }
        requires increasing { IsStrictlyIncreasing rows.now }
        requires row { IsIn row rows.now }
        requires room { HasPartRoom matrix.now self.old }
        ensures room { HasPartRoom matrix.now self.new }
        ensures parts { ArePartNumbers (support matrix.now) rows.now row
            (number_at self.new.part.items) result }
    {
        self.clear();
        self.set_zeros(matrix, row);
        let mut count = 0;
        for place in 0..rows.len() {
            if self.is_left(rows[place], row) {
                self.walk_from(matrix, rows, row, place, count);
                count += 1;
            }
        }
        count
    }

    fn clear(&mut self)
        ensures part { (x : ℕ) → number_at self.new.part.items x ≡ None }
        ensures numbers { length self.new.part.items ≡ length self.old.part.items }
        ensures reached { self.new.reached ≡ self.old.reached }
    {
        self.part.fill(None);
    }

    // Sets the columns in which the removed row is 0.
    fn set_zeros(&mut self, matrix: &Matrix, row: u32)
        requires row { row < height matrix.now }
        requires columns { self.old.reached.size ≡ matrix.now.width }
        ensures zeros { AreZeros matrix.now row self.new.zeros }
        ensures part { self.new.part.items ≡ self.old.part.items }
        ensures reached { self.new.reached ≡ self.old.reached }
    {
        self.zeros.clear();
        self.zeros
            .add_outside_words(&self.all, columns_of(matrix, row));
    }

    // Whether `other` is not `row` and the walk has not met it.
    fn is_left(&self, other: u32, row: u32) -> bool
        requires { other < length self.now.part.items }
        ensures { IsTrue result ↔ IsLeft row (number_at self.now.part.items) other }
    {
        other != row && self.part[other as usize].is_none()
    }

    // Meets all rows that are linked to the row at `place`.
    fn walk_from(&mut self, matrix: &Matrix, rows: &[u32], row: u32, place: usize, number: u32)
        requires rows { AllBelow (height matrix.now) rows.now }
        requires increasing { IsStrictlyIncreasing rows.now }
        requires place { place < length rows.now }
        requires numbering { IsBetweenParts matrix.now rows.now row number place self.old }
        requires left { IsLeft row (number_at self.old.part.items) (slice_index rows.now place) }
        ensures room { IsWalkAt matrix.now row self.new }
        ensures keeps { KeepsParts (number_at self.old.part.items) (number_at self.new.part.items) }
        ensures first { number_at self.new.part.items (slice_index rows.now place) ≡ Some number }
        ensures between { IsBetween (support matrix.now) rows.now row
            (number_at self.new.part.items) (number + 1) }
    {
        self.forget();
        self.meet(matrix, row, rows[place], number);
        let mut met = 1;
        while met > 0 {
            met = self.meet_touched(matrix, rows, row, number);
        }
    }

    fn forget(&mut self)
        ensures none { (column : ℕ) → has_column self.new.reached.words column ≡ false }
        ensures columns { self.new.reached.size ≡ self.old.reached.size }
        ensures part { self.new.part.items ≡ self.old.part.items }
        ensures zeros { self.new.zeros ≡ self.old.zeros }
    {
        self.reached.clear();
    }

    // Passes once over the rows and meets each row that is not 0 in a column reached so far. Returns the number of these rows.
    fn meet_touched(&mut self, matrix: &Matrix, rows: &[u32], row: u32, number: u32) -> u32
        requires rows { AllBelow (height matrix.now) rows.now }
        requires few { length rows.now ≤ MAX_ROWS }
        requires room { IsWalkAt matrix.now row self.old }
        requires walk { IsWalkingPart (support matrix.now) rows.now row
            (number_at self.old.part.items) number (has_column self.old.reached.words) }
        ensures room { IsWalkAt matrix.now row self.new }
        ensures walk { IsWalkingPart (support matrix.now) rows.now row
            (number_at self.new.part.items) number (has_column self.new.reached.words) }
        ensures keeps { KeepsParts (number_at self.old.part.items) (number_at self.new.part.items) }
        ensures fewer { left_in rows.now (number_at self.new.part.items) + result
            ≤ left_in rows.now (number_at self.old.part.items) }
        ensures none { result ≡ 0 → (x : ℕ) → IsIn x rows.now
            → ¬ (IsTouched (support matrix.now) row (number_at self.new.part.items)
            (has_column self.new.reached.words) x) }
    {
        let mut met = 0;
        for other in rows {
            if self.is_touched(matrix, *other, row) {
                self.meet(matrix, row, *other, number);
                met += 1;
            }
        }
        met
    }

    // Whether the walk has not met a row that is not 0 in a reached column.
    fn is_touched(&self, matrix: &Matrix, other: u32, row: u32) -> bool
        requires other { other < height matrix.now }
        requires room { HasPartRoom matrix.now self.now }
        ensures { IsTrue result
            ↔ IsTouched (support matrix.now) row (number_at self.now.part.items)
            (has_column self.now.reached.words) other }
    {
        self.is_left(other, row) && self.reached.meets_words(columns_of(matrix, other))
    }

    // Meets a row, and reaches its columns in which the removed row is 0.
    fn meet(&mut self, matrix: &Matrix, _row: u32, other: u32, number: u32)
        requires other { other < height matrix.now }
        requires room { IsWalkAt matrix.now _row self.old }
        ensures room { IsWalkAt matrix.now _row self.new }
        ensures part { self.new.part.items ≡ slice_set self.old.part.items other (Some number) }
        ensures reached { (column : ℕ)
            → has_column self.new.reached.words column
            ≡ (has_column self.old.reached.words column
            || (support matrix.now other column && not (support matrix.now _row column))) }
    {
        self.part[other as usize] = Some(number);
        self.reached
            .add_common_words(&self.zeros, columns_of(matrix, other));
    }
}
