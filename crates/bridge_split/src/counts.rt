// The columns with three nonzeros or more in some rows.
ghost use Rattle.std.specs.Prelude.{◌≡◌, ◌<◌, ◌≤◌, ◌&&◌, ◌||◌, true, false, ℕ, IfOk, MatchOption};
ghost use Rattle.cmr_base.specs.BitSets.{AreWordsOf, IsNextOf};
ghost use Rattle.cmr_base.specs.LineSets.{AllBelow};
ghost use Rattle.cmr_base.specs.Matrix.{height};
ghost use Rattle.cmr_base.specs.ColumnSets.{has_column};

use cmr_base::{BitSet, MAX_COLUMNS, Matrix, Memory, columns_of};
use std::alloc::Global;

/// The columns with at least one nonzero in given rows, with at least two, and with at least three.
#[derive(Drop)]
pub struct Counts {
    once: BitSet,
    twice: BitSet,
    thrice: BitSet,
    ghost twice_size: { twice.size ≡ once.size },
    ghost thrice_size: { thrice.size ≡ once.size },
}

impl Counts {
    ghost use Rattle.bridge_split.specs.Counting.{AreCounts};

    // The counts over no rows.
    fn new(alloc: Global, columns: u32) -> Result<Counts, Memory>
        requires { columns ≤ MAX_COLUMNS }
        ensures size { IfOk result (λ counts. counts.once.size ≡ columns) }
        ensures once { IfOk result (λ counts. (column : ℕ)
            → has_column counts.once.words column ≡ false) }
        ensures twice { IfOk result (λ counts. (column : ℕ)
            → has_column counts.twice.words column ≡ false) }
        ensures thrice { IfOk result (λ counts. (column : ℕ)
            → has_column counts.thrice.words column ≡ false) }
    {
        Ok(Counts {
            once: BitSet::new(alloc, columns)?,
            twice: BitSet::new(alloc, columns)?,
            thrice: BitSet::new(alloc, columns)?,
        })
    }

    /// The counts over these rows.
    pub fn of(alloc: Global, matrix: &Matrix, rows: &[u32]) -> Result<Counts, Memory>
        requires { AllBelow (height matrix.now) rows.now }
        ensures { IfOk result (AreCounts matrix.now rows.now) }
    {
        let mut counts = Counts::new(alloc, matrix.columns())?;
        for row in rows {
            counts.add(columns_of(matrix, *row));
        }
        Ok(counts)
    }

    // Counts another row.
    fn add(&mut self, row: &[u64])
        requires { AreWordsOf self.old.once.size row.now }
        ensures size { self.new.once.size ≡ self.old.once.size }
        ensures once { (column : ℕ)
            → has_column self.new.once.words column
            ≡ (has_column self.old.once.words column || has_column row.now column) }
        ensures twice { (column : ℕ)
            → has_column self.new.twice.words column
            ≡ (has_column self.old.twice.words column
            || (has_column self.old.once.words column && has_column row.now column)) }
        ensures thrice { (column : ℕ)
            → has_column self.new.thrice.words column
            ≡ (has_column self.old.thrice.words column
            || (has_column self.old.twice.words column && has_column row.now column)) }
    {
        self.thrice.add_common_words(&self.twice, row);
        self.twice.add_common_words(&self.once, row);
        self.once.add_words(row);
    }

    /// The first column with three nonzeros or more.
    pub fn first_from_three(&self) -> Option<u32>
        ensures { MatchOption result
            ((column : ℕ) → has_column self.now.thrice.words column ≡ false)
            (λ first. (has_column self.now.thrice.words first ≡ true)
            × ((column : ℕ) → column < first → has_column self.now.thrice.words column ≡ false)) }
    {
        self.thrice.next(0)
    }
}
