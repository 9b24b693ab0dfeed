// Tables of the parts that cut the common columns of other parts.
ghost use Rattle.std.specs.Prelude.{◌≡◌, ◌<◌, ◌≤◌, ℕ, length, IfOk, OnOk};
ghost use Rattle.cmr_base.specs.LineSets.{AllBelow};
ghost use Rattle.cmr_base.specs.Matrix.{height};
ghost use Rattle.cmr_base.specs.Trees.{support};
ghost use Rattle.cmr_base.specs.ColumnSets.{has_column, Denies};
ghost use Rattle.bridge_split.specs.Cutting.{AreCommonColumns, AreUncutIn, HasCutsOfParts, IsCutTable, AreColumnsOfRow, rows_at_part};
ghost use Rattle.bridge_split.specs.Forests.{IsSquare, joins};

use cmr_base::{BitSet, Indices, Matrix, Memory, columns_of};
use std::alloc::Global;

/// For each two parts, whether a row of the second part cuts the columns that `row` has in common with the first part.
#[derive(Drop)]
pub struct CutTable {
    count: usize,
    cuts: Vec<bool>,
}

impl CutTable {
    /// The table of the parts at a row.
    pub fn new(
        alloc: Global,
        matrix: &Matrix,
        row: u32,
        parts: &[Indices],
    ) -> Result<CutTable, Memory>
        requires row { row < height matrix.now }
        requires few { length parts.now ≤ height matrix.now }
        requires rows { (a : ℕ) → a < length parts.now
            → AllBelow (height matrix.now) (rows_at_part parts.now a) }
        ensures square { IfOk result IsSquare }
        ensures count { IfOk result (λ table. table.count ≡ length parts.now) }
        ensures cuts { IfOk result (λ table.
            IsCutTable (support matrix.now) row parts.now (length parts.now) table.cuts.items) }
    {
        prove!(parts.len() <= matrix.rows() as usize);
        let mut cuts = Vec::with_capacity(alloc, parts.len() * parts.len())?;
        let mut own = BitSet::new(alloc, matrix.columns())?;
        own.add_words(columns_of(matrix, row));
        let mut common = BitSet::new(alloc, matrix.columns())?;
        for part in parts {
            set_common(matrix, row, &own, part, &mut common);
            push_cuts(matrix, parts, &common, &mut cuts)?;
        }
        Ok(CutTable {
            count: parts.len(),
            cuts,
        })
    }

    /// The number of parts.
    pub fn len(&self) -> usize
        ensures { result ≡ self.now.count }
    {
        self.count
    }

    /// Whether two parts disagree: each has a row that cuts the common columns of the other.
    pub fn disagree(&self, one: usize, two: usize) -> bool
        requires square { IsSquare self.now }
        requires one { one < self.now.count }
        requires two { two < self.now.count }
        ensures { result ≡ joins self.now one two }
    {
        self.cuts[one * self.count + two] && self.cuts[two * self.count + one]
    }
}

// Sets the columns that `row` has in common with at least one row of the part. `own` contains the columns of `row`. The loop ends
// early if it has found them all.
fn set_common(matrix: &Matrix, _row: u32, own: &BitSet, part: &Indices, common: &mut BitSet)
    requires rows { AllBelow (height matrix.now) part.now }
    requires own { AreColumnsOfRow matrix.now _row own.now }
    requires size { common.old.size ≡ matrix.now.width }
    ensures size { common.new.size ≡ matrix.now.width }
    ensures common { AreCommonColumns (support matrix.now) _row part.now
        (has_column common.new.words) }
{
    common.clear();
    for other in part.as_slice() {
        let columns = columns_of(matrix, *other);
        if own.meets_words(columns) {
            common.add_common_words(own, columns);
            if own.is_within(common) {
                return;
            }
        }
    }
}

fn push_cuts(
    matrix: &Matrix,
    parts: &[Indices],
    columns: &BitSet,
    cuts: &mut Vec<bool>,
) -> Result<(), Memory>
    requires rows { (a : ℕ) → a < length parts.now
        → AllBelow (height matrix.now) (rows_at_part parts.now a) }
    requires size { columns.now.size ≡ matrix.now.width }
    ensures { OnOk result (HasCutsOfParts (support matrix.now) (has_column columns.now.words)
        parts.now (length parts.now) cuts.old.items cuts.new.items) }
{
    for part in parts {
        cuts.push(part_cuts(matrix, part.as_slice(), columns))?;
    }
    Ok(())
}

/// Whether some row of the part is 0 in one of the columns and not in another.
pub fn part_cuts(matrix: &Matrix, part: &[u32], columns: &BitSet) -> bool
    requires rows { AllBelow (height matrix.now) part.now }
    requires size { columns.now.size ≡ matrix.now.width }
    ensures { Denies result
        (AreUncutIn (support matrix.now) (has_column columns.now.words) part.now) }
{
    for row in part {
        if columns.is_cut_by_words(columns_of(matrix, *row)) {
            return true;
        }
    }
    false
}
