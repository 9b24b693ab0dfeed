// A set of rows and columns as a type.
ghost use Rattle.std.specs.Prelude.{◌≡◌, ◌≤◌, ◌⊎◌, ◌↔◌, not, true, false, IfOk, IsTrue};
ghost use Rattle.cmr_base.specs.LineMasks.{as_set, AreAlike, IsMask};
ghost use Rattle.cmr_base.specs.LineSets.{AllBelow};
ghost use Rattle.cmr_base.specs.Seeds.{IsLine, count_inside, count_outside};
ghost use Rattle.cmr_base.specs.Separations.{listed};
ghost use Rattle.cmr_base.specs.declared.line.Line.{Line};

use crate::bit_set::BitSet;
use crate::{Line, LineSet, MAX_COLUMNS, MAX_ROWS, Memory};
use std::alloc::Global;

/// A set of rows and columns, as bits.
#[derive(Debug, Drop)]
pub struct LineMask {
    pub rows: BitSet,
    pub columns: BitSet,
}

impl LineMask {
    /// The empty set, with room for these numbers of rows and columns.
    pub fn new(alloc: Global, rows: u32, columns: u32) -> Result<LineMask, Memory>
        requires rows { rows ≤ MAX_ROWS }
        requires columns { columns ≤ MAX_COLUMNS }
        ensures size { IfOk result (IsMask rows columns) }
        ensures none { IfOk result (λ mask. (x : Line) → as_set mask x ≡ false) }
    {
        Ok(LineMask {
            rows: BitSet::new(alloc, rows)?,
            columns: BitSet::new(alloc, columns)?,
        })
    }

    /// The set of these lines.
    pub fn of(alloc: Global, rows: u32, columns: u32, lines: &LineSet) -> Result<LineMask, Memory>
        requires rows { rows ≤ MAX_ROWS }
        requires columns { columns ≤ MAX_COLUMNS }
        requires rows_in { AllBelow rows lines.now.rows }
        requires columns_in { AllBelow columns lines.now.columns }
        ensures size { IfOk result (IsMask rows columns) }
        ensures lines { IfOk result (λ mask. (x : Line)
            → as_set mask x ≡ listed lines.now.rows lines.now.columns x) }
    {
        Ok(LineMask {
            rows: BitSet::of(alloc, rows, lines.rows.as_slice())?,
            columns: BitSet::of(alloc, columns, lines.columns.as_slice())?,
        })
    }

    /// A copy of the set.
    pub fn copied(&self, alloc: Global) -> Result<LineMask, Memory>
        ensures { IfOk result (λ mask. mask ≡ self.now) }
    {
        Ok(LineMask {
            rows: self.rows.copied(alloc)?,
            columns: self.columns.copied(alloc)?,
        })
    }

    /// The lines that are not in the set.
    pub fn others(&self, alloc: Global) -> Result<LineMask, Memory>
        ensures size { IfOk result (AreAlike self.now) }
        ensures lines { IfOk result (λ rest. (x : Line)
            → IsLine self.now.rows.size self.now.columns.size x
            → as_set rest x ≡ not (as_set self.now x)) }
    {
        Ok(LineMask {
            rows: self.rows.others(alloc)?,
            columns: self.columns.others(alloc)?,
        })
    }

    /// Whether a line is in the set.
    pub fn has(&self, line: Line) -> bool
        requires { IsLine self.now.rows.size self.now.columns.size line }
        ensures { result ≡ as_set self.now line }
    {
        match line {
            Line::Row(row) => self.rows.has(row),
            Line::Column(column) => self.columns.has(column),
        }
    }

    /// Adds a line.
    pub fn insert(&mut self, line: Line)
        requires { IsLine self.old.rows.size self.old.columns.size line }
        ensures size { AreAlike self.old self.new }
        ensures only { (x : Line) → as_set self.new x ≡ true
            → (as_set self.old x ≡ true) ⊎ (x ≡ line) }
        ensures here { as_set self.new line ≡ true }
        ensures kept { (x : Line) → as_set self.old x ≡ true → as_set self.new x ≡ true }
    {
        match line {
            Line::Row(row) => self.rows.insert(row),
            Line::Column(column) => self.columns.insert(column),
        }
    }

    /// Whether the set is empty.
    pub fn is_empty(&self) -> bool
        ensures { IsTrue result ↔ ((x : Line) → as_set self.now x ≡ false) }
    {
        self.rows.is_empty() && self.columns.is_empty()
    }

    /// Whether some line is in both sets.
    pub fn meets(&self, other: &LineMask) -> bool
        requires { AreAlike self.now other.now }
        ensures { IsTrue result
            ↔ ((x : Line) × (as_set self.now x ≡ true) × (as_set other.now x ≡ true)) }
    {
        self.rows.meets(&other.rows) || self.columns.meets(&other.columns)
    }

    /// The number of lines in the set.
    pub fn count(&self) -> u32
        ensures count { result ≡ count_inside self.now.rows.size self.now.columns.size
            (as_set self.now) }
    {
        self.rows.count() + self.columns.count()
    }

    /// The number of lines that are not in the set.
    pub fn count_others(&self) -> u32
        ensures count { result ≡ count_outside self.now.rows.size self.now.columns.size
            (as_set self.now) }
    {
        self.rows.count_others() + self.columns.count_others()
    }
}
