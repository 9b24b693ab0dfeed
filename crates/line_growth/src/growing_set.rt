// Sets of lines that grow until they are closed.
ghost use Rattle.std.specs.Prelude.{◌≡◌, ◌<◌, ◌+◌, ◌∷◌, ◌↔◌, [], filter, ℕ, ℤ, List, length, true, false, IsTrue, IfOk, OnOk};
ghost use Rattle.std.specs.List.{AllByRecursion};
ghost use Rattle.cmr_base.specs.LineSets.{first_lines};
ghost use Rattle.cmr_base.specs.Matrix.{Matrix, height, entry};
ghost use Rattle.cmr_base.specs.Seeds.{IsLine, line_number, count_outside};
ghost use Rattle.cmr_base.specs.declared.line.Line.{Line};
ghost use Rattle.cmr_base.specs.declared.line.Line.TheVariants.{Row, Column};
ghost use Rattle.line_growth.specs.Rules.{IsRuleOf, lower_of, upper_of};
ghost use Rattle.line_growth.specs.GrowingLines.{count_left};
ghost use Rattle.line_growth.specs.GrowingSets.{DecidesLeaving, HasNone, HasSameSizes, HasSwept, HasSweptColumns, HasSweptRows, IsGrowing, HasRoomFor, IsSizedFor, KeepsGrowing, Leaves, PullsColumn, PullsRow, set_of, work};

use crate::growing_lines::GrowingLines;
use crate::rule::{Block, GrowthRule};
use cmr_base::{BitSet, Line, LineSet, Memory, RowsAndColumns};
use std::alloc::Global;

/// A growing set of lines of a matrix. It begins with given lines and grows by a rule: the set adds each line outside that
/// breaks the rule with a line inside.
#[derive(Drop)]
pub struct GrowingSet {
    rows: GrowingLines,
    columns: GrowingLines,
}

impl GrowingSet {
    /// The empty set of the lines of a matrix.
    pub fn new(alloc: Global, matrix: &RowsAndColumns<'_>) -> Result<GrowingSet, Memory>
        ensures size { IfOk result (IsSizedFor matrix.now) }
        ensures none { IfOk result (λ set. (x : Line) → set_of set x ≡ false) }
    {
        Ok(GrowingSet {
            rows: GrowingLines::new(alloc, matrix.rows())?,
            columns: GrowingLines::new(alloc, matrix.columns())?,
        })
    }

    // Removes all lines.
    fn clear(&mut self)
        ensures size { HasSameSizes self.old self.new }
        ensures growing { (m : Matrix) (upper lower : ℕ → ℕ → ℤ)
            → IsGrowing m upper lower [] self.new }
    {
        self.rows.clear();
        self.columns.clear();
    }

    /// Begins with these lines.
    pub fn start(&mut self, lines: &[Line]) -> Result<(), Memory>
        requires { AllByRecursion (HasRoomFor self.old) lines.now }
        ensures size { HasSameSizes self.old self.new }
        ensures growing { OnOk result ((m : Matrix) (upper lower : ℕ → ℕ → ℤ)
            → IsGrowing m upper lower lines.now self.new) }
    {
        self.clear();
        let mut from = lines.len();
        'lines: while from > 0 {
            from -= 1;
            self.add(lines[from])?;
        }
        Ok(())
    }

    /// Adds a line.
    pub fn add(&mut self, line: Line) -> Result<(), Memory>
        requires { HasRoomFor self.old line }
        ensures size { HasSameSizes self.old self.new }
        ensures growing { OnOk result ((m : Matrix) (upper lower : ℕ → ℕ → ℤ) (start : List Line)
            → IsGrowing m upper lower start self.old
            → IsGrowing m upper lower (line ∷ start) self.new) }
    {
        match line {
            Line::Row(row) => {
                self.rows.add(row)?;
                Ok(())
            }
            Line::Column(column) => {
                self.columns.add(column)?;
                Ok(())
            }
        }
    }

    /// Becomes equal to `other`, which has room for the same lines.
    pub fn copy(&mut self, other: &GrowingSet) -> Result<(), Memory>
        requires { HasSameSizes self.old other.now }
        ensures size { HasSameSizes self.old self.new }
        ensures same { OnOk result (self.new ≡ other.now) }
    {
        self.rows.copy(&other.rows)?;
        self.columns.copy(&other.columns)?;
        Ok(())
    }

    // Adds each row outside that breaks the rule with a column inside, and then each column outside that breaks the rule with a
    // row inside. Then the pulls of only the new columns are to be followed.
    fn sweep(&mut self, matrix: &RowsAndColumns<'_>, rule: GrowthRule) -> Result<(), Memory>
        requires size { IsSizedFor matrix.now self.old }
        requires rule { IsRuleOf matrix.now rule }
        ensures size { HasSameSizes self.old self.new }
        ensures growing { OnOk result (KeepsGrowing matrix.now (upper_of matrix.now rule)
            (lower_of matrix.now rule) self.old self.new) }
        ensures swept { OnOk result (HasSwept matrix.now (upper_of matrix.now rule)
            (lower_of matrix.now rule) self.old self.new) }
    {
        self.columns.forget_waiting();
        self.sweep_rows(matrix, rule)?;
        self.sweep_columns(matrix, rule)?;
        self.rows.forget_waiting();
        Ok(())
    }

    // Adds each row outside that breaks the rule with a column inside.
    fn sweep_rows(&mut self, matrix: &RowsAndColumns<'_>, rule: GrowthRule) -> Result<(), Memory>
        requires size { IsSizedFor matrix.now self.old }
        requires rule { IsRuleOf matrix.now rule }
        ensures size { HasSameSizes self.old self.new }
        ensures swept { OnOk result (HasSweptRows matrix.now (lower_of matrix.now rule)
            (height matrix.now) self.old self.new) }
    {
        let _rows = matrix.rows();
        let mut from = 0;
        while let Some(row) = self.rows.next_outside(from) {
            if self.pulls_row(matrix, rule, row) {
                self.rows.add(row)?;
            }
            from = row + 1;
        }
        Ok(())
    }

    // Adds each column outside that breaks the rule with a row inside.
    fn sweep_columns(&mut self, matrix: &RowsAndColumns<'_>, rule: GrowthRule) -> Result<(), Memory>
        requires size { IsSizedFor matrix.now self.old }
        requires rule { IsRuleOf matrix.now rule }
        ensures size { HasSameSizes self.old self.new }
        ensures swept { OnOk result (HasSweptColumns matrix.now (upper_of matrix.now rule)
            matrix.now.width self.old self.new) }
    {
        let _columns = matrix.columns();
        let mut from = 0;
        while let Some(column) = self.columns.next_outside(from) {
            if self.pulls_column(matrix, rule, column) {
                self.columns.add(column)?;
            }
            from = column + 1;
        }
        Ok(())
    }

    // Whether a row breaks the rule with a column inside.
    fn pulls_row(&self, matrix: &RowsAndColumns<'_>, rule: GrowthRule, row: u32) -> bool
        requires size { IsSizedFor matrix.now self.now }
        requires rule { IsRuleOf matrix.now rule }
        requires row { row < height matrix.now }
        ensures yes { result ≡ true
            → PullsRow matrix.now (lower_of matrix.now rule) self.now row }
        ensures no { result ≡ false → (column : ℕ)
            → set_of self.now (Column column) ≡ true
            → entry matrix.now row column ≡ lower_of matrix.now rule row column }
    {
        let sum = rule.lower.row(matrix, row);
        self.columns.has_unlike(matrix.by_rows(), row, sum)
    }

    // Whether a column breaks the rule with a row inside.
    fn pulls_column(&self, matrix: &RowsAndColumns<'_>, rule: GrowthRule, column: u32) -> bool
        requires size { IsSizedFor matrix.now self.now }
        requires rule { IsRuleOf matrix.now rule }
        requires column { column < matrix.now.width }
        ensures yes { result ≡ true
            → PullsColumn matrix.now (upper_of matrix.now rule) self.now column }
        ensures no { result ≡ false → (row : ℕ)
            → set_of self.now (Row row) ≡ true
            → entry matrix.now row column ≡ upper_of matrix.now rule row column }
    {
        let sum = rule.upper.column(matrix, column);
        self.rows.has_unlike(matrix.by_columns(), column, sum)
    }

    /// Grows by the rule and returns whether the set is closed. It stops earlier and returns `false` if it contains a line of
    /// `out`, or if fewer than `least` lines are outside.
    pub fn close(
        &mut self,
        matrix: &RowsAndColumns<'_>,
        rule: GrowthRule,
        out: &[Line],
        least: u32,
    ) -> Result<bool, Memory>
        requires size { IsSizedFor matrix.now self.old }
        requires rule { IsRuleOf matrix.now rule }
        requires out { AllByRecursion (IsLine (height matrix.now) matrix.now.width) out.now }
        ensures size { HasSameSizes self.old self.new }
        ensures growing { OnOk result (KeepsGrowing matrix.now (upper_of matrix.now rule)
            (lower_of matrix.now rule) self.old self.new) }
        ensures closed { IfOk result (λ closed. (start : List Line)
            → IsGrowing matrix.now (upper_of matrix.now rule) (lower_of matrix.now rule) start
            self.old
            → DecidesLeaving matrix.now rule start out.now least closed (set_of self.new)) }
        ensures shown { IfOk result (λ closed. closed ≡ false
            → ¬ (Leaves matrix.now out.now least (set_of self.new))) }
    {
        'lines: while self.left() >= least {
            if !self.has_none(out) {
                return Ok(false);
            }
            if self.rows.waiting() == 0 && self.columns.waiting() == 0 {
                return Ok(true);
            }
            self.take_pulls(matrix, rule)?;
        }
        Ok(false)
    }

    /// The number of lines outside.
    pub fn left(&self) -> u32
        ensures { result ≡ count_outside self.now.rows.inside.size self.now.columns.inside.size
            (set_of self.now) }
    {
        self.rows.left() + self.columns.left()
    }

    /// Whether a line is in the set.
    pub fn has(&self, line: Line) -> bool
        requires { HasRoomFor self.now line }
        ensures { result ≡ set_of self.now line }
    {
        match line {
            Line::Row(row) => self.rows.inside().has(row),
            Line::Column(column) => self.columns.inside().has(column),
        }
    }

    // Whether the set has none of these lines.
    fn has_none(&self, lines: &[Line]) -> bool
        requires { AllByRecursion (HasRoomFor self.now) lines.now }
        ensures { IsTrue result ↔ HasNone (set_of self.now) lines.now }
    {
        for line in lines {
            if self.has(*line) {
                return false;
            }
        }
        true
    }

    // Follows the pulls of one waiting line. If more lines wait than are outside, it is faster to compare each line outside with
    // the lines inside, so the set then sweeps.
    fn take_pulls(&mut self, matrix: &RowsAndColumns<'_>, rule: GrowthRule) -> Result<(), Memory>
        requires size { IsSizedFor matrix.now self.old }
        requires rule { IsRuleOf matrix.now rule }
        requires waits { 0
            < length self.old.rows.fresh + length self.old.columns.fresh }
        ensures size { HasSameSizes self.old self.new }
        ensures growing { OnOk result (KeepsGrowing matrix.now (upper_of matrix.now rule)
            (lower_of matrix.now rule) self.old self.new) }
        ensures less { OnOk result (work self.new < work self.old) }
    {
        if self.has_more_waiting() {
            self.sweep(matrix, rule)
        } else {
            self.follow(matrix, rule)
        }
    }

    // Whether more lines wait than are outside.
    fn has_more_waiting(&self) -> bool
        ensures { IsTrue result
            ↔ (count_left self.now.rows + count_left self.now.columns
            < length self.now.rows.fresh + length self.now.columns.fresh) }
    {
        let left = (self.rows.left() + self.columns.left()) as usize;
        let rows = self.rows.waiting();
        left < rows || left - rows < self.columns.waiting()
    }

    // Follows the pulls of one waiting line.
    fn follow(&mut self, matrix: &RowsAndColumns<'_>, rule: GrowthRule) -> Result<(), Memory>
        requires size { IsSizedFor matrix.now self.old }
        requires rule { IsRuleOf matrix.now rule }
        requires waits { 0
            < length self.old.rows.fresh + length self.old.columns.fresh }
        ensures size { HasSameSizes self.old self.new }
        ensures growing { OnOk result (KeepsGrowing matrix.now (upper_of matrix.now rule)
            (lower_of matrix.now rule) self.old self.new) }
        ensures less { OnOk result (work self.new < work self.old) }
    {
        if self.rows_first() {
            self.follow_row(matrix, rule)
        } else {
            self.follow_column(matrix, rule)
        }
    }

    // Whether to follow a row next, that is if fewer rows are outside than columns.
    fn rows_first(&self) -> bool
        requires { 0 < length self.now.rows.fresh + length self.now.columns.fresh }
        ensures row { result ≡ true → 0 < length self.now.rows.fresh }
        ensures column { result ≡ false → 0 < length self.now.columns.fresh }
    {
        if self.columns.waiting() == 0 {
            return true;
        }
        if self.rows.waiting() == 0 {
            return false;
        }
        self.rows.left() < self.columns.left()
    }

    fn follow_row(&mut self, matrix: &RowsAndColumns<'_>, rule: GrowthRule) -> Result<(), Memory>
        requires size { IsSizedFor matrix.now self.old }
        requires rule { IsRuleOf matrix.now rule }
        requires waits { 0 < length self.old.rows.fresh }
        ensures size { HasSameSizes self.old self.new }
        ensures growing { OnOk result (KeepsGrowing matrix.now (upper_of matrix.now rule)
            (lower_of matrix.now rule) self.old self.new) }
        ensures less { OnOk result (work self.new < work self.old) }
    {
        if let Some(row) = self.rows.next() {
            let sum = rule.upper.row(matrix, row);
            self.columns.pull(matrix.by_rows(), row, sum)?;
        }
        Ok(())
    }

    fn follow_column(&mut self, matrix: &RowsAndColumns<'_>, rule: GrowthRule) -> Result<(), Memory>
        requires size { IsSizedFor matrix.now self.old }
        requires rule { IsRuleOf matrix.now rule }
        requires waits { 0 < length self.old.columns.fresh }
        ensures size { HasSameSizes self.old self.new }
        ensures growing { OnOk result (KeepsGrowing matrix.now (upper_of matrix.now rule)
            (lower_of matrix.now rule) self.old self.new) }
        ensures less { OnOk result (work self.new < work self.old) }
    {
        if let Some(column) = self.columns.next() {
            let sum = rule.lower.column(matrix, column);
            self.rows.pull(matrix.by_columns(), column, sum)?;
        }
        Ok(())
    }

    /// The rows of the set.
    pub fn rows(&self) -> &BitSet
        ensures { result.now ≡ self.now.rows.inside }
    {
        self.rows.inside()
    }

    /// The columns of the set.
    pub fn columns(&self) -> &BitSet
        ensures { result.now ≡ self.now.columns.inside }
    {
        self.columns.inside()
    }

    /// The lines of the set, as lists.
    pub fn line_set(&self, alloc: Global) -> Result<LineSet, Memory>
        ensures rows { IfOk result (λ lines. lines.rows
            ≡ filter (λ row. set_of self.now (Row row))
            (first_lines self.now.rows.inside.size)) }
        ensures columns { IfOk result (λ lines. lines.columns
            ≡ filter (λ column. set_of self.now (Column column))
            (first_lines self.now.columns.inside.size)) }
    {
        Ok(LineSet {
            rows: self.rows().listed(alloc)?,
            columns: self.columns().listed(alloc)?,
        })
    }
}

/// The line with a number. Rows have the first numbers.
pub fn line_at(matrix: &RowsAndColumns<'_>, place: u32) -> Line
    requires { place < height matrix.now + matrix.now.width }
    ensures line { IsLine (height matrix.now) matrix.now.width result }
    ensures number { line_number (height matrix.now) result ≡ place }
{
    if place < matrix.rows() {
        Line::Row(place)
    } else {
        Line::Column(place - matrix.rows())
    }
}
