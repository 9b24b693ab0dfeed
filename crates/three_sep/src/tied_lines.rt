// Other lines of connectors that each closed set with a corner has.
ghost use Rattle.std.specs.Prelude.{◌≡◌, ◌≢◌, ◌<◌, ℕ, pos, MatchOption};
ghost use Rattle.cmr_base.specs.Matrix.{height, entry};
ghost use Rattle.cmr_base.specs.Components.{IsLineOf};
ghost use Rattle.three_sep.specs.TiedLines.{IsTiedLine};

use crate::connectors::rule_at;
use crate::others::line_of;
use crate::sides::Sides;
use cmr_base::{Line, Matrix, Memory, Position, RowsAndColumns};
use cuts::Corners;
use line_growth::GrowthRule;

impl<'a> Sides<'a> {
    ghost use Rattle.std.specs.Prelude.{◌≡◌, ◌<◌, ℕ, pos, true, false, List, IfOk, OnOk};
    ghost use Rattle.cmr_base.specs.declared.line.Line.{Line};
    ghost use Rattle.cmr_base.specs.Components.{IsLineOf};
    ghost use Rattle.cmr_base.specs.Matrix.{height};
    ghost use Rattle.cuts.specs.LineCuts.{AreInside};
    ghost use Rattle.line_growth.specs.GrowingSets.{IsGrowing, KeepsGrowing};
    ghost use Rattle.line_growth.specs.Rules.{IsRuleOf, lower_of, upper_of};
    ghost use Rattle.three_sep.specs.KeptSides.{KeepsSide};
    ghost use Rattle.three_sep.specs.Searches.{other_line};
    ghost use Rattle.three_sep.specs.TiedLines.{AreRefused, Forces, ForcesAlong, ForcesTied};

    /// Decides whether a good seed may have these corners. Its first connector has a tied line of the first corner, and its second one a tied
    /// line of the second corner that is in side two. If one tied line of the first corner forces all tied lines of the second corner into
    /// side one, and each tied line of the first corner forces this one, there is no such seed.
    pub fn may_be_tied(&mut self, corners: &Corners) -> Result<bool, Memory>
        requires { AreInside self.old.matrix.now corners.now }
        ensures kept { KeepsSide self.old self.new }
        ensures refused { IfOk result (λ may. may ≡ false
            → AreRefused self.old.matrix.now corners.now) }
    {
        let Corners { one, two } = *corners;
        let rule = rule_at(corners);
        let Some(line) = tied_line(self.matrix, one, two) else {
            return Ok(false);
        };
        self.grown
            .start(&[line, Line::Row(one.row), Line::Column(one.column)])?;
        if !self.forces_tied(rule, two, one)? {
            return Ok(true);
        }
        self.grown.start(&[line])?;
        let forced = self.forces_tied(rule.exchanged(), one, two)?;
        Ok(!forced)
    }

    // Grows until all tied lines of a corner are inside, and decides whether they are.
    fn forces_tied(
        &mut self,
        rule: GrowthRule,
        own: Position,
        across: Position,
    ) -> Result<bool, Memory>
        requires rule { IsRuleOf self.old.matrix.now rule }
        requires own_row { own.row < height self.old.matrix.now }
        requires own_column { own.column < self.old.matrix.now.width }
        requires across_row { across.row < height self.old.matrix.now }
        requires across_column { across.column < self.old.matrix.now.width }
        ensures kept { KeepsSide self.old self.new }
        ensures forced { IfOk result (λ yes. yes ≡ true → (start : List Line)
            → IsGrowing self.old.matrix.now (upper_of self.old.matrix.now rule)
            (lower_of self.old.matrix.now rule) start self.old.grown
            → ForcesTied self.old.matrix.now rule start own across) }
    {
        let matrix = self.matrix;
        if !self.forces_along(rule, matrix.by_rows(), own.row, across.row, true)? {
            return Ok(false);
        }
        let columns = matrix.by_columns();
        let forced = self.forces_along(rule, columns, own.column, across.column, false)?;
        Ok(forced)
    }

    // The same for the columns of a matrix, or of its transposed matrix, that are 0 in one row and not in another.
    fn forces_along(
        &mut self,
        rule: GrowthRule,
        lines: &Matrix,
        own: u32,
        across: u32,
        flat: bool,
    ) -> Result<bool, Memory>
        requires rule { IsRuleOf self.old.matrix.now rule }
        requires own { own < height lines.now }
        requires across { across < height lines.now }
        requires lines { (c : ℕ) → c < lines.now.width
            → IsLineOf self.old.matrix.now (other_line flat c) }
        ensures kept { KeepsSide self.old self.new }
        ensures growing { OnOk result (KeepsGrowing self.old.matrix.now
            (upper_of self.old.matrix.now rule) (lower_of self.old.matrix.now rule) self.old.grown
            self.new.grown) }
        ensures forced { IfOk result (λ yes. yes ≡ true → (start : List Line)
            → IsGrowing self.old.matrix.now (upper_of self.old.matrix.now rule)
            (lower_of self.old.matrix.now rule) start self.old.grown
            → ForcesAlong self.old.matrix.now rule start lines.now own across flat
            lines.now.width) }
    {
        let mut from = 0;
        'tied: while let Some(other) = lines.next_nonzero(across, from) {
            if !self.forces_if_zero(rule, lines.entry(own, other), line_of(flat, other))? {
                return Ok(false);
            }
            from = other + 1;
        }
        Ok(true)
    }

    // The same for a line that crosses a line in an entry, if the entry is 0.
    fn forces_if_zero(&mut self, rule: GrowthRule, entry: i8, line: Line) -> Result<bool, Memory>
        requires rule { IsRuleOf self.old.matrix.now rule }
        requires line { IsLineOf self.old.matrix.now line }
        ensures kept { KeepsSide self.old self.new }
        ensures growing { OnOk result (KeepsGrowing self.old.matrix.now
            (upper_of self.old.matrix.now rule) (lower_of self.old.matrix.now rule) self.old.grown
            self.new.grown) }
        ensures forced { IfOk result (λ yes. yes ≡ true → entry ≡ pos 0 → (start : List Line)
            → IsGrowing self.old.matrix.now (upper_of self.old.matrix.now rule)
            (lower_of self.old.matrix.now rule) start self.old.grown
            → Forces self.old.matrix.now rule start line) }
    {
        if entry != 0 {
            return Ok(true);
        }
        let forced = self.forces(rule, line)?;
        Ok(forced)
    }

    // Grows until a line is inside, and decides whether it is.
    fn forces(&mut self, rule: GrowthRule, line: Line) -> Result<bool, Memory>
        requires rule { IsRuleOf self.old.matrix.now rule }
        requires line { IsLineOf self.old.matrix.now line }
        ensures kept { KeepsSide self.old self.new }
        ensures growing { OnOk result (KeepsGrowing self.old.matrix.now
            (upper_of self.old.matrix.now rule) (lower_of self.old.matrix.now rule) self.old.grown
            self.new.grown) }
        ensures forced { IfOk result (λ yes. yes ≡ true → (start : List Line)
            → IsGrowing self.old.matrix.now (upper_of self.old.matrix.now rule)
            (lower_of self.old.matrix.now rule) start self.old.grown
            → Forces self.old.matrix.now rule start line) }
    {
        if self.grown.has(line) {
            return Ok(true);
        }
        let closed = self.grown.close(self.matrix, rule, &[line], 0)?;
        Ok(!closed)
    }
}

// The first line that is tied to a corner, columns before rows.
fn tied_line(matrix: &RowsAndColumns<'_>, own: Position, across: Position) -> Option<Line>
    requires own_row { own.row < height matrix.now }
    requires own_column { own.column < matrix.now.width }
    requires across_row { across.row < height matrix.now }
    requires across_column { across.column < matrix.now.width }
    ensures { MatchOption result ((x : Line) → IsLineOf matrix.now x
        → ¬ (IsTiedLine (entry matrix.now) own across x))
        (λ line. IsLineOf matrix.now line) }
{
    if let Some(column) = tied_column(matrix.by_rows(), own.row, across.row) {
        return Some(Line::Column(column));
    }
    if let Some(row) = tied_column(matrix.by_columns(), own.column, across.column) {
        return Some(Line::Row(row));
    }
    None
}

// The first column that is 0 in a row and not in another.
fn tied_column(lines: &Matrix, own: u32, across: u32) -> Option<u32>
    requires own { own < height lines.now }
    requires across { across < height lines.now }
    ensures { MatchOption result ((c : ℕ) → c < lines.now.width
        → ¬ ((entry lines.now own c ≡ pos 0) × (entry lines.now across c ≢ pos 0)))
        (λ c. c < lines.now.width) }
{
    let mut from = 0;
    'others: while let Some(column) = lines.next_nonzero(across, from) {
        if lines.entry(own, column) == 0 {
            return Some(column);
        }
        from = column + 1;
    }
    None
}
