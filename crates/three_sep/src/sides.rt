// Sides that grow from the lines of one connector and leave the lines of another.
ghost use Rattle.line_growth.specs.GrowingSets.{IsSizedFor};

use crate::connectors::Connectors;
use crate::others::is_beside;
use cmr_base::{Form, Line, LineSet, Memory, RowsAndColumns, Three};
use cuts::LEAST_SIDE;
use line_growth::{GrowingSet, GrowthRule, line_at};
use std::alloc::Global;

/// The number of rows that `may_part` tries.
const TRIES: u32 = 3;

/// A matrix, a side that has grown from the lines of a connector, and a side that grows in tests.
#[derive(Drop)]
pub struct Sides<'a> {
    pub matrix: &'a RowsAndColumns<'a>,
    pub side: GrowingSet,
    pub grown: GrowingSet,
    ghost side_fits: { IsSizedFor matrix.now side },
    ghost grown_fits: { IsSizedFor matrix.now grown },
}

impl<'a> Sides<'a> {
    ghost use Rattle.std.specs.Prelude.{◌≡◌, ◌∷◌, true, false, List, IfOk, OnOk};
    ghost use Rattle.std.specs.List.{AllByRecursion};
    ghost use Rattle.cmr_base.specs.declared.line.Line.{Line};
    ghost use Rattle.cmr_base.specs.Components.{IsLineOf};
    ghost use Rattle.cmr_base.specs.Matrix.{height};
    ghost use Rattle.line_growth.specs.GrowingSets.{DecidesLeaving, IsGrowing, set_of};
    ghost use Rattle.line_growth.specs.Rules.{IsRuleOf, lower_of, upper_of};
    ghost use Rattle.three_sep.specs.Connectors.{AreConnectorsOf, HasNoneParting, all_prefix, firsts};
    ghost use Rattle.three_sep.specs.KeptSides.{KeepsSide};
    ghost use Rattle.three_sep.specs.NumberedSeeds.{HasLines};
    ghost use Rattle.three_sep.specs.Searches.{IsFoundSeparation};

    /// Empty sides of a matrix.
    pub fn new(alloc: Global, matrix: &'a RowsAndColumns<'a>) -> Result<Sides<'a>, Memory>
        ensures { IfOk result (λ sides. sides.matrix.now ≡ matrix.entry.now) }
    {
        let side = GrowingSet::new(alloc, matrix)?;
        let grown = GrowingSet::new(alloc, matrix)?;
        Ok(Sides {
            matrix,
            side,
            grown,
        })
    }

    /// Makes the side equal to the closure of the first lines, and decides whether it has no second line and leaves enough lines for a side.
    pub fn hold(
        &mut self,
        rule: GrowthRule,
        first: &[Line],
        second: &[Line],
    ) -> Result<bool, Memory>
        requires rule { IsRuleOf self.old.matrix.now rule }
        requires first { AllByRecursion (IsLineOf self.old.matrix.now) first.now }
        requires second { AllByRecursion (IsLineOf self.old.matrix.now) second.now }
        ensures matrix { self.new.matrix.now ≡ self.old.matrix.now }
        ensures growing { OnOk result (IsGrowing self.old.matrix.now
            (upper_of self.old.matrix.now rule) (lower_of self.old.matrix.now rule) first.now
            self.new.side) }
        ensures decided { IfOk result (λ yes. DecidesLeaving self.old.matrix.now rule first.now
            second.now LEAST_SIDE yes (set_of self.new.side)) }
    {
        self.side.start(first)?;
        let yes = self.side.close(self.matrix, rule, second, LEAST_SIDE)?;
        Ok(yes)
    }

    /// Decides whether the closure of the first lines has no second line and leaves enough lines for a side.
    pub fn leaves(
        &mut self,
        rule: GrowthRule,
        first: &[Line],
        second: &[Line],
    ) -> Result<bool, Memory>
        requires rule { IsRuleOf self.old.matrix.now rule }
        requires first { AllByRecursion (IsLineOf self.old.matrix.now) first.now }
        requires second { AllByRecursion (IsLineOf self.old.matrix.now) second.now }
        ensures kept { KeepsSide self.old self.new }
        ensures decided { IfOk result (λ yes. DecidesLeaving self.old.matrix.now rule first.now
            second.now LEAST_SIDE yes (set_of self.new.grown)) }
    {
        self.grown.start(first)?;
        let yes = self.grown.close(self.matrix, rule, second, LEAST_SIDE)?;
        Ok(yes)
    }

    // Decides the same for the first lines with one more line.
    fn leaves_with(
        &mut self,
        rule: GrowthRule,
        first: &[Line],
        second: &[Line],
        line: Line,
    ) -> Result<bool, Memory>
        requires rule { IsRuleOf self.old.matrix.now rule }
        requires first { AllByRecursion (IsLineOf self.old.matrix.now) first.now }
        requires second { AllByRecursion (IsLineOf self.old.matrix.now) second.now }
        requires line { IsLineOf self.old.matrix.now line }
        ensures kept { KeepsSide self.old self.new }
        ensures decided { IfOk result (λ yes. DecidesLeaving self.old.matrix.now rule
            (line ∷ first.now) second.now LEAST_SIDE yes (set_of self.new.grown)) }
    {
        self.grown.start(first)?;
        self.grown.add(line)?;
        let yes = self.grown.close(self.matrix, rule, second, LEAST_SIDE)?;
        Ok(yes)
    }

    /// Decides the same for the side with one more line.
    pub fn leaves_beside(
        &mut self,
        rule: GrowthRule,
        second: &[Line],
        line: Line,
    ) -> Result<bool, Memory>
        requires rule { IsRuleOf self.old.matrix.now rule }
        requires second { AllByRecursion (IsLineOf self.old.matrix.now) second.now }
        requires line { IsLineOf self.old.matrix.now line }
        ensures kept { KeepsSide self.old self.new }
        ensures decided { IfOk result (λ yes. (first : List Line)
            → IsGrowing self.old.matrix.now (upper_of self.old.matrix.now rule)
            (lower_of self.old.matrix.now rule) first self.old.side
            → DecidesLeaving self.old.matrix.now rule (line ∷ first) second.now LEAST_SIDE yes
            (set_of self.new.grown)) }
    {
        self.grown.copy(&self.side)?;
        self.grown.add(line)?;
        let yes = self.grown.close(self.matrix, rule, second, LEAST_SIDE)?;
        Ok(yes)
    }

    /// Decides whether a separation may have the first lines in side one and the second lines in side two. It tries some other rows: if one
    /// of them can be on neither side, there is no such separation.
    pub fn may_part(
        &mut self,
        rule: GrowthRule,
        first: &[Line],
        second: &[Line],
    ) -> Result<bool, Memory>
        requires rule { IsRuleOf self.old.matrix.now rule }
        requires first { AllByRecursion (IsLineOf self.old.matrix.now) first.now }
        requires second { AllByRecursion (IsLineOf self.old.matrix.now) second.now }
        ensures kept { KeepsSide self.old self.new }
        ensures none { IfOk result (λ may. may ≡ false
            → HasNoneParting self.old.matrix.now rule first.now second.now) }
    {
        let matrix = self.matrix;
        let mut tries = TRIES;
        for row in 0..matrix.rows() {
            if tries == 0 {
                return Ok(true);
            }
            if !has_row(first, row) && !has_row(second, row) {
                if self.is_refused(rule, first, second, Line::Row(row))? {
                    return Ok(false);
                }
                tries -= 1;
            }
        }
        Ok(true)
    }

    // Decides whether a line can be on neither side.
    fn is_refused(
        &mut self,
        rule: GrowthRule,
        first: &[Line],
        second: &[Line],
        line: Line,
    ) -> Result<bool, Memory>
        requires rule { IsRuleOf self.old.matrix.now rule }
        requires first { AllByRecursion (IsLineOf self.old.matrix.now) first.now }
        requires second { AllByRecursion (IsLineOf self.old.matrix.now) second.now }
        requires line { IsLineOf self.old.matrix.now line }
        ensures kept { KeepsSide self.old self.new }
        ensures none { IfOk result (λ refused. refused ≡ true
            → HasNoneParting self.old.matrix.now rule first.now second.now) }
    {
        if self.leaves_with(rule, first, second, line)? {
            return Ok(false);
        }
        if self.leaves_with(rule.exchanged(), second, first, line)? {
            return Ok(false);
        }
        Ok(true)
    }

    /// Gives the three-separation of the first good seed with two connectors, and `None` if and only if no such seed is good. The loop visits
    /// the lines x, rows before columns.
    pub fn first_of_lines(
        &mut self,
        alloc: Global,
        form: Form,
        rule: GrowthRule,
        connectors: &Connectors,
    ) -> Result<Option<Three>, Memory>
        requires connectors { AreConnectorsOf self.old.matrix.now form rule connectors.now }
        requires growing { IsGrowing self.old.matrix.now (upper_of self.old.matrix.now rule)
            (lower_of self.old.matrix.now rule) (firsts form connectors.now) self.old.side }
        ensures kept { KeepsSide self.old self.new }
        ensures found { IfOk result (IsFoundSeparation self.old.matrix.now
            (all_prefix form connectors.now)) }
    {
        let second = connectors.second.lines(form.second_is_flat());
        let matrix = self.matrix;
        for place in 0..matrix.rows() + matrix.columns() {
            let line = line_at(matrix, place);
            if is_beside(form, connectors, line) && self.leaves_beside(rule, &second, line)? {
                return Ok(Some(self.separation(alloc, form, connectors)?));
            }
        }
        Ok(None)
    }

    /// The lines of the side that grew in the last test.
    pub fn lines(&self, alloc: Global) -> Result<LineSet, Memory>
        ensures { IfOk result (λ lines. HasLines (height self.now.matrix.now)
            self.now.matrix.now.width (set_of self.now.grown) lines.rows lines.columns) }
    {
        let lines = self.grown.line_set(alloc)?;
        Ok(lines)
    }

    // The three-separation whose side one is the side that grew in the last test.
    fn separation(
        &self,
        alloc: Global,
        form: Form,
        connectors: &Connectors,
    ) -> Result<Three, Memory>
        ensures form { IfOk result (λ three. three.form ≡ form) }
        ensures first { IfOk result (λ three. three.first ≡ connectors.now.first) }
        ensures second { IfOk result (λ three. three.second ≡ connectors.now.second) }
        ensures lines { IfOk result (λ three. HasLines (height self.now.matrix.now)
            self.now.matrix.now.width (set_of self.now.grown) three.side.rows three.side.columns) }
    {
        Ok(Three {
            form,
            side: self.lines(alloc)?,
            first: connectors.first,
            second: connectors.second,
        })
    }
}

// Decides whether a row is among some lines.
fn has_row(lines: &[Line], row: u32) -> bool {
    for line in lines {
        if let Line::Row(other) = *line {
            if other == row {
                return true;
            }
        }
    }
    false
}
