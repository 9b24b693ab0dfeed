// Columns that the rows of column j pull into side two, although they are in side one with row i.
ghost use Rattle.std.specs.Prelude.{◌≡◌, ◌<◌, true};
ghost use Rattle.cmr_base.specs.declared.separation.Form.TheVariants.{Concentrated};
ghost use Rattle.cmr_base.specs.Matrix.{height, entry};
ghost use Rattle.cmr_base.specs.Seeds.{IsConnectorPair};
ghost use Rattle.line_growth.specs.Rules.{IsRuleOf};
ghost use Rattle.three_sep.specs.Concentrated.{HasNoneBetween, PullsOther};

use crate::connectors::Connectors;
use crate::row_search::RowSearch;
use line_growth::GrowthRule;

impl RowSearch<'_> {
    /// Searches for a proof that column j is in side one with row i, by two connectors with this row and column: a row that is not 0 in
    /// column j pulls a column that is no candidate into side two.
    pub fn is_in_side_one(&self, connectors: &Connectors) -> bool
        requires row { connectors.now.first.row ≡ self.now.row }
        requires connectors { IsConnectorPair (height self.now.matrix.now)
            self.now.matrix.now.width (entry self.now.matrix.now) Concentrated
            connectors.now.first connectors.now.second }
        ensures { result ≡ true → HasNoneBetween self.now.matrix.now self.now.row
            connectors.now.second.column }
    {
        let rule = connectors.spread_rule(self.matrix);
        let columns = self.matrix.by_columns();
        let mut from = 0;
        while let Some(row) = columns.next_nonzero(connectors.second.column, from) {
            if self.pulls_other(rule, row) {
                return true;
            }
            from = row + 1;
        }
        false
    }

    // Searches for a column that a row pulls, in which the row is not 0, and which is no candidate.
    fn pulls_other(&self, rule: GrowthRule, row: u32) -> bool
        requires rule { IsRuleOf self.now.matrix.now rule }
        requires row { row < height self.now.matrix.now }
        ensures { result ≡ true
            → PullsOther self.now.matrix.now rule self.now.candidates row }
    {
        let sum = rule.lower.row(self.matrix, row);
        let mut from = 0;
        while let Some(column) = self.matrix.by_rows().next_nonzero(row, from) {
            if !self.candidates.has(column) && !sum.is_at(self.matrix.by_rows(), row, column) {
                return true;
            }
            from = column + 1;
        }
        false
    }
}
