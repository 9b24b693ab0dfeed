// The two connectors of a seed and their rules.
ghost use Rattle.std.specs.Prelude.{◌≡◌};
ghost use Rattle.cmr_base.specs.Matrix.{entry};
ghost use Rattle.cmr_base.specs.Separations.{spread_at, zeros};
ghost use Rattle.line_growth.specs.Rules.{IsRuleOf, lower_of, upper_of};
ghost use Rattle.three_sep.specs.Connectors.{ArePlaced, connectors_at, rule_of};

use cmr_base::{Connector, Position, RowsAndColumns};
use cuts::Corners;
use line_growth::{Block, GrowthRule, SpreadLines};

/// The connectors of side one and of side two.
#[derive(Clone, Copy)]
pub struct Connectors {
    pub first: Connector,
    pub second: Connector,
}

impl Connectors {
    /// The connectors with these corners and other lines.
    pub fn at(corners: &Corners, q: u32, o: u32) -> Connectors
        ensures { result ≡ connectors_at corners.now q o }
    {
        let Corners { one, two } = *corners;
        Connectors {
            first: Connector {
                row: one.row,
                column: one.column,
                other: q,
            },
            second: Connector {
                row: two.row,
                column: two.column,
                other: o,
            },
        }
    }

    /// The rule of the concentrated form: the upper block is 0, and columns p and q and rows k and o define the lower block.
    pub fn spread_rule(&self, matrix: &RowsAndColumns<'_>) -> GrowthRule
        requires { ArePlaced matrix.now self.now }
        ensures rule { IsRuleOf matrix.now result }
        ensures upper { upper_of matrix.now result ≡ zeros }
        ensures lower { lower_of matrix.now result
            ≡ spread_at (entry matrix.now) self.now.first self.now.second }
    {
        let Connectors { first, second } = *self;
        let lines = SpreadLines::at(matrix, second.row, second.other, first.column, first.other);
        GrowthRule {
            upper: Block::Zero,
            lower: Block::Spread(lines),
        }
    }
}

/// The rule of the other forms: both blocks are products.
pub fn rule_at(corners: &Corners) -> GrowthRule
    ensures { result ≡ rule_of corners.now }
{
    let Corners { one, two } = *corners;
    GrowthRule {
        upper: Block::Product(Position {
            row: one.row,
            column: two.column,
        }),
        lower: Block::Product(Position {
            row: two.row,
            column: one.column,
        }),
    }
}
