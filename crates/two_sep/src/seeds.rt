// The first good seed at a nonzero.
ghost use Rattle.std.specs.Prelude.{◌≡◌, ◌≢◌, ◌<◌, pos, IfOk, MatchOption};
ghost use Rattle.cmr_base.specs.Matrix.{height, entry};
ghost use Rattle.line_growth.specs.GrowingSets.{IsSizedFor, set_of};
ghost use Rattle.two_sep.specs.FirstSeeds.{HasNoGoodSeed, IsFirstGoodSide, seed_rule};

use cmr_base::{Line, Memory, Position, RowsAndColumns};
use line_growth::{Block, GrowingSet, GrowthRule, line_at};
use std::alloc::Global;

/// The side to which the first good seed at a nonzero grows, and `None` if no seed there is good. If a seed is not good, no
/// line that pulls it in is good either, so the search skips these lines.
pub fn first_good_side(
    alloc: Global,
    matrix: &RowsAndColumns<'_>,
    row: u32,
    column: u32,
) -> Result<Option<GrowingSet>, Memory>
    requires row { row < height matrix.now }
    requires column { column < matrix.now.width }
    requires nonzero { entry matrix.now row column ≢ pos 0 }
    ensures { IfOk result (λ found. MatchOption found (HasNoGoodSeed matrix.now row column)
        (λ side. IsSizedFor matrix.now side
        × IsFirstGoodSide matrix.now row column (set_of side))) }
{
    let rows = matrix.rows();
    let rule = rule_at(row, column);
    let mut side = GrowingSet::new(alloc, matrix)?;
    let mut bad = GrowingSet::new(alloc, matrix)?;
    for place in 0..rows + matrix.columns() {
        let seed = line_at(matrix, place);
        if place != row && place != rows + column && !bad.has(seed) {
            side.start(&[seed, Line::Column(column)])?;
            if side.close(matrix, rule, &[Line::Row(row)], 2)? {
                return Ok(Some(side));
            }
            bad.start(&[seed])?;
            bad.close(matrix, rule.exchanged(), &[], 2)?;
        }
    }
    Ok(None)
}

/// The rule of side one of the separations with this reference.
pub fn rule_at(row: u32, column: u32) -> GrowthRule
    ensures { result ≡ seed_rule row column }
{
    GrowthRule {
        upper: Block::Zero,
        lower: Block::Product(Position { row, column }),
    }
}
