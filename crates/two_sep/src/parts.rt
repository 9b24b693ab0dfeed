// The connected parts of a matrix.
ghost use Rattle.std.specs.Prelude.{◌≡◌, ◌+◌, ◌∷◌, [], false, IfOk, OnOk};
ghost use Rattle.cmr_base.specs.Components.{AreComponents};
ghost use Rattle.cmr_base.specs.LineMasks.{as_set};
ghost use Rattle.cmr_base.specs.Matrix.{entry, height};
ghost use Rattle.cmr_base.specs.Seeds.{IsGrown, IsLine, line_number};
ghost use Rattle.cmr_base.specs.Separations.{zeros};
ghost use Rattle.line_growth.specs.GrowingSets.{HasSameSizes, IsSizedFor, set_of};
ghost use Rattle.two_sep.specs.FoundParts.{HasFound};

use cmr_base::{Line, LineMask, LineSetList, Matrix, Memory, RowsAndColumns};
use line_growth::{Block, GrowingSet, GrowthRule, line_at};
use std::alloc::Global;

// The parts found so far, and their lines.
#[derive(Drop)]
pub struct FoundParts {
    pub parts: LineSetList,
    pub lines: LineMask,
}

/// The connected parts, in the order of their first lines. Two lines are in one part if and only if a path of nonzeros links
/// them.
pub fn components(alloc: Global, matrix: &Matrix) -> Result<LineSetList, Memory>
    ensures { IfOk result (AreComponents matrix.now) }
{
    let columns = matrix.transposed(alloc)?;
    components_of(alloc, &RowsAndColumns::of(matrix, &columns))
}

/// The same for a matrix by its rows and its columns.
pub fn components_of(alloc: Global, matrix: &RowsAndColumns<'_>) -> Result<LineSetList, Memory>
    ensures { IfOk result (AreComponents matrix.now) }
{
    let mut found = FoundParts::new(alloc, matrix)?;
    let mut part = GrowingSet::new(alloc, matrix)?;
    for place in 0..matrix.rows() + matrix.columns() {
        let line = line_at(matrix, place);
        if !found.lines.has(line) {
            found.add_part_of(alloc, matrix, line, &mut part)?;
        }
    }
    Ok(found.parts)
}

impl FoundParts {
    fn new(alloc: Global, matrix: &RowsAndColumns<'_>) -> Result<FoundParts, Memory>
        ensures { IfOk result (HasFound matrix.now 0) }
    {
        Ok(FoundParts {
            parts: LineSetList::new(alloc),
            lines: LineMask::new(alloc, matrix.rows(), matrix.columns())?,
        })
    }

    // Adds the part of a line that is in no part so far. `part` provides room for it.
    fn add_part_of(
        &mut self,
        alloc: Global,
        matrix: &RowsAndColumns<'_>,
        line: Line,
        part: &mut GrowingSet,
    ) -> Result<(), Memory>
        requires size { IsSizedFor matrix.now part.old }
        requires line { IsLine (height matrix.now) matrix.now.width line }
        requires before { HasFound matrix.now (line_number (height matrix.now) line) self.old }
        requires other { as_set self.old.lines line ≡ false }
        ensures size { HasSameSizes part.old part.new }
        ensures found { OnOk result (HasFound matrix.now
            (line_number (height matrix.now) line + 1) self.new) }
    {
        grow_part(matrix, part, line)?;
        self.parts.push(part.line_set(alloc)?)?;
        self.lines.rows.add_all(part.rows());
        self.lines.columns.add_all(part.columns());
        Ok(())
    }
}

// The part of a line.
fn grow_part(matrix: &RowsAndColumns<'_>, part: &mut GrowingSet, line: Line) -> Result<(), Memory>
    requires size { IsSizedFor matrix.now part.old }
    requires line { IsLine (height matrix.now) matrix.now.width line }
    ensures size { HasSameSizes part.old part.new }
    ensures grown { OnOk result (IsGrown (height matrix.now) matrix.now.width (entry matrix.now)
        zeros zeros (line ∷ []) (set_of part.new)) }
{
    let rule = GrowthRule {
        upper: Block::Zero,
        lower: Block::Zero,
    };
    part.start(&[line])?;
    part.close(matrix, rule, &[], 0)?;
    Ok(())
}
