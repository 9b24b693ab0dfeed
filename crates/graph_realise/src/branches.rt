// The properties of the parts at a row that decide how they hang.
ghost use Rattle.std.specs.Prelude.{◌≡◌, ◌<◌, IfOk, length};
ghost use Rattle.cmr_base.specs.LineSets.{AllBelow};
ghost use Rattle.cmr_base.specs.Matrix.{height};
ghost use Rattle.cmr_base.specs.Trees.{support};
ghost use Rattle.graph_realise.specs.Branches.{AreBranches, IsBranch};
ghost use Rattle.graph_realise.specs.Joints.{AreColumnsOfParts, AreInRows, IsSetOfPart};

use bridge_split::part_cuts;
use cmr_base::{BitSet, Indices, Matrix, Memory, PartList, SideList, columns_of};
use std::alloc::Global;

/// A part at a row: the end of the row's arc to which it belongs, its weight, and a column that it has in common with the row.
/// Of two parts at one end, the lighter part hangs at a node of the heavier part.
#[derive(Debug, Clone, Copy)]
pub struct Branch {
    pub end: bool,
    pub weight: u32,
    pub common: Option<u32>,
}

/// The branches of parts. `sets` contains the columns of each part.
pub fn branches_at(
    alloc: Global,
    matrix: &Matrix,
    row: u32,
    parts: &PartList,
    sets: &[BitSet],
    ends: &SideList,
) -> Result<Vec<Branch>, Memory>
    requires row { row < height matrix.now }
    requires parts { AreInRows (height matrix.now) parts.now }
    requires sets { AreColumnsOfParts (support matrix.now) matrix.now.width parts.now
        (length parts.now) sets.now }
    requires ends { length ends.now ≡ length parts.now }
    ensures { IfOk result (λ branches. AreBranches (support matrix.now) matrix.now.width row
        parts.now ends.now (length parts.now) branches.items) }
{
    let mut branches = Vec::new(alloc);
    let mut common = BitSet::new(alloc, matrix.columns())?;
    for place in 0..parts.len() {
        let end = *ends.get(place) == 1;
        let part = parts.get(place);
        branches.push(branch_at(matrix, row, part, &sets[place], &mut common, end))?;
    }
    Ok(branches)
}

// The branch of a part with these columns. `common` is room for those that it has in common with the row.
fn branch_at(
    matrix: &Matrix,
    row: u32,
    part: &Indices,
    columns: &BitSet,
    common: &mut BitSet,
    end: bool,
) -> Branch
    requires row { row < height matrix.now }
    requires rows { AllBelow (height matrix.now) part.now }
    requires columns { IsSetOfPart (support matrix.now) matrix.now.width part.now columns.now }
    requires size { common.old.size ≡ matrix.now.width }
    ensures size { common.new.size ≡ matrix.now.width }
    ensures branch { IsBranch (support matrix.now) matrix.now.width row part.now end result }
{
    common.clear();
    common.add_common_words(columns, columns_of(matrix, row));
    let is_cut = part_cuts(matrix, part.as_slice(), common);
    Branch {
        end,
        weight: 2 * common.count() + u32::from(!is_cut),
        common: common.next(0),
    }
}
