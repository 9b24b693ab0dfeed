// Two sides for the parts at a row.
ghost use Rattle.std.specs.Prelude.{◌≡◌, ◌%◌, length, map, IfOk};
ghost use Rattle.cmr_base.specs.LineSets.{AllBelow};
ghost use Rattle.cmr_base.specs.Matrix.{height};
ghost use Rattle.cmr_base.specs.Members.{IsIn};
ghost use Rattle.cmr_base.specs.Splits.{AreParts};
ghost use Rattle.cmr_base.specs.Trees.{support};
ghost use Rattle.bridge_split.specs.Cutting.{rows_at_part};
ghost use Rattle.bridge_split.specs.SplitCases.{AreSidesOf};

use crate::cuts::CutTable;
use crate::forest::Forest;
use cmr_base::{Indices, Matrix, Memory, PartList, PathList, SideList};
use std::alloc::Global;

/// Sides for parts, or a reason why there are none.
#[derive(Debug, Drop)]
pub enum PartSides {
    /// A side, 0 or 1, for each part: parts of one side agree.
    Found(SideList),
    /// An odd closed list of parts, each of which disagrees with the next.
    OddCycle(PartList),
}

/// Puts the parts of the other rows on the two sides of `row`.
pub fn sides_at(
    alloc: Global,
    matrix: &Matrix,
    rows: &Indices,
    row: u32,
    parts: &PartList,
) -> Result<PartSides, Memory>
    requires rows { AllBelow (height matrix.now) rows.now }
    requires row { IsIn row rows.now }
    requires parts { AreParts (support matrix.now) rows.now row parts.now }
    ensures { IfOk result (AreSidesOf (support matrix.now) rows.now row parts.now) }
{
    let parts = parts.as_slice();
    let table = CutTable::new(alloc, matrix, row, parts)?;
    let mut forest = Forest::new(alloc, table.len())?;
    match forest.grow(&table)? {
        None => Ok(PartSides::Found(sides_by_depth(alloc, &forest.depth)?)),
        Some(conflict) => {
            let mut path = PathList::new(alloc);
            forest.push_path(&table, &mut path, conflict.one, conflict.two)?;
            Ok(PartSides::OddCycle(parts_at_places(alloc, parts, path.as_slice())?))
        }
    }
}

fn sides_by_depth(alloc: Global, depths: &[u32]) -> Result<SideList, Memory>
    ensures { IfOk result (λ sides. sides ≡ map (λ depth. depth % 2) depths.now) }
{
    let mut sides = SideList::new(alloc);
    for depth in depths {
        sides.push((*depth % 2) as u8)?;
    }
    Ok(sides)
}

fn parts_at_places(alloc: Global, parts: &[Indices], places: &[u32]) -> Result<PartList, Memory>
    requires { AllBelow (length parts.now) places.now }
    ensures { IfOk result (λ chosen. chosen ≡ map (rows_at_part parts.now) places.now) }
{
    let mut chosen = PartList::new(alloc);
    for place in places {
        chosen.push(Indices::of(alloc, parts[*place as usize].as_slice())?)?;
    }
    Ok(chosen)
}
