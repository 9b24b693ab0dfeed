// The search for the sides of a tree by splitting.
ghost use Rattle.std.specs.Prelude.{◌<◌, ℕ, IfOk, MatchOption};
ghost use Rattle.cmr_base.specs.LineSets.{AllBelow};
ghost use Rattle.cmr_base.specs.Matrix.{height};
ghost use Rattle.cmr_base.specs.Splits.{AreSides, Splits};
ghost use Rattle.cmr_base.specs.Trees.{support};
ghost use Rattle.graph_realise.specs.TreeSearches.{AreWholeBelow, IsSearch, IsSplit};
ghost use Rattle.graph_realise.specs.SideTables.{AreTablesOf, KeepsOutside};

use crate::arc_sides::ArcSides;
use crate::joining::join;
use crate::joint::Joint;
use crate::star::draw_star;
use bridge_split::{PartSides, SplitRow, first_splitting_row, has_column_with_three, sides_at};
use cmr_base::{Indices, Matrix, Memory, SideList};
use std::alloc::Global;

/// Whether the rows are the arcs of a tree in which the columns are paths.
#[derive(Debug, Clone, Copy, PartialEq, Eq)]
pub enum TreeSearch {
    Found,
    NoTree,
}

/// Finds a tree for these rows and writes its sides into the rows of the tables. Each row is tested once, since no row below
/// `untested` splits the others: a row that does not split S does not split a smaller set of the search either, which consists
/// of the row that splits S and one of its parts.
#[cycle(find_sides)]
pub fn find_sides(
    alloc: Global,
    matrix: &Matrix,
    rows: &Indices,
    untested: u32,
    sides: &mut ArcSides,
) -> Result<TreeSearch, Memory>
    requires rows { AllBelow (height matrix.now) rows.now }
    requires tested { AreWholeBelow (support matrix.now) rows.now untested }
    requires tables { AreTablesOf matrix.now sides.old }
    ensures tables { AreTablesOf matrix.now sides.new }
    ensures found { IfOk result (IsSearch (support matrix.now) rows.now sides.new) }
    ensures others { KeepsOutside sides.old sides.new rows.now }
{
    if !has_column_with_three(alloc, matrix, rows)? {
        draw_star(alloc, matrix, rows, sides)?;
        return Ok(TreeSearch::Found);
    }
    match find_split(alloc, matrix, rows, untested)? {
        None => Ok(TreeSearch::NoTree),
        Some(split) => match sides_at(alloc, matrix, rows, split.row, &split.parts)? {
            PartSides::OddCycle(_) => Ok(TreeSearch::NoTree),
            PartSides::Found(ends) => join_parts(alloc, matrix, rows, &split, &ends, sides),
        },
    }
}

#[cycle(find_sides)]
fn join_parts(
    alloc: Global,
    matrix: &Matrix,
    rows: &Indices,
    split: &SplitRow,
    ends: &SideList,
    sides: &mut ArcSides,
) -> Result<TreeSearch, Memory>
    requires rows { AllBelow (height matrix.now) rows.now }
    requires tables { AreTablesOf matrix.now sides.old }
    requires split { IsSplit (support matrix.now) rows.now split.now }
    requires ends { AreSides (support matrix.now) split.now.row split.now.parts ends.now }
    ensures tables { AreTablesOf matrix.now sides.new }
    ensures found { IfOk result (IsSearch (support matrix.now) rows.now sides.new) }
    ensures others { KeepsOutside sides.old sides.new rows.now }
{
    let joint = Joint::new(alloc, matrix, split.row, &split.parts, ends)?;
    for place in 0..split.parts.len() {
        let rows_with = joint.rows_with(alloc, place)?;
        match find_sides(alloc, matrix, &rows_with, split.row + 1, sides)? {
            TreeSearch::Found => {}
            TreeSearch::NoTree => return Ok(TreeSearch::NoTree),
        }
    }
    join(matrix, rows, &joint, sides);
    Ok(TreeSearch::Found)
}

// The first row that splits the others, with their parts. Each test is one walk over the rows, and all walks share their
// memory.
fn find_split(
    alloc: Global,
    matrix: &Matrix,
    rows: &Indices,
    untested: u32,
) -> Result<Option<SplitRow>, Memory>
    requires rows { AllBelow (height matrix.now) rows.now }
    requires tested { AreWholeBelow (support matrix.now) rows.now untested }
    ensures { IfOk result (λ found. MatchOption found
        ((row : ℕ) → ¬ (Splits (support matrix.now) rows.now row))
        (IsSplit (support matrix.now) rows.now)) }
{
    first_splitting_row(alloc, matrix, rows.as_slice(), untested)
}
