// The first row that splits the others.
ghost use Rattle.std.specs.Prelude.{◌<◌, ℕ, IfOk, MatchOption};
ghost use Rattle.std.specs.List.Sorted.{IsStrictlyIncreasing};
ghost use Rattle.cmr_base.specs.LineSets.{AllBelow, first_lines};
ghost use Rattle.cmr_base.specs.Matrix.{height};
ghost use Rattle.cmr_base.specs.Splits.{AreParts, HasNoThree, IsFirstSplit, Splits};
ghost use Rattle.cmr_base.specs.Trees.{support};
ghost use Rattle.bridge_split.specs.SplitCases.{IsFirstWithThree, IsSplitCase};

use crate::counts::Counts;
use crate::part_walk::PartWalk;
use crate::parts::parts_of_numbers;
use crate::sides::{PartSides, sides_at};
use cmr_base::{Indices, LineSet, Matrix, Memory, PartList, SideList};
use std::alloc::Global;

/// How the support of a matrix splits.
#[derive(Debug, Drop)]
pub enum SplitCase {
    /// No column has three nonzeros.
    Star,
    /// This column is the first with three nonzeros or more, and no row splits the others.
    AllConnected(u32),
    /// The first row that splits the others, the parts of the other rows in the order of their least rows, and a side, 0 or 1,
    /// for each part. Parts of one side agree.
    Parts {
        row: u32,
        parts: PartList,
        sides: SideList,
    },
    /// The first row that splits the others, and an odd closed list of parts. Each part differs from the next and disagrees
    /// with it.
    OddCycle {
        row: u32,
        parts: PartList,
    },
}

/// Determines the case of the support of the matrix, over all its rows. `split` first searches for a column with three
/// nonzeros, and then for a row that splits the others.
pub fn split(alloc: Global, matrix: &Matrix) -> Result<SplitCase, Memory>
    ensures { IfOk result (IsSplitCase (support matrix.now) (first_lines (height matrix.now))) }
{
    let lines = LineSet::all(alloc, matrix.rows(), 0)?;
    let rows = &lines.rows;
    match first_column_with_three(alloc, matrix, rows)? {
        None => Ok(SplitCase::Star),
        Some(column) => match first_splitting_row(alloc, matrix, rows.as_slice(), 0)? {
            None => Ok(SplitCase::AllConnected(column)),
            Some(split) => with_sides(alloc, matrix, rows, split),
        },
    }
}

/// A row that splits the others, with their parts.
#[derive(Debug, Drop)]
pub struct SplitRow {
    pub row: u32,
    pub parts: PartList,
}

// A row splits the others if they have at least this number of parts.
const SPLIT_PARTS: u32 = 2;

/// The first of these rows that splits the others, with their parts. No row below `untested` splits them.
pub fn first_splitting_row(
    alloc: Global,
    matrix: &Matrix,
    rows: &[u32],
    untested: u32,
) -> Result<Option<SplitRow>, Memory>
    requires rows { AllBelow (height matrix.now) rows.now }
    requires increasing { IsStrictlyIncreasing rows.now }
    requires tested { (row : ℕ) → row < untested → ¬ (Splits (support matrix.now) rows.now row) }
    ensures { IfOk result (λ found. MatchOption found
        ((row : ℕ) → ¬ (Splits (support matrix.now) rows.now row))
        (λ split. IsFirstSplit (support matrix.now) rows.now split.row
        × AreParts (support matrix.now) rows.now split.row split.parts)) }
{
    let mut walk = PartWalk::new(alloc, matrix)?;
    for row in rows {
        if *row >= untested {
            let count = walk.number_parts(matrix, rows, *row);
            if count >= SPLIT_PARTS {
                let parts = parts_of_numbers(alloc, rows, &walk.part, count)?;
                return Ok(Some(SplitRow { row: *row, parts }));
            }
        }
    }
    Ok(None)
}

fn with_sides(
    alloc: Global,
    matrix: &Matrix,
    rows: &Indices,
    split: SplitRow,
) -> Result<SplitCase, Memory>
    requires rows { AllBelow (height matrix.now) rows.now }
    requires three { ¬ (HasNoThree (support matrix.now) rows.now) }
    requires first { IsFirstSplit (support matrix.now) rows.now split.row }
    requires parts { AreParts (support matrix.now) rows.now split.row split.parts }
    ensures { IfOk result (IsSplitCase (support matrix.now) rows.now) }
{
    match sides_at(alloc, matrix, rows, split.row, &split.parts)? {
        PartSides::Found(sides) => Ok(SplitCase::Parts {
            row: split.row,
            parts: split.parts,
            sides,
        }),
        PartSides::OddCycle(parts) => Ok(SplitCase::OddCycle {
            row: split.row,
            parts,
        }),
    }
}

/// The first column with three nonzeros or more in these rows.
fn first_column_with_three(
    alloc: Global,
    matrix: &Matrix,
    rows: &Indices,
) -> Result<Option<u32>, Memory>
    requires { AllBelow (height matrix.now) rows.now }
    ensures { IfOk result (λ found. MatchOption found (HasNoThree (support matrix.now) rows.now)
        (IsFirstWithThree (support matrix.now) rows.now)) }
{
    let counts = Counts::of(alloc, matrix, rows.as_slice())?;
    Ok(counts.first_from_three())
}
