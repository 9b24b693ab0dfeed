// Lines that show that a submatrix is not a network matrix.
ghost use Rattle.std.specs.Prelude.{◌≡◌, ◌≤◌, ◌+◌, true, drop, length, take, IfOk, IsTrue};
ghost use Rattle.std.specs.List.{AllByRecursion};
ghost use Rattle.cmr_base.specs.Matrix.{IsMatrix};
ghost use Rattle.tree_type.specs.Invariant.{AreLines};
ghost use Rattle.tree_type.specs.Sides.{is_among};
ghost use Rattle.tree_type.specs.Soundness.{part};
ghost use Rattle.decomp_tree.specs.Obstructions.{IsKnown, IsNoNetwork, IsSomeOf, HasNoGraphicSupport};

use cmr_base::{Indices, LineSet, MAX_COLUMNS, MAX_ROWS, Matrix, Memory};
use network_orient::has_graphic_support;
use std::alloc::Global;
use tree_type::{Finding, copy_of};

// The least number of lines of a submatrix in which an obstruction is searched for. Smaller submatrices are tested instead.
const LEAST_LINES: u32 = 40;

/// More lines than any matrix has.
pub const MORE_LINES: u32 = 4000;

/// Lines on which neither the matrix nor its transpose has a graphic support, if such lines are known. A submatrix that has all
/// these lines is not a network matrix, and neither is its transpose, so it needs no test.
#[derive(Drop)]
pub struct Obstruction {
    pub lines: Option<LineSet>,
    /// The number of lines of the submatrix in which they were last searched for.
    pub sought: u32,
}

impl Obstruction {
    /// Nothing is known.
    pub fn unknown(_matrix: &Matrix) -> Obstruction
        ensures known { IsKnown _matrix.now result }
        ensures sought { result.sought ≤ MORE_LINES }
    {
        Obstruction {
            lines: None,
            sought: MORE_LINES,
        }
    }

    /// Whether these lines contain all lines of the obstruction, so that neither the submatrix on them nor its transpose is a
    /// network matrix.
    pub fn is_within(&self, _matrix: &Matrix, lines: &LineSet) -> bool
        requires shape { IsMatrix _matrix.now }
        requires known { IsKnown _matrix.now self.now }
        requires lines { AreLines _matrix.now lines.now }
        ensures { IsTrue result → IsNoNetwork (part _matrix.now lines.now) }
    {
        if let Some(own) = &self.lines {
            return has_lines(lines, own);
        }
        false
    }

    /// The obstruction for a child of a node with this finding. If the child does not have all of these lines, another
    /// obstruction is searched for, but only in children of two-sums, and not again until a quarter of the lines is removed.
    pub fn in_child(
        &self,
        alloc: Global,
        matrix: &Matrix,
        finding: &Finding,
        child: &LineSet,
    ) -> Result<Obstruction, Memory>
        requires shape { IsMatrix matrix.now }
        requires known { IsKnown matrix.now self.now }
        requires lines { AreLines matrix.now child.now }
        requires sought { self.now.sought ≤ MORE_LINES }
        ensures known { IfOk result (IsKnown matrix.now) }
        ensures sought { IfOk result (λ obstruction. obstruction.sought ≤ MORE_LINES) }
    {
        if self.is_within(matrix, child) {
            return self.copied(alloc, matrix);
        }
        let size = size_of(matrix, child);
        if is_two_sum(finding) && size >= LEAST_LINES && 4 * size <= 3 * self.sought {
            return obstruction_in(alloc, matrix, child, size);
        }
        Ok(Obstruction {
            lines: None,
            sought: self.sought,
        })
    }

    fn copied(&self, alloc: Global, _matrix: &Matrix) -> Result<Obstruction, Memory>
        requires known { IsKnown _matrix.now self.now }
        requires sought { self.now.sought ≤ MORE_LINES }
        ensures known { IfOk result (IsKnown _matrix.now) }
        ensures sought { IfOk result (λ obstruction. obstruction.sought ≤ MORE_LINES) }
    {
        if let Some(own) = &self.lines {
            return Ok(Obstruction {
                lines: Some(copy_of(alloc, own)?),
                sought: self.sought,
            });
        }
        Ok(Obstruction {
            lines: None,
            sought: self.sought,
        })
    }
}

fn is_two_sum(finding: &Finding) -> bool {
    matches!(finding, Finding::TwoSum(_))
}

// The number of lines.
fn size_of(_matrix: &Matrix, lines: &LineSet) -> u32
    requires shape { IsMatrix _matrix.now }
    requires lines { AreLines _matrix.now lines.now }
    ensures { result ≤ MAX_ROWS + MAX_COLUMNS }
{
    lines.size()
}

// Whether the lines of the obstruction are among some lines.
fn has_lines(lines: &LineSet, own: &LineSet) -> bool
    ensures rows { IsTrue result
        → AllByRecursion (λ line. is_among lines.now.rows line ≡ true) own.now.rows }
    ensures columns { IsTrue result
        → AllByRecursion (λ line. is_among lines.now.columns line ≡ true) own.now.columns }
{
    has_all(&lines.rows, own.rows.as_slice()) && has_all(&lines.columns, own.columns.as_slice())
}

// Whether a set has all these lines. Both lists increase, so one pass is enough.
fn has_all(set: &Indices, lines: &[u32]) -> bool
    ensures { IsTrue result → AllByRecursion (λ line. is_among set.now line ≡ true) lines.now }
{
    let numbers = set.as_slice();
    let mut place = 0;
    for line in lines {
        place = place_from(numbers, place, *line);
        if !stands_at(numbers, place, *line) {
            return false;
        }
    }
    true
}

fn stands_at(numbers: &[u32], place: usize, line: u32) -> bool
    ensures { result ≡ true → is_among numbers.now line ≡ true }
{
    place < numbers.len() && numbers[place] == line
}

/// The first position from `place` on whose number is not below a line.
pub fn place_from(numbers: &[u32], from: usize, line: u32) -> usize
    ensures { result ≤ length numbers.now }
{
    for place in from..numbers.len() {
        if numbers[place] >= line {
            return place;
        }
    }
    numbers.len()
}

// The middle of some lines, if it is an obstruction. It remains in the rest of a chain of sums until most of the chain is
// removed, from either end.
fn obstruction_in(
    alloc: Global,
    matrix: &Matrix,
    lines: &LineSet,
    size: u32,
) -> Result<Obstruction, Memory>
    requires shape { IsMatrix matrix.now }
    requires lines { AreLines matrix.now lines.now }
    requires size { size ≤ MORE_LINES }
    ensures known { IfOk result (IsKnown matrix.now) }
    ensures sought { IfOk result (λ obstruction. obstruction.sought ≤ MORE_LINES) }
{
    let middle = LineSet {
        rows: middle_of(alloc, &lines.rows)?,
        columns: middle_of(alloc, &lines.columns)?,
    };
    let submatrix = matrix.part(alloc, &middle)?;
    if has_no_graphic_support(alloc, &submatrix)? {
        return Ok(Obstruction {
            lines: Some(middle),
            sought: size,
        });
    }
    Ok(Obstruction {
        lines: None,
        sought: size,
    })
}

// Whether neither the matrix nor its transpose has a graphic support.
fn has_no_graphic_support(alloc: Global, matrix: &Matrix) -> Result<bool, Memory>
    ensures { IfOk result (λ yes. IsTrue yes → HasNoGraphicSupport matrix.now) }
{
    if has_graphic_support(alloc, matrix)? {
        return Ok(false);
    }
    let transposed = matrix.transposed(alloc)?;
    Ok(!has_graphic_support(alloc, &transposed)?)
}

// The lines without the first and the last quarter.
fn middle_of(alloc: Global, lines: &Indices) -> Result<Indices, Memory>
    ensures { IfOk result (λ middle. IsSomeOf lines.now middle) }
{
    let numbers = lines.as_slice();
    let quarter = numbers.len() / 4;
    let middle = Indices::of(
        alloc,
        run_of(numbers, quarter, numbers.len() - quarter - quarter),
    )?;
    Ok(middle)
}

// The lines from a position on, at most `count`.
fn run_of(lines: &[u32], from: usize, count: usize) -> &[u32]
    requires { from + count ≤ length lines.now }
    ensures { result.now ≡ take count (drop from lines.now) }
{
    &lines[from..from + count]
}
