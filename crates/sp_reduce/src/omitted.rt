// Sets of lines without a run of lines.
ghost use Rattle.std.specs.Prelude.{◌≡◌, ◌≤◌, ◌+◌, filter, IfOk};
ghost use Rattle.std.specs.List.Sorted.{IsStrictlyIncreasing};
ghost use Rattle.cmr_base.specs.LineSets.{AllBelow};
ghost use Rattle.minimal_sets.specs.LeftOut.{lines_between, rows_left, columns_left, is_outside};

use cmr_base::{Indices, LineSet, MAX_COLUMNS, MAX_ROWS, Memory};
use std::alloc::Global;

// The set without the `count` lines from a number on. The columns are numbered after the rows.
pub fn without_run(
    alloc: Global,
    lines: &LineSet,
    height: u32,
    from: u32,
    count: u32,
) -> Result<LineSet, Memory>
    requires height { height ≤ MAX_ROWS }
    requires few { from + count ≤ MAX_ROWS + MAX_COLUMNS }
    requires rows { AllBelow height lines.now.rows }
    requires columns { AllBelow MAX_COLUMNS lines.now.columns }
    ensures rows { IfOk result (λ fewer. fewer.rows ≡ rows_left lines.now.rows
        (lines_between height from count)) }
    ensures columns { IfOk result (λ fewer. fewer.columns
        ≡ columns_left lines.now.columns (lines_between height from count)) }
{
    let rows = lines.rows.as_slice();
    let columns = lines.columns.as_slice();
    Ok(LineSet {
        rows: outside(alloc, rows, 0, from, count)?,
        columns: outside(alloc, columns, height, from, count)?,
    })
}

// Each number for which `before + number` is not among the `count` numbers from `from` on.
fn outside(
    alloc: Global,
    numbers: &[u32],
    before: u32,
    from: u32,
    count: u32,
) -> Result<Indices, Memory>
    requires increasing { IsStrictlyIncreasing numbers.now }
    requires small { AllBelow MAX_ROWS numbers.now }
    requires before { before ≤ MAX_ROWS }
    requires few { from + count ≤ MAX_ROWS + MAX_COLUMNS }
    ensures { IfOk result (λ indices. indices ≡ filter (is_outside before from count) numbers.now) }
{
    let mut indices = Indices::new(alloc);
    'numbers: for number in numbers {
        let place = before + *number;
        if place < from || from + count <= place {
            indices.push(*number)?;
        }
    }
    Ok(indices)
}
