// What the labels of lines show of the seeds at a nonzero.
ghost use Rattle.std.specs.Prelude.{◌≡◌, ◌≢◌, ◌<◌, ◌+◌, pos, true, length, IfOk, OnOk};
ghost use Rattle.cmr_base.specs.Matrix.{height, entry};
ghost use Rattle.line_growth.specs.GrowingSets.{HasSameSizes, IsSizedFor};
ghost use Rattle.two_sep.specs.FirstSeeds.{AreLabelled, HasNoGoodSeed};
ghost use Rattle.two_sep.specs.LinkedLines.{AreSizedFor, GrowsFromLabel};

use crate::seeds::rule_at;
use cmr_base::{Line, Memory, RowsAndColumns};
use line_growth::{GrowingSet, line_at};
use std::alloc::Global;

/// Room for the lines with the label of a row, and for the lines with the label of a column.
#[derive(Drop)]
pub struct LinkedLines {
    of_row: GrowingSet,
    of_column: GrowingSet,
}

impl LinkedLines {
    /// Room for the lines of a matrix.
    pub fn new(alloc: Global, matrix: &RowsAndColumns<'_>) -> Result<LinkedLines, Memory>
        ensures { IfOk result (AreSizedFor matrix.now) }
    {
        Ok(LinkedLines {
            of_row: GrowingSet::new(alloc, matrix)?,
            of_column: GrowingSet::new(alloc, matrix)?,
        })
    }

    /// Whether the labels show that no seed at a nonzero is good. The lines with the label of its column are on side one of each
    /// separation with this reference, and the lines with the label of its row are on side two. The larger of these two sets
    /// grows. If both have one line, they show nothing.
    pub fn show_none(
        &mut self,
        matrix: &RowsAndColumns<'_>,
        labels: &[u32],
        row: u32,
        column: u32,
    ) -> Result<bool, Memory>
        requires size { AreSizedFor matrix.now self.old }
        requires linked { AreLabelled matrix.now labels.now }
        requires row { row < height matrix.now }
        requires column { column < matrix.now.width }
        requires nonzero { entry matrix.now row column ≢ pos 0 }
        ensures size { AreSizedFor matrix.now self.new }
        ensures none { IfOk result (λ none. none ≡ true → HasNoGoodSeed matrix.now row column) }
    {
        let rows = matrix.rows();
        let rule = rule_at(row, column);
        start_with_label(&mut self.of_row, matrix, labels, labels[row as usize])?;
        start_with_label(
            &mut self.of_column,
            matrix,
            labels,
            labels[(rows + column) as usize],
        )?;
        if self.of_row.left() < self.of_column.left() {
            let exchanged = rule.exchanged();
            let leaves = self.of_row.close(matrix, exchanged, &[], 2)?;
            return Ok(!leaves);
        }
        if self.of_column.left() == rows + matrix.columns() - 1 {
            return Ok(false);
        }
        let leaves = self.of_column.close(matrix, rule, &[Line::Row(row)], 2)?;
        Ok(!leaves)
    }
}

// Begins with the lines that have a label.
fn start_with_label(
    set: &mut GrowingSet,
    matrix: &RowsAndColumns<'_>,
    labels: &[u32],
    label: u32,
) -> Result<(), Memory>
    requires size { IsSizedFor matrix.now set.old }
    requires count { length labels.now ≡ height matrix.now + matrix.now.width }
    ensures size { HasSameSizes set.old set.new }
    ensures grows { OnOk result (GrowsFromLabel matrix.now labels.now label set.new) }
{
    set.start(&[])?;
    for place in 0..matrix.rows() + matrix.columns() {
        if labels[place as usize] == label {
            set.add(line_at(matrix, place))?;
        }
    }
    Ok(())
}
