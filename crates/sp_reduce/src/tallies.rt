// The nonzeros of all lines of one kind in some crossing lines, found in the words of the rows.
ghost use Rattle.std.specs.Prelude.{◌≡◌, ◌<◌, ◌≤◌, ◌+◌, ◌*◌, ◌^◌, if◌then◌else◌, length, set, slice_index, IfOk};
ghost use Rattle.cmr_base.specs.Matrix.{height, IsMatrix};
ghost use Rattle.cmr_base.specs.LineSets.{AllBelow};
ghost use Rattle.sp_reduce.specs.LineKinds.{count_of_kind, cross_size};
ghost use Rattle.sp_reduce.specs.StayingSides.{weight, IsAcross};
ghost use Rattle.sp_reduce.specs.Tallies.{rows_for, AreMarks, AreTallies, AreTalliesAt, AreTalliesOf, AreVisited, AreWeights};

use crate::kind::{LineKind, is_minus};
use cmr_base::{MAX_ROWS, Matrix, Memory};
use std::alloc::Global;

// For each line of a kind, the count of its nonzeros in marked crossing lines, the sum of the weights of these crossing
// lines, and the sum of the weights of the crossing lines in which the entry is -1.
#[derive(Debug, Drop)]
pub struct Tallies {
    pub counts: Vec<u32>,
    pub sums: Vec<u64>,
    pub minus_sums: Vec<u64>,
}

pub fn weight(number: u32) -> u64
    requires { number < MAX_ROWS }
    ensures value { result ≡ weight number }
    ensures small { result ≤ MAX_ROWS ^ 5 }
{
    (u64::from(number) + 1).pow(5)
}

// The rows in which the nonzeros of lines of a kind in some crossing lines are found.
fn rows_for<'a>(kind: LineKind, lines: &'a [u32], across: &'a [u32]) -> &'a [u32]
    ensures { result.now ≡ rows_for kind lines.now across.now }
{
    match kind {
        LineKind::Rows => lines,
        LineKind::Columns => across,
    }
}

// For each of `size` lines, whether it is one of `lines`.
fn marks_of(alloc: Global, size: u32, lines: &[u32]) -> Result<Vec<bool>, Memory>
    requires { AllBelow size lines.now }
    ensures { IfOk result (λ marks. AreMarks size lines.now marks.items) }
{
    let mut marks = vec![in alloc; false; size as usize]?;
    'lines: for line in lines {
        marks[*line as usize] = true;
    }
    Ok(marks)
}

impl Tallies {
    // The tallies of some lines, in their order, in some crossing lines.
    pub fn of_lines(
        alloc: Global,
        matrix: &Matrix,
        kind: LineKind,
        lines: &[u32],
        across: &[u32],
    ) -> Result<Tallies, Memory>
        requires shape { IsMatrix matrix.now }
        requires lines { AllBelow (count_of_kind matrix.now kind) lines.now }
        requires across { IsAcross matrix.now kind across.now }
        ensures { IfOk result (AreTalliesOf matrix.now kind lines.now across.now) }
    {
        let marks = marks_of(alloc, kind.other().size(matrix), across)?;
        let visited = marks_of(alloc, matrix.rows(), rows_for(kind, lines, across))?;
        let all = Tallies::new(alloc, matrix, kind, &visited, &marks)?;
        all.at(alloc, lines)
    }

    fn at(&self, alloc: Global, lines: &[u32]) -> Result<Tallies, Memory>
        requires counts { AllBelow (length self.now.counts.items) lines.now }
        requires sums { AllBelow (length self.now.sums.items) lines.now }
        requires minus_sums { AllBelow (length self.now.minus_sums.items) lines.now }
        ensures { IfOk result (AreTalliesAt lines.now (length lines.now) self.now) }
    {
        let mut tallies = Tallies {
            counts: Vec::with_capacity(alloc, lines.len())?,
            sums: Vec::with_capacity(alloc, lines.len())?,
            minus_sums: Vec::with_capacity(alloc, lines.len())?,
        };
        'lines: for line in lines {
            tallies.counts.push(self.counts[*line as usize])?;
            tallies.sums.push(self.sums[*line as usize])?;
            tallies.minus_sums.push(self.minus_sums[*line as usize])?;
        }
        Ok(tallies)
    }

    // Counts the nonzeros of the rows that are visited.
    fn new(
        alloc: Global,
        matrix: &Matrix,
        kind: LineKind,
        visited: &[bool],
        marks: &[bool],
    ) -> Result<Tallies, Memory>
        requires shape { IsMatrix matrix.now }
        requires long { length visited.now ≡ height matrix.now }
        requires visited { AreVisited kind visited.now marks.now }
        requires marks { length marks.now ≡ cross_size matrix.now kind }
        ensures { IfOk result (AreTallies matrix.now kind visited.now marks.now
            (height matrix.now) 0) }
    {
        let weights = weights_of(alloc, marks)?;
        let size = kind.size(matrix) as usize;
        let mut tallies = Tallies {
            counts: vec![in alloc; 0u32; size]?,
            sums: vec![in alloc; 0u64; size]?,
            minus_sums: vec![in alloc; 0u64; size]?,
        };
        'rows: for row in 0..matrix.rows() {
            tallies.add_row(matrix, kind, visited, marks, &weights, row);
        }
        Ok(tallies)
    }

    // Counts the nonzeros of a row if it is visited.
    fn add_row(
        &mut self,
        matrix: &Matrix,
        kind: LineKind,
        visited: &[bool],
        marks: &[bool],
        weights: &[u64],
        row: u32,
    )
        requires shape { IsMatrix matrix.now }
        requires long { length visited.now ≡ height matrix.now }
        requires visited { AreVisited kind visited.now marks.now }
        requires marks { length marks.now ≡ cross_size matrix.now kind }
        requires weights { AreWeights marks.now weights.now }
        requires row { row < height matrix.now }
        requires before { AreTallies matrix.now kind visited.now marks.now row 0 self.old }
        ensures { AreTallies matrix.now kind visited.now marks.now (row + 1) 0 self.new }
    {
        if !visited[row as usize] {
            return;
        }
        let mut from = 0;
        'columns: while let Some(column) = matrix.next_nonzero(row, from) {
            let line = kind.own(row, column);
            let other = kind.other().own(row, column) as usize;
            let minus = is_minus(matrix, LineKind::Rows, row, column);
            self.add(line, marks[other], weights[other], minus);
            from = column + 1;
        }
    }

    // Adds a nonzero in a crossing line to the tallies of a line. An unmarked crossing line does not count.
    fn add(&mut self, line: u32, is_marked: bool, weight: u64, is_minus: bool)
        requires in_counts { line < length self.old.counts.items }
        requires in_sums { line < length self.old.sums.items }
        requires in_minus_sums { line < length self.old.minus_sums.items }
        requires few { slice_index self.old.counts.items line ≤ MAX_ROWS }
        requires light { slice_index self.old.sums.items line ≤ MAX_ROWS * MAX_ROWS ^ 5 }
        requires minus_light { slice_index self.old.minus_sums.items line
            ≤ MAX_ROWS * MAX_ROWS ^ 5 }
        requires small { weight ≤ MAX_ROWS ^ 5 }
        ensures counts { self.new.counts.items
            ≡ set self.old.counts.items line (slice_index self.old.counts.items line
            + (if is_marked then 1 else 0)) }
        ensures sums { self.new.sums.items
            ≡ set self.old.sums.items line (slice_index self.old.sums.items line + weight) }
        ensures minus_sums { self.new.minus_sums.items
            ≡ set self.old.minus_sums.items line (slice_index self.old.minus_sums.items line
            + (if is_minus then weight else 0)) }
    {
        self.counts[line as usize] += if is_marked { 1 } else { 0 };
        self.sums[line as usize] += weight;
        self.minus_sums[line as usize] += if is_minus { weight } else { 0 };
    }
}

// The weight of each marked line, and 0 for the others.
fn weights_of(alloc: Global, marks: &[bool]) -> Result<Vec<u64>, Memory>
    requires { length marks.now ≤ MAX_ROWS }
    ensures { IfOk result (λ weights. AreWeights marks.now weights.items) }
{
    let mut weights = Vec::with_capacity(alloc, marks.len())?;
    'lines: for line in 0..marks.len() {
        weights.push(weight_if(marks[line], line as u32))?;
    }
    Ok(weights)
}

fn weight_if(counts: bool, number: u32) -> u64
    requires { number < MAX_ROWS }
    ensures value { result ≡ (if counts then weight number else 0) }
    ensures small { result ≤ MAX_ROWS ^ 5 }
{
    if counts { weight(number) } else { 0 }
}
