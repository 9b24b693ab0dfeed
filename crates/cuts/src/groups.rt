// Groups of lines that cuts keep together.
ghost use Rattle.std.specs.Prelude.{◌≡◌, ◌<◌, ◌≤◌, ◌+◌, ◌-◌, ◌↔◌, ℕ, length, slice_index_or, true, cond, IsTrue, IfOk};
ghost use Rattle.cmr_base.specs.ColumnSets.{has_column};
ghost use Rattle.cmr_base.specs.LineMasks.{as_set, IsMask, IsMaskOf};
ghost use Rattle.cmr_base.specs.Matrix.{Matrix, height};
ghost use Rattle.cmr_base.specs.Seeds.{IsLine};
ghost use Rattle.cmr_base.specs.declared.line.Line.{Line};
ghost use Rattle.cuts.specs.Covers.{GetName};
ghost use Rattle.cuts.specs.LineCuts.{name_of};

use cmr_base::{BitSet, Line, LineMask, MAX_COLUMNS, MAX_ROWS, Memory, own_labels};
use std::alloc::Global;

/// A name for the group of each line, rows first.
#[derive(Drop)]
pub struct Groups {
    names: Vec<u32>,
}

impl Groups {
    /// Each line of a matrix with these numbers of rows and columns is a group.
    pub fn new(alloc: Global, rows: u32, columns: u32) -> Result<Groups, Memory>
        requires rows { rows ≤ MAX_ROWS }
        requires columns { columns ≤ MAX_COLUMNS }
        ensures names { IfOk result (λ groups. length groups.names.items ≡ rows + columns) }
        ensures apart { IfOk result (λ groups. (k : ℕ) → k < rows + columns
            → slice_index_or groups.names.items k 0 ≡ k) }
    {
        let names = own_labels(alloc, rows + columns)?;
        Ok(Groups { names })
    }

    /// Whether two lines are in one group.
    pub fn are_one(&self, one: u32, two: u32) -> bool
        requires one { one < length self.now.names.items }
        requires two { two < length self.now.names.items }
        ensures { IsTrue result
            ↔ (slice_index_or self.now.names.items one 0
            ≡ slice_index_or self.now.names.items two 0) }
    {
        self.names[one as usize] == self.names[two as usize]
    }

    /// Whether all lines are in one group.
    pub fn are_all_one(&self) -> bool
        ensures { result ≡ true → (k l : ℕ) → k < length self.now.names.items
            → l < length self.now.names.items
            → slice_index_or self.now.names.items k 0 ≡ slice_index_or self.now.names.items l 0 }
    {
        for line in 0..self.names.len() {
            if self.names[line] != self.names[0] {
                return false;
            }
        }
        true
    }

    /// The name of a line's group, in a matrix of this number of rows.
    pub fn name(&self, rows: u32, line: Line) -> u32
        requires rows { rows ≤ length self.now.names.items }
        requires line { IsLine rows (length self.now.names.items - rows) line }
        ensures { (m : Matrix) → height m ≡ rows → result ≡ name_of m self.now line }
    {
        match line {
            Line::Row(row) => self.names[row as usize],
            Line::Column(column) => self.names[rows as usize + column as usize],
        }
    }

    /// The lines of a name, in a matrix with these numbers of rows and columns.
    pub fn lines(
        &self,
        alloc: Global,
        rows: u32,
        columns: u32,
        name: u32,
    ) -> Result<LineMask, Memory>
        requires rows { rows ≤ MAX_ROWS }
        requires columns { columns ≤ MAX_COLUMNS }
        requires names { length self.now.names.items ≡ rows + columns }
        ensures size { IfOk result (IsMask rows columns) }
        ensures named { IfOk result (λ lines. (m : Matrix) → height m ≡ rows → (x : Line)
            → as_set lines x ≡ true → name_of m self.now x ≡ name) }
    {
        Ok(LineMask {
            rows: lines_named(alloc, &self.names, 0, rows, name)?,
            columns: lines_named(alloc, &self.names, rows, columns, name)?,
        })
    }

    /// Gives the name of a line to all lines that are not in `separated`.
    pub fn rename(&mut self, line: Line, separated: &LineMask)
        requires names { length self.old.names.items
            ≡ separated.now.rows.size + separated.now.columns.size }
        requires line { IsLine separated.now.rows.size separated.now.columns.size line }
        ensures size { length self.new.names.items ≡ length self.old.names.items }
        ensures get { (m : Matrix) → IsMaskOf m separated.now
            → GetName m self.old self.new (as_set separated.now) line }
    {
        let rows = separated.rows.size();
        let name = self.name(rows, line);
        rename_others(&mut self.names, 0, &separated.rows, name);
        rename_others(&mut self.names, rows, &separated.columns, name);
    }
}

// The lines with a name, among `count` lines. The name of line k is at position `from` + k.
fn lines_named(
    alloc: Global,
    names: &[u32],
    from: u32,
    count: u32,
    name: u32,
) -> Result<BitSet, Memory>
    requires from { from ≤ MAX_ROWS }
    requires count { count ≤ MAX_COLUMNS }
    requires names { from + count ≤ length names.now }
    ensures size { IfOk result (λ lines. lines.size ≡ count) }
    ensures named { IfOk result (λ lines. (x : ℕ) → has_column lines.words x ≡ true
        → slice_index_or names.now (from + x) 0 ≡ name) }
{
    let mut lines = BitSet::new(alloc, count)?;
    for line in 0..count {
        if names[(from + line) as usize] == name {
            lines.insert(line);
        }
    }
    Ok(lines)
}

// Gives a name to the lines that are not in `kept`. The name of line k is at position `from` + k.
fn rename_others(names: &mut Vec<u32>, from: u32, kept: &BitSet, name: u32)
    requires from { from ≤ MAX_ROWS }
    requires names { from + kept.now.size ≤ length names.old.items }
    ensures size { length names.new.items ≡ length names.old.items }
    ensures lines { (x : ℕ) → x < kept.now.size
        → slice_index_or names.new.items (from + x) 0
        ≡ cond (has_column kept.now.words x) (slice_index_or names.old.items (from + x) 0) name }
    ensures before { (k : ℕ) → k < from
        → slice_index_or names.new.items k 0 ≡ slice_index_or names.old.items k 0 }
    ensures after { (k : ℕ) → from + kept.now.size ≤ k
        → slice_index_or names.new.items k 0 ≡ slice_index_or names.old.items k 0 }
{
    for line in 0..kept.size() {
        if !kept.has(line) {
            names[(from + line) as usize] = name;
        }
    }
}
