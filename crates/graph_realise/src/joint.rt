// A row and the parts of the other rows.
ghost use Rattle.std.specs.Prelude.{◌≡◌, ◌<◌, ◌≤◌, ◌⊎◌, ◌↔◌, ◌||◌, true, false, ℕ, Some, None, IfOk, IsTrue, length};
ghost use Rattle.cmr_base.specs.LineSets.{AllBelow};
ghost use Rattle.std.specs.List.Sorted.{IsStrictlyIncreasing};
ghost use Rattle.cmr_base.specs.Matrix.{height, IsMatrix};
ghost use Rattle.cmr_base.specs.Members.{IsIn};
ghost use Rattle.cmr_base.specs.Trees.{support};
ghost use Rattle.cmr_base.specs.ColumnSets.{has_column};
ghost use Rattle.graph_realise.specs.Joints.{AreColumnsOfParts, AreInRows, ArePartMarks, AreNumbered, IsJointOf, IsPartNumber, IsSetOfPart, number_at};
ghost use Rattle.graph_realise.specs.RowNumbers.{AreDisjoint};
ghost use Rattle.graph_realise.specs.BitTables.{AreChunksOf};

use crate::branches::{Branch, branches_at};
use crate::table::Table;
use cmr_base::{
    BitSet, Indices, MAX_ROWS, Matrix, Memory, PartList, SideList, columns_of, words_for,
};
use std::alloc::Global;

/// A row and the parts of the other rows: the part of each row, the branch of each part, and for each column in which the row
/// is 0 the part with its nonzeros. The chunks are the chunks of 64 columns in which the row is not 0. The tables have a line
/// for each part, which marks its rows and these columns.
#[derive(Debug, Drop)]
pub struct Joint {
    pub row: u32,
    pub part_of: Vec<Option<usize>>,
    pub branches: Vec<Branch>,
    pub part_with: Vec<Option<usize>>,
    pub row_chunks: Indices,
    pub row_marks: Table,
    pub column_marks: Table,
}

impl Joint {
    /// The parts of the rows without `row`, each with its end of the row's arc: 1 for the first end and 0 for the last.
    pub fn new(
        alloc: Global,
        matrix: &Matrix,
        row: u32,
        parts: &PartList,
        ends: &SideList,
    ) -> Result<Joint, Memory>
        requires row { row < height matrix.now }
        requires parts { AreInRows (height matrix.now) parts.now }
        requires few { length parts.now ≤ height matrix.now }
        requires disjoint { AreDisjoint parts.now }
        requires ends { length ends.now ≡ length parts.now }
        ensures shape { IsMatrix matrix.now }
        ensures joint { IfOk result (IsJointOf (support matrix.now) (height matrix.now)
            matrix.now.width row parts.now ends.now) }
    {
        let part_of = parts_of_rows(alloc, matrix, parts)?;
        let columns = columns_of_parts(alloc, matrix, parts)?;
        let part_with = parts_with_columns(alloc, matrix, row, parts, &columns)?;
        let branches = branches_at(alloc, matrix, row, parts, &columns, ends)?;
        let row_chunks = chunks_of_row(alloc, matrix, row)?;
        let row_marks = marks_of(alloc, &part_of, parts.len())?;
        let column_marks = marks_of(alloc, &part_with, parts.len())?;
        Ok(Joint {
            row,
            part_of,
            branches,
            part_with,
            row_chunks,
            row_marks,
            column_marks,
        })
    }

    /// The row with a part.
    pub fn rows_with(&self, alloc: Global, part: usize) -> Result<Indices, Memory>
        requires few { length self.now.part_of.items ≤ MAX_ROWS }
        requires row { self.now.row < length self.now.part_of.items }
        ensures increasing { IfOk result IsStrictlyIncreasing }
        ensures rows { IfOk result (λ rows. (x : ℕ) → IsIn x rows
            ↔ ((x ≡ self.now.row) ⊎ (number_at self.now.part_of.items x ≡ Some part))) }
    {
        let mut rows = Indices::new(alloc);
        for row in 0..self.part_of.len() as u32 {
            if self.is_with(row, part) {
                rows.push(row)?;
            }
        }
        Ok(rows)
    }

    // Whether `other` is the row itself or a row of the part.
    fn is_with(&self, row: u32, part: usize) -> bool
        requires { row < length self.now.part_of.items }
        ensures { IsTrue result
            ↔ ((row ≡ self.now.row) ⊎ (number_at self.now.part_of.items row ≡ Some part)) }
    {
        row == self.row || self.part_of[row as usize] == Some(part)
    }
}

// The number of the part of each row.
fn parts_of_rows(
    alloc: Global,
    matrix: &Matrix,
    parts: &PartList,
) -> Result<Vec<Option<usize>>, Memory>
    requires parts { AreInRows (height matrix.now) parts.now }
    requires disjoint { AreDisjoint parts.now }
    ensures shape { IsMatrix matrix.now }
    ensures size { IfOk result (λ numbers. length numbers.items ≡ height matrix.now) }
    ensures numbered { IfOk result (λ numbers.
        AreNumbered parts.now (length parts.now) numbers.items) }
{
    let mut numbers = vec![in alloc; None; matrix.rows() as usize]?;
    for place in 0..parts.len() {
        number_rows(&mut numbers, parts.get(place), place);
    }
    Ok(numbers)
}

fn number_rows(numbers: &mut Vec<Option<usize>>, part: &Indices, number: usize)
    requires { AllBelow (length numbers.old.items) part.now }
    ensures size { length numbers.new.items ≡ length numbers.old.items }
    ensures inside { (row : ℕ) → IsIn row part.now → number_at numbers.new.items row ≡ Some number }
    ensures outside { (row : ℕ) → ¬ (IsIn row part.now)
        → number_at numbers.new.items row ≡ number_at numbers.old.items row }
{
    for row in part.as_slice() {
        numbers[*row as usize] = Some(number);
    }
}

// The columns of each part.
fn columns_of_parts(alloc: Global, matrix: &Matrix, parts: &PartList) -> Result<Vec<BitSet>, Memory>
    requires { AreInRows (height matrix.now) parts.now }
    ensures { IfOk result (λ sets. AreColumnsOfParts (support matrix.now) matrix.now.width parts.now
        (length parts.now) sets.items) }
{
    let mut sets = Vec::new(alloc);
    for place in 0..parts.len() {
        let columns = columns_of_part(alloc, matrix, parts.get(place))?;
        sets.push(columns)?;
    }
    Ok(sets)
}

// The columns in which some row of the part is not 0.
fn columns_of_part(alloc: Global, matrix: &Matrix, part: &Indices) -> Result<BitSet, Memory>
    requires { AllBelow (height matrix.now) part.now }
    ensures { IfOk result (IsSetOfPart (support matrix.now) matrix.now.width part.now) }
{
    let mut columns = BitSet::new(alloc, matrix.columns())?;
    for row in part.as_slice() {
        columns.add_words(columns_of(matrix, *row));
    }
    Ok(columns)
}

// For each column in which `row` is 0 the part with its nonzeros.
fn parts_with_columns(
    alloc: Global,
    matrix: &Matrix,
    row: u32,
    parts: &PartList,
    sets: &[BitSet],
) -> Result<Vec<Option<usize>>, Memory>
    requires row { row < height matrix.now }
    requires sets { AreColumnsOfParts (support matrix.now) matrix.now.width parts.now
        (length parts.now) sets.now }
    ensures size { IfOk result (λ numbers. length numbers.items ≡ matrix.now.width) }
    ensures parts { IfOk result (λ numbers. (column : ℕ)
        → IsPartNumber (support matrix.now) row parts.now (length parts.now) column
        (number_at numbers.items column)) }
{
    let mut numbers = no_numbers(alloc, matrix.columns())?;
    let mut columns = BitSet::new(alloc, matrix.columns())?;
    for place in 0..parts.len() {
        columns.clear();
        columns.add_outside_words(&sets[place], columns_of(matrix, row));
        number_columns(&columns, Some(place), &mut numbers);
    }
    Ok(numbers)
}

// The chunks of 64 columns in which a row is not 0.
fn chunks_of_row(alloc: Global, matrix: &Matrix, row: u32) -> Result<Indices, Memory>
    requires { row < height matrix.now }
    ensures { IfOk result (AreChunksOf (support matrix.now row) matrix.now.width) }
{
    let mut chunks = Indices::new(alloc);
    for chunk in 0..words_for(matrix.columns()) as u32 {
        if matrix.support_word(row, chunk) != 0 {
            chunks.push(chunk)?;
        }
    }
    Ok(chunks)
}

// No number for each of these columns.
fn no_numbers(alloc: Global, columns: u32) -> Result<Vec<Option<usize>>, Memory>
    ensures size { IfOk result (λ numbers. length numbers.items ≡ columns) }
    ensures none { IfOk result (λ numbers. (column : ℕ) → number_at numbers.items column ≡ None) }
{
    Ok(vec![in alloc; None; columns as usize]?)
}

// Gives the columns of a set one number.
fn number_columns(columns: &BitSet, number: Option<usize>, numbers: &mut Vec<Option<usize>>)
    requires { columns.now.size ≡ length numbers.old.items }
    ensures size { length numbers.new.items ≡ length numbers.old.items }
    ensures inside { (column : ℕ) → has_column columns.now.words column ≡ true
        → number_at numbers.new.items column ≡ number }
    ensures outside { (column : ℕ) → has_column columns.now.words column ≡ false
        → number_at numbers.new.items column ≡ number_at numbers.old.items column }
{
    let _size = columns.size();
    let mut from = 0;
    while let Some(column) = columns.next(from) {
        numbers[column as usize] = number;
        from = column + 1;
    }
}

// For each part the lines that have its number.
fn marks_of(alloc: Global, numbers: &[Option<usize>], count: usize) -> Result<Table, Memory>
    requires few { count ≤ MAX_ROWS }
    requires lines { length numbers.now ≤ MAX_ROWS }
    requires numbers { (line part : ℕ) → number_at numbers.now line ≡ Some part → part < count }
    ensures { IfOk result (ArePartMarks numbers.now count) }
{
    let mut marks = Table::new(alloc, count as u32, numbers.len() as u32)?;
    for line in 0..numbers.len() {
        if let Some(part) = numbers[line] {
            marks.set(part as u32, line as u32, true);
        }
    }
    Ok(marks)
}
