//! The search for column sets in a matrix of at most 64 columns: a row is one word.

ghost use Rattle.std.specs.Prelude.{◌≡◌, ◌<◌, ◌≤◌, ◌^◌, true, false, IfOk, IfSome, IfNone, OnOk, length, slice_index_or};
ghost use Rattle.cmr_base.specs.Matrix.{height, IsMatrix};
ghost use Rattle.cmr_base.specs.LineSets.{AllBelow};
ghost use Rattle.cmr_base.specs.Violator.{HasNoColumnSet};
ghost use Rattle.parity.specs.GivenColumns.{HasLeastColumnSet};
ghost use Rattle.parity.specs.Equations.{AreCleared, AreReduced, IsLowest, cleared_by};
ghost use Rattle.parity.specs.PlaneSums.{AreSums, equations_of, without_columns};

use cmr_base::{Matrix, Memory};

/// An equation with its pivot, which is one of its columns.
#[derive(Clone, Copy)]
pub struct Equation {
    pub pivot: u32,
    pub columns: u64,
}

// The sum of each column over some rows, modulo 4: its low bit and its high bit.
#[derive(Clone, Copy)]
struct Residues {
    ones: u64,
    twos: u64,
}

/// Decides whether some column set makes a violator with exactly these rows. `words` is room for the search.
pub fn has_column_set(matrix: &Matrix, rows: &[u32], words: &mut Vec<u64>) -> Result<bool, Memory>
    requires rows { AllBelow (height matrix.now) rows.now }
    requires columns { 0 < matrix.now.width }
    requires narrow { matrix.now.width ≤ 64 }
    requires shape { IsMatrix matrix.now }
    ensures yes { IfOk result (λ has. has ≡ true → HasLeastColumnSet matrix.now rows.now) }
    ensures no { IfOk result (λ has. has ≡ false → HasNoColumnSet matrix.now rows.now) }
{
    let sums = sum_rows(matrix, rows);
    let halves = without(sums.twos, sums.ones);
    if halves == 0 {
        return Ok(false);
    }
    write_equations(matrix, rows, sums.ones, words)?;
    words.push(halves)?;
    match lowest(eliminate(words, rows.len())) {
        Some(_free) => Ok(true),
        None => Ok(false),
    }
}

// Gives the sum of the rows in each column.
fn sum_rows(matrix: &Matrix, rows: &[u32]) -> Residues
    requires rows { AllBelow (height matrix.now) rows.now }
    requires columns { 0 < matrix.now.width }
    requires narrow { matrix.now.width ≤ 64 }
    requires shape { IsMatrix matrix.now }
    ensures sums { AreSums matrix.now rows.now result.ones result.twos }
    ensures small { result.twos < 2 ^ matrix.now.width }
{
    let mut ones = 0u64;
    let mut twos = 0u64;
    for row in rows {
        let support = matrix.support_word(*row, 0);
        twos ^= (ones & support) ^ matrix.minus_word(*row, 0);
        ones ^= support;
    }
    Residues { ones, twos }
}

// Writes the equation of each row: the chosen columns contain an even number of the row's nonzeros. No column with an
// odd sum is chosen.
fn write_equations(
    matrix: &Matrix,
    rows: &[u32],
    ones: u64,
    words: &mut Vec<u64>,
) -> Result<(), Memory>
    requires rows { AllBelow (height matrix.now) rows.now }
    requires columns { 0 < matrix.now.width }
    requires narrow { matrix.now.width ≤ 64 }
    requires shape { IsMatrix matrix.now }
    ensures { OnOk result (words.new.items ≡ equations_of matrix.now ones rows.now) }
{
    words.clear();
    for row in rows {
        words.push(without(matrix.support_word(*row, 0), ones))?;
    }
    Ok(())
}

// Reduces the words after the first `count` words by a basis of these, and gives the first reduced word.
fn eliminate(words: &mut [u64], count: usize) -> u64
    requires { count < length words.old }
    ensures reduced { AreReduced count words.old words.new }
    ensures next { result ≡ slice_index_or words.new count 0 }
{
    for place in 0..count {
        clear_later(words, place);
    }
    words[count]
}

// Adds a word to the words after it that contain its least column.
fn clear_later(words: &mut [u64], place: usize)
    requires { place < length words.old }
    ensures len { length words.new ≡ length words.old }
    ensures cleared { AreCleared place words.old words.new }
{
    let columns = words[place];
    let Some(pivot) = lowest(columns) else {
        return;
    };
    let equation = Equation { pivot, columns };
    for later in place + 1..words.len() {
        words[later] = cleared_by(equation, words[later]);
    }
}

// Adds the equation to the columns if they contain its pivot. The condition is unpredictable, so the code has no
// branch.
fn cleared_by(equation: Equation, columns: u64) -> u64
    requires { equation.pivot < 64 }
    ensures { result ≡ cleared_by equation columns }
{
    columns ^ (equation.columns * ((columns >> equation.pivot) & 1))
}

// The columns that are not among the others.
fn without(columns: u64, others: u64) -> u64
    ensures { result ≡ without_columns others columns }
{
    columns ^ (columns & others)
}

// The least of the columns, and `None` if there is none.
fn lowest(columns: u64) -> Option<u32>
    ensures some { IfSome result (IsLowest columns) }
    ensures inside { IfSome result (λ column. column < 64) }
    ensures none { IfNone result (columns ≡ 0) }
{
    if columns == 0 {
        None
    } else {
        Some(columns.trailing_zeros())
    }
}
