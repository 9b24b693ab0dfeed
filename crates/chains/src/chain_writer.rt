// Writes chain texts.
ghost use Rattle.std.specs.Prelude.{◌≡◌, ◌≤◌, ◌<◌, ◌+◌, ◌*◌, ◌∷◌, [], false, codes, fold, length, map, Ok, OnOk, IfOk};
ghost use Rattle.std.specs.List.{AllByRecursion};
ghost use Rattle.cmr_base.specs.LineSets.{AllBelow};
ghost use Rattle.text_fields.specs.TextWords.{text_of};
ghost use Rattle.text_fields.specs.Written.{with_word, with_line};
ghost use Rattle.chains.specs.ChainTexts.{AreLinesIn, AreIncreasing, IsIncreasingStep, IsStepIn, chain as chain_in, chain_text, line_set_words, number_of_line, step_words};

use crate::step::{Chain, SignStep};
use cmr_base::{Indices, LineSet, MAX_COLUMNS, MAX_ROWS, Memory};
use std::alloc::Global;
use text_fields::Writer;

/// The canonical text of a chain for a matrix of these sizes.
pub fn write_chain(alloc: Global, chain: &Chain, rows: u32, columns: u32) -> Result<Vec<u8>, Memory>
    requires rows { rows ≤ MAX_ROWS }
    requires columns { columns ≤ MAX_COLUMNS }
    requires few { length chain.now.steps ≤ rows * columns }
    requires steps { AllByRecursion (IsStepIn rows columns) chain.now.steps }
    requires violator { AreLinesIn rows columns chain.now.violator }
    ensures text { IfOk result (λ v. v.items ≡ chain_text (record {
      chain = chain.now;
      rows = rows;
      columns = columns;
    })) }
    // Reading gives the same chain.
    ensures again { IfOk result (λ v. chain_in (text_of v.items)
        ≡ Ok (record { chain = chain.now; rows = rows; columns = columns })) }
{
    let steps = chain.steps.as_slice();
    let mut text = Writer::new(alloc);
    text.word(b"cmr-chain".as_slice())?;
    text.word(b"1".as_slice())?;
    text.end_line()?;
    text.numbers(&[rows, columns, steps.len() as u32])?;
    write_steps(&mut text, steps, rows, columns)?;
    write_violator(&mut text, &chain.violator, rows, columns)?;
    Ok(text.into_bytes())
}

fn write_steps(text: &mut Writer, steps: &[SignStep], rows: u32, columns: u32) -> Result<(), Memory>
    requires rows { rows ≤ MAX_ROWS }
    requires columns { columns ≤ MAX_COLUMNS }
    requires steps { AllByRecursion (IsStepIn rows columns) steps.now }
    requires at_start { text.old.is_begun ≡ false }
    ensures lines { OnOk result (text.new ≡ fold with_line text.old (map step_words steps.now)) }
    ensures at_start { OnOk result (text.new.is_begun ≡ false) }
    ensures increasing { OnOk result (AllByRecursion IsIncreasingStep steps.now) }
{
    for step in steps {
        write_step(text, step, rows, columns)?;
    }
    Ok(())
}

fn write_step(text: &mut Writer, step: &SignStep, rows: u32, columns: u32) -> Result<(), Memory>
    requires rows { rows ≤ MAX_ROWS }
    requires columns { columns ≤ MAX_COLUMNS }
    requires step { IsStepIn rows columns step.now }
    requires at_start { text.old.is_begun ≡ false }
    ensures line { OnOk result (text.new ≡ with_line text.old (step_words step.now)) }
    ensures increasing { OnOk result (IsIncreasingStep step.now) }
{
    put_step(text, step, rows, columns)?;
    text.end_line()
}

fn put_step(text: &mut Writer, step: &SignStep, rows: u32, columns: u32) -> Result<(), Memory>
    requires rows { rows ≤ MAX_ROWS }
    requires columns { columns ≤ MAX_COLUMNS }
    requires step { IsStepIn rows columns step.now }
    ensures words { OnOk result (text.new ≡ fold with_word text.old (step_words step.now)) }
    ensures increasing { OnOk result (IsIncreasingStep step.now) }
{
    match step {
        SignStep::Free { row, column } => put_place(text, b"free".as_slice(), *row, *column),
        SignStep::Forced { row, column, cycle } => {
            put_place(text, b"forced".as_slice(), *row, *column)?;
            put_line_set(text, cycle, rows, columns)
        }
    }
}

// A word, and the numbers of a row and of a column.
fn put_place(text: &mut Writer, word: &[u8], row: u32, column: u32) -> Result<(), Memory>
    requires row { row < MAX_ROWS }
    requires column { column < MAX_COLUMNS }
    ensures { OnOk result (text.new ≡ fold with_word text.old (word.now ∷ number_of_line row
        ∷ number_of_line column ∷ [])) }
{
    text.word(word)?;
    text.number(row + 1)?;
    text.number(column + 1)
}

fn write_violator(text: &mut Writer, lines: &LineSet, rows: u32, columns: u32) -> Result<(), Memory>
    requires rows { rows ≤ MAX_ROWS }
    requires columns { columns ≤ MAX_COLUMNS }
    requires lines { AreLinesIn rows columns lines.now }
    requires at_start { text.old.is_begun ≡ false }
    ensures line { OnOk result (text.new ≡ with_line text.old (codes "violator"
        ∷ line_set_words lines.now)) }
    ensures increasing { OnOk result (AreIncreasing lines.now) }
{
    text.word(b"violator".as_slice())?;
    put_line_set(text, lines, rows, columns)?;
    text.end_line()
}

fn put_line_set(text: &mut Writer, lines: &LineSet, rows: u32, columns: u32) -> Result<(), Memory>
    requires rows { rows ≤ MAX_ROWS }
    requires columns { columns ≤ MAX_COLUMNS }
    requires lines { AreLinesIn rows columns lines.now }
    ensures words { OnOk result (text.new ≡ fold with_word text.old (line_set_words lines.now)) }
    ensures increasing { AreIncreasing lines.now }
{
    let row_count = lines.rows.len() as u32;
    let column_count = lines.columns.len() as u32;
    text.number(row_count)?;
    text.number(column_count)?;
    put_lines(text, &lines.rows)?;
    put_lines(text, &lines.columns)
}

fn put_lines(text: &mut Writer, lines: &Indices) -> Result<(), Memory>
    requires { AllBelow MAX_ROWS lines.now }
    ensures { OnOk result (text.new ≡ fold with_word text.old (map number_of_line lines.now)) }
{
    for line in lines.as_slice() {
        text.number(*line + 1)?;
    }
    Ok(())
}
