// Reads chain texts.
ghost use Rattle.std.specs.Prelude.{◌≡◌, ◌≤◌, ◌<◌, ◌*◌, ◌-◌, IfOk, []};
ghost use Rattle.cmr_base.specs.declared.line_set.LineSet.{LineSet};
ghost use Rattle.text_fields.specs.TextWords.{text_of};
ghost use Rattle.text_fields.specs.Reading.{field, times, Gives, Reads};
ghost use Rattle.text_fields.specs.Result.{renamed};
ghost use Rattle.chains.specs.declared.chain_error.ChainKind.TheVariants.{Short};
ghost use Rattle.chains.specs.ChainKinds.{chain_kind};
ghost use Rattle.chains.specs.ChainTexts.{limited, line_in, increasing_line_in, word_in, step_name_in, increasing_lines, line_set, step_of, next_step, another_step, chain};

use crate::chain_error::{ChainError, ChainKind};
use crate::step::{Chain, SignStep, SignStepList, SizedChain};
use cmr_base::{Indices, LineSet, MAX_COLUMNS, MAX_ROWS};
use std::alloc::Global;
use text_fields::{LimitFault, Words, at_place, increasing_line_in, limited, line_in};

/// The name of a step.
#[derive(Clone, Copy)]
pub enum StepName {
    Free,
    Forced,
}

/// The chain that a text represents, or the text's first fault: its kind, and the byte at which its word begins, or the text's
/// length if a word is missing. The text contains the version, the sizes, the number of steps, the steps and the violator, in
/// this order. Line numbers are counted from 1.
pub fn read_chain(alloc: Global, bytes: &[u8]) -> Result<SizedChain, ChainError>
    ensures { Gives (λ chain. chain) result (chain (text_of bytes.now)) }
{
    let mut words = Words::new(bytes);
    word(&mut words, b"cmr-chain".as_slice(), ChainKind::WrongVersion)?;
    word(&mut words, b"1".as_slice(), ChainKind::WrongVersion)?;
    let rows = size(&mut words, MAX_ROWS)?;
    let columns = size(&mut words, MAX_COLUMNS)?;
    let count = size(&mut words, rows * columns)?;
    let steps = steps(alloc, &mut words, rows, columns, count)?;
    word(&mut words, b"violator".as_slice(), ChainKind::UnknownStep)?;
    let violator = line_set(alloc, &mut words, rows, columns)?;
    words.end(ChainKind::Extra)?;
    Ok(SizedChain {
        chain: Chain { steps, violator },
        rows,
        columns,
    })
}

fn steps(
    alloc: Global,
    words: &mut Words<'_>,
    rows: u32,
    columns: u32,
    count: u32,
) -> Result<SignStepList, ChainError>
    requires rows { rows ≤ MAX_ROWS }
    requires columns { columns ≤ MAX_COLUMNS }
    ensures { Reads (λ steps. steps) words.new result
        (times (another_step rows columns) count [] words.old) }
{
    let mut steps = SignStepList::new(alloc);
    for _ in 0..count {
        steps.push(next_step(alloc, words, rows, columns)?)?;
    }
    Ok(steps)
}

fn next_step(
    alloc: Global,
    words: &mut Words<'_>,
    rows: u32,
    columns: u32,
) -> Result<SignStep, ChainError>
    ensures { Reads (λ step. step) words.new result (next_step rows columns words.old) }
{
    let name = step_name(words)?;
    let row = line(words, rows)?;
    let column = line(words, columns)?;
    step(alloc, words, name, row - 1, column - 1, rows, columns)
}

fn step(
    alloc: Global,
    words: &mut Words<'_>,
    name: StepName,
    row: u32,
    column: u32,
    rows: u32,
    columns: u32,
) -> Result<SignStep, ChainError>
    ensures { Reads (λ step. step) words.new result
        (step_of rows columns name row column words.old) }
{
    match name {
        StepName::Free => Ok(SignStep::Free { row, column }),
        StepName::Forced => {
            let cycle = line_set(alloc, words, rows, columns)?;
            Ok(SignStep::Forced { row, column, cycle })
        }
    }
}

fn line_set(
    alloc: Global,
    words: &mut Words<'_>,
    rows: u32,
    columns: u32,
) -> Result<LineSet, ChainError>
    ensures { Reads (λ lines. lines) words.new result (line_set rows columns words.old) }
{
    let row_count = size(words, rows)?;
    let column_count = size(words, columns)?;
    let rows = increasing_lines(alloc, words, rows, row_count)?;
    let columns = increasing_lines(alloc, words, columns, column_count)?;
    Ok(LineSet { rows, columns })
}

fn increasing_lines(
    alloc: Global,
    words: &mut Words<'_>,
    most: u32,
    count: u32,
) -> Result<Indices, ChainError>
    ensures { Reads (λ lines. lines) words.new result (increasing_lines most count words.old) }
{
    let mut lines = Indices::new(alloc);
    let mut before = 0;
    for _ in 0..count {
        let number = increasing_line(words, most, before)?;
        lines.push(number - 1)?;
        before = number;
    }
    Ok(lines)
}

fn word(words: &mut Words<'_>, expected: &[u8], other: ChainKind) -> Result<(), ChainError>
    ensures { Reads (λ x. x) words.new result (field Short (word_in expected.now other) words.old) }
{
    let (place, word) = words.due(ChainKind::Short)?;
    at_place(place, word_is(word, expected, other))
}

fn word_is(word: &[u8], expected: &[u8], other: ChainKind) -> Result<(), ChainKind>
    ensures { result ≡ word_in expected.now other word.now }
{
    if word == expected { Ok(()) } else { Err(other) }
}

fn step_name(words: &mut Words<'_>) -> Result<StepName, ChainError>
    ensures { Reads (λ x. x) words.new result (field Short step_name_in words.old) }
{
    let (place, word) = words.due(ChainKind::Short)?;
    at_place(place, step_name_in(word))
}

fn step_name_in(word: &[u8]) -> Result<StepName, ChainKind>
    ensures { result ≡ step_name_in word.now }
{
    if word == b"free".as_slice() {
        Ok(StepName::Free)
    } else if word == b"forced".as_slice() {
        Ok(StepName::Forced)
    } else {
        Err(ChainKind::UnknownStep)
    }
}

fn size(words: &mut Words<'_>, most: u32) -> Result<u32, ChainError>
    ensures read { Reads (λ n. n) words.new result (field Short (limited most) words.old) }
    ensures within { IfOk result (λ n. n ≤ most) }
{
    let (place, word) = words.due(ChainKind::Short)?;
    at_place(place, named(limited(word, most)))
}

fn line(words: &mut Words<'_>, most: u32) -> Result<u32, ChainError>
    ensures read { Reads (λ n. n) words.new result (field Short (line_in most) words.old) }
    ensures above { IfOk result (λ n. 0 < n) }
    ensures within { IfOk result (λ n. n ≤ most) }
{
    let (place, word) = words.due(ChainKind::Short)?;
    at_place(place, named(line_in(word, most)))
}

fn increasing_line(words: &mut Words<'_>, most: u32, before: u32) -> Result<u32, ChainError>
    ensures read { Reads (λ n. n) words.new result
        (field Short (increasing_line_in most before) words.old) }
    ensures above { IfOk result (λ n. before < n) }
    ensures within { IfOk result (λ n. n ≤ most) }
{
    let (place, word) = words.due(ChainKind::Short)?;
    at_place(place, named(increasing_line_in(word, most, before)))
}

// A number within limits, with its fault as a fault of chain texts.
fn named(parsed: Result<u32, LimitFault>) -> Result<u32, ChainKind>
    ensures { result ≡ renamed chain_kind parsed }
{
    Ok(parsed?)
}
