//! Sums of two matrices.
ghost use Rattle.clap.specs.Words.{app_of, found_of, rows_of};
ghost use Rattle.std.specs.Prelude.{◌≡◌, IfOk, false};
ghost use Rattle.cmr_base.specs.Matrix.{IsMatrix};
ghost use Rattle.cmr_front.specs.MatrixText.{matrix_in};
ghost use Rattle.cmr_front.specs.Outcome.{outcome_report};
ghost use Rattle.cmr_front.specs.Texts.{ReportsText};
ghost use Rattle.cmr_front.specs.Tool.{IsDecision};
ghost use Rattle.cmr_front.specs.Words.ReadWords.{Gives};
ghost use Rattle.cmr_front.specs.declared.outcome.FaultKind.TheVariants as faults;
ghost use Rattle.cmr_front.specs.declared.status.Answer.{Answer};
ghost use Rattle.cmr_reach.specs.Compose.{ComposeDecides, ComposeReports, IsComposition, compose_app, compose_order, compose_order_in, compose_order_of, compose_tool, composed_line, composed_report, obstacle_name, obstacle_report, sum_in};

use clap::{ArgMatches, Command};
use cmr_base::{MAX_COLUMNS, MAX_ROWS, Matrix, Memory, Word};
use cmr_front::input::{Input, InputKind, Text};
use cmr_front::matrix_file::{MatrixForm, matrix_input, read_matrix};
use cmr_front::outcome::{Outcome, OutputFile, Stop};
use cmr_front::status::Answer;
use cmr_front::tool::Tool;
use cmr_front::words::arguments::OUTPUT;
use cmr_front::words::parsing::{form_in, matches_in, operand_in, value_in};
use cmr_front::words::{WordsError, arguments};
pub use compose::SumKind;
use compose::{SumError, sum_of};
use itoa::Buffer;
use matrix_text::write_dense;
use std::alloc::{AllocError, Global};
use std::thread::Threads;

/// The options of `compose`. An input file of the name `-` is standard input.
#[derive(Clone, Copy, Debug, PartialEq, Eq)]
pub struct ComposeOptions<'a> {
    /// The form of both matrix texts.
    pub form: MatrixForm,
    /// The sum that is made.
    pub sum: SumKind,
    /// The file that holds the text of the first matrix.
    pub first: &'a str,
    /// The file that holds the text of the second matrix.
    pub second: &'a str,
    /// The file that gets the sum.
    pub output: &'a str,
}

// The ids of the operands.
const SUM: &str = "sum";

const FIRST: &str = "first";

const SECOND: &str = "second";

fn compose_command<'a>(alloc: Global) -> Result<Command<'a>, AllocError>
    ensures { IfOk result (λ c. app_of c ≡ compose_app) }
{
    let args = vec![in alloc;
        arguments::form_option(alloc),
        arguments::operand(alloc, SUM),
        arguments::operand(alloc, FIRST),
        arguments::operand(alloc, SECOND),
        arguments::required(arguments::output_option(alloc)),
    ]?;
    arguments::tool_command(alloc, "compose", args)
}

fn sum_in(matches: &ArgMatches<'_>) -> Result<SumKind, WordsError>
    ensures { Gives (λ sum. sum) result (sum_in (rows_of (found_of matches.now))) }
{
    match value_in(matches, SUM) {
        Some("one") => Ok(SumKind::One),
        Some("two") => Ok(SumKind::Two),
        Some("delta") => Ok(SumKind::Delta),
        Some("y") => Ok(SumKind::YForm),
        Some("mixed") => Ok(SumKind::Mixed),
        Some("concentrated") => Ok(SumKind::Concentrated),
        Some(_) | None => Err(WordsError::Refused),
    }
}

fn options_in<'a>(matches: &ArgMatches<'a>) -> Result<ComposeOptions<'a>, WordsError>
    ensures { Gives compose_order_of result (compose_order_in (rows_of (found_of matches.now))) }
{
    let form = form_in(matches)?;
    let sum = sum_in(matches)?;
    let first = operand_in(matches, FIRST)?;
    let second = operand_in(matches, SECOND)?;
    let output = operand_in(matches, OUTPUT)?;
    Ok(ComposeOptions {
        form,
        sum,
        first,
        second,
        output,
    })
}

/// The options that the arguments after `compose` give: `[-i FORMAT] SUM FIRST SECOND -M FILE`.
pub fn read_compose<'a>(alloc: Global, words: &'a [Word]) -> Result<ComposeOptions<'a>, WordsError>
    ensures { Gives compose_order_of result (compose_order words.now) }
{
    let matches = matches_in(compose_command(alloc)?, words)?;
    options_in(&matches)
}

impl<'a> Tool<'a> for ComposeOptions<'a> {
    ghost tool = { λ options. compose_tool (compose_order_of options) };

    fn inputs(&self, alloc: Global) -> Result<Vec<Input<'a>>, Memory> {
        let mut inputs = matrix_input(alloc, self.first)?;
        inputs.push(Input {
            name: self.second,
            kind: InputKind::MatrixText,
        })?;
        Ok(inputs)
    }

    fn decide<R: Threads + Sync>(
        &self,
        _rt: &R,
        alloc: Global,
        texts: &[Text],
    ) -> Result<Outcome<'a>, Stop<'a>> {
        decide_on(alloc, self, &texts[0].bytes, &texts[1].bytes)
    }

    fn lawful(&self) {}
}

fn decide_on<'a>(
    alloc: Global,
    options: &ComposeOptions<'a>,
    first: &[u8],
    second: &[u8],
) -> Result<Outcome<'a>, Stop<'a>>
    ensures { IsDecision
        (ComposeReports (compose_order_of options.now) first.now second.now)
        result }
{
    let first = read_matrix(alloc, options.first, options.form, false, first)?;
    decide_on_second(alloc, options, &first, second)
}

fn decide_on_second<'a>(
    alloc: Global,
    options: &ComposeOptions<'a>,
    first: &Matrix,
    second: &[u8],
) -> Result<Outcome<'a>, Stop<'a>>
    ensures { IsDecision
        (ReportsText faults.Matrix options.now.second.now
        (ComposeDecides (compose_order_of options.now) first.now)
        (matrix_in options.now.form false second.now))
        result }
{
    let second = read_matrix(alloc, options.second, options.form, false, second)?;
    Ok(compose_matrices(alloc, options, first, &second)?)
}

fn compose_matrices<'a>(
    alloc: Global,
    options: &ComposeOptions<'a>,
    first: &Matrix,
    second: &Matrix,
) -> Result<Outcome<'a>, Memory>
    ensures { IfOk result (λ outcome. ComposeDecides (compose_order_of options.now) first.now
        second.now (outcome_report outcome)) }
{
    match sum_or_obstacle(alloc, options.sum, first, second)? {
        Composition::Sum(sum) => composed(alloc, options.output, &sum),
        Composition::Without(obstacle) => refused(alloc, obstacle),
    }
}

/// The cause why two matrices have no sum.
#[derive(Clone, Copy, Debug, PartialEq, Eq)]
pub enum Obstacle {
    /// The sum would have more rows than a matrix may have.
    TooManyRows,
    /// The sum would have more columns than a matrix may have.
    TooManyColumns,
    /// The matrices do not have the connecting lines of the sum.
    BadConnector,
    /// An entry of the sum is not -1, 0 or 1.
    BadEntry,
}

/// The sum of two matrices, or the cause why there is none.
#[derive(Debug, Drop)]
pub enum Composition {
    Sum(Matrix),
    Without(Obstacle),
}

fn sum_or_obstacle(
    alloc: Global,
    kind: SumKind,
    first: &Matrix,
    second: &Matrix,
) -> Result<Composition, Memory>
    ensures { IfOk result (IsComposition kind first.now second.now) }
{
    if first.rows() + second.rows() > MAX_ROWS + kind.lost_rows() {
        return Ok(Composition::Without(Obstacle::TooManyRows));
    }
    if first.columns() + second.columns() > MAX_COLUMNS + kind.lost_columns() {
        return Ok(Composition::Without(Obstacle::TooManyColumns));
    }
    match sum_of(alloc, kind, first, second) {
        Ok(sum) => Ok(with_sum(sum)),
        Err(SumError::BadConnector) => Ok(Composition::Without(Obstacle::BadConnector)),
        Err(SumError::BadEntry) => Ok(Composition::Without(Obstacle::BadEntry)),
        Err(SumError::Memory) => Err(Memory),
    }
}

fn with_sum(sum: Matrix) -> Composition
    ensures is { result ≡ Composition.Sum sum }
    ensures shape { IsMatrix sum }
{
    let _rows = sum.rows();
    Composition::Sum(sum)
}

fn composed<'a>(alloc: Global, name: &'a str, sum: &Matrix) -> Result<Outcome<'a>, Memory>
    ensures { IfOk result (λ outcome. outcome_report outcome
        ≡ composed_report name.entry.now sum.now) }
{
    let bytes = write_dense(alloc, sum)?;
    let output = composed_line(alloc, sum)?;
    let mut files = Vec::new(alloc);
    files.push(OutputFile { name, bytes })?;
    Ok(Outcome {
        answer: Answer::Yes,
        output,
        files,
    })
}

fn composed_line(alloc: Global, sum: &Matrix) -> Result<Vec<u8>, Memory>
    ensures { IfOk result (λ text. text.items ≡ composed_line sum.now) }
{
    let mut buffer = Buffer::new();
    let mut text = b"composed ".to_vec(alloc)?;
    text.extend_from_slice(buffer.format(sum.rows()).as_bytes())?;
    text.extend_from_slice(b"x")?;
    text.extend_from_slice(buffer.format(sum.columns()).as_bytes())?;
    text.extend_from_slice(b" nonzeros ")?;
    text.extend_from_slice(buffer.format(sum.nonzeros()).as_bytes())?;
    text.push(b'\n')?;
    Ok(text)
}

fn refused<'a>(alloc: Global, obstacle: Obstacle) -> Result<Outcome<'a>, Memory>
    ensures { IfOk result (λ outcome. outcome_report outcome ≡ obstacle_report obstacle) }
{
    let mut output = b"refused: ".to_vec(alloc)?;
    output.extend_from_slice(obstacle_name(obstacle))?;
    output.push(b'\n')?;
    Ok(Outcome {
        answer: Answer::Refused,
        output,
        files: Vec::new(alloc),
    })
}

fn obstacle_name(obstacle: Obstacle) -> &'static [u8]
    ensures { result.now ≡ obstacle_name obstacle }
{
    match obstacle {
        Obstacle::TooManyRows => b"TooManyRows",
        Obstacle::TooManyColumns => b"TooManyColumns",
        Obstacle::BadConnector => b"BadConnector",
        Obstacle::BadEntry => b"BadEntry",
    }
}
