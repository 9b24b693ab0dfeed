//! Testing whether a matrix is series-parallel.
ghost use Rattle.clap.specs.Words.{app_of, found_of, rows_of};
ghost use Rattle.std.specs.Prelude.{◌++◌, ◌≡◌, IfOk, IfSome, OnOk, map, option_map};
ghost use Rattle.cmr_base.specs.LineSets.{AllBelow};
ghost use Rattle.cmr_base.specs.Matrix.{height};
ghost use Rattle.cmr_base.specs.Reductions.{IsSeriesParallel};
ghost use Rattle.cmr_front.specs.Minimal.{IsMinimalAsked};
ghost use Rattle.cmr_front.specs.Outcome.{file_of, outcome_report};
ghost use Rattle.cmr_front.specs.Words.ReadWords.{Gives};
ghost use Rattle.cmr_front.specs.declared.status.Answer.{Answer};
ghost use Rattle.cmr_classes.specs.SeriesParallel.{IsReduced, SeriesParallelDecides, no_output, series_parallel_name, reduction_files, series_parallel_app, series_parallel_no, series_parallel_order, series_parallel_order_in, series_parallel_order_of, series_parallel_tool, series_parallel_yes};

use clap::{ArgMatches, Command};
use cmr_base::{LineSet, Matrix, Memory, Word};
use cmr_front::asked::{push_minimal, push_steps, push_submatrix};
use cmr_front::input::{Input, Text};
use cmr_front::matrix_file::{MatrixForm, matrix_input, read_matrix};
use cmr_front::outcome::{Outcome, OutputFile, Stop};
use cmr_front::printed::{push_line_set, push_minimal_line};
use cmr_front::status::Answer;
use cmr_front::tool::Tool;
use cmr_front::words::arguments::{BINARY, MINIMAL, REST, STEPS};
use cmr_front::words::parsing::{file_in, form_in, has_flag, matches_with_input, value_in};
use cmr_front::words::{WordsError, arguments};
use sp_reduce::{Reduction, minimal_not_sp, reduce};
use std::alloc::{AllocError, Global};
use std::thread::Threads;

/// The options of `series-parallel`. An input file of the name `-` is standard input.
#[derive(Clone, Copy, Debug, PartialEq, Eq)]
pub struct SpOptions<'a> {
    /// The form of the matrix text.
    pub form: MatrixForm,
    /// Whether the matrix is 0/1. Then a line is not reducible as the negative of another line.
    pub binary: bool,
    /// The file that gets a minimal submatrix that is not series-parallel, if there is one.
    pub minimal: Option<&'a str>,
    /// The file that gets the list of reductions.
    pub steps: Option<&'a str>,
    /// The file that gets the lines that the reductions leave.
    pub rest: Option<&'a str>,
    /// The file that holds the matrix text.
    pub file: &'a str,
}

fn series_parallel_command<'a>(alloc: Global) -> Result<Command<'a>, AllocError>
    ensures { IfOk result (λ c. app_of c ≡ series_parallel_app) }
{
    let args = vec![in alloc;
        arguments::form_option(alloc),
        arguments::binary_flag(alloc),
        arguments::minimal_option(alloc),
        arguments::steps_option(alloc),
        arguments::rest_option(alloc),
        arguments::file_operand(alloc),
    ]?;
    arguments::tool_command(alloc, "series-parallel", args)
}

fn options_in<'a>(matches: &ArgMatches<'a>) -> Result<SpOptions<'a>, WordsError>
    ensures { Gives series_parallel_order_of result (series_parallel_order_in
        (rows_of (found_of matches.now))) }
{
    Ok(SpOptions {
        form: form_in(matches)?,
        binary: has_flag(matches, BINARY),
        minimal: value_in(matches, MINIMAL),
        steps: value_in(matches, STEPS),
        rest: value_in(matches, REST),
        file: file_in(matches),
    })
}

/// The options that the arguments after `series-parallel` give: `[-i FORMAT] [-b] [-N FILE] [-S FILE] [-R FILE] [FILE]`.
pub fn read_series_parallel<'a>(
    alloc: Global,
    words: &'a [Word],
) -> Result<SpOptions<'a>, WordsError>
    ensures { Gives series_parallel_order_of result (series_parallel_order words.now) }
{
    let matches = matches_with_input(series_parallel_command(alloc)?, words)?;
    options_in(&matches)
}

impl<'a> Tool<'a> for SpOptions<'a> {
    ghost tool = { λ options. series_parallel_tool (series_parallel_order_of options) };

    fn inputs(&self, alloc: Global) -> Result<Vec<Input<'a>>, Memory> {
        matrix_input(alloc, self.file)
    }

    fn decide<R: Threads + Sync>(
        &self,
        _rt: &R,
        alloc: Global,
        texts: &[Text],
    ) -> Result<Outcome<'a>, Stop<'a>> {
        let matrix = read_matrix(alloc, self.file, self.form, self.binary, &texts[0].bytes)?;
        Ok(test(alloc, self, &matrix)?)
    }

    fn lawful(&self) {}
}

fn test<'a>(alloc: Global, options: &SpOptions<'a>, matrix: &Matrix) -> Result<Outcome<'a>, Memory>
    ensures { IfOk result (λ outcome. SeriesParallelDecides (series_parallel_order_of options.now)
        matrix.now (outcome_report outcome)) }
{
    let reduction = reduce(alloc, matrix, options.binary)?;
    if reduction.rest.rows.len() == 0 && reduction.rest.columns.len() == 0 {
        yes(alloc, options, matrix, &reduction)
    } else {
        no(alloc, options, matrix, &reduction)
    }
}

fn yes<'a>(
    alloc: Global,
    options: &SpOptions<'a>,
    matrix: &Matrix,
    reduction: &Reduction,
) -> Result<Outcome<'a>, Memory>
    requires { IsReduced options.now.binary matrix.now reduction.now }
    ensures { IfOk result (λ outcome. outcome_report outcome
        ≡ series_parallel_yes (series_parallel_order_of options.now) matrix.now) }
{
    let mut output = property_name(options.binary).to_vec(alloc)?;
    output.extend_from_slice(b": yes\n")?;
    let mut files = Vec::new(alloc);
    push_reduction(alloc, &mut files, options, matrix, reduction)?;
    Ok(Outcome {
        answer: Answer::Yes,
        output,
        files,
    })
}

fn no<'a>(
    alloc: Global,
    options: &SpOptions<'a>,
    matrix: &Matrix,
    reduction: &Reduction,
) -> Result<Outcome<'a>, Memory>
    requires reduced { IsReduced options.now.binary matrix.now reduction.now }
    requires lacks { ¬ IsSeriesParallel options.now.binary matrix.now }
    ensures { IfOk result (λ outcome. SeriesParallelDecides (series_parallel_order_of options.now)
        matrix.now (outcome_report outcome)) }
{
    let minimal = asked_minimal(alloc, options, matrix)?;
    no_outcome(alloc, options, matrix, reduction, &minimal)
}

fn no_outcome<'a>(
    alloc: Global,
    options: &SpOptions<'a>,
    matrix: &Matrix,
    reduction: &Reduction,
    minimal: &Option<LineSet>,
) -> Result<Outcome<'a>, Memory>
    requires reduced { IsReduced options.now.binary matrix.now reduction.now }
    requires rows { IfSome minimal.now (λ lines. AllBelow (height matrix.now) lines.rows) }
    requires columns { IfSome minimal.now (λ lines. AllBelow matrix.now.width lines.columns) }
    ensures { IfOk result (λ outcome. outcome_report outcome
        ≡ series_parallel_no (series_parallel_order_of options.now) matrix.now minimal.now) }
{
    let output = no_text(alloc, options.binary, &reduction.rest, minimal)?;
    let mut files = Vec::new(alloc);
    push_minimal(alloc, &mut files, options.minimal, matrix, minimal)?;
    push_reduction(alloc, &mut files, options, matrix, reduction)?;
    Ok(Outcome {
        answer: Answer::No,
        output,
        files,
    })
}

fn asked_minimal(
    alloc: Global,
    options: &SpOptions<'_>,
    matrix: &Matrix,
) -> Result<Option<LineSet>, Memory>
    requires { ¬ IsSeriesParallel options.now.binary matrix.now }
    ensures asked { IfOk result (IsMinimalAsked (IsSeriesParallel options.now.binary) matrix.now
        (option_map (λ name. name.now) options.now.minimal)) }
    ensures rows { IfOk result (λ found.
        IfSome found (λ lines. AllBelow (height matrix.now) lines.rows)) }
    ensures columns { IfOk result (λ found.
        IfSome found (λ lines. AllBelow matrix.now.width lines.columns)) }
{
    match options.minimal {
        Some(_) => minimal_not_sp(alloc, matrix, options.binary),
        None => Ok(None),
    }
}

fn no_text(
    alloc: Global,
    binary: bool,
    rest: &LineSet,
    minimal: &Option<LineSet>,
) -> Result<Vec<u8>, Memory>
    ensures { IfOk result (λ text. text.items ≡ no_output binary rest.now minimal.now) }
{
    let mut text = property_name(binary).to_vec(alloc)?;
    text.extend_from_slice(b": no\nrest ")?;
    push_line_set(&mut text, rest)?;
    text.push(b'\n')?;
    push_minimal_line(&mut text, minimal)?;
    Ok(text)
}

// Appends the files of the steps and of the lines that they leave.
fn push_reduction<'a>(
    alloc: Global,
    files: &mut Vec<OutputFile<'a>>,
    options: &SpOptions<'a>,
    matrix: &Matrix,
    reduction: &Reduction,
) -> Result<(), Memory>
    requires { IsReduced options.now.binary matrix.now reduction.now }
    ensures { OnOk result (map file_of files.new.items
        ≡ map file_of files.old.items
        ++ reduction_files (series_parallel_order_of options.now) matrix.now) }
{
    push_steps(alloc, files, options.steps, &reduction.steps)?;
    push_submatrix(alloc, files, options.rest, matrix, &reduction.rest)
}

fn property_name(binary: bool) -> &'static [u8]
    ensures { result.now ≡ series_parallel_name binary }
{
    if binary {
        b"binary series-parallel"
    } else {
        b"series-parallel"
    }
}
