//! The arguments of `cmr-large tu`, and its decision.
ghost use Rattle.clap.specs.Words.{app_of, found_of, rows_of};
ghost use Rattle.std.specs.Prelude.{◌≡◌, ◌≤◌, IfOk, option_map};
ghost use Rattle.cmr_base.specs.declared.limits.TheConstants.{MAX_LINES};
ghost use Rattle.sparse_matrix.specs.SparseRows.{matrix_of_runs};
ghost use Rattle.cmr_front.specs.Outcome.{outcome_report};
ghost use Rattle.cmr_front.specs.Tool.{IsDecision};
ghost use Rattle.cmr_front.specs.Words.ReadWords.{Gives};
ghost use Rattle.cmr_large.specs.LargeReports.{LargeDecides};
ghost use Rattle.cmr_large.specs.LargeTu.{LargeReportsOf, large_app, large_order_in, large_order_of, large_tool, large_tu_order};

use crate::large_file::read_large;
use crate::report::report_verdict;
use clap::{ArgMatches, Command};
use cmr_base::{MAX_LINES, Memory, Word};
use cmr_front::evidence_file::evidence_input;
use cmr_front::input::{Input, Text};
use cmr_front::matrix_file::MatrixForm;
use cmr_front::outcome::{Outcome, Stop};
use cmr_front::tool::Tool;
use cmr_front::words::parsing::{
    fault_in, file_in, form_in, lines_in, matches_with_input, pivots_in, workers_in,
};
use cmr_front::words::{WordsError, arguments};
use first_hit::Workers;
use large_unimodular::decide_large;
use sparse_matrix::SparseMatrix;
use std::alloc::{AllocError, Global};
use std::thread::Threads;

/// The options of `cmr-large tu`. An input file of the name `-` is standard input.
#[derive(Clone, Copy, Debug, PartialEq, Eq)]
pub struct LargeOptions<'a> {
    /// The form of the matrix text.
    pub form: MatrixForm,
    /// The maximum number of lines on the shorter side of a part for an exhaustive search, 0 to 24.
    pub budget: u32,
    /// The maximum number of pivots on the path to a part that nothing else decides, 0 to 100.
    pub pivots: u32,
    /// The number of workers that share the searches, 1 to 64. The answer does not depend on it.
    pub workers: u32,
    /// The file that gets the violator or the open part, if there is one.
    pub fault: Option<&'a str>,
    /// The file that holds the matrix text. It may be as long as evidence.
    pub file: &'a str,
}

fn large_command<'a>(alloc: Global) -> Result<Command<'a>, AllocError>
    ensures { IfOk result (λ c. app_of c ≡ large_app) }
{
    let args = vec![in alloc;
        arguments::form_option(alloc),
        arguments::lines_option(alloc),
        arguments::pivots_option(alloc),
        arguments::workers_option(alloc),
        arguments::fault_option(alloc),
        arguments::file_operand(alloc),
    ]?;
    arguments::tool_command(alloc, "tu", args)
}

fn options_in<'a>(matches: &ArgMatches<'a>) -> Result<LargeOptions<'a>, WordsError>
    ensures { Gives large_order_of result (large_order_in (rows_of (found_of matches.now))) }
{
    Ok(LargeOptions {
        form: form_in(matches)?,
        budget: lines_in(matches)?,
        pivots: pivots_in(matches)?,
        workers: workers_in(matches)?,
        fault: fault_in(matches),
        file: file_in(matches),
    })
}

/// The options that the arguments after `tu` give:
/// `[-i FORMAT] [--lines L] [--pivots K] [-w N] [-E FILE] [FILE]`.
pub fn read_large_tu<'a>(alloc: Global, words: &'a [Word]) -> Result<LargeOptions<'a>, WordsError>
    ensures value { Gives large_order_of result (large_tu_order words.now) }
    ensures ranges { IfOk result (λ options. (large_tool (large_order_of options)).InRanges) }
    ensures pivots { IfOk result (λ options. options.pivots ≤ 100) }
{
    let matches = matches_with_input(large_command(alloc)?, words)?;
    options_in(&matches)
}

impl<'a> Tool<'a> for LargeOptions<'a> {
    ghost tool = { λ options. large_tool (large_order_of options) };

    fn inputs(&self, alloc: Global) -> Result<Vec<Input<'a>>, Memory> {
        evidence_input(alloc, self.file)
    }

    fn decide<R: Threads + Sync>(
        &self,
        rt: &R,
        alloc: Global,
        texts: &[Text],
    ) -> Result<Outcome<'a>, Stop<'a>> {
        decide_text(rt, alloc, self, &texts[0].bytes)
    }

    fn lawful(&self) {}
}

fn decide_text<'a, R: Threads + Sync>(
    rt: &R,
    alloc: Global,
    options: &LargeOptions<'a>,
    bytes: &[u8],
) -> Result<Outcome<'a>, Stop<'a>>
    requires budget { options.now.budget ≤ MAX_LINES }
    requires workers { (1 ≤ options.now.workers) × (options.now.workers ≤ 64) }
    ensures { IsDecision (LargeReportsOf (large_order_of options.now) bytes.now) result }
{
    let matrix = read_large(alloc, options.file, options.form, bytes)?;
    decide_matrix(rt, alloc, options, &matrix)
}

fn decide_matrix<'a, R: Threads + Sync>(
    rt: &R,
    alloc: Global,
    options: &LargeOptions<'a>,
    matrix: &SparseMatrix,
) -> Result<Outcome<'a>, Stop<'a>>
    requires budget { options.now.budget ≤ MAX_LINES }
    requires workers { (1 ≤ options.now.workers) × (options.now.workers ≤ 64) }
    ensures { IsDecision (LargeDecides options.now.budget options.now.pivots
        (option_map (λ name. name.now) options.now.fault) (matrix_of_runs matrix.now)) result }
{
    Ok(outcome_of(rt, alloc, options, matrix)?)
}

fn outcome_of<'a, R: Threads + Sync>(
    rt: &R,
    alloc: Global,
    options: &LargeOptions<'a>,
    matrix: &SparseMatrix,
) -> Result<Outcome<'a>, Memory>
    requires budget { options.now.budget ≤ MAX_LINES }
    requires workers { (1 ≤ options.now.workers) × (options.now.workers ≤ 64) }
    ensures { IfOk result (λ outcome. LargeDecides options.now.budget options.now.pivots
        (option_map (λ name. name.now) options.now.fault) (matrix_of_runs matrix.now)
        (outcome_report outcome)) }
{
    let _height = matrix.rows();
    let workers = Workers::new(options.workers);
    let verdict = decide_large(rt, alloc, matrix, options.budget, options.pivots, workers)?;
    report_verdict(alloc, options.fault, matrix, &verdict)
}
