//! Testing total unimodularity.
ghost use Rattle.clap.specs.Words.{app_of, found_of, rows_of};
ghost use Rattle.std.specs.Prelude.{◌≡◌, ◌≤◌, IfOk};
ghost use Rattle.cmr_front.specs.Words.ReadWords.{Gives};
ghost use Rattle.cmr_unimodular.specs.Tu.{tu_app, tu_order, tu_order_in, tu_order_of, tu_tool, tu_verdict};
ghost use Rattle.cmr_unimodular.specs.Verdict.{verdict_order_of};

use crate::verdict::{VerdictOptions, give_verdict};
use clap::{ArgMatches, Command};
use cmr_base::{Memory, Word};
use cmr_front::input::{Input, Text};
use cmr_front::matrix_file::{MatrixForm, matrix_input, read_matrix};
use cmr_front::outcome::{Outcome, Stop};
use cmr_front::tool::Tool;
use cmr_front::words::arguments::TREE;
use cmr_front::words::parsing::{
    fault_in, file_in, form_in, lines_in, matches_with_input, pivots_in, value_in, workers_in,
};
use cmr_front::words::{WordsError, arguments};
use std::alloc::{AllocError, Global};
use std::thread::Threads;

/// The options of `tu`. An input file of the name `-` is standard input.
#[derive(Clone, Copy, Debug, PartialEq, Eq)]
pub struct TuOptions<'a> {
    /// The form of the matrix text.
    pub form: MatrixForm,
    /// The maximum number of lines on the shorter side of a part for an exhaustive search, 0 to 24.
    pub budget: u32,
    /// The maximum number of pivots on the path to a part that nothing else decides, 0 to 100.
    pub pivots: u32,
    /// The number of workers that share the searches, 1 to 64. The answer does not depend on it.
    pub workers: u32,
    /// The file that gets the decomposition tree.
    pub tree: Option<&'a str>,
    /// The file that gets the violator, if there is one.
    pub fault: Option<&'a str>,
    /// The file that holds the matrix text.
    pub file: &'a str,
}

fn tu_command<'a>(alloc: Global) -> Result<Command<'a>, AllocError>
    ensures { IfOk result (λ c. app_of c ≡ tu_app) }
{
    let args = vec![in alloc;
        arguments::form_option(alloc),
        arguments::lines_option(alloc),
        arguments::pivots_option(alloc),
        arguments::workers_option(alloc),
        arguments::tree_option(alloc),
        arguments::fault_option(alloc),
        arguments::file_operand(alloc),
    ]?;
    arguments::tool_command(alloc, "tu", args)
}

fn options_in<'a>(matches: &ArgMatches<'a>) -> Result<TuOptions<'a>, WordsError>
    ensures { Gives tu_order_of result (tu_order_in (rows_of (found_of matches.now))) }
{
    Ok(TuOptions {
        form: form_in(matches)?,
        budget: lines_in(matches)?,
        pivots: pivots_in(matches)?,
        workers: workers_in(matches)?,
        tree: value_in(matches, TREE),
        fault: fault_in(matches),
        file: file_in(matches),
    })
}

/// The options that the arguments after `tu` give:
/// `[-i FORMAT] [--lines L] [--pivots K] [-w N] [-D FILE] [-E FILE] [FILE]`.
pub fn read_tu<'a>(alloc: Global, words: &'a [Word]) -> Result<TuOptions<'a>, WordsError>
    ensures value { Gives tu_order_of result (tu_order words.now) }
    ensures ranges { IfOk result (λ options. (tu_tool (tu_order_of options)).InRanges) }
    ensures pivots { IfOk result (λ options. options.pivots ≤ 100) }
{
    let matches = matches_with_input(tu_command(alloc)?, words)?;
    options_in(&matches)
}

impl<'a> Tool<'a> for TuOptions<'a> {
    ghost tool = { λ options. tu_tool (tu_order_of options) };

    fn inputs(&self, alloc: Global) -> Result<Vec<Input<'a>>, Memory> {
        matrix_input(alloc, self.file)
    }

    fn decide<R: Threads + Sync>(
        &self,
        rt: &R,
        alloc: Global,
        texts: &[Text],
    ) -> Result<Outcome<'a>, Stop<'a>> {
        let matrix = read_matrix(alloc, self.file, self.form, false, &texts[0].bytes)?;
        Ok(give_verdict(rt, alloc, &verdict_options(self), &matrix)?)
    }

    fn lawful(&self) {}
}

fn verdict_options<'a>(options: &TuOptions<'a>) -> VerdictOptions<'a>
    ensures order { verdict_order_of result ≡ tu_verdict (tu_order_of options.now) }
    ensures workers { result.workers ≡ options.now.workers }
{
    VerdictOptions {
        label: b"totally unimodular",
        budget: options.budget,
        pivots: options.pivots,
        workers: options.workers,
        tree: options.tree,
        fault: options.fault,
    }
}
