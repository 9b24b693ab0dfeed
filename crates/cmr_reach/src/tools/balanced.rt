//! Testing whether a matrix is balanced.
ghost use Rattle.balance.specs.BalanceFaults.{IsBalanced};
ghost use Rattle.balance.specs.SearchedFaults.{HasSearchedFaults};
ghost use Rattle.clap.specs.Words.{app_of, found_of, rows_of};
ghost use Rattle.std.specs.Prelude.{◌≡◌, ◌≤◌, IfOk, false, true};
ghost use Rattle.tree_type.specs.Invariant.{IsDecTree};
ghost use Rattle.tree_type.specs.DecompositionTrees.{tree_of};
ghost use Rattle.tree_type.specs.Verdicts as verdicts;
ghost use Rattle.tree_type.specs.Verdicts.{verdict_of};
ghost use Rattle.cmr_base.specs.CyclePlaces.{HasNoCycleFault};
ghost use Rattle.cmr_base.specs.Matrix.{IsMatrix, entry};
ghost use Rattle.cmr_front.specs.Outcome.{outcome_report};
ghost use Rattle.cmr_front.specs.Words.ReadWords.{Gives};
ghost use Rattle.cmr_reach.specs.Balanced.{BalancedDecides, IsDecomposed, IsInRanges, NeedsSearch, balanced_app, balanced_order, balanced_order_in, balanced_order_of, balanced_tool, search_report};

use crate::faults::{fault_outcome, open_outcome, yes_outcome};
use balance::{LeastSubmatrix, least_balance_fault};
use camion_sign::cycle_fault;
use clap::{ArgMatches, Command};
use cmr_base::{MAX_ROWS, Matrix, Memory, Word};
use cmr_front::input::{Input, Text};
use cmr_front::matrix_file::{MatrixForm, matrix_input, read_matrix};
use cmr_front::outcome::{Outcome, Stop};
use cmr_front::tool::Tool;
use cmr_front::words::parsing::{
    fault_in, file_in, form_in, lines_in, matches_with_input, pivots_in, workers_in,
};
use cmr_front::words::{WordsError, arguments};
use decomp_tree::decompose;
use first_hit::Workers;
use std::alloc::{AllocError, Global};
use std::thread::Threads;
use tree_type::{DecTree, VerdictOf, verdict};

/// The options of `balanced`. A file of the name `-` is standard input.
#[derive(Clone, Copy, Debug, PartialEq, Eq)]
pub struct BalancedOptions<'a> {
    /// The form of the matrix text.
    pub form: MatrixForm,
    /// The maximum number of lines on the shorter side of an exhaustive search, 0 to 24.
    pub budget: u32,
    /// The maximum number of pivots of the decomposition on the path to a node that nothing else decides, 0 to 100.
    pub pivots: u32,
    /// The number of workers that share a search, 1 to 64. The answer does not depend on it.
    pub workers: u32,
    /// The file that gets the fault, if there is one.
    pub fault: Option<&'a str>,
    /// The file that holds the matrix text.
    pub file: &'a str,
}

const LABEL: &[u8] = b"balanced";

fn balanced_command<'a>(alloc: Global) -> Result<Command<'a>, AllocError>
    ensures { IfOk result (λ c. app_of c ≡ balanced_app) }
{
    let args = vec![in alloc;
        arguments::form_option(alloc),
        arguments::lines_option(alloc),
        arguments::pivots_option(alloc),
        arguments::workers_option(alloc),
        arguments::fault_option(alloc),
        arguments::file_operand(alloc),
    ]?;
    arguments::tool_command(alloc, "balanced", args)
}

fn options_in<'a>(matches: &ArgMatches<'a>) -> Result<BalancedOptions<'a>, WordsError>
    ensures { Gives balanced_order_of result (balanced_order_in (rows_of (found_of matches.now))) }
{
    Ok(BalancedOptions {
        form: form_in(matches)?,
        budget: lines_in(matches)?,
        pivots: pivots_in(matches)?,
        workers: workers_in(matches)?,
        fault: fault_in(matches),
        file: file_in(matches),
    })
}

/// The options that the arguments after `balanced` give: `[-i FORMAT] [--lines L] [--pivots K] [-w N] [-E FILE] [FILE]`.
pub fn read_balanced<'a>(
    alloc: Global,
    words: &'a [Word],
) -> Result<BalancedOptions<'a>, WordsError>
    ensures value { Gives balanced_order_of result (balanced_order words.now) }
    ensures ranges { IfOk result (λ options. (balanced_tool (balanced_order_of options)).InRanges) }
    ensures pivots { IfOk result (λ options. options.pivots ≤ 100) }
{
    let matches = matches_with_input(balanced_command(alloc)?, words)?;
    options_in(&matches)
}

impl<'a> Tool<'a> for BalancedOptions<'a> {
    ghost tool = { λ options. balanced_tool (balanced_order_of options) };

    fn inputs(&self, alloc: Global) -> Result<Vec<Input<'a>>, Memory> {
        matrix_input(alloc, self.file)
    }

    fn decide<R: Threads + Sync>(
        &self,
        rt: &R,
        alloc: Global,
        texts: &[Text],
    ) -> Result<Outcome<'a>, Stop<'a>> {
        let matrix = read_matrix(alloc, self.file, self.form, false, &texts[0].bytes)?;
        Ok(test(rt, alloc, self, &matrix)?)
    }

    fn lawful(&self) {}
}

fn test<'a, R: Threads + Sync>(
    rt: &R,
    alloc: Global,
    options: &BalancedOptions<'a>,
    matrix: &Matrix,
) -> Result<Outcome<'a>, Memory>
    requires { IsInRanges (balanced_order_of options.now) }
    ensures { IfOk result (λ outcome.
        BalancedDecides (balanced_order_of options.now) matrix.now (outcome_report outcome)) }
{
    prove!(matrix.rows() <= MAX_ROWS);
    match cycle_fault(alloc, matrix)? {
        Some(fault) => fault_outcome(alloc, LABEL, options.fault, matrix, &fault),
        None => without_cycle_fault(rt, alloc, options, matrix),
    }
}

fn without_cycle_fault<'a, R: Threads + Sync>(
    rt: &R,
    alloc: Global,
    options: &BalancedOptions<'a>,
    matrix: &Matrix,
) -> Result<Outcome<'a>, Memory>
    requires ranges { IsInRanges (balanced_order_of options.now) }
    requires shape { IsMatrix matrix.now }
    requires no_fault { HasNoCycleFault (entry matrix.now) }
    ensures { IfOk result (λ outcome.
        BalancedDecides (balanced_order_of options.now) matrix.now (outcome_report outcome)) }
{
    if is_decomposed(rt, alloc, options, matrix)? {
        yes_outcome(alloc, LABEL)
    } else {
        search(rt, alloc, options, matrix)
    }
}

// Whether the decomposition has the verdict yes.
fn is_decomposed<R: Threads + Sync>(
    rt: &R,
    alloc: Global,
    options: &BalancedOptions<'_>,
    matrix: &Matrix,
) -> Result<bool, Memory>
    requires ranges { IsInRanges (balanced_order_of options.now) }
    requires shape { IsMatrix matrix.now }
    ensures yes { IfOk result (λ says. says ≡ true
        → IsDecomposed options.now.budget options.now.pivots matrix.now × IsBalanced matrix.now) }
    ensures no { IfOk result (λ says. says ≡ false
        → ¬ (IsDecomposed options.now.budget options.now.pivots matrix.now)) }
{
    let workers = Workers::new(options.workers);
    let tree = decompose(rt, alloc, matrix, options.budget, options.pivots, workers)?;
    let _root = tree.root();
    Ok(says_yes(&tree))
}

fn says_yes(tree: &DecTree) -> bool
    ensures yes { result ≡ true → verdict_of (tree_of tree.now.root) ≡ verdicts.Yes }
    ensures no { result ≡ false → ¬ (verdict_of (tree_of tree.now.root) ≡ verdicts.Yes) }
{
    match verdict(tree) {
        VerdictOf::Yes => true,
        VerdictOf::No(_) | VerdictOf::Undecided(_) => false,
    }
}

fn search<'a, R: Threads + Sync>(
    rt: &R,
    alloc: Global,
    options: &BalancedOptions<'a>,
    matrix: &Matrix,
) -> Result<Outcome<'a>, Memory>
    requires ranges { IsInRanges (balanced_order_of options.now) }
    requires shape { IsMatrix matrix.now }
    requires needed { NeedsSearch options.now.budget options.now.pivots matrix.now }
    ensures { IfOk result (λ outcome.
        BalancedDecides (balanced_order_of options.now) matrix.now (outcome_report outcome)) }
{
    let workers = Workers::new(options.workers);
    let found = least_balance_fault(rt, alloc, matrix, options.budget, workers)?;
    search_outcome(alloc, options, matrix, &found)
}

fn search_outcome<'a>(
    alloc: Global,
    options: &BalancedOptions<'a>,
    matrix: &Matrix,
    found: &LeastSubmatrix,
) -> Result<Outcome<'a>, Memory>
    requires { HasSearchedFaults matrix.now options.now.budget found.now }
    ensures { IfOk result (λ outcome. outcome_report outcome
        ≡ search_report (balanced_order_of options.now) matrix.now found.now) }
{
    match found {
        LeastSubmatrix::Clean => yes_outcome(alloc, LABEL),
        LeastSubmatrix::Found(fault) => fault_outcome(alloc, LABEL, options.fault, matrix, fault),
        LeastSubmatrix::TooMany { .. } => open_outcome(alloc, LABEL, matrix),
    }
}
