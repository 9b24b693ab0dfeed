//! Testing whether a 0/1 matrix has a totally unimodular signing.
ghost use Rattle.chains.specs.ChainTexts.{AreLinesIn, IsStepIn, chain_text};
ghost use Rattle.tree_laws.specs.Laws.{VerdictMeans};
ghost use Rattle.clap.specs.Words.{app_of, found_of, rows_of};
ghost use Rattle.std.specs.List.{AllByRecursion};
ghost use Rattle.std.specs.Prelude.{◌*◌, ◌++◌, ◌≡◌, ◌≤◌, List, IfOk, OnOk, length, map, option_map};
ghost use Rattle.tree_type.specs.Verdicts.{verdict_shown};
ghost use Rattle.chains.specs.declared.step.SignStep.{SignStep};
ghost use Rattle.cmr_base.specs.Matrix.{Matrix, height};
ghost use Rattle.cmr_base.specs.Trees.{IsBinary};
ghost use Rattle.cmr_front.specs.Outcome.{file_of, outcome_report};
ghost use Rattle.cmr_front.specs.Report.{asked_file};
ghost use Rattle.cmr_front.specs.Words.ReadWords.{Gives};
ghost use Rattle.cmr_unimodular.specs.Regular.{HasLinesIn, IsSignedTo, RegularDecides, chain_file, chain_with, regular_app, regular_order, regular_order_in, regular_order_of, regular_report, regular_tool, regular_verdict};
ghost use Rattle.cmr_unimodular.specs.Verdict.{verdict_in, verdict_order_of, verdict_report};

use crate::verdict::{VerdictOptions, decomposed, report_tree};
use camion_sign::{sign, signed_matrix};
use chains::{Chain, SignStepList, write_chain};
use clap::{ArgMatches, Command};
use cmr_base::{LineSet, MAX_LINES, Matrix, Memory, Word};
use cmr_front::asked::push_matrix;
use cmr_front::input::{Input, Text};
use cmr_front::matrix_file::{MatrixForm, matrix_input, read_matrix};
use cmr_front::outcome::{Outcome, OutputFile, Stop};
use cmr_front::tool::Tool;
use cmr_front::words::arguments::{CHAIN, OUTPUT, TREE};
use cmr_front::words::parsing::{
    fault_in, file_in, form_in, lines_in, matches_with_input, pivots_in, value_in, workers_in,
};
use cmr_front::words::{WordsError, arguments};
use std::alloc::{AllocError, Global};
use std::thread::Threads;
use tree_type::{DecTree, VerdictOf, copy_of, verdict};

/// The options of `regular`. An input file of the name `-` is standard input.
#[derive(Clone, Copy, Debug, PartialEq, Eq)]
pub struct RegularOptions<'a> {
    /// The form of the matrix text.
    pub form: MatrixForm,
    /// The maximum number of lines on the shorter side of a part for an exhaustive search, 0 to 24.
    pub budget: u32,
    /// The maximum number of pivots on the path to a part that nothing else decides, 0 to 100.
    pub pivots: u32,
    /// The number of workers that share the searches, 1 to 64. The answer does not depend on it.
    pub workers: u32,
    /// The file that gets the decomposition tree of the signed matrix.
    pub tree: Option<&'a str>,
    /// The file that gets the violator of the signed matrix, if there is one.
    pub fault: Option<&'a str>,
    /// The file that gets the signed matrix.
    pub signed: Option<&'a str>,
    /// The file that gets the chain of signs with the violator, if there is one.
    pub chain: Option<&'a str>,
    /// The file that holds the matrix text.
    pub file: &'a str,
}

fn regular_command<'a>(alloc: Global) -> Result<Command<'a>, AllocError>
    ensures { IfOk result (λ c. app_of c ≡ regular_app) }
{
    let args = vec![in alloc;
        arguments::form_option(alloc),
        arguments::lines_option(alloc),
        arguments::pivots_option(alloc),
        arguments::workers_option(alloc),
        arguments::tree_option(alloc),
        arguments::fault_option(alloc),
        arguments::output_option(alloc),
        arguments::chain_option(alloc),
        arguments::file_operand(alloc),
    ]?;
    arguments::tool_command(alloc, "regular", args)
}

fn options_in<'a>(matches: &ArgMatches<'a>) -> Result<RegularOptions<'a>, WordsError>
    ensures { Gives regular_order_of result (regular_order_in (rows_of (found_of matches.now))) }
{
    Ok(RegularOptions {
        form: form_in(matches)?,
        budget: lines_in(matches)?,
        pivots: pivots_in(matches)?,
        workers: workers_in(matches)?,
        tree: value_in(matches, TREE),
        fault: fault_in(matches),
        signed: value_in(matches, OUTPUT),
        chain: value_in(matches, CHAIN),
        file: file_in(matches),
    })
}

/// The options that the arguments after `regular` give:
/// `[-i FORMAT] [--lines L] [--pivots K] [-w N] [-D FILE] [-E FILE] [-M FILE] [-C FILE] [FILE]`.
pub fn read_regular<'a>(alloc: Global, words: &'a [Word]) -> Result<RegularOptions<'a>, WordsError>
    ensures value { Gives regular_order_of result (regular_order words.now) }
    ensures ranges { IfOk result (λ options. (regular_tool (regular_order_of options)).InRanges) }
    ensures pivots { IfOk result (λ options. options.pivots ≤ 100) }
{
    let matches = matches_with_input(regular_command(alloc)?, words)?;
    options_in(&matches)
}

impl<'a> Tool<'a> for RegularOptions<'a> {
    ghost tool = { λ options. regular_tool (regular_order_of options) };

    fn inputs(&self, alloc: Global) -> Result<Vec<Input<'a>>, Memory> {
        matrix_input(alloc, self.file)
    }

    fn decide<R: Threads + Sync>(
        &self,
        rt: &R,
        alloc: Global,
        texts: &[Text],
    ) -> Result<Outcome<'a>, Stop<'a>> {
        let matrix = read_matrix(alloc, self.file, self.form, true, &texts[0].bytes)?;
        Ok(sign_and_test(rt, alloc, self, &matrix)?)
    }

    fn lawful(&self) {}
}

fn sign_and_test<'a, R: Threads + Sync>(
    rt: &R,
    alloc: Global,
    options: &RegularOptions<'a>,
    matrix: &Matrix,
) -> Result<Outcome<'a>, Memory>
    requires budget { options.now.budget ≤ MAX_LINES }
    requires workers { (1 ≤ options.now.workers) × (options.now.workers ≤ 64) }
    requires binary { IsBinary matrix.now }
    ensures { IfOk result (λ outcome.
        RegularDecides (regular_order_of options.now) matrix.now (outcome_report outcome)) }
{
    let signed = signing_of(alloc, matrix)?;
    let asked = verdict_options(options);
    let tree = decomposed(rt, alloc, &asked, &signed)?;
    report_signing(alloc, options, matrix, &signed, &tree)
}

// The report of the tree of a signed matrix, with the files of the signing.
fn report_signing<'a>(
    alloc: Global,
    options: &RegularOptions<'a>,
    matrix: &Matrix,
    signed: &Matrix,
    tree: &DecTree,
) -> Result<Outcome<'a>, Memory>
    requires signed { (steps : List SignStep) × IsSignedTo matrix.now steps signed.now }
    requires means { VerdictMeans signed.now (verdict_in tree.now) }
    ensures { IfOk result (λ outcome. (steps : List SignStep)
        → IsSignedTo matrix.now steps signed.now
        → outcome_report outcome
        ≡ regular_report (regular_order_of options.now) matrix.now steps signed.now tree.now) }
{
    let reported = report_tree(alloc, &verdict_options(options), signed, tree)?;
    with_signing(alloc, options, matrix, signed, tree, reported)
}

fn signing_of(alloc: Global, matrix: &Matrix) -> Result<Matrix, Memory>
    requires { IsBinary matrix.now }
    ensures { IfOk result (λ signed. (steps : List SignStep)
        × IsSignedTo matrix.now steps signed) }
{
    let signed = signed_matrix(alloc, matrix)?;
    let rows = matrix.rows();
    let signed_rows = signed.rows();
    prove!(signed_rows == rows);
    Ok(signed)
}

// The steps of the signing. Only the chain needs them.
fn steps_of(alloc: Global, matrix: &Matrix) -> Result<SignStepList, Memory>
    ensures same { IfOk result (λ steps. (others : List SignStep) (signed : Matrix)
        → IsSignedTo matrix.now others signed → steps ≡ others) }
    ensures few { IfOk result (λ steps. length steps ≤ height matrix.now * matrix.now.width) }
    ensures steps { IfOk result (λ steps.
        AllByRecursion (IsStepIn (height matrix.now) matrix.now.width) steps) }
{
    let (_, steps) = sign(alloc, matrix)?;
    Ok(steps)
}

fn verdict_options<'a>(options: &RegularOptions<'a>) -> VerdictOptions<'a>
    ensures order { verdict_order_of result ≡ regular_verdict (regular_order_of options.now) }
    ensures workers { result.workers ≡ options.now.workers }
{
    VerdictOptions {
        label: b"regular",
        budget: options.budget,
        pivots: options.pivots,
        workers: options.workers,
        tree: options.tree,
        fault: options.fault,
    }
}

// The files of the signed matrix and of the chain, after the files of the verdict.
fn with_signing<'a>(
    alloc: Global,
    options: &RegularOptions<'a>,
    matrix: &Matrix,
    signed: &Matrix,
    tree: &DecTree,
    reported: Outcome<'a>,
) -> Result<Outcome<'a>, Memory>
    requires signed { (steps : List SignStep) × IsSignedTo matrix.now steps signed.now }
    requires means { VerdictMeans signed.now (verdict_in tree.now) }
    requires reported { outcome_report reported
        ≡ verdict_report (regular_verdict (regular_order_of options.now)) signed.now tree.now }
    ensures { IfOk result (λ outcome. (steps : List SignStep)
        → IsSignedTo matrix.now steps signed.now
        → outcome_report outcome
        ≡ regular_report (regular_order_of options.now) matrix.now steps signed.now tree.now) }
{
    let mut files = reported.files;
    push_matrix(alloc, &mut files, options.signed, signed)?;
    push_chain(alloc, &mut files, options.chain, matrix, &verdict(tree))?;
    Ok(Outcome {
        answer: reported.answer,
        output: reported.output,
        files,
    })
}

// Appends the file of the chain if the verdict is no.
fn push_chain<'a>(
    alloc: Global,
    files: &mut Vec<OutputFile<'a>>,
    name: Option<&'a str>,
    matrix: &Matrix,
    verdict: &VerdictOf<'_>,
) -> Result<(), Memory>
    requires lines { HasLinesIn (height matrix.now) matrix.now.width (verdict_shown verdict.now) }
    ensures { OnOk result ((steps : List SignStep) (signed : Matrix)
        → IsSignedTo matrix.now steps signed
        → map file_of files.new.items
        ≡ map file_of files.old.items
        ++ chain_file (option_map (λ name. name.now) name.entry) matrix.now steps
        (verdict_shown verdict.now)) }
{
    match verdict {
        VerdictOf::No(fault) => push_chain_with(alloc, files, name, matrix, fault),
        VerdictOf::Yes | VerdictOf::Undecided(_) => Ok(()),
    }
}

fn push_chain_with<'a>(
    alloc: Global,
    files: &mut Vec<OutputFile<'a>>,
    name: Option<&'a str>,
    matrix: &Matrix,
    fault: &LineSet,
) -> Result<(), Memory>
    requires lines { AreLinesIn (height matrix.now) matrix.now.width fault.now }
    ensures { OnOk result ((steps : List SignStep) (signed : Matrix)
        → IsSignedTo matrix.now steps signed
        → map file_of files.new.items
        ≡ map file_of files.old.items
        ++ asked_file (option_map (λ name. name.now) name.entry)
        (chain_text (chain_with matrix.now steps fault.now))) }
{
    if let Some(name) = name {
        let steps = steps_of(alloc, matrix)?;
        let violator = copy_of(alloc, fault)?;
        let chain = Chain { steps, violator };
        let bytes = write_chain(alloc, &chain, matrix.rows(), matrix.columns())?;
        files.push(OutputFile { name, bytes })?;
    }
    Ok(())
}
