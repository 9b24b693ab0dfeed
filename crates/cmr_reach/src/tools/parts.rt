//! The two matrices of a decomposition tree whose root is a sum of them.
ghost use Rattle.clap.specs.Words.{app_of, found_of, rows_of};
ghost use Rattle.std.specs.Prelude.{◌++◌, ◌≡◌, IfOk, OnOk};
ghost use Rattle.tree_text.specs.TreeReading.{plain_of};
ghost use Rattle.tree_type.specs.Soundness.{IsSound};
ghost use Rattle.cmr_base.specs.Matrix.{IsMatrix};
ghost use Rattle.cmr_front.specs.Evidence.{ReportsTree};
ghost use Rattle.cmr_front.specs.Outcome.{outcome_report};
ghost use Rattle.cmr_front.specs.Printed.{line_numbers};
ghost use Rattle.cmr_front.specs.Refusals.{refusal_line};
ghost use Rattle.cmr_front.specs.Tool.{IsDecision};
ghost use Rattle.cmr_front.specs.Words.ReadWords.{Gives};
ghost use Rattle.cmr_front.specs.declared.status.Answer.{Answer};
ghost use Rattle.cmr_reach.specs.Parts.{IsArranged, PartsDecides, PartsReports, other_root_report, parts_app, parts_lines, parts_order, parts_order_in, parts_order_of, parts_report, parts_tool, root_of, root_word, said_refused};

use cert_check::accept;
use clap::{ArgMatches, Command};
use cmr_base::{MAX_ROWS, Matrix, Memory, PathList, Word};
use cmr_front::evidence_file::{evidence_inputs, read_tree_file};
use cmr_front::input::{Input, Text};
use cmr_front::matrix_file::{MatrixForm, read_matrix};
use cmr_front::outcome::{Outcome, OutputFile, Stop};
use cmr_front::refusal_line::push_refusal_line;
use cmr_front::status::Answer;
use cmr_front::tool::Tool;
use cmr_front::words::arguments::{MATRIX, TREE};
use cmr_front::words::parsing::{form_in, matches_in, operand_in};
use cmr_front::words::{WordsError, arguments};
use compose::{Arranged, arrange_three, arrange_two};
use itoa::Buffer;
use matrix_text::write_dense;
use std::alloc::{AllocError, Global};
use std::thread::Threads;
use tree_text::{kind_of, word_of};
use tree_type::{DecTree, Kind, Rule};

/// The options of `parts`. An input file of the name `-` is standard input.
#[derive(Clone, Copy, Debug, PartialEq, Eq)]
pub struct PartsOptions<'a> {
    /// The form of the matrix text.
    pub form: MatrixForm,
    /// The file that holds the matrix text.
    pub matrix: &'a str,
    /// The file that holds a decomposition tree of the matrix.
    pub tree: &'a str,
    /// The file that gets the first matrix of the sum.
    pub first: &'a str,
    /// The file that gets the second matrix of the sum.
    pub second: &'a str,
}

// The ids of `-A` and `-B`.
const FIRST: &str = "first";

const SECOND: &str = "second";

fn parts_command<'a>(alloc: Global) -> Result<Command<'a>, AllocError>
    ensures { IfOk result (λ c. app_of c ≡ parts_app) }
{
    let args = vec![in alloc;
        arguments::form_option(alloc),
        arguments::operand(alloc, MATRIX),
        arguments::operand(alloc, TREE),
        arguments::required(arguments::value_option(alloc, FIRST, 'A')),
        arguments::required(arguments::value_option(alloc, SECOND, 'B')),
    ]?;
    arguments::tool_command(alloc, "parts", args)
}

fn options_in<'a>(matches: &ArgMatches<'a>) -> Result<PartsOptions<'a>, WordsError>
    ensures { Gives parts_order_of result (parts_order_in (rows_of (found_of matches.now))) }
{
    let form = form_in(matches)?;
    let matrix = operand_in(matches, MATRIX)?;
    let tree = operand_in(matches, TREE)?;
    let first = operand_in(matches, FIRST)?;
    let second = operand_in(matches, SECOND)?;
    Ok(PartsOptions {
        form,
        matrix,
        tree,
        first,
        second,
    })
}

/// The options that the arguments after `parts` give: `[-i FORMAT] MATRIX TREE -A FILE -B FILE`.
pub fn read_parts<'a>(alloc: Global, words: &'a [Word]) -> Result<PartsOptions<'a>, WordsError>
    ensures { Gives parts_order_of result (parts_order words.now) }
{
    let matches = matches_in(parts_command(alloc)?, words)?;
    options_in(&matches)
}

impl<'a> Tool<'a> for PartsOptions<'a> {
    ghost tool = { λ options. parts_tool (parts_order_of options) };

    fn inputs(&self, alloc: Global) -> Result<Vec<Input<'a>>, Memory> {
        evidence_inputs(alloc, self.matrix, self.tree)
    }

    fn decide<R: Threads + Sync>(
        &self,
        _rt: &R,
        alloc: Global,
        texts: &[Text],
    ) -> Result<Outcome<'a>, Stop<'a>> {
        decide_on(alloc, self, &texts[0].bytes, &texts[1].bytes)
    }

    fn lawful(&self) {}
}

fn decide_on<'a>(
    alloc: Global,
    options: &PartsOptions<'a>,
    matrix: &[u8],
    tree: &[u8],
) -> Result<Outcome<'a>, Stop<'a>>
    ensures { IsDecision (PartsReports (parts_order_of options.now) matrix.now tree.now) result }
{
    let matrix = read_matrix(alloc, options.matrix, options.form, false, matrix)?;
    decide_tree(alloc, options, &matrix, tree)
}

fn decide_tree<'a>(
    alloc: Global,
    options: &PartsOptions<'a>,
    matrix: &Matrix,
    tree: &[u8],
) -> Result<Outcome<'a>, Stop<'a>>
    ensures { IsDecision
        (ReportsTree options.now.tree.now (PartsDecides (parts_order_of options.now) matrix.now)
        tree.now)
        result }
{
    let tree = read_tree_file(alloc, options.tree, tree)?;
    decide_on_tree(alloc, options, matrix, &tree)
}

fn decide_on_tree<'a>(
    alloc: Global,
    options: &PartsOptions<'a>,
    matrix: &Matrix,
    tree: &DecTree,
) -> Result<Outcome<'a>, Stop<'a>>
    ensures { IsDecision
        (PartsDecides (parts_order_of options.now) matrix.now (plain_of tree.now)) result }
{
    Ok(check_and_part(alloc, options, matrix, tree)?)
}

fn check_and_part<'a>(
    alloc: Global,
    options: &PartsOptions<'a>,
    matrix: &Matrix,
    tree: &DecTree,
) -> Result<Outcome<'a>, Memory>
    ensures { IfOk result (λ outcome. PartsDecides (parts_order_of options.now) matrix.now
        (plain_of tree.now) (outcome_report outcome)) }
{
    let found = accept(alloc, matrix, tree)?;
    match &found {
        Some(refusal) => broken(alloc, &refusal.path, refusal.rule),
        None => part_root(alloc, options, matrix, tree),
    }
}

fn part_root<'a>(
    alloc: Global,
    options: &PartsOptions<'a>,
    matrix: &Matrix,
    tree: &DecTree,
) -> Result<Outcome<'a>, Memory>
    requires { IsSound matrix.now tree.now }
    ensures { IfOk result (λ outcome. PartsDecides (parts_order_of options.now) matrix.now
        (plain_of tree.now) (outcome_report outcome)) }
{
    let word = root_word(tree);
    let arranged = arrange_root(alloc, matrix, tree)?;
    match &arranged {
        Some(both) => parted(alloc, options, word, both),
        None => other_root(alloc, word),
    }
}

fn root_word(tree: &DecTree) -> &'static [u8]
    ensures { result.now ≡ root_word (root_of (plain_of tree.now)) }
{
    word_of(kind_of(tree.root()))
}

// The two matrices of the root, if it is a sum of two.
fn arrange_root(alloc: Global, matrix: &Matrix, tree: &DecTree) -> Result<Option<Arranged>, Memory>
    requires { IsSound matrix.now tree.now }
    ensures { IfOk result (IsArranged matrix.now (root_of (plain_of tree.now))) }
{
    prove!(matrix.rows() <= MAX_ROWS);
    match &tree.root().kind {
        Kind::TwoSum { two, .. } => Ok(Some(arrange_two(alloc, matrix, two)?)),
        Kind::ThreeSum { three, .. } => Ok(Some(arrange_three(alloc, matrix, three)?)),
        _ => Ok(None),
    }
}

fn parted<'a>(
    alloc: Global,
    options: &PartsOptions<'a>,
    word: &[u8],
    both: &Arranged,
) -> Result<Outcome<'a>, Memory>
    ensures report { IfOk result (λ outcome. outcome_report outcome
        ≡ parts_report (parts_order_of options.now) word.now both.now) }
    ensures first { IfOk result (λ _. IsMatrix both.now.first) }
    ensures second { IfOk result (λ _. IsMatrix both.now.second) }
{
    let _rows = (both.first.rows(), both.second.rows());
    let first = write_dense(alloc, &both.first)?;
    let second = write_dense(alloc, &both.second)?;
    let output = parts_lines(alloc, word, both.rows.as_slice(), both.columns.as_slice())?;
    let mut files = Vec::new(alloc);
    files.push(OutputFile {
        name: options.first,
        bytes: first,
    })?;
    files.push(OutputFile {
        name: options.second,
        bytes: second,
    })?;
    Ok(Outcome {
        answer: Answer::Yes,
        output,
        files,
    })
}

fn parts_lines(alloc: Global, word: &[u8], rows: &[u32], columns: &[u32]) -> Result<Vec<u8>, Memory>
    ensures { IfOk result (λ text. text.items ≡ parts_lines word.now rows.now columns.now) }
{
    let mut text = b"parts: ".to_vec(alloc)?;
    text.extend_from_slice(word)?;
    text.extend_from_slice(b"\norder rows")?;
    push_line_numbers(&mut text, rows)?;
    text.extend_from_slice(b" columns")?;
    push_line_numbers(&mut text, columns)?;
    text.push(b'\n')?;
    Ok(text)
}

fn push_line_numbers(text: &mut Vec<u8>, lines: &[u32]) -> Result<(), Memory>
    ensures { OnOk result (text.new.items ≡ text.old.items ++ line_numbers lines.now) }
{
    let mut buffer = Buffer::new();
    for line in lines {
        text.push(b' ')?;
        text.extend_from_slice(buffer.format(u64::from(*line) + 1).as_bytes())?;
    }
    Ok(())
}

fn other_root<'a>(alloc: Global, word: &[u8]) -> Result<Outcome<'a>, Memory>
    ensures { IfOk result (λ outcome. outcome_report outcome ≡ other_root_report word.now) }
{
    let mut output = b"refused: root is ".to_vec(alloc)?;
    output.extend_from_slice(word)?;
    output.push(b'\n')?;
    Ok(refused(alloc, output))
}

// A tree whose node at this path breaks this rule.
fn broken<'a>(alloc: Global, path: &PathList, rule: Rule) -> Result<Outcome<'a>, Memory>
    ensures { IfOk result (λ outcome. outcome_report outcome
        ≡ said_refused (refusal_line path.now rule)) }
{
    let mut output = Vec::new(alloc);
    push_refusal_line(&mut output, path, rule)?;
    Ok(refused(alloc, output))
}

fn refused<'a>(alloc: Global, output: Vec<u8>) -> Outcome<'a>
    ensures { outcome_report result ≡ said_refused output.items }
{
    Outcome {
        answer: Answer::Refused,
        output,
        files: Vec::new(alloc),
    }
}
