//! Checking evidence on a matrix: a decomposition tree, a chain of signs, or a violator.
ghost use Rattle.chains.specs.Chains.{IsSoundChain};
ghost use Rattle.tree_laws.specs.Laws.{VerdictMeans};
ghost use Rattle.clap.specs.Words.{app_of, found_of, rows_of};
ghost use Rattle.std.specs.Prelude.{◌≡◌, IfOk, IsTrue};
ghost use Rattle.tree_text.specs.TreeReading.{plain_of};
ghost use Rattle.tree_type.specs.Soundness.{IsSound};
ghost use Rattle.tree_type.specs.Verdicts.{verdict_shown};
ghost use Rattle.cmr_base.specs.LineSets.{AllBelow, IsColumnSet, IsRowSet};
ghost use Rattle.cmr_base.specs.Matrix.{Matrix, height};
ghost use Rattle.cmr_base.specs.Trees.{IsBinary};
ghost use Rattle.cmr_front.specs.Outcome.{outcome_report};
ghost use Rattle.cmr_front.specs.Tool.{IsDecision};
ghost use Rattle.cmr_front.specs.Words.ReadWords.{Gives};
ghost use Rattle.cmr_front.specs.declared.status.Answer.{Answer};
ghost use Rattle.cmr_evidence.specs.Check.{ChainDecides, CheckReportsBy, EvidenceReports, TreeDecides, ViolatorDecides, accepted_report, check_app, check_order, check_order_in, check_order_of, check_tool, evidence_kind, irregular_report, is_of_support, kind_named, refused_report, refused_step_report, said};
ghost use Rattle.cmr_evidence.specs.declared.tools.check.EvidenceKind.TheVariants as kinds;

use crate::verdict_words::{answer_of, answer_word, push_named_line};
use cert_check::accept;
use chains::{SizedChain, chain_signs, check_chain};
use clap::{ArgMatches, Command};
use cmr_base::{LineSet, Matrix, Memory, PathList, Word};
use cmr_front::evidence_file::{
    evidence_inputs, read_chain_file, read_submatrix_file, read_tree_file,
};
use cmr_front::input::{Input, Text};
use cmr_front::matrix_file::{MatrixForm, read_matrix};
use cmr_front::outcome::{Outcome, Stop};
use cmr_front::printed::push_violator_line;
use cmr_front::refusal_line::push_refusal_line;
use cmr_front::status::Answer;
use cmr_front::tool::Tool;
use cmr_front::words::arguments::{EVIDENCE, MATRIX};
use cmr_front::words::parsing::{form_in, matches_in, operand_in};
use cmr_front::words::{WordsError, arguments};
use itoa::Buffer;
use parity::is_violator;
use std::alloc::{AllocError, Global};
use std::thread::Threads;
use text_fields::Words;
use tree_type::{DecTree, Rule, VerdictOf, verdict};

/// The options of `check`. A file of the name `-` is standard input.
#[derive(Clone, Copy, Debug, PartialEq, Eq)]
pub struct CheckOptions<'a> {
    /// The form of the matrix text.
    pub form: MatrixForm,
    /// The file that holds the matrix text.
    pub matrix: &'a str,
    /// The file that holds the evidence.
    pub evidence: &'a str,
}

fn check_command<'a>(alloc: Global) -> Result<Command<'a>, AllocError>
    ensures { IfOk result (λ c. app_of c ≡ check_app) }
{
    let args = vec![in alloc;
        arguments::form_option(alloc),
        arguments::operand(alloc, MATRIX),
        arguments::operand(alloc, EVIDENCE),
    ]?;
    arguments::tool_command(alloc, "check", args)
}

fn options_in<'a>(matches: &ArgMatches<'a>) -> Result<CheckOptions<'a>, WordsError>
    ensures { Gives check_order_of result (check_order_in (rows_of (found_of matches.now))) }
{
    let form = form_in(matches)?;
    let matrix = operand_in(matches, MATRIX)?;
    let evidence = operand_in(matches, EVIDENCE)?;
    Ok(CheckOptions {
        form,
        matrix,
        evidence,
    })
}

/// The options that the arguments after `check` give: `[-i FORMAT] MATRIX EVIDENCE`.
pub fn read_check<'a>(alloc: Global, words: &'a [Word]) -> Result<CheckOptions<'a>, WordsError>
    ensures { Gives check_order_of result (check_order words.now) }
{
    let matches = matches_in(check_command(alloc)?, words)?;
    options_in(&matches)
}

/// The kind of evidence, by its first word.
#[derive(Clone, Copy, Debug, PartialEq, Eq)]
pub enum EvidenceKind {
    /// A decomposition tree, with pivots or without.
    Tree,
    /// A chain of signs.
    Chain,
    /// Lines that claim to be a violator.
    Violator,
}

impl<'a> Tool<'a> for CheckOptions<'a> {
    ghost tool = { λ options. check_tool (check_order_of options) };

    fn inputs(&self, alloc: Global) -> Result<Vec<Input<'a>>, Memory> {
        evidence_inputs(alloc, self.matrix, self.evidence)
    }

    fn decide<R: Threads + Sync>(
        &self,
        _rt: &R,
        alloc: Global,
        texts: &[Text],
    ) -> Result<Outcome<'a>, Stop<'a>> {
        decide_on(alloc, self, &texts[0].bytes, &texts[1].bytes)
    }

    fn lawful(&self) {}
}

fn decide_on<'a>(
    alloc: Global,
    options: &CheckOptions<'a>,
    matrix: &[u8],
    evidence: &[u8],
) -> Result<Outcome<'a>, Stop<'a>>
    ensures { IsDecision
        (CheckReportsBy (check_order_of options.now) (evidence_kind evidence.now) matrix.now
        evidence.now)
        result }
{
    let kind = evidence_kind(evidence);
    let binary = is_of_support(kind);
    let matrix = read_matrix(alloc, options.matrix, options.form, binary, matrix)?;
    decide_by_kind(alloc, options.evidence, kind, &matrix, evidence)
}

fn evidence_kind(evidence: &[u8]) -> EvidenceKind
    ensures { result ≡ evidence_kind evidence.now }
{
    let mut words = Words::new(evidence);
    match words.next() {
        Some((_, word)) => kind_named(word),
        None => EvidenceKind::Violator,
    }
}

fn kind_named(word: &[u8]) -> EvidenceKind
    ensures { result ≡ kind_named word.now }
{
    if word == b"cmr-tree".as_slice() {
        EvidenceKind::Tree
    } else if word == b"cmr-pivots".as_slice() {
        EvidenceKind::Tree
    } else if word == b"cmr-chain".as_slice() {
        EvidenceKind::Chain
    } else {
        EvidenceKind::Violator
    }
}

fn is_of_support(kind: EvidenceKind) -> bool
    ensures { result ≡ is_of_support kind }
{
    match kind {
        EvidenceKind::Chain => true,
        EvidenceKind::Tree | EvidenceKind::Violator => false,
    }
}

fn decide_by_kind<'a>(
    alloc: Global,
    file: &'a str,
    kind: EvidenceKind,
    matrix: &Matrix,
    evidence: &[u8],
) -> Result<Outcome<'a>, Stop<'a>>
    requires { IsTrue (is_of_support kind) → IsBinary matrix.now }
    ensures { IsDecision (EvidenceReports file.entry.now kind matrix.now evidence.now) result }
{
    match kind {
        EvidenceKind::Tree => decide_tree(alloc, file, matrix, evidence),
        EvidenceKind::Chain => decide_chain(alloc, file, matrix, evidence),
        EvidenceKind::Violator => decide_violator(alloc, file, matrix, evidence),
    }
}

fn decide_tree<'a>(
    alloc: Global,
    file: &'a str,
    matrix: &Matrix,
    evidence: &[u8],
) -> Result<Outcome<'a>, Stop<'a>>
    ensures { IsDecision
        (EvidenceReports file.entry.now kinds.Tree matrix.now evidence.now)
        result }
{
    let tree = read_tree_file(alloc, file, evidence)?;
    decide_on_tree(alloc, matrix, &tree)
}

fn decide_on_tree<'a>(
    alloc: Global,
    matrix: &Matrix,
    tree: &DecTree,
) -> Result<Outcome<'a>, Stop<'a>>
    ensures { IsDecision (TreeDecides matrix.now (plain_of tree.now)) result }
{
    Ok(check_tree(alloc, matrix, tree)?)
}

fn check_tree<'a>(alloc: Global, matrix: &Matrix, tree: &DecTree) -> Result<Outcome<'a>, Memory>
    ensures { IfOk result (λ outcome.
        TreeDecides matrix.now (plain_of tree.now) (outcome_report outcome)) }
{
    let found = accept(alloc, matrix, tree)?;
    match &found {
        Some(refusal) => refused(alloc, &refusal.path, refusal.rule),
        None => accepted_tree(alloc, matrix, tree),
    }
}

fn accepted_tree<'a>(alloc: Global, matrix: &Matrix, tree: &DecTree) -> Result<Outcome<'a>, Memory>
    requires { IsSound matrix.now tree.now }
    ensures { IfOk result (λ outcome.
        TreeDecides matrix.now (plain_of tree.now) (outcome_report outcome)) }
{
    let root = tree.root();
    let rows = matrix.rows();
    prove!(root.lines.rows.len() == rows as usize);
    let found = verdict(tree);
    accepted(alloc, matrix, &found)
}

fn decide_violator<'a>(
    alloc: Global,
    file: &'a str,
    matrix: &Matrix,
    evidence: &[u8],
) -> Result<Outcome<'a>, Stop<'a>>
    ensures { IsDecision
        (EvidenceReports file.entry.now kinds.Violator matrix.now evidence.now)
        result }
{
    let rows = matrix.rows();
    let columns = matrix.columns();
    let lines = read_submatrix_file(alloc, file, evidence, rows, columns)?;
    Ok(check_violator(alloc, matrix, &lines)?)
}

fn check_violator<'a>(
    alloc: Global,
    matrix: &Matrix,
    lines: &LineSet,
) -> Result<Outcome<'a>, Memory>
    requires row_set { IsRowSet matrix.now lines.now.rows }
    requires column_set { IsColumnSet matrix.now lines.now.columns }
    ensures { IfOk result (λ outcome.
        ViolatorDecides matrix.now lines.now (outcome_report outcome)) }
{
    if is_violator(matrix, lines) {
        accepted(alloc, matrix, &VerdictOf::No(lines))
    } else {
        refused(alloc, &PathList::new(alloc), Rule::NotViolator)
    }
}

fn decide_chain<'a>(
    alloc: Global,
    file: &'a str,
    matrix: &Matrix,
    evidence: &[u8],
) -> Result<Outcome<'a>, Stop<'a>>
    requires { IsBinary matrix.now }
    ensures { IsDecision
        (EvidenceReports file.entry.now kinds.Chain matrix.now evidence.now)
        result }
{
    let chain = read_chain_file(alloc, file, evidence)?;
    Ok(check_steps(alloc, matrix, &chain)?)
}

fn check_steps<'a>(
    alloc: Global,
    matrix: &Matrix,
    chain: &SizedChain,
) -> Result<Outcome<'a>, Memory>
    requires { IsBinary matrix.now }
    ensures { IfOk result (λ outcome. ChainDecides matrix.now chain.now (outcome_report outcome)) }
{
    let found = check_chain(alloc, matrix, chain)?;
    match found {
        Some(step) => refused_step(alloc, step),
        None => accepted_chain(alloc, matrix, chain),
    }
}

fn accepted_chain<'a>(
    alloc: Global,
    matrix: &Matrix,
    chain: &SizedChain,
) -> Result<Outcome<'a>, Memory>
    requires binary { IsBinary matrix.now }
    requires sound { (signs : Matrix) × IsSoundChain matrix.now chain.now signs }
    ensures { IfOk result (λ outcome. ChainDecides matrix.now chain.now (outcome_report outcome)) }
{
    let signs = chain_signs(alloc, matrix, chain)?;
    let rows = matrix.rows();
    prove!(signs.rows() == rows);
    irregular(alloc, &signs, &chain.chain.violator)
}

// The outcome for evidence that keeps its rules, by its verdict.
fn accepted<'a>(
    alloc: Global,
    matrix: &Matrix,
    verdict: &VerdictOf<'_>,
) -> Result<Outcome<'a>, Memory>
    requires { VerdictMeans matrix.now (verdict_shown verdict.now) }
    ensures { IfOk result (λ outcome. outcome_report outcome
        ≡ accepted_report matrix.now (verdict_shown verdict.now)) }
{
    let mut text = b"accepted".to_vec(alloc)?;
    text.extend_from_slice(answer_word(verdict))?;
    push_named_line(&mut text, matrix, verdict)?;
    Ok(said(alloc, answer_of(verdict), text))
}

fn refused<'a>(alloc: Global, path: &PathList, rule: Rule) -> Result<Outcome<'a>, Memory>
    ensures { IfOk result (λ outcome. outcome_report outcome ≡ refused_report path.now rule) }
{
    let mut text = Vec::new(alloc);
    push_refusal_line(&mut text, path, rule)?;
    Ok(said(alloc, Answer::Refused, text))
}

// The outcome for a chain that keeps its rules and gives these signs.
fn irregular<'a>(alloc: Global, signs: &Matrix, lines: &LineSet) -> Result<Outcome<'a>, Memory>
    requires rows { AllBelow (height signs.now) lines.now.rows }
    requires columns { AllBelow signs.now.width lines.now.columns }
    ensures { IfOk result (λ outcome. outcome_report outcome
        ≡ irregular_report signs.now lines.now) }
{
    let mut text = b"accepted: not regular\n".to_vec(alloc)?;
    push_violator_line(&mut text, lines, signs.sum(lines))?;
    Ok(said(alloc, Answer::No, text))
}

fn refused_step<'a>(alloc: Global, step: u32) -> Result<Outcome<'a>, Memory>
    ensures { IfOk result (λ outcome. outcome_report outcome ≡ refused_step_report step) }
{
    let mut buffer = Buffer::new();
    let mut text = b"refused: step ".to_vec(alloc)?;
    text.extend_from_slice(buffer.format(step).as_bytes())?;
    text.push(b'\n')?;
    Ok(said(alloc, Answer::Refused, text))
}

fn said<'a>(alloc: Global, answer: Answer, output: Vec<u8>) -> Outcome<'a>
    ensures { outcome_report result ≡ said answer output.items }
{
    Outcome {
        answer,
        output,
        files: Vec::new(alloc),
    }
}
