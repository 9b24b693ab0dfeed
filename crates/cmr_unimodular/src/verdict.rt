// The verdict on total unimodularity, from a decomposition.
ghost use Rattle.std.specs.Prelude.{◌≡◌, ◌≤◌, ◌++◌, IfOk, OnOk, map, option_map};
ghost use Rattle.tree_laws.specs.Laws.{VerdictMeans};
ghost use Rattle.cmr_front.specs.Outcome.{file_of, outcome_report};
ghost use Rattle.cmr_unimodular.specs.Verdict.{Decides, IsDecomposition, IsRightVerdict, fault_file, tree_file, verdict_in, verdict_order_of, verdict_output, verdict_report};
ghost use Rattle.tree_type.specs.Verdicts.{verdict_shown};

use crate::outline::push_outline;
use cmr_base::{MAX_LINES, Matrix, Memory};
use cmr_evidence::verdict_words::{answer_of, answer_word, push_named_line};
use cmr_front::asked::push_submatrix;
use cmr_front::outcome::{Outcome, OutputFile};
use first_hit::Workers;
use open_parts::decompose;
use std::alloc::Global;
use std::thread::Threads;
use tree_text::write_tree;
use tree_type::{DecTree, VerdictOf, verdict};

/// The label of a verdict, its budget, its number of pivots, its workers and its files.
#[derive(Clone, Copy, Debug)]
pub struct VerdictOptions<'a> {
    /// The label of the verdict.
    pub label: &'static [u8],
    /// The maximum number of lines on the shorter side of an exhaustive search, 0 to 24.
    pub budget: u32,
    /// The maximum number of pivots on the path to a node that nothing else decides.
    pub pivots: u32,
    /// The number of workers that share the searches, 1 to 64.
    pub workers: u32,
    /// The file that gets the tree.
    pub tree: Option<&'a str>,
    /// The file that gets the violator, if there is one.
    pub fault: Option<&'a str>,
}

/// Decides whether a matrix is totally unimodular, by its decomposition. A no names the fault of the first node in preorder
/// that has one. If no node has a fault, undecided names the lines of the first undecided node.
pub fn give_verdict<'a, R: Threads + Sync>(
    rt: &R,
    alloc: Global,
    options: &VerdictOptions<'a>,
    matrix: &Matrix,
) -> Result<Outcome<'a>, Memory>
    requires budget { options.now.budget ≤ MAX_LINES }
    requires workers { (1 ≤ options.now.workers) × (options.now.workers ≤ 64) }
    ensures { IfOk result (λ outcome.
        Decides (verdict_order_of options.now) matrix.now (outcome_report outcome)) }
{
    let tree = decomposed(rt, alloc, options, matrix)?;
    report_tree(alloc, options, matrix, &tree)
}

/// A decomposition of the matrix, whose verdict is right.
pub fn decomposed<R: Threads + Sync>(
    rt: &R,
    alloc: Global,
    options: &VerdictOptions<'_>,
    matrix: &Matrix,
) -> Result<DecTree, Memory>
    requires budget { options.now.budget ≤ MAX_LINES }
    requires workers { (1 ≤ options.now.workers) × (options.now.workers ≤ 64) }
    ensures decomposition { IfOk result (IsDecomposition options.now.budget options.now.pivots
        matrix.now) }
    ensures right { IfOk result (λ tree.
        IsRightVerdict options.now.budget options.now.pivots matrix.now (verdict_in tree)) }
    ensures means { IfOk result (λ tree. VerdictMeans matrix.now (verdict_in tree)) }
{
    let tree = decompose(
        rt,
        alloc,
        matrix,
        options.budget,
        options.pivots,
        Workers::new(options.workers),
    )?;
    let root = tree.root();
    let rows = matrix.rows();
    prove!(root.lines.rows.len() == rows as usize);
    Ok(tree)
}

/// The report of a tree whose verdict is right.
pub fn report_tree<'a>(
    alloc: Global,
    options: &VerdictOptions<'a>,
    matrix: &Matrix,
    tree: &DecTree,
) -> Result<Outcome<'a>, Memory>
    requires { VerdictMeans matrix.now (verdict_in tree.now) }
    ensures { IfOk result (λ outcome. outcome_report outcome
        ≡ verdict_report (verdict_order_of options.now) matrix.now tree.now) }
{
    let found = verdict(tree);
    let output = verdict_text(alloc, options.label, matrix, &found, tree)?;
    let mut files = Vec::new(alloc);
    push_tree(alloc, &mut files, options.tree, tree)?;
    push_fault(alloc, &mut files, options.fault, matrix, &found)?;
    Ok(Outcome {
        answer: answer_of(&found),
        output,
        files,
    })
}

fn verdict_text(
    alloc: Global,
    label: &[u8],
    matrix: &Matrix,
    verdict: &VerdictOf<'_>,
    tree: &DecTree,
) -> Result<Vec<u8>, Memory>
    requires means { VerdictMeans matrix.now (verdict_shown verdict.now) }
    requires shown { verdict_shown verdict.now ≡ verdict_in tree.now }
    ensures { IfOk result (λ text. text.items ≡ verdict_output label.now matrix.now tree.now) }
{
    let mut text = label.to_vec(alloc)?;
    text.extend_from_slice(answer_word(verdict))?;
    push_named_line(&mut text, matrix, verdict)?;
    push_outline(&mut text, tree)?;
    Ok(text)
}

fn push_tree<'a>(
    alloc: Global,
    files: &mut Vec<OutputFile<'a>>,
    name: Option<&'a str>,
    tree: &DecTree,
) -> Result<(), Memory>
    ensures { OnOk result (map file_of files.new.items
        ≡ map file_of files.old.items
        ++ tree_file (option_map (λ name. name.now) name.entry) tree.now) }
{
    if let Some(name) = name {
        let bytes = write_tree(alloc, tree)?;
        files.push(OutputFile { name, bytes })?;
    }
    Ok(())
}

fn push_fault<'a>(
    alloc: Global,
    files: &mut Vec<OutputFile<'a>>,
    name: Option<&'a str>,
    matrix: &Matrix,
    verdict: &VerdictOf<'_>,
) -> Result<(), Memory>
    requires { VerdictMeans matrix.now (verdict_shown verdict.now) }
    ensures { OnOk result (map file_of files.new.items
        ≡ map file_of files.old.items
        ++ fault_file (option_map (λ name. name.now) name.entry) matrix.now
        (verdict_shown verdict.now)) }
{
    match verdict {
        VerdictOf::No(fault) => push_submatrix(alloc, files, name, matrix, fault),
        VerdictOf::Yes | VerdictOf::Undecided(_) => Ok(()),
    }
}
