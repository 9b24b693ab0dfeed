// The files of a tool that reads only evidence, or a matrix text and then evidence.
ghost use Rattle.std.specs.Prelude.{◌≡◌, ◌∷◌, [], IfOk, IfErr, Ok, map};
ghost use Rattle.text_fields.specs.TextWords.{text_of};
ghost use Rattle.matrix_text.specs.Submatrix.{named_lines};
ghost use Rattle.chains.specs.ChainTexts.{chain};
ghost use Rattle.tree_text.specs.TreeReading.{plain_of, tree};
ghost use Rattle.cmr_base.specs.LineSets.{AllBelow};
ghost use Rattle.std.specs.List.Sorted.{IsStrictlyIncreasing};
ghost use Rattle.cmr_front.specs.Inputs.{input_file};
ghost use Rattle.cmr_front.specs.Evidence.{evidence_file, evidence_files};
ghost use Rattle.cmr_front.specs.Stopped.{StopsText};
ghost use Rattle.cmr_front.specs.declared.outcome.FaultKind.TheVariants as faults;

use crate::input::{Input, InputKind};
use crate::outcome::{FaultKind, Stop};
use chains::{ChainError, SizedChain, read_chain};
use cmr_base::{LineSet, Memory};
use matrix_text::{TextError, read_submatrix};
use std::alloc::Global;
use tree_text::{TreeError, read_tree};
use tree_type::DecTree;

/// The matrix text and the evidence.
pub fn evidence_inputs<'a>(
    alloc: Global,
    matrix: &'a str,
    evidence: &'a str,
) -> Result<Vec<Input<'a>>, Memory>
    ensures { IfOk result (λ inputs. map input_file inputs.items
        ≡ evidence_files matrix.entry.now evidence.entry.now) }
{
    let mut inputs = Vec::new(alloc);
    inputs.push(Input {
        name: matrix,
        kind: InputKind::MatrixText,
    })?;
    inputs.push(evidence_of(evidence))?;
    Ok(inputs)
}

/// The one file of a tool that reads only evidence.
pub fn evidence_input<'a>(alloc: Global, name: &'a str) -> Result<Vec<Input<'a>>, Memory>
    ensures { IfOk result (λ inputs. map input_file inputs.items
        ≡ evidence_file name.entry.now ∷ []) }
{
    let mut inputs = Vec::new(alloc);
    inputs.push(evidence_of(name))?;
    Ok(inputs)
}

fn evidence_of<'a>(name: &'a str) -> Input<'a>
    ensures { input_file result ≡ evidence_file name.now }
{
    Input {
        name,
        kind: InputKind::Evidence,
    }
}

/// The tree that the text of a file represents, or why the run ends: the text's first fault.
pub fn read_tree_file<'a>(alloc: Global, name: &'a str, bytes: &[u8]) -> Result<DecTree, Stop<'a>>
    ensures read { IfOk result (λ found. tree (text_of bytes.now) ≡ Ok (plain_of found)) }
    ensures stopped { IfErr result (StopsText faults.Tree name.entry.now (tree
        (text_of bytes.now))) }
{
    match read_tree(alloc, bytes) {
        Ok(tree) => Ok(tree),
        Err(TreeError::Fault { kind, place }) => Err(Stop::BadText {
            name,
            kind: FaultKind::Tree(kind),
            place,
        }),
        Err(TreeError::Memory) => Err(Stop::Memory),
    }
}

/// The chain that the text of a file represents, or why the run ends: the text's first fault.
pub fn read_chain_file<'a>(
    alloc: Global,
    name: &'a str,
    bytes: &[u8],
) -> Result<SizedChain, Stop<'a>>
    ensures read { IfOk result (λ found. chain (text_of bytes.now) ≡ Ok found) }
    ensures stopped { IfErr result (StopsText faults.Chain name.entry.now (chain
        (text_of bytes.now))) }
{
    match read_chain(alloc, bytes) {
        Ok(chain) => Ok(chain),
        Err(ChainError::Fault { kind, place }) => Err(Stop::BadText {
            name,
            kind: FaultKind::Chain(kind),
            place,
        }),
        Err(ChainError::Memory) => Err(Stop::Memory),
    }
}

/// The lines of a matrix of these sizes that the text of a file names, or why the run ends: the text's first fault.
pub fn read_submatrix_file<'a>(
    alloc: Global,
    name: &'a str,
    bytes: &[u8],
    rows: u32,
    columns: u32,
) -> Result<LineSet, Stop<'a>>
    ensures read { IfOk result (λ lines. named_lines rows columns (text_of bytes.now) ≡ Ok lines) }
    ensures rows_increase { IfOk result (λ lines. IsStrictlyIncreasing lines.rows
        × AllBelow rows lines.rows) }
    ensures columns_increase { IfOk result (λ lines. IsStrictlyIncreasing lines.columns
        × AllBelow columns lines.columns) }
    ensures stopped { IfErr result (StopsText faults.Matrix name.entry.now (named_lines rows columns
        (text_of bytes.now))) }
{
    match read_submatrix(alloc, bytes, rows, columns) {
        Ok(lines) => Ok(lines),
        Err(TextError::Fault { kind, place }) => Err(Stop::BadText {
            name,
            kind: FaultKind::Matrix(kind),
            place,
        }),
        Err(TextError::Memory) => Err(Stop::Memory),
    }
}
