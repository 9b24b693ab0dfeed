// Files that a tool writes if they are requested.
ghost use Rattle.std.specs.Prelude.{◌≡◌, ◌++◌, IfSome, OnOk, map, option_map};
ghost use Rattle.cmr_base.specs.LineSets.{AllBelow};
ghost use Rattle.cmr_base.specs.Matrix.{height};
ghost use Rattle.matrix_text.specs.CanonicalMatrices.{dense_text, submatrix_text};
ghost use Rattle.cmr_front.specs.Minimal.{minimal_file};
ghost use Rattle.cmr_front.specs.Outcome.{file_of};
ghost use Rattle.cmr_front.specs.Printed.{steps_text};
ghost use Rattle.cmr_front.specs.Report.{asked_file};

use crate::outcome::OutputFile;
use crate::printed::write_steps;
use cmr_base::{LineSet, Matrix, Memory, StepList};
use matrix_text::{write_dense, write_submatrix};
use std::alloc::Global;

/// Appends a file with the submatrix text of some lines.
pub fn push_submatrix<'a>(
    alloc: Global,
    files: &mut Vec<OutputFile<'a>>,
    name: Option<&'a str>,
    matrix: &Matrix,
    lines: &LineSet,
) -> Result<(), Memory>
    requires rows { AllBelow (height matrix.now) lines.now.rows }
    requires columns { AllBelow matrix.now.width lines.now.columns }
    ensures { OnOk result (map file_of files.new.items
        ≡ map file_of files.old.items
        ++ asked_file
        (option_map (λ name. name.now) name.entry)
        (submatrix_text (height matrix.now) matrix.now.width lines.now)) }
{
    if let Some(name) = name {
        let bytes = write_submatrix(alloc, lines, matrix.rows(), matrix.columns())?;
        files.push(OutputFile { name, bytes })?;
    }
    Ok(())
}

/// Appends a file with the dense text of a matrix.
pub fn push_matrix<'a>(
    alloc: Global,
    files: &mut Vec<OutputFile<'a>>,
    name: Option<&'a str>,
    matrix: &Matrix,
) -> Result<(), Memory>
    ensures { OnOk result (map file_of files.new.items ≡ map file_of files.old.items
        ++ asked_file (option_map (λ name. name.now) name.entry) (dense_text matrix.now)) }
{
    if let Some(name) = name {
        let bytes = write_dense(alloc, matrix)?;
        files.push(OutputFile { name, bytes })?;
    }
    Ok(())
}

/// Appends a file with the list of some reductions.
pub fn push_steps<'a>(
    alloc: Global,
    files: &mut Vec<OutputFile<'a>>,
    name: Option<&'a str>,
    steps: &StepList,
) -> Result<(), Memory>
    ensures { OnOk result (map file_of files.new.items ≡ map file_of files.old.items
        ++ asked_file (option_map (λ name. name.now) name.entry) (steps_text steps.now)) }
{
    if let Some(name) = name {
        let bytes = write_steps(alloc, steps)?;
        files.push(OutputFile { name, bytes })?;
    }
    Ok(())
}

/// Appends the file of a minimal submatrix, if there is one.
pub fn push_minimal<'a>(
    alloc: Global,
    files: &mut Vec<OutputFile<'a>>,
    name: Option<&'a str>,
    matrix: &Matrix,
    minimal: &Option<LineSet>,
) -> Result<(), Memory>
    requires rows { IfSome minimal.now (λ lines. AllBelow (height matrix.now) lines.rows) }
    requires columns { IfSome minimal.now (λ lines. AllBelow matrix.now.width lines.columns) }
    ensures { OnOk result (map file_of files.new.items ≡ map file_of files.old.items
        ++ minimal_file (option_map (λ name. name.now) name.entry) matrix.now minimal.now) }
{
    match minimal {
        Some(lines) => push_submatrix(alloc, files, name, matrix, lines),
        None => Ok(()),
    }
}
