// The report of a verdict.
ghost use Rattle.std.specs.Prelude.{◌≡◌, ◌++◌, IfOk, OnOk, length, map, option_map};
ghost use Rattle.cmr_base.specs.LineSets.{AllBelow};
ghost use Rattle.sparse_matrix.specs.SparseRows.{matrix_of_runs};
ghost use Rattle.cmr_front.specs.Outcome.{file_of, outcome_report};
ghost use Rattle.cmr_front.specs.Printed.{violator_line};
ghost use Rattle.cmr_front.specs.Report.{asked_file};
ghost use Rattle.matrix_text.specs.CanonicalMatrices.{submatrix_text};
ghost use Rattle.cmr_large.specs.LargeReports.{NamesLines, answer_for, answer_line, open_size_line, large_report, shown_file, shown_line};

use crate::sums::sum_of;
use cmr_base::{LineSet, Memory};
use cmr_front::outcome::{Outcome, OutputFile};
use cmr_front::printed::push_line_set;
use cmr_front::status::Answer;
use itoa::Buffer;
use large_unimodular::LargeVerdict;
use matrix_text::write_submatrix;
use sparse_matrix::SparseMatrix;
use std::alloc::Global;

/// The report of a verdict on a matrix, with the file of the lines that it names.
pub fn report_verdict<'a>(
    alloc: Global,
    name: Option<&'a str>,
    matrix: &SparseMatrix,
    verdict: &LargeVerdict,
) -> Result<Outcome<'a>, Memory>
    requires { NamesLines (matrix_of_runs matrix.now) verdict.now }
    ensures { IfOk result (λ outcome. outcome_report outcome
        ≡ large_report (option_map (λ name. name.now) name.entry) (matrix_of_runs matrix.now)
        verdict.now) }
{
    let output = verdict_text(alloc, matrix, verdict)?;
    let mut files = Vec::new(alloc);
    push_shown_file(alloc, &mut files, name, matrix, verdict)?;
    Ok(Outcome {
        answer: answer_for(verdict),
        output,
        files,
    })
}

fn answer_for(verdict: &LargeVerdict) -> Answer
    ensures { result ≡ answer_for verdict.now }
{
    match verdict {
        LargeVerdict::Yes => Answer::Yes,
        LargeVerdict::No(_) => Answer::No,
        LargeVerdict::Open(_) => Answer::Undecided,
    }
}

fn answer_line(verdict: &LargeVerdict) -> &'static [u8]
    ensures { result.now ≡ answer_line verdict.now }
{
    match verdict {
        LargeVerdict::Yes => b"totally unimodular: yes\n",
        LargeVerdict::No(_) => b"totally unimodular: no\n",
        LargeVerdict::Open(_) => b"totally unimodular: undecided\n",
    }
}

fn verdict_text(
    alloc: Global,
    matrix: &SparseMatrix,
    verdict: &LargeVerdict,
) -> Result<Vec<u8>, Memory>
    requires { NamesLines (matrix_of_runs matrix.now) verdict.now }
    ensures { IfOk result (λ text. text.items
        ≡ answer_line verdict.now ++ shown_line (matrix_of_runs matrix.now) verdict.now) }
{
    let mut text = answer_line(verdict).to_vec(alloc)?;
    push_shown(&mut text, matrix, verdict)?;
    Ok(text)
}

fn push_shown(
    text: &mut Vec<u8>,
    matrix: &SparseMatrix,
    verdict: &LargeVerdict,
) -> Result<(), Memory>
    requires { NamesLines (matrix_of_runs matrix.now) verdict.now }
    ensures { OnOk result (text.new.items
        ≡ text.old.items ++ shown_line (matrix_of_runs matrix.now) verdict.now) }
{
    match verdict {
        LargeVerdict::Yes => Ok(()),
        LargeVerdict::No(lines) => push_violator(text, lines, sum_of(matrix, lines)),
        LargeVerdict::Open(lines) => push_open_size(text, lines),
    }
}

fn push_violator(text: &mut Vec<u8>, lines: &LineSet, sum: i64) -> Result<(), Memory>
    ensures { OnOk result (text.new.items
        ≡ text.old.items ++ violator_line lines.now.rows lines.now.columns sum) }
{
    let mut buffer = Buffer::new();
    text.extend_from_slice(b"violator ")?;
    push_line_set(text, lines)?;
    text.extend_from_slice(b" sum ")?;
    text.extend_from_slice(buffer.format(sum).as_bytes())?;
    text.push(b'\n')?;
    Ok(())
}

fn push_open_size(text: &mut Vec<u8>, lines: &LineSet) -> Result<(), Memory>
    ensures { OnOk result (text.new.items ≡ text.old.items ++ open_size_line lines.now) }
{
    let mut buffer = Buffer::new();
    text.extend_from_slice(b"open ")?;
    text.extend_from_slice(buffer.format(lines.rows.len()).as_bytes())?;
    text.push(b'x')?;
    text.extend_from_slice(buffer.format(lines.columns.len()).as_bytes())?;
    text.push(b'\n')?;
    Ok(())
}

fn push_shown_file<'a>(
    alloc: Global,
    files: &mut Vec<OutputFile<'a>>,
    name: Option<&'a str>,
    matrix: &SparseMatrix,
    verdict: &LargeVerdict,
) -> Result<(), Memory>
    requires { NamesLines (matrix_of_runs matrix.now) verdict.now }
    ensures { OnOk result (map file_of files.new.items
        ≡ map file_of files.old.items
        ++ shown_file (option_map (λ name. name.now) name.entry) (matrix_of_runs matrix.now)
        verdict.now) }
{
    match verdict {
        LargeVerdict::Yes => Ok(()),
        LargeVerdict::No(lines) => push_lines(alloc, files, name, matrix, lines),
        LargeVerdict::Open(lines) => push_lines(alloc, files, name, matrix, lines),
    }
}

fn push_lines<'a>(
    alloc: Global,
    files: &mut Vec<OutputFile<'a>>,
    name: Option<&'a str>,
    matrix: &SparseMatrix,
    lines: &LineSet,
) -> Result<(), Memory>
    requires rows { AllBelow (length matrix.now.runs) lines.now.rows }
    requires columns { AllBelow matrix.now.width lines.now.columns }
    ensures { OnOk result (map file_of files.new.items
        ≡ map file_of files.old.items
        ++ asked_file (option_map (λ name. name.now) name.entry)
        (submatrix_text (length matrix.now.runs) matrix.now.width lines.now)) }
{
    if let Some(name) = name {
        let bytes = write_submatrix(alloc, lines, matrix.rows(), matrix.columns())?;
        files.push(OutputFile { name, bytes })?;
    }
    Ok(())
}
