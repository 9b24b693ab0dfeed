// Decisions by faults: a yes, a no that names one, or nothing.
ghost use Rattle.std.specs.Prelude.{◌≡◌, ◌++◌, IfOk, OnOk, option_map};
ghost use Rattle.cmr_base.specs.LineSets.{AllBelow};
ghost use Rattle.cmr_base.specs.Matrix.{height};
ghost use Rattle.cmr_front.specs.Outcome.{outcome_report};
ghost use Rattle.cmr_reach.specs.FaultReports.{fault_report, named_fault, open_report, yes_report};

use cmr_base::{LineSet, Matrix, Memory};
use cmr_front::asked::push_submatrix;
use cmr_front::outcome::Outcome;
use cmr_front::printed::{push_line_set, push_open_line, push_sum};
use cmr_front::status::Answer;
use std::alloc::Global;

/// A yes under the label of a tool.
pub fn yes_outcome<'a>(alloc: Global, label: &[u8]) -> Result<Outcome<'a>, Memory>
    ensures { IfOk result (λ outcome. outcome_report outcome ≡ yes_report label.now) }
{
    let mut output = label.to_vec(alloc)?;
    output.extend_from_slice(b": yes\n")?;
    Ok(Outcome {
        answer: Answer::Yes,
        output,
        files: Vec::new(alloc),
    })
}

/// A no under the label of a tool, with the fault and its file.
pub fn fault_outcome<'a>(
    alloc: Global,
    label: &[u8],
    name: Option<&'a str>,
    matrix: &Matrix,
    fault: &LineSet,
) -> Result<Outcome<'a>, Memory>
    requires rows { AllBelow (height matrix.now) fault.now.rows }
    requires columns { AllBelow matrix.now.width fault.now.columns }
    ensures { IfOk result (λ outcome. outcome_report outcome
        ≡ fault_report label.now (option_map (λ name. name.now) name.entry) matrix.now fault.now) }
{
    let mut output = label.to_vec(alloc)?;
    output.extend_from_slice(b": no\n")?;
    push_fault(&mut output, fault, matrix.sum(fault))?;
    let mut files = Vec::new(alloc);
    push_submatrix(alloc, &mut files, name, matrix, fault)?;
    Ok(Outcome {
        answer: Answer::No,
        output,
        files,
    })
}

/// An answer that leaves all lines of the matrix open, under the label of a tool.
pub fn open_outcome<'a>(alloc: Global, label: &[u8], matrix: &Matrix) -> Result<Outcome<'a>, Memory>
    ensures { IfOk result (λ outcome. outcome_report outcome ≡ open_report label.now matrix.now) }
{
    let lines = LineSet::all(alloc, matrix.rows(), matrix.columns())?;
    let mut output = label.to_vec(alloc)?;
    output.extend_from_slice(b": undecided\n")?;
    push_open_line(&mut output, &lines)?;
    Ok(Outcome {
        answer: Answer::Undecided,
        output,
        files: Vec::new(alloc),
    })
}

fn push_fault(text: &mut Vec<u8>, fault: &LineSet, sum: i32) -> Result<(), Memory>
    ensures { OnOk result (text.new.items
        ≡ text.old.items ++ named_fault fault.now.rows fault.now.columns sum) }
{
    text.extend_from_slice(b"fault ")?;
    push_line_set(text, fault)?;
    push_sum(text, sum)
}
