// Texts of lines and of steps.
ghost use Rattle.std.specs.Prelude.{◌≡◌, ◌++◌, IfOk, OnOk, codes};
ghost use Rattle.std.specs.Fmt.{signed_decimal};
ghost use Rattle.text_fields.specs.LineNumbers.{line_name};
ghost use Rattle.cmr_front.specs.Minimal.{minimal_line};
ghost use Rattle.cmr_front.specs.Printed.{line_numbers, line_set_text, open_line, reason_words, steps_text, violator_line};

use cmr_base::{Indices, Line, LineSet, Memory, Reason, Step, StepList};
use itoa::Buffer;
use std::alloc::Global;
use text_fields::push_line_name;

/// Appends a set of lines: `rows LIST columns LIST`.
pub fn push_line_set(text: &mut Vec<u8>, lines: &LineSet) -> Result<(), Memory>
    ensures { OnOk result (text.new.items
        ≡ text.old.items ++ line_set_text lines.now.rows lines.now.columns) }
{
    text.extend_from_slice(b"rows")?;
    push_line_numbers(text, &lines.rows)?;
    text.extend_from_slice(b" columns")?;
    push_line_numbers(text, &lines.columns)
}

fn push_line_numbers(text: &mut Vec<u8>, lines: &Indices) -> Result<(), Memory>
    ensures { OnOk result (text.new.items ≡ text.old.items ++ line_numbers lines.now) }
{
    let mut buffer = Buffer::new();
    for line in lines.as_slice() {
        text.push(b' ')?;
        text.extend_from_slice(buffer.format(u64::from(*line) + 1).as_bytes())?;
    }
    Ok(())
}

/// Appends the line on a violator and its sum.
pub fn push_violator_line(text: &mut Vec<u8>, lines: &LineSet, sum: i32) -> Result<(), Memory>
    ensures { OnOk result (text.new.items
        ≡ text.old.items ++ violator_line lines.now.rows lines.now.columns sum) }
{
    text.extend_from_slice(b"violator ")?;
    push_line_set(text, lines)?;
    push_sum(text, sum)
}

/// Appends a sum and the end of its line.
pub fn push_sum(text: &mut Vec<u8>, sum: i32) -> Result<(), Memory>
    ensures { OnOk result (text.new.items
        ≡ text.old.items ++ codes " sum " ++ signed_decimal sum ++ codes "\n") }
{
    let mut buffer = Buffer::new();
    text.extend_from_slice(b" sum ")?;
    text.extend_from_slice(buffer.format(sum).as_bytes())?;
    text.push(b'\n')?;
    Ok(())
}

/// Appends the line on the lines that are left open.
pub fn push_open_line(text: &mut Vec<u8>, lines: &LineSet) -> Result<(), Memory>
    ensures { OnOk result (text.new.items
        ≡ text.old.items ++ open_line lines.now.rows lines.now.columns) }
{
    text.extend_from_slice(b"open ")?;
    push_line_set(text, lines)?;
    text.push(b'\n')?;
    Ok(())
}

/// Appends the line on a minimal submatrix, if there is one.
pub fn push_minimal_line(text: &mut Vec<u8>, minimal: &Option<LineSet>) -> Result<(), Memory>
    ensures { OnOk result (text.new.items ≡ text.old.items ++ minimal_line minimal.now) }
{
    if let Some(lines) = minimal {
        text.extend_from_slice(b"minimal ")?;
        push_line_set(text, lines)?;
        text.push(b'\n')?;
    }
    Ok(())
}

/// The list of reductions: a line for each step.
pub fn write_steps(alloc: Global, steps: &StepList) -> Result<Vec<u8>, Memory>
    ensures { IfOk result (λ text. text.items ≡ steps_text steps.now) }
{
    let mut text = Vec::new(alloc);
    for step in steps.as_slice() {
        push_step(&mut text, *step)?;
    }
    Ok(text)
}

fn push_step(text: &mut Vec<u8>, step: Step) -> Result<(), Memory>
    ensures { OnOk result (text.new.items
        ≡ text.old.items ++ line_name step.line ++ codes " " ++ reason_words step.reason
        ++ codes "\n") }
{
    push_line_name(text, step.line)?;
    text.push(b' ')?;
    push_reason(text, step.reason)?;
    text.push(b'\n')?;
    Ok(())
}

fn push_reason(text: &mut Vec<u8>, reason: Reason) -> Result<(), Memory>
    ensures { OnOk result (text.new.items ≡ text.old.items ++ reason_words reason) }
{
    match reason {
        Reason::Zero => {
            text.extend_from_slice(b"zero")?;
            Ok(())
        }
        Reason::Unit(line) => push_named(text, b"unit ", line),
        Reason::Copy(line) => push_named(text, b"copy ", line),
        Reason::Negative(line) => push_named(text, b"negative ", line),
    }
}

fn push_named(text: &mut Vec<u8>, reason: &[u8], line: Line) -> Result<(), Memory>
    ensures { OnOk result (text.new.items ≡ text.old.items ++ reason.now ++ line_name line) }
{
    text.extend_from_slice(reason)?;
    push_line_name(text, line)
}
