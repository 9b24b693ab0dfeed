//! Signing a given set of rows.
ghost use Rattle.clap.specs.Words.{app_of, found_of, rows_of};
ghost use Rattle.std.specs.Fmt.{decimal};
ghost use Rattle.std.specs.Prelude.{◌++◌, ◌+◌, ◌≡◌, IfOk, OnOk, codes, length};
ghost use Rattle.cmr_base.specs.LineSets.{AllBelow};
ghost use Rattle.cmr_base.specs.Matrix.{height};
ghost use Rattle.cmr_front.specs.Outcome.{outcome_report};
ghost use Rattle.cmr_front.specs.Texts.{ReportsText};
ghost use Rattle.cmr_front.specs.Tool.{IsDecision};
ghost use Rattle.cmr_front.specs.Words.ReadWords.{Gives};
ghost use Rattle.cmr_front.specs.declared.outcome.FaultKind.TheVariants as faults;
ghost use Rattle.cmr_front.specs.declared.status.Answer.{Answer};
ghost use Rattle.cmr_reach.specs.RowSet.{set_of_text};
ghost use Rattle.cmr_reach.specs.Sign.{IsAnswerFor, SignDecides, SignReports, sign_app, sign_lines, sign_mark, sign_order, sign_order_in, sign_order_of, sign_report, sign_tool, signed_report, step_lines, sign_step_words, violated_report};

use clap::{ArgMatches, Command};
use cmr_base::{Indices, LineSet, Matrix, Memory, SignList, Word};
use cmr_front::evidence_file::read_submatrix_file;
use cmr_front::input::{Input, InputKind, Text};
use cmr_front::matrix_file::{MatrixForm, matrix_input, read_matrix};
use cmr_front::outcome::{Outcome, Stop};
use cmr_front::printed::push_violator_line;
use cmr_front::status::Answer;
use cmr_front::tool::Tool;
use cmr_front::words::arguments::{MATRIX, ROWS};
use cmr_front::words::parsing::{form_in, matches_in, operand_in};
use cmr_front::words::{WordsError, arguments};
use itoa::Buffer;
use sign_tool::{Pivot, PivotList, SetSigning, sign_set};
use std::alloc::{AllocError, Global};
use std::thread::Threads;

/// The options of `sign`.
#[derive(Clone, Copy, Debug, PartialEq, Eq)]
pub struct SignOptions<'a> {
    /// The form of the matrix text.
    pub form: MatrixForm,
    /// The file that holds the matrix text.
    pub matrix: &'a str,
    /// The file that holds a submatrix text, whose rows are the set that is signed.
    pub rows: &'a str,
}

fn sign_command<'a>(alloc: Global) -> Result<Command<'a>, AllocError>
    ensures { IfOk result (λ c. app_of c ≡ sign_app) }
{
    let args = vec![in alloc;
        arguments::form_option(alloc),
        arguments::operand(alloc, MATRIX),
        arguments::operand(alloc, ROWS),
    ]?;
    arguments::tool_command(alloc, "sign", args)
}

fn options_in<'a>(matches: &ArgMatches<'a>) -> Result<SignOptions<'a>, WordsError>
    ensures { Gives sign_order_of result (sign_order_in (rows_of (found_of matches.now))) }
{
    let form = form_in(matches)?;
    let matrix = operand_in(matches, MATRIX)?;
    let rows = operand_in(matches, ROWS)?;
    Ok(SignOptions { form, matrix, rows })
}

/// The options that the arguments after `sign` give: `[-i FORMAT] MATRIX ROWS`.
pub fn read_sign<'a>(alloc: Global, words: &'a [Word]) -> Result<SignOptions<'a>, WordsError>
    ensures { Gives sign_order_of result (sign_order words.now) }
{
    let matches = matches_in(sign_command(alloc)?, words)?;
    options_in(&matches)
}

impl<'a> Tool<'a> for SignOptions<'a> {
    ghost tool = { λ options. sign_tool (sign_order_of options) };

    fn inputs(&self, alloc: Global) -> Result<Vec<Input<'a>>, Memory> {
        let mut inputs = matrix_input(alloc, self.matrix)?;
        inputs.push(Input {
            name: self.rows,
            kind: InputKind::MatrixText,
        })?;
        Ok(inputs)
    }

    fn decide<R: Threads + Sync>(
        &self,
        _rt: &R,
        alloc: Global,
        texts: &[Text],
    ) -> Result<Outcome<'a>, Stop<'a>> {
        decide_on(alloc, self, &texts[0].bytes, &texts[1].bytes)
    }

    fn lawful(&self) {}
}

fn decide_on<'a>(
    alloc: Global,
    options: &SignOptions<'a>,
    matrix: &[u8],
    rows: &[u8],
) -> Result<Outcome<'a>, Stop<'a>>
    ensures { IsDecision (SignReports (sign_order_of options.now) matrix.now rows.now) result }
{
    let matrix = read_matrix(alloc, options.matrix, options.form, false, matrix)?;
    decide_on_rows(alloc, options.rows, &matrix, rows)
}

fn decide_on_rows<'a>(
    alloc: Global,
    file: &'a str,
    matrix: &Matrix,
    rows: &[u8],
) -> Result<Outcome<'a>, Stop<'a>>
    ensures { IsDecision
        (ReportsText faults.Matrix file.entry.now (λ lines. SignDecides matrix.now lines.rows)
        (set_of_text matrix.now rows.now))
        result }
{
    let lines = read_submatrix_file(alloc, file, rows, matrix.rows(), matrix.columns())?;
    Ok(sign(alloc, matrix, &lines.rows)?)
}

fn sign<'a>(alloc: Global, matrix: &Matrix, rows: &Indices) -> Result<Outcome<'a>, Memory>
    requires { AllBelow (height matrix.now) rows.now }
    ensures { IfOk result (λ outcome. SignDecides matrix.now rows.now (outcome_report outcome)) }
{
    let answer = sign_set(alloc, matrix, rows)?;
    report_answer(alloc, matrix, rows, &answer)
}

fn report_answer<'a>(
    alloc: Global,
    matrix: &Matrix,
    rows: &Indices,
    answer: &SetSigning,
) -> Result<Outcome<'a>, Memory>
    requires { IsAnswerFor matrix.now rows.now answer.now }
    ensures { IfOk result (λ outcome. outcome_report outcome
        ≡ sign_report matrix.now rows.now answer.now) }
{
    match answer {
        SetSigning::Signed { signs, steps } => signed(alloc, rows, signs, steps),
        SetSigning::Violated(lines) => violated(alloc, matrix, lines),
    }
}

fn signed<'a>(
    alloc: Global,
    rows: &Indices,
    signs: &SignList,
    steps: &PivotList,
) -> Result<Outcome<'a>, Memory>
    requires { length signs.now ≡ length rows.now }
    ensures { IfOk result (λ outcome. outcome_report outcome
        ≡ signed_report rows.now signs.now steps.now) }
{
    let mut output = Vec::new(alloc);
    output.extend_from_slice(b"signed: yes\n")?;
    push_signs(&mut output, rows.as_slice(), signs.as_slice())?;
    push_steps(&mut output, steps.as_slice())?;
    Ok(Outcome {
        answer: Answer::Yes,
        output,
        files: Vec::new(alloc),
    })
}

fn push_signs(text: &mut Vec<u8>, rows: &[u32], signs: &[i8]) -> Result<(), Memory>
    requires { length signs.now ≡ length rows.now }
    ensures { OnOk result (text.new.items ≡ text.old.items ++ sign_lines rows.now signs.now) }
{
    for place in 0..rows.len() {
        push_sign(text, rows[place], signs[place])?;
    }
    Ok(())
}

fn push_sign(text: &mut Vec<u8>, row: u32, sign: i8) -> Result<(), Memory>
    ensures { OnOk result (text.new.items
        ≡ text.old.items ++ codes "row " ++ decimal (row + 1) ++ sign_mark sign) }
{
    text.extend_from_slice(b"row ")?;
    push_number(text, row)?;
    text.extend_from_slice(sign_mark(sign))?;
    Ok(())
}

fn sign_mark(sign: i8) -> &'static [u8]
    ensures { result.now ≡ sign_mark sign }
{
    if sign < 0 { b" -\n" } else { b" +\n" }
}

fn push_steps(text: &mut Vec<u8>, steps: &[Pivot]) -> Result<(), Memory>
    ensures { OnOk result (text.new.items ≡ text.old.items ++ step_lines steps.now) }
{
    for step in steps {
        push_step(text, step.row, step.column)?;
        text.push(b'\n')?;
    }
    Ok(())
}

fn push_step(text: &mut Vec<u8>, row: u32, column: Option<u32>) -> Result<(), Memory>
    ensures { OnOk result (text.new.items ≡ text.old.items ++ sign_step_words row column) }
{
    match column {
        None => {
            text.extend_from_slice(b"aside ")?;
            push_number(text, row)
        }
        Some(column) => {
            text.extend_from_slice(b"pivot ")?;
            push_number(text, row)?;
            text.push(b' ')?;
            push_number(text, column)
        }
    }
}

fn push_number(text: &mut Vec<u8>, line: u32) -> Result<(), Memory>
    ensures { OnOk result (text.new.items ≡ text.old.items ++ decimal (line + 1)) }
{
    let mut buffer = Buffer::new();
    text.extend_from_slice(buffer.format(u64::from(line) + 1).as_bytes())?;
    Ok(())
}

fn violated<'a>(alloc: Global, matrix: &Matrix, lines: &LineSet) -> Result<Outcome<'a>, Memory>
    requires rows { AllBelow (height matrix.now) lines.now.rows }
    requires columns { AllBelow matrix.now.width lines.now.columns }
    ensures { IfOk result (λ outcome. outcome_report outcome
        ≡ violated_report matrix.now lines.now) }
{
    let mut output = Vec::new(alloc);
    output.extend_from_slice(b"signed: no\n")?;
    push_violator_line(&mut output, lines, matrix.sum(lines))?;
    Ok(Outcome {
        answer: Answer::No,
        output,
        files: Vec::new(alloc),
    })
}
