//! Camion's test: whether a matrix has no cycle fault.
ghost use Rattle.clap.specs.Words.{app_of, found_of, rows_of};
ghost use Rattle.std.specs.Prelude.{◌≡◌, IfOk};
ghost use Rattle.cmr_front.specs.Outcome.{outcome_report};
ghost use Rattle.cmr_front.specs.Words.ReadWords.{Gives};
ghost use Rattle.cmr_reach.specs.Camion.{CamionDecides, camion_app, camion_order, camion_order_in, camion_order_of, camion_tool};

use crate::faults::{fault_outcome, yes_outcome};
use camion_sign::cycle_fault;
use clap::{ArgMatches, Command};
use cmr_base::{Matrix, Memory, Word};
use cmr_front::input::{Input, Text};
use cmr_front::matrix_file::{MatrixForm, matrix_input, read_matrix};
use cmr_front::outcome::{Outcome, Stop};
use cmr_front::tool::Tool;
use cmr_front::words::parsing::{fault_in, file_in, form_in, matches_with_input};
use cmr_front::words::{WordsError, arguments};
use std::alloc::{AllocError, Global};
use std::thread::Threads;

/// The options of `camion`. A file of the name `-` is standard input.
#[derive(Clone, Copy, Debug, PartialEq, Eq)]
pub struct CamionOptions<'a> {
    /// The form of the matrix text.
    pub form: MatrixForm,
    /// The file that gets the cycle fault, if there is one.
    pub fault: Option<&'a str>,
    /// The file that holds the matrix text.
    pub file: &'a str,
}

fn camion_command<'a>(alloc: Global) -> Result<Command<'a>, AllocError>
    ensures { IfOk result (λ c. app_of c ≡ camion_app) }
{
    let args = vec![in alloc;
        arguments::form_option(alloc),
        arguments::fault_option(alloc),
        arguments::file_operand(alloc),
    ]?;
    arguments::tool_command(alloc, "camion", args)
}

fn options_in<'a>(matches: &ArgMatches<'a>) -> Result<CamionOptions<'a>, WordsError>
    ensures { Gives camion_order_of result (camion_order_in (rows_of (found_of matches.now))) }
{
    Ok(CamionOptions {
        form: form_in(matches)?,
        fault: fault_in(matches),
        file: file_in(matches),
    })
}

/// The options that the arguments after `camion` give: `[-i FORMAT] [-E FILE] [FILE]`.
pub fn read_camion<'a>(alloc: Global, words: &'a [Word]) -> Result<CamionOptions<'a>, WordsError>
    ensures { Gives camion_order_of result (camion_order words.now) }
{
    let matches = matches_with_input(camion_command(alloc)?, words)?;
    options_in(&matches)
}

impl<'a> Tool<'a> for CamionOptions<'a> {
    ghost tool = { λ options. camion_tool (camion_order_of options) };

    fn inputs(&self, alloc: Global) -> Result<Vec<Input<'a>>, Memory> {
        matrix_input(alloc, self.file)
    }

    fn decide<R: Threads + Sync>(
        &self,
        _rt: &R,
        alloc: Global,
        texts: &[Text],
    ) -> Result<Outcome<'a>, Stop<'a>> {
        let matrix = read_matrix(alloc, self.file, self.form, false, &texts[0].bytes)?;
        Ok(test(alloc, self, &matrix)?)
    }

    fn lawful(&self) {}
}

fn test<'a>(
    alloc: Global,
    options: &CamionOptions<'a>,
    matrix: &Matrix,
) -> Result<Outcome<'a>, Memory>
    ensures { IfOk result (λ outcome.
        CamionDecides (camion_order_of options.now) matrix.now (outcome_report outcome)) }
{
    match cycle_fault(alloc, matrix)? {
        Some(fault) => fault_outcome(alloc, b"camion", options.fault, matrix, &fault),
        None => yes_outcome(alloc, b"camion"),
    }
}
