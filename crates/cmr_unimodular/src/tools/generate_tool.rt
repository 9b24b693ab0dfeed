//! Generating a matrix from a number, and testing whether it is totally unimodular.
ghost use Rattle.clap.specs.Words.{app_of, found_of, rows_of};
ghost use Rattle.std.specs.Prelude.{◌≡◌, ◌≤◌, IfOk};
ghost use Rattle.cmr_base.specs.Matrix.{IsMatrix};
ghost use Rattle.cmr_front.specs.Outcome.{outcome_report};
ghost use Rattle.cmr_front.specs.Words.ReadWords.{Gives};
ghost use Rattle.cmr_unimodular.specs.Generate.{GenerateDecides, IsInRange, generate_app, generate_order, generate_order_in, generate_order_of, generate_report, generate_tool, generate_verdict, make_kind_in, kind_word, most_size, number_in, size_in, summary_line};
ghost use Rattle.cmr_unimodular.specs.Verdict.{verdict_order_of};

use crate::outline::push_size;
use crate::verdict::{VerdictOptions, give_verdict};
use clap::{ArgMatches, Command};
use cmr_base::{MAX_ROWS, Matrix, Memory, Word};
use cmr_front::asked::push_matrix;
use cmr_front::input::{Input, Text};
use cmr_front::outcome::{Outcome, Stop};
use cmr_front::tool::Tool;
use cmr_front::words::arguments::OUTPUT;
use cmr_front::words::parsing::{
    lines_in, matches_in, number_from, pivots_in, value_in, workers_in,
};
use cmr_front::words::{WordsError, arguments};
pub use generate::MakeKind;
use generate::make;
use itoa::Buffer;
use std::alloc::{AllocError, Global};
use std::thread::Threads;

/// The options of `generate`.
#[derive(Clone, Copy, Debug, PartialEq, Eq)]
pub struct GenerateOptions<'a> {
    /// The kind of the generated matrix.
    pub what: MakeKind,
    /// The number of arcs of the tree of a network, 1 to 1000, or the number of R10 matrices in the sum, 1 to 249.
    pub size: u32,
    /// The number from which all other numbers are drawn, below 2^31.
    pub number: u32,
    /// The maximum number of lines on the shorter side of a part for an exhaustive search, 0 to 24.
    pub budget: u32,
    /// The maximum number of pivots on the path to a part that nothing else decides, 0 to 100.
    pub pivots: u32,
    /// The number of workers that share the searches, 1 to 64. The answer does not depend on it.
    pub workers: u32,
    /// The file that gets the matrix.
    pub output: Option<&'a str>,
}

// The ids of the operands.
const KIND: &str = "kind";

const SIZE: &str = "size";

const NUMBER: &str = "number";

const MOST_NUMBER: u32 = 2_147_483_647;

fn generate_command<'a>(alloc: Global) -> Result<Command<'a>, AllocError>
    ensures { IfOk result (λ c. app_of c ≡ generate_app) }
{
    let args = vec![in alloc;
        arguments::operand(alloc, KIND),
        arguments::operand(alloc, SIZE),
        arguments::operand(alloc, NUMBER),
        arguments::lines_option(alloc),
        arguments::pivots_option(alloc),
        arguments::workers_option(alloc),
        arguments::output_option(alloc),
    ]?;
    arguments::tool_command(alloc, "generate", args)
}

fn kind_in(matches: &ArgMatches<'_>) -> Result<MakeKind, WordsError>
    ensures { Gives (λ kind. kind) result (make_kind_in (rows_of (found_of matches.now))) }
{
    match value_in(matches, KIND) {
        Some("network") => Ok(MakeKind::Network),
        Some("twosum") => Ok(MakeKind::TwoSum),
        Some(_) | None => Err(WordsError::Refused),
    }
}

// The maximum size: the matrix has at most 1000 rows and columns with it.
fn most_size(what: MakeKind) -> u32
    ensures { result ≡ most_size what }
{
    match what {
        MakeKind::Network => MAX_ROWS,
        MakeKind::TwoSum => 249,
    }
}

fn size_in(what: MakeKind, matches: &ArgMatches<'_>) -> Result<u32, WordsError>
    ensures { Gives (λ size. size) result (size_in what (rows_of (found_of matches.now))) }
{
    match value_in(matches, SIZE) {
        None => Err(WordsError::Refused),
        Some(text) => number_from(1, most_size(what), text).ok_or(WordsError::Refused),
    }
}

fn number_in(matches: &ArgMatches<'_>) -> Result<u32, WordsError>
    ensures { Gives (λ number. number) result (number_in (rows_of (found_of matches.now))) }
{
    match value_in(matches, NUMBER) {
        None => Err(WordsError::Refused),
        Some(text) => number_from(0, MOST_NUMBER, text).ok_or(WordsError::Refused),
    }
}

fn options_in<'a>(matches: &ArgMatches<'a>) -> Result<GenerateOptions<'a>, WordsError>
    ensures { Gives generate_order_of result (generate_order_in (rows_of (found_of matches.now))) }
{
    let what = kind_in(matches)?;
    Ok(GenerateOptions {
        what,
        size: size_in(what, matches)?,
        number: number_in(matches)?,
        budget: lines_in(matches)?,
        pivots: pivots_in(matches)?,
        workers: workers_in(matches)?,
        output: value_in(matches, OUTPUT),
    })
}

/// The options that the arguments after `generate` give: `KIND SIZE NUMBER [--lines L] [--pivots K] [-w N] [-M FILE]`.
pub fn read_generate<'a>(
    alloc: Global,
    words: &'a [Word],
) -> Result<GenerateOptions<'a>, WordsError>
    ensures value { Gives generate_order_of result (generate_order words.now) }
    ensures ranges { IfOk result (λ options. (generate_tool (generate_order_of options)).InRanges) }
    ensures pivots { IfOk result (λ options. options.pivots ≤ 100) }
{
    let matches = matches_in(generate_command(alloc)?, words)?;
    options_in(&matches)
}

impl<'a> Tool<'a> for GenerateOptions<'a> {
    ghost tool = { λ options. generate_tool (generate_order_of options) };

    fn inputs(&self, alloc: Global) -> Result<Vec<Input<'a>>, Memory> {
        Ok(Vec::new(alloc))
    }

    fn decide<R: Threads + Sync>(
        &self,
        rt: &R,
        alloc: Global,
        _texts: &[Text],
    ) -> Result<Outcome<'a>, Stop<'a>> {
        Ok(make_and_test(rt, alloc, self)?)
    }

    fn lawful(&self) {}
}

fn make_and_test<'a, R: Threads + Sync>(
    rt: &R,
    alloc: Global,
    options: &GenerateOptions<'a>,
) -> Result<Outcome<'a>, Memory>
    requires { IsInRange (generate_order_of options.now) }
    ensures { IfOk result (λ outcome.
        GenerateDecides (generate_order_of options.now) (outcome_report outcome)) }
{
    let matrix = make(alloc, options.what, options.size, options.number)?;
    let verdict = give_verdict(rt, alloc, &verdict_options(options), &matrix)?;
    with_summary(alloc, options, &matrix, verdict)
}

fn verdict_options<'a>(options: &GenerateOptions<'a>) -> VerdictOptions<'a>
    ensures order { verdict_order_of result ≡ generate_verdict (generate_order_of options.now) }
    ensures workers { result.workers ≡ options.now.workers }
{
    VerdictOptions {
        label: b"totally unimodular",
        budget: options.budget,
        pivots: options.pivots,
        workers: options.workers,
        tree: None,
        fault: None,
    }
}

// The summary before the output of the verdict, and the matrix after its files.
fn with_summary<'a>(
    alloc: Global,
    options: &GenerateOptions<'a>,
    matrix: &Matrix,
    verdict: Outcome<'a>,
) -> Result<Outcome<'a>, Memory>
    ensures report { IfOk result (λ outcome. outcome_report outcome
        ≡ generate_report (generate_order_of options.now) matrix.now
        (outcome_report verdict.entry)) }
    ensures shape { IfOk result (λ outcome. IsMatrix matrix.now) }
{
    let mut output = summary(alloc, options.what, matrix)?;
    output.extend_from_slice(&verdict.output)?;
    let mut files = verdict.files;
    push_matrix(alloc, &mut files, options.output, matrix)?;
    Ok(Outcome {
        answer: verdict.answer,
        output,
        files,
    })
}

fn summary(alloc: Global, what: MakeKind, matrix: &Matrix) -> Result<Vec<u8>, Memory>
    ensures text { IfOk result (λ text. text.items ≡ summary_line what matrix.now) }
    ensures shape { IfOk result (λ text. IsMatrix matrix.now) }
{
    let mut buffer = Buffer::new();
    let mut text = b"generated ".as_slice().to_vec(alloc)?;
    text.extend_from_slice(kind_word(what))?;
    push_size(&mut text, matrix.rows() as usize, matrix.columns() as usize)?;
    text.extend_from_slice(b" nonzeros ")?;
    text.extend_from_slice(buffer.format(matrix.nonzeros()).as_bytes())?;
    text.push(b'\n')?;
    Ok(text)
}

fn kind_word(what: MakeKind) -> &'static [u8]
    ensures { result.now ≡ kind_word what }
{
    match what {
        MakeKind::Network => b"network",
        MakeKind::TwoSum => b"twosum",
    }
}
