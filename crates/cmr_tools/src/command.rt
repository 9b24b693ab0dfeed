//! A tool with its options: how it is read from the arguments of the command line, and how it runs. The first argument
//! names the tool, and `clap` reads the others, except a last argument `-`, with which the tool reads standard input.
ghost use Rattle.std.specs.Prelude.{◌≡◌, IfOk, IsTrue};
ghost use Rattle.cmr_front.specs.Run.{Means, RunsOver, work};
ghost use Rattle.cmr_front.specs.Status.{answer_status};
ghost use Rattle.cmr_front.specs.Words.ReadWords.{Gives};
ghost use Rattle.cmr_front.specs.declared.status.Answer.{Answer};
ghost use Rattle.cmr_tools.specs.ToolOrders.{order, order_of, order_with, tool_named, tool_of};

use cmr_base::{Word, WordList};
use cmr_classes::tools::graphic_network::{PropertyTest, TestedProperty, read_test};
use cmr_classes::tools::series_parallel::{SpOptions, read_series_parallel};
use cmr_evidence::tools::check::{CheckOptions, read_check};
use cmr_evidence::tools::upgrade::{UpgradeOptions, read_upgrade};
use cmr_front::tool::Tool;
use cmr_front::words::WordsError;
use cmr_io::{Shelf, Sink};
use cmr_reach::tools::balanced::{BalancedOptions, read_balanced};
use cmr_reach::tools::camion::{CamionOptions, read_camion};
use cmr_reach::tools::compose_tool::{ComposeOptions, read_compose};
use cmr_reach::tools::parts::{PartsOptions, read_parts};
use cmr_reach::tools::sign::{SignOptions, read_sign};
use cmr_unimodular::tools::generate_tool::{GenerateOptions, read_generate};
use cmr_unimodular::tools::regular::{RegularOptions, read_regular};
use cmr_unimodular::tools::tu::{TuOptions, read_tu};
use std::alloc::Global;
use std::thread::Threads;

/// A tool with its options.
#[derive(Clone, Copy)]
pub enum Command<'a> {
    /// Tests whether a matrix is totally unimodular.
    Tu(TuOptions<'a>),
    /// Tests whether a 0/1 matrix has a totally unimodular signing.
    Regular(RegularOptions<'a>),
    /// Tests whether a matrix is series-parallel.
    SeriesParallel(SpOptions<'a>),
    /// Tests whether the columns of a matrix are paths of a tree.
    Test(PropertyTest<'a>),
    /// Generates a matrix from a number, and tests whether it is totally unimodular.
    Generate(GenerateOptions<'a>),
    /// Checks evidence on a matrix.
    Check(CheckOptions<'a>),
    /// Writes a decomposition tree again, in its canonical text.
    Upgrade(UpgradeOptions<'a>),
    /// Tests whether a matrix has no cycle fault.
    Camion(CamionOptions<'a>),
    /// Signs a given set of rows.
    Sign(SignOptions<'a>),
    /// Tests whether a matrix is balanced.
    Balanced(BalancedOptions<'a>),
    /// Writes the two matrices of which the root of a decomposition tree is a sum.
    Parts(PartsOptions<'a>),
    /// Writes a sum of two matrices.
    Compose(ComposeOptions<'a>),
}

/// The names of the tools. `graphic` and `network` are one tool, which tests a property.
#[derive(Clone, Copy)]
enum ToolName {
    Tu,
    Regular,
    SeriesParallel,
    Test(TestedProperty),
    Generate,
    Check,
    Upgrade,
    Camion,
    Sign,
    Balanced,
    Parts,
    Compose,
}

/// The command that the arguments give.
pub fn read_words<'a>(alloc: Global, words: &'a WordList) -> Result<Command<'a>, WordsError>
    ensures value { Gives order_of result (order words.now) }
    ensures ranges { IfOk result (λ command. (tool_of (order_of command)).InRanges) }
{
    let Some((tool, rest)) = words.as_slice().split_first() else {
        return Err(WordsError::Refused);
    };
    match tool_named(tool.text()) {
        Some(name) => read_options(alloc, name, rest),
        None => Err(WordsError::Refused),
    }
}

// The command of a tool, by the arguments after its name.
fn read_options<'a>(
    alloc: Global,
    name: ToolName,
    words: &'a [Word],
) -> Result<Command<'a>, WordsError>
    ensures value { Gives order_of result (order_with name words.now) }
    ensures ranges { IfOk result (λ command. (tool_of (order_of command)).InRanges) }
{
    match name {
        ToolName::Tu => read_tu(alloc, words).map(Command::Tu),
        ToolName::Regular => read_regular(alloc, words).map(Command::Regular),
        ToolName::SeriesParallel => {
            read_series_parallel(alloc, words).map(Command::SeriesParallel)
        }
        ToolName::Test(property) => {
            let options = read_test(alloc, property, words)?;
            Ok(Command::Test(PropertyTest { property, options }))
        }
        ToolName::Generate => read_generate(alloc, words).map(Command::Generate),
        ToolName::Check => read_check(alloc, words).map(Command::Check),
        ToolName::Upgrade => read_upgrade(alloc, words).map(Command::Upgrade),
        ToolName::Camion => read_camion(alloc, words).map(Command::Camion),
        ToolName::Sign => read_sign(alloc, words).map(Command::Sign),
        ToolName::Balanced => read_balanced(alloc, words).map(Command::Balanced),
        ToolName::Parts => read_parts(alloc, words).map(Command::Parts),
        ToolName::Compose => read_compose(alloc, words).map(Command::Compose),
    }
}

// The tool that an argument names.
fn tool_named(word: &str) -> Option<ToolName>
    ensures { result ≡ tool_named word.now }
{
    match word {
        "tu" => Some(ToolName::Tu),
        "regular" => Some(ToolName::Regular),
        "series-parallel" => Some(ToolName::SeriesParallel),
        "graphic" => Some(ToolName::Test(TestedProperty::Graphic)),
        "network" => Some(ToolName::Test(TestedProperty::Network)),
        "generate" => Some(ToolName::Generate),
        "check" => Some(ToolName::Check),
        "upgrade" => Some(ToolName::Upgrade),
        "camion" => Some(ToolName::Camion),
        "sign" => Some(ToolName::Sign),
        "balanced" => Some(ToolName::Balanced),
        "parts" => Some(ToolName::Parts),
        "compose" => Some(ToolName::Compose),
        _ => None,
    }
}

/// Carries out a command, and returns the status.
pub fn obey<R: Threads + Sync, S: Shelf, O: Sink, E: Sink>(
    rt: &R,
    alloc: Global,
    command: &Command<'_>,
    shelf: &mut S,
    out: &mut O,
    err: &mut E,
) -> u8
    requires { (tool_of (order_of command.now)).InRanges }
    ensures runs { RunsOver S.Shelf O.Sink E.Sink
        (work (tool_of (order_of command.now)))
        shelf.old out.old err.old shelf.new out.new err.new result }
    ensures means { IsTrue (S.tells shelf.old) → (answer : Answer) → result ≡ answer_status answer
        → Means (tool_of (order_of command.now)) (S.content shelf.old) answer }
{
    match command {
        Command::Tu(options) => options.run(rt, alloc, shelf, out, err),
        Command::Regular(options) => options.run(rt, alloc, shelf, out, err),
        Command::SeriesParallel(options) => options.run(rt, alloc, shelf, out, err),
        Command::Test(test) => test.run(rt, alloc, shelf, out, err),
        Command::Generate(options) => options.run(rt, alloc, shelf, out, err),
        Command::Check(options) => options.run(rt, alloc, shelf, out, err),
        Command::Upgrade(options) => options.run(rt, alloc, shelf, out, err),
        Command::Camion(options) => options.run(rt, alloc, shelf, out, err),
        Command::Sign(options) => options.run(rt, alloc, shelf, out, err),
        Command::Balanced(options) => options.run(rt, alloc, shelf, out, err),
        Command::Parts(options) => options.run(rt, alloc, shelf, out, err),
        Command::Compose(options) => options.run(rt, alloc, shelf, out, err),
    }
}
