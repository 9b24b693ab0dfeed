//! The arguments that the tools share, and the command of `clap` that has them.
ghost use Rattle.std.specs.Prelude.{◌≡◌, IfOk, [], false, map};
ghost use Rattle.std.specs.List.{AllByRecursion};
ghost use Rattle.clap.specs.Words.{app_of, rule_of};
ghost use Rattle.cmr_front.specs.Words.Arguments as arguments;

use clap::{Arg, ArgAction, Command};
use std::alloc::{AllocError, Global};

// The ids of the arguments.
pub const FORMAT: &str = "format";

pub const LINES: &str = "lines";

pub const PIVOTS: &str = "pivots";

pub const TREE: &str = "tree";

pub const FAULT: &str = "fault";

pub const BINARY: &str = "binary";

pub const TRANSPOSED: &str = "transposed";

pub const MINIMAL: &str = "minimal";

pub const STEPS: &str = "steps";

pub const REST: &str = "rest";

pub const GRAPH: &str = "graph";

pub const FROM_GRAPH: &str = "from-graph";

pub const OUTPUT: &str = "output";

pub const CHAIN: &str = "chain";

pub const FILE: &str = "file";

pub const MATRIX: &str = "matrix";

pub const ROWS: &str = "rows";

pub const EVIDENCE: &str = "evidence";

pub const WORKERS: &str = "workers";

// A command with no argument.
fn bare_command<'a>(alloc: Global, name: &'a str) -> Command<'a>
    ensures { app_of result ≡ arguments.tool_app name.now [] }
{
    Command::new(alloc, name)
        .no_binary_name(true)
        .disable_help_flag(true)
        .disable_version_flag(true)
}

/// An option of one letter with a value.
pub fn value_option<'a>(alloc: Global, id: &'a str, letter: char) -> Arg<'a>
    ensures rule { rule_of result ≡ arguments.value_rule id.now letter }
    ensures local { result.global ≡ false }
{
    Arg::new(alloc, id).short(letter).action(ArgAction::Set)
}

/// A flag of one letter.
pub fn flag<'a>(alloc: Global, id: &'a str, letter: char) -> Arg<'a>
    ensures rule { rule_of result ≡ arguments.flag_rule id.now letter }
    ensures local { result.global ≡ false }
{
    Arg::new(alloc, id).short(letter).action(ArgAction::SetTrue)
}

/// The option `-i FORMAT`.
pub fn form_option<'a>(alloc: Global) -> Arg<'a>
    ensures rule { rule_of result ≡ arguments.form_rule }
    ensures local { result.global ≡ false }
{
    value_option(alloc, FORMAT, 'i')
}

/// The option `--lines L`.
pub fn lines_option<'a>(alloc: Global) -> Arg<'a>
    ensures rule { rule_of result ≡ arguments.lines_rule }
    ensures local { result.global ≡ false }
{
    Arg::new(alloc, LINES).long(LINES).action(ArgAction::Set)
}

/// The option `--pivots K`.
pub fn pivots_option<'a>(alloc: Global) -> Arg<'a>
    ensures rule { rule_of result ≡ arguments.pivots_rule }
    ensures local { result.global ≡ false }
{
    Arg::new(alloc, PIVOTS).long(PIVOTS).action(ArgAction::Set)
}

/// The option `-w N`.
pub fn workers_option<'a>(alloc: Global) -> Arg<'a>
    ensures rule { rule_of result ≡ arguments.workers_rule }
    ensures local { result.global ≡ false }
{
    value_option(alloc, WORKERS, 'w')
}

/// The option `-D FILE`.
pub fn tree_option<'a>(alloc: Global) -> Arg<'a>
    ensures rule { rule_of result ≡ arguments.tree_rule }
    ensures local { result.global ≡ false }
{
    value_option(alloc, TREE, 'D')
}

/// The option `-E FILE`.
pub fn fault_option<'a>(alloc: Global) -> Arg<'a>
    ensures rule { rule_of result ≡ arguments.fault_rule }
    ensures local { result.global ≡ false }
{
    value_option(alloc, FAULT, 'E')
}

/// The flag `-b`.
pub fn binary_flag<'a>(alloc: Global) -> Arg<'a>
    ensures rule { rule_of result ≡ arguments.binary_rule }
    ensures local { result.global ≡ false }
{
    flag(alloc, BINARY, 'b')
}

/// The flag `-t`.
pub fn transposed_flag<'a>(alloc: Global) -> Arg<'a>
    ensures rule { rule_of result ≡ arguments.transposed_rule }
    ensures local { result.global ≡ false }
{
    flag(alloc, TRANSPOSED, 't')
}

/// The option `-N FILE`.
pub fn minimal_option<'a>(alloc: Global) -> Arg<'a>
    ensures rule { rule_of result ≡ arguments.minimal_rule }
    ensures local { result.global ≡ false }
{
    value_option(alloc, MINIMAL, 'N')
}

/// The option `-S FILE`.
pub fn steps_option<'a>(alloc: Global) -> Arg<'a>
    ensures rule { rule_of result ≡ arguments.steps_rule }
    ensures local { result.global ≡ false }
{
    value_option(alloc, STEPS, 'S')
}

/// The option `-R FILE`.
pub fn rest_option<'a>(alloc: Global) -> Arg<'a>
    ensures rule { rule_of result ≡ arguments.rest_rule }
    ensures local { result.global ≡ false }
{
    value_option(alloc, REST, 'R')
}

/// The option `-G FILE`.
pub fn graph_option<'a>(alloc: Global) -> Arg<'a>
    ensures rule { rule_of result ≡ arguments.graph_rule }
    ensures local { result.global ≡ false }
{
    value_option(alloc, GRAPH, 'G')
}

/// The flag `-c`.
pub fn from_graph_flag<'a>(alloc: Global) -> Arg<'a>
    ensures rule { rule_of result ≡ arguments.from_graph_rule }
    ensures local { result.global ≡ false }
{
    flag(alloc, FROM_GRAPH, 'c')
}

/// The option `-M FILE`.
pub fn output_option<'a>(alloc: Global) -> Arg<'a>
    ensures rule { rule_of result ≡ arguments.output_rule }
    ensures local { result.global ≡ false }
{
    value_option(alloc, OUTPUT, 'M')
}

/// The option `-C FILE`.
pub fn chain_option<'a>(alloc: Global) -> Arg<'a>
    ensures rule { rule_of result ≡ arguments.chain_rule }
    ensures local { result.global ≡ false }
{
    value_option(alloc, CHAIN, 'C')
}

/// An operand that is required.
pub fn operand<'a>(alloc: Global, id: &'a str) -> Arg<'a>
    ensures rule { rule_of result ≡ arguments.operand_rule id.now }
    ensures local { result.global ≡ false }
{
    Arg::new(alloc, id).required(true)
}

/// The argument, which is required.
pub fn required<'a>(arg: Arg<'a>) -> Arg<'a>
    ensures rule { rule_of result ≡ arguments.required (rule_of arg.entry) }
    ensures local { result.global ≡ arg.entry.global }
{
    arg.required(true)
}

/// The operand FILE.
pub fn file_operand<'a>(alloc: Global) -> Arg<'a>
    ensures rule { rule_of result ≡ arguments.file_rule }
    ensures local { result.global ≡ false }
{
    Arg::new(alloc, FILE)
}

/// The command of a tool, with these arguments in their order, and without a name of the program, help and version.
pub fn tool_command<'a>(
    alloc: Global,
    name: &'a str,
    args: Vec<Arg<'a>>,
) -> Result<Command<'a>, AllocError>
    requires { AllByRecursion (λ arg. arg.global ≡ false) args.items }
    ensures { IfOk result (λ command.
        app_of command ≡ arguments.tool_app name.now (map rule_of args.entry.items)) }
{
    bare_command(alloc, name).args(args)
}
