//! Writing a decomposition tree again, in its canonical text.
ghost use Rattle.clap.specs.Words.{app_of, found_of, rows_of};
ghost use Rattle.std.specs.Prelude.{◌≡◌, IfOk};
ghost use Rattle.tree_text.specs.TreeReading.{plain_of};
ghost use Rattle.cmr_front.specs.Evidence.{ReportsTree};
ghost use Rattle.cmr_front.specs.Outcome.{outcome_report};
ghost use Rattle.cmr_front.specs.Tool.{IsDecision};
ghost use Rattle.cmr_front.specs.Words.ReadWords.{Gives};
ghost use Rattle.cmr_front.specs.declared.status.Answer.{Answer};
ghost use Rattle.cmr_evidence.specs.Upgrade.{UpgradeDecides, upgrade_app, upgrade_order, upgrade_order_in, upgrade_order_of, upgrade_report, upgrade_tool, upgraded_line};

use clap::{ArgMatches, Command};
use cmr_base::{Memory, Word};
use cmr_front::evidence_file::{evidence_input, read_tree_file};
use cmr_front::input::{Input, Text};
use cmr_front::outcome::{Outcome, OutputFile, Stop};
use cmr_front::status::Answer;
use cmr_front::tool::Tool;
use cmr_front::words::arguments::{EVIDENCE, TREE};
use cmr_front::words::parsing::{matches_in, operand_in};
use cmr_front::words::{WordsError, arguments};
use itoa::Buffer;
use std::alloc::{AllocError, Global};
use std::thread::Threads;
use tree_text::write_tree;
use tree_type::{DecTree, count_nodes};

/// The options of `upgrade`. An input file of the name `-` is standard input.
#[derive(Clone, Copy, Debug, PartialEq, Eq)]
pub struct UpgradeOptions<'a> {
    /// The file that holds the tree text, of any version.
    pub evidence: &'a str,
    /// The file that gets the canonical text.
    pub tree: &'a str,
}

fn upgrade_command<'a>(alloc: Global) -> Result<Command<'a>, AllocError>
    ensures { IfOk result (λ c. app_of c ≡ upgrade_app) }
{
    let args = vec![in alloc;
        arguments::operand(alloc, EVIDENCE),
        arguments::required(arguments::tree_option(alloc)),
    ]?;
    arguments::tool_command(alloc, "upgrade", args)
}

fn options_in<'a>(matches: &ArgMatches<'a>) -> Result<UpgradeOptions<'a>, WordsError>
    ensures { Gives upgrade_order_of result (upgrade_order_in (rows_of (found_of matches.now))) }
{
    let evidence = operand_in(matches, EVIDENCE)?;
    let tree = operand_in(matches, TREE)?;
    Ok(UpgradeOptions { evidence, tree })
}

/// The options that the arguments after `upgrade` give: `EVIDENCE -D FILE`.
pub fn read_upgrade<'a>(alloc: Global, words: &'a [Word]) -> Result<UpgradeOptions<'a>, WordsError>
    ensures { Gives upgrade_order_of result (upgrade_order words.now) }
{
    let matches = matches_in(upgrade_command(alloc)?, words)?;
    options_in(&matches)
}

impl<'a> Tool<'a> for UpgradeOptions<'a> {
    ghost tool = { λ options. upgrade_tool (upgrade_order_of options) };

    fn inputs(&self, alloc: Global) -> Result<Vec<Input<'a>>, Memory> {
        evidence_input(alloc, self.evidence)
    }

    fn decide<R: Threads + Sync>(
        &self,
        _rt: &R,
        alloc: Global,
        texts: &[Text],
    ) -> Result<Outcome<'a>, Stop<'a>> {
        upgrade_text(alloc, self, &texts[0].bytes)
    }

    fn lawful(&self) {}
}

fn upgrade_text<'a>(
    alloc: Global,
    options: &UpgradeOptions<'a>,
    evidence: &[u8],
) -> Result<Outcome<'a>, Stop<'a>>
    ensures { IsDecision
        (ReportsTree options.now.evidence.now (UpgradeDecides options.now.tree.now) evidence.now)
        result }
{
    let tree = read_tree_file(alloc, options.evidence, evidence)?;
    upgrade_tree(alloc, options.tree, &tree)
}

fn upgrade_tree<'a>(alloc: Global, name: &'a str, tree: &DecTree) -> Result<Outcome<'a>, Stop<'a>>
    ensures { IsDecision (UpgradeDecides name.entry.now (plain_of tree.now)) result }
{
    Ok(upgraded(alloc, name, tree)?)
}

fn upgraded<'a>(alloc: Global, name: &'a str, tree: &DecTree) -> Result<Outcome<'a>, Memory>
    ensures { IfOk result (λ outcome. outcome_report outcome
        ≡ upgrade_report name.entry.now (plain_of tree.now)) }
{
    let bytes = write_tree(alloc, tree)?;
    let output = upgraded_line(alloc, count_nodes(tree))?;
    let mut files = Vec::new(alloc);
    files.push(OutputFile { name, bytes })?;
    Ok(Outcome {
        answer: Answer::Yes,
        output,
        files,
    })
}

fn upgraded_line(alloc: Global, nodes: u64) -> Result<Vec<u8>, Memory>
    ensures { IfOk result (λ text. text.items ≡ upgraded_line nodes) }
{
    let mut buffer = Buffer::new();
    let mut text = b"upgraded: ".to_vec(alloc)?;
    text.extend_from_slice(buffer.format(nodes).as_bytes())?;
    text.extend_from_slice(b" nodes\n")?;
    Ok(text)
}
