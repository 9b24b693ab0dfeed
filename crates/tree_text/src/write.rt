// Writes trees.
ghost use Rattle.std.specs.Prelude.{◌≡◌, ◌≤◌, ◌+◌, ◌++◌, ◌∷◌, [], false, fold, length, map, Ok, IfOk, OnOk};
ghost use Rattle.std.specs.Fmt.{decimal};
ghost use Rattle.std.specs.List.{flat_map};
ghost use Rattle.text_fields.specs.TextWords.{text_of};
ghost use Rattle.text_fields.specs.Written.{with_word, with_line};
ghost use Rattle.tree_type.specs.NodeCounts.{node_count};
ghost use Rattle.tree_type.specs.DecompositionTrees.{tree_of, finding_of};
ghost use Rattle.tree_text.specs.KindWords.{word_of_kind, kind_of};
ghost use Rattle.tree_text.specs.TreeReading as reading;
ghost use Rattle.tree_text.specs.CanonicalTrees.{number_of_line, line_name, set_words, pair_words, network_words, connector_words, line_for, own_text_line, opening_lines, node_lines, tree_text};

use crate::header::{title_of, title_word, version_of, version_word};
use crate::kind_word::{kind_of, word_of};
use cmr_base::{Connector, Line, LineSet, Memory, Network, Pair, Position, Three, Two};
use itoa::Buffer;
use std::alloc::Global;
use text_fields::{Writer, push_line_name};
use tree_type::{DecTree, Kind, Node};

/// The canonical text of a tree: in version 2, or a text of pivots if a node is pivoted.
pub fn write_tree(alloc: Global, tree: &DecTree) -> Result<Vec<u8>, Memory>
    ensures text { IfOk result (λ v. v.items ≡ tree_text tree.now.rows tree.now.columns
        (tree_of tree.now.root)) }
    // Reading gives the same tree.
    ensures again { IfOk result (λ v. reading.tree (text_of v.items)
        ≡ Ok (reading.plain_of tree.now)) }
    // The text has at least one byte for each node.
    ensures nodes { IfOk result (λ v. node_count (tree_of tree.now.root) ≤ length v.items) }
{
    let mut text = Writer::new(alloc);
    let version = version_of(tree.root());
    text.word(title_word(title_of(version)))?;
    text.word(version_word(version))?;
    text.end_line()?;
    text.numbers(&[tree.rows(), tree.columns()])?;
    write_node(alloc, &mut text, tree.root())?;
    Ok(text.into_bytes())
}

fn write_node(alloc: Global, text: &mut Writer, node: &Node) -> Result<(), Memory>
    requires { text.old.is_begun ≡ false }
    ensures lines { OnOk result (text.new ≡ fold with_line text.old (node_lines
        (tree_of node.now))) }
    ensures at_start { OnOk result (text.new.is_begun ≡ false) }
{
    write_opening(alloc, text, node)?;
    for index in 0..node.child_count() {
        write_node(alloc, text, node.child(index))?;
    }
    Ok(())
}

// A line with the node's kind and its lines, and a line with its own part.
fn write_opening(alloc: Global, text: &mut Writer, node: &Node) -> Result<(), Memory>
    requires { text.old.is_begun ≡ false }
    ensures lines { OnOk result (text.new ≡ fold with_line text.old (opening_lines
        (tree_of node.now))) }
    ensures at_start { OnOk result (text.new.is_begun ≡ false) }
{
    write_first_line(text, node)?;
    write_own_line(alloc, text, node)
}

fn write_first_line(text: &mut Writer, node: &Node) -> Result<(), Memory>
    requires { text.old.is_begun ≡ false }
    ensures { OnOk result (text.new ≡ with_line text.old (word_of_kind (kind_of (finding_of
        (tree_of node.now)))
        ∷ set_words node.now.lines)) }
{
    text.word(word_of(kind_of(node)))?;
    write_set(text, &node.lines)?;
    text.end_line()
}

fn write_own_line(alloc: Global, text: &mut Writer, node: &Node) -> Result<(), Memory>
    requires { text.old.is_begun ≡ false }
    ensures { OnOk result (text.new ≡ fold with_line text.old (own_text_line (tree_of node.now))) }
{
    match &node.kind {
        Kind::Cycle { fault } | Kind::Violator { fault } => write_fault(text, fault),
        Kind::Reduced { steps, .. } => write_steps(alloc, text, steps.as_slice()),
        Kind::OneSum { children } => write_children(text, children.len()),
        Kind::Network { net } | Kind::Conetwork { net } => write_network(text, net),
        Kind::TwoSum { two, .. } => write_two(text, two),
        Kind::ThreeSum { three, .. } => write_three(text, three),
        Kind::Pivoted { place, .. } => write_place(text, *place),
        Kind::Empty | Kind::R10 | Kind::Enumerated | Kind::Undecided => Ok(()),
    }
}

fn write_fault(text: &mut Writer, fault: &LineSet) -> Result<(), Memory>
    requires { text.old.is_begun ≡ false }
    ensures { OnOk result (text.new ≡ with_line text.old (set_words fault.now)) }
{
    write_set(text, fault)?;
    text.end_line()
}

fn write_steps(alloc: Global, text: &mut Writer, steps: &[Line]) -> Result<(), Memory>
    requires { text.old.is_begun ≡ false }
    ensures { OnOk result (text.new ≡ with_line text.old (decimal (length steps.now)
        ∷ map line_name steps.now)) }
{
    write_count(text, steps.len())?;
    write_line_names(alloc, text, steps)?;
    text.end_line()
}

fn write_children(text: &mut Writer, count: usize) -> Result<(), Memory>
    requires { text.old.is_begun ≡ false }
    ensures { OnOk result (text.new ≡ with_line text.old (decimal count ∷ [])) }
{
    write_count(text, count)?;
    text.end_line()
}

fn write_network(text: &mut Writer, net: &Network) -> Result<(), Memory>
    requires { text.old.is_begun ≡ false }
    ensures { OnOk result (text.new ≡ fold with_line text.old (line_for (network_words net.now))) }
{
    if net.arcs.len() == 0 && net.walks.len() == 0 {
        return Ok(());
    }
    write_pairs(text, net.arcs.as_slice())?;
    write_pairs(text, net.walks.as_slice())?;
    text.end_line()
}

fn write_two(text: &mut Writer, two: &Two) -> Result<(), Memory>
    requires { text.old.is_begun ≡ false }
    ensures { OnOk result (text.new ≡ with_line text.old (number_of_line two.now.row
        ∷ number_of_line two.now.column ∷ set_words two.now.side)) }
{
    write_line(text, two.row)?;
    write_line(text, two.column)?;
    write_set(text, &two.side)?;
    text.end_line()
}

fn write_place(text: &mut Writer, place: Position) -> Result<(), Memory>
    requires { text.old.is_begun ≡ false }
    ensures { OnOk result (text.new ≡ with_line text.old (number_of_line place.row
        ∷ number_of_line place.column ∷ [])) }
{
    write_line(text, place.row)?;
    write_line(text, place.column)?;
    text.end_line()
}

fn write_three(text: &mut Writer, three: &Three) -> Result<(), Memory>
    requires { text.old.is_begun ≡ false }
    ensures { OnOk result (text.new ≡ with_line text.old (connector_words three.now.first
        ++ connector_words three.now.second ++ set_words three.now.side)) }
{
    write_connector(text, three.first)?;
    write_connector(text, three.second)?;
    write_set(text, &three.side)?;
    text.end_line()
}

fn write_connector(text: &mut Writer, connector: Connector) -> Result<(), Memory>
    ensures { OnOk result (text.new ≡ fold with_word text.old (connector_words connector)) }
{
    write_line(text, connector.row)?;
    write_line(text, connector.column)?;
    write_line(text, connector.other)
}

// The number of rows and of columns, the rows, and the columns.
fn write_set(text: &mut Writer, lines: &LineSet) -> Result<(), Memory>
    ensures { OnOk result (text.new ≡ fold with_word text.old (set_words lines.now)) }
{
    write_count(text, lines.rows.len())?;
    write_count(text, lines.columns.len())?;
    write_lines(text, lines.rows.as_slice())?;
    write_lines(text, lines.columns.as_slice())
}

fn write_lines(text: &mut Writer, lines: &[u32]) -> Result<(), Memory>
    ensures { OnOk result (text.new ≡ fold with_word text.old (map number_of_line lines.now)) }
{
    for line in lines {
        write_line(text, *line)?;
    }
    Ok(())
}

fn write_pairs(text: &mut Writer, pairs: &[Pair]) -> Result<(), Memory>
    ensures { OnOk result (text.new ≡ fold with_word text.old (flat_map pair_words pairs.now)) }
{
    for pair in pairs {
        text.number(pair.tail)?;
        text.number(pair.head)?;
    }
    Ok(())
}

fn write_line_names(alloc: Global, text: &mut Writer, lines: &[Line]) -> Result<(), Memory>
    ensures { OnOk result (text.new ≡ fold with_word text.old (map line_name lines.now)) }
{
    for line in lines {
        write_line_name(alloc, text, *line)?;
    }
    Ok(())
}

fn write_line_name(alloc: Global, text: &mut Writer, line: Line) -> Result<(), Memory>
    ensures { OnOk result (text.new ≡ with_word text.old (line_name line)) }
{
    let mut word = Vec::new(alloc);
    push_line_name(&mut word, line)?;
    text.word(&word)
}

// A line's number, counted from 1.
fn write_line(text: &mut Writer, line: u32) -> Result<(), Memory>
    ensures { OnOk result (text.new ≡ with_word text.old (number_of_line line)) }
{
    let mut digits = Buffer::new();
    text.word(digits.format(u64::from(line) + 1).as_bytes())
}

fn write_count(text: &mut Writer, count: usize) -> Result<(), Memory>
    ensures { OnOk result (text.new ≡ with_word text.old (decimal count)) }
{
    let mut digits = Buffer::new();
    text.word(digits.format(count).as_bytes())
}
