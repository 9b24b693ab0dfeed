// The outline of a decomposition.
ghost use Rattle.std.specs.Prelude.{◌≡◌, ◌+◌, ◌++◌, OnOk, codes};
ghost use Rattle.std.specs.Fmt.{decimal};
ghost use Rattle.cmr_unimodular.specs.Outline.{IsAtDepth, outline_from, outline_line, pivot_words, place_words, size_and_place};
ghost use Rattle.tree_type.specs.DecompositionTrees.{tree_of, finding_of};

use cmr_base::{Memory, Position};
use itoa::Buffer;
use tree_text::{kind_of, word_of};
use tree_type::{DecTree, Kind, Node};

/// Appends the outline of a tree: a line for each node in preorder, with its depth, its kind, its size, and the position of
/// its pivot if it has one.
pub fn push_outline(text: &mut Vec<u8>, tree: &DecTree) -> Result<(), Memory>
    ensures { OnOk result (text.new.items
        ≡ text.old.items ++ outline_from 0 (tree_of tree.now.root)) }
{
    push_node(text, tree.root(), 0)
}

fn push_node(text: &mut Vec<u8>, node: &Node, depth: u32) -> Result<(), Memory>
    requires { IsAtDepth depth (tree_of node.now) }
    ensures { OnOk result (text.new.items
        ≡ text.old.items ++ outline_from depth (tree_of node.now)) }
{
    push_node_line(text, node, depth)?;
    for index in 0..node.child_count() {
        push_node(text, node.child(index), depth + 1)?;
    }
    Ok(())
}

fn push_node_line(text: &mut Vec<u8>, node: &Node, depth: u32) -> Result<(), Memory>
    ensures { OnOk result (text.new.items
        ≡ text.old.items ++ outline_line depth node.now.lines (finding_of (tree_of node.now))) }
{
    let mut buffer = Buffer::new();
    text.extend_from_slice(buffer.format(depth).as_bytes())?;
    text.push(b' ')?;
    text.extend_from_slice(word_of(kind_of(node)))?;
    push_size_and_place(text, node)
}

fn push_size_and_place(text: &mut Vec<u8>, node: &Node) -> Result<(), Memory>
    ensures { OnOk result (text.new.items
        ≡ text.old.items ++ size_and_place node.now.lines (finding_of (tree_of node.now))) }
{
    push_size(text, node.lines.rows.len(), node.lines.columns.len())?;
    push_place(text, node)
}

/// Appends a blank and the numbers of rows and columns.
pub fn push_size(text: &mut Vec<u8>, rows: usize, columns: usize) -> Result<(), Memory>
    ensures { OnOk result (text.new.items
        ≡ text.old.items ++ codes " " ++ decimal rows ++ codes "x" ++ decimal columns) }
{
    let mut buffer = Buffer::new();
    text.push(b' ')?;
    text.extend_from_slice(buffer.format(rows).as_bytes())?;
    text.push(b'x')?;
    text.extend_from_slice(buffer.format(columns).as_bytes())?;
    Ok(())
}

fn push_place(text: &mut Vec<u8>, node: &Node) -> Result<(), Memory>
    ensures { OnOk result (text.new.items
        ≡ text.old.items ++ place_words (finding_of (tree_of node.now)) ++ codes "\n") }
{
    match &node.kind {
        Kind::Pivoted { place, .. } => push_pivot(text, *place),
        _ => {
            text.push(b'\n')?;
            Ok(())
        }
    }
}

fn push_pivot(text: &mut Vec<u8>, place: Position) -> Result<(), Memory>
    ensures { OnOk result (text.new.items ≡ text.old.items ++ pivot_words place ++ codes "\n") }
{
    let mut buffer = Buffer::new();
    text.extend_from_slice(b" row ")?;
    text.extend_from_slice(buffer.format(u64::from(place.row) + 1).as_bytes())?;
    text.extend_from_slice(b" column ")?;
    text.extend_from_slice(buffer.format(u64::from(place.column) + 1).as_bytes())?;
    text.push(b'\n')?;
    Ok(())
}
