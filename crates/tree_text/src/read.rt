// Reads trees.
ghost use Rattle.std.specs.Prelude.{◌≡◌, ◌≤◌, ◌<◌, ◌++◌, ◌∷◌, [], Some, None, map, length, OnOk, option_copied};
ghost use Rattle.text_fields.specs.TextWords.{text_of};
ghost use Rattle.text_fields.specs.Reading.{field, Fails, Gives, Reads};
ghost use Rattle.tree_type.specs.DecompositionTrees.{Branch, tree_of, trees_from};
ghost use Rattle.tree_type.specs.Invariant.{HasChildren};
ghost use Rattle.tree_text.specs.declared.error.TreeKind.TheVariants.{Short};
ghost use Rattle.tree_type.specs.Findings.{finding_shown};
ghost use Rattle.tree_text.specs.TreeReading.{another_tree, too_deep, node, plain_of, tree};

use crate::header::Header;
use crate::own_part::{Opening, read_opening};
use crate::value::Sizes;
use crate::{TreeError, TreeKind, field};
use cmr_base::{LineSet, MAX_COLUMNS, MAX_DEPTH, MAX_ROWS, Memory};
use std::alloc::Global;
use text_fields::Words;
use tree_type::{DecTree, Node, join_node};

/// The tree that a text represents, or the text's first fault.
pub fn read_tree(alloc: Global, bytes: &[u8]) -> Result<DecTree, TreeError>
    ensures { Gives plain_of result (tree (text_of bytes.now)) }
{
    let mut words = Words::new(bytes);
    let title = field::title(&mut words)?;
    let version = field::version(&mut words, title)?;
    let rows = field::limited(&mut words, MAX_ROWS)?;
    let columns = field::limited(&mut words, MAX_COLUMNS)?;
    let header = Header {
        version,
        sizes: Sizes { rows, columns },
    };
    let root = read_root(alloc, &mut words, header, MAX_DEPTH + 1)?;
    words.end(TreeKind::Extra)?;
    Ok(DecTree::make(rows, columns, root))
}

// Reads the root and the nodes below it, on at most `levels` levels.
fn read_root(
    alloc: Global,
    words: &mut Words<'_>,
    header: Header,
    levels: u32,
) -> Result<Node, TreeError>
    requires rows { header.sizes.rows ≤ MAX_ROWS }
    requires columns { header.sizes.columns ≤ MAX_COLUMNS }
    ensures { Reads tree_of words.new result (node header levels None words.old) }
{
    let mut roots = Vec::new(alloc);
    read_node(alloc, words, header, None, levels, &mut roots)?;
    let Some(root) = roots.pop() else {
        unreachable!()
    };
    Ok(root)
}

// Reads a node and the nodes below it, on at most `levels` levels, and appends the node to the nodes read so far. The recursion
// uses the ordinary stack; large values are on the heap.
fn read_node(
    alloc: Global,
    words: &mut Words<'_>,
    header: Header,
    parent: Option<&LineSet>,
    levels: u32,
    nodes: &mut Vec<Node>,
) -> Result<(), TreeError>
    requires rows { header.sizes.rows ≤ MAX_ROWS }
    requires columns { header.sizes.columns ≤ MAX_COLUMNS }
    ensures { Reads
        (λ x. map tree_of nodes.new.items)
        words.new result
        (another_tree (node header levels (option_copied parent.entry))
        (map tree_of nodes.old.items) words.old) }
{
    if levels == 0 {
        return Err(too_deep(words));
    }
    let opening = read_opening(alloc, words, header, parent)?;
    let mut children = Vec::new(alloc);
    for _ in 0..opening.children {
        read_node(
            alloc,
            words,
            header,
            Some(&opening.lines),
            levels - 1,
            &mut children,
        )?;
    }
    push_node(alloc, opening, children, nodes)?;
    Ok(())
}

// Joins a node from its opening and its children, and appends it to the others.
fn push_node(
    alloc: Global,
    opening: Box<Opening>,
    children: Vec<Node>,
    nodes: &mut Vec<Node>,
) -> Result<(), Memory>
    requires { HasChildren (finding_shown opening.value.finding) (length children.items) }
    ensures { OnOk result (map tree_of nodes.new.items
        ≡ map tree_of nodes.old.items
        ++ Branch opening.value.lines (finding_shown opening.value.finding)
        (trees_from (map tree_of children.items))
        ∷ []) }
{
    let opening = Box::into_inner(opening);
    nodes.push(join_node(alloc, opening.lines, opening.finding, children)?)?;
    Ok(())
}

// The fault of a node that begins at a level that is not allowed.
fn too_deep(words: &mut Words<'_>) -> TreeError
    ensures { Fails result (field Short too_deep words.old) }
{
    match words.next() {
        Some((place, _)) => TreeError::Fault {
            kind: TreeKind::TooDeep,
            place,
        },
        None => TreeError::Fault {
            kind: TreeKind::Short,
            place: words.size(),
        },
    }
}
