//! The writer of graph texts.
ghost use Rattle.std.specs.Prelude.{◌≡◌, ◌≤◌, ◌<◌, ◌+◌, ◌++◌, IfOk, Ok, OnOk, codes, length};
ghost use Rattle.std.specs.Fmt.{decimal};
ghost use Rattle.cmr_base.specs.Trees.{IsNetworkOf};
ghost use Rattle.text_fields.specs.Written.{text_line, text_of_lines};
ghost use Rattle.text_fields.specs.TextWords.{text_of};
ghost use Rattle.graph_text.specs.GraphTexts.{edge_lines, edge_words, graph_text, lettered_name, transposed_graph_text};
ghost use Rattle.graph_text.specs.GraphReading.{IsGraph};

use cmr_base::{MAX_COLUMNS, MAX_ROWS, Memory, Network, Pair, PairList};
use itoa::Buffer;
use std::alloc::Global;

/// The letter of rows.
pub const ROW: u8 = b'r';

/// The letter of columns.
pub const COLUMN: u8 = b'c';

/// Writes the text of the graph of a network with `rows` arcs, which represent rows, and `columns` walks, which
/// represent columns.
pub fn write_graph(alloc: Global, net: &Network, rows: u32, columns: u32) -> Result<Vec<u8>, Memory>
    requires rows { length net.now.arcs ≡ rows }
    requires columns { length net.now.walks ≡ columns }
    ensures text { IfOk result (λ text. text.items ≡ graph_text net.now) }
    // A reader gives the same tree and walks again, if the network is within the limits.
    ensures again { IfOk result (λ text. rows ≤ MAX_ROWS → columns ≤ MAX_COLUMNS
        → IsNetworkOf net.now rows columns
        → IsGraph
        (text_of text.items)
        (Ok (record { net = net.now; rows = rows; columns = columns }))) }
{
    let mut text = Vec::new(alloc);
    push_edges(&mut text, ROW, &net.arcs, rows)?;
    push_edges(&mut text, COLUMN, &net.walks, columns)?;
    Ok(text)
}

/// Writes the text of the graph of a network for the transposed matrix: first its arcs, which represent columns, and
/// then its walks, which represent rows.
pub fn write_transposed_graph(
    alloc: Global,
    net: &Network,
    rows: u32,
    columns: u32,
) -> Result<Vec<u8>, Memory>
    requires rows { length net.now.walks ≡ rows }
    requires columns { length net.now.arcs ≡ columns }
    ensures { IfOk result (λ text. text.items ≡ transposed_graph_text net.now) }
{
    let mut text = Vec::new(alloc);
    push_edges(&mut text, COLUMN, &net.arcs, columns)?;
    push_edges(&mut text, ROW, &net.walks, rows)?;
    Ok(text)
}

fn push_edges(text: &mut Vec<u8>, letter: u8, edges: &PairList, count: u32) -> Result<(), Memory>
    requires { length edges.now ≡ count }
    ensures { OnOk result (text.new.items
        ≡ text.old.items ++ text_of_lines (edge_lines letter 0 edges.now)) }
{
    for line in 0..count {
        push_edge(text, letter, line, *edges.get(line as usize))?;
    }
    Ok(())
}

fn push_edge(text: &mut Vec<u8>, letter: u8, line: u32, edge: Pair) -> Result<(), Memory>
    ensures { OnOk result (text.new.items
        ≡ text.old.items ++ text_line (edge_words letter line edge)) }
{
    push_end(text, edge.tail)?;
    push_end(text, edge.head)?;
    push_name(text, letter, line)?;
    text.push(b'\n')?;
    Ok(())
}

fn push_end(text: &mut Vec<u8>, node: u32) -> Result<(), Memory>
    ensures { OnOk result (text.new.items ≡ text.old.items ++ decimal node ++ codes " ") }
{
    let mut digits = Buffer::new();
    text.extend_from_slice(digits.format(node).as_bytes())?;
    text.push(b' ')?;
    Ok(())
}

fn push_name(text: &mut Vec<u8>, letter: u8, line: u32) -> Result<(), Memory>
    ensures { OnOk result (text.new.items ≡ text.old.items ++ lettered_name letter line) }
{
    let mut digits = Buffer::new();
    text.push(letter)?;
    text.extend_from_slice(digits.format(u64::from(line) + 1).as_bytes())?;
    Ok(())
}
