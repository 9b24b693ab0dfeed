//! The reader of graph texts.
ghost use Rattle.std.specs.Prelude.{◌≡◌, ◌≤◌, ◌<◌, IfOk, Ok, bytes_eq, length, map};
ghost use Rattle.text_fields.specs.Reading.{Gives, Reads, field};
ghost use Rattle.text_fields.specs.Spelling.{words_in};
ghost use Rattle.text_fields.specs.TextWords.{text_of};
ghost use Rattle.graph_text.specs.GraphTexts.{IsGraphText, lettered_name};
ghost use Rattle.graph_text.specs.GraphReading.{IsReading, all_within, edge_after, edges_from, element_in, ends, network_in, next_node, no_edges, node_at, node_within, graph_number_in};
ghost use Rattle.graph_text.specs.declared.edges.Element.TheVariants.{Row, Column};
ghost use Rattle.graph_text.specs.declared.error.GraphKind.TheVariants.{Short};

use crate::edges::{Edge, Edges, Element, NodeWord};
use crate::error::{GraphError, GraphKind};
use crate::write::{COLUMN, ROW};
use cmr_base::{MAX_COLUMNS, MAX_ROWS, Memory, Network, PairList, is_tree};
use itoa::Buffer;
use std::alloc::Global;
use text_fields::{Words, at_place, count_in};

/// A tree and walks in it, with the sizes of their matrix.
#[derive(Debug, Drop)]
pub struct SizedNetwork {
    pub net: Network,
    pub rows: u32,
    pub columns: u32,
}

/// Reads the network that a graph text represents, or gives the text's first fault: its kind and its position. The
/// position is the byte at which the faulty word begins, or the length of the text if a word is missing or the edges
/// of the rows are not a tree. After all edges are read, the nodes are compared with the number of rows. The test for
/// a tree is the last test.
pub fn read_graph(alloc: Global, bytes: &[u8]) -> Result<SizedNetwork, GraphError>
    ensures exact { IsReading (text_of bytes.now) result }
    ensures found { IfOk result (IsGraphText (words_in bytes.now)) }
    ensures only { (sized : SizedNetwork) → IsGraphText (words_in bytes.now) sized
        → Gives (λ net. net) result (Ok sized) }
{
    let sized = read_network(alloc, bytes)?;
    if is_tree(alloc, &sized.net, sized.rows)? {
        Ok(sized)
    } else {
        Err(GraphError::Fault {
            kind: GraphKind::NotTree,
            place: bytes.len(),
        })
    }
}

// Reads arcs and walks. The arcs need not be a tree.
fn read_network(alloc: Global, bytes: &[u8]) -> Result<SizedNetwork, GraphError>
    ensures { Gives (λ sized. sized) result (network_in (text_of bytes.now)) }
{
    let edges = read_edges(alloc, &mut Words::new(bytes))?;
    let rows = edges.rows.as_slice();
    let columns = edges.columns.as_slice();
    all_within(rows, rows.len())?;
    all_within(columns, rows.len())?;
    Ok(SizedNetwork {
        net: Network {
            arcs: pairs_of(alloc, rows)?,
            walks: pairs_of(alloc, columns)?,
        },
        rows: rows.len() as u32,
        columns: columns.len() as u32,
    })
}

fn pairs_of(alloc: Global, edges: &[Edge]) -> Result<PairList, Memory>
    ensures { IfOk result (λ pairs. pairs ≡ map ends edges.now) }
{
    let mut pairs = PairList::new(alloc);
    for edge in edges {
        pairs.push(edge.ends())?;
    }
    Ok(pairs)
}

fn all_within(edges: &[Edge], last: usize) -> Result<(), GraphError>
    ensures { Gives (λ x. x) result (all_within last edges.now) }
{
    for edge in edges {
        node_within(edge.tail, last)?;
        node_within(edge.head, last)?;
    }
    Ok(())
}

fn node_within(node: NodeWord, last: usize) -> Result<(), GraphError>
    ensures { Gives (λ x. x) result (node_within last node) }
{
    if node.number as usize <= last {
        Ok(())
    } else {
        Err(GraphError::Fault {
            kind: GraphKind::OutOfRange,
            place: node.place,
        })
    }
}

fn read_edges(alloc: Global, words: &mut Words<'_>) -> Result<Edges, GraphError>
    ensures read { Gives (λ edges. edges) result
        (edges_from words.old.size no_edges words.old.words) }
    ensures rows { IfOk result (λ edges. length edges.rows ≤ MAX_ROWS) }
    ensures columns { IfOk result (λ edges. length edges.columns ≤ MAX_COLUMNS) }
{
    let mut edges = Edges::new(alloc);
    'edges: while let Some((place, word)) = words.next() {
        let tail = node_at(place, word)?;
        let (element, edge) = read_edge(words, &edges, tail)?;
        edges.push(element, edge)?;
    }
    Ok(edges)
}

// Reads the edge with this first node, and the line that it represents after these edges.
fn read_edge(
    words: &mut Words<'_>,
    edges: &Edges,
    tail: NodeWord,
) -> Result<(Element, Edge), GraphError>
    requires rows { length edges.now.rows ≤ MAX_ROWS }
    requires columns { length edges.now.columns ≤ MAX_COLUMNS }
    ensures read { Reads (λ edge. edge) words.new result (edge_after edges.now tail words.old) }
    ensures row { IfOk result (λ edge. edge.0 ≡ Row → length edges.now.rows < MAX_ROWS) }
    ensures column { IfOk result (λ edge. edge.0 ≡ Column
        → length edges.now.columns < MAX_COLUMNS) }
{
    let head = next_node(words)?;
    let element = next_element(words, edges)?;
    Ok((element, Edge { tail, head }))
}

fn next_node(words: &mut Words<'_>) -> Result<NodeWord, GraphError>
    ensures { Reads (λ node. node) words.new result (next_node words.old) }
{
    let (place, word) = words.due(GraphKind::Short)?;
    node_at(place, word)
}

fn node_at(place: usize, word: &[u8]) -> Result<NodeWord, GraphError>
    ensures { Gives (λ node. node) result (node_at (place, word.now)) }
{
    let number = at_place(place, graph_number_in(word))?;
    Ok(NodeWord { number, place })
}

fn graph_number_in(word: &[u8]) -> Result<u32, GraphKind>
    ensures { result ≡ graph_number_in word.now }
{
    Ok(count_in(word)?)
}

fn next_element(words: &mut Words<'_>, edges: &Edges) -> Result<Element, GraphError>
    requires rows { length edges.now.rows ≤ MAX_ROWS }
    requires columns { length edges.now.columns ≤ MAX_COLUMNS }
    ensures read { Reads (λ element. element) words.new result
        (field Short (element_in edges.now) words.old) }
    ensures row { IfOk result (λ element. element ≡ Row → length edges.now.rows < MAX_ROWS) }
    ensures column { IfOk result (λ element. element ≡ Column
        → length edges.now.columns < MAX_COLUMNS) }
{
    let (place, word) = words.due(GraphKind::Short)?;
    at_place(place, element_in(word, edges))
}

fn element_in(word: &[u8], edges: &Edges) -> Result<Element, GraphKind>
    requires rows { length edges.now.rows ≤ MAX_ROWS }
    requires columns { length edges.now.columns ≤ MAX_COLUMNS }
    ensures value { result ≡ element_in edges.now word.now }
    ensures row { IfOk result (λ element. element ≡ Row → length edges.now.rows < MAX_ROWS) }
    ensures column { IfOk result (λ element. element ≡ Column
        → length edges.now.columns < MAX_COLUMNS) }
{
    let rows = edges.rows.len();
    let columns = edges.columns.len();
    if columns == 0 && is_named(word, ROW, rows) {
        if rows < MAX_ROWS as usize {
            Ok(Element::Row)
        } else {
            Err(GraphKind::TooManyRows)
        }
    } else if is_named(word, COLUMN, columns) {
        if columns < MAX_COLUMNS as usize {
            Ok(Element::Column)
        } else {
            Err(GraphKind::TooManyColumns)
        }
    } else {
        Err(GraphKind::BadElement)
    }
}

// Decides whether a word is the name of a line.
fn is_named(word: &[u8], letter: u8, line: usize) -> bool
    requires { line ≤ MAX_ROWS }
    ensures { result ≡ bytes_eq word.now (lettered_name letter line) }
{
    let mut digits = Buffer::new();
    match word {
        [first, number @ ..] => *first == letter && number == digits.format(line + 1).as_bytes(),
        [] => false,
    }
}
