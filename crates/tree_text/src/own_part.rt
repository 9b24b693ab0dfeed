// Reads the finding of a node.
ghost use Rattle.std.specs.Prelude.{◌≡◌, ◌≤◌, [], IfOk, option_copied, length};
ghost use Rattle.cmr_base.specs.Separations.{first_is_flat, second_is_flat};
ghost use Rattle.text_fields.specs.Reading.{times, fields, Reads};
ghost use Rattle.tree_type.specs.Invariant.{HasChildren};
ghost use Rattle.tree_text.specs.declared.error.TreeKind.TheVariants.{Short};
ghost use Rattle.tree_text.specs.TreeValues.{step_in};
ghost use Rattle.tree_type.specs.Findings.{finding_shown};
ghost use Rattle.tree_text.specs.ReadFindings.{own_shown, opening_shown};
ghost use Rattle.tree_text.specs.TreeReading.{increasing_lines, line_set, another_pair, network, connector, two, three, pivot_place, own_part, opening};

use crate::header::Header;
use crate::kind_word::KindWord;
use crate::value::Sizes;
use crate::{TreeError, field};
use cmr_base::{
    Connector, Form, Indices, Line, LineList, LineSet, MAX_COLUMNS, MAX_ROWS, Network, Pair,
    PairList, Position, Three, Two,
};
use std::alloc::Global;
use text_fields::Words;
use tree_type::Finding;

/// The finding of a node, and the number of its children.
#[derive(Debug, Drop)]
pub struct OwnPart {
    pub finding: Finding,
    pub children: u32,
}

/// The part of a node before its children.
#[derive(Debug, Drop)]
pub struct Opening {
    pub lines: LineSet,
    pub finding: Finding,
    pub children: u32,
}

/// Two counts, then the rows and the columns. They are lines of the matrix and of `whole`, if it is given.
pub fn read_line_set(
    alloc: Global,
    words: &mut Words<'_>,
    sizes: Sizes,
    whole: Option<&LineSet>,
) -> Result<LineSet, TreeError>
    ensures read { Reads (λ lines. lines) words.new result
        (line_set sizes (option_copied whole.entry) words.old) }
    ensures rows { IfOk result (λ lines. length lines.rows ≤ sizes.rows) }
    ensures columns { IfOk result (λ lines. length lines.columns ≤ sizes.columns) }
{
    let row_count = field::limited(words, sizes.rows)?;
    let column_count = field::limited(words, sizes.columns)?;
    let (whole_rows, whole_columns) = match whole {
        Some(lines) => (Some(&lines.rows), Some(&lines.columns)),
        None => (None, None),
    };
    let rows = read_increasing(alloc, words, sizes.rows, whole_rows, row_count)?;
    let columns = read_increasing(alloc, words, sizes.columns, whole_columns, column_count)?;
    Ok(LineSet { rows, columns })
}

fn read_increasing(
    alloc: Global,
    words: &mut Words<'_>,
    most: u32,
    whole: Option<&Indices>,
    count: u32,
) -> Result<Indices, TreeError>
    ensures read { Reads (λ lines. lines) words.new result
        (increasing_lines most (option_copied whole.entry) count words.old) }
    ensures len { IfOk result (λ lines. length lines ≡ count) }
{
    let mut lines = Indices::new(alloc);
    let mut before = 0;
    for _ in 0..count {
        let line = field::next_line(words, most, whole, before)?;
        lines.push(line)?;
        before = line + 1;
    }
    Ok(lines)
}

fn read_steps(
    alloc: Global,
    words: &mut Words<'_>,
    sizes: Sizes,
    lines: &LineSet,
    count: u32,
) -> Result<LineList, TreeError>
    ensures { Reads (λ steps. steps) words.new result
        (fields Short (step_in sizes lines.now) count words.old) }
{
    let mut steps = LineList::new(alloc);
    for _ in 0..count {
        steps.push(field::step(words, sizes, lines)?)?;
    }
    Ok(steps)
}

fn read_pairs(
    alloc: Global,
    words: &mut Words<'_>,
    last: u32,
    count: usize,
) -> Result<PairList, TreeError>
    ensures { Reads (λ pairs. pairs) words.new result
        (times (another_pair last) count [] words.old) }
{
    let mut pairs = PairList::new(alloc);
    for _ in 0..count {
        let tail = field::limited(words, last)?;
        let head = field::limited(words, last)?;
        pairs.push(Pair { tail, head })?;
    }
    Ok(pairs)
}

fn read_network(
    alloc: Global,
    words: &mut Words<'_>,
    arcs: &Indices,
    walks: &Indices,
) -> Result<Network, TreeError>
    requires { length arcs.now ≤ MAX_ROWS }
    ensures { Reads (λ net. net) words.new result
        (network (length arcs.now) (length walks.now) words.old) }
{
    let last = arcs.len() as u32;
    let arcs = read_pairs(alloc, words, last, arcs.len())?;
    let walks = read_pairs(alloc, words, last, walks.len())?;
    Ok(Network { arcs, walks })
}

fn read_connector(
    words: &mut Words<'_>,
    sizes: Sizes,
    lines: &LineSet,
    flat: bool,
) -> Result<Connector, TreeError>
    ensures { Reads (λ x. x) words.new result (connector sizes lines.now flat words.old) }
{
    let row = field::line_of(words, sizes.rows, &lines.rows)?;
    let column = field::line_of(words, sizes.columns, &lines.columns)?;
    let other = if flat {
        field::line_of(words, sizes.columns, &lines.columns)?
    } else {
        field::line_of(words, sizes.rows, &lines.rows)?
    };
    Ok(Connector { row, column, other })
}

fn read_two(
    alloc: Global,
    words: &mut Words<'_>,
    sizes: Sizes,
    lines: &LineSet,
) -> Result<Two, TreeError>
    ensures { Reads (λ x. x) words.new result (two sizes lines.now words.old) }
{
    let row = field::line_of(words, sizes.rows, &lines.rows)?;
    let column = field::line_of(words, sizes.columns, &lines.columns)?;
    let side = read_line_set(alloc, words, sizes, Some(lines))?;
    Ok(Two { side, row, column })
}

fn read_three(
    alloc: Global,
    words: &mut Words<'_>,
    sizes: Sizes,
    lines: &LineSet,
    form: Form,
) -> Result<Three, TreeError>
    ensures { Reads (λ x. x) words.new result (three sizes lines.now form words.old) }
{
    let first = read_connector(words, sizes, lines, form.first_is_flat())?;
    let second = read_connector(words, sizes, lines, form.second_is_flat())?;
    let side = read_line_set(alloc, words, sizes, Some(lines))?;
    Ok(Three {
        form,
        side,
        first,
        second,
    })
}

fn read_place(words: &mut Words<'_>, sizes: Sizes, lines: &LineSet) -> Result<Position, TreeError>
    ensures { Reads (λ x. x) words.new result (pivot_place sizes lines.now words.old) }
{
    let row = field::line_of(words, sizes.rows, &lines.rows)?;
    let column = field::line_of(words, sizes.columns, &lines.columns)?;
    Ok(Position { row, column })
}

/// The finding of a node of this kind, and the number of its children.
pub fn read_own_part(
    alloc: Global,
    words: &mut Words<'_>,
    sizes: Sizes,
    lines: &LineSet,
    kind: KindWord,
) -> Result<OwnPart, TreeError>
    requires rows { length lines.now.rows ≤ MAX_ROWS }
    requires columns { length lines.now.columns ≤ MAX_COLUMNS }
    ensures read { Reads own_shown words.new result (own_part sizes lines.now kind words.old) }
    ensures children { IfOk result (λ own. HasChildren (finding_shown own.finding) own.children) }
{
    let (finding, children) = match kind {
        KindWord::Empty => (Finding::Empty, 0),
        KindWord::Cycle => (
            Finding::Cycle(read_line_set(alloc, words, sizes, Some(lines))?),
            0,
        ),
        KindWord::Reduced => {
            let count = field::limited(words, lines.size())?;
            (
                Finding::Reduced(read_steps(alloc, words, sizes, lines, count)?),
                1,
            )
        }
        KindWord::OneSum => (Finding::OneSum, field::limited(words, lines.size())?),
        KindWord::Network => (
            Finding::Network(read_network(alloc, words, &lines.rows, &lines.columns)?),
            0,
        ),
        KindWord::Conetwork => (
            Finding::Conetwork(read_network(alloc, words, &lines.columns, &lines.rows)?),
            0,
        ),
        KindWord::R10 => (Finding::R10, 0),
        KindWord::TwoSum => (Finding::TwoSum(read_two(alloc, words, sizes, lines)?), 2),
        KindWord::ThreeSum(form) => (
            Finding::ThreeSum(read_three(alloc, words, sizes, lines, form)?),
            2,
        ),
        KindWord::Enumerated => (Finding::Enumerated, 0),
        KindWord::Violator => (
            Finding::Violator(read_line_set(alloc, words, sizes, Some(lines))?),
            0,
        ),
        KindWord::Undecided => (Finding::Undecided, 0),
        KindWord::Pivoted => (Finding::Pivoted(read_place(words, sizes, lines)?), 1),
    };
    Ok(OwnPart { finding, children })
}

/// A node's kind, its lines and its own part.
pub fn read_opening(
    alloc: Global,
    words: &mut Words<'_>,
    header: Header,
    parent: Option<&LineSet>,
) -> Result<Box<Opening>, TreeError>
    requires rows { header.sizes.rows ≤ MAX_ROWS }
    requires columns { header.sizes.columns ≤ MAX_COLUMNS }
    ensures read { Reads (λ opening. opening_shown opening.value) words.new result
        (opening header (option_copied parent.entry) words.old) }
    ensures children { IfOk result (λ opening.
        HasChildren (finding_shown opening.value.finding) opening.value.children) }
{
    let Header { version, sizes } = header;
    let kind = field::kind(words, version)?;
    let lines = read_line_set(alloc, words, sizes, parent)?;
    let own = read_own_part(alloc, words, sizes, &lines, kind)?;
    let opening = Opening {
        lines,
        finding: own.finding,
        children: own.children,
    };
    Ok(Box::new(alloc, opening)?)
}
