// The values of the words of a tree text.
ghost use Rattle.std.specs.Prelude.{◌≡◌, ◌≤◌, ◌<◌, IfOk, option_copied};
ghost use Rattle.tree_text.specs.TreeValues.{limited, line_in, among, line_of, next_line, step_in};

use crate::TreeKind;
use cmr_base::{Indices, Line, LineSet};
use tree_type::has_line;

/// The sizes of the matrix of a tree.
#[derive(Clone, Copy, Debug, PartialEq, Eq)]
pub struct Sizes {
    pub rows: u32,
    pub columns: u32,
}

/// A count up to `most`.
pub fn limited(word: &[u8], most: u32) -> Result<u32, TreeKind>
    ensures value { result ≡ limited most word.now }
    ensures within { IfOk result (λ n. n ≤ most) }
{
    Ok(text_fields::limited(word, most)?)
}

/// The number of a line, from 1 to `most`, as a line counted from 0.
pub fn line_in(word: &[u8], most: u32) -> Result<u32, TreeKind>
    ensures value { result ≡ line_in most word.now }
    ensures within { IfOk result (λ line. line < most) }
{
    Ok(text_fields::line_in(word, most)? - 1)
}

/// The line, if it is one of these lines.
pub fn among(line: u32, lines: Option<&Indices>) -> Result<u32, TreeKind>
    ensures value { result ≡ among (option_copied lines.entry) line }
    ensures same { IfOk result (λ found. found ≡ line) }
{
    match lines {
        Some(lines) if !has_line(lines, line) => Err(TreeKind::NotPart),
        _ => Ok(line),
    }
}

/// A line of the node.
pub fn line_of(word: &[u8], most: u32, lines: &Indices) -> Result<u32, TreeKind>
    ensures value { result ≡ line_of most lines.now word.now }
    ensures within { IfOk result (λ line. line < most) }
{
    among(line_in(word, most)?, Some(lines))
}

/// The next line of an increasing list. The line before it has the number `before`, counted from 1.
pub fn next_line(
    word: &[u8],
    most: u32,
    whole: Option<&Indices>,
    before: u32,
) -> Result<u32, TreeKind>
    ensures value { result ≡ next_line most (option_copied whole.entry) before word.now }
    ensures above { IfOk result (λ line. before ≤ line) }
    ensures within { IfOk result (λ line. line < most) }
{
    let line = line_in(word, most)?;
    if before <= line {
        among(line, whole)
    } else {
        Err(TreeKind::NotRising)
    }
}

/// A row or a column of the node, given by its letter and its number.
pub fn step_in(word: &[u8], sizes: Sizes, lines: &LineSet) -> Result<Line, TreeKind>
    ensures { result ≡ step_in sizes lines.now word.now }
{
    match word {
        [b'r', number @ ..] => Ok(Line::Row(line_of(number, sizes.rows, &lines.rows)?)),
        [b'c', number @ ..] => Ok(Line::Column(line_of(number, sizes.columns, &lines.columns)?)),
        _ => Err(TreeKind::NotNumber),
    }
}
