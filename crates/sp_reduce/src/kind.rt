// Rows and columns alike: lines of one kind, and those of the other kind, which they cross.
ghost use Rattle.std.specs.Prelude.{◌≡◌, ◌<◌, neg_ℤ};
ghost use Rattle.std.specs.Ordering.{int_eq};
ghost use Rattle.cmr_base.specs.Matrix.{entry, is_nonzero, IsEntry};
ghost use Rattle.cmr_base.specs.LineSets.{AllBelow};
ghost use Rattle.cmr_base.specs.Planes.{is_minus};
ghost use Rattle.cmr_base.specs.Reductions.{nonzeros_at, equal_at};
ghost use Rattle.sp_reduce.specs.LineKinds.{index_of_line, line_named, cross_named, other_kind, own_line, count_of_kind, cross_size, table};

use cmr_base::{Line, Matrix};

#[derive(Clone, Copy, Debug, PartialEq, Eq)]
pub enum LineKind {
    Rows,
    Columns,
}

impl LineKind {
    // The line of this kind with a number.
    pub fn line(self, number: u32) -> Line
        ensures { result ≡ line_named self number }
    {
        match self {
            LineKind::Rows => Line::Row(number),
            LineKind::Columns => Line::Column(number),
        }
    }

    pub fn other(self) -> LineKind
        ensures { result ≡ other_kind self }
    {
        match self {
            LineKind::Rows => LineKind::Columns,
            LineKind::Columns => LineKind::Rows,
        }
    }

    // The number of lines of this kind.
    pub fn size(self, matrix: &Matrix) -> u32
        ensures { result ≡ count_of_kind matrix.now self }
    {
        match self {
            LineKind::Rows => matrix.rows(),
            LineKind::Columns => matrix.columns(),
        }
    }

    // The line of this kind through a position.
    pub fn own(self, row: u32, column: u32) -> u32
        ensures { result ≡ own_line self row column }
    {
        match self {
            LineKind::Rows => row,
            LineKind::Columns => column,
        }
    }

    // The line of the other kind with a number.
    pub fn crossing(self, number: u32) -> Line
        ensures { result ≡ cross_named self number }
    {
        match self {
            LineKind::Rows => Line::Column(number),
            LineKind::Columns => Line::Row(number),
        }
    }
}

pub fn index_of_line(line: Line) -> u32
    ensures { result ≡ index_of_line line }
{
    match line {
        Line::Row(number) | Line::Column(number) => number,
    }
}

// The entry of a line of the kind and a line of the other kind.
pub fn entry(matrix: &Matrix, kind: LineKind, line: u32, other: u32) -> i8
    requires line { line < count_of_kind matrix.now kind }
    requires other { other < cross_size matrix.now kind }
    ensures value { result ≡ table (entry matrix.now) kind line other }
    ensures small { IsEntry result }
{
    match kind {
        LineKind::Rows => matrix.entry(line, other),
        LineKind::Columns => matrix.entry(other, line),
    }
}

pub fn is_nonzero(matrix: &Matrix, kind: LineKind, line: u32, other: u32) -> bool
    requires line { line < count_of_kind matrix.now kind }
    requires other { other < cross_size matrix.now kind }
    ensures { result ≡ is_nonzero (table (entry matrix.now) kind line other) }
{
    match kind {
        LineKind::Rows => matrix.is_nonzero(line, other),
        LineKind::Columns => matrix.is_nonzero(other, line),
    }
}

// Whether the entry is -1.
pub fn is_minus(matrix: &Matrix, kind: LineKind, line: u32, other: u32) -> bool
    requires line { line < count_of_kind matrix.now kind }
    requires other { other < cross_size matrix.now kind }
    ensures { result ≡ is_minus (table (entry matrix.now) kind line other) }
{
    entry(matrix, kind, line, other) < 0
}

fn is_equal(matrix: &Matrix, kind: LineKind, line: u32, twin: u32, other: u32) -> bool
    requires line { line < count_of_kind matrix.now kind }
    requires twin { twin < count_of_kind matrix.now kind }
    requires other { other < cross_size matrix.now kind }
    ensures { result ≡ int_eq (table (entry matrix.now) kind twin other)
        (table (entry matrix.now) kind line other) }
{
    entry(matrix, kind, twin, other) == entry(matrix, kind, line, other)
}

fn is_opposite(matrix: &Matrix, kind: LineKind, line: u32, twin: u32, other: u32) -> bool
    requires line { line < count_of_kind matrix.now kind }
    requires twin { twin < count_of_kind matrix.now kind }
    requires other { other < cross_size matrix.now kind }
    ensures { result ≡ int_eq (table (entry matrix.now) kind twin other)
        (neg_ℤ (table (entry matrix.now) kind line other)) }
{
    entry(matrix, kind, twin, other) == -entry(matrix, kind, line, other)
}

pub fn count_nonzeros(matrix: &Matrix, kind: LineKind, line: u32, across: &[u32]) -> usize
    requires line { line < count_of_kind matrix.now kind }
    requires across { AllBelow (cross_size matrix.now kind) across.now }
    ensures { result ≡ nonzeros_at across.now (table (entry matrix.now) kind line) }
{
    let mut count = 0;
    'others: for other in across {
        if is_nonzero(matrix, kind, line, *other) {
            count += 1;
        }
    }
    count
}

// Whether two lines have the same entries in these crossing lines.
pub fn are_equal(matrix: &Matrix, kind: LineKind, line: u32, twin: u32, across: &[u32]) -> bool
    requires line { line < count_of_kind matrix.now kind }
    requires twin { twin < count_of_kind matrix.now kind }
    requires across { AllBelow (cross_size matrix.now kind) across.now }
    ensures { result ≡ equal_at across.now (table (entry matrix.now) kind twin)
        (table (entry matrix.now) kind line) }
{
    'others: for other in across {
        if !is_equal(matrix, kind, line, twin, *other) {
            return false;
        }
    }
    true
}

// Whether two lines have opposite entries in these crossing lines.
pub fn are_opposite(matrix: &Matrix, kind: LineKind, line: u32, twin: u32, across: &[u32]) -> bool
    requires line { line < count_of_kind matrix.now kind }
    requires twin { twin < count_of_kind matrix.now kind }
    requires across { AllBelow (cross_size matrix.now kind) across.now }
    ensures { result ≡ equal_at across.now (table (entry matrix.now) kind twin)
        (λ other. neg_ℤ (table (entry matrix.now) kind line other)) }
{
    'others: for other in across {
        if !is_opposite(matrix, kind, line, twin, *other) {
            return false;
        }
    }
    true
}
