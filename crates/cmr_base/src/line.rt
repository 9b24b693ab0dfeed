use crate::ItemList;

/// A line of a matrix: a row or a column, by its number.
#[derive(Clone, Copy, Debug, PartialEq, Eq)]
pub enum Line {
    Row(u32),
    Column(u32),
}

/// Why a series-parallel reduction may remove a line, as in the CMR library: the line has no nonzero; it has one
/// nonzero, at which it crosses the named line; it equals the named line of its kind; or it is the negative of that
/// line.
#[derive(Clone, Copy, Debug, PartialEq, Eq)]
pub enum Reason {
    Zero,
    Unit(Line),
    Copy(Line),
    Negative(Line),
}

/// One removal: the removed line, and the reason.
#[derive(Clone, Copy, Debug, PartialEq, Eq)]
pub struct Step {
    pub line: Line,
    pub reason: Reason,
}

/// Lines, in an order.
pub type LineList = ItemList<Line>;

/// Removals, one after another.
pub type StepList = ItemList<Step>;
