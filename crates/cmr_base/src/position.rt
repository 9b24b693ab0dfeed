// The position of an entry of a matrix.

/// A row and a column.
#[derive(Clone, Copy, Debug, PartialEq, Eq)]
pub struct Position {
    pub row: u32,
    pub column: u32,
}
