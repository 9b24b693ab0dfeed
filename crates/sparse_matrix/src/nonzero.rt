/// The largest number of rows, and of columns, of a large matrix.
pub const MAX_SPARSE_LINES: u32 = 16_777_216;

/// A nonzero of a line: the crossing line, and the value, 1 or -1.
#[derive(Clone, Copy, Debug, PartialEq, Eq)]
pub struct Nonzero {
    pub line: u32,
    pub value: i8,
}
