/// The largest number of rows of a matrix.
pub const MAX_ROWS: u32 = 1000;

/// The largest number of columns of a matrix.
pub const MAX_COLUMNS: u32 = 1000;

/// The largest number of lines on the shorter side of a matrix for which all sets of these lines are enumerated.
pub const MAX_LINES: u32 = 24;

/// The largest depth of a node of a decomposition tree. The root has depth 0.
pub const MAX_DEPTH: u32 = 2000;

/// The largest size of a matrix text in bytes: 16 MiB.
pub const MAX_TEXT: usize = 16_777_216;

/// The largest size of an evidence text in bytes: 256 MiB.
pub const MAX_EVIDENCE: usize = 268_435_456;
