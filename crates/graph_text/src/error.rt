ghost use Rattle.std.specs.Prelude.{◌≡◌};
ghost use Rattle.graph_text.specs.GraphKinds.{graph_kind};

use text_fields::{FieldError, NumberFault};

/// The kind of a fault of a graph text.
#[derive(Clone, Copy, Debug, PartialEq, Eq)]
pub enum GraphKind {
    /// A node is not a number.
    NotNumber,
    /// A node is above 2^31 - 1.
    TooBig,
    /// The third word of an edge is neither the name of the next row nor the name of the next column. After a column
    /// the name of a row is also wrong.
    BadElement,
    /// The text has more rows than a matrix can have.
    TooManyRows,
    /// The text has more columns than a matrix can have.
    TooManyColumns,
    /// The text ends inside an edge.
    Short,
    /// A node is above the number of rows.
    OutOfRange,
    /// The edges of the rows are not a tree.
    NotTree,
}

/// The reason why a graph text was not read: its fault with its position, or an allocation failure.
pub type GraphError = FieldError<GraphKind>;

impl From<NumberFault> for GraphKind {
    ghost from_gives = { λ fault kind. kind ≡ graph_kind fault };

    fn from(fault: NumberFault) -> Self {
        match fault {
            NumberFault::NotNumber => GraphKind::NotNumber,
            NumberFault::TooBig => GraphKind::TooBig,
        }
    }
}
