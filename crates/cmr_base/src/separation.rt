ghost use Rattle.std.specs.Prelude.{◌≡◌};
ghost use Rattle.cmr_base.specs.Separations.{connector_lines, first_is_flat, second_is_flat};

use crate::{ItemList, Line, LineSet};

/// A two-separation: the lines of side one, with a row of side two and a column of side one that cross in a nonzero.
/// The entries of this row and this column determine all entries between the sides.
#[derive(Debug, Drop)]
pub struct Two {
    pub side: LineSet,
    pub row: u32,
    pub column: u32,
}

/// The lines that connect one side of a three-separation with the other: a row and a column that cross in a nonzero,
/// and one more line. It is a column if the connector is flat, and a row if the connector is tall.
#[derive(Clone, Copy, Debug, PartialEq, Eq)]
pub struct Connector {
    pub row: u32,
    pub column: u32,
    pub other: u32,
}

impl Connector {
    /// The three lines: the row, the column, and one more column if the connector is flat, one more row if not.
    pub fn lines(self, flat: bool) -> [Line; 3]
        ensures { result ≡ connector_lines flat self }
    {
        let Connector { row, column, other } = self;
        if flat {
            [Line::Row(row), Line::Column(column), Line::Column(other)]
        } else {
            [Line::Row(row), Line::Column(column), Line::Row(other)]
        }
    }
}

/// The form of a three-separation.
///
/// * Delta: both connectors are flat, and both blocks between the sides have rank one.
/// * Y: both connectors are tall, and both blocks have rank one.
/// * Mixed: the first connector is flat, the second is tall, and both blocks have rank one.
/// * Concentrated: the first connector is flat, the second is tall, one block is zero, and the other has rank two.
#[derive(Clone, Copy, Debug, PartialEq, Eq)]
pub enum Form {
    Delta,
    YForm,
    Mixed,
    Concentrated,
}

impl Form {
    /// Whether the first connector is flat. Otherwise it is tall.
    pub fn first_is_flat(self) -> bool
        ensures { result ≡ first_is_flat self }
    {
        match self {
            Form::Delta | Form::Mixed | Form::Concentrated => true,
            Form::YForm => false,
        }
    }

    /// Whether the second connector is flat. Otherwise it is tall.
    pub fn second_is_flat(self) -> bool
        ensures { result ≡ second_is_flat self }
    {
        match self {
            Form::Delta => true,
            Form::YForm | Form::Mixed | Form::Concentrated => false,
        }
    }
}

/// A three-separation: the lines of side one, with a connector in each side.
#[derive(Debug, Drop)]
pub struct Three {
    pub form: Form,
    pub side: LineSet,
    pub first: Connector,
    pub second: Connector,
}

/// Two sets of lines.
#[derive(Debug, Drop)]
pub struct LineSetPair {
    pub one: LineSet,
    pub two: LineSet,
}

/// Sets of lines, in an order.
pub type LineSetList = ItemList<LineSet>;
