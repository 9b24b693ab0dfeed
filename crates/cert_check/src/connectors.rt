// The connectors of three-separations.
ghost use Rattle.std.specs.Prelude.{◌≡◌, ◌<◌, ◌↔◌, pos, true, false, IsTrue};
ghost use Rattle.cmr_base.specs.Cores.{IsBounded};
ghost use Rattle.cmr_base.specs.Matrix.{entry, height};
ghost use Rattle.cmr_base.specs.Separations as separations;
ghost use Rattle.cmr_base.specs.Separations.{first_is_flat, second_is_flat, corner_product, core_determinant, AreTied, AreCrossing, AreConcentrated, IsTied, HaveCornerSign};
ghost use Rattle.cmr_base.specs.Signing.{IsSign};
ghost use Rattle.tree_type.specs.Sides.{HasConnector, AreConnectorsOfSides};
ghost use Rattle.cert_check.specs.SideLines.{sides_from, IsConnectorIn};

use crate::members::is_in;
use crate::spread::core_of;
use cmr_base::{Connector, Form, LineSet, Matrix, Three, product};

/// Whether the connectors of a three-sum are in their sides and have the entries that the form requires.
pub fn are_connectors(matrix: &Matrix, one: &LineSet, other: &LineSet, three: &Three) -> bool
    requires first { IsConnectorIn matrix.now (first_is_flat three.now.form) three.now.first }
    requires second { IsConnectorIn matrix.now (second_is_flat three.now.form) three.now.second }
    ensures { IsTrue result
        ↔ AreConnectorsOfSides (entry matrix.now) (sides_from one.now other.now) three.now }
{
    has_connector(one, three.form.first_is_flat(), three.first)
        && has_connector(other, three.form.second_is_flat(), three.second)
        && have_entries(matrix, three.form, three.first, three.second)
}

fn has_connector(side: &LineSet, flat: bool, c: Connector) -> bool
    ensures { IsTrue result ↔ HasConnector flat side.now.rows side.now.columns c }
{
    is_in(&side.rows, c.row)
        && is_in(&side.columns, c.column)
        && is_in(if flat { &side.columns } else { &side.rows }, c.other)
}

fn have_entries(matrix: &Matrix, form: Form, first: Connector, second: Connector) -> bool
    requires first { IsConnectorIn matrix.now (first_is_flat form) first }
    requires second { IsConnectorIn matrix.now (second_is_flat form) second }
    ensures { IsTrue result ↔ separations.AreConnectors (entry matrix.now) form first second }
{
    matrix.entry(first.row, first.column) != 0
        && matrix.entry(second.row, second.column) != 0
        && are_tied(matrix, form, first, second)
}

fn are_tied(matrix: &Matrix, form: Form, first: Connector, second: Connector) -> bool
    requires first { IsConnectorIn matrix.now (first_is_flat form) first }
    requires second { IsConnectorIn matrix.now (second_is_flat form) second }
    ensures { IsTrue result ↔ AreTied (entry matrix.now) form first second }
{
    match form {
        Form::Delta => are_crossing(matrix, true, true, first, second),
        Form::YForm => are_crossing(matrix, false, false, first, second),
        Form::Mixed => are_crossing(matrix, true, false, first, second),
        Form::Concentrated => are_concentrated(matrix, first, second),
    }
}

fn are_crossing(
    matrix: &Matrix,
    first_flat: bool,
    second_flat: bool,
    first: Connector,
    second: Connector,
) -> bool
    requires first { IsConnectorIn matrix.now first_flat first }
    requires second { IsConnectorIn matrix.now second_flat second }
    ensures { IsTrue result ↔ AreCrossing (entry matrix.now) first_flat second_flat first second }
{
    matrix.entry(first.row, second.column) != 0
        && matrix.entry(second.row, first.column) != 0
        && is_tied(matrix, first_flat, first, second)
        && is_tied(matrix, second_flat, second, first)
}

// Whether the third line of a connector is 0 at its crossing with this connector, and not 0 at its crossing with the other
// connector.
fn is_tied(matrix: &Matrix, flat: bool, one: Connector, other: Connector) -> bool
    requires one { IsConnectorIn matrix.now flat one }
    requires other_row { other.row < height matrix.now }
    requires other_column { other.column < matrix.now.width }
    ensures { IsTrue result ↔ IsTied (entry matrix.now) flat one other.row other.column }
{
    if flat {
        matrix.entry(one.row, one.other) == 0 && matrix.entry(other.row, one.other) != 0
    } else {
        matrix.entry(one.other, one.column) == 0 && matrix.entry(one.other, other.column) != 0
    }
}

fn are_concentrated(matrix: &Matrix, first: Connector, second: Connector) -> bool
    requires first { IsConnectorIn matrix.now true first }
    requires second { IsConnectorIn matrix.now false second }
    ensures { IsTrue result ↔ AreConcentrated (entry matrix.now) first second }
{
    matrix.entry(first.row, first.other) != 0
        && matrix.entry(second.other, second.column) != 0
        && first.column < first.other
        && second.row < second.other
        && is_core_unimodular(matrix, first, second)
}

fn is_core_unimodular(matrix: &Matrix, first: Connector, second: Connector) -> bool
    requires first { IsConnectorIn matrix.now true first }
    requires second { IsConnectorIn matrix.now false second }
    ensures { IsTrue result ↔ IsSign (core_determinant (entry matrix.now) first second) }
{
    let determinant = determinant_of_core(matrix, first, second);
    determinant == 1 || determinant == -1
}

fn determinant_of_core(matrix: &Matrix, first: Connector, second: Connector) -> i8
    requires first { IsConnectorIn matrix.now true first }
    requires second { IsConnectorIn matrix.now false second }
    ensures value { result ≡ core_determinant (entry matrix.now) first second }
    ensures small { IsBounded 2 result }
{
    core_of(matrix, first, second).determinant()
}

/// Whether the corners of two connectors have the signs that the form requires.
pub fn have_corner_sign(matrix: &Matrix, form: Form, first: Connector, second: Connector) -> bool
    requires first { IsConnectorIn matrix.now (first_is_flat form) first }
    requires second { IsConnectorIn matrix.now (second_is_flat form) second }
    ensures { IsTrue result ↔ HaveCornerSign (entry matrix.now) form first second }
{
    match form {
        Form::Delta | Form::YForm | Form::Mixed => is_corner_product_one(matrix, first, second),
        Form::Concentrated => true,
    }
}

fn is_corner_product_one(matrix: &Matrix, one: Connector, other: Connector) -> bool
    requires one_row { one.row < height matrix.now }
    requires one_column { one.column < matrix.now.width }
    requires other_row { other.row < height matrix.now }
    requires other_column { other.column < matrix.now.width }
    ensures { IsTrue result ↔ (corner_product (entry matrix.now) one other ≡ pos 1) }
{
    let above = product(
        matrix.entry(one.row, one.column),
        matrix.entry(one.row, other.column),
    );
    let below = product(
        matrix.entry(other.row, one.column),
        matrix.entry(other.row, other.column),
    );
    product(above, below) == 1
}
