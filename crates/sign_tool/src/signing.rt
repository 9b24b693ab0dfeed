// A signing of a set of rows.
ghost use Rattle.std.specs.Prelude.{IfOk};
ghost use Rattle.cmr_base.specs.Matrix.{height};
ghost use Rattle.cmr_base.specs.LineSets.{AllBelow};
ghost use Rattle.cmr_base.specs.Violator.{HasNoViolator};
ghost use Rattle.sign_tool.specs.SetSignings.{SignsSetOrViolates, IsEndOfRun, HasStepForEachRow, IsSigned};

use cmr_base::{Indices, LineSet, Matrix, Memory, SignList};
use ghouila::{PivotList, SignRun, SigningOrViolator, sign_by_steps};
use std::alloc::Global;

/// The answer for a set of rows.
#[derive(Debug, Drop)]
pub enum SetSigning {
    /// A signing of the rows, one sign for each in their order, and the steps that led to it.
    Signed { signs: SignList, steps: PivotList },
    /// A violator of the matrix, with rows from the set. The rows may still have a signing.
    Violated(LineSet),
}

/// Gives a signing of the rows, or a violator. The run makes pivots while some column has a positive even number of
/// nonzeros in the remaining rows, and otherwise puts rows aside. The signs follow when the run undoes its steps. The
/// run ends with a violator if a pivot would give a 2 or a -2.
pub fn sign_set(alloc: Global, matrix: &Matrix, rows: &Indices) -> Result<SetSigning, Memory>
    requires { AllBelow (height matrix.now) rows.now }
    ensures right { IfOk result (SignsSetOrViolates matrix.now rows.now) }
    ensures run { IfOk result (IsEndOfRun matrix.now rows.now) }
    ensures steps { IfOk result (HasStepForEachRow rows.now) }
    ensures free { HasNoViolator matrix.now → IfOk result IsSigned }
{
    let SignRun { steps, signing } = sign_by_steps(alloc, matrix, rows)?;
    match signing {
        SigningOrViolator::Signed(signs) => Ok(SetSigning::Signed { signs, steps }),
        SigningOrViolator::Violated(lines) => Ok(SetSigning::Violated(lines)),
    }
}
