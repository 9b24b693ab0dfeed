// The file of a tool that reads one matrix text.
ghost use Rattle.std.specs.Prelude.{◌≡◌, ◌∷◌, [], IfOk, IfErr, IsTrue, Ok, map};
ghost use Rattle.cmr_base.specs.Trees.{IsBinary};
ghost use Rattle.text_fields.specs.Reading.{Gives};
ghost use Rattle.cmr_front.specs.Inputs.{input_file};
ghost use Rattle.cmr_front.specs.MatrixText.{matrix_file, matrix_in};
ghost use Rattle.cmr_front.specs.Stopped.{StopsText};
ghost use Rattle.cmr_front.specs.declared.outcome.FaultKind.TheVariants as faults;

use crate::input::{Input, InputKind};
use crate::outcome::{FaultKind, Stop};
use cmr_base::{Matrix, Memory};
use matrix_text::{TextError, read_dense, read_sparse};
use std::alloc::Global;

/// The form of a matrix text.
#[derive(Clone, Copy, Debug, PartialEq, Eq)]
pub enum MatrixForm {
    /// The two sizes and all entries, row by row.
    Dense,
    /// The two sizes, the number of nonzeros, and a row, a column and a value for each nonzero.
    Sparse,
}

/// The one file of a tool that reads one matrix text.
pub fn matrix_input<'a>(alloc: Global, name: &'a str) -> Result<Vec<Input<'a>>, Memory>
    ensures { IfOk result (λ inputs. map input_file inputs.items
        ≡ matrix_file name.entry.now ∷ []) }
{
    let mut inputs = Vec::new(alloc);
    inputs.push(Input {
        name,
        kind: InputKind::MatrixText,
    })?;
    Ok(inputs)
}

/// The matrix that the text of a file represents, or why the run ends: the text's first fault. If `binary` is true,
/// an entry -1 is a fault.
pub fn read_matrix<'a>(
    alloc: Global,
    name: &'a str,
    form: MatrixForm,
    binary: bool,
    bytes: &[u8],
) -> Result<Matrix, Stop<'a>>
    ensures read { IfOk result (λ m. matrix_in form binary bytes.now ≡ Ok m) }
    ensures binary { IsTrue binary → IfOk result IsBinary }
    ensures stopped { IfErr result (StopsText faults.Matrix name.entry.now (matrix_in form binary
        bytes.now)) }
{
    match read_form(alloc, form, binary, bytes) {
        Ok(matrix) => Ok(matrix),
        Err(TextError::Fault { kind, place }) => Err(Stop::BadText {
            name,
            kind: FaultKind::Matrix(kind),
            place,
        }),
        Err(TextError::Memory) => Err(Stop::Memory),
    }
}

fn read_form(
    alloc: Global,
    form: MatrixForm,
    binary: bool,
    bytes: &[u8],
) -> Result<Matrix, TextError>
    ensures exact { Gives (λ m. m) result (matrix_in form binary bytes.now) }
    ensures binary { IsTrue binary → IfOk result IsBinary }
{
    match form {
        MatrixForm::Dense => read_dense(alloc, bytes, binary),
        MatrixForm::Sparse => read_sparse(alloc, bytes, binary),
    }
}
