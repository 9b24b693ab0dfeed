// Reading the text of a matrix of any size.
ghost use Rattle.std.specs.Prelude.{◌≡◌, IfOk, IfErr, Ok};
ghost use Rattle.sparse_matrix.specs.SparseRows.{matrix_of_runs};
ghost use Rattle.text_fields.specs.Reading.{Gives};
ghost use Rattle.cmr_front.specs.Stopped.{StopsText};
ghost use Rattle.cmr_front.specs.declared.outcome.FaultKind.TheVariants as faults;
ghost use Rattle.cmr_large.specs.LargeInputs.{large_in};

use cmr_front::matrix_file::MatrixForm;
use cmr_front::outcome::{FaultKind, Stop};
use matrix_text::TextError;
use sparse_matrix::SparseMatrix;
use sparse_text::{read_large_dense, read_large_sparse};
use std::alloc::Global;

/// The matrix that the text of a file represents, or why the run ends: the text's first fault.
pub fn read_large<'a>(
    alloc: Global,
    name: &'a str,
    form: MatrixForm,
    bytes: &[u8],
) -> Result<SparseMatrix, Stop<'a>>
    ensures read { IfOk result (λ m. large_in form bytes.now ≡ Ok (matrix_of_runs m)) }
    ensures stopped { IfErr result (StopsText faults.Matrix name.entry.now (large_in form
        bytes.now)) }
{
    match read_form(alloc, form, bytes) {
        Ok(matrix) => Ok(matrix),
        Err(TextError::Fault { kind, place }) => Err(Stop::BadText {
            name,
            kind: FaultKind::Matrix(kind),
            place,
        }),
        Err(TextError::Memory) => Err(Stop::Memory),
    }
}

fn read_form(alloc: Global, form: MatrixForm, bytes: &[u8]) -> Result<SparseMatrix, TextError>
    ensures { Gives (λ m. matrix_of_runs m) result (large_in form bytes.now) }
{
    match form {
        MatrixForm::Dense => read_large_dense(alloc, bytes),
        MatrixForm::Sparse => read_large_sparse(alloc, bytes),
    }
}
