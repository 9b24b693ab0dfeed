// The signed columns of a row, and the columns that make no cycle place with them.
ghost use Rattle.std.specs.Prelude.{◌≡◌, ◌<◌, ℕ, [], length, slice_index, IfOk, MatchOption};
ghost use Rattle.cmr_base.specs.Matrix.{height};
ghost use Rattle.chains.specs.SignSteps.{AreSigns, IsUnsignedOne};
ghost use Rattle.camion_sign.specs.SignOrder.{IsForcedBy};
ghost use Rattle.camion_sign.specs.Signings.{IsPlacedPartner, KnowsPlaces, KnowsSigned};

use crate::row_places::{Partner, RowPlaces};
use cmr_base::{Matrix, Memory, RowsAndColumns};
use std::alloc::Global;

/// The signed columns of the current row. With these records a column without sign is compared with each of them once.
#[derive(Drop)]
pub struct SignedColumns {
    /// The signed columns, in the order in which they got their signs.
    pub columns: Vec<u32>,
    /// For each column of the matrix the number of first signed columns with which it is known to make no place.
    pub passed: Vec<usize>,
}

impl SignedColumns {
    /// No signed columns, in a matrix with `columns` columns.
    pub fn new(alloc: Global, columns: u32) -> Result<SignedColumns, Memory>
        ensures none { IfOk result (λ signed. signed.columns.items ≡ []) }
        ensures long { IfOk result (λ signed. length signed.passed.items ≡ columns) }
        ensures passed { IfOk result (λ signed. (d : ℕ) → slice_index signed.passed.items d ≡ 0) }
    {
        Ok(SignedColumns {
            columns: Vec::new(alloc),
            passed: vec![in alloc; 0; columns as usize]?,
        })
    }

    /// Begins a row. None of its columns is signed.
    pub fn begin(&mut self)
        ensures none { self.new.columns.items ≡ [] }
        ensures long { length self.new.passed.items ≡ length self.old.passed.items }
        ensures passed { (d : ℕ) → slice_index self.new.passed.items d ≡ 0 }
    {
        self.columns.clear();
        self.passed.fill(0);
    }

    /// The first signed column that makes a cycle place with a column. Signed columns that are known to make none with it are
    /// skipped.
    pub fn first_forcing(
        &mut self,
        matrix: &RowsAndColumns<'_>,
        places: &mut RowPlaces,
        row: u32,
        column: u32,
        signs: &Matrix,
    ) -> Result<Option<Partner>, Memory>
        requires row { row < height matrix.now }
        requires column { column < matrix.now.width }
        requires places { KnowsPlaces matrix.now signs.now row places.old }
        requires signs { AreSigns matrix.now signs.now }
        requires signed { KnowsSigned matrix.now signs.now row self.old }
        requires here { IsUnsignedOne matrix.now signs.now row column }
        ensures found { IfOk result (λ found. MatchOption found
            ((c : ℕ) → ¬ (IsForcedBy matrix.now signs.now row column c))
            (IsPlacedPartner matrix.now signs.now row column)) }
        ensures places { IfOk result (λ found. KnowsPlaces matrix.now signs.now row places.new) }
        ensures signed { IfOk result (λ found. KnowsSigned matrix.now signs.now row self.new) }
    {
        let mut place = self.passed[column as usize];
        'signed: while place < self.columns.len() {
            let signed = self.columns[place];
            let mark = places.mark(matrix, signs, row, column, signed)?;
            if mark != 0 {
                return Ok(Some(Partner {
                    column: signed,
                    mark,
                }));
            }
            place += 1;
        }
        self.passed[column as usize] = place;
        Ok(None)
    }
}
