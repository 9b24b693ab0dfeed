ghost use Rattle.std.specs.Prelude.{◌≡◌, true, false, IfOk, IfSome, IfNone};
ghost use Rattle.cmr_base.specs.Matrix.{height};
ghost use Rattle.cmr_base.specs.LineSets.{AllBelow};
ghost use Rattle.cmr_base.specs.Violator.{HasNoColumnSet, IsLeastColumnSet};
ghost use Rattle.parity.specs.GivenColumns.{HasLeastColumnSet};

use crate::narrow::has_column_set;
use crate::wide::WideSearch;
use cmr_base::{Indices, Matrix, Memory};
use std::alloc::Global;
use std::marker::Model;

/// Gives the column set of least number that makes a violator with exactly these rows, and `None` if and only if
/// there is none. The number of a set is the sum of 2^c over its columns c, counted from 0.
pub fn first_column_set(
    alloc: Global,
    matrix: &Matrix,
    rows: &Indices,
) -> Result<Option<Indices>, Memory>
    requires { AllBelow (height matrix.now) rows.now }
    ensures least { IfOk result (λ answer. IfSome answer (IsLeastColumnSet matrix.now rows.now)) }
    ensures none { IfOk result (λ answer. IfNone answer (HasNoColumnSet matrix.now rows.now)) }
{
    ColumnSearch::new(alloc, matrix)?.first(alloc, rows.as_slice())
}

/// The search for column sets of one matrix, for many row sets in turn. Room is allocated once, so a search without a
/// result allocates nothing. Contracts see only the matrix.
#[derive(Drop)]
pub struct ColumnSearch<'a> {
    wide: WideSearch<'a>,
    narrow: Vec<u64>,
}

impl<'a> Model for ColumnSearch<'a> {
    ghost use Rattle.cmr_base.specs.Matrix.{Matrix};

    ghost Value = { Matrix };

    ghost view = { λ search. search.wide.matrix.now };
}

impl<'a> ColumnSearch<'a> {
    /// Makes a search in this matrix.
    pub fn new(alloc: Global, matrix: &'a Matrix) -> Result<ColumnSearch<'a>, Memory>
        ensures { IfOk result (λ search. search ≡ matrix.entry.now) }
    {
        let wide = WideSearch::new(alloc, matrix)?;
        let narrow = Vec::with_capacity(alloc, matrix.rows() as usize + 1)?;
        Ok(ColumnSearch { wide, narrow })
    }

    /// Decides whether some column set makes a violator with exactly these rows. A matrix of at most 64 columns is
    /// searched with one word for each row.
    pub fn has(&mut self, rows: &[u32]) -> Result<bool, Memory>
        requires { AllBelow (height self.old) rows.now }
        ensures same { self.new ≡ self.old }
        ensures yes { IfOk result (λ has. has ≡ true → HasLeastColumnSet self.old rows.now) }
        ensures no { IfOk result (λ has. has ≡ false → HasNoColumnSet self.old rows.now) }
    {
        let columns = self.wide.matrix.columns();
        if 0 < columns && columns <= 64 {
            return has_column_set(self.wide.matrix, rows, &mut self.narrow);
        }
        self.wide.has(rows)
    }

    /// Gives the column set of least number that makes a violator with exactly these rows, and `None` if and only if
    /// there is none.
    pub fn first(&mut self, alloc: Global, rows: &[u32]) -> Result<Option<Indices>, Memory>
        requires { AllBelow (height self.old) rows.now }
        ensures same { self.new ≡ self.old }
        ensures least { IfOk result (λ answer. IfSome answer (IsLeastColumnSet self.old rows.now)) }
        ensures none { IfOk result (λ answer. IfNone answer (HasNoColumnSet self.old rows.now)) }
    {
        self.wide.first(alloc, rows)
    }
}
