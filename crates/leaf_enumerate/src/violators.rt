// Violators as a kind of submatrix.
ghost use Rattle.std.specs.Prelude.{◌≡◌, ◌≤◌, IfOk};
ghost use Rattle.cmr_base.specs.Violator.{IsLeastByRows};
ghost use Rattle.first_hit.specs.First.{IsFirst};
ghost use Rattle.leaf_enumerate.specs.RowSets.{HasColumnSet};

use crate::row_sets::row_set;
use crate::sought::Sought;
use cmr_base::{LineSet, Matrix, Memory, write_set};
use parity::{ColumnSearch, first_column_set};
use std::alloc::Global;

/// Violators: a row set satisfies the predicate if it makes a violator with some column set.
#[derive(Clone, Copy)]
pub struct Violators;

impl Sought for Violators {
    ghost holds = { λ sought m number. HasColumnSet m number };

    ghost is_least = { λ sought m rows columns. IsLeastByRows m rows columns };

    fn hit(&self, alloc: Global, matrix: &Matrix, number: u64) -> Result<bool, Memory> {
        let rows = row_set(alloc, matrix, number)?;
        let columns = first_column_set(alloc, matrix, &rows)?;
        Ok(columns.is_some())
    }

    // The room for all searches is allocated once.
    fn first(
        &self,
        alloc: Global,
        matrix: &Matrix,
        from: u64,
        to: u64,
    ) -> Result<Option<u64>, Memory> {
        let mut search = ColumnSearch::new(alloc, matrix)?;
        let mut set = Vec::with_capacity(alloc, matrix.rows() as usize)?;
        first_row_set(matrix, &mut search, &mut set, from, to)
    }

    fn lines(&self, alloc: Global, matrix: &Matrix, number: u64) -> Result<LineSet, Memory> {
        let rows = row_set(alloc, matrix, number)?;
        match first_column_set(alloc, matrix, &rows)? {
            Some(columns) => Ok(LineSet { rows, columns }),
            None => unreachable!(),
        }
    }
}

// Gives the least number of a range whose row set makes a violator with some column set. `set` is room for a row set.
fn first_row_set(
    matrix: &Matrix,
    search: &mut ColumnSearch<'_>,
    set: &mut Vec<u32>,
    from: u64,
    to: u64,
) -> Result<Option<u64>, Memory>
    requires range { from ≤ to }
    requires search { search.old ≡ matrix.now }
    ensures { IfOk result (IsFirst (HasColumnSet matrix.now) from to) }
{
    let count = matrix.rows();
    for number in from..to {
        write_set(set, count, number)?;
        if search.has(set)? {
            return Ok(Some(number));
        }
    }
    Ok(None)
}
