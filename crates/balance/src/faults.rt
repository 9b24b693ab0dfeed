// Balance faults as a kind of submatrix.
ghost use Rattle.balance.specs.BalanceFaults.{IsLeastFaultByRows};
ghost use Rattle.balance.specs.CandidateColumns.{MakeFaultAt};

use crate::set_fault::fault_columns;
use cmr_base::{LineSet, Matrix, Memory, write_set};
use leaf_enumerate::{Sought, row_set};
use std::alloc::Global;

/// Balance faults: a row set satisfies the predicate if it makes a fault with its kept columns.
#[derive(Clone, Copy)]
pub struct Faults;

impl Sought for Faults {
    ghost holds = { λ sought m number. MakeFaultAt m number };

    ghost is_least = { λ sought m rows columns. IsLeastFaultByRows m rows columns };

    fn hit(&self, alloc: Global, matrix: &Matrix, number: u64) -> Result<bool, Memory> {
        let rows = row_set(alloc, matrix, number)?;
        match fault_columns(alloc, matrix, rows.as_slice())? {
            Some(_columns) => Ok(true),
            None => Ok(false),
        }
    }

    // The room for a set is allocated once.
    fn first(
        &self,
        alloc: Global,
        matrix: &Matrix,
        from: u64,
        to: u64,
    ) -> Result<Option<u64>, Memory> {
        let count = matrix.rows();
        let mut set = Vec::with_capacity(alloc, count as usize)?;
        for number in from..to {
            write_set(&mut set, count, number)?;
            if let Some(_columns) = fault_columns(alloc, matrix, &set)? {
                return Ok(Some(number));
            }
        }
        Ok(None)
    }

    fn lines(&self, alloc: Global, matrix: &Matrix, number: u64) -> Result<LineSet, Memory> {
        let rows = row_set(alloc, matrix, number)?;
        match fault_columns(alloc, matrix, rows.as_slice())? {
            Some(columns) => Ok(LineSet { rows, columns }),
            None => unreachable!(),
        }
    }
}
