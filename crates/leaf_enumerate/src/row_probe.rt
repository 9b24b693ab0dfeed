// The question that each worker answers.
use crate::sought::Sought;
use cmr_base::{Matrix, Memory};
use first_hit::Probe;
use std::alloc::Global;

/// The number of row sets in one run of a worker. It is not a power of two, so each worker's runs contain both large
/// and small sets.
const RUN_SIZE: u64 = 1000;

/// The question whether the row set with a number satisfies the predicate.
#[derive(Drop)]
pub struct RowProbe<'a, S> {
    pub matrix: &'a Matrix,
    pub sought: &'a S,
}

impl<'a, S: Sought> Probe for RowProbe<'a, S> {
    ghost holds = { λ probe number. S.holds probe.sought.now probe.matrix.now number };

    fn hit(&self, alloc: Global, index: u64) -> Result<bool, Memory> {
        self.sought.hit(alloc, self.matrix, index)
    }

    fn first(&self, alloc: Global, from: u64, to: u64) -> Result<Option<u64>, Memory> {
        self.sought.first(alloc, self.matrix, from, to)
    }

    fn run(&self) -> u64 {
        RUN_SIZE
    }
}
