use std::alloc::{AllocError, AllocFailed};

/// An allocation failed. Every function that allocates may return this error.
#[derive(Clone, Copy, Debug, PartialEq, Eq, Drop)]
pub struct Memory;

impl From<AllocError> for Memory {
    fn from(_: AllocError) -> Self {
        Memory
    }
}

impl<T: Drop> From<AllocFailed<T>> for Memory {
    fn from(_: AllocFailed<T>) -> Self {
        Memory
    }
}
