//! Large matrices with few nonzeros, by their nonzeros.
#![tactic(auto)]

pub mod laws;
mod matrix;
mod nonzero;

pub use matrix::SparseMatrix;
pub use nonzero::{MAX_SPARSE_LINES, Nonzero};
