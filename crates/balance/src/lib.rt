//! Balanced matrices: a fault is a submatrix with exactly two nonzeros in each line and a sum of 2 modulo 4.
#![tactic(auto)]

mod faults;
mod kept;
pub mod laws;
mod search;
mod set_fault;

pub use leaf_enumerate::LeastSubmatrix;
pub use search::least_balance_fault;
