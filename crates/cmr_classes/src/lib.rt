//! The tests for classes of matrices that need no decomposition: series-parallel, graphic and network matrices.
#![tactic(auto)]

pub mod laws;
pub mod tools;
