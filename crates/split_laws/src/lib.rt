//! Laws of matrices whose columns, or rows, have at most two nonzeros.
#![tactic(auto)]

pub mod laws;
