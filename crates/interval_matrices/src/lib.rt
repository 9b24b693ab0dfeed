//! Matrices whose rows, or columns, have consecutive nonzeros of one sign.
#![tactic(auto)]

mod intervals;
pub mod laws;

pub use intervals::has_interval_rows;
