//! The core of a sparse matrix: the lines that remain when zero and unit lines are removed, one after another.
#![tactic(auto)]

pub mod laws;
mod nonzeros;
mod removal;
mod search;

pub use removal::TwoCore;
pub use search::core_of;
