//! Decompositions with pivots whose open parts are tried once more, by leaving lines out.
#![tactic(auto)]

mod copies;
mod decomposing;
pub mod laws;
mod rest_search;
mod rests;
mod tried_nodes;

pub use decomposing::decompose;
