//! Three-separations by the ranks of their blocks, and pivots after which there is a cut.
#![tactic(auto)]

pub mod laws;
mod places;

pub use places::place_before_cut;
