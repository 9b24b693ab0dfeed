//! Positions of pivots: towards a three-separation if the submatrix has a cut, and drawn otherwise.
#![tactic(auto)]

pub mod laws;
mod place;

pub use place::{LATE_STATE, chosen_place};
