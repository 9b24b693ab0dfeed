//! The connected parts of a matrix, and its two-separations.
#![tactic(auto)]

mod linked_lines;
mod parts;
mod seeds;
mod separations;

pub use cmr_base::{LineSetList, Two};
pub use parts::{components, components_of};
pub use separations::{two_separation, two_separation_of};
