//! Laws of cuts and of the shortest paths of their sides.
#![tactic(auto)]

pub mod laws;
