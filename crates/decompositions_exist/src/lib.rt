//! Laws that every matrix has a decomposition.
#![tactic(auto)]

pub mod laws;
