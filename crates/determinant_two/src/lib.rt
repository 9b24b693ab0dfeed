//! Laws of determinants 2 and -2.
#![tactic(auto)]

pub mod laws;
