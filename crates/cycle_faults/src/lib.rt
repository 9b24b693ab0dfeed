//! Laws of cycle faults.
#![tactic(auto)]

pub mod laws;
