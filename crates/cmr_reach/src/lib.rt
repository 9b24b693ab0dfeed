//! Further tools of the program, beyond total unimodularity and its evidence.
#![tactic(auto)]

mod faults;
pub mod laws;
pub mod tools;
