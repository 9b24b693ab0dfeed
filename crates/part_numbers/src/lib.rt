//! The connected parts of a core, by a number for each line.
#![tactic(auto)]

pub mod laws;
mod reached;
mod search;

pub use search::{Parts, find_parts};
