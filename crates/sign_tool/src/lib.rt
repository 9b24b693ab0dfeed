//! A signing of a given set of rows, with the steps that led to it.
#![tactic(auto)]

pub mod laws;
mod signing;

pub use ghouila::{Pivot, PivotList};
pub use signing::{SetSigning, sign_set};
