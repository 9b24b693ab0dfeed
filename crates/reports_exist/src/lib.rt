//! Laws that each order has a report on each text of its files.
#![tactic(auto)]

pub mod laws;
