//! Minimal submatrices that lack a hereditary property: a property that submatrices inherit.
#![tactic(auto)]

mod greedy;
mod property;

pub use greedy::minimal_without;
pub use property::Property;
