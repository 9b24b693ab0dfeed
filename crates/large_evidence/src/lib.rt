//! Evidence that a large matrix is totally unimodular, and its check.
#![tactic(auto)]

mod checker;
mod evidence;
pub mod laws;
mod lines_left;
mod numbering;
mod reasons;

pub use checker::accepts;
pub use evidence::{PartEvidence, PartReason, UnimodularityEvidence};
