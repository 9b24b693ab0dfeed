//! Decompositions of matrices.
#![tactic(auto)]

mod decomposing;
mod drafts;
mod fault_rows;
mod faults;
pub mod laws;
mod levels;
mod looking;
mod naming;
mod obstructions;
mod pulling_back;
mod search_limits;
mod searched_node;
mod seen;
mod settling;

pub use decomposing::decompose;
pub use naming::named_set;
