//! Series-parallel reductions.
#![tactic(auto)]

mod changes;
mod kind;
pub mod laws;
mod looking;
mod minimal;
mod needed;
mod omitted;
mod reducible;
mod removal;
mod side;
mod tallies;

pub use cmr_base::{Reason, Step, StepList};
pub use looking::{FirstLook, first_look};
pub use minimal::minimal_not_sp;
pub use reducible::is_reducible_line;
pub use removal::{Reduction, reduce};
