//! Directed trees for network matrices (Tutte; Schrijver, Theory of Linear and Integer Programming, chapter 19).
#![tactic(auto)]

mod column_groups;
mod first_rows;
pub mod laws;
mod line_signs;
mod minimal;
mod orienting;
mod reversing;

pub use first_rows::{rows_of_transposed, rows_without_fault};
pub use minimal::minimal_not_network;
pub use orienting::{Orientation, has_graphic_support, orient, orientation_of};
