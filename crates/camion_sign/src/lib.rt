//! Cycle places of a matrix, and the signs that they force.
#![tactic(auto)]

mod column_parts;
mod cycle_lines;
mod fault;
mod kept_steps;
pub mod laws;
mod line_words;
mod near_columns;
mod network_rows;
mod reach;
mod row_places;
mod row_signs;
mod signed_columns;
mod signing;
mod walk;

pub use cycle_lines::{cycle_fault, cycle_fault_from, cycle_fault_of};
pub use network_rows::passed_before;
pub use signing::{sign, signed_matrix};
