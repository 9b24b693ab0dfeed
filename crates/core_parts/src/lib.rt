//! The connected parts of the core of a large matrix, and their matrices.
#![tactic(auto)]

mod dense_matrices;
pub mod laws;
mod part_matrices;
mod sets;

pub use dense_matrices::dense;
pub use part_matrices::part_matrix;
pub use sets::{CoreParts, parts_of_core};
