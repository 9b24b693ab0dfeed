//! The pivot of a matrix, or of a submatrix in its place, at a nonzero. The pivot has a violator if and only if the matrix has
//! one, and violators are mapped back through it.
#![tactic(auto)]

mod back;
mod drawn;
pub mod laws;
mod matrix_pivot;
mod part_pivot;

pub use back::{violator_before, violator_before_part};
pub use drawn::{DrawnPlace, drawn_place};
pub use matrix_pivot::{Pivoted, pivot};
pub use part_pivot::{PivotedPart, pivot_part};
