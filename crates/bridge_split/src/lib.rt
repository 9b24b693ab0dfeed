//! Splits the rows of a matrix at one of them, by the positions of the nonzeros only. This is a step of the recognition of
//! graphic matrices (Tutte; Schrijver, Theory of Linear and Integer Programming, chapter 20).
#![tactic(auto)]

mod counts;
mod cuts;
mod forest;
mod part_walk;
mod parts;
mod sides;
mod splitting;
mod stars;

pub use cuts::part_cuts;
pub use sides::{PartSides, sides_at};
pub use splitting::{SplitCase, SplitRow, first_splitting_row, split};
pub use stars::has_column_with_three;
