//! Positions of pivots: the first edge of a shortest path between the ends of a side of a cut.
#![tactic(auto)]

pub mod laws;
mod path_place;
mod side;
mod submatrix;

pub use cmr_base::Position;
pub use path_place::cut_place;
pub use side::Side;
