//! The least submatrix of a kind in a matrix with a short side: the search tries the sets of that side one after
//! another. Violators are one kind, and other crates define other kinds.
#![tactic(auto)]

mod row_probe;
mod row_sets;
mod search;
mod sought;
mod violators;

pub use row_sets::row_set;
pub use search::{LeastSubmatrix, least_submatrix, least_violator, least_violator_of};
pub use sought::Sought;
