//! Trees for matrices in which the supports of the columns are the paths of a tree.
#![tactic(auto)]

mod arc_sides;
mod branches;
mod growing;
mod joining;
mod joint;
pub mod laws;
mod minimal;
mod realising;
mod side_search;
mod star;
mod table;

pub use minimal::minimal_not_graphic;
pub use realising::realise;
