//! The first three-separation and the first cut of a matrix.
#![tactic(auto)]

mod concentrated;
mod connectors;
mod first_cuts;
mod forced;
mod grouped_lines;
mod independent;
pub mod laws;
mod others;
mod pulled;
mod refused_corners;
mod row_search;
mod search;
mod sides;
mod tied_lines;

pub use cmr_base::{Connector, Form, Three};
pub use first_cuts::first_cut;
pub use search::{three_separation, three_separation_of};
