//! Cuts of a matrix, and groups of lines that no cut separates.
#![tactic(auto)]

mod corners;
mod cut_groups;
mod cut_search;
mod groups;
mod heaps;
mod line_classes;
mod line_patterns;
mod next_line;
mod numbered_set;
mod patterns;
mod rest;
mod sides;

pub use corners::Corners;
pub use cut_groups::groups_of;
pub use groups::Groups;
pub use sides::LEAST_SIDE;
