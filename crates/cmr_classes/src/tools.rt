//! The tools, each with its options and its arguments.
mod graph_matrix;
pub mod graphic_network;
pub mod series_parallel;
