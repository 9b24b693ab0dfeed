//! Decomposition trees: facts about a matrix, derived from facts about its submatrices.
#![tactic(auto)]

mod child_lines;
mod dec_tree;
mod finding;
pub mod laws;
mod node_count;
mod refusal;
mod tree;
mod verdicts;

pub use child_lines::{
    copy_of, has_line, side_one, side_two, three_one, three_two, two_one, two_two,
};
pub use cmr_base::{
    Connector, Form, Line, LineList, LineSet, MAX_DEPTH, Network, PathList, Three, Two,
};
pub use dec_tree::DecTree;
pub use finding::{Finding, join_node};
pub use node_count::count_nodes;
pub use refusal::{Refusal, Rule};
pub use tree::{Kind, Node, NodeList};
pub use verdicts::{VerdictOf, verdict, verdict_at};
