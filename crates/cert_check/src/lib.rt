//! Checks of evidence.
#![tactic(auto)]

mod apart_rule;
mod blocks;
mod check_tree;
mod clean;
mod connectors;
mod due_lines;
mod leaf_rules;
mod members;
mod own_rule;
mod pivot_rule;
mod reduced_rule;
mod spread;
mod sum_rules;

pub use check_tree::accept;
pub use tree_type::{Refusal, Rule};
