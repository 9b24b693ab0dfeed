//! Laws over decomposition trees: what the rules that all nodes keep say of a matrix.
#![tactic(auto)]

pub mod laws;
