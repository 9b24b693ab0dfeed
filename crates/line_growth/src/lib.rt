//! The closure of a set of lines under a rule: the least set that contains the lines and in which no line outside breaks the
//! rule.
#![tactic(auto)]

mod growing_lines;
mod growing_set;
mod rule;
mod waiting;

pub use growing_set::{GrowingSet, line_at};
pub use rule::{Block, GrowthRule, SpreadLines, Sum};
