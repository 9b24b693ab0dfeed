//! Sums of submatrices by parity: violators, and the least column set that makes a violator with given rows.
#![tactic(auto)]

mod basis;
mod column_search;
mod narrow;
mod sums;
mod violator;
mod wide;
mod words;

pub use column_search::{ColumnSearch, first_column_set};
pub use violator::{is_two_mod_four, is_violator};
