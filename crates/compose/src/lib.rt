//! The inverse of sums: the two matrices of a separation whose sum is the matrix.
#![tactic(auto)]

mod arrangement;
pub mod laws;
mod line_lists;
mod sides;
mod signed_line;
mod sum_kind;
mod three;
mod two;

pub use arrangement::{Arranged, OrderList};
pub use sum_kind::{SumKind, sum_of};
pub use sum_ops::SumError;
pub use three::arrange_three;
pub use two::arrange_two;
