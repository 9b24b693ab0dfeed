// Generated matrices.
ghost use Rattle.std.specs.Prelude.{◌≡◌, ◌≤◌, ◌<◌, ◌^◌, IfOk};
ghost use Rattle.generate.specs.Generated.{IsGenerated};
ghost use Rattle.generate.specs.declared.making.MakeKind.TheVariants.{TwoSum};

use crate::networks::generated_network;
use crate::sums::generated_sum;
use cmr_base::{MAX_ROWS, Matrix, Memory};
use std::alloc::Global;

/// The kind of a generated matrix.
#[derive(Clone, Copy, Debug, PartialEq, Eq)]
pub enum MakeKind {
    Network,
    TwoSum,
}

/// Makes the matrix of a kind, a size and a number.
pub fn make(alloc: Global, what: MakeKind, size: u32, number: u32) -> Result<Matrix, Memory>
    requires positive { 1 ≤ size }
    requires size { size ≤ MAX_ROWS }
    requires sum_size { what ≡ TwoSum → size ≤ 249 }
    requires number { number < 2 ^ 31 }
    ensures { IfOk result (IsGenerated what size number) }
{
    match what {
        MakeKind::Network => generated_network(alloc, size, number)?.matrix(alloc, size, size),
        MakeKind::TwoSum => generated_sum(alloc, size, number),
    }
}
