ghost use Rattle.std.specs.Prelude.{◌≡◌, ◌≤◌, ◌^◌, IfOk, OnOk};
ghost use Rattle.cmr_base.specs.LineSets.{set_numbered};

use crate::{Indices, MAX_LINES, Memory};
use std::alloc::Global;

/// The number of sets of `lines` lines. The numbers of the sets are below it: line k, counted from 0, adds 2^k to a set's
/// number.
pub fn set_count(lines: u32) -> u64
    requires { lines ≤ MAX_LINES }
    ensures { result ≡ 2 ^ lines }
{
    2u64.pow(lines)
}

/// Replaces the list by the set of `lines` lines with this number. It allocates only if the list has no room for the
/// set.
pub fn write_set(set: &mut Vec<u32>, lines: u32, number: u64) -> Result<(), Memory>
    ensures { OnOk result (set.new.items ≡ set_numbered lines 0 number) }
{
    set.clear();
    let mut rest = number;
    for line in 0..lines {
        if rest % 2 == 1 {
            set.push(line)?;
        }
        rest /= 2;
    }
    Ok(())
}

impl Indices {
    /// The set of `lines` lines with this number.
    pub fn numbered(alloc: Global, lines: u32, number: u64) -> Result<Indices, Memory>
        ensures { IfOk result (λ set. set ≡ set_numbered lines 0 number) }
    {
        let mut set = Vec::with_capacity(alloc, lines as usize)?;
        write_set(&mut set, lines, number)?;
        Indices::of(alloc, &set)
    }
}
