// The parts of the rows without one of them.
ghost use Rattle.std.specs.Prelude.{◌≡◌, length, IfOk};
ghost use Rattle.std.specs.List.Sorted.{IsStrictlyIncreasing};
ghost use Rattle.cmr_base.specs.LineSets.{AllBelow};
ghost use Rattle.bridge_split.specs.PartNumbers.{is_number, numbered_parts, numbered_rows};

use cmr_base::{Indices, Memory, PartList};
use std::alloc::Global;

/// The parts with the numbers below `count`, each with the rows that have its number.
pub fn parts_of_numbers(
    alloc: Global,
    rows: &[u32],
    part: &[Option<u32>],
    count: u32,
) -> Result<PartList, Memory>
    requires rows { AllBelow (length part.now) rows.now }
    requires increasing { IsStrictlyIncreasing rows.now }
    ensures { IfOk result (λ parts. parts ≡ numbered_parts part.now rows.now count) }
{
    let mut parts = PartList::new(alloc);
    for number in 0..count {
        parts.push(rows_of_part(alloc, rows, part, number)?)?;
    }
    Ok(parts)
}

fn rows_of_part(
    alloc: Global,
    rows: &[u32],
    part: &[Option<u32>],
    number: u32,
) -> Result<Indices, Memory>
    requires rows { AllBelow (length part.now) rows.now }
    requires increasing { IsStrictlyIncreasing rows.now }
    ensures { IfOk result (λ of_part. of_part ≡ numbered_rows part.now rows.now number) }
{
    let mut of_part = Indices::new(alloc);
    for row in rows {
        if has_number(part[*row as usize], number) {
            of_part.push(*row)?;
        }
    }
    Ok(of_part)
}

fn has_number(part: Option<u32>, number: u32) -> bool
    ensures { result ≡ is_number number part }
{
    part == Some(number)
}
