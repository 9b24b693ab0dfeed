// Labels of lines: joined lines have one label.
ghost use Rattle.std.specs.Prelude.{◌≡◌, cond, nat_eq, map, IfOk};
ghost use Rattle.std.specs.List.{range_with_len};

use crate::Memory;
use std::alloc::Global;

/// A separate label for each line.
pub fn own_labels(alloc: Global, size: u32) -> Result<Vec<u32>, Memory>
    ensures { IfOk result (λ labels. labels.items ≡ range_with_len 0 size) }
{
    let mut labels = Vec::with_capacity(alloc, size as usize)?;
    for line in 0..size {
        labels.push(line)?;
    }
    Ok(labels)
}

/// Gives the label `kept` to all lines with the label `replaced`.
pub fn join_labels(labels: &mut Vec<u32>, replaced: u32, kept: u32)
    ensures { labels.new.items
        ≡ map (λ label. cond (nat_eq label replaced) kept label) labels.old.items }
{
    for place in 0..labels.len() {
        if labels[place] == replaced {
            labels[place] = kept;
        }
    }
}
