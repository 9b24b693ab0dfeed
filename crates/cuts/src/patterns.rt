// Patterns of the rows outside a side, on the columns of the side.
ghost use Rattle.std.specs.Prelude.{◌≡◌, ◌<◌, ◌≤◌, ◌+◌, ◌⊎◌, ℕ, List, length, slice_index_or, cond, nat_eq, IfOk};
ghost use Rattle.std.specs.List.Sorted.{IsNonDecreasing};
ghost use Rattle.cuts.specs.Patterns.{AreAtMostBeside, AreAtMostListed, AreOpen, AreShort, AreRunsCounted};

use crate::heaps::{Heaps, middle_heaps, no_heaps};
use crate::line_classes::LineClasses;
use cmr_base::{MAX_ROWS, Memory};
use std::alloc::Global;

/// Counts of the rows outside a side: a bound on the rows in class 0 and one other class, the number of rows in class 0, and two
/// heaps of their classes.
#[derive(Clone, Copy)]
pub struct Patterns {
    pub most: u32,
    pub zeros: u32,
    pub heaps: Heaps,
}

impl Patterns {
    /// The patterns of the rows outside a side. Rows are not sorted if they all have one class.
    pub fn of(alloc: Global, classes: &LineClasses<'_>) -> Result<Patterns, Memory>
        ensures { IfOk result (λ patterns. AreAtMostBeside classes.now.own.now
            classes.now.numbers.now patterns.most) }
    {
        let zeros = count_zeros(classes);
        if !have_two_classes(classes) {
            return Ok(Patterns {
                most: classes.own.count_others(),
                zeros,
                heaps: no_heaps(),
            });
        }
        let sorted = sorted_classes(alloc, classes)?;
        Ok(Patterns {
            most: most_alike(&sorted),
            zeros,
            heaps: middle_heaps(&sorted),
        })
    }
}

// The number of rows outside a side with class 0.
fn count_zeros(classes: &LineClasses<'_>) -> u32 {
    let mut zeros = 0u32;
    for row in 0..classes.own.size() {
        if classes.numbers[row as usize] == 0 && !classes.own.has(row) {
            zeros = zeros.saturating_add(1);
        }
    }
    zeros
}

// Whether the rows outside a side have two classes.
fn have_two_classes(classes: &LineClasses<'_>) -> bool {
    let mut class = 0;
    for row in 0..classes.own.size() {
        let number = classes.numbers[row as usize];
        if number != 0 && number != class && !classes.own.has(row) {
            if class != 0 {
                return true;
            }
            class = number;
        }
    }
    false
}

// The classes of the rows outside a side, in increasing order.
fn sorted_classes(alloc: Global, classes: &LineClasses<'_>) -> Result<Vec<u64>, Memory>
    ensures increasing { IfOk result (λ sorted. IsNonDecreasing sorted.items) }
    ensures few { IfOk result (λ sorted. length sorted.items ≤ MAX_ROWS) }
    ensures listed { IfOk result (λ sorted. AreOpen classes.now.own.now.words
        classes.now.numbers.now classes.now.own.now.size sorted.items) }
{
    let mut sorted = open_classes(alloc, classes)?;
    sorted.sort_unstable();
    Ok(sorted)
}

// The classes of the rows outside a side.
fn open_classes(alloc: Global, classes: &LineClasses<'_>) -> Result<Vec<u64>, Memory>
    ensures few { IfOk result (λ found. length found.items ≤ MAX_ROWS) }
    ensures listed { IfOk result (λ found. AreOpen classes.now.own.now.words
        classes.now.numbers.now classes.now.own.now.size found.items) }
{
    let rows = classes.own.size();
    let mut found = Vec::with_capacity(alloc, rows as usize)?;
    for row in 0..rows {
        if !classes.own.has(row) {
            found.push(classes.numbers[row as usize])?;
        }
    }
    Ok(found)
}

// A bound on the numbers that are 0 or equal to any one number.
fn most_alike(sorted: &[u64]) -> u32
    requires increasing { IsNonDecreasing sorted.now }
    requires few { length sorted.now ≤ MAX_ROWS }
    ensures { AreAtMostListed sorted.now result }
{
    let mut runs = Runs {
        zeros: 0,
        longest: 0,
        run: 0,
        last: 0,
    };
    for place in 0..sorted.len() {
        runs = runs_with(runs, sorted[place]);
    }
    runs.zeros + runs.longest
}

// Counts over the first of some numbers in increasing order: the number of zeros, a bound on the numbers equal to any other
// number, the count of the last number, and the last number.
#[derive(Clone, Copy)]
struct Runs {
    zeros: u32,
    longest: u32,
    run: u32,
    last: u64,
}

// The same with the next number.
fn runs_with(runs: Runs, class: u64) -> Runs
    requires { AreShort runs MAX_ROWS }
    ensures { (sorted : List ℕ) (place : ℕ) → IsNonDecreasing sorted → place < length sorted
        → slice_index_or sorted place 0 ≡ class → AreRunsCounted sorted place runs
        → AreRunsCounted sorted (place + 1) result }
{
    if class == 0 {
        return Runs {
            zeros: runs.zeros + 1,
            longest: runs.longest,
            run: runs.run,
            last: class,
        };
    }
    let run = run_with(runs, class);
    Runs {
        zeros: runs.zeros,
        longest: longer(runs.longest, run),
        run,
        last: class,
    }
}

// The count of a number after the next step.
fn run_with(runs: Runs, class: u64) -> u32
    requires { AreShort runs MAX_ROWS }
    ensures { result ≡ cond (nat_eq class runs.last) (runs.run + 1) 1 }
{
    if class == runs.last { runs.run + 1 } else { 1 }
}

fn longer(one: u32, other: u32) -> u32
    ensures one { one ≤ result }
    ensures other { other ≤ result }
    ensures either { (result ≡ one) ⊎ (result ≡ other) }
{
    if one < other { other } else { one }
}
