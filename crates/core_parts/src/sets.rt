// The connected parts of the core of a matrix.
ghost use Rattle.std.specs.Prelude.{◌≡◌, ◌≤◌, ◌++◌, ◌∷◌, ℕ, [], length, replicate, IfOk, OnOk};
ghost use Rattle.cmr_base.specs.Components.{no_lines, part_at};
ghost use Rattle.cmr_base.specs.Indices.{IsAbove};
ghost use Rattle.sparse_matrix.specs.declared.nonzero.TheConstants.{MAX_SPARSE_LINES};
ghost use Rattle.sparse_matrix.specs.SparseRows.{AreCrossed};
ghost use Rattle.part_numbers.specs.PartNumbering.{AreBelow};
ghost use Rattle.core_parts.specs.CoreParts.{AreDivided};
ghost use Rattle.core_parts.specs.SetsOfParts.{AreCounted, ArePlacesBy, AreSetsOf, HaveColumns, HaveRows};

use cmr_base::{Indices, LineSet, Memory};
use part_numbers::{Parts, find_parts};
use sparse_core::{TwoCore, core_of};
use sparse_matrix::SparseMatrix;
use std::alloc::Global;

/// The connected parts of the core in the order of their first rows. For each column: whether it is in the core, and its place among
/// the columns of its part.
#[derive(Debug, Drop)]
pub struct CoreParts {
    pub sets: Vec<LineSet>,
    pub columns: Vec<bool>,
    pub places: Vec<u32>,
}

fn no_sets(alloc: Global, count: u32) -> Result<Vec<LineSet>, Memory>
    ensures { IfOk result (λ sets. sets.items ≡ replicate count no_lines) }
{
    let mut sets = Vec::with_capacity(alloc, count as usize)?;
    for _ in 0..count {
        sets.push(LineSet {
            rows: Indices::new(alloc),
            columns: Indices::new(alloc),
        })?;
    }
    Ok(sets)
}

fn put_row(set: &mut LineSet, row: u32) -> Result<(), Memory>
    requires above { IsAbove row set.old.rows }
    ensures { OnOk result (set.new
        ≡ record { rows = set.old.rows ++ row ∷ []; columns = set.old.columns }) }
{
    set.rows.push(row)
}

// Puts a column after the columns of a set. Returns its place.
fn put_column(set: &mut LineSet, column: u32) -> Result<u32, Memory>
    requires above { IsAbove column set.old.columns }
    ensures set { OnOk result (set.new
        ≡ record { rows = set.old.rows; columns = set.old.columns ++ column ∷ [] }) }
    ensures place { IfOk result (λ place. place ≡ length set.old.columns) }
{
    let place = set.columns.len() as u32;
    set.columns.push(column)?;
    Ok(place)
}

// Puts each marked row into the set of its number.
fn put_rows(sets: &mut [LineSet], marks: &[bool], numbers: &[u32]) -> Result<(), Memory>
    requires size { length numbers.now ≡ length marks.now }
    requires most { length marks.now ≤ MAX_SPARSE_LINES }
    requires below { AreBelow marks.now numbers.now (length sets.old) }
    requires empty { (part : ℕ) → (part_at sets.old part).rows ≡ [] }
    ensures { OnOk result (HaveRows sets.old marks.now numbers.now sets.new) }
{
    for line in 0..marks.len() {
        if marks[line] {
            put_row(&mut sets[numbers[line] as usize], line as u32)?;
        }
    }
    Ok(())
}

// Puts each marked column into the set of its number. Returns their places.
fn put_columns(
    alloc: Global,
    sets: &mut [LineSet],
    marks: &[bool],
    numbers: &[u32],
) -> Result<Vec<u32>, Memory>
    requires size { length numbers.now ≡ length marks.now }
    requires most { length marks.now ≤ MAX_SPARSE_LINES }
    requires below { AreBelow marks.now numbers.now (length sets.old) }
    requires empty { (part : ℕ) → (part_at sets.old part).columns ≡ [] }
    ensures sets { OnOk result (HaveColumns sets.old marks.now numbers.now sets.new) }
    ensures places { IfOk result (λ places. ArePlacesBy marks.now numbers.now places.items) }
{
    let mut places = Vec::with_capacity(alloc, marks.len())?;
    for line in 0..marks.len() {
        let mut place = 0;
        if marks[line] {
            place = put_column(&mut sets[numbers[line] as usize], line as u32)?;
        }
        places.push(place)?;
    }
    Ok(places)
}

fn sets_of(alloc: Global, core: &TwoCore, parts: &Parts) -> Result<CoreParts, Memory>
    requires counted { AreCounted core.now parts.now }
    ensures { IfOk result (AreSetsOf core.now parts.now) }
{
    let mut sets = no_sets(alloc, parts.count)?;
    put_rows(&mut sets, &core.rows, &parts.of_rows)?;
    let places = put_columns(alloc, &mut sets, &core.columns, &parts.of_columns)?;
    Ok(CoreParts {
        sets,
        columns: Vec::from_slice(alloc, &core.columns)?,
        places,
    })
}

/// The connected parts of the core of a matrix.
pub fn parts_of_core(alloc: Global, matrix: &SparseMatrix) -> Result<CoreParts, Memory>
    ensures { IfOk result (AreDivided matrix.now) }
{
    let columns = matrix.transposed(alloc)?;
    let core = core_of(alloc, matrix, &columns)?;
    let parts = find_parts(alloc, &core, matrix, &columns)?;
    sets_of(alloc, &core, &parts)
}
