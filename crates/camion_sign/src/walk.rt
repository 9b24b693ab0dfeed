// The state of a breadth-first walk.
ghost use Rattle.std.specs.Prelude.{◌≡◌, ◌<◌, ◌≤◌, ◌++◌, [], ◌∷◌, ℕ, IfOk, OnOk, IsTrue, MatchOption, length, replicate, slice_set, false};
ghost use Rattle.cmr_base.specs.BitSets.{AreWordsOf};
ghost use Rattle.cmr_base.specs.ColumnSets.{has_column};
ghost use Rattle.cmr_base.specs.Matrix.{Matrix};
ghost use Rattle.cmr_base.specs.Planes.{words_for};
ghost use Rattle.camion_sign.specs.Walks.{AreInStep, IsFirstFresh, is_fresh, place_in};

use cmr_base::columns::outside;
use cmr_base::{BitSet, MAX_COLUMNS, Memory};
use std::alloc::Global;

/// The position of a column that the walk has not reached.
pub const UNREACHED: u32 = 4_294_967_295;

/// A reached column.
#[derive(Clone, Copy)]
pub struct ReachedColumn {
    pub column: u32,
    /// The row through which the walk reached the column.
    pub row: u32,
    /// The position, among the steps, of the column before this one.
    pub before: u32,
    /// Whether the entries on the path to the column have the sum 2 modulo 4.
    pub is_two: bool,
}

/// The reached columns in order, the position of each column, the set of the rows that the walk has taken, and the set of the
/// columns that it has reached or does not need. All walks share one allocation.
#[derive(Drop)]
pub struct Walk {
    pub steps: Vec<ReachedColumn>,
    pub places: Vec<u32>,
    pub used: BitSet,
    pub reached: BitSet,
}

impl Walk {
    /// Room for walks in a matrix of `rows` rows and `columns` columns.
    pub fn new(alloc: Global, rows: u32, columns: u32) -> Result<Walk, Memory>
        requires rows { rows ≤ MAX_COLUMNS }
        requires columns { columns ≤ MAX_COLUMNS }
        ensures rows { IfOk result (λ walk. walk.used.size ≡ rows) }
        ensures columns { IfOk result (λ walk. walk.reached.size ≡ columns) }
        ensures one_each { IfOk result (λ walk. length walk.places.items ≡ walk.reached.size) }
    {
        Ok(Walk {
            steps: Vec::with_capacity(alloc, columns as usize)?,
            places: vec![in alloc; UNREACHED; columns as usize]?,
            used: BitSet::new(alloc, rows)?,
            reached: BitSet::new(alloc, columns)?,
        })
    }

    /// Begins a walk from a column.
    pub fn begin(&mut self, column: u32) -> Result<(), Memory>
        requires column { column < self.old.reached.size }
        requires one_each { length self.old.places.items ≡ self.old.reached.size }
        ensures steps { OnOk result (self.new.steps.items
            ≡ record { column = column; row = 0; before = 0; is_two = false } ∷ []) }
        ensures places { OnOk result (self.new.places.items
            ≡ slice_set (replicate (length self.old.places.items) UNREACHED) column 0) }
        ensures rows { OnOk result (self.new.used.size ≡ self.old.used.size) }
        ensures unused { OnOk result ((row : ℕ) → has_column self.new.used.words row ≡ false) }
        ensures columns { OnOk result (self.new.reached.size ≡ self.old.reached.size) }
        ensures in_step { OnOk result ((m : Matrix) (t c : ℕ)
            → AreInStep m t c self.new.places.items self.new.reached) }
    {
        self.steps.clear();
        self.places.fill(UNREACHED);
        self.used.clear();
        self.places[column as usize] = 0;
        self.reached.clear();
        self.reached.insert(column);
        self.steps.push(ReachedColumn {
            column,
            row: 0,
            before: 0,
            is_two: false,
        })?;
        Ok(())
    }

    /// Whether the walk has reached a column.
    pub fn has_reached(&self, column: u32) -> bool
        requires { column < length self.now.places.items }
        ensures yes { IsTrue result → place_in self.now.places.items column < UNREACHED }
        ensures no { result ≡ false → place_in self.now.places.items column ≡ UNREACHED }
    {
        self.places[column as usize] < UNREACHED
    }

    /// The first column of a set that is at least `from` and that the walk needs and has not reached. The set is given as words.
    pub fn next_unreached(&self, columns: &[u64], from: u32) -> Option<u32>
        requires columns { AreWordsOf self.now.reached.size columns.now }
        requires from { from ≤ MAX_COLUMNS }
        ensures { MatchOption result
            ((x : ℕ) → from ≤ x → is_fresh columns.now self.now.reached.words x ≡ false)
            (IsFirstFresh columns.now self.now.reached.words from) }
    {
        first_outside(columns, self.reached.words(), from)
    }

    /// The first row of a set that is at least `from` and that the walk has not taken. The set is given as words.
    pub fn next_unused(&self, rows: &[u64], from: u32) -> Option<u32>
        requires rows { AreWordsOf self.now.used.size rows.now }
        requires from { from ≤ MAX_COLUMNS }
        ensures { MatchOption result
            ((x : ℕ) → from ≤ x → is_fresh rows.now self.now.used.words x ≡ false)
            (IsFirstFresh rows.now self.now.used.words from) }
    {
        first_outside(rows, self.used.words(), from)
    }

    /// Adds a reached column.
    pub fn reach(&mut self, step: ReachedColumn) -> Result<(), Memory>
        requires column { step.column < self.old.reached.size }
        requires few { length self.old.steps.items ≤ MAX_COLUMNS }
        requires one_each { length self.old.places.items ≡ self.old.reached.size }
        ensures steps { OnOk result (self.new.steps.items ≡ self.old.steps.items ++ step ∷ []) }
        ensures places { OnOk result (self.new.places.items
            ≡ slice_set self.old.places.items step.column (length self.old.steps.items)) }
        ensures used { OnOk result (self.new.used ≡ self.old.used) }
        ensures columns { OnOk result (self.new.reached.size ≡ self.old.reached.size) }
        ensures in_step { OnOk result ((m : Matrix) (t c : ℕ)
            → AreInStep m t c self.old.places.items self.old.reached
            → AreInStep m t c self.new.places.items self.new.reached) }
    {
        self.places[step.column as usize] = self.steps.len() as u32;
        self.reached.insert(step.column);
        self.steps.push(step)?;
        Ok(())
    }
}

/// The first line of a set that is at least `from` and is not in another set. Both sets are given as words, and the search reads
/// one word at a time.
pub fn first_outside(lines: &[u64], others: &[u64], from: u32) -> Option<u32>
    requires lines { length lines.now ≤ words_for MAX_COLUMNS }
    requires others { length others.now ≡ length lines.now }
    requires from { from ≤ MAX_COLUMNS }
    ensures { MatchOption result
        ((x : ℕ) → from ≤ x → is_fresh lines.now others.now x ≡ false)
        (IsFirstFresh lines.now others.now from) }
{
    let mut line = from;
    while (line as usize) < 64 * lines.len() {
        let chunk = line as usize / 64;
        let word = outside(lines[chunk], others[chunk]) >> (line % 64);
        if word != 0 {
            return Some(line + word.trailing_zeros());
        }
        line = line - line % 64 + 64;
    }
    None
}
