ghost use Rattle.std.specs.Prelude.{◌≡◌, ◌<◌, ◌≤◌, ◌+◌, ◌*◌, ◌/◌, ◌++◌, [], ◌∷◌, IfOk, OnOk, OnErr, Some, length, slice_get};
ghost use Rattle.parity.specs.Equations.{number_of, cleared_by, corrected_by, reduced_by, solved};

use crate::words::{add, have_odd_common, is_set, toggle, words_at};
use cmr_base::{MAX_COLUMNS, MAX_ROWS, Memory};
use std::alloc::Global;
use std::marker::Model;

/// Equations over GF(2), each with a pivot, which is one of its columns. The memory is allocated once.
#[derive(Drop)]
pub struct Basis {
    words: usize,
    pivots: Vec<u32>,
    equations: Vec<u64>,
}

impl Model for Basis {
    ghost use Rattle.parity.specs.Equations.{System};

    ghost Value = { System };

    ghost use Rattle.parity.specs.BasisView.{system_of, IsAligned};

    ghost view = { system_of };

    ghost invariant = { IsAligned };
}

impl Basis {
    /// Makes a basis without equations, with room for `most` equations of `words` words.
    pub fn new(alloc: Global, words: usize, most: usize) -> Result<Basis, Memory>
        requires words { words ≤ MAX_COLUMNS }
        requires most { most ≤ MAX_ROWS }
        ensures { IfOk result (λ basis. basis ≡ record { words = words; equations = [] }) }
    {
        Ok(Basis {
            words,
            pivots: Vec::with_capacity(alloc, most)?,
            equations: Vec::with_capacity(alloc, most * words)?,
        })
    }

    /// Removes all equations and keeps the room.
    pub fn clear(&mut self)
        ensures { self.new ≡ record { words = self.old.words; equations = [] } }
    {
        self.pivots.clear();
        self.equations.clear();
    }

    /// Adds an equation with its pivot.
    pub fn push(&mut self, pivot: u32, columns: &[u64]) -> Result<(), Memory>
        requires pivot { pivot / 64 < self.old.words }
        requires columns { length columns.now ≡ self.old.words }
        ensures ok { OnOk result (self.new ≡ record {
          words = self.old.words;
          equations = self.old.equations
              ++ record { pivot = pivot; columns = number_of columns.now } ∷ [];
        }) }
        ensures err { OnErr result (self.new ≡ self.old) }
    {
        self.pivots.push(pivot)?;
        if self.equations.extend_from_slice(columns).is_err() {
            self.pivots.pop();
            return Err(Memory);
        }
        Ok(())
    }

    /// Adds equations of the basis to a set of columns, in their order: each equation whose pivot is in the set at
    /// that time.
    pub fn reduce(&self, columns: &mut [u64])
        requires { length columns.old ≡ self.now.words }
        ensures { number_of columns.new ≡ reduced_by self.now.equations (number_of columns.old) }
    {
        for place in 0..self.len() {
            let (pivot, equation) = self.get(place);
            clear_pivot(columns, pivot, equation);
        }
    }

    /// Toggles pivots, from the last to the first, so that the set has an even number of columns in common with each
    /// equation.
    pub fn solve(&self, columns: &mut [u64])
        requires { length columns.old ≡ self.now.words }
        ensures { number_of columns.new ≡ solved self.now.equations (number_of columns.old) }
    {
        let count = self.len();
        for turn in 0..count {
            let (pivot, equation) = self.get(count - 1 - turn);
            correct(columns, pivot, equation);
        }
    }

    fn len(&self) -> usize
        ensures { result ≡ length self.now.equations }
    {
        self.pivots.len()
    }

    // Gives a pivot and its equation.
    fn get(&self, place: usize) -> (u32, &[u64])
        requires { place < length self.now.equations }
        ensures equation { slice_get self.now.equations place
            ≡ Some (record { pivot = result.0; columns = number_of result.1.now }) }
        ensures len { length result.1.now ≡ self.now.words }
        ensures inside { result.0 / 64 < self.now.words }
    {
        (
            self.pivots[place],
            words_at(&self.equations, place, self.words),
        )
    }
}

fn clear_pivot(columns: &mut [u64], pivot: u32, equation: &[u64])
    requires pivot { pivot / 64 < length columns.old }
    requires len { length columns.old ≡ length equation.now }
    ensures { number_of columns.new
        ≡ cleared_by (record { pivot = pivot; columns = number_of equation.now })
        (number_of columns.old) }
{
    if is_set(columns, pivot) {
        add(columns, equation);
    }
}

fn correct(columns: &mut [u64], pivot: u32, equation: &[u64])
    requires pivot { pivot / 64 < length columns.old }
    requires len { length equation.now ≡ length columns.old }
    ensures { number_of columns.new
        ≡ corrected_by (record { pivot = pivot; columns = number_of equation.now })
        (number_of columns.old) }
{
    if have_odd_common(equation, columns) {
        toggle(columns, pivot);
    }
}
