ghost use Rattle.std.specs.Prelude.{◌≡◌, ◌<◌, ◌++◌, [], ◌∷◌, length, slice_index, IfOk, OnOk, OnErr};
ghost use Rattle.std.specs.List.Sorted.{IsStrictlyIncreasing};
ghost use Rattle.cmr_base.specs.Indices.{IsAbove};

use crate::Memory;
use std::alloc::Global;
use std::marker::Model;

/// A set of rows or of columns: a strictly increasing list of their numbers.
#[derive(Debug, Drop)]
pub struct Indices {
    items: Vec<u32>,
}

impl Model for Indices {
    ghost use Rattle.std.specs.Prelude.{List, ℕ};
    ghost use Rattle.std.specs.List.Sorted.{IsStrictlyIncreasing};

    ghost Value = { List ℕ };

    ghost view = { λ a. a.items.items };

    ghost invariant = { λ a. IsStrictlyIncreasing a.items.items };
}

impl Indices {
    /// The empty set.
    pub fn new(alloc: Global) -> Self
        ensures { result ≡ [] }
    {
        Indices {
            items: Vec::new(alloc),
        }
    }

    /// The set of these numbers.
    pub fn of(alloc: Global, numbers: &[u32]) -> Result<Self, Memory>
        requires { IsStrictlyIncreasing numbers.now }
        ensures { IfOk result (λ set. set ≡ numbers.now) }
    {
        Ok(Indices {
            items: Vec::from_slice(alloc, numbers)?,
        })
    }

    /// Appends a number that is above all numbers of the set.
    pub fn push(&mut self, item: u32) -> Result<(), Memory>
        requires { IsAbove item self.old }
        ensures ok { OnOk result (self.new ≡ self.old ++ item ∷ []) }
        ensures err { OnErr result (self.new ≡ self.old) }
    {
        self.items.push(item)?;
        Ok(())
    }

    /// The number of items.
    pub fn len(&self) -> usize
        ensures len { result ≡ length self.now }
        ensures increasing { IsStrictlyIncreasing self.now }
    {
        self.items.len()
    }

    /// The number at an index, counted from 0.
    pub fn get(&self, index: usize) -> &u32
        requires { index < length self.now }
        ensures { result.now ≡ slice_index self.now index }
    {
        &self.items[index]
    }

    /// All numbers.
    pub fn as_slice(&self) -> &[u32]
        ensures items { result.now ≡ self.now }
        ensures increasing { IsStrictlyIncreasing self.now }
    {
        self.items.as_slice()
    }
}
