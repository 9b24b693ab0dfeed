ghost use Rattle.std.specs.Prelude.{◌≡◌, ◌<◌, ◌++◌, [], ◌∷◌, length, slice_get, Some, OnOk, OnErr};

use crate::{Indices, Memory, Word};
use std::alloc::Global;
use std::marker::Model;

/// A list that grows at its end and keeps its allocator. Contracts see the list of its items.
#[derive(Debug, Drop)]
pub struct ItemList<T> {
    items: Vec<T>,
}

/// Signs, +1 or -1, one for each row of a set of rows.
pub type SignList = ItemList<i8>;

/// Sets of rows that partition rows of a matrix, in an order.
pub type PartList = ItemList<Indices>;

/// Sides, 0 or 1, one for each part of a list of parts.
pub type SideList = ItemList<u8>;

/// The arguments of a command line.
pub type WordList = ItemList<Word>;

impl<T> Model for ItemList<T> {
    ghost use Rattle.std.specs.Prelude.{List};

    ghost Value = { List T };

    ghost view = { λ a. a.items.items };
}

impl<T: Drop> ItemList<T> {
    /// The empty list.
    pub fn new(alloc: Global) -> Self
        ensures { result ≡ [] }
    {
        ItemList {
            items: Vec::new(alloc),
        }
    }

    /// Appends an item.
    pub fn push(&mut self, item: T) -> Result<(), Memory>
        ensures ok { OnOk result (self.new ≡ self.old ++ item ∷ []) }
        ensures err { OnErr result (self.new ≡ self.old) }
    {
        self.items.push(item)?;
        Ok(())
    }

    /// The number of items.
    pub fn len(&self) -> usize
        ensures { result ≡ length self.now }
    {
        self.items.len()
    }

    /// The item at an index, counted from 0.
    pub fn get(&self, index: usize) -> &T
        requires { index < length self.now }
        ensures { slice_get self.now index ≡ Some result.now }
    {
        &self.items[index]
    }

    /// All items.
    pub fn as_slice(&self) -> &[T]
        ensures { result.now ≡ self.now }
    {
        self.items.as_slice()
    }
}
