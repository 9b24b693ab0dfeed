ghost use Rattle.std.specs.Prelude.{◌≡◌, ◌<◌, ◌++◌, [], ◌∷◌, length, slice_get, Some, IfOk, OnOk, OnErr};

use crate::Memory;
use smallvec::SmallVec;
use std::alloc::Global;
use std::marker::Model;

/// The numbers of a path in a tree: the child numbers, counted from 0, from the root of a decomposition tree to one of
/// its nodes, or the nodes on a path in a tree. The list contains up to 8 numbers without an allocation, because most
/// paths are short. Contracts see the list of the numbers.
#[derive(Debug, Drop)]
pub struct PathList {
    numbers: SmallVec<u32, 8>,
}

impl Model for PathList {
    ghost use Rattle.std.specs.Prelude.{List, ℕ};

    ghost Value = { List ℕ };

    ghost view = { λ a. a.numbers.items };
}

impl PathList {
    /// The empty path. It is the path of the root.
    pub fn new(alloc: Global) -> Self
        ensures { result ≡ [] }
    {
        PathList {
            numbers: SmallVec::new(alloc),
        }
    }

    /// Appends a number.
    pub fn push(&mut self, number: u32) -> Result<(), Memory>
        ensures ok { OnOk result (self.new ≡ self.old ++ number ∷ []) }
        ensures err { OnErr result (self.new ≡ self.old) }
    {
        self.numbers.push(number)?;
        Ok(())
    }

    /// The path of child `number` of this path's node.
    pub fn child(&self, number: u32) -> Result<PathList, Memory>
        ensures { IfOk result (λ longer. longer ≡ self.now ++ number ∷ []) }
    {
        let path = self.as_slice();
        let mut numbers = SmallVec::with_capacity(*self.numbers.allocator(), path.len() + 1)?;
        numbers.extend_from_slice(path)?;
        numbers.push(number)?;
        Ok(PathList { numbers })
    }

    /// The number of items.
    pub fn len(&self) -> usize
        ensures { result ≡ length self.now }
    {
        self.numbers.len()
    }

    /// The number at an index, counted from 0.
    pub fn get(&self, index: usize) -> &u32
        requires { index < length self.now }
        ensures { slice_get self.now index ≡ Some result.now }
    {
        &self.numbers[index]
    }

    /// All numbers.
    pub fn as_slice(&self) -> &[u32]
        ensures { result.now ≡ self.now }
    {
        self.numbers.as_slice()
    }
}
