// Breadth-first trees in which each part disagrees with its parent.
ghost use Rattle.std.specs.Prelude.{◌≡◌, ◌<◌, ◌+◌, ◌++◌, ◌∷◌, [], ℕ, length, slice_index, slice_set, IfOk, OnOk, MatchOption};
ghost use Rattle.cmr_base.specs.Members.{IsIn};
ghost use Rattle.bridge_split.specs.Forests.{AreInOneTree, Extends, HasRoute, HasTreeRoom, IsConflict, IsGrowingForest, IsGrownForest, IsSquare, IsTwoColoured, depth_at, joins, parent_at};

use crate::cuts::CutTable;
use cmr_base::{Memory, PathList};
use std::alloc::Global;

/// The depth of a part that the search has not reached.
const UNREACHED: u32 = 4_294_967_295;

/// Two parts of one tree that disagree and have depths of the same parity.
#[derive(Clone, Copy)]
pub struct Conflict {
    pub one: u32,
    pub two: u32,
}

/// Breadth-first trees over the parts.
#[derive(Drop)]
pub struct Forest {
    /// The distance of each part from the root of its tree.
    pub depth: Vec<u32>,
    parent: Vec<u32>,
    // The parts with a depth, in the order in which the search reached them.
    reached: Vec<u32>,
}

impl Forest {
    /// Room for the trees over `count` parts.
    pub fn new(alloc: Global, count: usize) -> Result<Forest, Memory>
        ensures room { IfOk result (λ forest.
            HasTreeRoom count forest.depth.items forest.parent.items) }
        ensures reached { IfOk result (λ forest. forest.reached.items ≡ []) }
        ensures unreached { IfOk result (λ forest. (x : ℕ)
            → depth_at forest.depth.items x ≡ UNREACHED) }
    {
        Ok(Forest {
            depth: vec![in alloc; UNREACHED; count]?,
            parent: vec![in alloc; 0u32; count]?,
            reached: Vec::with_capacity(alloc, count)?,
        })
    }

    /// Grows trees over all parts, and stops at the first conflict.
    pub fn grow(&mut self, table: &CutTable) -> Result<Option<Conflict>, Memory>
        requires table { IsSquare table.now }
        requires room { HasTreeRoom table.now.count self.old.depth.items self.old.parent.items }
        requires reached { self.old.reached.items ≡ [] }
        requires unreached { (x : ℕ) → depth_at self.old.depth.items x ≡ UNREACHED }
        ensures room { OnOk result (HasTreeRoom table.now.count self.new.depth.items
            self.new.parent.items) }
        ensures found { IfOk result (λ found. MatchOption found
            (IsTwoColoured (joins table.now) table.now.count (depth_at self.new.depth.items))
            (λ conflict. IsConflict (joins table.now) table.now.count
            (depth_at self.new.depth.items) (parent_at self.new.parent.items) self.new.reached.items
            conflict.one conflict.two)) }
    {
        for root in 0..table.len() as u32 {
            if self.depth[root as usize] == UNREACHED {
                if let Some(conflict) = self.grow_from(table, root)? {
                    return Ok(Some(conflict));
                }
            }
        }
        Ok(None)
    }

    // Grows the tree of a part.
    fn grow_from(&mut self, table: &CutTable, root: u32) -> Result<Option<Conflict>, Memory>
        requires table { IsSquare table.now }
        requires room { HasTreeRoom table.now.count self.old.depth.items self.old.parent.items }
        requires root { root < table.now.count }
        requires unreached { depth_at self.old.depth.items root ≡ UNREACHED }
        requires grown { IsGrownForest (joins table.now) table.now.count
            (depth_at self.old.depth.items) (parent_at self.old.parent.items)
            self.old.reached.items }
        ensures room { OnOk result (HasTreeRoom table.now.count self.new.depth.items
            self.new.parent.items) }
        ensures extends { OnOk result (Extends self.old.reached.items self.new.reached.items) }
        ensures root { OnOk result (IsIn root self.new.reached.items) }
        ensures found { IfOk result (λ found. MatchOption found
            (IsGrownForest (joins table.now) table.now.count (depth_at self.new.depth.items)
            (parent_at self.new.parent.items) self.new.reached.items)
            (λ conflict. IsConflict (joins table.now) table.now.count
            (depth_at self.new.depth.items) (parent_at self.new.parent.items) self.new.reached.items
            conflict.one conflict.two)) }
    {
        let mut head = self.reached.len();
        self.reach(root, root, 0)?;
        while head < self.reached.len() {
            if let Some(two) = self.reach_from(table, head)? {
                let one = self.reached[head];
                return Ok(Some(Conflict { one, two }));
            }
            head += 1;
        }
        Ok(None)
    }

    // Reaches the parts that disagree with the part at `head`, and stops at the first part with a depth of the same parity.
    fn reach_from(&mut self, table: &CutTable, head: usize) -> Result<Option<u32>, Memory>
        requires table { IsSquare table.now }
        requires room { HasTreeRoom table.now.count self.old.depth.items self.old.parent.items }
        requires head { head < length self.old.reached.items }
        requires growing { IsGrowingForest (joins table.now) table.now.count
            (depth_at self.old.depth.items) (parent_at self.old.parent.items) self.old.reached.items
            head }
        ensures room { OnOk result (HasTreeRoom table.now.count self.new.depth.items
            self.new.parent.items) }
        ensures extends { OnOk result (Extends self.old.reached.items self.new.reached.items) }
        ensures found { IfOk result (λ found. MatchOption found
            (IsGrowingForest (joins table.now) table.now.count (depth_at self.new.depth.items)
            (parent_at self.new.parent.items) self.new.reached.items (head + 1))
            (λ two. IsConflict (joins table.now) table.now.count (depth_at self.new.depth.items)
            (parent_at self.new.parent.items) self.new.reached.items
            (slice_index self.new.reached.items head) two)) }
    {
        let part = self.reached[head];
        let depth = self.depth[part as usize];
        for other in 0..table.len() as u32 {
            if other != part && table.disagree(part as usize, other as usize) {
                let far = self.depth[other as usize];
                if far == UNREACHED {
                    self.reach(other, part, depth + 1)?;
                } else if far % 2 == depth % 2 {
                    return Ok(Some(other));
                }
            }
        }
        Ok(None)
    }

    fn reach(&mut self, part: u32, parent: u32, depth: u32) -> Result<(), Memory>
        requires depths { part < length self.old.depth.items }
        requires parents { part < length self.old.parent.items }
        ensures depths { OnOk result (self.new.depth.items
            ≡ slice_set self.old.depth.items part depth) }
        ensures parents { OnOk result (self.new.parent.items
            ≡ slice_set self.old.parent.items part parent) }
        ensures reached { OnOk result (self.new.reached.items
            ≡ self.old.reached.items ++ part ∷ []) }
    {
        self.depth[part as usize] = depth;
        self.parent[part as usize] = parent;
        self.reached.push(part)?;
        Ok(())
    }

    /// Appends the path from one part to the other through the nearest common ancestor.
    pub fn push_path(
        &self,
        table: &CutTable,
        path: &mut PathList,
        one: u32,
        two: u32,
    ) -> Result<(), Memory>
        requires room { HasTreeRoom table.now.count self.now.depth.items self.now.parent.items }
        requires tree { AreInOneTree (joins table.now) table.now.count
            (depth_at self.now.depth.items) (parent_at self.now.parent.items) self.now.reached.items
            one two }
        ensures { OnOk result (HasRoute (joins table.now) table.now.count
            (depth_at self.now.depth.items) path.old path.new one two) }
    {
        if one == two {
            path.push(one)?;
        } else if self.depth[one as usize] >= self.depth[two as usize] {
            path.push(one)?;
            self.push_path(table, path, self.parent[one as usize], two)?;
        } else {
            self.push_path(table, path, one, self.parent[two as usize])?;
            path.push(two)?;
        }
        Ok(())
    }
}
