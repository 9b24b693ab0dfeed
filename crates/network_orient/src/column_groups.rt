// Groups of columns. The signs that turn one matrix into another are known up to one factor for each group.
ghost use Rattle.std.specs.Prelude.{◌≡◌, ◌≢◌, ◌<◌, ◌+◌, ◌⊎◌, ◌↔◌, ℕ, pos, replicate, length, IfOk, IsTrue, MatchOption};
ghost use Rattle.cmr_base.specs.LineSets.{first_lines};
ghost use Rattle.cmr_base.specs.Matrix.{height, entry, IsEntry};
ghost use Rattle.cmr_base.specs.Signing.{IsSign};
ghost use Rattle.cmr_base.specs.Supports.{HaveOneSupport};
ghost use Rattle.network_orient.specs.SignedGroups.{AreSignedGroups, IsCoarser, IsMerged, IsRowForced, IsRowJoined, IsRowMultiplied, KeepsProducts, group_of, sign_of, row_sign_by};

use cmr_base::{Matrix, Memory, own_labels, product};
use std::alloc::Global;

/// A group and a sign for each column. The signs are right up to one factor for all columns of a group.
#[derive(Debug, Drop)]
pub struct ColumnGroups {
    pub groups: Vec<u32>,
    pub signs: Vec<i8>,
}

impl ColumnGroups {
    /// The finest groups in which the columns of the nonzeros of each row are in one group.
    pub fn of(alloc: Global, from: &Matrix, to: &Matrix) -> Result<ColumnGroups, Memory>
        requires { HaveOneSupport from.now to.now }
        ensures groups { IfOk result (λ all.
            AreSignedGroups from.now to.now (height from.now) all.groups.items all.signs.items) }
        ensures joined { IfOk result (λ all. (row : ℕ) → row < height from.now
            → IsRowJoined from.now all.groups.items row) }
        ensures forced { IfOk result (λ all. (row : ℕ) → row < height from.now
            → IsRowForced from.now to.now all.signs.items row) }
    {
        let mut groups = ColumnGroups::new(alloc, from.columns())?;
        for row in 0..from.rows() {
            groups.join_row(from, to, row);
        }
        Ok(groups)
    }

    // Each column in a group of its own.
    fn new(alloc: Global, columns: u32) -> Result<ColumnGroups, Memory>
        ensures groups { IfOk result (λ all. all.groups.items ≡ first_lines columns) }
        ensures signs { IfOk result (λ all. all.signs.items ≡ replicate columns (pos 1)) }
    {
        Ok(ColumnGroups {
            groups: own_labels(alloc, columns)?,
            signs: vec![in alloc; 1i8; columns as usize]?,
        })
    }

    // Joins the groups of the columns in which a row has nonzeros.
    fn join_row(&mut self, from: &Matrix, to: &Matrix, row: u32)
        requires support { HaveOneSupport from.now to.now }
        requires row { row < height from.now }
        requires groups { AreSignedGroups from.now to.now (row + 1) self.old.groups.items
            self.old.signs.items }
        ensures groups { AreSignedGroups from.now to.now (row + 1) self.new.groups.items
            self.new.signs.items }
        ensures coarser { IsCoarser from.now.width self.old.groups.items self.new.groups.items }
        ensures kept { KeepsProducts from.now.width self.old.groups.items self.old.signs.items
            self.new.signs.items }
        ensures joined { IsRowJoined from.now self.new.groups.items row }
    {
        let Some(first) = first_nonzero(from, row) else {
            return;
        };
        let mut place = 0;
        while let Some(column) = from.next_nonzero(row, place) {
            self.join(from, to, row, first, column);
            place = column + 1;
        }
    }

    // Joins the groups of two columns in which a row has nonzeros.
    fn join(&mut self, from: &Matrix, to: &Matrix, row: u32, first: u32, other: u32)
        requires support { HaveOneSupport from.now to.now }
        requires row { row < height from.now }
        requires first { first < from.now.width }
        requires first_nonzero { entry from.now row first ≢ pos 0 }
        requires other { other < from.now.width }
        requires other_nonzero { entry from.now row other ≢ pos 0 }
        requires groups { AreSignedGroups from.now to.now (row + 1) self.old.groups.items
            self.old.signs.items }
        ensures groups { AreSignedGroups from.now to.now (row + 1) self.new.groups.items
            self.new.signs.items }
        ensures coarser { IsCoarser from.now.width self.old.groups.items self.new.groups.items
            × KeepsProducts from.now.width self.old.groups.items self.old.signs.items
            self.new.signs.items }
        ensures joined { group_of self.new.groups.items other
            ≡ group_of self.new.groups.items first }
    {
        let stays = self.groups[first as usize];
        let replaced = self.groups[other as usize];
        if replaced != stays {
            let by_first = self.row_sign_by(from, to, row, first);
            let by_other = self.row_sign_by(from, to, row, other);
            self.merge(replaced, stays, product(by_first, by_other));
        }
    }

    // Moves the columns of a group into another group and multiplies their signs by a factor.
    fn merge(&mut self, replaced: u32, stays: u32, factor: i8)
        requires each { length self.old.signs.items ≡ length self.old.groups.items }
        requires signs { (column : ℕ) → IsSign (sign_of self.old.signs.items column) }
        requires factor { IsSign factor }
        requires two { replaced ≢ stays }
        ensures { IsMerged self.old.groups.items self.old.signs.items self.new.groups.items
            self.new.signs.items replaced stays factor }
    {
        for column in 0..self.groups.len() {
            if self.groups[column] == replaced {
                self.groups[column] = stays;
                self.signs[column] = product(self.sign_of(column), factor);
            }
        }
    }

    // The sign of a row that follows from the sign of a column.
    fn row_sign_by(&self, from: &Matrix, to: &Matrix, row: u32, column: u32) -> i8
        requires support { HaveOneSupport from.now to.now }
        requires row { row < height from.now }
        requires column { column < from.now.width }
        requires nonzero { entry from.now row column ≢ pos 0 }
        requires groups { AreSignedGroups from.now to.now (height from.now) self.now.groups.items
            self.now.signs.items }
        ensures value { result ≡ row_sign_by from.now to.now self.now.signs.items row column }
        ensures sign { IsSign result }
        ensures small { IsEntry result }
        ensures entry { IsSign (entry from.now row column) }
    {
        let ratio = product(from.entry(row, column), to.entry(row, column));
        product(self.sign_of(column as usize), ratio)
    }

    fn sign_of(&self, column: usize) -> i8
        requires column { column < length self.now.signs.items }
        requires sign { IsSign (sign_of self.now.signs.items column) }
        ensures value { result ≡ sign_of self.now.signs.items column }
        ensures small { IsEntry result }
    {
        self.signs[column]
    }

    /// The sign of a row that follows from the signs of its columns.
    pub fn row_sign(&self, from: &Matrix, to: &Matrix, row: u32) -> i8
        requires support { HaveOneSupport from.now to.now }
        requires row { row < height from.now }
        requires groups { AreSignedGroups from.now to.now (height from.now) self.now.groups.items
            self.now.signs.items }
        ensures sign { IsSign result }
        ensures value { ((column : ℕ) → entry from.now row column ≡ pos 0)
            ⊎ ((column : ℕ)
            × (column < from.now.width)
            × (entry from.now row column ≢ pos 0)
            × (result ≡ row_sign_by from.now to.now self.now.signs.items row column)) }
    {
        match first_nonzero(from, row) {
            Some(column) => self.row_sign_by(from, to, row, column),
            None => 1,
        }
    }

    /// Whether a sign of a row and the signs of the columns turn the row of one matrix into the row of the other.
    pub fn is_row_multiplied(&self, from: &Matrix, to: &Matrix, row: u32, sign: i8) -> bool
        requires support { HaveOneSupport from.now to.now }
        requires row { row < height from.now }
        requires groups { AreSignedGroups from.now to.now (height from.now) self.now.groups.items
            self.now.signs.items }
        requires sign { IsSign sign }
        ensures { IsTrue result ↔ IsRowMultiplied from.now to.now self.now.signs.items row sign }
    {
        let mut place = 0;
        while let Some(column) = from.next_nonzero(row, place) {
            let multiplied = product(self.sign_of(column as usize), from.entry(row, column));
            if to.entry(row, column) != product(sign, multiplied) {
                return false;
            }
            place = column + 1;
        }
        true
    }
}

// A column in which a row has a nonzero.
fn first_nonzero(matrix: &Matrix, row: u32) -> Option<u32>
    requires { row < height matrix.now }
    ensures { MatchOption result
        ((column : ℕ) → entry matrix.now row column ≡ pos 0)
        (λ column. (column < matrix.now.width) × (entry matrix.now row column ≢ pos 0)) }
{
    matrix.next_nonzero(row, 0)
}
