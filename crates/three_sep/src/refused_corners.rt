// Corners that a search has refused.
ghost use Rattle.std.specs.Prelude.{◌≡◌, true};
ghost use Rattle.std.specs.List.{All};
ghost use Rattle.three_sep.specs.TiedLines.{AreRefused, corners_exchanged};

use cmr_base::{Memory, Position, RowsAndColumns};
use cuts::Corners;
use std::alloc::Global;

/// The number of corners that are kept.
const MOST: usize = 300_000;

/// Pairs of corners: no good seed of the forms delta, Y and mixed has (i, p) in side one and (k, j) in side two, or the reverse. They are
/// noted in lexicographic order, and later visits in this order find them one after another: those before `next` are past.
#[derive(Drop)]
pub struct RefusedCorners<'a> {
    pub matrix: &'a RowsAndColumns<'a>,
    noted: Vec<Corners>,
    next: usize,
    ghost refused: { All (AreRefused matrix.now) noted.items },
}

impl<'a> RefusedCorners<'a> {
    ghost use Rattle.std.specs.Prelude.{◌≡◌, true};
    ghost use Rattle.three_sep.specs.TiedLines.{AreRefused};

    /// No corners of a matrix.
    pub fn new(alloc: Global, matrix: &'a RowsAndColumns<'a>) -> RefusedCorners<'a>
        ensures { result.matrix.now ≡ matrix.entry.now }
    {
        RefusedCorners {
            matrix,
            noted: Vec::new(alloc),
            next: 0,
        }
    }

    /// Begins another visit: no corners are past.
    pub fn rewind(&mut self)
        ensures { self.new.matrix.now ≡ self.old.matrix.now }
    {
        self.next = 0;
    }

    /// Decides whether these corners are the next noted ones, after those that come before them in the order. The latter are then past.
    pub fn has(&mut self, corners: &Corners) -> bool
        ensures matrix { self.new.matrix.now ≡ self.old.matrix.now }
        ensures refused { result ≡ true → AreRefused self.old.matrix.now corners.now }
    {
        'earlier: while self.next < self.noted.len() && is_before(&self.noted[self.next], corners) {
            self.next += 1;
        }
        self.has_at(self.next, corners)
    }

    /// Decides whether the corners with their sides exchanged are noted.
    pub fn has_exchanged(&self, corners: &Corners) -> bool
        ensures { result ≡ true → AreRefused self.now.matrix.now corners.now }
    {
        let other = exchanged(corners);
        let place = self.place_of(&other);
        self.has_at(place, &other)
    }

    // Decides whether the corners are the noted ones at a place.
    fn has_at(&self, place: usize, corners: &Corners) -> bool
        ensures { result ≡ true → AreRefused self.now.matrix.now corners.now }
    {
        place < self.noted.len() && are_same(&self.noted[place], corners)
    }

    // By halving, the number of noted corners that come before these.
    fn place_of(&self, corners: &Corners) -> usize {
        let mut low = 0;
        let mut high = self.noted.len();
        'halving: while low < high {
            let middle = low + (high - low) / 2;
            if is_before(&self.noted[middle], corners) {
                low = middle + 1;
            } else {
                high = middle;
            }
        }
        low
    }

    /// Whether all noted corners are past.
    pub fn is_past(&self) -> bool {
        self.next == self.noted.len()
    }

    /// Notes corners, which are then past, if all noted corners are past and there is room.
    pub fn note(&mut self, corners: &Corners) -> Result<(), Memory>
        requires { AreRefused self.old.matrix.now corners.now }
        ensures { self.new.matrix.now ≡ self.old.matrix.now }
    {
        if self.is_past() && self.next < MOST {
            self.noted.push(*corners)?;
            self.next += 1;
        }
        Ok(())
    }
}

// The corners with their sides exchanged.
fn exchanged(corners: &Corners) -> Corners
    ensures { result ≡ corners_exchanged corners.now }
{
    let Corners { one, two } = *corners;
    Corners { one: two, two: one }
}

// Whether corners come before others in the lexicographic order.
fn is_before(corners: &Corners, other: &Corners) -> bool {
    if corners.one != other.one {
        return is_position_before(corners.one, other.one);
    }
    is_position_before(corners.two, other.two)
}

fn is_position_before(position: Position, other: Position) -> bool {
    if position.row != other.row {
        return position.row < other.row;
    }
    position.column < other.column
}

fn are_same(corners: &Corners, other: &Corners) -> bool
    ensures { result ≡ true → corners.now ≡ other.now }
{
    corners.one == other.one && corners.two == other.two
}
