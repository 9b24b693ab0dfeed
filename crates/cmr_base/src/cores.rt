// The four entries at which two rows cross two columns, and the linear combinations of those two rows.
ghost use Rattle.std.specs.Prelude.{◌≡◌, ◌<◌, ◌+ℤ◌, ◌-ℤ◌, ◌*ℤ◌, ℤ};
ghost use Rattle.cmr_base.specs.Cores.{HasEntries, IsBounded, IsCoreAt};
ghost use Rattle.cmr_base.specs.Matrix.{entry, height, IsEntry};
ghost use Rattle.cmr_base.specs.Separations.{spread};

use crate::matrix::Matrix;
use crate::products::product;

/// The entries `[x y; z w]` at which two rows cross two columns.
#[derive(Clone, Copy, Debug)]
pub struct Core {
    pub x: i8,
    pub y: i8,
    pub z: i8,
    pub w: i8,
}

/// The coefficients of two rows in a linear combination of them.
#[derive(Clone, Copy, Debug)]
pub struct Factors {
    pub first: i8,
    pub other: i8,
}

impl Core {
    /// The entries of two rows of a matrix in two of its columns.
    pub fn at(matrix: &Matrix, upper: u32, lower: u32, left: u32, right: u32) -> Core
        requires upper { upper < height matrix.now }
        requires lower { lower < height matrix.now }
        requires left { left < matrix.now.width }
        requires right { right < matrix.now.width }
        ensures place { IsCoreAt (entry matrix.now) upper lower left right result }
        ensures entries { HasEntries result }
    {
        Core {
            x: matrix.entry(upper, left),
            y: matrix.entry(upper, right),
            z: matrix.entry(lower, left),
            w: matrix.entry(lower, right),
        }
    }

    /// The determinant.
    pub fn determinant(self) -> i8
        requires { HasEntries self }
        ensures value { result ≡ self.x *ℤ self.w -ℤ self.y *ℤ self.z }
        ensures small { IsBounded 2 result }
    {
        product(self.x, self.w) - product(self.y, self.z)
    }

    /// The coefficients by which the two rows combine to a row with given entries in the two columns, by Cramer's rule.
    /// The determinant is the core's, and 1 or -1.
    pub fn factors(self, determinant: i8, first: i8, other: i8) -> Factors
        requires core { HasEntries self }
        requires determinant { IsBounded 2 determinant }
        requires first { IsEntry first }
        requires other { IsEntry other }
        ensures sum { (column_first column_other : ℤ)
            → spread determinant self.x self.y self.z self.w first other column_first column_other
            ≡ result.first *ℤ column_first +ℤ result.other *ℤ column_other }
        ensures first { IsBounded 4 result.first }
        ensures other { IsBounded 4 result.other }
    {
        let in_place_of_first = Core {
            x: first,
            y: other,
            z: self.z,
            w: self.w,
        };
        let in_place_of_other = Core {
            x: self.x,
            y: self.y,
            z: first,
            w: other,
        };
        Factors {
            first: determinant * in_place_of_first.determinant(),
            other: determinant * in_place_of_other.determinant(),
        }
    }
}

impl Factors {
    /// The entry of a linear combination of two rows in a column, from the entries of both rows in that column.
    pub fn entry(self, first: i8, other: i8) -> i8
        requires first_factor { IsBounded 4 self.first }
        requires other_factor { IsBounded 4 self.other }
        requires first { IsEntry first }
        requires other { IsEntry other }
        ensures value { result ≡ self.first *ℤ first +ℤ self.other *ℤ other }
        ensures small { IsBounded 8 result }
    {
        self.first * first + self.other * other
    }
}
