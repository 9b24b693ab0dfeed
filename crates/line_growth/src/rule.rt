// Rules for the blocks between the lines of a set and the other lines.
ghost use Rattle.std.specs.Prelude.{◌≡◌, ◌<◌, ◌*ℤ◌, ◌↔◌, ℕ, pos, true, IsTrue, MatchOption};
ghost use Rattle.cmr_base.specs.Cores.{IsBounded};
ghost use Rattle.cmr_base.specs.Matrix.{Matrix, height, entry, transposed, IsEntry};
ghost use Rattle.line_growth.specs.declared.rule.Block.TheVariants.{Spread};
ghost use Rattle.line_growth.specs.Rules.{IsBlockOf, IsOfOneLine, IsSumMultiple, IsSpreadOf, IsSumOf, block_entry, exchanged, sum_at};

use cmr_base::{Core, Factors, Matrix, Position, RowsAndColumns, product};

/// Two rows and two columns, with the entries in which they cross and the determinant of these entries.
#[derive(Clone, Copy, Debug)]
pub struct SpreadLines {
    pub upper: u32,
    pub lower: u32,
    pub left: u32,
    pub right: u32,
    pub core: Core,
    pub determinant: i8,
}

/// A block that is 0, the product of the column and the row of a position, times the entry there, or the sum of products that two
/// columns and two rows make.
#[derive(Clone, Copy, Debug)]
pub enum Block {
    Zero,
    Product(Position),
    Spread(SpreadLines),
}

/// The block of the rows inside and the columns outside, and the block of the rows outside and the columns inside.
#[derive(Clone, Copy, Debug)]
pub struct GrowthRule {
    pub upper: Block,
    pub lower: Block,
}

/// A multiple of a line.
#[derive(Clone, Copy, Debug)]
pub struct Multiple {
    pub factor: i8,
    pub model: u32,
}

/// The sum of multiples of two lines, which another line of their kind has to equal.
#[derive(Clone, Copy, Debug)]
pub struct Sum {
    pub factors: Factors,
    pub first: u32,
    pub other: u32,
}

impl SpreadLines {
    /// The rows `upper` and `lower` and the columns `left` and `right` of a matrix.
    pub fn at(
        matrix: &RowsAndColumns<'_>,
        upper: u32,
        lower: u32,
        left: u32,
        right: u32,
    ) -> SpreadLines
        requires upper { upper < height matrix.now }
        requires lower { lower < height matrix.now }
        requires left { left < matrix.now.width }
        requires right { right < matrix.now.width }
        ensures rows { (result.upper ≡ upper) × (result.lower ≡ lower) }
        ensures columns { (result.left ≡ left) × (result.right ≡ right) }
        ensures spread { IsSpreadOf matrix.now result }
    {
        let core = Core::at(matrix.by_rows(), upper, lower, left, right);
        SpreadLines {
            upper,
            lower,
            left,
            right,
            core,
            determinant: core.determinant(),
        }
    }

    // The sum of the two rows that a row has to equal.
    fn row(self, matrix: &RowsAndColumns<'_>, row: u32) -> Sum
        requires spread { IsSpreadOf matrix.now self }
        requires row { row < height matrix.now }
        ensures sum { IsSumOf matrix.now result }
        ensures value { (column : ℕ) → sum_at matrix.now result column
            ≡ block_entry (entry matrix.now) (Spread self) row column }
    {
        let first = matrix.entry(row, self.left);
        let other = matrix.entry(row, self.right);
        Sum {
            factors: self.core.factors(self.determinant, first, other),
            first: self.upper,
            other: self.lower,
        }
    }

    // The sum of the two columns that a column has to equal.
    fn column(self, matrix: &RowsAndColumns<'_>, column: u32) -> Sum
        requires spread { IsSpreadOf matrix.now self }
        requires column { column < matrix.now.width }
        ensures sum { IsSumOf (transposed matrix.now) result }
        ensures value { (row : ℕ) → sum_at (transposed matrix.now) result row
            ≡ block_entry (entry matrix.now) (Spread self) row column }
    {
        let _rows = matrix.rows();
        let transposed = Core {
            x: self.core.x,
            y: self.core.z,
            z: self.core.y,
            w: self.core.w,
        };
        let first = matrix.entry(self.upper, column);
        let other = matrix.entry(self.lower, column);
        Sum {
            factors: transposed.factors(self.determinant, first, other),
            first: self.left,
            other: self.right,
        }
    }
}

// The factor of a line that crosses the row or the column of a position in this entry.
fn factor_at(place: Position, matrix: &RowsAndColumns<'_>, crossing: i8) -> i8
    requires row { place.row < height matrix.now }
    requires column { place.column < matrix.now.width }
    requires crossing { IsEntry crossing }
    ensures value { result ≡ crossing *ℤ entry matrix.now place.row place.column }
    ensures small { IsEntry result }
{
    let corner = matrix.entry(place.row, place.column);
    product(crossing, corner)
}

impl Multiple {
    // The multiple as a sum, with the factor 0 of another line.
    fn alone(self) -> Sum
        requires { IsEntry self.factor }
        ensures { (matrix : Matrix) → self.model < height matrix → IsSumOf matrix result
            × ((column : ℕ) → sum_at matrix result column
            ≡ self.factor *ℤ entry matrix self.model column) }
    {
        Sum {
            factors: Factors {
                first: self.factor,
                other: 0,
            },
            first: self.model,
            other: self.model,
        }
    }
}

impl Sum {
    /// Whether the entry of a row in a column is the entry of the sum.
    pub fn is_at(self, matrix: &Matrix, row: u32, column: u32) -> bool
        requires sum { IsSumOf matrix.now self }
        requires row { row < height matrix.now }
        requires column { column < matrix.now.width }
        ensures { IsTrue result ↔ (entry matrix.now row column ≡ sum_at matrix.now self column) }
    {
        let first = matrix.entry(self.first, column);
        let other = matrix.entry(self.other, column);
        matrix.entry(row, column) == self.factors.entry(first, other)
    }

    /// The same as a multiple of one line, if one of the factors is 0 and the other is -1, 0 or 1, and otherwise `None`.
    pub fn as_multiple(self) -> Option<Multiple>
        requires first { IsBounded 4 self.factors.first }
        requires other { IsBounded 4 self.factors.other }
        ensures { MatchOption result (¬ (IsOfOneLine self)) (IsSumMultiple self) }
    {
        let Factors { first, other } = self.factors;
        if is_zero(other) && is_entry(first) {
            return Some(Multiple {
                factor: first,
                model: self.first,
            });
        }
        if is_zero(first) && is_entry(other) {
            return Some(Multiple {
                factor: other,
                model: self.other,
            });
        }
        None
    }
}

fn is_zero(factor: i8) -> bool
    ensures { IsTrue result ↔ (factor ≡ pos 0) }
{
    factor == 0
}

fn is_entry(factor: i8) -> bool
    ensures { IsTrue result ↔ IsEntry factor }
{
    -1 <= factor && factor <= 1
}

impl Block {
    /// The sum that a row of the block has to equal.
    pub fn row(self, matrix: &RowsAndColumns<'_>, row: u32) -> Sum
        requires block { IsBlockOf matrix.now self }
        requires row { row < height matrix.now }
        ensures sum { IsSumOf matrix.now result }
        ensures value { (column : ℕ) → sum_at matrix.now result column
            ≡ block_entry (entry matrix.now) self row column }
    {
        match self {
            Block::Zero => Multiple {
                factor: 0,
                model: row,
            }
            .alone(),
            Block::Product(place) => Multiple {
                factor: factor_at(place, matrix, matrix.entry(row, place.column)),
                model: place.row,
            }
            .alone(),
            Block::Spread(lines) => lines.row(matrix, row),
        }
    }

    /// The sum that a column of the block has to equal.
    pub fn column(self, matrix: &RowsAndColumns<'_>, column: u32) -> Sum
        requires block { IsBlockOf matrix.now self }
        requires column { column < matrix.now.width }
        ensures sum { IsSumOf (transposed matrix.now) result }
        ensures value { (row : ℕ) → sum_at (transposed matrix.now) result row
            ≡ block_entry (entry matrix.now) self row column }
    {
        let _rows = matrix.rows();
        match self {
            Block::Zero => Multiple {
                factor: 0,
                model: column,
            }
            .alone(),
            Block::Product(place) => Multiple {
                factor: factor_at(place, matrix, matrix.entry(place.row, column)),
                model: place.column,
            }
            .alone(),
            Block::Spread(lines) => lines.column(matrix, column),
        }
    }
}

impl GrowthRule {
    /// The rule with the blocks exchanged. A line y pulls in a line x by the rule if and only if x pulls in y by this rule.
    pub fn exchanged(self) -> GrowthRule
        ensures { result ≡ exchanged self }
    {
        GrowthRule {
            upper: self.lower,
            lower: self.upper,
        }
    }
}
