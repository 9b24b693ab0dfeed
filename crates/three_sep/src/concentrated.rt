// The search for the first good seed of the concentrated form.
ghost use Rattle.std.specs.Prelude.{◌≡◌, ◌≢◌, ◌<◌, ◌≤◌, ◌++◌, ◌∷◌, [], ◌↔◌, ◌⊎◌, ℕ, pos, true, false, IsTrue, IfOk, IfSome, MatchOption};
ghost use Rattle.cmr_base.specs.declared.separation.Form.TheVariants.{Concentrated};
ghost use Rattle.cmr_base.specs.ColumnSets.{has_column};
ghost use Rattle.cmr_base.specs.Cores.{IsBounded};
ghost use Rattle.cmr_base.specs.Matrix.{entry, height};
ghost use Rattle.cmr_base.specs.Signing.{IsSign};
ghost use Rattle.cmr_base.specs.Separations.{core_determinant};
ghost use Rattle.cmr_base.specs.Seeds.{IsConnectorPair, form_number};
ghost use Rattle.cmr_base.specs.Trees.{support};
ghost use Rattle.cuts.specs.LineCuts.{AreInside};
ghost use Rattle.three_sep.specs.Connectors.{all_prefix};
ghost use Rattle.three_sep.specs.Searches.{HasNoGood, IsFirstOf, IsFoundSeparation, corner_prefix, first_at, second_at};
ghost use Rattle.three_sep.specs.Concentrated.{AreConcentratedCorners, HasNoneBetween, IsFirstPair, IsFirstRow, IsNoOtherColumn, IsOtherColumn};
ghost use Rattle.three_sep.specs.RowSearches.{IsRowSearchOf};

use crate::connectors::Connectors;
use crate::row_search::RowSearch;
use crate::sides::Sides;
use cmr_base::{
    BitSet, Connector, Core, Form, Line, MAX_COLUMNS, Memory, Position, RowsAndColumns, Three,
    columns_of,
};
use cuts::Corners;
use std::alloc::Global;

/// Gives the three-separation of the first good seed of the form, and `None` if and only if no seed of the form is good. The loop visits
/// the rows i.
pub fn first_concentrated(
    alloc: Global,
    matrix: &RowsAndColumns<'_>,
) -> Result<Option<Three>, Memory>
    ensures { IfOk result (IsFoundSeparation matrix.now (form_number Concentrated ∷ [])) }
{
    for i in 0..matrix.rows() {
        if let Some(three) = first_of_row(alloc, matrix, i)? {
            return Ok(Some(three));
        }
    }
    Ok(None)
}

// The same with row i. The loop visits the columns p.
fn first_of_row(alloc: Global, matrix: &RowsAndColumns<'_>, i: u32) -> Result<Option<Three>, Memory>
    requires { i < height matrix.now }
    ensures { IfOk result (IsFoundSeparation matrix.now
        (form_number Concentrated ∷ i ∷ [])) }
{
    let mut search = RowSearch::new(alloc, matrix, i)?;
    for p in 0..matrix.columns() {
        if matrix.is_nonzero(i, p) {
            if let Some(three) = search.first_of_corner(alloc, p)? {
                return Ok(Some(three));
            }
        }
    }
    Ok(None)
}

impl RowSearch<'_> {
    // The same with the corner (i, p). The loop visits the rows k.
    fn first_of_corner(&mut self, alloc: Global, p: u32) -> Result<Option<Three>, Memory>
        requires column { p < self.old.matrix.now.width }
        requires nonzero { entry self.old.matrix.now self.old.row p ≢ pos 0 }
        ensures row { IsRowSearchOf self.old.matrix.now self.old.row self.new }
        ensures found { IfOk result (IsFoundSeparation self.old.matrix.now
            (form_number Concentrated ∷ self.old.row ∷ p ∷ [])) }
    {
        if self.candidates.is_empty() {
            return Ok(None);
        }
        let matrix = self.matrix;
        for k in 0..matrix.rows() {
            if let Some(three) = self.first_of_second_row(alloc, p, k)? {
                return Ok(Some(three));
            }
        }
        Ok(None)
    }

    // The same with row k in side two. The loop visits the candidates j in which row k is not 0.
    fn first_of_second_row(
        &mut self,
        alloc: Global,
        p: u32,
        k: u32,
    ) -> Result<Option<Three>, Memory>
        requires column { p < self.old.matrix.now.width }
        requires second_row { k < height self.old.matrix.now }
        requires nonzero { entry self.old.matrix.now self.old.row p ≢ pos 0 }
        ensures row { IsRowSearchOf self.old.matrix.now self.old.row self.new }
        ensures found { IfOk result (IsFoundSeparation self.old.matrix.now
            (form_number Concentrated ∷ self.old.row ∷ p ∷ k ∷ [])) }
    {
        if !self
            .candidates
            .meets_words(columns_of(self.matrix.by_rows(), k))
        {
            return Ok(None);
        }
        let i = self.row;
        let columns = self.second_columns(alloc, k)?;
        let mut from = 0;
        while let Some(j) = columns.next(from) {
            let corners = Corners {
                one: Position { row: i, column: p },
                two: Position { row: k, column: j },
            };
            if let Some(three) = self.first_of_corners(alloc, &corners)? {
                return Ok(Some(three));
            }
            from = j + 1;
        }
        Ok(None)
    }

    // The set of candidates in which row k is not 0.
    fn second_columns(&self, alloc: Global, k: u32) -> Result<BitSet, Memory>
        requires { k < height self.now.matrix.now }
        ensures size { IfOk result (λ set. set.size ≡ self.now.matrix.now.width) }
        ensures yes { IfOk result (λ set. (j : ℕ) → has_column set.words j ≡ true
            → support self.now.matrix.now k j ≡ true) }
        ensures no { IfOk result (λ set. (j : ℕ) → has_column set.words j ≡ false
            → (support self.now.matrix.now k j ≡ false)
            ⊎ (has_column self.now.candidates.words j ≡ false)) }
    {
        let mut columns = BitSet::new(alloc, self.matrix.columns())?;
        columns.add_common_words(&self.candidates, columns_of(self.matrix.by_rows(), k));
        Ok(columns)
    }

    // The same with two corners, by the first connectors with these corners. If no seed with these connectors is good, no good seed has row
    // i in side one and column j in side two: its side would have the columns of row i and not the rows of column j, and would be closed
    // under the rule of these connectors.
    fn first_of_corners(
        &mut self,
        alloc: Global,
        corners: &Corners,
    ) -> Result<Option<Three>, Memory>
        requires row { corners.now.one.row ≡ self.old.row }
        requires inside { AreInside self.old.matrix.now corners.now }
        requires corners { AreConcentratedCorners (entry self.old.matrix.now) corners.now }
        ensures row { IsRowSearchOf self.old.matrix.now self.old.row self.new }
        ensures found { IfOk result (IsFoundSeparation self.old.matrix.now
            (corner_prefix Concentrated corners.now)) }
    {
        let Some(connectors) = first_connectors(self.matrix, corners) else {
            return Ok(None);
        };
        if let Some(three) = self.first_of_pair(alloc, &connectors)? {
            return Ok(Some(three));
        }
        self.candidates.remove(corners.two.column);
        Ok(None)
    }

    // The same with two connectors. If `is_in_side_one` shows that column j is in side one with row i, no lines x are visited.
    fn first_of_pair(&self, alloc: Global, connectors: &Connectors) -> Result<Option<Three>, Memory>
        requires row { connectors.now.first.row ≡ self.now.row }
        requires connectors { IsConnectorPair (height self.now.matrix.now)
            self.now.matrix.now.width (entry self.now.matrix.now) Concentrated
            connectors.now.first connectors.now.second }
        ensures { IfOk result (λ answer. MatchOption answer
            (HasNoneBetween self.now.matrix.now self.now.row connectors.now.second.column)
            (IsFirstOf self.now.matrix.now (all_prefix Concentrated connectors.now))) }
    {
        if self.is_in_side_one(connectors) {
            return Ok(None);
        }
        first_of_connectors(alloc, self.matrix, connectors)
    }
}

// The first connectors with two corners: the first column q in which row i is not 0, with the first row o.
fn first_connectors(matrix: &RowsAndColumns<'_>, corners: &Corners) -> Option<Connectors>
    requires inside { AreInside matrix.now corners.now }
    requires corners { AreConcentratedCorners (entry matrix.now) corners.now }
    ensures { MatchOption result
        (HasNoGood matrix.now (corner_prefix Concentrated corners.now))
        (IsFirstPair matrix.now corners.now) }
{
    let _columns = matrix.columns();
    let mut from = corners.one.column + 1;
    while let Some(q) = next_nonzero(matrix, corners.one.row, from) {
        if is_right_column(matrix, corners, q) {
            if let Some(o) = first_other_row(matrix, corners, q) {
                return Some(Connectors::at(corners, q, o));
            }
        }
        from = q + 1;
    }
    None
}

// The first row o for a column q.
fn first_other_row(matrix: &RowsAndColumns<'_>, corners: &Corners, q: u32) -> Option<u32>
    requires inside { AreInside matrix.now corners.now }
    requires column { q < matrix.now.width }
    ensures { MatchOption result
        (HasNoGood matrix.now (corner_prefix Concentrated corners.now ++ q ∷ []))
        (IsFirstRow matrix.now corners.now q) }
{
    let _rows = matrix.rows();
    let mut from = corners.two.row + 1;
    while let Some(o) = matrix.by_columns().next_nonzero(corners.two.column, from) {
        if has_sign(matrix, corners, q, o) {
            return Some(o);
        }
        from = o + 1;
    }
    None
}

// The same with two connectors. `first_of_lines` visits the lines x.
fn first_of_connectors(
    alloc: Global,
    matrix: &RowsAndColumns<'_>,
    connectors: &Connectors,
) -> Result<Option<Three>, Memory>
    requires { IsConnectorPair (height matrix.now) matrix.now.width (entry matrix.now) Concentrated
        connectors.now.first connectors.now.second }
    ensures { IfOk result (IsFoundSeparation matrix.now
        (all_prefix Concentrated connectors.now)) }
{
    let rule = connectors.spread_rule(matrix);
    let Connector { row, column, other } = connectors.first;
    let first = [Line::Row(row), Line::Column(column), Line::Column(other)];
    let Connector { row, column, other } = connectors.second;
    let second = [Line::Row(row), Line::Column(column), Line::Row(other)];
    let mut sides = Sides::new(alloc, matrix)?;
    if !sides.hold(rule, &first, &second)? {
        return Ok(None);
    }
    if !sides.leaves(rule.exchanged(), &second, &first)? {
        return Ok(None);
    }
    if !sides.may_part(rule, &first, &second)? {
        return Ok(None);
    }
    sides.first_of_lines(alloc, Form::Concentrated, rule, connectors)
}

// The first column in which a row is not 0, from a given column on.
fn next_nonzero(matrix: &RowsAndColumns<'_>, row: u32, from: u32) -> Option<u32>
    requires row { row < height matrix.now }
    requires from { from ≤ MAX_COLUMNS }
    ensures first { MatchOption result
        ((column : ℕ) → from ≤ column → support matrix.now row column ≡ false)
        (λ next. (from ≤ next)
        × (next < matrix.now.width)
        × ((column : ℕ) → from ≤ column → column < next → support matrix.now row column ≡ false)) }
    ensures small { IfSome result (λ next. next < MAX_COLUMNS) }
{
    matrix.by_rows().next_nonzero(row, from)
}

// Decides whether q is right of p, row i is not 0 in column q, and row k is not 0 in both columns.
fn is_right_column(matrix: &RowsAndColumns<'_>, corners: &Corners, q: u32) -> bool
    requires inside { AreInside matrix.now corners.now }
    requires column { q < matrix.now.width }
    ensures yes { result ≡ true → IsOtherColumn (entry matrix.now) corners.now q }
    ensures no { result ≡ false → IsNoOtherColumn (entry matrix.now) corners.now q }
{
    if q <= corners.one.column || !matrix.is_nonzero(corners.one.row, q) {
        return false;
    }
    matrix.is_nonzero(corners.two.row, corners.one.column) || matrix.is_nonzero(corners.two.row, q)
}

// Decides whether the determinant of rows k and o and columns p and q is 1 or -1.
fn has_sign(matrix: &RowsAndColumns<'_>, corners: &Corners, q: u32, o: u32) -> bool
    requires inside { AreInside matrix.now corners.now }
    requires column { q < matrix.now.width }
    requires row { o < height matrix.now }
    ensures { IsTrue result
        ↔ IsSign (core_determinant (entry matrix.now) (first_at corners.now q)
        (second_at corners.now o)) }
{
    let core = Core::at(matrix.by_rows(), corners.two.row, o, corners.one.column, q);
    is_sign(core.determinant())
}

// Decides whether a number is 1 or -1.
fn is_sign(number: i8) -> bool
    requires { IsBounded 2 number }
    ensures { IsTrue result ↔ IsSign number }
{
    number == 1 || number == -1
}
