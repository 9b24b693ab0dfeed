// The first cut.
ghost use Rattle.std.specs.Prelude.{◌≡◌, ◌≢◌, ◌<◌, ◌+◌, ◌++◌, ◌∷◌, ◌⊎◌, [], pos, true, false, IfOk, MatchOption};
ghost use Rattle.cmr_base.specs.Matrix.{height, entry};
ghost use Rattle.cuts.specs.LineCuts.{HasNames};
ghost use Rattle.three_sep.specs.CutSeeds.{HasBlockCorners, HoldsThird, IsFoundCut, IsNoCutColumn, IsNoCutRow, IsNoThird, IsOtherNumber, cut_prefix};
ghost use Rattle.three_sep.specs.FirstCuts.{HasNoCut, IsFirstCutOn};

use crate::connectors::rule_at;
use crate::search::Search;
use cmr_base::{Line, LineSet, Memory, Position, RowsAndColumns};
use cuts::{Corners, Groups};
use line_growth::line_at;
use std::alloc::Global;

/// Side one of the first cut: the side of the first good seed, in the order of the corners and of two more lines. `None` if and only if
/// the matrix has no cut.
pub fn first_cut(alloc: Global, matrix: &RowsAndColumns<'_>) -> Result<Option<LineSet>, Memory>
    ensures { IfOk result (λ found. MatchOption found (HasNoCut matrix.now)
        (λ lines. IsFirstCutOn matrix.now lines.rows lines.columns)) }
{
    let mut search = Search::new(alloc, matrix)?;
    for i in 0..matrix.rows() {
        if let Some(lines) = first_of_row(alloc, &mut search, i)? {
            return Ok(Some(lines));
        }
    }
    Ok(None)
}

// The columns p.
fn first_of_row(alloc: Global, search: &mut Search<'_>, i: u32) -> Result<Option<LineSet>, Memory>
    requires { i < height search.old.matrix.now }
    ensures matrix { search.new.matrix.now ≡ search.old.matrix.now }
    ensures found { IfOk result (IsFoundCut search.old.matrix.now (i ∷ [])) }
{
    if search.groups.are_all_one() {
        return Ok(None);
    }
    let matrix = search.matrix;
    for p in 0..matrix.columns() {
        if let Some(lines) = first_of_corner(alloc, search, i, p)? {
            return Ok(Some(lines));
        }
    }
    Ok(None)
}

// The rows k.
fn first_of_corner(
    alloc: Global,
    search: &mut Search<'_>,
    i: u32,
    p: u32,
) -> Result<Option<LineSet>, Memory>
    requires row { i < height search.old.matrix.now }
    requires column { p < search.old.matrix.now.width }
    ensures matrix { search.new.matrix.now ≡ search.old.matrix.now }
    ensures found { IfOk result (IsFoundCut search.old.matrix.now (i ∷ p ∷ [])) }
{
    let matrix = search.matrix;
    for k in 0..matrix.rows() {
        if is_cut_row(matrix, &search.groups, i, p, k) {
            if let Some(lines) = first_of_second_row(alloc, search, i, p, k)? {
                return Ok(Some(lines));
            }
        }
    }
    Ok(None)
}

// The columns j.
fn first_of_second_row(
    alloc: Global,
    search: &mut Search<'_>,
    i: u32,
    p: u32,
    k: u32,
) -> Result<Option<LineSet>, Memory>
    requires row { i < height search.old.matrix.now }
    requires column { p < search.old.matrix.now.width }
    requires second_row { k < height search.old.matrix.now }
    requires lower { entry search.old.matrix.now k p ≢ pos 0 }
    ensures matrix { search.new.matrix.now ≡ search.old.matrix.now }
    ensures found { IfOk result (IsFoundCut search.old.matrix.now (i ∷ p ∷ k ∷ [])) }
{
    let matrix = search.matrix;
    search.ask(alloc)?;
    for j in 0..matrix.columns() {
        if is_cut_column(matrix, &search.groups, i, p, j) {
            let corners = Corners {
                one: Position { row: i, column: p },
                two: Position { row: k, column: j },
            };
            if let Some(lines) = first_of_corners(alloc, search, &corners)? {
                return Ok(Some(lines));
            }
        }
    }
    Ok(None)
}

// The third lines.
fn first_of_corners(
    alloc: Global,
    search: &mut Search<'_>,
    corners: &Corners,
) -> Result<Option<LineSet>, Memory>
    requires { HasBlockCorners search.old.matrix.now corners.now }
    ensures matrix { search.new.matrix.now ≡ search.old.matrix.now }
    ensures found { IfOk result (IsFoundCut search.old.matrix.now (cut_prefix corners.now)) }
{
    let Corners { one, two } = *corners;
    let first = [Line::Row(one.row), Line::Column(one.column)];
    let second = [Line::Row(two.row), Line::Column(two.column)];
    let matrix = search.matrix;
    search.tries = search.tries.saturating_add(1);
    if !search.sides.may_part(rule_at(corners), &first, &second)? {
        return Ok(None);
    }
    for third in 0..matrix.rows() + matrix.columns() {
        if may_be_third(matrix, &search.groups, corners, third) {
            if let Some(lines) = first_of_third(alloc, search, corners, third)? {
                return Ok(Some(lines));
            }
        }
    }
    Ok(None)
}

// The side with the third line.
fn first_of_third(
    alloc: Global,
    search: &mut Search<'_>,
    corners: &Corners,
    third: u32,
) -> Result<Option<LineSet>, Memory>
    requires corners { HasBlockCorners search.old.matrix.now corners.now }
    requires line { third < height search.old.matrix.now + search.old.matrix.now.width }
    requires third { IsOtherNumber search.old.matrix.now corners.now third }
    ensures matrix { search.new.matrix.now ≡ search.old.matrix.now }
    ensures found { IfOk result (IsFoundCut search.old.matrix.now
        (cut_prefix corners.now ++ third ∷ [])) }
{
    let Corners { one, two } = *corners;
    let first = [
        line_at(search.matrix, third),
        Line::Row(one.row),
        Line::Column(one.column),
    ];
    let second = [Line::Row(two.row), Line::Column(two.column)];
    if !search.sides.hold(rule_at(corners), &first, &second)? {
        return Ok(None);
    }
    first_of_held(alloc, search, corners, third)
}

// The fourth lines.
fn first_of_held(
    alloc: Global,
    search: &mut Search<'_>,
    corners: &Corners,
    third: u32,
) -> Result<Option<LineSet>, Memory>
    requires held { HoldsThird search.old.matrix.now corners.now third search.old }
    requires corners { HasBlockCorners search.old.matrix.now corners.now }
    requires third { IsOtherNumber search.old.matrix.now corners.now third }
    ensures matrix { search.new.matrix.now ≡ search.old.matrix.now }
    ensures found { IfOk result (IsFoundCut search.old.matrix.now
        (cut_prefix corners.now ++ third ∷ [])) }
{
    let second = [Line::Row(corners.two.row), Line::Column(corners.two.column)];
    let rule = rule_at(corners);
    let matrix = search.matrix;
    for fourth in 0..matrix.rows() + matrix.columns() {
        let line = line_at(matrix, fourth);
        if is_fourth(matrix, corners, third, fourth)
            && search.sides.leaves_beside(rule, &second, line)?
        {
            return Ok(Some(search.sides.lines(alloc)?));
        }
    }
    Ok(None)
}

// Whether row k can be in the second corner, beside the first one (i, p).
fn is_cut_row(matrix: &RowsAndColumns<'_>, groups: &Groups, i: u32, p: u32, k: u32) -> bool
    requires names { HasNames matrix.now groups.now }
    requires row { i < height matrix.now }
    requires column { p < matrix.now.width }
    requires second_row { k < height matrix.now }
    ensures yes { result ≡ true → entry matrix.now k p ≢ pos 0 }
    ensures no { result ≡ false → IsNoCutRow matrix.now groups.now i p k }
{
    if !matrix.is_nonzero(k, p) {
        return false;
    }
    !groups.are_one(i, k) && !groups.are_one(matrix.rows() + p, k)
}

// Whether column j can be in the second corner, beside the first one (i, p).
fn is_cut_column(matrix: &RowsAndColumns<'_>, groups: &Groups, i: u32, p: u32, j: u32) -> bool
    requires names { HasNames matrix.now groups.now }
    requires row { i < height matrix.now }
    requires column { p < matrix.now.width }
    requires second_column { j < matrix.now.width }
    ensures yes { result ≡ true → entry matrix.now i j ≢ pos 0 }
    ensures no { result ≡ false → IsNoCutColumn matrix.now groups.now i p j }
{
    if !matrix.is_nonzero(i, j) {
        return false;
    }
    let column = matrix.rows() + j;
    !groups.are_one(i, column) && !groups.are_one(matrix.rows() + p, column)
}

// Whether the line with a number can be the third one.
fn may_be_third(matrix: &RowsAndColumns<'_>, groups: &Groups, corners: &Corners, line: u32) -> bool
    requires names { HasNames matrix.now groups.now }
    requires corners { HasBlockCorners matrix.now corners.now }
    requires line { line < height matrix.now + matrix.now.width }
    ensures yes { result ≡ true → IsOtherNumber matrix.now corners.now line }
    ensures no { result ≡ false → IsNoThird matrix.now groups.now corners.now line }
{
    if !is_other(matrix, corners, line) {
        return false;
    }
    let column = matrix.rows() + corners.two.column;
    !groups.are_one(corners.two.row, line) && !groups.are_one(column, line)
}

// Whether the line with a number can be the fourth one: it is neither the third one nor in the first corner.
fn is_fourth(matrix: &RowsAndColumns<'_>, corners: &Corners, third: u32, line: u32) -> bool
    requires corners { HasBlockCorners matrix.now corners.now }
    ensures other { result ≡ true → IsOtherNumber matrix.now corners.now line }
    ensures different { result ≡ true → line ≢ third }
    ensures no { result ≡ false
        → (line ≡ third) ⊎ (line ≡ corners.now.one.row)
        ⊎ (line ≡ height matrix.now + corners.now.one.column) }
{
    line != third && is_other(matrix, corners, line)
}

// Whether the line with a number is not in the first corner.
fn is_other(matrix: &RowsAndColumns<'_>, corners: &Corners, line: u32) -> bool
    requires corners { HasBlockCorners matrix.now corners.now }
    ensures yes { result ≡ true → IsOtherNumber matrix.now corners.now line }
    ensures no { result ≡ false
        → (line ≡ corners.now.one.row) ⊎ (line ≡ height matrix.now + corners.now.one.column) }
{
    line != corners.one.row && line != matrix.rows() + corners.one.column
}
