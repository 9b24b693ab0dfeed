// The search for the first good seed.
ghost use Rattle.std.specs.Prelude.{◌≡◌, ◌≢◌, ◌<◌, ◌≤◌, pos, true, false, IfOk, MatchOption};
ghost use Rattle.cmr_base.specs.Matrix.{height, entry};
ghost use Rattle.cmr_base.specs.Separations.{HasNoThreeSeparation};
ghost use Rattle.cuts.specs.LineCuts.{HasNames, HoldTogether, IsCut};
ghost use Rattle.three_sep.specs.ThreeSeparations.{IsFirstThreeSeparation};
ghost use Rattle.three_sep.specs.Searches.{IsNoSecondColumn, IsNoSecondRow};

use crate::concentrated::first_concentrated;
use crate::connectors::{Connectors, rule_at};
use crate::others::{
    count_of, is_first_other, is_second_other, line_of, may_have_columns, may_have_rows,
};
use crate::refused_corners::RefusedCorners;
use crate::sides::Sides;
use cmr_base::{Connector, Form, Line, Matrix, Memory, Position, RowsAndColumns, Three};
use cuts::{Corners, Groups, groups_of};
use std::alloc::Global;
use std::thread::Threads;

/// Gives the three-separation of the first good seed, in the order of forms, corners, other lines and lines of seeds, and `None` if and only
/// if the matrix has no three-separation. The search uses one worker: since groups of lines are found by halving, the rest is too short to
/// share.
pub fn three_separation<R: Threads + Sync>(
    rt: &R,
    alloc: Global,
    matrix: &Matrix,
    workers: u32,
) -> Result<Option<Three>, Memory>
    requires { (1 ≤ workers) × (workers ≤ 64) }
    ensures { IfOk result (λ found. MatchOption found (HasNoThreeSeparation matrix.now)
        (λ three. IsFirstThreeSeparation matrix.now three)) }
{
    let columns = matrix.transposed(alloc)?;
    three_separation_of(alloc, &RowsAndColumns::of(matrix, &columns))
}

/// Gives the same for a matrix whose columns are available.
pub fn three_separation_of(
    alloc: Global,
    matrix: &RowsAndColumns<'_>,
) -> Result<Option<Three>, Memory>
    ensures { IfOk result (λ found. MatchOption found (HasNoThreeSeparation matrix.now)
        (λ three. IsFirstThreeSeparation matrix.now three)) }
{
    Search::new(alloc, matrix)?.first(alloc)
}

/// The number of corners that the search refuses before it computes groups, so that an early find does not pay for groups.
const EARLY: u32 = 100;

/// The state of a search: the sides of the first connector and with one more line, groups of lines that no cut parts, and corners that were
/// refused. The search computes groups after `EARLY` corners; before that each line is a group.
#[derive(Drop)]
pub struct Search<'a> {
    pub matrix: &'a RowsAndColumns<'a>,
    pub sides: Sides<'a>,
    pub groups: Groups,
    pub tries: u32,
    asked: bool,
    refused: RefusedCorners<'a>,
    refused_later: RefusedCorners<'a>,
    ghost sides_fit: { sides.matrix.now ≡ matrix.now },
    ghost refused_fit: { refused.matrix.now ≡ matrix.now },
    ghost refused_later_fit: { refused_later.matrix.now ≡ matrix.now },
    ghost names: { HasNames matrix.now groups },
    ghost together: { HoldTogether (IsCut matrix.now) matrix.now groups },
}

impl<'a> Search<'a> {
    ghost use Rattle.std.specs.Prelude.{◌≡◌, ◌<◌, ◌++◌, ◌∷◌, [], true, false, IfOk, OnOk};
    ghost use Rattle.cmr_base.specs.Matrix.{height, entry};
    ghost use Rattle.cmr_base.specs.Separations.{IsTied, first_is_flat, second_is_flat};
    ghost use Rattle.cmr_base.specs.Seeds.{IsLine, form_number};
    ghost use Rattle.cuts.specs.LineCuts.{AreInside};
    ghost use Rattle.three_sep.specs.TiedLines.{AreRefused};
    ghost use Rattle.three_sep.specs.NumberedSeeds.{IsCrossing};
    ghost use Rattle.three_sep.specs.HeldSides.{HoldsFirst};
    ghost use Rattle.three_sep.specs.Searches.{HasCorners, HasNoGood, IsCorner, IsFoundSeparation, corner_prefix, other_line, second_at};

    /// A search with each line as a group.
    pub fn new(alloc: Global, matrix: &'a RowsAndColumns<'a>) -> Result<Search<'a>, Memory>
        ensures { IfOk result (λ search. search.matrix.now ≡ matrix.entry.now) }
    {
        let rows = matrix.rows();
        let columns = matrix.columns();
        Ok(Search {
            matrix,
            sides: Sides::new(alloc, matrix)?,
            groups: Groups::new(alloc, rows, columns)?,
            tries: 0,
            asked: false,
            refused: RefusedCorners::new(alloc, matrix),
            refused_later: RefusedCorners::new(alloc, matrix),
        })
    }

    /// Computes groups, unless they are computed already or fewer than `EARLY` corners were tried.
    pub fn ask(&mut self, alloc: Global) -> Result<(), Memory>
        ensures { self.new.matrix.now ≡ self.old.matrix.now }
    {
        if self.asked || self.tries < EARLY {
            return Ok(());
        }
        self.groups = groups_of(alloc, self.matrix)?;
        self.asked = true;
        Ok(())
    }

    // Gives the three-separation of the first good seed, and `None` if and only if no seed is good. The forms are visited in their order.
    fn first(&mut self, alloc: Global) -> Result<Option<Three>, Memory>
        ensures { IfOk result (IsFoundSeparation self.old.matrix.now []) }
    {
        if let Some(three) = self.first_of_form(alloc, Form::Delta)? {
            return Ok(Some(three));
        }
        if let Some(three) = self.first_of_form(alloc, Form::YForm)? {
            return Ok(Some(three));
        }
        if let Some(three) = self.first_of_form(alloc, Form::Mixed)? {
            return Ok(Some(three));
        }
        first_concentrated(alloc, self.matrix)
    }

    // The same for one form. The loop visits the rows i.
    fn first_of_form(&mut self, alloc: Global, form: Form) -> Result<Option<Three>, Memory>
        requires crossing { IsCrossing form }
        ensures matrix { self.new.matrix.now ≡ self.old.matrix.now }
        ensures found { IfOk result (IsFoundSeparation self.old.matrix.now
            (form_number form ∷ [])) }
    {
        let matrix = self.matrix;
        self.refused.rewind();
        self.refused_later.rewind();
        for i in 0..matrix.rows() {
            if let Some(three) = self.first_of_row(alloc, form, i)? {
                return Ok(Some(three));
            }
        }
        Ok(None)
    }

    // The same with row i. The loop visits the columns p.
    fn first_of_row(&mut self, alloc: Global, form: Form, i: u32) -> Result<Option<Three>, Memory>
        requires crossing { IsCrossing form }
        requires row { i < height self.old.matrix.now }
        ensures matrix { self.new.matrix.now ≡ self.old.matrix.now }
        ensures found { IfOk result (IsFoundSeparation self.old.matrix.now
            (form_number form ∷ i ∷ [])) }
    {
        if self.groups.are_all_one() {
            return Ok(None);
        }
        let matrix = self.matrix;
        for p in 0..matrix.columns() {
            if matrix.is_nonzero(i, p) {
                if let Some(three) = self.first_of_corner(alloc, form, i, p)? {
                    return Ok(Some(three));
                }
            }
        }
        Ok(None)
    }

    // The same with the corner (i, p). The loop visits the rows k.
    fn first_of_corner(
        &mut self,
        alloc: Global,
        form: Form,
        i: u32,
        p: u32,
    ) -> Result<Option<Three>, Memory>
        requires crossing { IsCrossing form }
        requires corner { IsCorner self.old.matrix.now i p }
        ensures matrix { self.new.matrix.now ≡ self.old.matrix.now }
        ensures found { IfOk result (IsFoundSeparation self.old.matrix.now
            (form_number form ∷ i ∷ p ∷ [])) }
    {
        let matrix = self.matrix;
        for k in 0..matrix.rows() {
            if is_second_row(matrix, &self.groups, form, i, p, k) {
                if let Some(three) = self.first_of_second_row(alloc, form, i, p, k)? {
                    return Ok(Some(three));
                }
            }
        }
        Ok(None)
    }

    // The same with row k. The loop visits the columns j.
    fn first_of_second_row(
        &mut self,
        alloc: Global,
        form: Form,
        i: u32,
        p: u32,
        k: u32,
    ) -> Result<Option<Three>, Memory>
        requires crossing { IsCrossing form }
        requires corner { IsCorner self.old.matrix.now i p }
        requires below { IsCorner self.old.matrix.now k p }
        ensures matrix { self.new.matrix.now ≡ self.old.matrix.now }
        ensures found { IfOk result (IsFoundSeparation self.old.matrix.now
            (form_number form ∷ i ∷ p ∷ k ∷ [])) }
    {
        let matrix = self.matrix;
        self.ask(alloc)?;
        for j in 0..matrix.columns() {
            if is_second_column(matrix, &self.groups, form, i, p, k, j) {
                let corners = Corners {
                    one: Position { row: i, column: p },
                    two: Position { row: k, column: j },
                };
                if let Some(three) = self.first_of_corners(alloc, form, &corners)? {
                    return Ok(Some(three));
                }
            }
        }
        Ok(None)
    }

    // The same with two corners. The loop visits the lines q.
    fn first_of_corners(
        &mut self,
        alloc: Global,
        form: Form,
        corners: &Corners,
    ) -> Result<Option<Three>, Memory>
        requires crossing { IsCrossing form }
        requires corners { HasCorners self.old.matrix.now corners.now }
        ensures matrix { self.new.matrix.now ≡ self.old.matrix.now }
        ensures found { IfOk result (IsFoundSeparation self.old.matrix.now
            (corner_prefix form corners.now)) }
    {
        let matrix = self.matrix;
        if !self.may_part(corners)? {
            self.tries = self.tries.saturating_add(1);
            return Ok(None);
        }
        for q in 0..count_of(matrix, form.first_is_flat()) {
            if self.hold_first(form, corners, q)? {
                if let Some(three) = self.first_of_connector(alloc, form, corners, q)? {
                    return Ok(Some(three));
                }
            }
        }
        Ok(None)
    }

    // Decides whether a good seed may have the first corner in side one and the second corner in side two. The search notes corners that it
    // refuses, for the next forms and with their sides exchanged. The second form notes corners that the first form did not visit in a list
    // of their own.
    fn may_part(&mut self, corners: &Corners) -> Result<bool, Memory>
        requires { AreInside self.old.matrix.now corners.now }
        ensures matrix { self.new.matrix.now ≡ self.old.matrix.now }
        ensures refused { IfOk result (λ may. may ≡ false
            → AreRefused self.old.matrix.now corners.now) }
    {
        if self.is_noted(corners) {
            return Ok(false);
        }
        if !self.is_refused(corners)? {
            return Ok(true);
        }
        if self.refused.is_past() {
            self.refused.note(corners)?;
            return Ok(false);
        }
        self.refused_later.note(corners)?;
        Ok(false)
    }

    // Decides whether the search has noted corners.
    fn is_noted(&mut self, corners: &Corners) -> bool
        ensures matrix { self.new.matrix.now ≡ self.old.matrix.now }
        ensures refused { result ≡ true → AreRefused self.old.matrix.now corners.now }
    {
        if corners.two.row < corners.one.row {
            return self.refused.has_exchanged(corners) || self.refused_later.has_exchanged(corners);
        }
        if self.refused.has(corners) {
            return true;
        }
        self.refused_later.has(corners)
    }

    // Decides whether no good seed has these corners, first by their tied lines, and then by other rows.
    fn is_refused(&mut self, corners: &Corners) -> Result<bool, Memory>
        requires { AreInside self.old.matrix.now corners.now }
        ensures matrix { self.new.matrix.now ≡ self.old.matrix.now }
        ensures refused { IfOk result (λ refused. refused ≡ true
            → AreRefused self.old.matrix.now corners.now) }
    {
        if !self.sides.may_be_tied(corners)? {
            return Ok(true);
        }
        let Corners { one, two } = *corners;
        let first = [Line::Row(one.row), Line::Column(one.column)];
        let second = [Line::Row(two.row), Line::Column(two.column)];
        let may = self.sides.may_part(rule_at(corners), &first, &second)?;
        Ok(!may)
    }

    // Decides whether q can be the other line of the first connector, and the closure of the first connector leaves the second corner. If so,
    // the side of the search is this closure.
    fn hold_first(&mut self, form: Form, corners: &Corners, q: u32) -> Result<bool, Memory>
        requires crossing { IsCrossing form }
        requires inside { AreInside self.old.matrix.now corners.now }
        requires line { IsLine (height self.old.matrix.now) self.old.matrix.now.width
            (other_line (first_is_flat form) q) }
        ensures matrix { self.new.matrix.now ≡ self.old.matrix.now }
        ensures held { IfOk result (λ held. held ≡ true
            → HoldsFirst self.old.matrix.now form corners.now q self.new) }
        ensures no { IfOk result (λ held. held ≡ false
            → HasNoGood self.old.matrix.now (corner_prefix form corners.now ++ q ∷ [])) }
    {
        if !is_first_other(self.matrix, form, corners, q) {
            return Ok(false);
        }
        let Corners { one, two } = *corners;
        let connector = Connector {
            row: one.row,
            column: one.column,
            other: q,
        };
        let first = connector.lines(form.first_is_flat());
        let second = [Line::Row(two.row), Line::Column(two.column)];
        let held = self.sides.hold(rule_at(corners), &first, &second)?;
        Ok(held)
    }

    // The same with the line q. The loop visits the lines o.
    fn first_of_connector(
        &mut self,
        alloc: Global,
        form: Form,
        corners: &Corners,
        q: u32,
    ) -> Result<Option<Three>, Memory>
        requires crossing { IsCrossing form }
        requires corners { HasCorners self.old.matrix.now corners.now }
        requires held { HoldsFirst self.old.matrix.now form corners.now q self.old }
        ensures matrix { self.new.matrix.now ≡ self.old.matrix.now }
        ensures found { IfOk result (IsFoundSeparation self.old.matrix.now
            (corner_prefix form corners.now ++ q ∷ [])) }
    {
        let matrix = self.matrix;
        for o in 0..count_of(matrix, form.second_is_flat()) {
            if let Some(three) = self.first_of_other(alloc, form, corners, q, o)? {
                return Ok(Some(three));
            }
        }
        Ok(None)
    }

    // The same with the line o, by the closure of the first connector.
    fn first_of_other(
        &mut self,
        alloc: Global,
        form: Form,
        corners: &Corners,
        q: u32,
        o: u32,
    ) -> Result<Option<Three>, Memory>
        requires crossing { IsCrossing form }
        requires corners { HasCorners self.old.matrix.now corners.now }
        requires held { HoldsFirst self.old.matrix.now form corners.now q self.old }
        requires line { IsLine (height self.old.matrix.now) self.old.matrix.now.width
            (other_line (second_is_flat form) o) }
        ensures held { HoldsFirst self.old.matrix.now form corners.now q self.new }
        ensures found { IfOk result (IsFoundSeparation self.old.matrix.now
            (corner_prefix form corners.now ++ q ∷ o ∷ [])) }
    {
        if !is_second_other(self.matrix, form, corners, o) {
            return Ok(None);
        }
        if self.sides.side.has(line_of(form.second_is_flat(), o)) {
            return Ok(None);
        }
        self.first_of_connectors(alloc, form, corners, q, o)
    }

    // The same with two connectors. `first_of_lines` visits the lines x.
    fn first_of_connectors(
        &mut self,
        alloc: Global,
        form: Form,
        corners: &Corners,
        q: u32,
        o: u32,
    ) -> Result<Option<Three>, Memory>
        requires crossing { IsCrossing form }
        requires corners { HasCorners self.old.matrix.now corners.now }
        requires held { HoldsFirst self.old.matrix.now form corners.now q self.old }
        requires tied { IsTied (entry self.old.matrix.now) (second_is_flat form)
            (second_at corners.now o) corners.now.one.row corners.now.one.column }
        requires line { IsLine (height self.old.matrix.now) self.old.matrix.now.width
            (other_line (second_is_flat form) o) }
        ensures held { HoldsFirst self.old.matrix.now form corners.now q self.new }
        ensures found { IfOk result (IsFoundSeparation self.old.matrix.now
            (corner_prefix form corners.now ++ q ∷ o ∷ [])) }
    {
        let connectors = Connectors::at(corners, q, o);
        let rule = rule_at(corners);
        self.sides.first_of_lines(alloc, form, rule, &connectors)
    }
}

// Decides whether row k can be in the second corner, if (i, p) is the first corner.
fn is_second_row(
    matrix: &RowsAndColumns<'_>,
    groups: &Groups,
    form: Form,
    i: u32,
    p: u32,
    k: u32,
) -> bool
    requires names { HasNames matrix.now groups.now }
    requires row { i < height matrix.now }
    requires column { p < matrix.now.width }
    requires second_row { k < height matrix.now }
    ensures yes { result ≡ true → entry matrix.now k p ≢ pos 0 }
    ensures no { result ≡ false → IsNoSecondRow matrix.now groups.now form i p k }
{
    if !matrix.is_nonzero(k, p) {
        return false;
    }
    if groups.are_one(i, k) || groups.are_one(matrix.rows() + p, k) {
        return false;
    }
    may_have_columns(matrix, groups, form, i, k)
}

// Decides whether column j can be in the second corner with row k, if (i, p) is the first corner.
fn is_second_column(
    matrix: &RowsAndColumns<'_>,
    groups: &Groups,
    form: Form,
    i: u32,
    p: u32,
    k: u32,
    j: u32,
) -> bool
    requires names { HasNames matrix.now groups.now }
    requires row { i < height matrix.now }
    requires column { p < matrix.now.width }
    requires second_row { k < height matrix.now }
    requires second_column { j < matrix.now.width }
    ensures corner { result ≡ true → entry matrix.now k j ≢ pos 0 }
    ensures right { result ≡ true → entry matrix.now i j ≢ pos 0 }
    ensures no { result ≡ false → IsNoSecondColumn matrix.now groups.now form i p k j }
{
    if !matrix.is_nonzero(k, j) || !matrix.is_nonzero(i, j) {
        return false;
    }
    let column = matrix.rows() + j;
    if groups.are_one(i, column) || groups.are_one(matrix.rows() + p, column) {
        return false;
    }
    may_have_rows(matrix, groups, form, p, j)
}
