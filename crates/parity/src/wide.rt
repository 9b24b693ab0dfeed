//! The search for column sets in a matrix of any number of columns.

ghost use Rattle.std.specs.Prelude.{◌≡◌, ◌<◌, ◌≤◌, ◌*◌, ◌^◌, true, false, IfOk, IfSome, IfNone, OnOk, length};
ghost use Rattle.cmr_base.specs.Matrix.{height, IsMatrix};
ghost use Rattle.cmr_base.specs.LineSets.{AllBelow, set_numbered};
ghost use Rattle.cmr_base.specs.Violator.{HasNoColumnSet, IsLeastColumnSet};
ghost use Rattle.cmr_base.specs.Planes.{words_for};
ghost use Rattle.parity.specs.GivenColumns.{HasLeastColumnSet};
ghost use Rattle.parity.specs.Equations.{IsBasis, IsLowest, number_of, reduced_by, solved};
ghost use Rattle.parity.specs.PlaneSums.{AreSums, equations_of, without_columns};

use crate::basis::Basis;
use crate::sums::Sums;
use crate::words::{clear, empty_set, is_set, lowest, toggle};
use cmr_base::{Indices, Matrix, Memory, words_for};
use std::alloc::Global;

/// A matrix, and room for sums of its columns, for equations, and for one more set of columns.
#[derive(Drop)]
pub struct WideSearch<'a> {
    pub matrix: &'a Matrix,
    sums: Sums,
    basis: Basis,
    equation: Vec<u64>,
    ghost shape: { IsMatrix matrix.now },
    ghost sums_words: { sums.words ≡ words_for matrix.now.width },
    ghost basis_words: { basis.words ≡ words_for matrix.now.width },
    ghost equation_words: { length equation.items ≡ words_for matrix.now.width },
}

impl<'a> WideSearch<'a> {
    /// Makes a search in this matrix.
    pub fn new(alloc: Global, matrix: &'a Matrix) -> Result<WideSearch<'a>, Memory>
        ensures { IfOk result (λ search. search.matrix.now ≡ matrix.entry.now) }
    {
        let words = words_for(matrix.columns());
        Ok(WideSearch {
            matrix,
            sums: Sums::new(alloc, words)?,
            basis: Basis::new(alloc, words, matrix.rows() as usize)?,
            equation: empty_set(alloc, words)?,
        })
    }

    /// Decides whether some column set makes a violator with exactly these rows.
    pub fn has(&mut self, rows: &[u32]) -> Result<bool, Memory>
        requires { AllBelow (height self.old.matrix.now) rows.now }
        ensures same { self.new.matrix ≡ self.old.matrix }
        ensures yes { IfOk result (λ has. has ≡ true
            → HasLeastColumnSet self.old.matrix.now rows.now) }
        ensures no { IfOk result (λ has. has ≡ false
            → HasNoColumnSet self.old.matrix.now rows.now) }
    {
        match self.free_column(rows)? {
            Some(_free) => Ok(true),
            None => Ok(false),
        }
    }

    /// Gives the column set of least number that makes a violator with exactly these rows, and `None` if there is none.
    pub fn first(&mut self, alloc: Global, rows: &[u32]) -> Result<Option<Indices>, Memory>
        requires { AllBelow (height self.old.matrix.now) rows.now }
        ensures same { self.new.matrix ≡ self.old.matrix }
        ensures least { IfOk result (λ answer.
            IfSome answer (IsLeastColumnSet self.old.matrix.now rows.now)) }
        ensures none { IfOk result (λ answer.
            IfNone answer (HasNoColumnSet self.old.matrix.now rows.now)) }
    {
        let count = self.matrix.columns();
        let Some(free) = self.free_column(rows)? else {
            return Ok(None);
        };
        let columns = solution(alloc, &self.basis, &mut self.equation, free, count)?;
        Ok(Some(columns))
    }

    // Gives the column, not a pivot, that leads to the solution of least number, and `None` if there is no solution.
    fn free_column(&mut self, rows: &[u32]) -> Result<Option<u32>, Memory>
        requires { AllBelow (height self.old.matrix.now) rows.now }
        ensures same { self.new.matrix ≡ self.old.matrix }
        ensures least { IfOk result (λ free. IfSome free (λ column.
            IsLeastColumnSet self.old.matrix.now rows.now (set_numbered self.old.matrix.now.width 0
            (solved self.new.basis.equations (2 ^ column))))) }
        ensures inside { IfOk result (λ free. IfSome free (λ column.
            column < 64 * words_for self.old.matrix.now.width)) }
        ensures none { IfOk result (λ free.
            IfNone free (HasNoColumnSet self.old.matrix.now rows.now)) }
    {
        sum_columns(self.matrix, &mut self.sums, rows);
        eliminate(
            self.matrix,
            &self.sums,
            &mut self.basis,
            &mut self.equation,
            rows,
        )?;
        Ok(lowest_left(&self.sums, &self.basis, &mut self.equation))
    }
}

// Computes the sum of the rows in each column, modulo 4.
fn sum_columns(matrix: &Matrix, sums: &mut Sums, rows: &[u32])
    requires rows { AllBelow (height matrix.now) rows.now }
    requires words { sums.old.words ≡ words_for matrix.now.width }
    requires shape { IsMatrix matrix.now }
    ensures sums { AreSums matrix.now rows.now sums.new.ones sums.new.twos }
    ensures words { sums.new.words ≡ sums.old.words }
    ensures small { sums.new.twos < 2 ^ matrix.now.width }
{
    sums.clear();
    for row in rows {
        sums.add_row(matrix.support_words(*row), matrix.minus_words(*row));
    }
}

// Fills the basis with the equations of the rows: the chosen columns contain an even number of the row's nonzeros.
fn eliminate(
    matrix: &Matrix,
    sums: &Sums,
    basis: &mut Basis,
    equation: &mut [u64],
    rows: &[u32],
) -> Result<(), Memory>
    requires rows { AllBelow (height matrix.now) rows.now }
    requires sums { sums.now.words ≡ words_for matrix.now.width }
    requires basis { basis.old.words ≡ words_for matrix.now.width }
    requires equation { length equation.old ≡ words_for matrix.now.width }
    requires shape { IsMatrix matrix.now }
    ensures basis { OnOk result (IsBasis matrix.now.width sums.now.ones
        (equations_of matrix.now sums.now.ones rows.now) basis.new.equations) }
    ensures words { basis.new.words ≡ basis.old.words }
{
    basis.clear();
    for row in rows {
        sums.mask_row(matrix.support_words(*row), equation);
        basis.reduce(equation);
        if let Some(pivot) = lowest(equation) {
            basis.push(pivot, equation)?;
        }
    }
    Ok(())
}

// Reduces the set of the columns with sum 2 modulo 4 by the equations, and gives its least column. A solution has an
// odd number of columns in common with this set, so there is no solution if the reduced set is empty.
fn lowest_left(sums: &Sums, basis: &Basis, equation: &mut [u64]) -> Option<u32>
    requires basis { basis.now.words ≡ sums.now.words }
    requires equation { length equation.old ≡ sums.now.words }
    requires few { 64 * length equation.old < 2 ^ 32 }
    ensures some { IfSome result (IsLowest (reduced_by basis.now.equations
        (without_columns sums.now.ones sums.now.twos))) }
    ensures inside { IfSome result (λ free. free < 64 * length equation.old) }
    ensures none { IfNone result (reduced_by basis.now.equations
        (without_columns sums.now.ones sums.now.twos) ≡ 0) }
{
    sums.write_halves(equation);
    basis.reduce(equation);
    lowest(equation)
}

// Gives the columns that solve the equations of the basis, from one column that is not a pivot.
fn solution(
    alloc: Global,
    basis: &Basis,
    columns: &mut [u64],
    free: u32,
    count: u32,
) -> Result<Indices, Memory>
    requires words { length columns.old ≡ basis.now.words }
    requires free { free < 64 * length columns.old }
    requires count { count ≤ 64 * length columns.old }
    ensures { IfOk result (λ set. set ≡ set_numbered count 0 (solved basis.now.equations
        (2 ^ free))) }
{
    clear(columns);
    toggle(columns, free);
    basis.solve(columns);
    columns_in(alloc, columns, count)
}

fn columns_in(alloc: Global, words: &[u64], count: u32) -> Result<Indices, Memory>
    requires { count ≤ 64 * length words.now }
    ensures { IfOk result (λ set. set ≡ set_numbered count 0 (number_of words.now)) }
{
    let mut columns = Indices::new(alloc);
    for column in 0..count {
        if is_set(words, column) {
            columns.push(column)?;
        }
    }
    Ok(columns)
}
