// Series-parallel reductions: their steps, the lines that they leave, and minimal submatrices that are not series-parallel.
use crate::compared::{are_texts, is};
use cmr_base::{Line, LineSet, Matrix, Memory, Reason, Step};
use sp_reduce::{is_reducible_line, minimal_not_sp, reduce};
use std::alloc::Global;
use std::process::Abort;
use std::test::Fail;
use text_fields::Writer;
use worked_given::{found_text, lines_text, matrix};

fn write_line(text: &mut Writer, line: Line) -> Result<(), Memory> {
    match line {
        Line::Row(row) => {
            text.word(b"row".as_slice())?;
            text.number(row)
        }
        Line::Column(column) => {
            text.word(b"column".as_slice())?;
            text.number(column)
        }
    }
}

fn write_reason(text: &mut Writer, word: &[u8], line: Line) -> Result<(), Memory> {
    text.word(word)?;
    write_line(text, line)
}

fn write_step(text: &mut Writer, step: Step) -> Result<(), Memory> {
    write_line(text, step.line)?;
    match step.reason {
        Reason::Zero => text.word(b"zero".as_slice())?,
        Reason::Unit(line) => write_reason(text, b"unit".as_slice(), line)?,
        Reason::Copy(line) => write_reason(text, b"copy".as_slice(), line)?,
        Reason::Negative(line) => write_reason(text, b"negative".as_slice(), line)?,
    }
    text.end_line()
}

fn steps_text(alloc: Global, steps: &[Step]) -> Result<Vec<u8>, Fail> {
    let mut text = Writer::new(alloc);
    for step in steps {
        write_step(&mut text, *step)?;
    }
    Ok(text.into_bytes())
}

// The steps, the remaining lines, and the lines of a minimal submatrix that is not series-parallel.
fn reduced(alloc: Global, text: &str, binary: bool) -> Result<Vec<u8>, Fail> {
    let matrix = matrix(alloc, text)?;
    let mut found = steps_and_rest(alloc, &matrix, binary)?;
    found.extend_from_slice(&minimal(alloc, &matrix, binary)?)?;
    Ok(found)
}

fn steps_and_rest(alloc: Global, matrix: &Matrix, binary: bool) -> Result<Vec<u8>, Fail> {
    let found = reduce(alloc, matrix, binary)?;
    let mut text = steps_text(alloc, found.steps.as_slice())?;
    text.extend_from_slice(&lines_text(alloc, &found.rest)?)?;
    Ok(text)
}

fn minimal(alloc: Global, matrix: &Matrix, binary: bool) -> Result<Vec<u8>, Fail> {
    found_text(alloc, &minimal_not_sp(alloc, matrix, binary)?)
}

fn reduced_with_signs(alloc: Global, text: &str) -> Result<Vec<u8>, Fail> {
    reduced(alloc, text, false)
}

fn reduced_support(alloc: Global, text: &str) -> Result<Vec<u8>, Fail> {
    reduced(alloc, text, true)
}

#[test]
fn reductions_with_signs(rt: HostRuntime) -> Result<(), Fail> {
    are_texts(&rt, WITH_SIGNS, reduced_with_signs)
}

#[test]
fn reductions_of_supports(rt: HostRuntime) -> Result<(), Fail> {
    are_texts(&rt, SUPPORTS, reduced_support)
}

fn is_reducible<R: Abort + AllocGlobal>(rt: &R, line: Line, binary: bool) -> Result<bool, Fail> {
    let matrix = matrix(rt.alloc(), "2 2/1 1/-1 -1/")?;
    assert!(rt; matrix.rows() == 2 && matrix.columns() == 2);
    let lines = LineSet::all(rt.alloc(), 2, 2)?;
    let line = match line {
        Line::Row(_) => Line::Row(0),
        Line::Column(_) => Line::Column(1),
    };
    Ok(is_reducible_line(&matrix, &lines, line, binary))
}

#[test]
fn lines(rt: HostRuntime) -> Result<(), Fail> {
    is(&rt, is_reducible(&rt, Line::Row(0), false)?, true);
    is(&rt, is_reducible(&rt, Line::Row(0), true)?, false);
    is(&rt, is_reducible(&rt, Line::Column(1), true)?, true);
    Ok(())
}

// The last matrix has two triangles, of which the later one remains.
const WITH_SIGNS: &str = "\
2 2/1 0/0 1/; row 0 unit column 0/row 1 unit column 1/column 0 zero/column 1 zero///none/
2 3/1 1 1/-1 -1 -1/; row 0 negative row 1/column 0 unit row 1/column 1 unit row 1/row 1 unit column 2/column 2 zero///none/
6 6/1 1 0 0 0 0/0 1 1 0 0 0/1 0 1 0 0 0/0 0 0 1 1 0/0 0 0 0 1 1/0 0 0 1 0 1/; 0 1 2 3 4 5/0 1 2 3 4 5/3 4 5/3 4 5/";

const SUPPORTS: &str = "\
2 3/1 1 1/-1 -1 -1/; column 0 copy column 1/column 1 copy column 2/row 0 unit column 2/row 1 unit column 2/column 2 zero///none/
4 4/1 1 0 0/0 1 1 0/1 0 1 1/1 0 1 0/; column 3 unit row 2/row 2 copy row 3/0 1 3/0 1 2/0 1 3/0 1 2/";
