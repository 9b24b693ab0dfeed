// Rows that a row splits.
use crate::compared::are_texts;
use bridge_split::{SplitCase, split};
use cmr_base::PartList;
use std::alloc::Global;
use std::test::Fail;
use worked_given::{bytes, matrix, row_text};

// The row that splits, and each part on a line.
fn parts_text(alloc: Global, word: &str, row: u32, parts: &PartList) -> Result<Vec<u8>, Fail> {
    let mut text = row_text(alloc, word, &[row])?;
    for part in parts.as_slice() {
        text.extend_from_slice(&row_text(alloc, "part", part.as_slice())?)?;
    }
    Ok(text)
}

// The sides are free except the sides of parts that disagree, so the text has none.
fn case_text(alloc: Global, case: &SplitCase) -> Result<Vec<u8>, Fail> {
    match case {
        SplitCase::Star => bytes(alloc, "star/"),
        SplitCase::AllConnected(column) => row_text(alloc, "all connected", &[*column]),
        SplitCase::Parts { row, parts, .. } => parts_text(alloc, "parts", *row, parts),
        SplitCase::OddCycle { row, parts } => {
            let word = if parts.len() == 3 { "odd three" } else { "odd" };
            row_text(alloc, word, &[*row])
        }
    }
}

fn case_in(alloc: Global, text: &str) -> Result<Vec<u8>, Fail> {
    case_text(alloc, &split(alloc, &matrix(alloc, text)?)?)
}

#[test]
fn cases(rt: HostRuntime) -> Result<(), Fail> {
    are_texts(&rt, CASES, case_in)
}

// Parts that disagree are on different sides.
#[test]
fn sides(rt: HostRuntime) -> Result<(), Fail> {
    let matrix = matrix(rt.alloc(), "4 3/1 1 1/1 1 0/0 1 1/0 0 1/")?;
    if let SplitCase::Parts { sides, .. } = split(rt.alloc(), &matrix)? {
        let sides = sides.as_slice();
        assert_eq!(rt; sides.len(), 3);
        assert!(rt; sides[0] != sides[1]);
        return Ok(());
    }
    Err(Fail::from("no row splits the others"))
}

// A spanning star of the complete graph on five nodes. The transposed matrix, which is not graphic. A matrix of which each
// row below the first is a part, and the first two of these disagree. A matrix whose second row is the first that splits,
// and whose first and last row are one part. A matrix of three parts, of which each two disagree.
const CASES: &str = "\
4 6/1 1 1 0 0 0/1 0 0 1 1 0/0 1 0 1 0 1/0 0 1 0 1 1/; star/
6 4/1 1 0 0/1 0 1 0/1 0 0 1/0 1 1 0/0 1 0 1/0 0 1 1/; all connected 0/
4 3/1 1 1/1 1 0/0 1 1/0 0 1/; parts 0/part 1/part 2/part 3/
4 5/1 0 0 0 1/1 1 1 1 0/1 1 1 0 0/0 0 1 1 1/; parts 1/part 0 3/part 2/
4 3/1 1 1/1 1 0/0 1 1/1 0 1/; odd three 0/";
