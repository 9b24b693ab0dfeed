// The two tables of R10, up to the order of rows and of columns and the signs.
use crate::compared::are_texts;
use r10_leaf::is_r10;
use std::alloc::Global;
use std::test::Fail;
use worked_given::{bytes, matrix};

fn answer(alloc: Global, text: &str) -> Result<Vec<u8>, Fail> {
    let word = if is_r10(&matrix(alloc, text)?) {
        "yes/"
    } else {
        "no/"
    };
    bytes(alloc, word)
}

#[test]
fn tables(rt: HostRuntime) -> Result<(), Fail> {
    are_texts(&rt, TABLES, answer)
}

// The two tables, both with their lines in other orders, the first of these without one entry, a table of zeros, and four
// of the five rows.
const TABLES: &str = "\
5 5/1 -1 0 0 -1/-1 1 -1 0 0/0 -1 1 -1 0/0 0 -1 1 -1/-1 0 0 -1 1/; yes/
5 5/1 1 1 1 1/1 1 1 0 0/1 0 1 1 0/1 0 0 1 1/1 1 0 0 1/; yes/
5 5/0 0 1 -1 -1/1 0 1 1 0/1 -1 0 0 -1/1 1 1 0 0/0 1 0 1 1/; yes/
5 5/-1 -1 1 -1 -1/1 1 -1 0 0/-1 0 -1 1 0/0 0 -1 -1 1/0 -1 1 0 -1/; yes/
5 5/0 0 0 -1 -1/1 0 1 1 0/1 -1 0 0 -1/1 1 1 0 0/0 1 0 1 1/; no/
5 5/0 0 0 0 0/0 0 0 0 0/0 0 0 0 0/0 0 0 0 0/0 0 0 0 0/; no/
4 5/1 -1 0 0 -1/-1 1 -1 0 0/0 -1 1 -1 0/0 0 -1 1 -1/; no/";
