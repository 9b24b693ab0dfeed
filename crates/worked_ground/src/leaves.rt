// The least violator and the least balance fault, by the sets of the shorter side.
use crate::compared::is_text;
use balance::least_balance_fault;
use cmr_base::Matrix;
use first_hit::Workers;
use leaf_enumerate::{LeastSubmatrix, least_violator};
use std::alloc::Global;
use std::process::Abort;
use std::test::Fail;
use std::thread::Threads;
use worked_given::{bytes, lines_text, matrix, row_text, sparse};

fn search_text(alloc: Global, search: &LeastSubmatrix) -> Result<Vec<u8>, Fail> {
    match search {
        LeastSubmatrix::Clean => bytes(alloc, "clean/"),
        LeastSubmatrix::Found(lines) => lines_text(alloc, lines),
        LeastSubmatrix::TooMany { shorter } => row_text(alloc, "too many", &[*shorter]),
    }
}

fn violator<R: Threads + Sync + Abort + AllocGlobal>(
    rt: &R,
    matrix: &Matrix,
    limit: u32,
    workers: u32,
) -> Result<Vec<u8>, Fail> {
    assert!(rt; limit <= 24 && workers >= 1 && workers <= 64);
    let workers = Workers::new(workers);
    let found = least_violator(rt, rt.alloc(), matrix, limit, workers)?;
    search_text(rt.alloc(), &found)
}

#[test]
fn violators(rt: HostRuntime) -> Result<(), Fail> {
    let whole = "4 4/1 1 0 0/1 0 1 0/1 0 0 1/1 1 1 1/";
    for (text, limit, workers, expected) in [
        (whole, 4, 1, "0 1 2 3/0 1 2 3/"),
        (whole, 4, 64, "0 1 2 3/0 1 2 3/"),
        (whole, 3, 1, "too many 4/"),
        ("2 2/1 0/0 1/", 2, 1, "clean/"),
        ("3 2/1 1/1 -1/0 0/", 2, 1, "0 1/0 1/"),
        ("3 2/1 1/1 -1/0 0/", 1, 4, "too many 2/"),
        ("0 1000/", 0, 2, "clean/"),
    ] {
        let matrix = matrix(rt.alloc(), text)?;
        is_text(&rt, &violator(&rt, &matrix, limit, workers)?, expected)?;
    }
    Ok(())
}

fn balance_fault<R: Threads + Sync + Abort + AllocGlobal>(
    rt: &R,
    matrix: &Matrix,
    limit: u32,
    workers: u32,
) -> Result<Vec<u8>, Fail> {
    assert!(rt; limit <= 24 && workers >= 1 && workers <= 64);
    let workers = Workers::new(workers);
    let found = least_balance_fault(rt, rt.alloc(), matrix, limit, workers)?;
    search_text(rt.alloc(), &found)
}

// The rows and columns of a balance fault have two nonzeros each, and its sum is 2 modulo 4.
#[test]
fn balance_faults(rt: HostRuntime) -> Result<(), Fail> {
    let triangle = "3 3/1 1 0/0 1 1/1 0 1/";
    for (text, limit, workers, expected) in [
        (triangle, 3, 1, "0 1 2/0 1 2/"),
        (triangle, 3, 3, "0 1 2/0 1 2/"),
        (triangle, 2, 1, "too many 3/"),
        ("4 4/1 1 0 0/1 0 1 0/1 0 0 1/1 1 1 1/", 4, 3, "clean/"),
        // Of four columns on two rows the first two that are a fault, also if there are more rows than columns.
        ("2 4/1 0 1 1/1 0 1 -1/", 2, 1, "0 1/0 3/"),
        ("4 2/1 1/0 0/1 1/1 -1/", 2, 3, "0 3/0 1/"),
        // Of equal columns the least is taken.
        ("3 5/1 1 1 0 0/0 0 1 0 1/1 1 0 0 1/", 3, 1, "0 1 2/0 2 4/"),
        ("3 5/1 1 1 0 0/0 0 1 0 1/1 1 0 0 1/", 3, 3, "0 1 2/0 2 4/"),
    ] {
        let matrix = matrix(rt.alloc(), text)?;
        is_text(&rt, &balance_fault(&rt, &matrix, limit, workers)?, expected)?;
    }
    Ok(())
}

// Stops the test if one of the two searches finds something else.
fn finds<R: Threads + Sync + Abort + AllocGlobal>(
    rt: &R,
    matrix: &Matrix,
    workers: u32,
    expected: &str,
) -> Result<(), Fail> {
    is_text(rt, &violator(rt, matrix, 12, workers)?, expected)?;
    is_text(rt, &balance_fault(rt, matrix, 12, workers)?, expected)
}

// Twelve lines on the shorter side have more sets than one worker goes through: the faults are in the last two lines, in all, and
// in none.
#[test]
fn shared_sets(rt: HostRuntime) -> Result<(), Fail> {
    for (text, expected) in [
        ("12 13 4/11 4 1/11 5 1/12 4 1/12 5 -1/", "10 11/3 4/"),
        ("13 12 4/4 11 1/4 12 1/5 11 1/5 12 -1/", "3 4/10 11/"),
        (
            "12 12 24/1 1 1/1 2 1/2 2 1/2 3 1/3 3 1/3 4 1/4 4 1/4 5 1/5 5 1/5 6 1/6 6 1/6 7 1/7 7 1/7 8 1/8 8 1/8 9 1/9 9 1/9 10 1/10 10 1/10 11 1/11 11 1/11 12 1/12 12 1/12 1 -1/",
            "0 1 2 3 4 5 6 7 8 9 10 11/0 1 2 3 4 5 6 7 8 9 10 11/",
        ),
        (
            "12 12 24/1 1 1/1 2 1/2 2 1/2 3 1/3 3 1/3 4 1/4 4 1/4 5 1/5 5 1/5 6 1/6 6 1/6 7 1/7 7 1/7 8 1/8 8 1/8 9 1/9 9 1/9 10 1/10 10 1/10 11 1/11 11 1/11 12 1/12 12 1/12 1 1/",
            "clean/",
        ),
    ] {
        let matrix = sparse(rt.alloc(), text)?;
        for workers in [1, 3, 64] {
            finds(&rt, &matrix, workers, expected)?;
        }
    }
    Ok(())
}
