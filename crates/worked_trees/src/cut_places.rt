// Positions of pivots on shortest paths inside the sides of cuts.
use crate::compared::is_text;
use cmr_base::Position;
use path_places::{Side, cut_place};
use std::alloc::Global;
use std::test::Fail;
use worked_given::{Lines, line_set, matrix, row_text};

// A word and the position, where there is one.
fn place_text(alloc: Global, word: &str, found: Option<Position>) -> Result<Vec<u8>, Fail> {
    match found {
        Some(place) => row_text(alloc, word, &[place.row, place.column]),
        None => row_text(alloc, word, &[]),
    }
}

// Whether a side is fit, and its position.
fn side_text(alloc: Global, side: &Side<'_>) -> Result<Vec<u8>, Fail> {
    let word = if side.is_fit() { "fit" } else { "unfit" };
    place_text(alloc, word, side.path_place(alloc)?)
}

fn sides_text(alloc: Global, text: &str, lines: Lines<'_>) -> Result<Vec<u8>, Fail> {
    let given = matrix(alloc, text)?;
    let set = line_set(alloc, given.rows(), given.columns(), lines)?;
    let mut found = side_text(alloc, &Side::one(alloc, &given, &set)?)?;
    let other = side_text(alloc, &Side::two(alloc, &given, &set)?)?;
    found.extend_from_slice(&other)?;
    Ok(found)
}

fn cut_text(alloc: Global, text: &str, lines: Lines<'_>) -> Result<Vec<u8>, Fail> {
    let given = matrix(alloc, text)?;
    let set = line_set(alloc, given.rows(), given.columns(), lines)?;
    place_text(alloc, "cut", cut_place(alloc, &given, &set)?)
}

#[test]
fn sides_of_cuts(rt: HostRuntime) -> Result<(), Fail> {
    let alloc = rt.alloc();
    let first = sides_text(alloc, "3 3/0 -1 -1/1 0 -1/-1 1 -1/", (&[1, 2], &[0, 2]))?;
    is_text(&rt, &first, "unfit 2 0/unfit/")?;
    let second = sides_text(alloc, "3 4/-1 1 -1 1/0 -1 0 -1/0 1 1 0/", (&[1], &[0, 3]))?;
    is_text(&rt, &second, "fit/unfit 0 2/")?;
    let fit = sides_text(alloc, "3 3/-1 0 -1/1 -1 0/0 -1 0/", (&[0, 2], &[0]))?;
    is_text(&rt, &fit, "fit/fit/")
}

#[test]
fn positions_of_cuts(rt: HostRuntime) -> Result<(), Fail> {
    for (text, rows, columns, expected) in [
        (
            "3 3/0 -1 -1/1 0 -1/-1 1 -1/",
            &[1, 2][..],
            &[0, 2][..],
            "cut 2 0/",
        ),
        (
            "3 4/-1 1 -1 1/0 -1 0 -1/0 1 1 0/",
            &[1][..],
            &[0, 3][..],
            "cut 0 2/",
        ),
        ("3 3/-1 0 -1/1 -1 0/0 -1 0/", &[0, 2][..], &[0][..], "cut/"),
        ("3 3/0 0 0/-1 0 0/0 0 0/", &[1][..], &[0, 1, 2][..], "cut/"),
    ] {
        is_text(&rt, &cut_text(rt.alloc(), text, (rows, columns))?, expected)?;
    }
    Ok(())
}

#[test]
fn shortest_and_first(rt: HostRuntime) -> Result<(), Fail> {
    let alloc = rt.alloc();
    let long = "6 6/0 0 1 1 0 0/-1 0 0 0 -1 0/0 -1 0 0 1 0/0 0 -1 0 0 -1/1 0 -1 0 0 0/0 1 0 0 0 1/";
    let lines = [0, 1, 2, 3, 4];
    is_text(&rt, &cut_text(alloc, long, (&lines, &lines))?, "cut 3 2/")?;
    let ties = "4 5/0 0 1 1 1/0 1 0 0 1/1 1 1 1 0/1 0 0 0 1/";
    is_text(
        &rt,
        &cut_text(alloc, ties, (&lines[..3], &lines[..4]))?,
        "cut 0 2/",
    )
}
