// Matrices that are generated from a number, and the numbers that are drawn for them.
use crate::compared::is_text;
use cmr_base::{DrawnNumber, draw_below};
use generate::{MakeKind, make};
use std::test::Fail;
use worked_given::dense;

// From 7 the first nine draws below 2 are 1, 1, 0, 1, 0, 1, 0, 0 and 1, so of the two-sum of two circulants of R10 the
// rows 1, 2, 4, 6 and 9 are negated.
#[test]
fn from_seven(rt: HostRuntime) -> Result<(), Fail> {
    let network = make(rt.alloc(), MakeKind::Network, 3, 7)?;
    is_text(
        &rt,
        &dense(rt.alloc(), &network)?,
        "3 3/-1 0 0/0 1 -1/0 0 0/",
    )?;
    let sum = make(rt.alloc(), MakeKind::TwoSum, 2, 7)?;
    is_text(
        &rt,
        &dense(rt.alloc(), &sum)?,
        "9 9/-1 1 0 0 1 -1 0 0 -1/1 -1 1 0 0 0 0 0 0/0 -1 1 -1 0 0 0 0 0/0 0 1 -1 1 -1 0 0 -1/-1 0 0 -1 1 -1 0 0 -1/0 0 0 0 1 -1 1 0 0/0 0 0 0 0 -1 1 -1 0/0 0 0 0 0 0 -1 1 -1/0 0 0 0 1 0 0 1 -1/",
    )
}

#[test]
fn drawn_numbers(rt: HostRuntime) {
    let first = DrawnNumber {
        number: 7,
        state: 1_282_168_116,
    };
    assert_eq!(rt; draw_below(10, 7), first);
    let second = DrawnNumber {
        number: 0,
        state: 642_666_333,
    };
    assert_eq!(rt; draw_below(3, 1_282_168_116), second);
}
