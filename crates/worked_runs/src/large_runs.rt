// Runs under the name for large matrices.
use crate::endings::due_text;
use crate::given::{devices_before, found_text, run_large_on, run_of, words};
use std::alloc::AllocGlobal;
use std::process::Abort;
use std::test::Fail;
use std::thread::Threads;

fn is_large_run<R: Threads + Sync + Abort + AllocGlobal>(rt: &R, row: &str) -> Result<(), Fail> {
    let alloc = rt.alloc();
    let run = run_of(row)?;
    let words = words(alloc, run.words)?;
    let mut devices = devices_before(alloc, &run, 1000)?;
    let status = run_large_on(rt, &words, &mut devices);
    let found = found_text(alloc, &run, status, &devices)?;
    assert_eq!(rt;
        found,
        due_text(alloc, &run, &None, 1000)?,
        "of {}",
        run.words
    );
    Ok(())
}

#[test]
fn large_runs(rt: HostRuntime) -> Result<(), Fail> {
    for row in LARGE_RUNS.split('\n') {
        is_large_run(&rt, row)?;
    }
    Ok(())
}

#[test]
fn refused_words_of_large_runs(rt: HostRuntime) -> Result<(), Fail> {
    for words in REFUSED_WORDS.split('\n') {
        let row = format!(in rt.alloc();
            "{words} | f: 2 2/1 0/0 1/; -: 2 2/1 0/0 1/ | 2 | cmr: bad command line/ | e: as before"
        )?;
        is_large_run(&rt, &row)?;
    }
    Ok(())
}

const LARGE_RUNS: &str = "\
tu f | f: 0 0/ | 0 | totally unimodular: yes/ | none
tu | -: 3 0//// | 0 | totally unimodular: yes/ | none
tu -E e f | f: 3 3/1 1 0/0 1 1/1 0 -1/ | 0 | totally unimodular: yes/ | e: as before
tu -i sparse f | f: 2000 3000 5/7 2001 1/9 2001 -1/7 3000 -1/9 3000 1/1 1 1/ | 0 | totally unimodular: yes/ | none
tu - | -: 3 3/1 1 0/0 1 1/1 0 1/ | 1 | totally unimodular: no/violator rows 1 2 3 columns 1 2 3 sum 6/ | none
tu -E e -i sparse f | f: 2000 3000 4/7 2001 1/9 2001 -1/7 3000 -1/9 3000 -1/ | 1 | totally unimodular: no/violator rows 7 9 columns 2001 3000 sum -2/ | e: 2000 3000 2 2/7 9/2001 3000/
tu -E e f | f: 3 3/1 1 1/1 1 0/1 0 1/ | 0 | totally unimodular: yes/ | e: as before
tu -w 3 -E e f | f: 5 5/1 -1 0 0 -1/-1 1 -1 0 0/0 -1 1 -1 0/0 0 -1 1 -1/-1 0 0 -1 1/ | 0 | totally unimodular: yes/ | e: as before
tu -E e f | f: 3 3/1 1 1/1 -1 0/1 0 -1/ | 1 | totally unimodular: no/violator rows 1 2 columns 1 2 sum 2/ | e: 3 3 2 2/1 2/1 2/
tu -E e f | f: 4 4/1 1 0 0/1 0 1 0/1 0 0 1/1 1 1 1/ | 1 | totally unimodular: no/violator rows 1 2 3 4 columns 1 2 3 4 sum 10/ | e: 4 4 4 4/1 2 3 4/1 2 3 4/
tu --lines 3 -E e f | f: 4 4/1 1 0 0/1 0 1 0/1 0 0 1/1 1 1 1/ | 6 | totally unimodular: undecided/open 4x4/ | e: 4 4 4 4/1 2 3 4/1 2 3 4/
tu --pivots 0 --lines=+3 -w 64 f | f: 4 4/1 1 0 0/1 0 1 0/1 0 0 1/1 1 1 1/ | 6 | totally unimodular: undecided/open 4x4/ | none
tu --lines 0 --pivots 0 f | f: 4 4/1 1 0 0/1 0 1 0/1 0 0 1/1 1 1 1/ | 6 | totally unimodular: undecided/open 4x4/ | none
tu --lines 3 -E e -i sparse f | f: 9 9 15/1 1 1/1 2 1/2 1 1/2 3 1/3 1 1/3 4 1/4 1 1/4 2 1/4 3 1/4 4 1/6 6 1/6 7 1/7 6 1/7 7 -1/9 9 1/ | 1 | totally unimodular: no/violator rows 6 7 columns 6 7 sum 2/ | e: 9 9 2 2/6 7/6 7/
tu f | f: 2 2/ | 3 | cmr: f: Short at byte 4/ | none
tu f | f: 1 1/1 0/ | 3 | cmr: f: Extra at byte 6/ | none
tu f | f: 16777217 1/ | 3 | cmr: f: TooManyRows at byte 0/ | none
tu -i sparse f | f: 1 16777217 0/ | 3 | cmr: f: TooManyColumns at byte 2/ | none
tu -i sparse f | f: 2 2 2/1 1 1/1 1 -1/ | 3 | cmr: f: TwiceNamed at byte 14/ | none
tu -E e f | none | 4 | cmr: cannot read f/ | e: as before";

const REFUSED_WORDS: &str = "\
''
f
regular f
check f e
--help
tu -h
tu --version
tu f -E e f
tu - -
tu -i square -E e f
tu --lines 25 -E e f
tu --lines -1 -E e f
tu --lines x -E e f
tu --pivots 101 -E e f
tu --pivots= -E e f
tu -w 0 -E e f
tu -w 65 -E e f
tu -w 1 -w 2 -E e f
tu -D e f
tu -E -";
