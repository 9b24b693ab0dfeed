// Runs on devices whose calls do not fail.
use crate::endings::due_text;
use crate::given::{devices_before, found_text, run_of, run_on, words};
use std::alloc::AllocGlobal;
use std::process::Abort;
use std::test::Fail;
use std::thread::Threads;

fn is_run<R: Threads + Sync + Abort + AllocGlobal>(rt: &R, row: &str) -> Result<(), Fail> {
    let alloc = rt.alloc();
    let run = run_of(row)?;
    let words = words(alloc, run.words)?;
    let mut devices = devices_before(alloc, &run, 1000)?;
    let status = run_on(rt, &words, &mut devices);
    let found = found_text(alloc, &run, status, &devices)?;
    assert_eq!(rt;
        found,
        due_text(alloc, &run, &None, 1000)?,
        "of {}",
        run.words
    );
    Ok(())
}

#[test]
fn runs(rt: HostRuntime) -> Result<(), Fail> {
    for row in RUNS.split('\n') {
        is_run(&rt, row)?;
    }
    Ok(())
}

// Refused arguments of each tool.
#[test]
fn refused_words(rt: HostRuntime) -> Result<(), Fail> {
    for words in REFUSED_WORDS.split('\n') {
        let row = format!(in rt.alloc();
            "{words} | f: 2 2/1 0/0 1/; -: 2 2/1 0/0 1/ | 2 | cmr: bad command line/ | e: as before"
        )?;
        is_run(&rt, &row)?;
    }
    Ok(())
}

const RUNS: &str = "\
tu f | f: 0 0/ | 0 | totally unimodular: yes/0 empty 0x0/ | none
tu f | f: 3 0//// | 0 | totally unimodular: yes/0 reduced 3x0/1 empty 0x0/ | none
tu -E e f | f: 3 3/1 1 0/0 1 1/1 0 -1/ | 0 | totally unimodular: yes/0 network 3x3/ | e: as before
tu - | -: 5 6/1 1 1 0 0 0/0 0 0 1 1 1/1 0 0 1 0 0/0 1 0 0 1 0/0 0 1 0 0 1/ | 0 | totally unimodular: yes/0 network 5x6/ | none
tu -i sparse f | f: 2 2 3/2 2 +1/1 2 0/1 1 1/ | 0 | totally unimodular: yes/0 reduced 2x2/1 empty 0x0/ | none
tu --lines 0 f | f: 3 3/1 1 0/0 1 1/1 0 1/ | 1 | totally unimodular: no/violator rows 1 2 3 columns 1 2 3 sum 6/0 cycle 3x3/ | none
tu --lines 4 f | f: 4 4/1 1 0 0/1 0 1 0/1 0 0 1/1 1 1 1/ | 1 | totally unimodular: no/violator rows 1 2 3 4 columns 1 2 3 4 sum 10/0 violator 4x4/ | none
tu --lines=+3 four | four: 4 4/1 1 0 0/1 0 1 0/1 0 0 1/1 1 1 1/ | 6 | totally unimodular: undecided/open rows 1 2 3 4 columns 1 2 3 4/0 undecided 4x4/ | none
tu --pivots 0 --lines 3 f | f: 4 4/1 1 0 0/1 0 1 0/1 0 0 1/1 1 1 1/ | 6 | totally unimodular: undecided/open rows 1 2 3 4 columns 1 2 3 4/0 undecided 4x4/ | none
tu --lines 0 --pivots 1 -E e f | f: 9 6/0 0 1 1 0 0/0 1 1 1 1 0/0 0 1 1 1 0/0 1 0 1 1 0/0 0 1 1 1 -1/0 1 1 1 1 -1/0 0 0 1 1 0/1 -1 0 0 0 0/1 0 1 1 0 -1/ | 1 | totally unimodular: no/violator rows 4 5 8 9 columns 1 2 5 6 sum 2/0 violator 9x6/ | e: 9 6 4 4/4 5 8 9/1 2 5 6/
tu -w 3 f | f: 7 7/1 1 1 0 1 1 0/0 0 0 -1 1 1 0/1 0 1 1 0 0 0/0 0 0 0 1 0 1/0 1 1 0 1 0 0/0 1 1 0 1 0 1/0 0 0 0 0 -1 1/ | 0 | totally unimodular: yes/0 mixed 7x7/1 conetwork 6x4/1 network 4x6/ | none
tu '' | : 0 0/ | 0 | totally unimodular: yes/0 empty 0x0/ | none
tu -- -t | -t: 0 0/ | 0 | totally unimodular: yes/0 empty 0x0/ | none
series-parallel -b f | f: 1 2/1 1/ | 0 | binary series-parallel: yes/ | none
series-parallel -b f | f: 3 3/1 1 0/0 1 1/1 0 1/ | 1 | binary series-parallel: no/rest rows 1 2 3 columns 1 2 3/ | none
series-parallel -R e -S e -N e f | f: 3 3/1 1 0/0 1 1/1 0 1/ | 1 | series-parallel: no/rest rows 1 2 3 columns 1 2 3/minimal rows 1 2 3 columns 1 2 3/ | e: 3 3 3 3/1 2 3/1 2 3/
series-parallel -N n f | f: 3 3/1 1 0/0 1 1/1 0 -1/ | 1 | series-parallel: no/rest rows 1 2 3 columns 1 2 3/minimal rows 1 2 3 columns 1 2 3/ | n: 3 3 3 3/1 2 3/1 2 3/
graphic -N n f | f: 4 6/1 1 1 0 0 0/1 0 0 1 1 0/0 1 0 1 0 1/0 0 1 0 1 1/ | 0 | graphic: yes/ | n: as before
network f | f: 3 3/1 1 0/0 1 1/1 0 -1/ | 0 | network: yes/ | none
network -t f | f: 3 3/1 1 0/0 1 1/1 0 -1/ | 0 | conetwork: yes/ | none
network -N n f | f: 7 7/1 1 0 0 0 0 0/1 0 1 0 0 0 0/1 0 0 1 0 0 0/1 1 1 1 0 0 0/0 0 0 0 1 1 0/0 0 0 0 0 1 1/0 0 0 0 1 0 -1/ | 1 | network: no/minimal rows 1 2 3 4 columns 1 2 3 4/ | n: 7 7 4 4/1 2 3 4/1 2 3 4/
regular -C c -D t f | f: 5 5/1 1 1 1 1/1 1 1 0 0/1 0 1 1 0/1 0 0 1 1/1 1 0 0 1/ | 0 | regular: yes/0 r10 5x5/ | c: as before; t: cmr-tree 2/5 5/r10 5 5 1 2 3 4 5 1 2 3 4 5/
regular --lines 3 -C c f | f: 4 4/1 1 0 0/1 0 1 0/1 0 0 1/1 1 1 1/ | 6 | regular: undecided/open rows 1 2 3 4 columns 1 2 3 4/0 undecided 4x4/ | c: as before
generate twosum 2 7 -w 3 | none | 0 | generated twosum 9x9 nonzeros 33/totally unimodular: yes/0 twosum 9x9/1 r10 5x5/1 r10 5x5/ | none
check f t | f: 2 2/1 1/1 -1/; t: cmr-tree 2/2 2/cycle 2 2 1 2 1 2/2 2 1 2 1 2/ | 1 | accepted: no/violator rows 1 2 columns 1 2 sum 2/ | none
check f t | f: 2 2/1 1/1 -1/; t: cmr-tree 2/2 2/undecided 2 2 1 2 1 2/ | 6 | accepted: undecided/open rows 1 2 columns 1 2/ | none
check f t | f: 3 3/1 0 0/0 1 0/0 0 1/; t: cmr-tree 2/3 3/onesum 3 3 1 2 3 1 2 3/2/onesum 2 2 1 2 1 2/2/undecided 1 1 1 1/empty 1 1 2 2/undecided 1 1 3 3/ | 7 | refused: 1.2 NotEmpty/ | none
check f e | f: 2 2/1 1/1 1/; e: 2 2 2 2/1 2/1 2/ | 7 | refused: root NotViolator/ | none
check f c | f: 3 4/1 1 0 1/1 0 1 1/0 1 1 1/; c: cmr-chain 1/3 4 9/free 1 1/free 1 2/free 1 4/free 2 1/forced 2 4 2 2 1 2 1 4/free 2 3/free 3 2/forced 3 3 3 3 1 2 3 1 2 3/forced 3 4 2 2 1 3 2 4/violator 2 2 2 3 3 4/ | 1 | accepted: not regular/violator rows 2 3 columns 3 4 sum 2/ | none
upgrade -D t f | f: cmr-tree 2 +2 02 undecided 2 2 1 2 1 2 | 0 | upgraded: 1 nodes/ | t: cmr-tree 2/2 2/undecided 2 2 1 2 1 2/
camion -E e f | f: 4 4/1 1 0 0/1 0 1 0/1 0 0 1/1 1 1 1/ | 0 | camion: yes/ | e: as before
balanced -E e f | f: 4 4/1 1 0 0/1 0 1 0/1 0 0 1/1 1 1 1/ | 0 | balanced: yes/ | e: as before
balanced --lines 3 f | f: 4 4/1 1 0 0/1 0 1 0/1 0 0 1/1 1 1 1/ | 6 | balanced: undecided/open rows 1 2 3 4 columns 1 2 3 4/ | none
sign f s | f: 2 2/1 0/0 1/; s: 2 2 0 0/// | 0 | signed: yes/ | none
compose one f s -M m | f: 1 1/1/; s: 1 1/-1/ | 0 | composed 2x2 nonzeros 2/ | m: 2 2/1 0/0 -1/
tu f | f: 2 2/ | 3 | cmr: f: Short at byte 4/ | none
tu | -:  | 3 | cmr: -: Short at byte 0/ | none
tu f | f: 1 1/1 0/ | 3 | cmr: f: Extra at byte 6/ | none
tu f | f: 1001 1/ | 3 | cmr: f: TooManyRows at byte 0/ | none
tu f | f: 1 1001/ | 3 | cmr: f: TooManyColumns at byte 2/ | none
tu f | f: 99999999999 1/ | 3 | cmr: f: TooBig at byte 0/ | none
tu f | f: 1 1/x/ | 3 | cmr: f: NotNumber at byte 4/ | none
tu -i sparse f | f: 2 2 2/1 1 1/1 1 -1/ | 3 | cmr: f: TwiceNamed at byte 14/ | none
tu -i sparse f | f: 2 2 1/3 1 1/ | 3 | cmr: f: RowOutOfRange at byte 6/ | none
tu -i sparse f | f: 2 2 1/1 0 1/ | 3 | cmr: f: ColumnOutOfRange at byte 8/ | none
graphic -t f | f: 1 2/1 -1/ | 3 | cmr: f: NotBinary at byte 6/ | none
series-parallel -b f | f: 2 2/1 0/0 -1/ | 3 | cmr: f: NotBinary at byte 10/ | none
regular f | f: 1 2/1 -1/ | 3 | cmr: f: NotBinary at byte 6/ | none
check f e | f: 2 2/1 1/1 -1/; e: 3 2 0 0/ | 3 | cmr: e: OtherSize at byte 0/ | none
check f t | f: 1 0//; t: cmr-tree 3/1 0/ | 3 | cmr: t: WrongVersion at byte 9/ | none
check f t | f: 4 4/1 1 0 0/1 0 0 0/1 0 1 1/0 1 -1 0/; t: cmr-tree 1/4 4/concentrated 4 4 1 2 3 4 1 2 3 4/ | 3 | cmr: t: UnknownKind at byte 15/ | none
check f c | f: 1 2/1 -1/; c: cmr-chain 2/ | 3 | cmr: f: NotBinary at byte 6/ | none
upgrade f -D t | f: cmr-chain 1/ | 3 | cmr: f: WrongVersion at byte 0/ | t: as before
sign f s | f: 2 2/1 0/0 1/; s: 2 2 1 0/3// | 3 | cmr: s: RowOutOfRange at byte 8/ | none
graphic -c f | f: 0 1 r1/0 2 r2/ 3 c1 | 3 | cmr: f: NotNumber at byte 17/ | none";

const REFUSED_WORDS: &str = "\
''
f
rank f
--help
tu -h
tu f -E e f
tu - -
tu -t -E e f
tu -i
tu -i square -E e f
tu -i dense -i dense f
tu --lines 25 -E e f
tu --lines -1 f
tu --pivots 101 -E e f
regular --pivots -1 -E e f
tu --lin 3 -E e f
tu -E -
tu -E e -E e f
regular -w 65 -E e f
series-parallel -E e f
graphic -b f
graphic -c -t f
network -E e f
generate network 0 7 -M e
generate twosum 250 7 -M e
check f
upgrade f
sign f
camion --lines 3 -E e f
balanced -t -E e f
balanced --pivots 20 --pivots 20 -E e f
parts f f -A e
compose three f f -M e
compose two f f";
