// Runs in which a call of a device fails, the first one, the second, and so on until no call does, over devices that give
// and take few bytes a call.
use crate::endings::{Stop, due_text};
use crate::given::{
    Devices, Run, UNTOUCHED, bytes, devices_before, found_text, run_of, run_on, words,
};
use cmr_io::MemorySink;
use std::alloc::{AllocGlobal, Global};
use std::process::Abort;
use std::test::Fail;
use std::thread::Threads;

// The most bytes that a call gives or takes.
const PIECE: usize = 5;

/// The device of which one call fails.
#[derive(Clone, Copy)]
enum Failing {
    Shelf,
    Output,
    Errors,
}

fn pieces(bytes: usize) -> usize {
    bytes.div_ceil(PIECE)
}

// Where the run stops if its call of this number fails, counted from 0, and `None` if it makes fewer calls. A file is
// begun, and read until a call gives nothing.
fn stop_of_shelf<'a>(run: &Run<'a>, call: usize) -> Option<Stop<'a>> {
    let mut left = call;
    for file in run.before.split("; ") {
        if let Some((name, text)) = file.split_once(": ") {
            let calls = pieces(text.len()).saturating_add(2);
            if left < calls {
                return Some(Stop::Reading(name));
            }
            left -= calls;
        }
    }
    stop_of_writing(run, left)
}

// A file is begun, and written.
fn stop_of_writing<'a>(run: &Run<'a>, call: usize) -> Option<Stop<'a>> {
    let mut left = call;
    for file in run.after.split("; ") {
        if let Some((name, text)) = file.split_once(": ") {
            let calls = if text == UNTOUCHED {
                0
            } else {
                pieces(text.len()).saturating_add(1)
            };
            if left < calls {
                return Some(Stop::Writing(name, bytes_before(left)));
            }
            left -= calls;
        }
    }
    None
}

fn bytes_before(call: usize) -> Option<usize> {
    Some(call.checked_sub(1)?.saturating_mul(PIECE))
}

impl Failing {
    // The number of bytes that standard error has got in the run. The number of calls for its line is not fixed.
    fn stop<'a>(self, run: &Run<'a>, call: usize, told: usize) -> Option<Stop<'a>> {
        let bytes = call.saturating_mul(PIECE);
        match self {
            Failing::Shelf => stop_of_shelf(run, call),
            Failing::Output if bytes < run.output().len() => Some(Stop::Printing(bytes)),
            Failing::Errors if told < run.error_line().len() => Some(Stop::Telling(told)),
            Failing::Output | Failing::Errors => None,
        }
    }

    fn fail(self, devices: &mut Devices, call: usize) -> Result<(), Fail> {
        let number = (call as u64).saturating_add(1);
        devices.shelf.take_at_most(PIECE);
        devices.out.take_at_most(PIECE);
        devices.err.take_at_most(PIECE);
        match self {
            Failing::Shelf => devices.shelf.fail_at(number)?,
            Failing::Output => devices.out.fail_at(number)?,
            Failing::Errors => devices.err.fail_at(number)?,
        }
        Ok(())
    }
}

// The state after the run in which this call fails, and the number of bytes that standard error has got.
fn run_where_call_fails<R: Threads + Sync + AllocGlobal>(
    rt: &R,
    run: &Run<'_>,
    failing: Failing,
    call: usize,
    error_room: usize,
) -> Result<(Vec<u8>, usize), Fail> {
    let alloc = rt.alloc();
    let words = words(alloc, run.words)?;
    let mut devices = devices_before(alloc, run, error_room)?;
    failing.fail(&mut devices, call)?;
    let status = run_on(rt, &words, &mut devices);
    let found = found_text(alloc, run, status, &devices)?;
    Ok((found, devices.err.content().len()))
}

fn sweep<R: Threads + Sync + Abort + AllocGlobal>(
    rt: &R,
    run: &Run<'_>,
    failing: Failing,
    error_room: usize,
) -> Result<(), Fail> {
    for call in 0..1000usize {
        let (found, told) = run_where_call_fails(rt, run, failing, call, error_room)?;
        let stop = failing.stop(run, call, told);
        let due = due_text(rt.alloc(), run, &stop, error_room)?;
        assert_eq!(rt; found, due, "of {} at {call}", run.words);
        if stop.is_none() {
            return Ok(());
        }
    }
    Err(Fail::from("a call failed in each of a thousand runs"))
}

// Standard error has room for each line, or for less than any line.
fn sweep_rows<R: Threads + Sync + Abort + AllocGlobal>(rt: &R, table: &str) -> Result<(), Fail> {
    for row in table.split('\n') {
        let run = run_of(row)?;
        sweep(rt, &run, Failing::Errors, 1000)?;
        for error_room in [1000, 7] {
            sweep(rt, &run, Failing::Shelf, error_room)?;
            sweep(rt, &run, Failing::Output, error_room)?;
        }
    }
    Ok(())
}

#[test]
fn decisions(rt: HostRuntime) -> Result<(), Fail> {
    sweep_rows(&rt, DECISIONS)
}

#[test]
fn graphs_and_reductions(rt: HostRuntime) -> Result<(), Fail> {
    sweep_rows(&rt, GRAPHS_AND_REDUCTIONS)
}

#[test]
fn evidence(rt: HostRuntime) -> Result<(), Fail> {
    sweep_rows(&rt, EVIDENCE)
}

#[test]
fn sums(rt: HostRuntime) -> Result<(), Fail> {
    sweep_rows(&rt, SUMS)
}

#[test]
fn stopped_runs(rt: HostRuntime) -> Result<(), Fail> {
    sweep_rows(&rt, STOPPED_RUNS)
}

// The file of -E has room for five bytes.
#[test]
fn a_full_file(rt: HostRuntime) -> Result<(), Fail> {
    let run = run_of("tu -E e f | f: 2 2/1 1/1 -1/ | 4 | cmr: cannot write e/ | e: 2 2 2")?;
    let mut devices = devices_before(rt.alloc(), &run, 1000)?;
    devices.shelf.prepare("e", 5)?;
    ends_so(&rt, &run, &mut devices, "4||cmr: cannot write e/|e|2 2 2|")
}

// Standard output has room for ten bytes.
#[test]
fn full_output(rt: HostRuntime) -> Result<(), Fail> {
    let run = run_of(
        "tu -E e f | f: 2 2/1 1/1 -1/ | 4 | cmr: cannot write -/ | e: 2 2 2 2/1 2/1 2/",
    )?;
    let mut devices = devices_before(rt.alloc(), &run, 1000)?;
    devices.out = MemorySink::new(rt.alloc(), 10)?;
    ends_so(
        &rt,
        &run,
        &mut devices,
        "4|totally un|cmr: cannot write -/|e|2 2 2 2/1 2/1 2/|",
    )
}

fn ends_so<R: Threads + Sync + Abort + AllocGlobal>(
    rt: &R,
    run: &Run<'_>,
    devices: &mut Devices,
    due: &str,
) -> Result<(), Fail> {
    let words = words(rt.alloc(), run.words)?;
    let status = run_on(rt, &words, devices);
    let found = found_text(rt.alloc(), run, status, devices)?;
    assert_eq!(rt; found, bytes(rt.alloc(), due)?);
    Ok(())
}

const DECISIONS: &str = "\
tu -D t -E e f | f: 2 2/1 1/1 -1/ | 1 | totally unimodular: no/violator rows 1 2 columns 1 2 sum 2/0 cycle 2x2/ | t: cmr-tree 2/2 2/cycle 2 2 1 2 1 2/2 2 1 2 1 2/; e: 2 2 2 2/1 2/1 2/
tu -w 2 -D t -E e | -: 2 2/1 0/0 1/ | 0 | totally unimodular: yes/0 reduced 2x2/1 empty 0x0/ | t: cmr-tree 2/2 2/reduced 2 2 1 2 1 2/4 r1 r2 c1 c2/empty 0 0/; e: as before
tu --lines 3 -D t f | f: 4 4/1 1 0 0/1 0 1 0/1 0 0 1/1 1 1 1/ | 6 | totally unimodular: undecided/open rows 1 2 3 4 columns 1 2 3 4/0 undecided 4x4/ | t: cmr-tree 2/4 4/undecided 4 4 1 2 3 4 1 2 3 4/
regular -D t -E e -M s f | f: 3 4/1 1 0 1/1 0 1 1/0 1 1 1/ | 1 | regular: no/violator rows 2 3 columns 3 4 sum 2/0 cycle 3x4/ | t: cmr-tree 2/3 4/cycle 3 4 1 2 3 1 2 3 4/2 2 2 3 3 4/; e: 3 4 2 2/2 3/3 4/; s: 3 4/1 1 0 1/1 0 1 1/0 1 -1 1/
regular -C c f | f: 3 4/1 1 0 1/1 0 1 1/0 1 1 1/ | 1 | regular: no/violator rows 2 3 columns 3 4 sum 2/0 cycle 3x4/ | c: cmr-chain 1/3 4 9/free 1 1/free 1 2/free 1 4/free 2 1/forced 2 4 2 2 1 2 1 4/free 2 3/free 3 2/forced 3 3 3 3 1 2 3 1 2 3/forced 3 4 2 2 1 3 2 4/violator 2 2 2 3 3 4/
camion -E e f | f: 3 3/1 1 0/0 1 1/1 0 1/ | 1 | camion: no/fault rows 1 2 3 columns 1 2 3 sum 6/ | e: 3 3 3 3/1 2 3/1 2 3/
balanced -w 2 -E e f | f: 3 3/1 1 0/0 1 1/1 0 1/ | 1 | balanced: no/fault rows 1 2 3 columns 1 2 3 sum 6/ | e: 3 3 3 3/1 2 3/1 2 3/
generate network 3 7 -M m | none | 0 | generated network 3x3 nonzeros 3/totally unimodular: yes/0 reduced 3x3/1 empty 0x0/ | m: 3 3/-1 0 0/0 1 -1/0 0 0/";

const GRAPHS_AND_REDUCTIONS: &str = "\
series-parallel -N n -S s -R r f | f: 4 4/0 1 1 0/1 0 0 0/0 0 1 1/0 1 0 1/ | 1 | series-parallel: no/rest rows 1 3 4 columns 2 3 4/minimal rows 1 3 4 columns 2 3 4/ | n: 4 4 3 3/1 3 4/2 3 4/; s: r2 unit c1/c1 zero/; r: 4 4 3 3/1 3 4/2 3 4/
graphic -t -N n -G g f | f: 4 6/1 1 1 0 0 0/1 0 0 1 1 0/0 1 0 1 0 1/0 0 1 0 1 1/ | 1 | cographic: no/minimal rows 1 2 3 4 columns 1 2 3 4 5 6/ | n: 4 6 4 6/1 2 3 4/1 2 3 4 5 6/; g: as before
graphic -c f | f: 0 1 r1/2 1 r2/0 2 c1/ | 0 | 2 1/1/1/ | none
network -N n -i sparse f | f: 3 3 6/1 1 1/1 2 1/2 2 1/2 3 1/3 1 1/3 3 1/ | 1 | network: no/minimal rows 1 2 3 columns 1 2 3/ | n: 3 3 3 3/1 2 3/1 2 3/
network -N n -G g f | f: 1 1/1/ | 0 | network: yes/ | n: as before; g: 0 1 r1/0 1 c1/
network -c f | f: 0 1 r1/2 1 r2/0 2 c1/ | 0 | 2 1/1/-1/ | none";

const EVIDENCE: &str = "\
check f t | f: 2 2/1 0/0 1/; t: cmr-tree 2/2 2/reduced 2 2 1 2 1 2/4 r1 r2 c1 c2/empty 0 0/ | 0 | accepted: yes/ | none
check f t | f: 2 2/1 1/1 1/; t: cmr-tree 1/2 2/reduced 2 2 1 2 1 2/4 r1 r2 c1 c2/empty 0 0/ | 7 | refused: root NotReducible/ | none
check f e | f: 2 2/1 1/1 -1/; e: 2 2 2 2/1 2/1 2/ | 1 | accepted: no/violator rows 1 2 columns 1 2 sum 2/ | none
check f c | f: 3 4/1 1 0 1/1 0 1 1/0 1 1 1/; c: cmr-chain 1/3 4 1/free 1 3/violator 0 0/ | 7 | refused: step 1/ | none
upgrade f -D t | f: cmr-tree 1/2 2/reduced 2 2 1 2 1 2/4 r1 r2 c1 c2/empty 0 0/ | 0 | upgraded: 2 nodes/ | t: cmr-tree 2/2 2/reduced 2 2 1 2 1 2/4 r1 r2 c1 c2/empty 0 0/
sign f s | f: 2 2/1 1/0 1/; s: 2 2 2 0/1 2// | 0 | signed: yes/row 1 -/row 2 +/pivot 1 2/aside 2/ | none
sign f s | f: 3 3/1 1 0/0 1 1/1 0 1/; s: 3 3 3 0/1 2 3// | 1 | signed: no/violator rows 1 2 3 columns 1 2 3 sum 6/ | none";

const SUMS: &str = "\
parts f t -A a -B b | f: 4 4/1 1 0 0/1 -1 0 0/0 1 1 1/0 1 1 -1/; t: cmr-tree 2/4 4/twosum 4 4 1 2 3 4 1 2 3 4/3 2 2 2 1 2 1 2/undecided 3 2 1 2 3 1 2/undecided 2 3 3 4 2 3 4/ | 0 | parts: twosum/order rows 3 4 1 2 columns 3 4 1 2/ | a: 2 3/1 1 1/1 -1 1/; b: 3 2/0 1/1 1/1 -1/
parts f t -A a -B b | f: 1 1/1/; t: cmr-tree 2/1 1/undecided 1 1 1 1/ | 7 | refused: root is undecided/ | a: as before; b: as before
compose two f s -M m | f: 2 2/1 1/0 1/; s: 2 2/1 1/1 0/ | 0 | composed 3x3 nonzeros 6/ | m: 3 3/1 1 1/0 1 1/0 1 0/
compose delta f s -M m | f: 2 2/1 1/0 0/; s: 2 2/1 1/1 0/ | 7 | refused: BadConnector/ | m: as before";

// Runs that stop at a name that does not exist, or that refuse their arguments or a text.
const STOPPED_RUNS: &str = "\
tu -x -E e f | none | 2 | cmr: bad command line/ | e: as before
tu -E e f | f: 2 2/1 1/1 -2/ | 3 | cmr: f: BadEntry at byte 10/ | e: as before
check f e | f: 2 2/1 1/1 -1/; e: 2 2 2 2/2 1/1 2/ | 3 | cmr: e: NotRising at byte 10/ | none
tu -D t nofile | none | 4 | cmr: cannot read nofile/ | t: as before
tu -D t -E unprepared f | f: 2 2/1 1/1 -1/ | 4 | cmr: cannot write unprepared/ | t: cmr-tree 2/2 2/cycle 2 2 1 2 1 2/2 2 1 2 1 2/";
