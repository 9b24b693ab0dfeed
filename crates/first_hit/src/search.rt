// Rounds of workers.
ghost use Rattle.std.specs.Prelude.{◌≡◌, ◌<◌, ◌≤◌, ◌+◌, IfOk};
ghost use Rattle.std.specs.Thread.{IsSync};
ghost use Rattle.first_hit.specs.First.{IsFirst};
ghost use Rattle.first_hit.specs.WorkerRuns.{IsFirstInRuns, lesser};

use crate::probe::Probe;
use crate::round::Round;
use crate::workers::Workers;
use cmr_base::Memory;
use std::alloc::Global;
use std::thread::{Threads, join};

/// The largest number of rows of a round. It bounds the time from a hit at the start of a round to the end of the
/// round.
const MOST_ROWS: u64 = 256;

/// The least number below `total` that satisfies the predicate, and `None` if and only if there is none. The answer
/// does not depend on the number of workers. The workers search rounds of increasing length, so that they find a small
/// number early. Each worker has runs from all parts of a round, so that all workers need about the same time.
pub fn first_hit<R: Threads + Sync, P: Probe>(
    rt: &R,
    alloc: Global,
    workers: Workers,
    total: u64,
    probe: &P,
) -> Result<Option<u64>, Memory>
    ensures { IfOk result (IsFirst (P.holds probe.now) 0 total) }
{
    if workers.number() == 1 {
        return probe.first(alloc, 0, total);
    }
    let run = probe.run();
    let mut from = 0u64;
    let mut rows = 1u64;
    while from < total {
        let round = Round::new(from, total, workers, run, rows);
        match first_of_workers(rt, alloc, round, 0, round.workers, probe)? {
            Some(index) => return Ok(Some(index)),
            None => from = round.to,
        }
        rows = more_rows(rows);
    }
    Ok(None)
}

fn more_rows(rows: u64) -> u64
    requires { (1 ≤ rows) × (rows ≤ 256) }
    ensures { (1 ≤ result) × (result ≤ 256) }
{
    if 2 * rows <= MOST_ROWS {
        2 * rows
    } else {
        rows
    }
}

// The least number in the runs of the workers from `low` to below `high` that satisfies the predicate.
fn first_of_workers<R: Threads + Sync, P: Probe>(
    rt: &R,
    alloc: Global,
    round: Round,
    low: u64,
    high: u64,
    probe: &P,
) -> Result<Option<u64>, Memory>
    requires some { low < high }
    requires workers { high ≤ round.workers }
    ensures { IfOk result (IsFirstInRuns (P.holds probe.now) round low high) }
{
    if high - low == 1 {
        return round.first_of_worker(alloc, low, probe);
    }
    let middle = low + (high - low) / 2;
    let (prefix, back) = join(
        rt,
        || -> Result<Option<u64>, Memory>
            requires shared { IsSync R.row }
            requires some { low < middle }
            requires workers { middle ≤ round.workers }
            ensures { IfOk result (IsFirstInRuns (P.holds probe.entry.now) round low middle) }
        { first_of_workers(rt, alloc, round, low, middle, probe) },
        || -> Result<Option<u64>, Memory>
            requires shared { IsSync R.row }
            requires some { middle < high }
            requires workers { high ≤ round.workers }
            ensures { IfOk result (IsFirstInRuns (P.holds probe.entry.now) round middle high) }
        { first_of_workers(rt, alloc, round, middle, high, probe) },
    );
    let prefix = prefix?;
    let back = back?;
    Ok(lesser(prefix, back))
}

fn lesser(one: Option<u64>, two: Option<u64>) -> Option<u64>
    ensures { result ≡ lesser one two }
{
    let Some(first) = one else {
        return two;
    };
    match two {
        Some(second) => Some(first.min(second)),
        None => Some(first),
    }
}
