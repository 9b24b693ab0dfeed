// A round of the search: a range of numbers that the workers share.
ghost use Rattle.std.specs.Prelude.{◌≡◌, ◌<◌, ◌≤◌, ◌+◌, ◌*◌, ◌^◌, IfOk};

use crate::probe::Probe;
use crate::workers::Workers;
use cmr_base::Memory;
use std::alloc::Global;

/// The numbers from `from` to below `to`, in rows of runs. A row has one run for each worker, in the workers' order.
/// The rows cover the range.
#[derive(Clone, Copy)]
pub struct Round {
    pub from: u64,
    pub to: u64,
    pub workers: u64,
    pub run: u64,
    pub rows: u64,
    ghost ordered: { from ≤ to },
    ghost some_workers: { (1 ≤ workers) × (workers ≤ 64) },
    ghost some_run: { (1 ≤ run) × (run ≤ 2 ^ 32) },
    ghost few_rows: { rows ≤ 256 },
    ghost covered: { to ≤ from + rows * workers * run },
}

impl Round {
    ghost use Rattle.first_hit.specs.WorkerRuns.{IsFirstInRuns};

    /// The round from a number on with at most `rows` rows. If few numbers remain, the runs are shorter, so that each
    /// worker has a run.
    pub fn new(from: u64, total: u64, workers: Workers, run: u64, rows: u64) -> Round
        requires left { from < total }
        requires run { (1 ≤ run) × (run ≤ 2 ^ 32) }
        requires rows { (1 ≤ rows) × (rows ≤ 256) }
        ensures from { result.from ≡ from }
        ensures workers { result.workers ≡ workers.number }
        ensures goes_on { from < result.to }
        ensures to { result.to ≤ total }
    {
        let workers = u64::from(workers.number());
        let left = total - from;
        let run = run.min((left - 1) / workers + 1);
        let size = left.min(rows * workers * run);
        Round {
            from,
            to: from + size,
            workers,
            run,
            rows,
        }
    }

    /// The least number in the runs of one worker that satisfies the predicate.
    pub fn first_of_worker<P: Probe>(
        &self,
        alloc: Global,
        worker: u64,
        probe: &P,
    ) -> Result<Option<u64>, Memory>
        requires { worker < self.now.workers }
        ensures { IfOk result (IsFirstInRuns (P.holds probe.now) self.now worker (worker + 1)) }
    {
        for row in 0..self.rows {
            let start = (row * self.workers + worker) * self.run;
            let size = self.to - self.from;
            if start < size {
                let end = size.min(start + self.run);
                if let Some(index) = probe.first(alloc, self.from + start, self.from + end)? {
                    return Ok(Some(index));
                }
            }
        }
        Ok(None)
    }
}
