// The limits of a search.
ghost use Rattle.std.specs.Prelude.{◌≡◌, ◌≤◌};
ghost use Rattle.cmr_base.specs.declared.limits.TheConstants.{MAX_LINES};

use cmr_base::MAX_LINES;
use first_hit::Workers;

/// The maximum number of lines on the shorter side of a matrix whose line sets are enumerated, and the number of workers.
#[derive(Clone, Copy, Debug)]
pub struct SearchLimits {
    lines: u32,
    workers: Workers,
    ghost few_lines: { lines ≤ MAX_LINES },
}

impl SearchLimits {
    /// The limits with this number of lines and these workers.
    pub fn new(lines: u32, workers: Workers) -> SearchLimits
        requires { lines ≤ MAX_LINES }
        ensures lines { result.lines ≡ lines }
        ensures workers { result.workers ≡ workers }
    {
        SearchLimits { lines, workers }
    }

    /// The number of lines.
    pub fn lines(self) -> u32
        ensures { result ≡ self.lines }
    {
        self.lines
    }

    /// The number of workers.
    pub fn workers(self) -> Workers
        ensures { result ≡ self.workers }
    {
        self.workers
    }
}
