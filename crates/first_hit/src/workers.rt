// The number of workers.
ghost use Rattle.std.specs.Prelude.{◌≡◌, ◌≤◌};

/// The number of workers that share a search: 1 to 64. The answer does not depend on it.
#[derive(Clone, Copy, Debug)]
pub struct Workers {
    number: u32,
    ghost some: { (1 ≤ number) × (number ≤ 64) },
}

impl Workers {
    /// The given number of workers.
    pub fn new(number: u32) -> Workers
        requires { (1 ≤ number) × (number ≤ 64) }
        ensures { result.number ≡ number }
    {
        Workers { number }
    }

    /// The number of workers.
    pub fn number(self) -> u32
        ensures { result ≡ self.number }
    {
        self.number
    }
}
