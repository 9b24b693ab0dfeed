ghost use Rattle.std.specs.Prelude.{◌≡◌, ◌<◌, None, Some};
ghost use Rattle.std.specs.Option.{ForSome};
ghost use Rattle.cmr_io.specs.Limit.{up_to};

/// The largest number of bytes that one call takes or gives, if there is such a limit.
#[derive(Clone, Copy, Debug)]
pub struct Limit {
    most: Option<usize>,
    ghost positive: { ForSome most (λ bytes. 0 < bytes) },
}

impl Limit {
    /// No limit.
    pub fn none() -> Self
        ensures { result.most ≡ None }
    {
        Limit { most: None }
    }

    /// A limit of `bytes` bytes.
    pub fn at_most(bytes: usize) -> Self
        requires { 0 < bytes }
        ensures { result.most ≡ Some bytes }
    {
        Limit { most: Some(bytes) }
    }

    /// The lesser of `bytes` and the limit.
    pub fn of(&self, bytes: usize) -> usize
        ensures { result ≡ up_to self.now.most bytes }
    {
        match self.most {
            Some(most) => bytes.min(most),
            None => bytes,
        }
    }
}
