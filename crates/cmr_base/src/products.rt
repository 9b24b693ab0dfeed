ghost use Rattle.std.specs.Prelude.{◌≡◌, ◌*ℤ◌};
ghost use Rattle.cmr_base.specs.Matrix.{IsEntry};
ghost use Rattle.cmr_base.specs.Signing.{IsSign};

/// The product of two entries.
pub fn product(first: i8, second: i8) -> i8
    requires first { IsEntry first }
    requires second { IsEntry second }
    ensures value { result ≡ first *ℤ second }
    ensures small { IsEntry result }
    ensures sign { IsSign first → IsSign second → IsSign result }
{
    first * second
}
