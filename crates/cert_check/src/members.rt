// Membership of lines in sets.
ghost use Rattle.std.specs.Prelude.{◌↔◌, IsTrue, Contains};

use cmr_base::Indices;
use tree_type::has_line;

/// Whether a set has a line.
pub fn is_in(set: &Indices, line: u32) -> bool
    ensures { IsTrue result ↔ Contains set.now line }
{
    has_line(set, line)
}
