// Whether a line is reducible.
ghost use Rattle.std.specs.Prelude.{◌≡◌, ◌<◌, is_some};
ghost use Rattle.std.specs.List.{list_any};
ghost use Rattle.cmr_base.specs.Matrix.{height, entry};
ghost use Rattle.cmr_base.specs.LineSets.{AllBelow};
ghost use Rattle.cmr_base.specs.Reductions.{line_reason, HasLine};
ghost use Rattle.sp_reduce.specs.LineKinds.{count_of_kind, cross_size, table, reason_for, is_twin};

use crate::kind::{LineKind, are_equal, are_opposite, count_nonzeros};
use cmr_base::{Line, LineSet, Matrix};

/// Whether the line is reducible among these lines: it has at most one nonzero in the lines that it crosses, or it equals
/// another line of its kind, or it is the negative of another line of its kind. With `binary` negatives do not count.
pub fn is_reducible_line(matrix: &Matrix, lines: &LineSet, line: Line, binary: bool) -> bool
    requires rows { AllBelow (height matrix.now) lines.now.rows }
    requires columns { AllBelow matrix.now.width lines.now.columns }
    requires line { HasLine lines.now.rows lines.now.columns line }
    ensures { result ≡ is_some (line_reason binary (entry matrix.now) lines.now.rows
        lines.now.columns line) }
{
    let rows = lines.rows.as_slice();
    let columns = lines.columns.as_slice();
    match line {
        Line::Row(row) => is_reducible(matrix, LineKind::Rows, row, rows, columns, binary),
        Line::Column(column) => is_reducible(
            matrix,
            LineKind::Columns,
            column,
            columns,
            rows,
            binary,
        ),
    }
}

fn is_reducible(
    matrix: &Matrix,
    kind: LineKind,
    line: u32,
    own: &[u32],
    across: &[u32],
    binary: bool,
) -> bool
    requires line { line < count_of_kind matrix.now kind }
    requires own { AllBelow (count_of_kind matrix.now kind) own.now }
    requires across { AllBelow (cross_size matrix.now kind) across.now }
    ensures { result ≡ is_some (reason_for binary (entry matrix.now) kind own.now across.now line) }
{
    count_nonzeros(matrix, kind, line, across) <= 1
        || has_twin(matrix, kind, line, own, across, binary)
}

fn has_twin(
    matrix: &Matrix,
    kind: LineKind,
    line: u32,
    own: &[u32],
    across: &[u32],
    binary: bool,
) -> bool
    requires line { line < count_of_kind matrix.now kind }
    requires own { AllBelow (count_of_kind matrix.now kind) own.now }
    requires across { AllBelow (cross_size matrix.now kind) across.now }
    ensures { result ≡ list_any
        (is_twin binary (table (entry matrix.now) kind) across.now line)
        own.now }
{
    'twins: for twin in own {
        if is_twin(matrix, kind, line, *twin, across, binary) {
            return true;
        }
    }
    false
}

// Whether it is another line that equals this one, or is its negative.
pub fn is_twin(
    matrix: &Matrix,
    kind: LineKind,
    line: u32,
    twin: u32,
    across: &[u32],
    binary: bool,
) -> bool
    requires line { line < count_of_kind matrix.now kind }
    requires twin { twin < count_of_kind matrix.now kind }
    requires across { AllBelow (cross_size matrix.now kind) across.now }
    ensures { result ≡ is_twin binary (table (entry matrix.now) kind) across.now line twin }
{
    twin != line
        && (are_equal(matrix, kind, line, twin, across)
            || !binary && are_opposite(matrix, kind, line, twin, across))
}
