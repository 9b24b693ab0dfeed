ghost use Rattle.std.specs.Prelude.{◌≡◌, ◌≤◌, ◌<◌, IfOk, OnErr, length, take};
ghost use Rattle.std.specs.Io.KnownBytes.{Keeps, Appends, Consumes, IsAtEnd};
ghost use Rattle.cmr_io.specs.Causes.{HasCause};
ghost use Rattle.cmr_io.specs.Calls.{counted};
ghost use Rattle.cmr_io.specs.Pieces.{TakesPrefix};

use crate::device::Failed;
use crate::fault_count::FaultCount;
use std::io::{ErrorKind, Read, Write};

/// Reads once, and counts a fault of the system.
pub fn read_counted<R: Read>(
    reader: &mut R,
    into: &mut [u8],
    faults: &mut FaultCount,
) -> Result<usize, Failed>
    ensures within { IfOk result (λ count. count ≤ length into.new) }
    ensures given { IfOk result (λ count.
        Consumes (R.remaining reader.old) (R.remaining reader.new) (take count into.new)) }
    ensures end { IfOk result (λ count. count ≡ 0 → 0 < length into.new
        → IsAtEnd (R.remaining reader.new)) }
    ensures err { OnErr result (Keeps (R.remaining reader.old) (R.remaining reader.new)) }
    ensures count { faults.new ≡ counted result faults.old }
    ensures cause { HasCause faults.old faults.new result }
{
    for _ in 0..u64::MAX {
        match reader.read(into) {
            Ok(count) => return Ok(count),
            Err(error) if error.kind() == ErrorKind::Interrupted => {}
            Err(_) => return Err(faults.fault()),
        }
    }
    Err(faults.fault())
}

/// Writes once, and counts a fault of the system. A write of some bytes that takes none also counts as a fault.
pub fn write_counted<W: Write>(
    writer: &mut W,
    piece: &[u8],
    faults: &mut FaultCount,
) -> Result<usize, Failed>
    ensures prefix { IfOk result (TakesPrefix piece.now) }
    ensures taken { IfOk result (λ count.
        Appends (W.contents writer.old) (W.contents writer.new) (take count piece.now)) }
    ensures err { OnErr result (Keeps (W.contents writer.old) (W.contents writer.new)) }
    ensures count { faults.new ≡ counted result faults.old }
    ensures cause { HasCause faults.old faults.new result }
{
    if piece.is_empty() {
        return Ok(0);
    }
    for _ in 0..u64::MAX {
        match writer.write(piece) {
            Ok(count) if count > 0 => return Ok(count),
            Err(error) if error.kind() == ErrorKind::Interrupted => {}
            _ => return Err(faults.fault()),
        }
    }
    Err(faults.fault())
}
