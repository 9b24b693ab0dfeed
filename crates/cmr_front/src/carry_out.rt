// Carrying out the decision of a tool.
ghost use Rattle.std.specs.Prelude.{◌≡◌, ◌≢◌, ◌≤◌, ◌<◌, ◌⊎◌, ℕ, List, [], ◌∷◌, IfErr, IsOk, IsTrue, OnErr, OnOk, length, map, slice_get, take};
ghost use Rattle.cmr_io.specs.Causes.{HasCause, Rose};
ghost use Rattle.cmr_io.specs.Kept.{IsFaultCounted, KeepsStanding};
ghost use Rattle.cmr_io.specs.Log.{log_with};
ghost use Rattle.cmr_io.specs.Whole.{StaysOrHoldsPrefix};
ghost use Rattle.cmr_front.specs.Report.{File, after_files, with_file, with_files};
ghost use Rattle.cmr_front.specs.Status.{answer_status, failure_status};
ghost use Rattle.cmr_front.specs.declared.status.Failure.TheVariants.{Device};
ghost use Rattle.cmr_front.specs.Ending.{devices, standing, telling_of, CarriesOut, HasRooms, IsBegunLast, IsCarriedOut, IsLeftAt, IsReadyFor};
ghost use Rattle.cmr_front.specs.Outcome.{ended_report, file_of, outcome_report, stop_report};

use crate::error_lines::{write_cannot_write, write_stop};
use crate::outcome::{Outcome, OutputFile, Stop};
use crate::status::Failure;
use cmr_io::{Shelf, Sink, WriteFault, write_file, write_whole};

/// Writes the outcome, or the line that says why there is none, and returns the status.
pub fn carry_out<S: Shelf, O: Sink, E: Sink>(
    ended: &Result<Outcome<'_>, Stop<'_>>,
    shelf: &mut S,
    out: &mut O,
    err: &mut E,
) -> u8
    ensures carried_out { CarriesOut ended.now
        (telling_of (standing S.Shelf O.Sink E.Sink shelf.old out.old err.old))
        (devices S.Shelf O.Sink E.Sink shelf.old out.old err.old)
        (devices S.Shelf O.Sink E.Sink shelf.new out.new err.new)
        result }
    ensures status { (result ≡ (ended_report ended.now).status)
        ⊎ ((result ≡ failure_status Device)
        × (Rose (S.faults shelf.old) (S.faults shelf.new)
        ⊎ Rose (O.faults out.old) (O.faults out.new))) }
    ensures ready { IsReadyFor
        (ended_report ended.now)
        (standing S.Shelf O.Sink E.Sink shelf.old out.old err.old)
        → result ≡ (ended_report ended.now).status }
    ensures stopped { IfErr ended.now (λ stop. result ≡ (stop_report stop).status) }
    ensures reads { S.reads shelf.new ≡ S.reads shelf.old }
    ensures failed { OnErr ended.now (S.failed shelf.new ≡ S.failed shelf.old) }
    ensures later { S.faults shelf.old ≤ S.faults shelf.new }
{
    match ended {
        Ok(outcome) => deliver(outcome, shelf, out, err),
        Err(stop) => {
            write_stop(err, stop);
            stop.failure().status()
        }
    }
}

fn deliver<S: Shelf, O: Sink, E: Sink>(
    outcome: &Outcome<'_>,
    shelf: &mut S,
    out: &mut O,
    err: &mut E,
) -> u8
    ensures carried_out { IsCarriedOut
        (outcome_report outcome.now)
        (telling_of (standing S.Shelf O.Sink E.Sink shelf.old out.old err.old))
        (devices S.Shelf O.Sink E.Sink shelf.old out.old err.old)
        (devices S.Shelf O.Sink E.Sink shelf.new out.new err.new)
        result }
    ensures status { (result ≡ answer_status outcome.now.answer)
        ⊎ ((result ≡ failure_status Device)
        × (Rose (S.faults shelf.old) (S.faults shelf.new)
        ⊎ Rose (O.faults out.old) (O.faults out.new))) }
    ensures ready { IsReadyFor
        (outcome_report outcome.now)
        (standing S.Shelf O.Sink E.Sink shelf.old out.old err.old)
        → result ≡ answer_status outcome.now.answer }
    ensures reads { S.reads shelf.new ≡ S.reads shelf.old }
    ensures later { S.faults shelf.old ≤ S.faults shelf.new }
{
    if let Err(Unwritten { place }) = write_files(shelf, &outcome.files) {
        write_cannot_write(err, outcome.files[place].name);
        return Failure::Device.status();
    }
    match write_whole(out, &outcome.output) {
        Ok(()) => outcome.answer.status(),
        Err(WriteFault) => {
            write_cannot_write(err, "-");
            Failure::Device.status()
        }
    }
}

/// The place of the file that could not be written.
#[derive(Clone, Copy, Debug)]
struct Unwritten {
    place: usize,
}

fn write_files<S: Shelf>(shelf: &mut S, files: &[OutputFile<'_>]) -> Result<(), Unwritten>
    ensures whole { OnOk result (IsTrue (S.tells shelf.old) → (name : List ℕ)
        → S.content shelf.new name
        ≡ with_files (S.content shelf.old) (map file_of files.now) name) }
    ensures left { IfErr result (λ e. (file : File)
        × (slice_get (map file_of files.now) e.place ≡ Some file)
        × (IsTrue (S.tells shelf.old)
        → IsLeftAt (map file_of files.now) e.place file (S.content shelf.old)
        (S.content shelf.new))
        × IsBegunLast (map file_of files.now) e.place file (S.writes shelf.old)
        (S.writes shelf.new)) }
    ensures within { IfErr result (λ e. e.place < length files.now) }
    ensures writes { OnOk result (S.writes shelf.new
        ≡ after_files (S.writes shelf.old) (map file_of files.now)) }
    ensures failed { OnErr result (IsTrue (S.failed shelf.new)) }
    ensures ready { IsTrue (S.is_calm shelf.old)
        → HasRooms (S.room shelf.old) (map file_of files.now) → IsOk result }
    ensures reads { S.reads shelf.new ≡ S.reads shelf.old }
    ensures cause { HasCause (S.faults shelf.old) (S.faults shelf.new) result }
{
    for place in 0..files.len() {
        if let Err(WriteFault) = write_output_file(shelf, &files[place]) {
            return Err(Unwritten { place });
        }
    }
    Ok(())
}

fn write_output_file<S: Shelf>(shelf: &mut S, file: &OutputFile<'_>) -> Result<(), WriteFault>
    ensures whole { OnOk result (IsTrue (S.tells shelf.old) → (name : List ℕ)
        → S.content shelf.new name ≡ with_file (S.content shelf.old) (file_of file.now) name) }
    ensures prefix { OnErr result (IsTrue (S.tells shelf.old)
        → StaysOrHoldsPrefix (S.content shelf.old file.now.name.now)
        (S.content shelf.new file.now.name.now) file.now.bytes.items) }
    ensures others { IsTrue (S.tells shelf.old) → (other : List ℕ) → other ≢ file.now.name.now
        → S.content shelf.new other ≡ S.content shelf.old other }
    ensures ready { IsTrue (S.is_calm shelf.old)
        → HasRooms (S.room shelf.old) (file_of file.now ∷ []) → IsOk result }
    ensures reads { S.reads shelf.new ≡ S.reads shelf.old }
    ensures writes { OnOk result (S.writes shelf.new
        ≡ log_with (S.writes shelf.old) file.now.name.now file.now.bytes.items) }
    ensures begun { OnErr result ((count : ℕ) × (S.writes shelf.new
        ≡ log_with (S.writes shelf.old) file.now.name.now (take count file.now.bytes.items))) }
    ensures standing { KeepsStanding S.tells S.is_calm S.room shelf.old shelf.new }
    ensures counted { IsFaultCounted S.failed S.faults shelf.old shelf.new result }
{
    write_file(shelf, file.name, &file.bytes)
}
