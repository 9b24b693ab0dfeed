// The expected state after a run, including a run in which a call of a device failed.
use crate::given::{Run, UNTOUCHED, add, bytes, heading};
use std::alloc::Global;
use std::test::Fail;

/// Where a run stops: at a name that cannot be read; at a name that cannot be written, which has got a number of bytes, or
/// is not begun; after a number of bytes on standard output; or after a number of bytes on standard error, which stops
/// nothing else.
#[derive(Clone, Copy)]
pub enum Stop<'a> {
    Reading(&'a str),
    Writing(&'a str, Option<usize>),
    Printing(usize),
    Telling(usize),
}

fn due_status<'a>(run: &Run<'a>, stop: &Option<Stop<'_>>) -> &'a str {
    match stop {
        None | Some(Stop::Telling(_)) => run.status,
        Some(_) => "4",
    }
}

fn due_output(alloc: Global, run: &Run<'_>, stop: &Option<Stop<'_>>) -> Result<Vec<u8>, Fail> {
    let mut output = bytes(alloc, run.output())?;
    match stop {
        None | Some(Stop::Telling(_)) => {}
        Some(Stop::Printing(got)) => output.truncate(*got),
        Some(Stop::Reading(_) | Stop::Writing(_, _)) => output.clear(),
    }
    Ok(output)
}

// Standard error gets its line as far as it has room.
fn due_line(
    alloc: Global,
    run: &Run<'_>,
    stop: &Option<Stop<'_>>,
    room: usize,
) -> Result<Vec<u8>, Fail> {
    let mut line = match stop {
        None | Some(Stop::Telling(_)) => bytes(alloc, run.error_line())?,
        Some(Stop::Reading(name)) => bytes(alloc, &format!(in alloc; "cmr: cannot read {name}/")?)?,
        Some(Stop::Writing(name, _)) => bytes(
            alloc,
            &format!(in alloc; "cmr: cannot write {name}/")?,
        )?,
        Some(Stop::Printing(_)) => bytes(alloc, "cmr: cannot write -/")?,
    };
    line.truncate(match stop {
        Some(Stop::Telling(got)) => *got,
        _ => room,
    });
    Ok(line)
}

// Adds the files: the files before the one that could not be written are whole, and the files after it are unchanged.
fn add_due_files(
    alloc: Global,
    text: &mut Vec<u8>,
    run: &Run<'_>,
    stop: &Option<Stop<'_>>,
) -> Result<(), Fail> {
    let mut is_ended = matches!(stop, Some(Stop::Reading(_)));
    for file in run.after.split("; ") {
        if let Some((name, whole)) = file.split_once(": ") {
            let mut due = bytes(alloc, if is_ended { UNTOUCHED } else { whole })?;
            if let Some(Stop::Writing(at, got)) = stop
                && *at == name
            {
                is_ended = true;
                match got {
                    Some(got) => due.truncate(*got),
                    None => due = bytes(alloc, UNTOUCHED)?,
                }
            }
            add(text, name.as_bytes())?;
            add(text, &due)?;
        }
    }
    Ok(())
}

/// The state after a run that stops there, as the text of `found_text`. Standard error has room for `error_room` bytes.
pub fn due_text(
    alloc: Global,
    run: &Run<'_>,
    stop: &Option<Stop<'_>>,
    error_room: usize,
) -> Result<Vec<u8>, Fail> {
    let mut text = heading(alloc, due_status(run, stop))?;
    add(&mut text, &due_output(alloc, run, stop)?)?;
    add(&mut text, &due_line(alloc, run, stop, error_room)?)?;
    add_due_files(alloc, &mut text, run, stop)?;
    Ok(text)
}
