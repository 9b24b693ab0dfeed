// The text of a reply.
ghost use Rattle.std.specs.Prelude.{◌≡◌, ◌++◌, IfOk, OnOk};
ghost use Rattle.frames.specs.NamedFiles.{files_text};
ghost use Rattle.frames.specs.ReplyViews.{reply_value};
ghost use Rattle.frames.specs.Replies.{reply_text};

use crate::written_file::WrittenFile;
use cmr_base::Memory;
use netstrings::Row;
use std::alloc::Global;

/// What a run gave: its status, its standard output and standard error, and the files that it wrote.
#[derive(Clone, Copy)]
pub struct Reply<'a> {
    pub status: u8,
    pub output: &'a [u8],
    pub error: &'a [u8],
    pub files: &'a [WrittenFile],
}

/// The text of a reply: one netstring, which contains those of the status, of standard output, of standard error, and of the name and the
/// bytes of each file.
pub fn write_reply(alloc: Global, reply: &Reply<'_>) -> Result<Vec<u8>, Memory>
    ensures { IfOk result (λ text. text.items ≡ reply_text (reply_value reply.now)) }
{
    let mut row = Row::new(alloc);
    row.add_number(reply.status)?;
    row.add(reply.output)?;
    row.add(reply.error)?;
    add_files(&mut row, reply.files)?;
    let mut whole = Row::new(alloc);
    whole.add(row.bytes())?;
    Ok(whole.into_bytes())
}

// The name and the bytes of each file, as netstrings.
fn add_files(row: &mut Row, files: &[WrittenFile]) -> Result<(), Memory>
    ensures { OnOk result (row.new ≡ row.old ++ files_text files.now) }
{
    for file in files {
        row.add(file.name().as_bytes())?;
        row.add(file.bytes())?;
    }
    Ok(())
}
