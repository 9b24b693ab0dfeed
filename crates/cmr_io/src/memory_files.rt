ghost use Rattle.std.specs.Prelude.{◌≡◌, ◌≢◌, ◌≤◌, ◌<◌, ◌+◌, ◌-◌, ◌^◌, ◌++◌, [], ℕ, List, false, None, Some, IsTrue, IfNone, IfSome, OnOk, OnErr, length, take, drop, min, unwrap_or, vec_len};
ghost use Rattle.cmr_io.specs.Files.{content_in, room_in, bytes_at, name_at, has_name, is_writable_at, IsFirstFile};
ghost use Rattle.cmr_io.specs.Limit.{taken_by_put, given_by_next};
ghost use Rattle.cmr_io.specs.Writes.{Writes};

use crate::limit::Limit;
use crate::memory_file::{File, with_room};
use std::alloc::{AllocError, Global};

// The index of the first file with the name.
fn find(files: &[File], name: &str) -> Option<usize>
    ensures none { IfNone result (has_name name.now files.now ≡ false) }
    ensures first { IfSome result (λ file. IsFirstFile name.now files.now file) }
    ensures within { IfSome result (λ file. file < length files.now) }
{
    for (index, file) in files.iter().enumerate() {
        if file.is_named(name) {
            return Some(index);
        }
    }
    None
}

/// The index of the first file with the name, if that file exists.
pub fn find_there(files: &[File], name: &str) -> Option<usize>
    ensures none { IfNone result (content_in files.now name.now ≡ None) }
    ensures some { IfSome result (λ file. content_in files.now name.now
        ≡ Some (bytes_at files.now file)) }
    ensures within { IfSome result (λ file. file < length files.now) }
{
    let file = find(files, name)?;
    if files[file].is_there() {
        Some(file)
    } else {
        None
    }
}

/// Gives a name the bytes.
pub fn hold(
    alloc: Global,
    files: &mut Vec<File>,
    name: &str,
    bytes: &[u8],
) -> Result<(), AllocError>
    ensures here { OnOk result (content_in files.new.items name.now ≡ Some bytes.now) }
    ensures others { OnOk result ((other : List ℕ) → other ≢ name.now
        → content_in files.new.items other ≡ content_in files.old.items other) }
    ensures rooms { OnOk result ((other : List ℕ)
        → room_in files.new.items other ≡ room_in files.old.items other) }
    ensures err { OnErr result (files.new.items ≡ files.old.items) }
    ensures len { OnErr result (vec_len files.new ≡ vec_len files.old) }
{
    match find(files, name) {
        Some(file) => {
            let room = files[file].room().unwrap_or(0);
            let held = with_room(alloc, bytes, room)?;
            files[file].hold(held);
        }
        None => files.push(File::holding(alloc, name, bytes)?)?,
    }
    Ok(())
}

/// Gives a name the room.
pub fn prepare(
    alloc: Global,
    files: &mut Vec<File>,
    name: &str,
    room: usize,
) -> Result<(), AllocError>
    ensures here { OnOk result (room_in files.new.items name.now ≡ Some room) }
    ensures others { OnOk result ((other : List ℕ) → other ≢ name.now
        → room_in files.new.items other ≡ room_in files.old.items other) }
    ensures content { OnOk result ((other : List ℕ)
        → content_in files.new.items other ≡ content_in files.old.items other) }
    ensures err { OnErr result (files.new.items ≡ files.old.items) }
    ensures len { OnErr result (vec_len files.new ≡ vec_len files.old) }
{
    match find(files, name) {
        Some(file) => {
            let held = with_room(alloc, files[file].bytes(), room)?;
            files[file].prepare(held, room);
        }
        None => files.push(File::prepared(alloc, name, room)?)?,
    }
    Ok(())
}

/// The bytes of a file.
pub fn bytes_of(files: &[File], file: usize) -> &[u8]
    requires { file < length files.now }
    ensures { result.now ≡ bytes_at files.now file }
{
    files[file].bytes()
}

/// Copies the bytes of a file from an offset on, as far as `into` and the limit allow, and returns their number.
pub fn read_at(files: &[File], file: usize, at: usize, into: &mut [u8], limit: &Limit) -> usize
    requires file { file < length files.now }
    requires at { at ≤ length (bytes_at files.now file) }
    ensures count { result ≡ given_by_next limit.now.most (drop at (bytes_at files.now file))
        into.new }
    ensures copied { take result into.new ≡ take result (drop at (bytes_at files.now file)) }
    ensures end { at + result ≤ length (bytes_at files.now file) }
    ensures fits { at + result < 2 ^ 64 }
{
    let rest = &bytes_of(files, file)[at..];
    let count = limit.of(rest.len().min(into.len()));
    into[..count].copy_from_slice(&rest[..count]);
    count
}

/// Empties a name that has room, and returns the index of its file.
pub fn empty(files: &mut Vec<File>, name: &str) -> Option<usize>
    ensures none { IfNone result (room_in files.old.items name.now ≡ None) }
    ensures stays { IfNone result (files.new.items ≡ files.old.items) }
    ensures len { IfNone result (vec_len files.new ≡ vec_len files.old) }
    ensures room { IfSome result (λ file. room_in files.old.items name.now ≢ None) }
    ensures name { IfSome result (λ file. name_at files.new.items file ≡ name.now) }
    ensures writes { IfSome result (λ file. Writes files.old.items files.new.items file []) }
    ensures within { IfSome result (λ file. file < vec_len files.new) }
{
    let file = find(files, name)?;
    files[file].room()?;
    files[file].empty();
    Some(file)
}

/// Appends as much of the piece to a file as its room and the limit allow, and returns the number of bytes.
pub fn put(files: &mut Vec<File>, file: usize, piece: &[u8], limit: &Limit) -> usize
    requires within { file < vec_len files.old }
    requires writable { IsTrue (is_writable_at files.old.items file) }
    ensures count { result ≡ taken_by_put limit.now.most piece.now (unwrap_or
        (room_in files.old.items (name_at files.old.items file)) 0
        - length (bytes_at files.old.items file)) }
    ensures name { name_at files.new.items file ≡ name_at files.old.items file }
    ensures writes { Writes files.old.items files.new.items file (bytes_at files.old.items file
        ++ take result piece.now) }
    ensures within { file < vec_len files.new }
{
    files[file].put(piece, limit)
}
