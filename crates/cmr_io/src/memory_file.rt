ghost use Rattle.std.specs.Prelude.{◌≡◌, ◌≤◌, ◌++◌, [], true, None, Some, IfOk, IsTrue, is_some, vec_capacity, take};
ghost use Rattle.std.specs.Option.{ForSome};
ghost use Rattle.cmr_io.specs.Limit.{taken_by_put};

use crate::limit::Limit;
use std::alloc::{AllocError, Global};

/// A name of a shelf in memory. The name may not exist yet, and may have no room. Its room is reserved.
#[derive(Debug, Drop)]
pub struct File {
    name: String,
    bytes: Vec<u8>,
    is_there: bool,
    room: Option<usize>,
    ghost reserved: { ForSome room (λ room. room ≤ vec_capacity bytes) },
}

impl File {
    ghost use Rattle.cmr_io.specs.Files.{held_by, is_named, file_name, room_for, room_left, is_writable};

    /// A file with these bytes and without room.
    pub fn holding(alloc: Global, name: &str, bytes: &[u8]) -> Result<File, AllocError>
        ensures name { IfOk result (λ file. file_name file ≡ name.now) }
        ensures held { IfOk result (λ file. held_by file ≡ Some bytes.now) }
        ensures room { IfOk result (λ file. room_for file ≡ None) }
    {
        Ok(File {
            name: String::from_str(alloc, name)?,
            bytes: bytes.to_vec(alloc)?,
            is_there: true,
            room: None,
        })
    }

    /// A file that does not exist yet, and has the room.
    pub fn prepared(alloc: Global, name: &str, room: usize) -> Result<File, AllocError>
        ensures name { IfOk result (λ file. file_name file ≡ name.now) }
        ensures held { IfOk result (λ file. held_by file ≡ None) }
        ensures room { IfOk result (λ file. room_for file ≡ Some room) }
    {
        Ok(File {
            name: String::from_str(alloc, name)?,
            bytes: Vec::with_capacity(alloc, room)?,
            is_there: false,
            room: Some(room),
        })
    }

    /// Replaces the file's bytes by a vector that has its room. The file then exists.
    pub fn hold(&mut self, bytes: Vec<u8>)
        requires { ForSome (room_for self.old) (λ room. room ≤ vec_capacity bytes) }
        ensures held { held_by self.new ≡ Some bytes.items }
        ensures name { file_name self.new ≡ file_name self.old }
        ensures room { room_for self.new ≡ room_for self.old }
    {
        self.bytes = bytes;
        self.is_there = true;
    }

    /// Gives the file the room, with its bytes in a vector that has this room.
    pub fn prepare(&mut self, bytes: Vec<u8>, room: usize)
        requires bytes { bytes.items ≡ self.old.bytes.items }
        requires reserved { room ≤ vec_capacity bytes }
        ensures held { held_by self.new ≡ held_by self.old }
        ensures name { file_name self.new ≡ file_name self.old }
        ensures room { room_for self.new ≡ Some room }
    {
        self.bytes = bytes;
        self.room = Some(room);
    }

    /// Empties the file.
    pub fn empty(&mut self)
        ensures bytes { self.new.bytes.items ≡ [] }
        ensures held { held_by self.new ≡ Some [] }
        ensures name { file_name self.new ≡ file_name self.old }
        ensures room { room_for self.new ≡ room_for self.old }
        ensures writable { is_writable self.new ≡ is_some (room_for self.old) }
    {
        self.bytes.clear();
        self.is_there = true;
    }

    /// Appends as much of the piece as the room and the limit allow, and returns the number of bytes.
    pub fn put(&mut self, piece: &[u8], limit: &Limit) -> usize
        requires { IsTrue (is_writable self.old) }
        ensures count { result ≡ taken_by_put limit.now.most piece.now (room_left self.old) }
        ensures bytes { self.new.bytes.items ≡ self.old.bytes.items ++ take result piece.now }
        ensures held { held_by self.new ≡ Some self.new.bytes.items }
        ensures name { file_name self.new ≡ file_name self.old }
        ensures room { room_for self.new ≡ room_for self.old }
        ensures writable { is_writable self.new ≡ true }
    {
        let room = self.room.unwrap_or(0) - self.bytes.len();
        let count = limit.of(room.min(piece.len()));
        self.bytes.extend_from_slice(&piece[..count]).unwrap();
        count
    }

    /// The bytes of the file.
    pub fn bytes(&self) -> &[u8]
        ensures { result.now ≡ self.now.bytes.items }
    {
        &self.bytes
    }

    /// The room that was prepared for the file.
    pub fn room(&self) -> Option<usize>
        ensures { result ≡ room_for self.now }
    {
        self.room
    }

    /// Whether the file has the name.
    pub fn is_named(&self, name: &str) -> bool
        ensures { result ≡ is_named name.now self.now }
    {
        self.name.as_str() == name
    }

    /// Whether the file exists.
    pub fn is_there(&self) -> bool
        ensures { result ≡ self.now.is_there }
    {
        self.is_there
    }
}

/// The bytes, in a vector that has the room.
pub fn with_room(alloc: Global, bytes: &[u8], room: usize) -> Result<Vec<u8>, AllocError>
    ensures bytes { IfOk result (λ held. held.items ≡ bytes.now) }
    ensures reserved { IfOk result (λ held. room ≤ vec_capacity held) }
{
    let mut held = Vec::with_capacity(alloc, bytes.len().max(room))?;
    held.extend_from_slice(bytes)?;
    Ok(held)
}
