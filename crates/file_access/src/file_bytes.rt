//! A file's bytes, in room that can be used again.
ghost use Rattle.std.specs.Prelude.{◌≡◌, ◌≤◌, ◌<◌, ◌+◌, ◌^◌, [], length, take, drop, vec_len, IfOk, OnOk, OnErr};
ghost use Rattle.std.specs.Io.KnownBytes.{Consumes, IsAtEnd, Keeps};
ghost use Rattle.file_access.specs.Gathers.{ReadGathers};

use std::alloc::{AllocError, Global};
use std::fs::OpenFile;
use std::io;
use std::marker::Model;

/// The room for the first read. A file of fewer bytes is read with no question for its size.
const FIRST_ROOM: u64 = 1024;

/// The most bytes of a piece.
pub(crate) const PIECE_BYTES: u64 = 131_072;

/// A file's bytes, in a room that may be longer than they are. Its reader can use the room again.
#[derive(Drop)]
pub struct FileBytes {
    room: Vec<u8>,
    filled: usize,
}

impl Model for FileBytes {
    ghost use Rattle.std.specs.Prelude.{ℕ, List, ◌≤◌, vec_len, take};

    ghost Value = { List ℕ };

    ghost view = { λ b. take b.filled b.room.items };

    ghost invariant = { λ b. b.filled ≤ vec_len b.room };
}

impl FileBytes {
    /// No bytes, and no room.
    pub fn new(alloc: Global) -> FileBytes
        ensures { result ≡ [] }
    {
        FileBytes {
            room: Vec::new(alloc),
            filled: 0,
        }
    }

    /// These bytes.
    pub fn of(bytes: Vec<u8>) -> FileBytes
        ensures { result ≡ bytes.items }
    {
        FileBytes {
            filled: bytes.len(),
            room: bytes,
        }
    }

    /// The bytes.
    pub fn as_bytes(&self) -> &[u8]
        ensures { result.now ≡ self.now }
    {
        &self.room[..self.filled]
    }

    /// Forgets the bytes, and keeps the room.
    pub(crate) fn clear(&mut self)
        ensures { self.new ≡ [] }
    {
        self.filled = 0;
    }

    /// Reads once, in place of the bytes, at most so many and at most `PIECE_BYTES`.
    pub(crate) fn read_piece<F: io::Read>(&mut self, file: &mut F, most: u64) -> io::Result<usize>
        requires { 0 < most }
        ensures count { IfOk result (λ count. length self.new ≡ count) }
        ensures most { IfOk result (λ count. count ≤ most) }
        ensures taken { OnOk result (Consumes (F.remaining file.old) (F.remaining file.new) self.new) }
        ensures end { IfOk result (λ count. count ≡ 0 → IsAtEnd (F.remaining file.new)) }
        ensures err { OnErr result (Keeps (F.remaining file.old) (F.remaining file.new)) }
    {
        widen(&mut self.room, self.filled)?;
        self.filled = 0;
        let read = read_at(file, &mut self.room, 0, most.min(PIECE_BYTES) - 1)?;
        self.filled = read;
        Ok(read)
    }

    /// Reads once, behind the bytes and at most a byte over the limit. A room that is full grows first.
    pub(crate) fn read_more<F: io::Read + OpenFile>(
        &mut self,
        file: &mut F,
        limit: u64,
    ) -> io::Result<usize>
        requires { length self.old ≤ limit }
        ensures read { ReadGathers (F.remaining file.old) (F.remaining file.new) self.old self.new result }
        ensures most { length self.new ≤ limit + 1 }
    {
        grow(&mut self.room, self.filled, file, limit)?;
        let read = read_at(file, &mut self.room, self.filled, limit)?;
        self.filled += read;
        Ok(read)
    }
}

// Makes room for a piece: little for a first one, and all where the last piece filled it.
fn widen(room: &mut Vec<u8>, filled: usize) -> Result<(), AllocError>
    requires { filled ≤ vec_len room.old }
    ensures filled { filled ≤ vec_len room.new }
    ensures some { OnOk result (0 < vec_len room.new) }
{
    let wanted = if room.is_empty() {
        FIRST_ROOM
    } else {
        PIECE_BYTES
    };
    if filled < room.len() || wanted as usize <= room.len() {
        return Ok(());
    }
    room.resize(wanted as usize, 0)
}

// Makes the room longer than what is filled.
fn grow<F: OpenFile>(
    room: &mut Vec<u8>,
    filled: usize,
    file: &F,
    limit: u64,
) -> Result<(), AllocError>
    requires filled { filled ≤ vec_len room.old }
    requires within { filled ≤ limit }
    ensures front { take filled room.new.items ≡ take filled room.old.items }
    ensures filled { filled ≤ vec_len room.new }
    ensures longer { OnOk result (filled < vec_len room.new) }
{
    if filled < room.len() {
        return Ok(());
    }
    let wanted = wanted_room(file, filled);
    room.resize(wanted.min(limit.saturating_add(1)) as usize, 0)
}

// How long a full room is to be. The size of a file is only a guess: one byte more shows its end.
fn wanted_room<F: OpenFile>(file: &F, filled: usize) -> u64
    requires { filled < 2 ^ 63 }
    ensures { filled < result }
{
    if filled == 0 {
        return FIRST_ROOM;
    }
    let size = file.metadata().map_or(0, |data| data.len());
    size.saturating_add(1).max(2 * filled as u64)
}

// Reads once into the room behind what is filled, and at most a byte over the limit.
fn read_at<F: io::Read>(
    file: &mut F,
    room: &mut Vec<u8>,
    filled: usize,
    limit: u64,
) -> io::Result<usize>
    requires room { filled < vec_len room.old }
    requires within { filled ≤ limit }
    ensures len { vec_len room.new ≡ vec_len room.old }
    ensures front { take filled room.new.items ≡ take filled room.old.items }
    ensures fits { IfOk result (λ n. filled + n ≤ vec_len room.new) }
    ensures most { IfOk result (λ n. filled + n ≤ limit + 1) }
    ensures ok { IfOk result (λ n.
        Consumes (F.remaining file.old) (F.remaining file.new) (take n (drop filled room.new.items))) }
    ensures end { IfOk result (λ n. n ≡ 0 → IsAtEnd (F.remaining file.new)) }
    ensures err { OnErr result (Keeps (F.remaining file.old) (F.remaining file.new)) }
{
    let end = limit.saturating_add(1).min(room.len() as u64) as usize;
    file.read(&mut room[filled..end])
}
