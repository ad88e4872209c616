//! A sink in memory.
ghost use Rattle.std.specs.Prelude.{◌≡◌, ◌↔◌, [], IfOk, IsErr, IsTrue};
ghost use Rattle.memory_files.specs.Calls.{no_calls};
ghost use Rattle.memory_files.specs.Memory.{fitting, put_fails, after_put};

use crate::calls::Calls;
use file_access::{Failed, Sink};
use std::alloc::{AllocError, Global};
use std::cmp::min;
use std::marker::Model;

/// A sink that keeps the bytes that it takes. Its memory is taken when it is made.
#[derive(Drop)]
pub struct MemorySink {
    bytes: Vec<u8>,
    room: usize,
    calls: Calls,
}

impl Model for MemorySink {
    ghost use Rattle.std.specs.Prelude.{◌≤◌, vec_capacity, length};
    ghost use Rattle.memory_files.specs.Memory.{MemorySinkView};

    ghost Value = { MemorySinkView };

    ghost view = { λ s. record { bytes = s.bytes.items; room = s.room; log = s.calls } };

    ghost invariant = { λ s. (length s.bytes.items ≤ s.room) × (s.room ≤ vec_capacity s.bytes) };
}

impl MemorySink {
    /// A sink that takes `room` bytes. The calls of `put` are numbered from 0, and those of the
    /// numbers in `failing` fail.
    pub fn new(alloc: Global, room: u64, failing: Vec<u64>) -> Result<MemorySink, AllocError>
        ensures { IfOk result (λ s.
            s ≡ record { bytes = []; room = room; log = no_calls failing.items }) }
    {
        let room = room as usize;
        let bytes = Vec::with_capacity(alloc, room)?;
        let calls = Calls::new(failing);
        Ok(MemorySink { bytes, room, calls })
    }

    /// A sink that takes this many bytes, with no failing call.
    pub fn limited(alloc: Global, bytes: u64) -> Result<MemorySink, AllocError>
        ensures { IfOk result (λ s. s ≡ record { bytes = []; room = bytes; log = no_calls [] }) }
    {
        MemorySink::new(alloc, bytes, Vec::new(alloc))
    }

    /// The bytes taken.
    pub fn taken(&self) -> &[u8]
        ensures { result.now ≡ self.now.bytes }
    {
        self.bytes.as_slice()
    }

    /// How many calls failed.
    pub fn count(&self) -> u64
        ensures { result ≡ self.now.log.faults }
    {
        self.calls.faults()
    }
}

impl Sink for MemorySink {
    ghost use Rattle.std.specs.Prelude.{Some};

    ghost seen = { λ s. record { taken = Some s.bytes; faults = s.log.faults } };

    fn put(&mut self, piece: &[u8]) -> Result<usize, Failed>
        ensures failed { IsErr result ↔ IsTrue (put_fails self.old piece.now) }
        ensures fitting { IfOk result (λ count. count ≡ fitting self.old piece.now) }
        ensures after { self.new ≡ after_put (put_fails self.old piece.now) self.old piece.now }
    {
        let fitting = min(piece.len(), self.room - self.bytes.len());
        let fails = self.calls.next_fails() || (fitting == 0 && !piece.is_empty());
        self.calls.add(fails);
        if fails {
            return Err(Failed);
        }
        let _ = self.bytes.extend_from_slice(&piece[..fitting]);
        Ok(fitting)
    }
}
