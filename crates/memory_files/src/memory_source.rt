//! A source in memory.
ghost use Rattle.std.specs.Prelude.{◌≡◌, ◌↔◌, Some, IfOk, IsErr, IsTrue, length, min, take};
ghost use Rattle.std.specs.Io.KnownBytes.{ReadConsumes};
ghost use Rattle.memory_files.specs.Calls.{no_calls, next_fails};
ghost use Rattle.memory_files.specs.Memory.{after_take};

use crate::calls::Calls;
use file_access::{Failed, Source};
use std::cmp::min;
use std::marker::Model;

/// A source whose bytes are in memory, and known to contracts.
#[derive(Drop)]
pub struct MemorySource {
    bytes: Vec<u8>,
    taken: usize,
    calls: Calls,
}

impl Model for MemorySource {
    ghost use Rattle.std.specs.Prelude.{◌≤◌, drop, length};
    ghost use Rattle.memory_files.specs.Memory.{MemorySourceView};

    ghost Value = { MemorySourceView };

    ghost view = { λ s. record { left = drop s.taken s.bytes.items; log = s.calls } };

    ghost invariant = { λ s. s.taken ≤ length s.bytes.items };
}

impl MemorySource {
    /// A source of these bytes. The calls of `take` are numbered from 0, and those of the numbers in
    /// `failing` fail.
    pub fn new(bytes: Vec<u8>, failing: Vec<u64>) -> MemorySource
        ensures { result ≡ record { left = bytes.items; log = no_calls failing.items } }
    {
        MemorySource {
            bytes,
            taken: 0,
            calls: Calls::new(failing),
        }
    }

    /// How many calls failed.
    pub fn count(&self) -> u64
        ensures { result ≡ self.now.log.faults }
    {
        self.calls.faults()
    }
}

impl Source for MemorySource {
    ghost use Rattle.std.specs.Prelude.{Some};

    ghost seen = { λ s. record { left = Some s.left; faults = s.log.faults } };

    fn take(&mut self, buffer: &mut [u8]) -> Result<usize, Failed>
        ensures failed { IsErr result ↔ IsTrue (next_fails self.old.log) }
        ensures count { IfOk result (λ k. k ≡ min (length buffer.new) (length self.old.left)) }
        ensures after { self.new ≡ after_take (length buffer.new) self.old }
        ensures taken { ReadConsumes (Some self.old.left) (Some self.new.left) result buffer.new }
    {
        let fails = self.calls.next_fails();
        self.calls.add(fails);
        if fails {
            return Err(Failed);
        }
        let count = copy_front(&self.bytes[self.taken..], buffer);
        self.taken += count;
        Ok(count)
    }
}

// Copies the first bytes of `left` into the front of the buffer, and answers how many.
fn copy_front(left: &[u8], buffer: &mut [u8]) -> usize
    ensures len { length buffer.new ≡ length buffer.old }
    ensures count { result ≡ min (length buffer.new) (length left.now) }
    ensures front { take result buffer.new ≡ take result left.now }
{
    let count = min(buffer.len(), left.len());
    buffer[..count].copy_from_slice(&left[..count]);
    count
}
