//! Sources and sinks that move few bytes in a call: the input and the output of a case.
use crate::cases::Case;
use crate::each::Each;
use crate::fails::CaseFail;
use file_access::{Failed, Sink, Source};
use memory_files::{MemorySink, MemorySource};
use std::alloc::Global;
use std::cmp::min;

/// A source or a sink that moves at most so many bytes in a call, and at least one.
#[derive(Drop)]
pub struct InPieces<T: Drop> {
    /// The source or the sink itself.
    pub inner: T,
    /// The most bytes that are moved in a call.
    pub most: usize,
}

impl<S: Source + Drop> Source for InPieces<S> {
    ghost seen = { λ s. S.seen s.inner };

    fn take(&mut self, buffer: &mut [u8]) -> Result<usize, Failed> {
        let len = min(buffer.len(), self.most.max(1));
        self.inner.take(&mut buffer[..len])
    }
}

impl<K: Sink + Drop> Sink for InPieces<K> {
    ghost seen = { λ s. K.seen s.inner };

    fn put(&mut self, piece: &[u8]) -> Result<usize, Failed> {
        let len = min(piece.len(), self.most.max(1));
        self.inner.put(&piece[..len])
    }
}

// The numbers of the calls of the input that fail.
fn failing_takes(alloc: Global, case: &Case, number: usize) -> Result<Vec<u64>, CaseFail> {
    match case.each {
        Some(Each::Take) => Ok(Vec::from_slice(alloc, &[number as u64])?),
        _ => case.failing(alloc, "take "),
    }
}

// The numbers of the calls of the output that fail.
fn failing_puts(alloc: Global, case: &Case, number: usize) -> Result<Vec<u64>, CaseFail> {
    match case.each {
        Some(Each::Put) => Ok(Vec::from_slice(alloc, &[number as u64])?),
        _ => case.failing(alloc, "put "),
    }
}

/// The input of the case's call of this number. An error is a number that none is, or want of memory.
pub fn source_of(
    alloc: Global,
    case: &Case,
    number: usize,
) -> Result<InPieces<MemorySource>, CaseFail> {
    let failing = failing_takes(alloc, case, number)?;
    let bytes = case.input_of(alloc, number)?;
    Ok(InPieces {
        inner: MemorySource::new(bytes, failing),
        most: case.limits.piece as usize,
    })
}

// How many bytes the output takes.
fn room_of(case: &Case, number: usize) -> u64 {
    match case.each {
        Some(Each::Room) => number as u64,
        _ => case.limits.room,
    }
}

/// The output of the case's call of this number. An error is a number that none is, or want of memory.
pub fn sink_of(
    alloc: Global,
    case: &Case,
    number: usize,
) -> Result<InPieces<MemorySink>, CaseFail> {
    let failing = failing_puts(alloc, case, number)?;
    Ok(InPieces {
        inner: MemorySink::new(alloc, room_of(case, number), failing)?,
        most: case.limits.piece as usize,
    })
}
