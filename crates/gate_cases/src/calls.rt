//! The calls of the program that a case asks for.
use crate::watches::watches_held;
use anyhow::Result;
use case_files::{Case, InPieces, desks_of, source_of};
use file_access::Source;
use item_actions::Outcome;
use leases_cli::{DESKS, Ended, Status, leases};
use lock_journal::Book;
use memory_desk::MemoryDesk;
use memory_files::{MeetingGate, MemorySink, MemorySource};
use std::alloc::Global;
use std::sync::Wait;
use std::thread::Threads;

/// What is told of the run of a book.
#[derive(Clone, Copy)]
pub(crate) struct Run {
    pub(crate) entries: u64,
    /// How many entries finished. That number is the plan's; failed entries come as threads meet.
    pub(crate) finished: u64,
    /// How many units met a fault.
    pub(crate) faults: u64,
    pub(crate) workers: u32,
    pub(crate) max_leases: u32,
    pub(crate) locks: u32,
}

/// What is told of a call, but for what it wrote.
#[derive(Clone, Copy)]
pub(crate) struct Answer {
    /// The number of its status.
    pub(crate) status: u8,
    /// The place of a bad frame.
    pub(crate) place: Option<u64>,
    /// The run, if one ended.
    pub(crate) run: Option<Run>,
    /// How many calls of the desks failed.
    pub(crate) desk_faults: u64,
    /// How many calls of the input failed.
    pub(crate) input_faults: u64,
    /// How many bytes of the input were left, up to 64.
    pub(crate) left: u64,
    /// How many requests the desks sent.
    pub(crate) sent: u64,
    /// Whether two items ran at once, where the case asks for that.
    pub(crate) met: bool,
    /// How many items the run closed, where what its workers saw holds.
    pub(crate) watches: Option<u64>,
}

// How many entries of the book finished.
fn finished_entries(book: &Book) -> u64 {
    let mut finished = 0u64;
    for place in book.given()..book.len() {
        if !book.entry(place).failed {
            finished = finished.saturating_add(1);
        }
    }
    finished
}

// How many units of the book ended with a fault.
fn faults_in(book: &Book) -> u64 {
    let mut faults = 0u64;
    for unit in 0..book.graph().units() {
        if book.given() == 0 && matches!(book.outcome(unit), Some(Outcome::Fault)) {
            faults = faults.saturating_add(1);
        }
    }
    faults
}

// What is printed of a run, by its book.
fn run_of(book: &Book) -> Run {
    let graph = book.graph();
    Run {
        entries: book.len(),
        finished: finished_entries(book),
        faults: faults_in(book),
        workers: graph.workers(),
        max_leases: graph.max_leases(),
        locks: graph.locks(),
    }
}

// What is printed of the run that a call ended with, if it ended with one.
fn run_in(ended: &Ended) -> Option<Run> {
    match &ended.book {
        Some(book) => Some(run_of(book)),
        None => None,
    }
}

// The place of a bad frame.
fn place_in(status: &Status) -> Option<u64> {
    match status {
        Status::BadFrame(place) => Some(*place),
        _ => None,
    }
}

// How many calls of the desks failed.
fn desk_faults(desks: &[MemoryDesk]) -> u64 {
    let mut faults = 0u64;
    for desk in desks {
        faults = faults.saturating_add(desk.count());
    }
    faults
}

// How many requests the desks sent.
fn requests(desks: &[MemoryDesk]) -> u64 {
    let mut sent = 0u64;
    for desk in desks {
        sent = sent.saturating_add(desk.sent().len() as u64);
    }
    sent
}

// How many bytes are left, up to 64.
fn bytes_left(input: &mut MemorySource) -> u64 {
    let mut buffer = [0u8; 64];
    input.take(&mut buffer).unwrap_or(0) as u64
}

// What is told of a call that ended.
fn answer_of(
    ended: &Ended,
    desks: &[MemoryDesk],
    input: &mut MemorySource,
    gate: &MeetingGate,
) -> Answer {
    let input_faults = input.count();
    Answer {
        status: ended.status.number(),
        place: place_in(&ended.status),
        run: run_in(ended),
        desk_faults: desk_faults(desks),
        input_faults,
        left: bytes_left(input),
        sent: requests(desks),
        met: gate.met(),
        watches: watches_held(ended),
    }
}

/// Makes the call of this number at desks that all have the case's files.
/// No clause speaks of it: what it does is printed and compared.
pub(crate) fn answer_to<T: Threads + Wait + Sync>(
    threads: &T,
    alloc: Global,
    case: &Case,
    number: usize,
    out: &mut InPieces<MemorySink>,
) -> Result<Answer> {
    let mut desks = desks_of(alloc, case, DESKS, number)?;
    let mut input = source_of(alloc, case, number)?;
    let gate = MeetingGate::new(case.limits.turns);
    let ended = leases(
        threads,
        alloc,
        &case.words,
        &mut desks,
        &mut input,
        &gate,
        out,
    );
    let answer = answer_of(&ended, &desks, &mut input.inner, &gate);
    drop(ended);
    drop(input);
    drop(desks);
    Ok(answer)
}
