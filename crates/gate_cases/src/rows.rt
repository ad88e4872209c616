//! What is printed of calls that differ from one another.
use crate::answers::{Counted, text_of};
use crate::calls::{Answer, answer_to};
use anyhow::Result;
use case_files::{Case, Each, InPieces, sink_of};
use memory_files::MemorySink;
use std::alloc::Global;
use std::cmp::min;
use std::io;
use std::sync::Wait;
use std::thread::Threads;

/// Calls one after another, numbered from 0. Those that are told alike are printed together.
#[derive(Drop)]
struct Row {
    first: usize,
    next: usize,
    told: String,
}

impl Row {
    // Adds what is told of the next call.
    fn add(&mut self, rt: &HostRuntime, told: String) -> io::Result<()> {
        if self.told.as_str() != told.as_str() {
            self.print(rt)?;
            self.first = self.next;
            self.told = told;
        }
        self.next = self.next.saturating_add(1);
        Ok(())
    }

    // Prints the calls that weren't printed yet.
    fn print(&self, rt: &HostRuntime) -> io::Result<()> {
        let Row { first, next, told } = self;
        if first >= next {
            return Ok(());
        }
        println!(rt; "  {first} to {}: {}", next - 1, told.as_str())
    }
}

// What was written, where it is a text, and else the status and what was written.
fn told(alloc: Global, answer: &Answer, bytes: &[u8]) -> Result<String> {
    match text_of(bytes) {
        Some(text) if !text.is_empty() => Ok(text.trim_end_matches('\n').to_string(alloc)?),
        _ => status_and_digits(alloc, answer, bytes),
    }
}

// The row of an answer whose bytes are no text.
fn status_and_digits(alloc: Global, answer: &Answer, bytes: &[u8]) -> Result<String> {
    let digits = hex::encode(alloc, bytes)?;
    let place = Counted(" at ", answer.place, "");
    let status = answer.status;
    Ok(format!(in alloc; "status {status}{place}, {} bytes [{digits}]", bytes.len())?)
}

// What is told where the output takes so many bytes: whether those were written, and no others.
fn told_of_room(
    alloc: Global,
    answer: &Answer,
    room: usize,
    bytes: &[u8],
    whole: &[u8],
) -> Result<String> {
    let entries = match answer.run {
        Some(run) => Some(run.entries),
        None => None,
    };
    let entries = Counted(", ", entries, " entries");
    let status = answer.status;
    let words = if bytes == &whole[..min(room, whole.len())] {
        "as many of the first bytes as there is room for"
    } else {
        "other bytes"
    };
    Ok(format!(in alloc; "status {status}{entries}, {words}")?)
}

// What is written where the output takes as much as it ever does, if the calls differ in that.
fn whole_output<T: Threads + Wait + Sync>(
    threads: &T,
    alloc: Global,
    case: &Case,
    each: Each,
) -> Result<Option<MemorySink>> {
    if !matches!(each, Each::Room) {
        return Ok(None);
    }
    let room = case.limits.room as usize;
    let mut out = sink_of(alloc, case, room)?;
    answer_to(threads, alloc, case, room, &mut out)?;
    Ok(Some(out.inner))
}

// Makes the next call with this output, and adds what is told of it. It answers whether nothing failed.
fn add_call_with<T: Threads + Wait + Sync>(
    rt: &HostRuntime,
    threads: &T,
    case: &Case,
    whole: Option<&MemorySink>,
    row: &mut Row,
    out: &mut InPieces<MemorySink>,
) -> Result<bool> {
    let alloc = rt.alloc();
    let number = row.next;
    let answer = answer_to(threads, alloc, case, number, out)?;
    let told = match whole {
        Some(whole) => told_of_room(alloc, &answer, number, out.inner.taken(), whole.taken())?,
        None => told(alloc, &answer, out.inner.taken())?,
    };
    row.add(rt, told)?;
    Ok(answer.input_faults == 0 && out.inner.count() == 0)
}

// Makes the next call, and adds what is told of it. It answers whether nothing failed.
fn add_call<T: Threads + Wait + Sync>(
    rt: &HostRuntime,
    threads: &T,
    case: &Case,
    whole: Option<&MemorySink>,
    row: &mut Row,
) -> Result<bool> {
    let mut out = sink_of(rt.alloc(), case, row.next)?;
    let added = add_call_with(rt, threads, case, whole, row, &mut out);
    drop(out);
    added
}

// Makes the calls, and prints what is told of them, beside what is written where the output takes as much as it ever does.
fn run_beside<T: Threads + Wait + Sync>(
    rt: &HostRuntime,
    threads: &T,
    case: &Case,
    each: Each,
    whole: Option<&MemorySink>,
) -> Result<()> {
    let mut row = Row {
        first: 0,
        next: 0,
        told: String::new(rt.alloc()),
    };
    for _ in 0..each.calls(&case.input) {
        let passed = add_call(rt, threads, case, whole, &mut row)?;
        if passed && each.ends_without_failure() {
            break;
        }
    }
    Ok(row.print(rt)?)
}

/// Makes the calls of a case that differ in this, and prints what is told of them.
pub(crate) fn run_each<T: Threads + Wait + Sync>(
    rt: &HostRuntime,
    threads: &T,
    case: &Case,
    each: Each,
) -> Result<()> {
    let whole = whole_output(threads, rt.alloc(), case, each)?;
    let ran = run_beside(rt, threads, case, each, whole.as_ref());
    drop(whole);
    ran
}
