//! What is printed of the calls of a case.
use crate::calls::{Answer, Run, answer_to};
use anyhow::Result;
use case_files::{Case, InPieces, sink_of};
use item_actions::Text;
use memory_files::{FileEntry, MemorySink};
use sha2::{Digest, Sha256};
use std::alloc::Global;
use std::sync::Wait;
use std::thread::Threads;
use std::{fmt, io};

/// A number between words, where there is one.
#[derive(Drop)]
pub(crate) struct Counted(
    pub(crate) &'static str,
    pub(crate) Option<u64>,
    pub(crate) &'static str,
);

impl fmt::Display for Counted {
    fn fmt<W: fmt::Write>(&self, f: &mut fmt::Formatter<W>) -> fmt::Result {
        let Counted(before, number, behind) = self;
        match number {
            Some(number) => write!(f, "{before}{number}{behind}"),
            None => Ok(()),
        }
    }
}

// Whether each byte is a line's end or can be seen.
fn is_text(bytes: &[u8]) -> bool {
    for byte in bytes {
        if !matches!(*byte, b'\n' | b' '..=b'~') {
            return false;
        }
    }
    true
}

/// The text that the bytes are, if each of them is a line's end or can be seen.
pub(crate) fn text_of(bytes: &[u8]) -> Option<&str> {
    match str::from_utf8(bytes) {
        Ok(text) if is_text(bytes) => Some(text),
        _ => None,
    }
}

// Prints the digest of what was written.
fn print_digest(rt: &HostRuntime, bytes: &[u8]) -> Result<()> {
    let digest = hex::encode(rt.alloc(), Sha256::digest(bytes))?;
    println!(rt; ", {} bytes, digest {digest}", bytes.len())?;
    Ok(())
}

// Prints what was written: as it stands where it is a text, and else in hexadecimal digits.
fn print_output(rt: &HostRuntime, bytes: &[u8]) -> Result<()> {
    println!(rt; ", {} bytes", bytes.len())?;
    match text_of(bytes) {
        Some(text) if text.is_empty() || text.ends_with('\n') => print!(rt; "{text}")?,
        Some(text) => println!(rt; "{text}")?,
        None => println!(rt; "{}", hex::encode(rt.alloc(), bytes)?)?,
    }
    Ok(())
}

// Whether a call's history is found lawful, as words.
fn lawful_words(lawful: Option<bool>) -> &'static str {
    match lawful {
        Some(true) => ", lawful",
        Some(false) => ", not found lawful",
        None => "",
    }
}

// Prints how a call ended: its status, with the place of a bad frame, and how many entries of its book finished.
fn print_end(rt: &HostRuntime, answer: &Answer, lawful: Option<bool>) -> io::Result<()> {
    let place = Counted(" at ", answer.place, "");
    let finished = match answer.run {
        Some(run) => Some(run.finished),
        None => None,
    };
    let finished = Counted(", ", finished, " entries");
    print!(rt;
        "status {}{place}{finished}{}",
        answer.status,
        lawful_words(lawful)
    )
}

// Prints how many calls of the outside failed, and whether two items met.
fn print_faults(rt: &HostRuntime, faults: u64, met: bool) -> io::Result<()> {
    let faults = Counted(", ", (faults > 0).then_some(faults), " faults");
    let met = if met { ", two items met" } else { "" };
    print!(rt; "{faults}{met}")
}

// Prints the numbers that the case asks for.
fn print_asked(rt: &HostRuntime, case: &Case, answer: &Answer) -> io::Result<()> {
    let left = Counted(", ", case.has("left").then_some(answer.left), " bytes left");
    let sent = Counted(", ", case.has("sent").then_some(answer.sent), " requests");
    print!(rt; "{left}{sent}")?;
    match answer.run {
        Some(run) if case.has("graph") => print_graph(rt, &run),
        _ => Ok(()),
    }
}

// Prints what the run's graph has.
fn print_graph(rt: &HostRuntime, run: &Run) -> io::Result<()> {
    let Run {
        workers,
        max_leases,
        locks,
        ..
    } = run;
    print!(rt; ", {workers} workers, {max_leases} leases, {locks} locks")
}

// Whether as many units met a fault as calls of the desks failed, and at least so many, as words.
fn fault_words(answer: &Answer, least: u64) -> &'static str {
    match answer.run {
        Some(run) if run.faults == answer.desk_faults && run.faults >= least => {
            "each failed call is the fault of a unit"
        }
        _ => "not as many faults as failed calls",
    }
}

// Prints how many items the run closed, where what its workers saw is as its history says.
fn print_watches(rt: &HostRuntime, answer: &Answer) -> io::Result<()> {
    match answer.watches {
        Some(count) => println!(rt; "status {}, {count} watches hold", answer.status),
        None => println!(rt; "what was seen isn't as the history says"),
    }
}

// Whether one of the files has this name.
fn names_file(files: &[FileEntry], name: &Text) -> bool {
    for file in files {
        if file.name.as_str() == name.as_str() {
            return true;
        }
    }
    false
}

// Whether a history is asked for.
fn asks_for_history(words: &[Text]) -> bool {
    for word in words {
        if word.as_str() == "--history" {
            return true;
        }
    }
    false
}

// The plan of a run whose history was printed, if there was one that ended.
fn plan_of<'a>(case: &'a Case, answer: &Answer) -> Option<&'a Text> {
    if answer.run.is_none() || answer.status > 1 || !asks_for_history(&case.words) {
        return None;
    }
    for word in &case.words {
        if names_file(&case.files, word) {
            return Some(word);
        }
    }
    None
}

// Whether the program itself finds a printed history lawful, with as many entries as the run's book has.
fn is_found_lawful<T: Threads + Wait + Sync>(
    threads: &T,
    alloc: Global,
    check: &Case,
    run: &Run,
) -> Result<bool> {
    let lawful = format!(in alloc; "lawful {}\n", run.entries)?;
    let mut out = sink_of(alloc, check, 0)?;
    let answer = answer_to(threads, alloc, check, 0, &mut out);
    let is_lawful = out.inner.taken() == lawful.as_bytes();
    drop(out);
    answer?;
    Ok(is_lawful)
}

// Whether the program itself finds what a run of the case printed lawful. None says that no history was asked for, or
// that the run didn't end.
fn lawfulness<T: Threads + Wait + Sync>(
    threads: &T,
    alloc: Global,
    case: &Case,
    answer: &Answer,
    printed: &[u8],
) -> Result<Option<bool>> {
    let (Some(plan), Some(run)) = (plan_of(case, answer), answer.run) else {
        return Ok(None);
    };
    let check = case.check_of(alloc, plan, printed)?;
    let is_lawful = is_found_lawful(threads, alloc, &check, &run);
    drop(check);
    Ok(Some(is_lawful?))
}

// Prints how a call ended, whether the history that it printed is found lawful, how many calls of the outside failed,
// whether two items met, and what was written.
fn print_answer(
    rt: &HostRuntime,
    case: &Case,
    answer: &Answer,
    lawful: Option<bool>,
    out: &MemorySink,
) -> Result<()> {
    print_end(rt, answer, lawful)?;
    let faults = answer
        .desk_faults
        .saturating_add(answer.input_faults)
        .saturating_add(out.count());
    print_faults(rt, faults, answer.met)?;
    print_asked(rt, case, answer)?;
    if case.has("digest") {
        print_digest(rt, out.taken())
    } else {
        print_output(rt, out.taken())
    }
}

// Makes the one call of a case with this output, and prints what it answered.
fn run_with<T: Threads + Wait + Sync>(
    rt: &HostRuntime,
    threads: &T,
    case: &Case,
    out: &mut InPieces<MemorySink>,
) -> Result<()> {
    let alloc = rt.alloc();
    let answer = answer_to(threads, alloc, case, 0, out)?;
    if case.has("watched") {
        return Ok(print_watches(rt, &answer)?);
    }
    if case.has("faults") {
        println!(rt; "{}", fault_words(&answer, case.limits.least_faults))?;
        return Ok(());
    }
    let lawful = lawfulness(threads, alloc, case, &answer, out.inner.taken())?;
    print_answer(rt, case, &answer, lawful, &out.inner)
}

/// Makes the one call of a case, and prints what it answered.
pub(crate) fn run_once<T: Threads + Wait + Sync>(
    rt: &HostRuntime,
    threads: &T,
    case: &Case,
) -> Result<()> {
    let mut out = sink_of(rt.alloc(), case, 0)?;
    let ran = run_with(rt, threads, case, &mut out);
    drop(out);
    ran
}
