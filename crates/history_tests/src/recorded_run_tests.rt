//! Whole histories that were read from their texts, and driven again.
use history_check::Again;
use item_actions::{Outcome, Text};
use memory_files::{FileEntry, FileMap, MemoryFiles};
use plan_reader::{Plan, read_plan};
use std::alloc::{AllocError, Global};
use std::test::Fail;
use whole_histories::{drive_again, read_history};

/// A task with one item.
static PLAN: &[u8] = b"[[project]]\nname = \"p\"\n\n\
    [[task]]\nname = \"t\"\nproject = \"p\"\n\n\
    [[task.action]]\nwait = \"retain\"\n\n\
    [[task.action.item]]\ndo = \"lines\"\nfile = \"a.txt\"\n";

/// A run of it, in which the file had three lines.
static HISTORY: &[u8] = b"history 1\nworkers 1 max 1 parallel no\n\
    1 w0 start 0 | lock 0, take, task 0 waiting running\n\
    2 w0 submit 0 | action 0 waiting queued, unit 0 waiting queued\n\
    3 w0 park 0 | give, action 0 queued running\n\
    4 w0 claim 0 | take, unit 0 queued running\n\
    5 w0 close 0 number 3 | unit 0 running passed, give\n\
    6 w0 resume 0 | take, action 0 running passed\n\
    7 w0 end 0 | task 0 running passed, unlock 0, give\n\
    end 7\n";

/// What the run comes to, of a book its number of entries.
enum Verdict {
    Same(u64),
    Differs(u64, Outcome),
    ReadFault(u32),
}

/// The file's bytes, the number of the read that fails, and what the run comes to.
static CASES: [(&[u8], u64, Verdict); 4] = [
    (b"a\nb\nc\n", 1, Verdict::Same(7)),
    (b"other\n\n\n", 1, Verdict::Same(7)),
    (b"a\nb\n", 1, Verdict::Differs(5, Outcome::Number(2))),
    (b"a\nb\n", 0, Verdict::ReadFault(0)),
];

fn is_verdict(again: &Again, expected: &Verdict) -> bool {
    match (again, expected) {
        (Again::Same(book), Verdict::Same(entries)) => book.len() == *entries,
        (Again::Differs(number, value), Verdict::Differs(entry, outcome)) => {
            number == entry && value == outcome
        }
        (Again::ReadFault(unit), Verdict::ReadFault(expected)) => unit == expected,
        _ => false,
    }
}

// A file of the name a.txt. The read of this number fails.
fn files(alloc: Global, bytes: &[u8], failing: u64) -> Result<Box<MemoryFiles>, AllocError> {
    let name = Text::from_str(alloc, "a.txt")?;
    let bytes = bytes.to_vec(alloc)?;
    let mut entries = Vec::new(alloc);
    entries.push(FileEntry { name, bytes })?;
    let failing = [failing].to_vec(alloc)?;
    let files = MemoryFiles::new(alloc, FileMap::new(entries), failing)?;
    Ok(Box::new(alloc, files)?)
}

// Whether the run of the plan comes to this with these files.
fn comes_to_of(
    alloc: Global,
    plan: &Plan,
    files: &mut MemoryFiles,
    expected: &Verdict,
) -> Result<bool, Fail> {
    let history = read_history(alloc, HISTORY)?;
    let again = drive_again(alloc, plan, &history, files);
    drop(history);
    let again = again?;
    let comes = is_verdict(&again, expected);
    drop(again);
    Ok(comes)
}

// Whether the run comes to this with this file.
fn comes_to(alloc: Global, bytes: &[u8], failing: u64, expected: &Verdict) -> Result<bool, Fail> {
    let mut files = files(alloc, bytes, failing)?;
    let plan = read_plan(alloc, PLAN)?;
    let comes = comes_to_of(alloc, &plan, &mut files, expected);
    drop(plan);
    drop(files);
    comes
}

#[test]
fn recorded_runs(rt: HostRuntime) -> Result<(), Fail> {
    for (bytes, failing, expected) in &CASES {
        assert!(rt; comes_to(rt.alloc(), bytes, *failing, expected)?);
    }
    Ok(())
}
