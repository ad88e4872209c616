//! What the lines of a history are read as, and texts in which something follows the end.
use history_text::{History, TextFail};
use item_actions::Outcome;
use lock_transforms::{Closed, Kind};
use resource_lock::{Change, LockId, Mark, MarkId, WorkerId};
use std::alloc::{AllocError, Global};
use whole_histories::read_history;

/// A text of these parts.
pub(crate) fn text_of(alloc: Global, parts: &[&[u8]]) -> Result<Vec<u8>, AllocError> {
    let mut text = Vec::new(alloc);
    for part in parts {
        text.extend_from_slice(part)?;
    }
    Ok(text)
}

const HEAD: &[u8] = b"history 1\nworkers 1 max 1 parallel no\n";

/// Lines behind a head, and where they stop: behind the end.
static ODD_LINES: [(&[u8], u64); 3] = [
    (b"end 0\n\n", 1),
    (b"end 0\nhistory 1\nworkers 1 max 1 parallel no\nend 0\n", 1),
    (
        b"1 w0 acquire | nothing\nend 1\n2 w0 acquire | nothing\n",
        2,
    ),
];

// Whether a text stops at the line of this number.
fn stops_at(alloc: Global, text: &[u8], stop: u64) -> bool {
    matches!(read_history(alloc, text), Err(TextFail::Stops(number)) if number == stop)
}

const END: &[u8] = b"end 0\n";

/// Heads with the number of locks that they say or none, and lines that are no heads.
static HEADS: [(&[u8], Option<Option<u32>>); 8] = [
    (b"history 1\nworkers 1 max 1 parallel no\n", Some(None)),
    (
        b"history 2\nworkers 1 max 1 parallel no locks 0\n",
        Some(Some(0)),
    ),
    (
        b"history 2\nworkers 1 max 1 parallel no locks 4294967295\n",
        Some(Some(4_294_967_295)),
    ),
    (
        b"history 2\nworkers 1 max 1 parallel no locks 4294967296\n",
        None,
    ),
    (b"history 2\nworkers 1 max 1 parallel no locks 02\n", None),
    (b"history 2\nworkers 1 max 1 parallel no\n", None),
    (b"history 1\nworkers 1 max 1 parallel no locks 2\n", None),
    (b"history 3\nworkers 1 max 1 parallel no locks 2\n", None),
];

// Whether a text says so many locks or none, or stops at its head.
fn says_locks(alloc: Global, text: &[u8], locks: &Option<Option<u32>>) -> bool {
    match (read_history(alloc, text), locks) {
        (Ok(history), Some(locks)) => history.locks == *locks,
        (Err(TextFail::Stops(0)), None) => true,
        _ => false,
    }
}

#[test]
fn lines_behind_the_end_and_heads_of_both_versions(rt: HostRuntime) -> Result<(), AllocError> {
    for (lines, stop) in &ODD_LINES {
        let text = text_of(rt.alloc(), &[HEAD, *lines])?;
        assert!(rt; stops_at(rt.alloc(), &text, *stop));
    }
    for (head, locks) in &HEADS {
        let text = text_of(rt.alloc(), &[*head, END])?;
        assert!(rt; says_locks(rt.alloc(), &text, locks));
    }
    Ok(())
}

const TOLD_HEAD: &[u8] = b"history 1\nworkers 32 max 3 parallel yes\n";

const TOLD_END: &[u8] = b"end 1\n";

/// A line, and the entry that it tells.
type Told = (&'static [u8], u32, Kind, Option<&'static [Change]>);

static TOLD: [Told; 16] = [
    (
        b"1 w0 start 1 | lock 2, take, task 1 waiting running\n",
        0,
        Kind::Start(1),
        Some(&[
            Change::Lock(LockId(2)),
            Change::Take,
            Change::Move(MarkId::Task(1), Mark::Waiting, Mark::Running(WorkerId(0))),
        ]),
    ),
    (
        b"1 w1 skip 2 | task 2 waiting skipped, action 3 waiting skipped\n",
        1,
        Kind::Skip(2),
        Some(&[
            Change::Move(MarkId::Task(2), Mark::Waiting, Mark::Skipped),
            Change::Move(MarkId::Action(3), Mark::Waiting, Mark::Skipped),
        ]),
    ),
    (
        b"1 w31 submit 3 | action 3 waiting queued, unit 4 waiting queued\n",
        31,
        Kind::Submit(3),
        Some(&[
            Change::Move(MarkId::Action(3), Mark::Waiting, Mark::Queued),
            Change::Move(MarkId::Unit(4), Mark::Waiting, Mark::Queued),
        ]),
    ),
    (
        b"1 w7 park 4 | give, unlock 0, park 0, action 4 queued running\n",
        7,
        Kind::Park(4),
        Some(&[
            Change::Give,
            Change::Unlock(LockId(0)),
            Change::Park(LockId(0)),
            Change::Move(MarkId::Action(4), Mark::Queued, Mark::Running(WorkerId(7))),
        ]),
    ),
    (
        b"1 w7 resume 4 | unpark 0, action 4 running passed\n",
        7,
        Kind::Resume(4),
        Some(&[
            Change::Unpark(LockId(0)),
            Change::Move(MarkId::Action(4), Mark::Running(WorkerId(7)), Mark::Passed),
        ]),
    ),
    (b"1 w7 claim 5 | failed\n", 7, Kind::Claim(5), None),
    (
        b"1 w7 close 6 number 12 | unit 6 running failed, give\n",
        7,
        Kind::Close(Closed {
            unit: 6,
            outcome: Outcome::Number(12),
        }),
        Some(&[
            Change::Move(MarkId::Unit(6), Mark::Running(WorkerId(7)), Mark::Failed),
            Change::Give,
        ]),
    ),
    (
        b"1 w7 close 6 digest 0a0a0a0a0a0a0a0a0a0a0a0a0a0a0a0a0a0a0a0a0a0a0a0a0a0a0a0a0a0a0a0a | failed\n",
        7,
        Kind::Close(Closed {
            unit: 6,
            outcome: Outcome::Digest([10; 32]),
        }),
        None,
    ),
    (
        b"1 w7 close 6 missing | failed\n",
        7,
        Kind::Close(Closed {
            unit: 6,
            outcome: Outcome::NotThere,
        }),
        None,
    ),
    (
        b"1 w7 close 6 too-long | failed\n",
        7,
        Kind::Close(Closed {
            unit: 6,
            outcome: Outcome::TooLong,
        }),
        None,
    ),
    (
        b"1 w7 unblock 6 fault | leave\n",
        7,
        Kind::Unblock(Some(Closed {
            unit: 6,
            outcome: Outcome::Fault,
        })),
        Some(&[Change::Leave]),
    ),
    (
        b"1 w7 unblock 6 no-memory | failed\n",
        7,
        Kind::Unblock(Some(Closed {
            unit: 6,
            outcome: Outcome::NoMemory,
        })),
        None,
    ),
    (
        b"1 w7 unblock - | nothing\n",
        7,
        Kind::Unblock(None),
        Some(&[]),
    ),
    (
        b"1 w7 block 8 | enter\n",
        7,
        Kind::Block(Some(8)),
        Some(&[Change::Enter]),
    ),
    (b"1 w7 end 9 | failed\n", 7, Kind::End(9), None),
    (b"1 w7 handback | nothing\n", 7, Kind::HandBack, Some(&[])),
];

// Whether the history has the head of the text below, and is this entry.
fn is_entry(history: &History, row: &Told) -> bool {
    let (_, worker, kind, changes) = row;
    match history.entries.as_slice() {
        [entry] => {
            (history.workers, history.max, history.parallel) == (32, 3, true)
                && entry.worker == WorkerId(*worker)
                && entry.kind == *kind
                && entry.changes.as_deref() == *changes
        }
        _ => false,
    }
}

// Whether the text of one line is read as its entry.
fn is_told(alloc: Global, text: &[u8], row: &Told) -> bool {
    match read_history(alloc, text) {
        Ok(history) => is_entry(&history, row),
        Err(_) => false,
    }
}

#[test]
fn entries_of_each_kind(rt: HostRuntime) -> Result<(), AllocError> {
    for row in &TOLD {
        let text = text_of(rt.alloc(), &[TOLD_HEAD, row.0, TOLD_END])?;
        assert!(rt; is_told(rt.alloc(), &text, row));
    }
    Ok(())
}
