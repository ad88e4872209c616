//! An order of tasks, and histories that are read from their texts.
use crate::task_ordering_tests::{PAIR, graph_of_two, tasks_of};
use history_text::TextFail;
use order_check::{ReadEntries, check_text};
use std::alloc::{AllocError, Global};
use std::process::Abort;
use std::test::Fail;
use task_ordering::{Kept, Ordering, first_unlawful};
use whole_histories::read_history;

const HEAD: &[u8] = b"history 1\nworkers 1 max 1 parallel no\n";

/// Lines behind the head, whether task 0 is left before task 1 starts, and the first entry that isn't lawful.
type Row = (&'static [u8], Kept, Option<u64>);

static ROWS: [Row; 5] = [
    (
        b"1 w0 start 0 | lock 0, take, task 0 waiting running\n\
        2 w0 end 0 | task 0 running passed, unlock 0, give\n\
        3 w0 start 1 | lock 0, take, task 1 waiting running\n\
        end 3\n",
        Kept::Kept,
        None,
    ),
    (
        b"1 w0 acquire | take\n\
        2 w0 handback | give\n\
        3 w0 start 1 | lock 0, take, task 1 waiting running\n\
        end 3\n",
        Kept::Broken(3),
        None,
    ),
    // No task runs, so none can be ended.
    (
        b"1 w0 end 0 | task 0 running passed, unlock 0, give\n\
        2 w0 start 1 | lock 0, take, task 1 waiting running\n\
        end 2\n",
        Kept::Kept,
        Some(1),
    ),
    // A task that failed to start hasn't started, and one that failed to end hasn't ended, and has the lock.
    (
        b"1 w0 start 1 | failed\n\
        2 w0 start 0 | lock 0, take, task 0 waiting running\n\
        3 w0 end 0 | failed\n\
        4 w0 start 1 | lock 0, take, task 1 waiting running\n\
        end 4\n",
        Kept::Broken(4),
        Some(4),
    ),
    (b"end 0\n", Kept::Kept, None),
];

/// Lines behind the head at which a text stops being a history.
static ODD_LINES: [(&[u8], u64); 3] = [
    (b"", 1),
    (b"1 w0 start 1 | failed\nend 2\n", 2),
    (b"end 0\n\n", 1),
];

/// A text with the head.
fn text_of(alloc: Global, lines: &[u8]) -> Result<Vec<u8>, AllocError> {
    let mut text = HEAD.to_vec(alloc)?;
    text.extend_from_slice(lines)?;
    Ok(text)
}

/// Whether this is found of the entries of a text, given as the text and as what it was read as.
fn is_found(rt: &impl Abort, alloc: Global, ordering: &Ordering, row: &Row) -> Result<bool, Fail> {
    let (lines, kept, unlawful) = row;
    let text = text_of(alloc, lines)?;
    let of_text = check_text(alloc, ordering, &text)?;
    let history = read_history(alloc, &text)?;
    let entries = ReadEntries(&history);
    let of_entries = ordering.check(alloc, &entries)?;
    let first = first_unlawful(alloc, graph_of_two(rt, alloc)?, &entries)?;
    Ok((of_text, of_entries, first) == (*kept, *kept, *unlawful))
}

/// Whether a text stops being a history at the line of this number.
fn stops_at(alloc: Global, ordering: &Ordering, text: &[u8], stop: u64) -> bool {
    matches!(check_text(alloc, ordering, text), Err(TextFail::Stops(number)) if number == stop)
}

#[test]
fn orders_are_checked_against_texts(rt: HostRuntime) -> Result<(), Fail> {
    let tasks = tasks_of(rt.alloc(), &PAIR)?;
    let ordering = Ordering::of(rt.alloc(), &tasks, &[1])?;
    for row in &ROWS {
        assert!(rt; is_found(&rt, rt.alloc(), &ordering, row)?);
    }
    for (lines, stop) in &ODD_LINES {
        let text = text_of(rt.alloc(), lines)?;
        assert!(rt; stops_at(rt.alloc(), &ordering, &text, *stop));
    }
    Ok(())
}
