//! How much room books take for the changes of their entries.
use crate::book_tests::run;
use crate::fitting::fitting_graph;
use crate::rows::{Limits, TaskRow};
use item_actions::Outcome;
use lock_journal::Book;
use lock_transforms::{Closed, Disposition, Kind};
use resource_lock::{GraphAction, Retention, WorkerId};
use std::alloc::{AllocError, Global};
use std::process::Abort;

const LIMITS: Limits = Limits {
    locks: 1,
    all: None,
    workers: 1,
    max_leases: 1,
};

/// How many actions a large task has.
const ACTIONS: u32 = 8;

/// The items of each of them.
const ITEMS: u32 = 1_000;

/// The changes before the end of such a task, of whose first action an item fails: of its start, the action's submit, park and
/// resume, and a claim and a close for each item.
const CHANGES_BEFORE_END: u64 = 3 + (1 + 1_000) + 2 + 2 + 4 * 1_000;

/// The entries that these are, and the end.
const ENTRIES: u64 = 5 + 2 * 1_000;

/// The most changes of the end, as if it skipped all actions.
const MOST_CHANGES_OF_END: u64 = 3 + 8 * (1 + 1_000);
/// Its changes: it skips all but the first.
const CHANGES_OF_END: u64 = 3 + 7 * (1 + 1_000);

/// The whole run of a task with one item.
static WHOLE_RUN: [Kind; 7] = [
    Kind::Start(0),
    Kind::Submit(0),
    Kind::Park(0),
    Kind::Claim(0),
    Kind::Close(Closed {
        unit: 0,
        outcome: Outcome::Number(1),
    }),
    Kind::Resume(0),
    Kind::End(0),
];

// So many actions of the first task, each of which has so many items.
pub(crate) fn actions_of(
    alloc: Global,
    count: u32,
    items: u32,
) -> Result<Vec<GraphAction>, AllocError> {
    let mut actions = Vec::new(alloc);
    let mut first_unit = 0u32;
    for _ in 0..count {
        actions.push(GraphAction {
            task: 0,
            retention: Retention::Retain,
            fetch: false,
            first_unit,
            items,
        })?;
        first_unit = first_unit.saturating_add(items);
    }
    Ok(actions)
}

// A book of one task with so many actions, each of which has so many items. It has room for so many entries and changes.
fn opening(
    rt: &impl Abort,
    alloc: Global,
    size: (u32, u32),
    entries: u64,
    changes: u64,
) -> Result<Box<Book>, AllocError> {
    let (actions, items) = size;
    let task = TaskRow {
        lock: 0,
        after: None,
        first_action: 0,
        actions,
    };
    let rows = actions_of(alloc, actions, items)?;
    let graph = fitting_graph(rt, alloc, &LIMITS, &[task], &rows)?;
    let book = Book::opening(alloc, Box::into_inner(graph), entries, changes)?;
    Ok(Box::new(alloc, book)?)
}

// Whether the transform of a kind finishes.
fn finishes(book: &mut Book, kind: Kind) -> Result<bool, AllocError> {
    Ok(run(book, WorkerId(0), kind)? == Disposition::Finished)
}

// Whether a task runs to its end, and there is never room for many changes.
fn runs_with_little_room(book: &mut Book) -> Result<bool, AllocError> {
    for kind in &WHOLE_RUN {
        if book.spare_changes() >= 20 || !finishes(book, *kind)? {
            return Ok(false);
        }
    }
    Ok(book.spare_changes() < 20 && book.all_tasks_ended())
}

// Whether the items of the first action can be claimed and closed. The first of them fails.
fn closes_items(book: &mut Book) -> Result<bool, AllocError> {
    for unit in 0..ITEMS {
        let outcome = if unit == 0 {
            Outcome::NotThere
        } else {
            Outcome::Number(1)
        };
        let closed = Closed { unit, outcome };
        if !finishes(book, Kind::Claim(unit))? || !finishes(book, Kind::Close(closed))? {
            return Ok(false);
        }
    }
    Ok(true)
}

// Whether a task's first action runs, so that only the end of the task is left.
fn runs_first_action(book: &mut Book) -> Result<bool, AllocError> {
    Ok(
        finishes(book, Kind::Start(0))?
            && finishes(book, Kind::Submit(0))?
            && finishes(book, Kind::Park(0))?
            && closes_items(book)?
            && finishes(book, Kind::Resume(0))?,
    )
}

#[test]
fn a_book_of_one_item_has_little_room(rt: HostRuntime) -> Result<(), AllocError> {
    let mut book = opening(&rt, rt.alloc(), (1, 1), 0, 0)?;
    assert!(rt; runs_with_little_room(&mut book)?);
    Ok(())
}

#[test]
fn a_large_task_ends_in_just_the_room_for_its_changes(rt: HostRuntime) -> Result<(), AllocError> {
    let changes = CHANGES_BEFORE_END + MOST_CHANGES_OF_END;
    let mut book = opening(&rt, rt.alloc(), (ACTIONS, ITEMS), ENTRIES, changes)?;
    assert!(rt; runs_first_action(&mut book)?);
    assert!(rt; book.spare_changes() == MOST_CHANGES_OF_END);
    assert!(rt; finishes(&mut book, Kind::End(0))? && book.all_tasks_ended());
    assert!(rt; book.spare_changes() == MOST_CHANGES_OF_END - CHANGES_OF_END);
    Ok(())
}
