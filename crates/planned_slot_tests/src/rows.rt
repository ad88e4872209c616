//! A plan, and the histories that its rules owe.
ghost use Rattle.std.specs.Prelude.{None};

use coordination::Question;
use item_actions::Outcome;
use lock_journal::Book;
use lock_transforms::{Closed, Kind};
use resource_lock::{GraphAction, Retention, WorkerId};
use state_tests::rows::{Limits, TaskRow};
use worker_choices::Awaited;

/// Two locks, two workers and two leases.
pub const LIMITS: Limits = Limits {
    locks: 2,
    all: None,
    workers: 2,
    max_leases: 2,
};

/// The second task comes after the first, and the third after the second. The second and the third share a lock.
pub static TASKS: [TaskRow; 3] = [
    TaskRow {
        lock: 0,
        after: None,
        first_action: 0,
        actions: 1,
    },
    TaskRow {
        lock: 1,
        after: Some(0),
        first_action: 1,
        actions: 2,
    },
    TaskRow {
        lock: 1,
        after: Some(1),
        first_action: 3,
        actions: 1,
    },
];

/// The first has a fetch, unit 0. Units 1 and 2, 3, 4 and 5 are items.
pub static ACTIONS: [GraphAction; 4] = [
    GraphAction {
        task: 0,
        retention: Retention::ReleaseAndReacquire,
        fetch: true,
        first_unit: 0,
        items: 2,
    },
    GraphAction {
        task: 1,
        retention: Retention::Retain,
        fetch: false,
        first_unit: 3,
        items: 1,
    },
    GraphAction {
        task: 1,
        retention: Retention::Release,
        fetch: false,
        first_unit: 4,
        items: 1,
    },
    GraphAction {
        task: 2,
        retention: Retention::Retain,
        fetch: false,
        first_unit: 5,
        items: 1,
    },
];

/// No unit of the plan.
pub const NONE_FAULTY: u32 = 99;

/// What a unit gave: the number of the unit, or the fault of this one.
pub fn closed(unit: u32, faulty: u32) -> Closed {
    let outcome = if unit == faulty {
        Outcome::Fault
    } else {
        Outcome::Number(u64::from(unit))
    };
    Closed { unit, outcome }
}

/// An entry as it has to be: its kind, with the number of what it is for. A fetch and an item give their number but where it says
/// `Fault`.
#[derive(Clone, Copy)]
pub enum Row {
    Start(u32),
    Skip(u32),
    Submit(u32),
    Park(u32),
    Resume(u32),
    Claim(u32),
    Close(u32),
    Fault(u32),
    Block(u32),
    Unblock(u32),
    End(u32),
}

// The kind of an entry as it has to be.
fn kind_of(row: Row) -> Kind {
    match row {
        Row::Start(task) => Kind::Start(task),
        Row::Skip(task) => Kind::Skip(task),
        Row::Submit(action) => Kind::Submit(action),
        Row::Park(action) => Kind::Park(action),
        Row::Resume(action) => Kind::Resume(action),
        Row::Claim(unit) => Kind::Claim(unit),
        Row::Close(unit) => Kind::Close(closed(unit, NONE_FAULTY)),
        Row::Fault(unit) => Kind::Close(closed(unit, unit)),
        Row::Block(unit) => Kind::Block(Some(unit)),
        Row::Unblock(unit) => Kind::Unblock(Some(closed(unit, NONE_FAULTY))),
        Row::End(task) => Kind::End(task),
    }
}

// Whether the history has this entry at this place, which isn't a failed one.
fn has_row(book: &Book, place: u64, row: Row) -> bool {
    if place < book.given() || place >= book.len() {
        return false;
    }
    let shown = book.entry(place);
    !shown.failed && shown.kind == kind_of(row)
}

// Whether the history is made of these entries, in order.
fn has_rows(book: &Book, rows: &[Row]) -> bool {
    for (place, row) in rows.iter().enumerate() {
        if !has_row(book, place as u64, *row) {
            return false;
        }
    }
    book.len() == rows.len() as u64
}

// How many entries of the history close a unit.
fn closings(book: &Book) -> u64 {
    let mut count = 0;
    for place in book.given()..book.len() {
        if let Kind::Close(_) | Kind::Unblock(Some(_)) = book.entry(place).kind {
            count += 1;
        }
    }
    count
}

/// What is to be found in a book.
#[derive(Clone, Copy)]
pub enum Found<'a> {
    /// These entries, in order, and no others. None failed.
    Rows(&'a [Row]),
    /// All tasks have ended, so many units were closed, and none is queued.
    AllEnded { closed: u64 },
}

impl Question for Found<'_> {
    type Answer = bool;

    ghost answers = { λ _ _ _ _ _. Unit {0} };

    ghost waits_on = { λ _ _ _ _. ⊥ };

    ghost awaits = { λ _. None };

    fn awaited(&self) -> Option<Awaited> {
        None
    }

    fn ask(&self, _worker: WorkerId, book: &Book, _queued: bool) -> Option<bool> {
        Some(match *self {
            Found::Rows(rows) => has_rows(book, rows),
            Found::AllEnded { closed } => {
                book.all_tasks_ended() && closings(book) == closed && !book.has_queued()
            }
        })
    }
}

/// What the first worker owes alone, where each unit passes.
pub static ALL_PASS: [Row; 30] = [
    Row::Start(0),
    Row::Block(0),
    Row::Unblock(0),
    Row::Submit(0),
    Row::Park(0),
    Row::Claim(1),
    Row::Close(1),
    Row::Claim(2),
    Row::Close(2),
    Row::Resume(0),
    Row::End(0),
    Row::Start(1),
    Row::Submit(1),
    Row::Park(1),
    Row::Claim(3),
    Row::Close(3),
    Row::Resume(1),
    Row::Submit(2),
    Row::Park(2),
    Row::Claim(4),
    Row::Close(4),
    Row::Resume(2),
    Row::End(1),
    Row::Start(2),
    Row::Submit(3),
    Row::Park(3),
    Row::Claim(5),
    Row::Close(5),
    Row::Resume(3),
    Row::End(2),
];

/// The same where the item of the second task's first action fails: its second action never runs, and the third task is skipped.
pub static ONE_FAILS: [Row; 19] = [
    Row::Start(0),
    Row::Block(0),
    Row::Unblock(0),
    Row::Submit(0),
    Row::Park(0),
    Row::Claim(1),
    Row::Close(1),
    Row::Claim(2),
    Row::Close(2),
    Row::Resume(0),
    Row::End(0),
    Row::Start(1),
    Row::Submit(1),
    Row::Park(1),
    Row::Claim(3),
    Row::Fault(3),
    Row::Resume(1),
    Row::End(1),
    Row::Skip(2),
];
