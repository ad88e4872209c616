//! Books whose last entries are taken back.
use crate::fitting::fitting_graph;
use crate::numbers::Numbers;
use crate::rows::{Limits, TaskRow};
use item_actions::Outcome;
use lock_journal::{Book, Shown};
use lock_transforms::kinds::{
    Acquire, Block, Claim, Close, End, HandBack, Park, Resume, Shortage, Skip, Start, Submit,
    Unblock,
};
use lock_transforms::{Closed, Disposition, Kind};
use ready_work::ReadyWork;
use resource_lock::{GraphAction, LockId, Retention, WorkerId};
use std::alloc::{AllocError, Global};
use std::process::Abort;

const LIMITS: Limits = Limits {
    locks: 2,
    all: None,
    workers: 2,
    max_leases: 1,
};

/// A task with a fetch and two items, and one after it with an item.
static TASKS: [TaskRow; 2] = [
    TaskRow {
        lock: 0,
        after: None,
        first_action: 0,
        actions: 1,
    },
    TaskRow {
        lock: 1,
        after: Some(0),
        first_action: 1,
        actions: 1,
    },
];

static ACTIONS: [GraphAction; 2] = [
    GraphAction {
        task: 0,
        retention: Retention::ReleaseAndReacquire,
        fetch: true,
        first_unit: 0,
        items: 2,
    },
    GraphAction {
        task: 1,
        retention: Retention::Retain,
        fetch: false,
        first_unit: 3,
        items: 1,
    },
];

// A book of these tasks without entries.
pub(crate) fn opening(rt: &impl Abort, alloc: Global) -> Result<Box<Book>, AllocError> {
    let graph = fitting_graph(rt, alloc, &LIMITS, &TASKS, &ACTIONS)?;
    let book = Book::opening(alloc, Box::into_inner(graph), 0, 0)?;
    Ok(Box::new(alloc, book)?)
}

// Runs the transform of a kind. An `Acquire` takes the first lock, or fails.
pub(crate) fn run(
    book: &mut Book,
    worker: WorkerId,
    kind: Kind,
) -> Result<Disposition, AllocError> {
    if worker.0 >= book.graph().workers() {
        return Ok(Disposition::Retry);
    }
    match kind {
        Kind::Start(task) => book.run(worker, &[], &Start { task }),
        Kind::Skip(task) => book.run(worker, &[], &Skip { task }),
        Kind::Submit(action) => book.run(worker, &[], &Submit { action }),
        Kind::Park(action) => book.run(worker, &[], &Park { action }),
        Kind::Resume(action) => book.run(worker, &[], &Resume { action }),
        Kind::Claim(unit) => book.run(worker, &[], &Claim { unit }),
        Kind::Close(closed) => book.run(worker, &[], &Close { closed }),
        Kind::Block(unit) => book.run(worker, &[], &Block { unit }),
        Kind::Unblock(closed) => book.run(worker, &[], &Unblock { closed }),
        Kind::End(task) => book.run(worker, &[], &End { task }),
        Kind::Acquire => {
            let locks = [LockId(0)];
            let shortage = Shortage::Fails;
            book.run(
                worker,
                &[],
                &Acquire {
                    locks: &locks,
                    shortage,
                },
            )
        }
        Kind::HandBack => book.run(worker, &[], &HandBack),
    }
}

// Takes entries back until there are so many, and answers whether there are.
fn take_back_to(book: &mut Book, len: u64) -> bool {
    for _ in len..book.len() {
        if book.len() == book.given() {
            return false;
        }
        book.take_back();
    }
    book.len() == len
}

// Whether the first worker owns the first lock and has the only lease.
fn is_taken(book: &Book) -> bool {
    book.graph().locks() > 0
        && book.state().owner(LockId(0)) == Some(WorkerId(0))
        && book.state().leases_out() == 1
}

// Whether nobody owns the first lock or has a lease.
fn is_free(book: &Book) -> bool {
    book.graph().locks() > 0
        && book.state().owner(LockId(0)).is_none()
        && book.state().leases_out() == 0
}

// Whether what was taken is free again once the entry is taken back.
fn frees_what_was_taken(book: &mut Book) -> Result<bool, AllocError> {
    let taken = run(book, WorkerId(0), Kind::Acquire)? == Disposition::Finished;
    Ok(taken && is_taken(book) && take_back_to(book, 0) && is_free(book))
}

// Whether a failed entry that is taken back leaves the state.
fn leaves_the_state(book: &mut Book) -> Result<bool, AllocError> {
    let taken = run(book, WorkerId(0), Kind::Acquire)? == Disposition::Finished;
    let failed = run(book, WorkerId(1), Kind::Acquire)? == Disposition::Failed;
    Ok(taken && failed && book.len() == 2 && take_back_to(book, 1) && is_taken(book))
}

const FETCHED: Closed = Closed {
    unit: 0,
    outcome: Outcome::Number(7),
};

/// It fails the task.
const NOT_FETCHED: Closed = Closed {
    unit: 0,
    outcome: Outcome::NotThere,
};

const COUNTED: Closed = Closed {
    unit: 1,
    outcome: Outcome::Number(1),
};

const DIGESTED: Closed = Closed {
    unit: 2,
    outcome: Outcome::Digest([2; 32]),
};

const LAST: Closed = Closed {
    unit: 3,
    outcome: Outcome::TooLong,
};

static KINDS: [Kind; 24] = [
    Kind::Start(0),
    Kind::Start(1),
    Kind::Skip(1),
    Kind::Block(None),
    Kind::Block(Some(0)),
    Kind::Unblock(None),
    Kind::Unblock(Some(FETCHED)),
    Kind::Unblock(Some(NOT_FETCHED)),
    Kind::Submit(0),
    Kind::Submit(1),
    Kind::Park(0),
    Kind::Park(1),
    Kind::Claim(1),
    Kind::Claim(2),
    Kind::Claim(3),
    Kind::Close(COUNTED),
    Kind::Close(DIGESTED),
    Kind::Close(LAST),
    Kind::Resume(0),
    Kind::Resume(1),
    Kind::End(0),
    Kind::End(1),
    Kind::Acquire,
    Kind::HandBack,
];

// A worker, and what it tries.
pub(crate) fn draw(numbers: &mut Numbers) -> (WorkerId, Kind) {
    let kind = KINDS[numbers.below(24) as usize];
    (WorkerId(numbers.below(2)), kind)
}

// Whether both tell the same of what can be done next, and have as many entries.
pub(crate) fn tell_the_same(one: &Book, other: &Book) -> bool {
    one.len() == other.len()
        && one.first_open_unit(0) == other.first_open_unit(0)
        && one.first_open_unit(2) == other.first_open_unit(2)
        && one.lowest_to_skip() == other.lowest_to_skip()
        && one.lowest_to_start() == other.lowest_to_start()
        && one.all_tasks_ended() == other.all_tasks_ended()
        && one.state().leases_out() == other.state().leases_out()
}

// Whether a book, which followed each entry, tells what an index tells that is made anew of its graph and state.
fn tells_what_is(alloc: Global, book: &Book) -> Result<bool, AllocError> {
    let graph = book.graph();
    let state = book.state();
    let mut ready = ReadyWork::of(alloc, graph, state)?;
    ready.keep_queued(alloc, graph, state)?;
    Ok(
        book.lowest_queued() == ready.first_queued(graph, state)
            && book.first_open_unit(0) == ready.first_open_unit(0)
            && book.first_open_unit(2) == ready.first_open_unit(2)
            && book.lowest_to_skip() == ready.first_to_skip()
            && book.lowest_to_start() == ready.first_to_start(state),
    )
}

// Whether each unit has the same outcome in both, which keep all entries.
fn have_the_same_outcomes(one: &Book, other: &Book) -> bool {
    if one.given() > 0 || other.given() > 0 {
        return false;
    }
    let units = one.graph().units().min(other.graph().units());
    for unit in 0..units {
        if one.outcome(unit) != other.outcome(unit) {
            return false;
        }
    }
    true
}

// Whether both show the same.
pub(crate) fn are_alike(one: &Shown<'_>, other: &Shown<'_>) -> bool {
    one.worker == other.worker
        && one.kind == other.kind
        && one.failed == other.failed
        && one.changes.eq(other.changes)
}

// Whether both keep all entries, and have the same.
fn have_the_same_entries(one: &Book, other: &Book) -> bool {
    for place in 0..one.len() {
        if place < one.given() || place < other.given() || place >= other.len() {
            return false;
        }
        if !are_alike(&one.entry(place), &other.entry(place)) {
            return false;
        }
    }
    one.len() == other.len()
}

// Runs some transforms and takes their entries back.
fn runs_in_vain(book: &mut Book, numbers: &mut Numbers) -> Result<bool, AllocError> {
    let len = book.len();
    for _ in 0..numbers.below(6) {
        let (worker, kind) = draw(numbers);
        let _ = run(book, worker, kind)?;
    }
    Ok(take_back_to(book, len))
}

// Whether a transform comes to the same in both, and left an entry in one, but where it is to be run again.
fn runs_alike(
    book: &mut Book,
    copy: &mut Book,
    worker: WorkerId,
    kind: Kind,
) -> Result<bool, AllocError> {
    let len = book.len();
    let ran = run(book, worker, kind)?;
    let entries = u64::from(ran != Disposition::Retry);
    Ok(book.len().checked_sub(len) == Some(entries) && run(copy, worker, kind)? == ran)
}

// Whether a book in which more is run and taken back goes the way of one in which it isn't.
fn goes_the_same_way(alloc: Global, book: &mut Book, copy: &mut Book) -> Result<bool, AllocError> {
    book.keep_queued(alloc)?;
    let mut numbers = Numbers { state: 1 };
    for _ in 0..3_000 {
        if !runs_in_vain(book, &mut numbers)? {
            return Ok(false);
        }
        let (worker, kind) = draw(&mut numbers);
        if !runs_alike(book, copy, worker, kind)? {
            return Ok(false);
        }
        if !tell_the_same(book, copy) || !have_the_same_outcomes(book, copy) {
            return Ok(false);
        }
        if !tells_what_is(alloc, book)? {
            return Ok(false);
        }
    }
    Ok(have_the_same_entries(book, copy))
}

// Whether a book whose entries are taken back is as before, and then goes the way of its copy through the whole plan.
fn goes_on_as_before(alloc: Global, book: &mut Book, copy: &mut Book) -> Result<bool, AllocError> {
    Ok(
        frees_what_was_taken(book)?
            && leaves_the_state(book)?
            && take_back_to(book, 0)
            && goes_the_same_way(alloc, book, copy)?
            && book.all_tasks_ended(),
    )
}

#[test]
fn a_book_whose_entries_are_taken_back_goes_on_as_before(
    rt: HostRuntime,
) -> Result<(), AllocError> {
    let mut book = opening(&rt, rt.alloc())?;
    let mut copy = opening(&rt, rt.alloc())?;
    let goes_on = goes_on_as_before(rt.alloc(), &mut book, &mut copy);
    drop(book);
    drop(copy);
    assert!(rt; goes_on?);
    Ok(())
}
