//! Graphs at each of their limits, and over it by one.
use crate::room_tests::actions_of;
use lock_journal::Book;
use lock_transforms::Disposition;
use lock_transforms::kinds::{Acquire, End, HandBack, Shortage, Start};
use resource_lock::{
    Graph, GraphAction, GraphTask, GraphTasks, LockId, MAX_ACTIONS_PER_TASK, MAX_AFTER, MAX_LEASES,
    MAX_LOCKS, MAX_TASKS, MAX_UNITS, MAX_WORKERS, WorkerId,
};
use std::alloc::{AllocError, Global};

#[test]
fn the_limits_are_those_of_a_large_machine(rt: HostRuntime) {
    assert!(rt; (MAX_WORKERS, MAX_LEASES, MAX_LOCKS) == (256, 256, 65_536));
    assert!(rt; (MAX_TASKS, MAX_AFTER) == (1_048_576, MAX_TASKS));
    assert!(rt; (MAX_UNITS, MAX_ACTIONS_PER_TASK) == (4_194_304, 1_048_576));
}

const LAST: Option<LockId> = Some(LockId(MAX_LOCKS - 1));

/// How many locks a graph without tasks has, which of them is the all-projects lock, how many workers and leases, and whether it
/// fits. The all-projects lock is one of the locks.
static LIMITS: [(u32, Option<LockId>, u32, u32, bool); 6] = [
    (MAX_LOCKS, LAST, MAX_WORKERS, MAX_LEASES, true),
    (MAX_LOCKS, LAST, MAX_WORKERS + 1, MAX_LEASES, false),
    (MAX_LOCKS, LAST, MAX_WORKERS, MAX_LEASES + 1, false),
    (MAX_LOCKS, None, 1, 1, true),
    (MAX_LOCKS + 1, None, 1, 1, false),
    (MAX_LOCKS, Some(LockId(MAX_LOCKS)), 1, 1, false),
];

#[test]
fn one_worker_or_lease_or_lock_more_is_refused(rt: HostRuntime) {
    let none = GraphTasks::none(rt.alloc());
    for (locks, all, workers, max_leases, fits) in &LIMITS {
        assert!(rt; Graph::fits(*locks, *all, *workers, *max_leases, &none, &[]) == *fits);
    }
}

// A task of so many actions, from the first on.
fn task(actions: u32) -> GraphTask {
    GraphTask {
        lock: LockId(0),
        first_action: 0,
        actions,
    }
}

// A task of so many actions.
fn task_of_actions(alloc: Global, actions: u32) -> Result<GraphTasks, AllocError> {
    let mut tasks = GraphTasks::none(alloc);
    tasks.push(task(actions), &[])?;
    Ok(tasks)
}

// So many tasks without actions, of which the second comes after the first.
fn many_tasks(alloc: Global, count: u32) -> Result<GraphTasks, AllocError> {
    let mut tasks = GraphTasks::none(alloc);
    for number in 0..count {
        if number == 1 {
            tasks.push(task(0), &[0])?;
        } else {
            tasks.push(task(0), &[])?;
        }
    }
    Ok(tasks)
}

// A task, and one that comes so often after it.
fn task_after(alloc: Global, names: usize) -> Result<GraphTasks, AllocError> {
    let mut tasks = task_of_actions(alloc, 0)?;
    let after = vec![in alloc; 0; names]?;
    tasks.push(task(0), &after)?;
    Ok(tasks)
}

/// How large a graph is.
#[derive(Clone, Copy)]
enum Size {
    /// So many tasks without actions.
    Tasks(u32),
    /// A task that comes so often after the one before it.
    Names(usize),
    /// A task of so many actions, each of them with so many items.
    Actions(u32, u32),
}

// Whether a graph of this size fits, for one worker.
fn fits(alloc: Global, size: Size) -> Result<bool, AllocError> {
    let (tasks, actions) = match size {
        Size::Tasks(count) => (many_tasks(alloc, count)?, Vec::new(alloc)),
        Size::Names(names) => (task_after(alloc, names)?, Vec::new(alloc)),
        Size::Actions(count, items) => {
            let actions = actions_of(alloc, count, items)?;
            (task_of_actions(alloc, count)?, actions)
        }
    };
    Ok(Graph::fits(1, None, 1, 1, &tasks, &actions))
}

const UNITS: u32 = MAX_UNITS as u32;

/// At each limit, and over it by one. As many units as may be are those of one action, or of many.
static SIZES: [(Size, bool); 10] = [
    (Size::Tasks(MAX_TASKS as u32), true),
    (Size::Tasks(MAX_TASKS as u32 + 1), false),
    (Size::Names(MAX_AFTER), true),
    (Size::Names(MAX_AFTER + 1), false),
    (Size::Actions(MAX_ACTIONS_PER_TASK, 1), true),
    (Size::Actions(MAX_ACTIONS_PER_TASK + 1, 1), false),
    (Size::Actions(1, UNITS), true),
    (Size::Actions(1, UNITS + 1), false),
    (Size::Actions(1_024, UNITS / 1_024), true),
    (Size::Actions(1_025, UNITS / 1_024), false),
];

#[test]
fn one_task_or_name_or_action_or_unit_more_is_refused(rt: HostRuntime) -> Result<(), AllocError> {
    for (size, is_fit) in &SIZES {
        assert!(rt; fits(rt.alloc(), *size)? == *is_fit);
    }
    Ok(())
}

// A book of these tasks, without actions, for so many locks, workers and leases.
fn book_of(
    alloc: Global,
    locks: u32,
    workers: u32,
    max_leases: u32,
    tasks: GraphTasks,
) -> Result<Option<Box<Book>>, AllocError> {
    let actions = Vec::new(alloc);
    if !Graph::fits(locks, None, workers, max_leases, &tasks, &actions) {
        return Ok(None);
    }
    let graph = Graph::new(locks, None, workers, max_leases, tasks, actions);
    let book = Book::opening(alloc, graph, 0, 0)?;
    Ok(Some(Box::new(alloc, book)?))
}

// Whether the first task can be started and ended, and the second one then, which comes after it.
fn begins(book: &mut Book) -> Result<bool, AllocError> {
    if book.graph().workers() == 0 || book.lowest_to_start() != Some(0) {
        return Ok(false);
    }
    let worker = WorkerId(0);
    Ok(
        book.run(worker, &[], &Start { task: 0 })? == Disposition::Finished
            && book.lowest_to_start().is_none()
            && book.run(worker, &[], &End { task: 0 })? == Disposition::Finished
            && book.lowest_to_start() == Some(1),
    )
}

#[test]
fn a_book_of_as_many_tasks_as_may_be_begins(rt: HostRuntime) -> Result<(), AllocError> {
    let tasks = many_tasks(rt.alloc(), MAX_TASKS as u32)?;
    let mut book = book_of(rt.alloc(), 1, 1, 1, tasks)?.expect(&rt, "a graph that fits");
    let has_all = book.graph().tasks().len() == MAX_TASKS;
    let begins = begins(&mut book);
    drop(book);
    assert!(rt; has_all && begins?);
    Ok(())
}

// What comes of it when a worker takes a lock and a lease, or fails.
fn take(book: &mut Book, worker: u32, lock: u32) -> Result<Disposition, AllocError> {
    if worker >= book.graph().workers() {
        return Ok(Disposition::Retry);
    }
    let acquire = Acquire {
        locks: &[LockId(lock)],
        shortage: Shortage::Fails,
    };
    book.run(WorkerId(worker), &[], &acquire)
}

// The lock that a worker takes: they lie as far from each other as they can.
fn lock_of(worker: u32) -> u32 {
    worker.saturating_mul(MAX_LOCKS / MAX_WORKERS)
}

// Whether each worker can take a lock and a lease. All leases but one are out then, and the next worker has the last.
fn take_all(book: &mut Book) -> Result<bool, AllocError> {
    for worker in 0..MAX_WORKERS {
        if book.state().leases_out() != worker
            || take(book, worker, lock_of(worker))? != Disposition::Finished
        {
            return Ok(false);
        }
    }
    Ok(book.state().leases_out() == MAX_LEASES)
}

// Whether each worker can hand back what it has.
fn hand_back_all(book: &mut Book) -> Result<bool, AllocError> {
    for worker in 0..book.graph().workers().min(MAX_WORKERS) {
        if worker >= book.graph().workers()
            || book.run(WorkerId(worker), &[LockId(lock_of(worker))], &HandBack)?
                != Disposition::Finished
        {
            return Ok(false);
        }
    }
    Ok(book.state().leases_out() == 0)
}

/// A worker, a lock that it takes with a lease, and what comes of it.
type Take = (u32, u32, Disposition);

// Whether workers take locks as they have to.
fn take_as(book: &mut Book, takes: &[Take]) -> Result<bool, AllocError> {
    for (worker, lock, disposition) in takes {
        if take(book, *worker, *lock)? != *disposition {
            return Ok(false);
        }
    }
    Ok(true)
}

/// Where each worker has a lock: of what another has none gets anything, and each may take the last lock beside its own.
static BESIDE: [Take; 3] = [
    (0, 255 * (MAX_LOCKS / MAX_WORKERS), Disposition::Failed),
    (0, MAX_LOCKS - 1, Disposition::Finished),
    (1, MAX_LOCKS - 1, Disposition::Failed),
];

/// Where all is handed back.
static AFTERWARDS: [Take; 1] = [(1, MAX_LOCKS - 1, Disposition::Finished)];

// Whether each worker can have a lease and a lock beside all others, and hand them back.
fn serves_all(book: &mut Book) -> Result<bool, AllocError> {
    Ok(
        take_all(book)?
            && take_as(book, &BESIDE)?
            && hand_back_all(book)?
            && take_as(book, &AFTERWARDS)?,
    )
}

#[test]
fn as_many_workers_as_may_be_have_a_lease_and_a_lock_each(
    rt: HostRuntime,
) -> Result<(), AllocError> {
    let tasks = GraphTasks::none(rt.alloc());
    let opened = book_of(rt.alloc(), MAX_LOCKS, MAX_WORKERS, MAX_LEASES, tasks)?;
    let mut book = opened.expect(&rt, "a graph that fits");
    let serves = serves_all(&mut book);
    drop(book);
    assert!(rt; serves?);
    Ok(())
}
