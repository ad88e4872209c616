//! Orders of tasks, and histories that keep them.
ghost use Rattle.std.specs.Prelude.{◌<◌};

use lock_journal::Book;
use lock_transforms::kinds::{End, Start};
use lock_transforms::{Disposition, Kind, Transform};
use resource_lock::{Graph, GraphTask, GraphTasks, LockId, WorkerId};
use std::alloc::{AllocError, Global};
use std::process::Abort;
use std::test::Fail;
use task_ordering::{
    GivenEntry, Kept, OrderFail, OrderRefusal, OrderTask, Ordering, first_unlawful,
};

/// The lists of a task: those that it comes after, those that it must run after, and those that finalize it.
pub(crate) type Lists = (&'static [u32], &'static [u32], &'static [u32]);

/// Those asked for, and the order.
type Asked = (&'static [u32], Result<&'static [u32], OrderRefusal>);

/// Tasks, and what comes of what is asked of them.
type Row = (&'static [Lists], &'static [Asked]);

static ROWS: [Row; 4] = [
    (
        &[
            (&[], &[], &[]),
            (&[0], &[], &[3]),
            (&[], &[1], &[]),
            (&[], &[], &[]),
        ],
        &[
            (&[2, 1], Ok(&[0, 1, 2, 3])),
            (&[2], Ok(&[2])),
            (&[3, 0], Ok(&[0, 3])),
        ],
    ),
    (
        &[(&[], &[2], &[]), (&[], &[], &[]), (&[], &[], &[])],
        &[
            (&[0, 1, 2], Ok(&[1, 2, 0])),
            (&[0, 1], Ok(&[0, 1])),
            (&[5], Err(OrderRefusal::NoSuchTask(None))),
        ],
    ),
    (
        &[(&[], &[1], &[1]), (&[], &[], &[])],
        &[
            (&[0], Err(OrderRefusal::Cycle(0))),
            (&[], Ok(&[])),
            (&[5], Err(OrderRefusal::NoSuchTask(None))),
        ],
    ),
    (
        &[(&[], &[], &[]), (&[], &[2], &[])],
        &[(&[5], Err(OrderRefusal::NoSuchTask(Some(1))))],
    ),
];

/// Tasks of these lists.
pub(crate) fn tasks_of(alloc: Global, lists: &[Lists]) -> Result<Vec<OrderTask>, AllocError> {
    let mut tasks = Vec::new(alloc);
    for (after, must_after, finalized_by) in lists {
        tasks.push(OrderTask {
            after: after.to_vec(alloc)?,
            must_after: must_after.to_vec(alloc)?,
            finalized_by: finalized_by.to_vec(alloc)?,
        })?;
    }
    Ok(tasks)
}

fn has_order(
    alloc: Global,
    tasks: &[OrderTask],
    asked: &[u32],
    expected: Result<&[u32], OrderRefusal>,
) -> bool {
    match (Ordering::of(alloc, tasks, asked), expected) {
        (Ok(ordering), Ok(order)) => ordering.order() == order,
        (Err(OrderFail::Refused(refusal)), Err(other)) => refusal == other,
        _ => false,
    }
}

#[test]
fn orders_are_the_least(rt: HostRuntime) -> Result<(), Fail> {
    for (lists, all_asked) in &ROWS {
        let tasks = tasks_of(rt.alloc(), lists)?;
        for (asked, expected) in *all_asked {
            assert!(rt; has_order(rt.alloc(), &tasks, asked, *expected));
        }
    }
    Ok(())
}

/// Tasks each of which comes after the next.
fn chain(alloc: Global, count: u32) -> Result<Vec<OrderTask>, AllocError> {
    let mut tasks = Vec::new(alloc);
    for task in 0..count {
        let after = if task < count - 1 {
            [task + 1].to_vec(alloc)?
        } else {
            Vec::new(alloc)
        };
        tasks.push(OrderTask {
            after,
            must_after: Vec::new(alloc),
            finalized_by: Vec::new(alloc),
        })?;
    }
    Ok(tasks)
}

/// The numbers from a count down to 0.
fn falling(alloc: Global, count: u32) -> Result<Vec<u32>, AllocError> {
    (0..count).rev().collect(alloc)
}

#[test]
fn a_chain_runs_backwards_and_more_is_refused(rt: HostRuntime) -> Result<(), Fail> {
    let longest = chain(rt.alloc(), 2048)?;
    let numbers = falling(rt.alloc(), 2048)?;
    assert!(rt; has_order(rt.alloc(), &longest, &numbers, Ok(&numbers)));
    assert!(rt; has_order(rt.alloc(), &longest, &[0], Ok(&numbers)));
    let more = falling(rt.alloc(), 2049)?;
    assert!(rt; has_order(rt.alloc(), &longest, &more, Err(OrderRefusal::TooMany)));
    let longer = chain(rt.alloc(), 2049)?;
    assert!(rt; has_order(rt.alloc(), &longer, &[0], Err(OrderRefusal::TooMany)));
    Ok(())
}

/// Numbers in no order, the same each time: those of bench/orders.py.
#[derive(Drop)]
struct Numbers {
    state: u64,
}

impl Numbers {
    /// The next number, below the bound.
    fn below(&mut self, bound: u32) -> u32
        requires { 0 < bound }
        ensures { result < bound }
    {
        self.state = self.state.wrapping_mul(1_103_515_245).wrapping_add(12345) % 2_147_483_648;
        ((self.state >> 16) % u64::from(bound)) as u32
    }

    /// Mostly the number of a task.
    fn task(&mut self, count: u32) -> u32
        requires { 0 < count }
    {
        if self.below(60) == 0 {
            count
        } else {
            self.below(count)
        }
    }

    /// So many numbers of tasks at most.
    fn some(&mut self, alloc: Global, count: u32, most: u8) -> Result<Vec<u32>, AllocError>
        requires { 0 < count }
    {
        let length = self.below(u32::from(most) + 3).saturating_sub(2);
        let mut numbers = Vec::new(alloc);
        for _ in 0..length {
            numbers.push(self.task(count))?;
        }
        Ok(numbers)
    }

    /// One to six tasks.
    fn tasks(&mut self, alloc: Global, count: u32) -> Result<Vec<OrderTask>, AllocError>
        requires { 0 < count }
    {
        let mut tasks = Vec::new(alloc);
        for _ in 0..count {
            tasks.push(OrderTask {
                after: self.some(alloc, count, 1)?,
                must_after: self.some(alloc, count, 1)?,
                finalized_by: self.some(alloc, count, 1)?,
            })?;
        }
        Ok(tasks)
    }
}

/// The sum with one more number in it.
fn mixed(sum: u32, number: u32) -> u32 {
    ((u64::from(sum) * 31 + u64::from(number)) % 1_000_003) as u32
}

/// The sum with an outcome in it: the kind of outcome, and its numbers.
fn mixed_outcome(sum: u32, outcome: &Result<Ordering, OrderFail>) -> u32 {
    match outcome {
        Ok(ordering) => {
            let order = ordering.order();
            let mut mix = mixed(sum, 4000_u32.saturating_add(order.len().min(9) as u32));
            for task in order {
                mix = mixed(mix, *task);
            }
            mix
        }
        Err(OrderFail::Refused(OrderRefusal::NoSuchTask(Some(task)))) => {
            mixed(sum, task.saturating_add(1000))
        }
        Err(OrderFail::Refused(OrderRefusal::NoSuchTask(None))) => mixed(sum, 2000),
        Err(OrderFail::Refused(OrderRefusal::Cycle(task))) => {
            mixed(sum, task.saturating_add(3000))
        }
        Err(OrderFail::Refused(OrderRefusal::TooMany)) => mixed(sum, 5000),
        Err(OrderFail::NoMemory) => mixed(sum, 6000),
    }
}

#[test]
fn random_tables_have_the_orders_of_another_language(rt: HostRuntime) -> Result<(), Fail> {
    let mut numbers = Numbers { state: 1 };
    let mut sum = 0;
    for _ in 0..500 {
        let count = numbers.below(6) + 1;
        let tasks = numbers.tasks(rt.alloc(), count)?;
        let asked = numbers.some(rt.alloc(), count, 3)?;
        sum = mixed_outcome(sum, &Ordering::of(rt.alloc(), &tasks, &asked));
    }
    // bench/orders.py prints this number, of every order tried.
    assert_eq!(rt; sum, 643_680);
    Ok(())
}

/// Runs a transform of the first worker. Whether it finished.
fn finishes<T: Transform>(book: &mut Book, transform: &T) -> Result<bool, AllocError> {
    if book.graph().workers() == 0 {
        return Ok(false);
    }
    Ok(book.run(WorkerId(0), &[], transform)? == Disposition::Finished)
}

/// A task without actions, whose project has the only lock.
const TASK_ALONE: GraphTask = GraphTask {
    lock: LockId(0),
    first_action: 0,
    actions: 0,
};

/// The graph of two tasks, for one worker.
pub(crate) fn graph_of_two(rt: &impl Abort, alloc: Global) -> Result<Graph, AllocError> {
    let mut tasks = GraphTasks::none(alloc);
    tasks.push(TASK_ALONE, &[])?;
    tasks.push(TASK_ALONE, &[])?;
    assert!(rt; Graph::fits(1, None, 1, 1, &tasks, &[]));
    Ok(Graph::new(1, None, 1, 1, tasks, Vec::new(alloc)))
}

/// A book of two tasks, for one worker.
fn book_of_two(rt: &impl Abort, alloc: Global) -> Result<Book, AllocError> {
    Book::opening(alloc, graph_of_two(rt, alloc)?, 0, 0)
}

/// Task 1 after task 0.
pub(crate) static PAIR: [Lists; 2] = [(&[], &[], &[]), (&[0], &[], &[])];

#[test]
fn a_task_starts_after_those_before_it(rt: HostRuntime) -> Result<(), Fail> {
    let tasks = tasks_of(rt.alloc(), &PAIR)?;
    let Ok(ordering) = Ordering::of(rt.alloc(), &tasks, &[1]) else {
        assert!(rt; false);
        return Ok(());
    };
    let mut early = book_of_two(&rt, rt.alloc())?;
    assert!(rt; finishes(&mut early, &Start { task: 1 })?);
    assert!(rt; early.given() == 0);
    assert!(rt; ordering.check(rt.alloc(), &early)? == Kept::Broken(1));

    let mut kept = book_of_two(&rt, rt.alloc())?;
    assert!(rt; finishes(&mut kept, &Start { task: 0 })?);
    // It fails, so it starts nothing.
    assert!(rt; !finishes(&mut kept, &Start { task: 1 })?);
    assert!(rt; finishes(&mut kept, &End { task: 0 })?);
    assert!(rt; finishes(&mut kept, &Start { task: 1 })?);
    assert!(rt; kept.given() == 0);
    assert!(rt; ordering.check(rt.alloc(), &kept)? == Kept::Kept);
    Ok(())
}

/// An entry of the first worker that failed, or that finished without a change, which no start does.
fn entry_of(alloc: Global, kind: Kind, failed: bool) -> GivenEntry {
    GivenEntry {
        worker: WorkerId(0),
        kind,
        changes: if failed { None } else { Some(Vec::new(alloc)) },
    }
}

#[test]
fn entries_that_are_not_lawful_are_looked_through_too(rt: HostRuntime) -> Result<(), Fail> {
    let tasks = tasks_of(rt.alloc(), &PAIR)?;
    let Ok(ordering) = Ordering::of(rt.alloc(), &tasks, &[1]) else {
        assert!(rt; false);
        return Ok(());
    };
    let mut entries = Vec::new(rt.alloc());
    // No task runs, so it can't be ended.
    entries.push(entry_of(rt.alloc(), Kind::End(0), true))?;
    let graph = graph_of_two(&rt, rt.alloc())?;
    assert!(rt; first_unlawful(rt.alloc(), graph, &entries)?.is_none());
    assert!(rt; ordering.check(rt.alloc(), &entries)? == Kept::Kept);

    entries.push(entry_of(rt.alloc(), Kind::Start(0), false))?;
    assert!(rt; ordering.check(rt.alloc(), &entries)? == Kept::Kept);
    entries.push(entry_of(rt.alloc(), Kind::Start(1), false))?;
    let graph = graph_of_two(&rt, rt.alloc())?;
    assert!(rt; first_unlawful(rt.alloc(), graph, &entries)? == Some(2));
    assert!(rt; ordering.check(rt.alloc(), &entries)? == Kept::Broken(3));
    Ok(())
}
