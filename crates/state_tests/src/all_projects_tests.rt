//! The all-projects lock: who owns it owns alone.
ghost use Rattle.std.specs.Prelude.{◌≡◌, IfOk, length};
ghost use Rattle.resource_lock.specs.Shape.{BelongsTo};
ghost use Rattle.ready_work.specs.ReadyWork.{IsIndexOf};

use crate::fitting::fitting_graph;
use crate::indexed::{Indexed, open_index};
use crate::lock_calls::{Call, all_go};
use crate::rows::{Limits, TaskRow};
use ready_work::ReadyWork;
use resource_lock::{
    Change, Graph, GraphAction, LockId, Retention, State, WorkerId,
    owners_of_conflicting_locks_keep_others_from_them,
};
use std::alloc::{AllocError, Global};
use std::process::Abort;

/// Two projects, and the all-projects lock behind theirs.
const LIMITS: Limits = Limits {
    locks: 3,
    all: Some(LockId(2)),
    workers: 2,
    max_leases: 2,
};

// The state of a run of two projects as it opens.
fn opening(rt: &impl Abort, alloc: Global) -> Result<Box<State>, AllocError>
    ensures locks { IfOk result (λ state. length state.value.owners ≡ 3) }
    ensures workers { IfOk result (λ state. length state.value.holdings ≡ 2) }
{
    let graph = fitting_graph(rt, alloc, &LIMITS, &[], &[])?;
    Ok(Box::new(alloc, State::opening(alloc, &graph)?)?)
}

/// The locks of two projects, and the all-projects lock.
const OWN: LockId = LockId(0);

const OTHER: LockId = LockId(1);

const ALL: LockId = LockId(2);

/// A worker that owns a lock takes the all-projects lock, which no other does, and keeps others from their locks until it gives it
/// back.
static CALLS: [(u32, Call); 8] = [
    (0, Call::TryLock(OWN, true)),
    (1, Call::TryLock(ALL, false)),
    (0, Call::TryLock(ALL, true)),
    (1, Call::TryLock(OTHER, false)),
    (1, Call::IsKept(OTHER, true)),
    (0, Call::IsKept(OTHER, false)),
    (0, Call::Unlock(ALL)),
    (1, Call::TryLock(OTHER, true)),
];

#[test]
fn the_all_projects_lock_is_owned_alone(rt: HostRuntime) -> Result<(), AllocError> {
    owners_of_conflicting_locks_keep_others_from_them();
    let mut state = opening(&rt, rt.alloc())?;
    assert!(rt; state.all() == Some(ALL) && all_go(&mut state, 2, 3, &CALLS));
    Ok(())
}

// A task with a lock and one action, that of its number.
fn task(number: u32, lock: u32) -> TaskRow {
    TaskRow {
        lock,
        after: None,
        first_action: number,
        actions: 1,
    }
}

// An action of a task, with one item.
fn action(task: u32) -> GraphAction {
    GraphAction {
        task,
        retention: Retention::Retain,
        fetch: false,
        first_unit: task,
        items: 1,
    }
}

// Has worker 0 take a lock or give it back where it can, and the index follow.
fn take_or_give(
    graph: &Graph,
    state: &mut State,
    ready: &mut ReadyWork,
    takes: bool,
    lock: LockId,
) -> bool
    requires belongs { BelongsTo graph.now state.old }
    requires index { IsIndexOf graph.now state.old ready.old }
    ensures belongs { BelongsTo graph.now state.new }
    ensures index { IsIndexOf graph.now state.new ready.new }
{
    let worker = WorkerId(0);
    if graph.workers() == 0 || lock.0 >= graph.locks() {
        return false;
    }
    let change = if takes {
        Change::Lock(lock)
    } else {
        Change::Unlock(lock)
    };
    if !state.can(worker, change) {
        return false;
    }
    state.make(worker, change);
    ready.follow(graph, state, &[change]);
    true
}

/// Whether worker 0 takes or gives back a lock, and then the first task to start: none while the all-projects lock is owned, and
/// not that with it while another is.
static OWNERS: [(bool, LockId, Option<u32>); 4] = [
    (true, OWN, Some(2)),
    (false, OWN, Some(0)),
    (true, ALL, None),
    (false, ALL, Some(0)),
];

// Whether the task to start goes by who owns which lock.
fn starts_by_owners(all: &mut Indexed) -> bool
    requires belongs { BelongsTo all.old.graph.value all.old.state }
    requires index { IsIndexOf all.old.graph.value all.old.state all.old.ready }
{
    let Indexed {
        graph,
        state,
        ready,
    } = all;
    if ready.first_to_start(state) != Some(0) {
        return false;
    }
    for (takes, lock, first) in &OWNERS {
        if !take_or_give(graph, state, ready, *takes, *lock)
            || ready.first_to_start(state) != *first
        {
            return false;
        }
    }
    true
}

#[test]
fn the_task_to_start_goes_by_the_owners(rt: HostRuntime) -> Result<(), AllocError> {
    let alloc = rt.alloc();
    // The first and the third task have locks of projects, and the second has the all-projects lock.
    let tasks = [task(0, 0), task(1, 2), task(2, 1)];
    let actions = [action(0), action(1), action(2)];
    let graph = fitting_graph(&rt, alloc, &LIMITS, &tasks, &actions)?;
    let mut indexed = open_index(alloc, graph)?;
    let starts = starts_by_owners(&mut indexed);
    drop(indexed);
    assert!(rt; starts);
    Ok(())
}
