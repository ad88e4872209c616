//! Graphs, and the changes of their states.
ghost use Rattle.std.specs.Prelude.{◌≡◌, IfOk, length, true};
ghost use Rattle.resource_lock.specs.Change.{NamesOnly, can, make};
ghost use Rattle.resource_lock.specs.StateView.{IsWorkerOf};
ghost use Rattle.state_tests.specs.Sizes.{HasSizes};

use crate::fitting::fitting_graph;
use crate::graphs::tasks_of;
use crate::lock_calls::{Call, all_go};
use crate::rows::{Limits, TaskRow};
use resource_lock::{
    Change, Graph, GraphAction, LockId, MAX_LEASES, MAX_LOCKS, MAX_WORKERS, Mark, MarkId,
    Retention, State, WorkerId, retentions_have_words_of_their_own,
};
use std::alloc::{AllocError, Global};
use std::process::Abort;

const LIMITS: Limits = Limits {
    locks: 2,
    all: None,
    workers: 3,
    max_leases: 2,
};

const FIRST: TaskRow = TaskRow {
    lock: 0,
    after: None,
    first_action: 0,
    actions: 1,
};

const SECOND: TaskRow = TaskRow {
    lock: 1,
    after: Some(0),
    first_action: 1,
    actions: 2,
};

/// A task with a fetch and two items, and a task after it of two actions.
static TASKS: [TaskRow; 2] = [FIRST, SECOND];

const FETCHES: GraphAction = GraphAction {
    task: 0,
    retention: Retention::ReleaseAndReacquire,
    fetch: true,
    first_unit: 0,
    items: 2,
};

const RETAINS: GraphAction = GraphAction {
    task: 1,
    retention: Retention::Retain,
    fetch: false,
    first_unit: 3,
    items: 1,
};

const RELEASES: GraphAction = GraphAction {
    task: 1,
    retention: Retention::Release,
    fetch: true,
    first_unit: 4,
    items: 1,
};

static ACTIONS: [GraphAction; 3] = [FETCHES, RETAINS, RELEASES];

// Whether the graph has what it was made of.
fn has_its_parts(graph: &Graph) -> bool {
    (graph.locks(), graph.workers(), graph.max_leases()) == (2, 3, 2)
        && (graph.tasks().len(), graph.actions().len(), graph.units()) == (2, 3, 6)
}

/// Each unit, its action, and whether it is an item.
static UNITS: [(u32, u32, bool); 6] = [
    (0, 0, false),
    (1, 0, true),
    (2, 0, true),
    (3, 1, true),
    (4, 2, false),
    (5, 2, true),
];

// Whether the graph knows the action of each unit.
fn knows_its_units(graph: &Graph) -> bool {
    for (unit, action, item) in &UNITS {
        let is_known = *unit < graph.units()
            && graph.action_with(*unit) == *action
            && graph.is_item(*unit) == *item;
        if !is_known {
            return false;
        }
    }
    true
}

// Whether the graph is as before, and knows the action of each unit, where these are noted.
fn knows_noted_units(alloc: Global, graph: &mut Graph) -> Result<bool, AllocError> {
    graph.note_unit_actions(alloc)?;
    Ok(has_its_parts(graph) && knows_its_units(graph))
}

#[test]
fn a_graph_knows_its_parts_and_the_action_of_each_unit(rt: HostRuntime) -> Result<(), AllocError> {
    let mut graph = fitting_graph(&rt, rt.alloc(), &LIMITS, &TASKS, &ACTIONS)?;
    assert!(rt; has_its_parts(&graph) && knows_its_units(&graph));
    assert!(rt; knows_noted_units(rt.alloc(), &mut graph)?);
    Ok(())
}

// Whether these parts fit. Want of memory ends a test.
fn fits(
    alloc: Global,
    limits: &Limits,
    rows: &[TaskRow],
    actions: &[GraphAction],
) -> Result<bool, AllocError> {
    let tasks = tasks_of(alloc, rows)?;
    Ok(Graph::fits(
        limits.locks,
        limits.all,
        limits.workers,
        limits.max_leases,
        &tasks,
        actions,
    ))
}

/// Limits that the tasks and actions don't fit.
static UNFIT_LIMITS: [Limits; 7] = [
    Limits {
        workers: 0,
        ..LIMITS
    },
    Limits {
        workers: MAX_WORKERS + 1,
        ..LIMITS
    },
    Limits {
        max_leases: 0,
        ..LIMITS
    },
    Limits {
        max_leases: MAX_LEASES + 1,
        ..LIMITS
    },
    Limits { locks: 1, ..LIMITS },
    Limits {
        locks: MAX_LOCKS + 1,
        ..LIMITS
    },
    Limits {
        all: Some(LockId(2)),
        ..LIMITS
    },
];

/// Actions that don't fit: with no item, with a gap in the units, with the task of another, with
/// no such task, and with one too few.
static UNFIT_ACTIONS: [&[GraphAction]; 5] = [
    &[
        FETCHES,
        GraphAction {
            items: 0,
            ..RETAINS
        },
        RELEASES,
    ],
    &[
        FETCHES,
        RETAINS,
        GraphAction {
            first_unit: 5,
            ..RELEASES
        },
    ],
    &[FETCHES, GraphAction { task: 0, ..RETAINS }, RELEASES],
    &[
        FETCHES,
        RETAINS,
        GraphAction {
            task: 2,
            ..RELEASES
        },
    ],
    &[FETCHES, RETAINS],
];

/// Tasks that don't fit: with the actions of another, and after no such task.
static UNFIT_TASKS: [[TaskRow; 2]; 2] = [
    [
        FIRST,
        TaskRow {
            first_action: 0,
            ..SECOND
        },
    ],
    [
        FIRST,
        TaskRow {
            after: Some(2),
            ..SECOND
        },
    ],
];

#[test]
fn fits_refuses_each_fault(rt: HostRuntime) -> Result<(), AllocError> {
    for limits in &UNFIT_LIMITS {
        assert!(rt; !fits(rt.alloc(), limits, &TASKS, &ACTIONS)?);
    }
    for actions in &UNFIT_ACTIONS {
        assert!(rt; !fits(rt.alloc(), &LIMITS, &TASKS, actions)?);
    }
    for rows in &UNFIT_TASKS {
        assert!(rt; !fits(rt.alloc(), &LIMITS, rows, &ACTIONS)?);
    }
    Ok(())
}

// The state of the graph as it opens.
fn opening(rt: &impl Abort, alloc: Global) -> Result<Box<State>, AllocError>
    ensures { IfOk result (λ state. HasSizes state.value) }
{
    let graph = fitting_graph(rt, alloc, &LIMITS, &TASKS, &ACTIONS)?;
    Ok(Box::new(alloc, State::opening(alloc, &graph)?)?)
}

/// The locks of the state.
const LOCK: LockId = LockId(0);

/// A lock is its owner's alone.
static OWNED_ALONE: [(u32, Call); 5] = [
    (0, Call::TryLock(LOCK, true)),
    (0, Call::TryLock(LOCK, true)),
    (1, Call::TryLock(LOCK, false)),
    (1, Call::Unlock(LOCK)),
    (1, Call::IsKept(LOCK, true)),
];

/// No more leases are out than may be.
static LEASES_LIMITED: [(u32, Call); 6] = [
    (0, Call::TryLease(true, 1)),
    (1, Call::TryLease(true, 2)),
    (2, Call::TryLease(false, 2)),
    (0, Call::TryLease(true, 2)),
    (0, Call::GiveLease),
    (2, Call::TryLease(true, 2)),
];

// Whether a state tells of a worker whether it runs something.
fn tells_who_runs(state: &mut State) -> bool
    requires { HasSizes state.old }
    ensures locks { length state.new.owners ≡ 2 }
    ensures workers { length state.new.holdings ≡ 3 }
{
    let (worker, task) = (WorkerId(2), MarkId::Task(0));
    let start = Change::Move(task, Mark::Waiting, Mark::Running(worker));
    if !state.is_idle(worker) || !state.can(worker, start) {
        return false;
    }
    state.make(worker, start);
    let runs = state.runs_task(worker) && state.runs_any(worker);
    let has_more = state.runs_unit(worker) || state.is_parked(worker) || state.owns_any(worker);
    let are_idle = (state.is_idle(worker), state.is_idle(WorkerId(1)));
    state.mark(task) == Mark::Running(worker) && runs && !has_more && are_idle == (false, true)
}

// Makes a change where it can be made.
fn try_make(state: &mut State, worker: WorkerId, change: Change) -> bool
    requires worker { IsWorkerOf state.old worker }
    requires change { NamesOnly state.old change }
    ensures possible { result ≡ can state.old worker change }
    ensures made { result ≡ true → state.new ≡ make state.old worker change }
{
    if !state.can(worker, change) {
        return false;
    }
    state.make(worker, change);
    true
}

// Whether changes can be taken back.
fn are_taken_back(state: &mut State) -> bool
    requires locks { length state.old.owners ≡ 2 }
    requires workers { length state.old.holdings ≡ 3 }
{
    let (worker, lock) = (WorkerId(0), LockId(1));
    if state.has_parked(worker, lock) || !state.try_lock(worker, lock) || state.leases_out() != 2 {
        return false;
    }
    let changes = [Change::Unlock(lock), Change::Park(lock), Change::Enter];
    let [unlock, park, enter] = changes;
    if !try_make(state, worker, unlock)
        || !try_make(state, worker, park)
        || !try_make(state, worker, enter)
    {
        return false;
    }
    let was_blocked = state.blocked(worker) && state.parked(worker) == [lock].as_slice();
    state.take_back(worker, &changes);
    was_blocked
        && state.owner(lock) == Some(worker)
        && !state.blocked(worker)
        && state.parked(worker).is_empty()
}

#[test]
fn a_state_follows_its_workers(rt: HostRuntime) -> Result<(), AllocError> {
    assert!(rt; all_go(&mut *opening(&rt, rt.alloc())?, 3, 2, &OWNED_ALONE));
    let mut state = opening(&rt, rt.alloc())?;
    assert!(rt;
        tells_who_runs(&mut state)
            && all_go(&mut state, 3, 2, &LEASES_LIMITED)
            && are_taken_back(&mut state)
    );
    Ok(())
}

/// The words of the retentions, and some others.
static WORDS: [&str; 3] = ["retain", "release", "release_and_reacquire"];

static NO_WORDS: [&str; 5] = ["", "retai", "retains", "Release", "release-and-reacquire"];

#[test]
fn words_of_retentions(rt: HostRuntime) {
    retentions_have_words_of_their_own();
    for (retention, word) in Retention::ALL.iter().zip(&WORDS) {
        assert!(rt; retention.word() == *word && Retention::of_word(word) == Some(*retention));
    }
    for word in &NO_WORDS {
        assert!(rt; Retention::of_word(word).is_none());
    }
}
