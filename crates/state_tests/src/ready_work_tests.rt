//! The index of what can be done next, and the sets of numbers that it is kept in.
ghost use Rattle.std.specs.Prelude.{◌≡◌, ◌≤◌, true};
ghost use Rattle.resource_lock.specs.Shape.{BelongsTo};
ghost use Rattle.resource_lock.specs.StateView.{StateView, IsMarkOf};
ghost use Rattle.ready_work.specs.NumberSetView.{room_of};
ghost use Rattle.ready_work.specs.ReadyWork.{IsIndexOf};

use crate::fitting::fitting_graph;
use crate::graphs::tasks_of;
use crate::indexed::{Indexed, open_index};
use crate::rows::{Limits, TaskRow};
use ready_work::{NumberSet, ReadyWork};
use resource_lock::{
    Change, Graph, GraphAction, GraphTask, LockId, Mark, MarkId, Retention, State, WorkerId,
};
use std::alloc::{AllocError, Global};
use std::process::Abort;

const FIRST: WorkerId = WorkerId(0);

const LIMITS: Limits = Limits {
    locks: 1,
    all: None,
    workers: 1,
    max_leases: 1,
};

// A task with one action, that of its number.
fn task(number: u32, after: Option<u32>) -> TaskRow {
    TaskRow {
        lock: 0,
        after,
        first_action: number,
        actions: 1,
    }
}

// An action of a task, with two items.
fn action(task: u32, first_unit: u32) -> GraphAction {
    GraphAction {
        task,
        retention: Retention::Retain,
        fetch: false,
        first_unit,
        items: 2,
    }
}

// Whether the graph has what is named.
fn has_mark(graph: &Graph, id: MarkId) -> bool
    ensures { (s : StateView) → BelongsTo graph.now s → result ≡ true → IsMarkOf s id }
{
    match id {
        MarkId::Task(task) => (task as usize) < graph.tasks().len(),
        MarkId::Action(action) => (action as usize) < graph.actions().len(),
        MarkId::Unit(unit) => unit < graph.units(),
    }
}

// Moves a mark where it can be moved, and has the index follow.
fn move_mark(graph: &Graph, state: &mut State, ready: &mut ReadyWork, id: MarkId, to: Mark) -> bool
    requires belongs { BelongsTo graph.now state.old }
    requires index { IsIndexOf graph.now state.old ready.old }
    ensures belongs { BelongsTo graph.now state.new }
    ensures index { IsIndexOf graph.now state.new ready.new }
{
    if graph.workers() == 0 || !has_mark(graph, id) {
        return false;
    }
    let change = Change::Move(id, state.mark(id), to);
    if !state.can(FIRST, change) {
        return false;
    }
    state.make(FIRST, change);
    ready.follow(graph, state, &[change]);
    true
}

/// A mark that is moved, and then the lowest task to skip and to start.
type Step = (MarkId, Mark, Option<u32>, Option<u32>);

static STEPS: [Step; 9] = [
    (MarkId::Unit(3), Mark::Queued, None, Some(0)),
    (MarkId::Unit(3), Mark::Running(FIRST), None, Some(0)),
    (MarkId::Task(0), Mark::Running(FIRST), None, Some(2)),
    (MarkId::Task(0), Mark::Passed, None, Some(1)),
    (MarkId::Task(0), Mark::Failed, Some(1), Some(2)),
    (MarkId::Task(0), Mark::Waiting, None, Some(0)),
    (MarkId::Task(0), Mark::Skipped, Some(1), Some(2)),
    (MarkId::Task(1), Mark::Skipped, None, Some(2)),
    (MarkId::Task(2), Mark::Passed, None, None),
];

// Whether the index tells these as the lowest.
fn tells(ready: &ReadyWork, state: &State, to_skip: Option<u32>, to_start: Option<u32>) -> bool {
    ready.first_to_skip() == to_skip && ready.first_to_start(state) == to_start
}

// Takes the steps one after another, and looks at what the index tells behind each.
fn follows(all: &mut Indexed, steps: &[Step]) -> bool
    requires belongs { BelongsTo all.old.graph.value all.old.state }
    requires index { IsIndexOf all.old.graph.value all.old.state all.old.ready }
{
    let Indexed {
        graph,
        state,
        ready,
    } = all;
    for (id, to, to_skip, to_start) in steps {
        let goes = !ready.all_ended()
            && move_mark(graph, state, ready, *id, *to)
            && tells(ready, state, *to_skip, *to_start);
        if !goes {
            return false;
        }
    }
    true
}

// Three tasks, of which the second comes after the first.
fn three_tasks(rt: &impl Abort, alloc: Global) -> Result<Box<Graph>, AllocError> {
    let tasks = [task(0, None), task(1, Some(0)), task(2, None)];
    let actions = [action(0, 0), action(1, 2), action(2, 4)];
    fitting_graph(rt, alloc, &LIMITS, &tasks, &actions)
}

// Whether the steps go as they have to, after the last of which all tasks have ended.
fn follows_to_the_end(all: &mut Indexed) -> bool
    requires belongs { BelongsTo all.old.graph.value all.old.state }
    requires index { IsIndexOf all.old.graph.value all.old.state all.old.ready }
{
    follows(all, &STEPS)
        && all.ready.all_ended()
        && all.ready.first_open_unit(1) == Some(1)
        && all.ready.first_open_unit(6).is_none()
}

#[test]
fn the_lowest_are_told_as_marks_move(rt: HostRuntime) -> Result<(), AllocError> {
    let graph = three_tasks(&rt, rt.alloc())?;
    let mut all = open_index(rt.alloc(), graph)?;
    let told = follows_to_the_end(&mut all);
    drop(all);
    assert!(rt; told);
    Ok(())
}

/// A task without actions.
const ALONE: TaskRow = TaskRow {
    lock: 0,
    after: None,
    first_action: 0,
    actions: 0,
};

// Two tasks, of which the second names the first twice.
fn a_name_that_stands_twice(rt: &impl Abort, alloc: Global) -> Result<Box<Graph>, AllocError> {
    let mut tasks = tasks_of(alloc, &[ALONE])?;
    let second = GraphTask {
        lock: LockId(ALONE.lock),
        first_action: ALONE.first_action,
        actions: ALONE.actions,
    };
    tasks.push(second, &[0, 0])?;
    assert!(rt; Graph::fits(1, None, 1, 1, &tasks, &[]));
    let graph = Graph::new(1, None, 1, 1, tasks, Vec::new(alloc));
    Ok(Box::new(alloc, graph)?)
}

/// The second task can be started once the first has passed, and not before.
static TWICE: [Step; 2] = [
    (MarkId::Task(0), Mark::Running(FIRST), None, None),
    (MarkId::Task(0), Mark::Passed, None, Some(1)),
];

#[test]
fn a_name_that_stands_twice_has_passed_at_once(rt: HostRuntime) -> Result<(), AllocError> {
    let graph = a_name_that_stands_twice(&rt, rt.alloc())?;
    let mut all = open_index(rt.alloc(), graph)?;
    let told = follows(&mut all, &TWICE);
    drop(all);
    assert!(rt; told);
    Ok(())
}

/// A number that is put into a set or taken from it, and then the lowest member, and the lowest
/// from 64 on.
type Put = (u32, bool, Option<u32>, Option<u32>);

static PUTS: [Put; 8] = [
    (8_191, true, Some(8_191), Some(8_191)),
    (4_096, true, Some(4_096), Some(4_096)),
    (64, true, Some(64), Some(64)),
    (63, true, Some(63), Some(64)),
    (64, false, Some(63), Some(4_096)),
    (63, false, Some(4_096), Some(4_096)),
    (4_096, false, Some(8_191), Some(8_191)),
    (8_191, false, None, None),
];

/// At both sides of where a word of each level ends.
static PUTS_OF_MANY: [Put; 12] = [
    (4_194_303, true, Some(4_194_303), Some(4_194_303)),
    (262_144, true, Some(262_144), Some(262_144)),
    (262_143, true, Some(262_143), Some(262_143)),
    (4_096, true, Some(4_096), Some(4_096)),
    (4_095, true, Some(4_095), Some(4_095)),
    (63, true, Some(63), Some(4_095)),
    (4_095, false, Some(63), Some(4_096)),
    (4_096, false, Some(63), Some(262_143)),
    (63, false, Some(262_143), Some(262_143)),
    (262_143, false, Some(262_144), Some(262_144)),
    (262_144, false, Some(4_194_303), Some(4_194_303)),
    (4_194_303, false, None, None),
];

// Whether a set of so many numbers tells what it has to behind each put.
fn tells_its_lowest(set: &mut NumberSet, len: u32, puts: &[Put]) -> bool
    requires { len ≤ room_of set.old }
{
    for (number, is_member, first, next) in puts {
        if *number >= len {
            return false;
        }
        set.put(*number, *is_member);
        if set.first() != *first || set.next_from(64) != *next {
            return false;
        }
    }
    true
}

#[test]
fn a_set_tells_its_lowest_number(rt: HostRuntime) -> Result<(), AllocError> {
    let mut set = NumberSet::new(rt.alloc(), 8_192)?;
    assert!(rt; tells_its_lowest(&mut set, 8_192, &PUTS));
    Ok(())
}

#[test]
fn a_large_set_tells_its_lowest_number(rt: HostRuntime) -> Result<(), AllocError> {
    let mut set = NumberSet::new(rt.alloc(), 4_194_304)?;
    assert!(rt; tells_its_lowest(&mut set, 4_194_304, &PUTS_OF_MANY));
    Ok(())
}
