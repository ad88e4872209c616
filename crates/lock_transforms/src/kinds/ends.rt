//! Ending a task.
ghost use Rattle.std.specs.Prelude.{◌≡◌, ◌≤◌, ◌<◌, ◌+◌, ◌||◌, ◌∷◌, [], false, length, if◌then◌else◌};
ghost use Rattle.std.specs.List.{list_all, list_any, range_with_len};
ghost use Rattle.resource_lock.specs.Change.{same_mark};
ghost use Rattle.resource_lock.specs.GraphView.{task_of};
ghost use Rattle.resource_lock.specs.Ranges.{actions_of, earlier_actions, units_of};
ghost use Rattle.resource_lock.specs.Shape.{BelongsTo};
ghost use Rattle.resource_lock.specs.StateView.{mark_of};
ghost use Rattle.lock_transforms.specs.Allowed.{IsDisabled, IsFixedList};
ghost use Rattle.lock_transforms.specs.Making.{Makes};
ghost use Rattle.lock_transforms.specs.MostChanges.{most_of};
ghost use Rattle.lock_transforms.specs.Table.{end_mark, has_passed, is_enabled, never_ran, units_passed};
ghost use Rattle.lock_transforms.specs.declared.entries.Kind.TheVariants as kinds;
ghost use Rattle.resource_lock.specs.declared.marks.MarkId.TheVariants as ids;
ghost use Rattle.resource_lock.specs.declared.marks.Mark.TheVariants as marks;

use crate::entries::Kind;
use crate::kinds::fixed::{FixedKind, finish_or_retry};
use crate::kinds::making::try_change;
use crate::kinds::marks::units_passed;
use crate::kinds::most::changes_below;
use crate::kinds::ranges::{NumberRange, actions_of, earlier_actions, lock_of, units_of};
use crate::kinds::skipping::skip_waiting;
use crate::tentatives::Tentative;
use crate::transforms::{Disposition, Transform};
use resource_lock::{Change, Graph, LockId, Mark, MarkId, State, WorkerId};

/// Ends a task that the worker runs: the actions that never ran are skipped with their units, and
/// the task's mark becomes Passed, or Failed where one of its units hasn't passed. A worker with a
/// lease gives it back, and the task's lock.
///
/// An action never ran where it and its units are Waiting and an earlier action of the task has a
/// failed unit.
///
/// It never fails. It asks to be run again where the worker doesn't run the task, is parked, blocked
/// or runs a unit, where an action neither has passed nor never ran, where the worker has a lease
/// and doesn't own the lock, and where the graph has no such task.
#[derive(Clone, Copy)]
pub struct End {
    /// The task's number.
    pub task: u32,
}

impl Transform for End {
    ghost kind_of = { λ t. kinds.End t.task };

    ghost most = { λ t g w s. most_of g w s (kinds.End t.task) };

    ghost more_locks = { λ _. 0 };

    ghost makes = { λ t. IsFixedList (kinds.End t.task) };

    ghost fails_on = { λ t g w s. ⊥ };

    ghost retries_on = { λ t. IsDisabled (kinds.End t.task) };

    fn kind(&self) -> Kind {
        Kind::End(self.task)
    }

    fn most_changes(&self, graph: &Graph, _state: &State, _worker: WorkerId) -> u64 {
        3 + changes_below(graph, self.task)
    }

    fn more_locks(&self) -> usize {
        0
    }

    fn apply(&self, work: &mut Tentative, own: &[LockId]) -> Disposition {
        finish_or_retry(self, work, own)
    }

    fn waits_for_news(&self) {}
}

impl FixedKind for End {
    ghost kind_of = { λ t. kinds.End t.task };

    fn is_in_range(&self, graph: &Graph) -> bool {
        (self.task as usize) < graph.tasks().len()
    }

    fn condition_holds(&self, graph: &Graph, state: &State, worker: WorkerId) -> bool {
        let actions = actions_of(graph, self.task);
        state.mark(MarkId::Task(self.task)) == Mark::Running(worker)
            && !state.is_parked(worker)
            && !state.blocked(worker)
            && !state.runs_unit(worker)
            && all_through(graph, state, actions)
    }

    fn make(&self, work: &mut Tentative, _own: &[LockId]) -> bool {
        // Both are of the state before the entry.
        let leased = work.state().has_lease(work.worker());
        let mark = end_mark(work.graph(), work.state(), self.task);
        let actions = actions_of(work.graph(), self.task);
        if !skip_waiting(work, actions) {
            return false;
        }
        end_task(work, self.task, mark, leased)
    }
}

// Moves the worker's task to a mark, and gives its lock and the lease back where there is a lease.
fn end_task(work: &mut Tentative, task: u32, mark: Mark, leased: bool) -> bool
    requires belongs { BelongsTo work.old.graph work.old.state }
    requires in_range { task < length work.old.graph.tasks }
    requires room { 3 ≤ work.old.room }
    ensures { Makes work.old work.new (Change.Move (ids.Task task) (marks.Running work.old.worker) mark
        ∷ (if leased then Change.Unlock (task_of work.old.graph task).lock ∷ Change.Give ∷ [] else [])) result }
{
    let lock = lock_of(work.graph(), task);
    let running = Mark::Running(work.worker());
    let ended = Change::Move(MarkId::Task(task), running, mark);
    if leased {
        try_change(work, ended)
            && try_change(work, Change::Unlock(lock))
            && try_change(work, Change::Give)
    } else {
        try_change(work, ended)
    }
}

// Whether each of these actions has passed or never ran.
fn all_through(graph: &Graph, state: &State, actions: NumberRange) -> bool
    requires belongs { BelongsTo graph.now state.now }
    requires in_range { actions.first + actions.count ≤ length graph.now.actions }
    ensures { result ≡ list_all (λ a. has_passed (mark_of state.now (ids.Action a))
        || never_ran graph.now state.now a) (range_with_len actions.first actions.count) }
{
    (actions.first..actions.first + actions.count).all(|action| is_through(graph, state, action))
}

// Whether an action has passed or never ran.
fn is_through(graph: &Graph, state: &State, action: u32) -> bool
    requires belongs { BelongsTo graph.now state.now }
    requires in_range { action < length graph.now.actions }
    ensures { result ≡ (has_passed (mark_of state.now (ids.Action action)) || never_ran graph.now state.now action) }
{
    state.mark(MarkId::Action(action)).has_passed() || never_ran(graph, state, action)
}

// Whether an action never ran, since one of its task before it has a failed unit.
fn never_ran(graph: &Graph, state: &State, action: u32) -> bool
    requires belongs { BelongsTo graph.now state.now }
    requires in_range { action < length graph.now.actions }
    ensures { result ≡ never_ran graph.now state.now action }
{
    state.mark(MarkId::Action(action)) == Mark::Waiting
        && all_waiting(state, units_of(graph, action))
        && some_earlier_failed(graph, state, action)
}

// Whether each of these units is Waiting.
fn all_waiting(state: &State, units: NumberRange) -> bool
    requires { units.first + units.count ≤ length state.now.units }
    ensures { result ≡ list_all (λ u. same_mark (mark_of state.now (ids.Unit u)) marks.Waiting) (range_with_len units.first units.count) }
{
    (units.first..units.first + units.count).all(|unit| state.mark(MarkId::Unit(unit))
        == Mark::Waiting)
}

// Whether an action before this one in its task has a failed unit.
fn some_earlier_failed(graph: &Graph, state: &State, action: u32) -> bool
    requires belongs { BelongsTo graph.now state.now }
    requires in_range { action < length graph.now.actions }
    ensures { result ≡ list_any (λ b. list_any (λ u. same_mark (mark_of state.now (ids.Unit u)) marks.Failed)
        (units_of graph.now b)) (earlier_actions graph.now action) }
{
    let earlier = earlier_actions(graph, action);
    (earlier.first..earlier.first + earlier.count).any(|action| has_failed(graph, state, action))
}

// Whether an action has a failed unit.
fn has_failed(graph: &Graph, state: &State, action: u32) -> bool
    requires belongs { BelongsTo graph.now state.now }
    requires in_range { action < length graph.now.actions }
    ensures { result ≡ list_any (λ u. same_mark (mark_of state.now (ids.Unit u)) marks.Failed) (units_of graph.now action) }
{
    let units = units_of(graph, action);
    (units.first..units.first + units.count).any(|unit| state.mark(MarkId::Unit(unit))
        == Mark::Failed)
}

// The mark that a task ends with: Passed where all its units have passed.
fn end_mark(graph: &Graph, state: &State, task: u32) -> Mark
    requires belongs { BelongsTo graph.now state.now }
    requires in_range { task < length graph.now.tasks }
    ensures { result ≡ end_mark graph.now state.now task }
{
    if all_units_passed(graph, state, actions_of(graph, task)) {
        Mark::Passed
    } else {
        Mark::Failed
    }
}

// Whether each unit of these actions has passed.
fn all_units_passed(graph: &Graph, state: &State, actions: NumberRange) -> bool
    requires belongs { BelongsTo graph.now state.now }
    requires in_range { actions.first + actions.count ≤ length graph.now.actions }
    ensures { result ≡ list_all (units_passed graph.now state.now) (range_with_len actions.first actions.count) }
{
    (actions.first..actions.first + actions.count).all(|action| units_passed(graph, state, action))
}
