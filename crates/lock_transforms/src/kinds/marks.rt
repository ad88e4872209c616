//! Tests of marks that several kinds share.
ghost use Rattle.std.specs.Prelude.{◌≡◌, ◌<◌, ◌≤◌, ◌+◌, length};
ghost use Rattle.std.specs.List.{list_all, range_with_len};
ghost use Rattle.resource_lock.specs.Shape.{BelongsTo};
ghost use Rattle.resource_lock.specs.StateView.{mark_of};
ghost use Rattle.lock_transforms.specs.Table.{earlier_passed, has_passed, mark_from, units_passed, works_on};
ghost use Rattle.resource_lock.specs.declared.marks.MarkId.TheVariants as ids;

use crate::kinds::ranges::{NumberRange, earlier_actions, units_of};
use item_actions::Outcome;
use resource_lock::{Graph, Mark, MarkId, State, WorkerId};

/// Whether a worker runs a task and works on it now: it has a lease, and isn't parked.
pub(crate) fn works_on(state: &State, worker: WorkerId, task: u32) -> bool
    requires worker_in_range { worker.0 < length state.now.holdings }
    requires task_in_range { task < length state.now.tasks }
    ensures { result ≡ works_on state.now worker task }
{
    state.mark(MarkId::Task(task)) == Mark::Running(worker)
        && state.has_lease(worker)
        && !state.is_parked(worker)
}

/// Whether each of these units has passed.
pub(crate) fn all_passed(state: &State, units: NumberRange) -> bool
    requires { units.first + units.count ≤ length state.now.units }
    ensures { result ≡ list_all (λ u. has_passed (mark_of state.now (ids.Unit u))) (range_with_len units.first units.count) }
{
    (units.first..units.first + units.count).all(|unit| state.mark(MarkId::Unit(unit)).has_passed())
}

/// Whether each unit of an action has passed.
pub(crate) fn units_passed(graph: &Graph, state: &State, action: u32) -> bool
    requires belongs { BelongsTo graph.now state.now }
    requires in_range { action < length graph.now.actions }
    ensures { result ≡ units_passed graph.now state.now action }
{
    all_passed(state, units_of(graph, action))
}

/// Whether each earlier action of the same task has passed, and each of its units.
pub fn earlier_passed(graph: &Graph, state: &State, action: u32) -> bool
    requires belongs { BelongsTo graph.now state.now }
    requires in_range { action < length graph.now.actions }
    ensures { result ≡ earlier_passed graph.now state.now action }
{
    let earlier = earlier_actions(graph, action);
    (earlier.first..earlier.first + earlier.count).all(|action| {
        state.mark(MarkId::Action(action)).has_passed() && units_passed(graph, state, action)
    })
}

/// The mark of a unit that ended with an outcome.
pub(crate) fn mark_from(outcome: Outcome) -> Mark
    ensures { result ≡ mark_from outcome }
{
    match outcome {
        Outcome::Number(_) | Outcome::Digest(_) => Mark::Passed,
        _ => Mark::Failed,
    }
}
