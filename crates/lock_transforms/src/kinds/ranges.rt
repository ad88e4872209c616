//! What a graph says of a task or an action, as ranges of numbers.
ghost use Rattle.std.specs.Prelude.{◌≡◌, ◌<◌, ◌≤◌, ◌+◌, ◌-◌, ◌^◌, All, length};
ghost use Rattle.resource_lock.specs.declared.limits.TheConstants.{MAX_UNITS};
ghost use Rattle.resource_lock.specs.Fits.{Fits};
ghost use Rattle.resource_lock.specs.GraphView.{task_of, action_of};
ghost use Rattle.resource_lock.specs.Ranges.{IsActionOf, units_in, first_item, task_with};

use resource_lock::{Graph, GraphAction, LockId};

/// Numbers in a row: so many from the first on.
#[derive(Clone, Copy)]
pub struct NumberRange {
    /// The first.
    pub first: u32,
    /// How many there are.
    pub count: u32,
    ghost fits: { first + count < 2 ^ 32 },
}

/// The lock of a task.
pub(crate) fn lock_of(graph: &Graph, task: u32) -> LockId
    requires { task < length graph.now.tasks }
    ensures value { result ≡ (task_of graph.now task).lock }
    ensures in_range { result.0 < graph.now.locks }
{
    graph.tasks().at(task as usize).lock
}

/// The tasks that a task comes after.
pub(crate) fn after_of(graph: &Graph, task: u32) -> &[u32]
    requires { task < length graph.now.tasks }
    ensures value { result.now ≡ (task_of graph.now task).after }
    ensures in_range { All (λ k. k < length graph.now.tasks) result.now }
{
    graph.tasks().after(task as usize)
}

/// The actions of a task.
pub fn actions_of(graph: &Graph, task: u32) -> NumberRange
    requires { task < length graph.now.tasks }
    ensures first { result.first ≡ (task_of graph.now task).first_action }
    ensures count { result.count ≡ (task_of graph.now task).actions }
    ensures in_range { result.first + result.count ≤ length graph.now.actions }
    ensures fits { Fits graph.now }
{
    let task = graph.tasks().at(task as usize);
    NumberRange {
        first: task.first_action,
        count: task.actions,
    }
}

/// An action of the graph.
pub fn action_of(graph: &Graph, action: u32) -> GraphAction
    requires { action < length graph.now.actions }
    ensures value { result ≡ action_of graph.now action }
    ensures task { result.task < length graph.now.tasks }
    ensures own { IsActionOf graph.now result.task action }
    ensures units { result.first_unit + units_in result ≤ graph.now.units }
    ensures few { graph.now.units ≤ MAX_UNITS }
{
    graph.actions()[action as usize]
}

/// The actions before an action in its task.
pub(crate) fn earlier_actions(graph: &Graph, action: u32) -> NumberRange
    requires { action < length graph.now.actions }
    ensures first { result.first ≡ (task_of graph.now (task_with graph.now action)).first_action }
    ensures last { result.first + result.count ≡ action }
{
    let first = actions_of(graph, action_of(graph, action).task).first;
    NumberRange {
        first,
        count: action - first,
    }
}

/// The units of an action, its fetch first.
pub(crate) fn units_of(graph: &Graph, action: u32) -> NumberRange
    requires { action < length graph.now.actions }
    ensures first { result.first ≡ (action_of graph.now action).first_unit }
    ensures count { result.count ≡ units_in (action_of graph.now action) }
    ensures in_range { result.first + result.count ≤ graph.now.units }
{
    let action = action_of(graph, action);
    NumberRange {
        first: action.first_unit,
        count: action.items + u32::from(action.fetch),
    }
}

/// The items of an action.
pub(crate) fn items_of(graph: &Graph, action: u32) -> NumberRange
    requires { action < length graph.now.actions }
    ensures first { result.first ≡ first_item (action_of graph.now action) }
    ensures count { result.count ≡ (action_of graph.now action).items }
    ensures in_range { result.first + result.count ≤ graph.now.units }
    ensures few { result.count ≤ MAX_UNITS }
{
    let action = action_of(graph, action);
    NumberRange {
        first: action.first_unit + u32::from(action.fetch),
        count: action.items,
    }
}
