//! The graph of a plan that was made by calls.
ghost use Rattle.std.specs.Prelude.{◌≡◌, ◌≤◌, ◌+◌, ◌++◌, IfErr, IfOk, length, map, sum_by};
ghost use Rattle.resource_lock.specs.declared.limits.TheConstants.{MAX_TASKS, MAX_UNITS};
ghost use Rattle.ready_work.specs.Rank.{lists_of};
ghost use Rattle.planned_work.specs.Fitting.{IsPlanFit};
ghost use Rattle.planned_work.specs.Graphs.{WhyNoGraph, actions_from, actions_in, all_actions_from, graph_of_plan, rows_from};
ghost use Rattle.planned_work.specs.Numbers.{task_without_names, without_names};
ghost use Rattle.planned_work.specs.Plans.{planned_task_view, units_of_action, units_of_task};

use crate::opening::OpenRefusal;
use crate::plans::{PlannedAction, PlannedTask, WorkPlan};
use ready_work::first_cycle;
use resource_lock::{Graph, GraphAction, GraphTask, GraphTasks, LockId};
use std::alloc::{AllocError, Global};

impl WorkPlan {
    /// The graph of the plan, for so many workers and leases: with one lock more than the plan has, the last of which is the all-projects
    /// lock. Each task has a rank, and no action but the last of its task releases.
    ///
    /// `BadNumber` says that there is no such graph: the numbers aren't in range. `Cycle` says that some task has no rank, since it comes
    /// after itself, or after one that does. It takes time and memory that are linear in the plan.
    pub(crate) fn graph(
        &self,
        alloc: Global,
        workers: u32,
        max_leases: u32,
    ) -> Result<Graph, OpenRefusal>
        ensures graph { IfOk result (λ g. g ≡ graph_of_plan self.now workers max_leases) }
        ensures fit { IfOk result (λ g. IsPlanFit g) }
        ensures err { IfErr result (WhyNoGraph self.now workers max_leases) }
    {
        let Ok(tasks) = graph_tasks(alloc, self.tasks(), self.after()) else {
            return Err(OpenRefusal::NoMemory);
        };
        let Ok(actions) = graph_actions(alloc, self.tasks()) else {
            return Err(OpenRefusal::NoMemory);
        };
        let all = LockId(self.locks());
        let locks = self.locks() + 1;
        if !Graph::fits(locks, Some(all), workers, max_leases, &tasks, &actions) {
            return Err(OpenRefusal::BadNumber);
        }
        match first_cycle(alloc, self.after()) {
            Err(_) => Err(OpenRefusal::NoMemory),
            Ok(Some(_)) => Err(OpenRefusal::Cycle),
            Ok(None) => Ok(Graph::new(locks, Some(all), workers, max_leases, tasks, actions)),
        }
    }
}

/// How a graph's actions and units are numbered: the graph without the names that its tasks come after. It fails for want of memory
/// alone.
pub(crate) fn numbers_of(alloc: Global, graph: &Graph) -> Result<Graph, AllocError>
    ensures { IfOk result (λ g. g ≡ without_names graph.now) }
{
    let tasks = tasks_without_names(alloc, graph.tasks())?;
    let mut actions = Vec::with_capacity(alloc, graph.actions().len())?;
    actions.extend_from_slice(graph.actions())?;
    Ok(Graph::new(
        graph.locks(),
        graph.all(),
        graph.workers(),
        graph.max_leases(),
        tasks,
        actions,
    ))
}

// The tasks without the names that they come after.
fn tasks_without_names(alloc: Global, tasks: &GraphTasks) -> Result<GraphTasks, AllocError>
    ensures { IfOk result (λ made. made ≡ map task_without_names tasks.now) }
{
    let mut made = GraphTasks::none(alloc);
    for row in tasks.rows() {
        made.push(*row, &[])?;
    }
    Ok(made)
}

// The tasks of the graph.
fn graph_tasks(
    alloc: Global,
    tasks: &[PlannedTask],
    after: &[Vec<u32>],
) -> Result<GraphTasks, AllocError>
    requires names { length after.now ≡ length tasks.now }
    requires few { actions_in (map planned_task_view tasks.now) ≤ MAX_UNITS }
    ensures { IfOk result (λ made. made ≡ rows_from 0 (map planned_task_view tasks.now) (lists_of after.now)) }
{
    let mut made = GraphTasks::none(alloc);
    let mut first_action = 0;
    for (number, task) in tasks.iter().enumerate() {
        let actions = task.actions.len() as u32;
        let row = GraphTask {
            lock: task.lock,
            first_action,
            actions,
        };
        made.push(row, &after[number])?;
        first_action += actions;
    }
    Ok(made)
}

// The actions of the graph.
fn graph_actions(alloc: Global, tasks: &[PlannedTask]) -> Result<Vec<GraphAction>, AllocError>
    requires tasks { length tasks.now ≤ MAX_TASKS }
    requires few { sum_by units_of_task (map planned_task_view tasks.now) ≤ MAX_UNITS }
    ensures { IfOk result (λ made. made.items ≡ all_actions_from 0 0 (map planned_task_view tasks.now)) }
{
    let mut made = Vec::with_capacity(alloc, tasks.len())?;
    let mut next = 0;
    for (number, task) in tasks.iter().enumerate() {
        next = push_actions(&mut made, number as u32, next, &task.actions)?;
    }
    Ok(made)
}

// Pushes the actions of a task, and answers the number behind their last unit.
fn push_actions(
    made: &mut Vec<GraphAction>,
    task: u32,
    first_unit: u32,
    actions: &[PlannedAction],
) -> Result<u32, AllocError>
    requires { first_unit + sum_by units_of_action actions.now ≤ MAX_UNITS }
    ensures made { IfOk result (λ _. made.new.items ≡ made.old.items ++ actions_from task first_unit actions.now) }
    ensures next { IfOk result (λ next. next ≡ first_unit + sum_by units_of_action actions.now) }
{
    let mut next = first_unit;
    for action in actions {
        made.push(GraphAction {
            task,
            retention: action.retention,
            fetch: action.fetch,
            first_unit: next,
            items: action.items,
        })?;
        next += action.items + u32::from(action.fetch);
    }
    Ok(next)
}
