//! The graph of a plan.
ghost use Rattle.std.specs.Prelude.{◌≡◌, ◌+◌, ◌<◌, ◌≤◌, ◌++◌, map, length, IfOk, All};
ghost use Rattle.std.specs.List.{flat_map};
ghost use Rattle.resource_lock.specs.ProjectLocks.{project_lock_count};
ghost use Rattle.resource_lock.specs.declared.limits.TheConstants.{MAX_LOCKS};
ghost use Rattle.plan_reader.specs.declared.limits.TheConstants.{MAX_ACTIONS_PER_TASK, MAX_LEASES, MAX_TASKS, MAX_UNITS, MAX_WORKERS};
ghost use Rattle.plan_reader.specs.PlanView.{plan_action_view, plan_task_view};
ghost use Rattle.plan_reader.specs.Units.{task_units};
ghost use Rattle.plan_reader.specs.Graph.{all_projects_lock, task_lock, tasks_from, actions_from, units_in_all, all_actions_from, graph_of};

use crate::plans::{Plan, PlanAction, PlanTask};
use resource_lock::{
    Graph, GraphAction, GraphTask, GraphTasks, LockId, project_lock, project_lock_count,
};
use std::alloc::{AllocError, Global};

impl Plan {
    /// The graph of the plan, for 1 to `MAX_WORKERS` workers and 1 to `MAX_LEASES` leases. With `parallel`
    /// each project has a lock of its own, without it all share one. Behind these stands the all-projects lock, which the tasks have
    /// that ask for all projects. An error is want of memory.
    pub fn graph(
        &self,
        alloc: Global,
        workers: u32,
        max_leases: u32,
        parallel: bool,
    ) -> Result<Graph, AllocError>
        requires some_worker { 1 ≤ workers }
        requires few_workers { workers ≤ MAX_WORKERS }
        requires some_lease { 1 ≤ max_leases }
        requires few_leases { max_leases ≤ MAX_LEASES }
        ensures { IfOk result (λ g. g ≡ graph_of self.now workers max_leases parallel) }
    {
        let all = self.all_projects_lock(parallel);
        let tasks = graph_tasks(alloc, self.tasks(), parallel, all)?;
        let actions = graph_actions(alloc, self.tasks())?;
        let locks = all.0 + 1;
        Ok(Graph::new(locks, Some(all), workers, max_leases, tasks, actions))
    }

    // The lock behind those of the projects.
    fn all_projects_lock(&self, parallel: bool) -> LockId
        ensures lock { result ≡ all_projects_lock self.now parallel }
        ensures few { result.0 < MAX_LOCKS }
    {
        LockId(project_lock_count(parallel, self.projects().len() as u32))
    }
}

// The lock of a task: its project's, or the all-projects lock.
fn task_lock(task: &PlanTask, parallel: bool, all: LockId) -> LockId
    ensures { result ≡ task_lock all parallel (plan_task_view task.now) }
{
    if task.all_projects {
        all
    } else {
        project_lock(parallel, task.project)
    }
}

// The tasks of the graph.
fn graph_tasks(
    alloc: Global,
    tasks: &[PlanTask],
    parallel: bool,
    all: LockId,
) -> Result<GraphTasks, AllocError>
    requires few_tasks { length tasks.now ≤ MAX_TASKS }
    requires few_actions { All (λ t. length t.actions ≤ MAX_ACTIONS_PER_TASK) (map plan_task_view tasks.now) }
    ensures { IfOk result (λ made. made ≡ tasks_from (task_lock all parallel) 0 (map plan_task_view tasks.now)) }
{
    let mut made = GraphTasks::none(alloc);
    let mut first_action = 0;
    for task in tasks {
        let actions = task.actions.len() as u32;
        let row = GraphTask {
            lock: task_lock(task, parallel, all),
            first_action,
            actions,
        };
        made.push(row, &task.after)?;
        first_action += actions;
    }
    Ok(made)
}

// Pushes the actions of a task, and answers the number behind their last unit.
fn push_actions(
    made: &mut Vec<GraphAction>,
    task: u32,
    first_unit: u32,
    actions: &[PlanAction],
) -> Result<u32, AllocError>
    requires { first_unit + units_in_all (map plan_action_view actions.now) ≤ MAX_UNITS }
    ensures made { IfOk result (λ _. made.new.items ≡ made.old.items ++ actions_from task first_unit (map plan_action_view actions.now)) }
    ensures next { IfOk result (λ next. next ≡ first_unit + units_in_all (map plan_action_view actions.now)) }
{
    let mut next = first_unit;
    for action in actions {
        let fetch = action.fetch.is_some();
        let items = action.items.len() as u32;
        made.push(GraphAction {
            task,
            retention: action.retention,
            fetch,
            first_unit: next,
            items,
        })?;
        next += items + u32::from(fetch);
    }
    Ok(next)
}

// The actions of the graph.
fn graph_actions(alloc: Global, tasks: &[PlanTask]) -> Result<Vec<GraphAction>, AllocError>
    requires few_tasks { length tasks.now ≤ MAX_TASKS }
    requires few_units { length (flat_map task_units (map plan_task_view tasks.now)) ≤ MAX_UNITS }
    ensures { IfOk result (λ made. made.items ≡ all_actions_from 0 0 (map plan_task_view tasks.now)) }
{
    let mut made = Vec::with_capacity(alloc, tasks.len())?;
    let mut next = 0;
    for (number, task) in tasks.iter().enumerate() {
        next = push_actions(&mut made, number as u32, next, &task.actions)?;
    }
    Ok(made)
}
