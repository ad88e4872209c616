//! Graphs by rows of numbers.
ghost use Rattle.std.specs.Prelude.{◌≡◌, ◌∷◌, ◌++◌, [], IfOk, IfSome, None, Ok, OnOk, map};
ghost use Rattle.resource_lock.specs.Fits.{Fits};
ghost use Rattle.state_tests.specs.Rows.{graph_of_rows, task_view};

use crate::rows::{Limits, TaskRow};
use resource_lock::{Graph, GraphAction, GraphTask, GraphTasks, LockId};
use std::alloc::{AllocError, Global};

/// The tasks of these rows.
pub fn tasks_of(alloc: Global, rows: &[TaskRow]) -> Result<GraphTasks, AllocError>
    ensures { IfOk result (λ tasks. tasks ≡ map task_view rows.now) }
{
    let mut tasks = GraphTasks::none(alloc);
    for row in rows {
        push(&mut tasks, row)?;
    }
    Ok(tasks)
}

// Puts the task of a row behind the others.
fn push(tasks: &mut GraphTasks, row: &TaskRow) -> Result<(), AllocError>
    ensures { OnOk result (tasks.new ≡ tasks.old ++ task_view row.now ∷ []) }
{
    let task = GraphTask {
        lock: LockId(row.lock),
        first_action: row.first_action,
        actions: row.actions,
    };
    match row.after {
        Some(before) => tasks.push(task, &[before]),
        None => tasks.push(task, &[]),
    }
}

/// The graph of these rows, or none where they don't fit.
pub fn graph_of(
    alloc: Global,
    limits: &Limits,
    rows: &[TaskRow],
    actions: &[GraphAction],
) -> Result<Option<Box<Graph>>, AllocError>
    ensures graph { IfOk result (λ found. IfSome found (λ graph. graph.value ≡ graph_of_rows limits.now rows.now actions.now)) }
    ensures none { result ≡ Ok None → Fits (graph_of_rows limits.now rows.now actions.now) → ⊥ }
{
    let tasks = tasks_of(alloc, rows)?;
    let actions = actions.to_vec(alloc)?;
    let Limits {
        locks,
        all,
        workers,
        max_leases,
    } = *limits;
    if !Graph::fits(locks, all, workers, max_leases, &tasks, &actions) {
        return Ok(None);
    }
    let graph = Graph::new(locks, all, workers, max_leases, tasks, actions);
    Ok(Some(Box::new(alloc, graph)?))
}
