//! For each task its dependents: the tasks that come after it.
ghost use Rattle.std.specs.Prelude.{◌≡◌, ◌<◌, All, IfOk, OnOk, length, map};
ghost use Rattle.ready_work.specs.DependentLists.{AddsDependent, ListsDependents};
ghost use Rattle.ready_work.specs.Dependents.{AreDependents};

use crate::linked_lists::LinkedLists;
use resource_lock::{Graph, NumberLists};
use std::alloc::{AllocError, Global};

// Notes a task among the dependents of each of its names.
fn note_dependent(dependents: &mut LinkedLists, names: &[u32], task: u32) -> Result<(), AllocError>
    requires { All (λ n. n < length dependents.old) names.now }
    ensures { OnOk result (AddsDependent dependents.old dependents.new names.now task) }
{
    for name in names {
        dependents.push(*name as usize, task)?;
    }
    Ok(())
}

// The dependents of each task, as lists that have grown side by side: a task has no vector of its own.
fn linked_dependents(alloc: Global, graph: &Graph) -> Result<LinkedLists, AllocError>
    ensures { IfOk result (ListsDependents (map (λ t. t.after) graph.now.tasks) (length graph.now.tasks)) }
{
    let tasks = graph.tasks();
    let mut dependents = LinkedLists::empty(alloc, tasks.len())?;
    for task in 0..tasks.len() {
        note_dependent(&mut dependents, tasks.after(task), task as u32)?;
    }
    Ok(dependents)
}

/// The dependents of each task, in time linear in the tasks and their names.
pub(crate) fn all_dependents(alloc: Global, graph: &Graph) -> Result<NumberLists, AllocError>
    ensures { IfOk result (AreDependents graph.now) }
{
    let dependents = linked_dependents(alloc, graph)?;
    dependents.lists(alloc)
}
