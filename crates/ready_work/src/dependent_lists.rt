//! For each task its dependents: the tasks that come after it.
ghost use Rattle.std.specs.Prelude.{length, slice_index_or, slice_set, IfOk, OnOk, [], ◌++◌, ◌<◌, ◌≡◌, ◌∷◌, ℕ};
ghost use Rattle.ready_work.specs.Rank.{InRange, after, lists_of};
ghost use Rattle.ready_work.specs.DependentLists.{AddsDependent, ListsDependents};

use crate::rank_search::names_of;
use std::alloc::{AllocError, Global};

// An empty list for each row.
fn empty_rows(alloc: Global, rows: &[Vec<u32>]) -> Result<Vec<Vec<usize>>, AllocError>
    ensures size { IfOk result (λ dependents. length dependents.items ≡ length rows.now) }
    ensures empty { IfOk result (λ dependents. (u : ℕ) → after (lists_of dependents.items) u ≡ []) }
{
    let mut dependents = Vec::with_capacity(alloc, rows.len())?;
    for row in rows {
        let _ = row;
        dependents.push(Vec::new(alloc))?;
    }
    Ok(dependents)
}

// Adds a task at the end of one of the lists.
fn push_at(dependents: &mut Vec<Vec<usize>>, at: usize, task: usize) -> Result<(), AllocError>
    requires { at < length dependents.old.items }
    ensures { OnOk result (lists_of dependents.new.items ≡ slice_set (lists_of dependents.old.items) at
        (after (lists_of dependents.old.items) at ++ task ∷ [])) }
{
    dependents[at].push(task)?;
    Ok(())
}

// Notes a task among the dependents of each of its names.
fn add_dependent(
    dependents: &mut Vec<Vec<usize>>,
    names: &[u32],
    task: usize,
) -> Result<(), AllocError>
    requires { (k : ℕ) → k < length names.now → slice_index_or names.now k 0 < length dependents.old.items }
    ensures { OnOk result (AddsDependent (lists_of dependents.old.items) (lists_of dependents.new.items) names.now task) }
{
    for name in names {
        push_at(dependents, *name as usize, task)?;
    }
    Ok(())
}

/// For each task its dependents, the tasks that come after it.
///
/// `rows` has for each task the numbers of the tasks that it comes after. The time and the memory are linear in the
/// tasks and their names. An error is want of memory.
pub fn dependents_of(alloc: Global, rows: &[Vec<u32>]) -> Result<Vec<Vec<usize>>, AllocError>
    requires { InRange (lists_of rows.now) }
    ensures { IfOk result (λ dependents. ListsDependents (lists_of rows.now) (length rows.now) (lists_of dependents.items)) }
{
    let mut dependents = empty_rows(alloc, rows)?;
    for task in 0..rows.len() {
        add_dependent(&mut dependents, names_of(rows, task), task)?;
    }
    Ok(dependents)
}

/// The dependents of a task.
pub fn dependents_at(dependents: &[Vec<usize>], task: usize) -> &[usize]
    requires { task < length dependents.now }
    ensures { result.now ≡ after (lists_of dependents.entry.now) task }
{
    dependents[task].as_slice()
}
