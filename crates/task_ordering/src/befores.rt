//! For each task to run those before it.
ghost use Rattle.std.specs.Prelude.{◌^◌, ◌<◌, ◌≡◌, [], ℕ, length, All, Contains, IfOk, IsTrue, OnOk, ◌↔◌};
ghost use Rattle.ready_work.specs.Rank.{after, lists_of};
ghost use Rattle.task_ordering.specs.Befores.{AddsPairs, HasBoth, TellsBefore};
ghost use Rattle.task_ordering.specs.Refusals.{AllNameTasks};

use crate::tasks::{OrderTask, after_of, finalizers_of, must_after_of};
use std::alloc::{AllocError, Global};

// Whether both are to run.
fn are_both(to_run: &[bool], first: usize, second: usize) -> bool
    requires first { first < length to_run.now }
    requires second { second < length to_run.now }
    ensures { IsTrue result ↔ HasBoth to_run.now first second }
{
    to_run[first] && to_run[second]
}

// Notes that the first stands before the second.
fn push_before(befores: &mut Vec<Vec<u32>>, first: u32, second: usize) -> Result<(), AllocError>
    requires { second < length befores.old.items }
    ensures { OnOk result (AddsPairs (lists_of befores.old.items) (lists_of befores.new.items) (λ a b. (a ≡ first) × (b ≡ second))) }
{
    befores[second].push(first)?;
    Ok(())
}

// Notes that `first` stands before `second`, where both are to run.
fn add_pair(
    befores: &mut Vec<Vec<u32>>,
    to_run: &[bool],
    first: u32,
    second: usize,
) -> Result<(), AllocError>
    requires size { length to_run.now ≡ length befores.old.items }
    requires first { first < length to_run.now }
    requires second { second < length to_run.now }
    ensures { OnOk result (AddsPairs (lists_of befores.old.items) (lists_of befores.new.items)
        (λ a b. HasBoth to_run.now a b × (a ≡ first) × (b ≡ second))) }
{
    if !are_both(to_run, first as usize, second) {
        return Ok(());
    }
    push_before(befores, first, second)
}

// Notes that each of these stands before a task, where both are to run.
fn add_all_before(
    befores: &mut Vec<Vec<u32>>,
    to_run: &[bool],
    firsts: &[u32],
    second: usize,
) -> Result<(), AllocError>
    requires size { length to_run.now ≡ length befores.old.items }
    requires firsts { All (λ a. a < length to_run.now) firsts.now }
    requires second { second < length to_run.now }
    ensures { OnOk result (AddsPairs (lists_of befores.old.items) (lists_of befores.new.items)
        (λ a b. HasBoth to_run.now a b × Contains firsts.now a × (b ≡ second))) }
{
    for first in firsts {
        add_pair(befores, to_run, *first, second)?;
    }
    Ok(())
}

// Notes that a task stands before each of these, where both are to run.
fn add_before_all(
    befores: &mut Vec<Vec<u32>>,
    to_run: &[bool],
    first: u32,
    seconds: &[u32],
) -> Result<(), AllocError>
    requires size { length to_run.now ≡ length befores.old.items }
    requires first { first < length to_run.now }
    requires seconds { All (λ b. b < length to_run.now) seconds.now }
    ensures { OnOk result (AddsPairs (lists_of befores.old.items) (lists_of befores.new.items)
        (λ a b. HasBoth to_run.now a b × (a ≡ first) × Contains seconds.now b)) }
{
    for second in seconds {
        add_pair(befores, to_run, first, *second as usize)?;
    }
    Ok(())
}

// A list for each of so many tasks, before which none stands yet.
fn no_befores(alloc: Global, count: usize) -> Result<Vec<Vec<u32>>, AllocError>
    ensures size { IfOk result (λ befores. length befores.items ≡ count) }
    ensures empty { IfOk result (λ befores. (t : ℕ) → after (lists_of befores.items) t ≡ []) }
{
    let mut befores = Vec::with_capacity(alloc, count)?;
    while befores.len() < count {
        befores.push(Vec::new(alloc))?;
    }
    Ok(befores)
}

/// For each task to run those before it.
pub(crate) fn befores_of(
    alloc: Global,
    tasks: &[OrderTask],
    to_run: &[bool],
) -> Result<Vec<Vec<u32>>, AllocError>
    requires few { length tasks.now < 2 ^ 32 }
    requires size { length to_run.now ≡ length tasks.now }
    requires named { AllNameTasks tasks.now }
    ensures { IfOk result (λ befores. TellsBefore tasks.now to_run.now (lists_of befores.items)) }
{
    let mut befores = no_befores(alloc, tasks.len())?;
    for task in 0..tasks.len() {
        add_all_before(&mut befores, to_run, after_of(tasks, task), task)?;
        add_all_before(&mut befores, to_run, must_after_of(tasks, task), task)?;
        add_before_all(
            &mut befores,
            to_run,
            task as u32,
            finalizers_of(tasks, task),
        )?;
    }
    Ok(befores)
}
