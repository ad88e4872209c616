//! How many numbers there may be, and that each is that of a task.
ghost use Rattle.std.specs.Prelude.{◌<◌, ◌≤◌, ◌≡◌, ◌↔◌, ℕ, length, All, IfOk, IfErr, IfNone, IfSome, IsTrue};
ghost use Rattle.task_ordering.specs.Refusals.{AllNameTasks, AreNamed, Fits, HasShortLists, IsFirstStray, IsRefused, NameTasks, NamesTasks};

use crate::fails::OrderRefusal;
use crate::tasks::{OrderTask, after_of, finalizers_of, must_after_of};

/// How many tasks there may be, how many numbers in each of their lists, and how many asked for.
pub const MAX_NUMBERS: usize = 2048;

// Whether no list of a task is too long for its places to have numbers.
fn has_short_lists(task: &OrderTask) -> bool
    ensures { IsTrue result ↔ HasShortLists task.now }
{
    task.after.len() <= MAX_NUMBERS
        && task.must_after.len() <= MAX_NUMBERS
        && task.finalized_by.len() <= MAX_NUMBERS
}

// Whether no list is too long for its places to have numbers.
fn fits(tasks: &[OrderTask], asked: &[u32]) -> bool
    ensures { IsTrue result ↔ Fits tasks.now asked.now }
{
    tasks.len() <= MAX_NUMBERS
        && asked.len() <= MAX_NUMBERS
        && tasks.iter().all(|task| has_short_lists(task))
}

// Whether each number is one of `count` tasks.
fn are_below(numbers: &[u32], count: usize) -> bool
    ensures { IsTrue result ↔ All (λ u. u < count) numbers.now }
{
    numbers.iter().all(|number| (*number as usize) < count)
}

// Whether each number in the lists of a task is that of a task.
fn names_tasks(tasks: &[OrderTask], task: usize) -> bool
    requires { task < length tasks.now }
    ensures { IsTrue result ↔ NamesTasks tasks.now task }
{
    are_below(after_of(tasks, task), tasks.len())
        && are_below(must_after_of(tasks, task), tasks.len())
        && are_below(finalizers_of(tasks, task), tasks.len())
}

// The first task whose lists have a number that is that of no task.
fn first_stray(tasks: &[OrderTask]) -> Option<usize>
    ensures none { IfNone result (AllNameTasks tasks.now) }
    ensures some { IfSome result (IsFirstStray tasks.now) }
{
    for task in 0..tasks.len() {
        if !names_tasks(tasks, task) {
            return Some(task);
        }
    }
    None
}

/// Refuses what has too many numbers, or a number that is that of no task.
pub(crate) fn refuse_strays(tasks: &[OrderTask], asked: &[u32]) -> Result<(), OrderRefusal>
    ensures named { IfOk result (λ _. AreNamed tasks.now asked.now) }
    ensures refused { IfErr result (IsRefused tasks.now asked.now) }
{
    if !fits(tasks, asked) {
        return Err(OrderRefusal::TooMany);
    }
    if let Some(task) = first_stray(tasks) {
        return Err(OrderRefusal::NoSuchTask(Some(task as u32)));
    }
    if !are_below(asked, tasks.len()) {
        return Err(OrderRefusal::NoSuchTask(None));
    }
    Ok(())
}
