//! Which numbers, tasks and actions a graph can be made of.
ghost use Rattle.std.specs.Prelude.{◌≡◌, ◌≤◌, ◌<◌, ◌↔◌, ℕ, IsTrue, length, sum_by, All, IfSome, slice_index_or};
ghost use Rattle.resource_lock.specs.GraphView.{no_action, no_task};
ghost use Rattle.resource_lock.specs.Ranges.{IsIn, units_in};
ghost use Rattle.resource_lock.specs.Parts.{IsFitTask, IsFitAction};
ghost use Rattle.resource_lock.specs.Fits.{Fits, Follow};
ghost use Rattle.resource_lock.specs.Made.{made_of};
ghost use Rattle.resource_lock.specs.declared.limits.TheConstants.{MAX_LEASES, MAX_LOCKS, MAX_TASKS, MAX_UNITS, MAX_WORKERS};

use crate::graph_tasks::{GraphTask, GraphTasks};
use crate::graphs::{Graph, GraphAction};
use crate::ids::LockId;
use crate::limits::{
    MAX_ACTIONS_PER_TASK, MAX_AFTER, MAX_LEASES, MAX_LOCKS, MAX_TASKS, MAX_UNITS, MAX_WORKERS,
};

impl Graph {
    /// Whether a graph can be made of these, in time linear in them and without memory.
    ///
    /// It can where there are 1 to `MAX_WORKERS` workers, 1 to `MAX_LEASES` leases, and no more than the other limits say of locks, tasks,
    /// actions of one task, tasks in one `after`, and units; where each lock and each task in an `after` is there, and the all-projects lock
    /// `all`, if one is given; where the tasks' actions are ranges that follow one another over all actions, and each action's `task` is the
    /// one whose range has it; and where the actions' units are ranges that follow one another from 0, each with at least one item.
    pub fn fits(
        locks: u32,
        all: Option<LockId>,
        workers: u32,
        max_leases: u32,
        tasks: &GraphTasks,
        actions: &[GraphAction],
    ) -> bool
        ensures { IsTrue result ↔ Fits (made_of locks all workers max_leases tasks.now actions.now) }
    {
        numbers_fit(locks, all, workers, max_leases, tasks.len())
            && tasks_fit(locks, tasks)
            && ranges_fit(tasks.rows(), actions)
    }
}

// Whether the counts are within the limits, and the all-projects lock is one of the locks.
fn numbers_fit(locks: u32, all: Option<LockId>, workers: u32, max_leases: u32, tasks: usize) -> bool
    ensures { IsTrue result ↔ ((1 ≤ workers) × (workers ≤ MAX_WORKERS) × (1 ≤ max_leases) × (max_leases ≤ MAX_LEASES)
        × (locks ≤ MAX_LOCKS) × (tasks ≤ MAX_TASKS) × IfSome all (λ l. l.0 < locks)) }
{
    (1..=MAX_WORKERS).contains(&workers)
        && (1..=MAX_LEASES).contains(&max_leases)
        && locks <= MAX_LOCKS
        && tasks <= MAX_TASKS
        && lock_fits(locks, all)
}

// Whether the all-projects lock is one of so many, where there is one.
fn lock_fits(locks: u32, all: Option<LockId>) -> bool
    ensures { IsTrue result ↔ IfSome all (λ l. l.0 < locks) }
{
    match all {
        Some(lock) => lock.0 < locks,
        None => true,
    }
}

// Whether each task's lock and the tasks that it comes after are in range, and within the limits.
fn tasks_fit(locks: u32, tasks: &GraphTasks) -> bool
    ensures { IsTrue result ↔ ((t : ℕ) → t < length tasks.now → IsFitTask locks (length tasks.now) (slice_index_or tasks.now t no_task)) }
{
    for task in 0..tasks.len() {
        if !task_fits(locks, tasks, task) {
            return false;
        }
    }
    true
}

// Whether a task fits beside so many locks and the other tasks.
fn task_fits(locks: u32, tasks: &GraphTasks, task: usize) -> bool
    requires { task < length tasks.now }
    ensures { IsTrue result ↔ IsFitTask locks (length tasks.now) (slice_index_or tasks.now task no_task) }
{
    let row = tasks.at(task);
    let after = tasks.after(task);
    row.actions <= MAX_ACTIONS_PER_TASK
        && after.len() <= MAX_AFTER
        && row.lock.0 < locks
        && are_below(after, tasks.len())
}

// Whether each of these numbers is one of the first so many.
fn are_below(numbers: &[u32], count: usize) -> bool
    ensures { IsTrue result ↔ All (λ n. n < count) numbers.now }
{
    numbers.iter().all(|&number| (number as usize) < count)
}

// Whether the tasks' actions and the actions' units are ranges, and within the limits.
fn ranges_fit(tasks: &[GraphTask], actions: &[GraphAction]) -> bool
    ensures { IsTrue result ↔ ((Follow (λ t. t.first_action) (λ t. t.actions) 0 tasks.now (length actions.now))
        × ((a : ℕ) → a < length actions.now → IsFitAction tasks.now a (slice_index_or actions.now a no_action))
        × (Follow (λ a. a.first_unit) units_in 0 actions.now (sum_by units_in actions.now))
        × (sum_by units_in actions.now ≤ MAX_UNITS)) }
{
    actions_follow(tasks, actions.len())
        && actions_fit(tasks, actions)
        && units_follow(actions)
        && unit_count(actions) <= MAX_UNITS
}

// Whether the tasks' actions are ranges one behind the other, up to this number.
fn actions_follow(tasks: &[GraphTask], stop: usize) -> bool
    ensures { IsTrue result ↔ Follow (λ t. t.first_action) (λ t. t.actions) 0 tasks.now stop }
{
    let mut next = 0;
    for task in tasks {
        if u64::from(task.first_action) != next {
            return false;
        }
        next += u64::from(task.actions);
    }
    next == stop as u64
}

// Whether each action has an item, and is in the range of its task.
fn actions_fit(tasks: &[GraphTask], actions: &[GraphAction]) -> bool
    ensures { IsTrue result ↔ ((a : ℕ) → a < length actions.now → IsFitAction tasks.now a (slice_index_or actions.now a no_action)) }
{
    for (number, action) in actions.iter().enumerate() {
        if !action_fits(tasks, number as u64, action) {
            return false;
        }
    }
    true
}

// Whether the action of this number fits: it has items, and is one of its task's.
fn action_fits(tasks: &[GraphTask], number: u64, action: &GraphAction) -> bool
    ensures { IsTrue result ↔ IsFitAction tasks.now number action.now }
{
    let task = tasks.get(action.task as usize);
    action.items > 0 && task.is_some_and(|task| has_action(task, number))
}

// Whether an action is in a task's range.
fn has_action(task: &GraphTask, action: u64) -> bool
    ensures { IsTrue result ↔ IsIn task.now.first_action task.now.actions action }
{
    let first = u64::from(task.first_action);
    (first..first + u64::from(task.actions)).contains(&action)
}

// Whether the actions' units are ranges one behind the other.
fn units_follow(actions: &[GraphAction]) -> bool
    ensures { IsTrue result ↔ Follow (λ a. a.first_unit) units_in 0 actions.now (sum_by units_in actions.now) }
{
    let mut next = 0;
    for action in actions {
        if u64::from(action.first_unit) != next {
            return false;
        }
        next = action.units_end();
    }
    true
}

/// How many units there are, where their ranges are one behind the other.
pub(crate) fn unit_count(actions: &[GraphAction]) -> u64
    requires { Follow (λ a. a.first_unit) units_in 0 actions.now (sum_by units_in actions.now) }
    ensures { result ≡ sum_by units_in actions.now }
{
    match actions.last() {
        Some(action) => action.units_end(),
        None => 0,
    }
}
