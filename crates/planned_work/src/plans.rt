//! A plan that is made by calls: tasks, the tasks that each comes after, and their actions.
ghost use Rattle.std.specs.Prelude.{◌≡◌, IfErr, IfOk, OnErr, OnOk, length, map};
ghost use Rattle.ready_work.specs.Rank.{lists_of};
ghost use Rattle.planned_work.specs.Plans.{IsPlanView, WhyNoAction, WhyNoNames, WhyNoPlan, WhyNoTask, empty_plan, lock_in, names_are_made};
ghost use Rattle.planned_work.specs.Plans.{planned_task_view, releases, task_in_plan, with_action, with_names, with_task};

use resource_lock::{
    LockId, MAX_ACTIONS_PER_TASK, MAX_AFTER, MAX_LOCKS, MAX_TASKS, MAX_UNITS, Retention,
};
use std::alloc::Global;
use std::marker::Model;

/// Why a call is refused. The plan is as it was then.
#[derive(Clone, Copy, PartialEq, Eq)]
pub enum PlanRefusal {
    /// A number isn't in range.
    BadNumber,
    /// There are as many as may be.
    TooMany,
    /// An action can't stand behind one that gives the lock back for good.
    Misused,
    /// There wasn't enough memory.
    NoMemory,
}

/// An action of a task: what becomes of the task's lock while its items run, whether it has a fetch, and how many items it has.
#[derive(Clone, Copy, PartialEq, Eq)]
pub struct PlannedAction {
    /// What becomes of the lock.
    pub retention: Retention,
    /// Whether it has a fetch, which comes before its items.
    pub fetch: bool,
    /// How many items it has.
    pub items: u32,
}

/// A task: its lock and its actions in order.
#[derive(Drop)]
pub struct PlannedTask {
    /// The lock.
    pub lock: LockId,
    /// The actions.
    pub actions: Vec<PlannedAction>,
}

/// A plan that is made by calls. Its tasks are numbered from 0, in the order in which they are made.
#[derive(Drop)]
pub struct WorkPlan {
    locks: u32,
    tasks: Vec<PlannedTask>,
    // The tasks that each task comes after. They stand apart from the tasks, as the search for cycles reads them.
    after: Vec<Vec<u32>>,
    // How many units all actions have.
    units: u64,
}

impl Model for WorkPlan {
    ghost use Rattle.planned_work.specs.Plans.{IsWorkPlan, WorkPlanView, plan_view};

    ghost Value = { WorkPlanView };

    ghost view = { λ p. plan_view p.locks p.tasks.items p.after.items };

    ghost invariant = { λ p. IsWorkPlan (plan_view p.locks p.tasks.items p.after.items) p.units };
}

impl WorkPlan {
    /// A plan without tasks, for so many project locks, at most `MAX_LOCKS - 1`. One lock more stands behind them: the all-projects lock. It
    /// takes no memory.
    pub fn new(alloc: Global, locks: u32) -> Result<WorkPlan, PlanRefusal>
        ensures made { IfOk result (λ plan. plan ≡ empty_plan locks) }
        ensures err { IfErr result (WhyNoPlan locks) }
    {
        if locks >= MAX_LOCKS {
            return Err(PlanRefusal::BadNumber);
        }
        Ok(WorkPlan {
            locks,
            tasks: Vec::new(alloc),
            after: Vec::new(alloc),
            units: 0,
        })
    }

    /// How many project locks there are, without the all-projects lock.
    pub fn locks(&self) -> u32
        ensures { result ≡ self.now.locks }
    {
        self.locks
    }

    /// Adds a task of a project lock, or where there is none a task of all projects. It says the task's number.
    ///
    /// `BadNumber` says that there is no such lock, and `TooMany` that there are `MAX_TASKS` tasks.
    pub fn add_task(&mut self, alloc: Global, lock: Option<u32>) -> Result<u32, PlanRefusal>
        ensures made { IfOk result (λ task. (task ≡ length self.old.tasks) × (self.new ≡ with_task (lock_in self.old lock) self.old)) }
        ensures err { IfErr result (WhyNoTask self.old lock) }
        ensures kept { OnErr result (self.new ≡ self.old) }
    {
        let lock = lock.unwrap_or(self.locks);
        if lock > self.locks {
            return Err(PlanRefusal::BadNumber);
        }
        if self.tasks.len() >= MAX_TASKS {
            return Err(PlanRefusal::TooMany);
        }
        if self.tasks.reserve(1).is_err() || self.after.reserve(1).is_err() {
            return Err(PlanRefusal::NoMemory);
        }
        let task = self.tasks.len() as u32;
        self.tasks.push_reserved(PlannedTask {
            lock: LockId(lock),
            actions: Vec::new(alloc),
        });
        self.after.push_reserved(Vec::new(alloc));
        Ok(task)
    }

    /// Has a task come after others, which are made by then. One that is named twice counts twice.
    ///
    /// `BadNumber` says that one of the tasks isn't made, and `TooMany` that the task would have more than `MAX_AFTER` names. That a task comes
    /// after itself is told where the plan is opened.
    pub fn add_after(&mut self, task: u32, before: &[u32]) -> Result<(), PlanRefusal>
        ensures made { OnOk result (self.new ≡ with_names task before.now self.old) }
        ensures err { IfErr result (WhyNoNames self.old task before.now) }
        ensures kept { OnErr result (self.new ≡ self.old) }
    {
        if task as usize >= self.after.len() || !names_are_made(before, self.after.len()) {
            return Err(PlanRefusal::BadNumber);
        }
        let names = &mut self.after[task as usize];
        if names.len() + before.len() > MAX_AFTER {
            return Err(PlanRefusal::TooMany);
        }
        match names.extend_from_slice(before) {
            Ok(()) => Ok(()),
            Err(_) => Err(PlanRefusal::NoMemory),
        }
    }

    /// Adds an action behind those of a task, with at least one item. It says the action's place in its task.
    ///
    /// `BadNumber` says that there is no such task or no item, `Misused` that the task's last action gives the lock back for good, and `TooMany`
    /// that the task would have more than `MAX_ACTIONS_PER_TASK` actions or the plan more than `MAX_UNITS` units.
    pub fn add_action(&mut self, task: u32, action: PlannedAction) -> Result<u32, PlanRefusal>
        ensures made { IfOk result (λ place. (place ≡ length (task_in_plan self.old task).actions)
            × (self.new ≡ with_action task action self.old)) }
        ensures err { IfErr result (WhyNoAction self.old task action) }
        ensures kept { OnErr result (self.new ≡ self.old) }
    {
        if task as usize >= self.tasks.len() || action.items == 0 {
            return Err(PlanRefusal::BadNumber);
        }
        let actions = &mut self.tasks[task as usize].actions;
        if releases(actions) {
            return Err(PlanRefusal::Misused);
        }
        let units = self.units + u64::from(action.items) + u64::from(action.fetch);
        if actions.len() >= MAX_ACTIONS_PER_TASK as usize || units > MAX_UNITS {
            return Err(PlanRefusal::TooMany);
        }
        let place = actions.len() as u32;
        if actions.push(action).is_err() {
            return Err(PlanRefusal::NoMemory);
        }
        self.units = units;
        Ok(place)
    }

    /// The tasks.
    pub(crate) fn tasks(&self) -> &[PlannedTask]
        ensures value { map planned_task_view result.now ≡ self.now.tasks }
        ensures plan { IsPlanView self.now }
    {
        &self.tasks
    }

    /// The tasks that each task comes after.
    pub(crate) fn after(&self) -> &[Vec<u32>]
        ensures value { lists_of result.now ≡ self.now.after }
        ensures plan { IsPlanView self.now }
    {
        &self.after
    }
}

// Whether these are tasks among so many.
fn names_are_made(names: &[u32], tasks: usize) -> bool
    ensures { result ≡ names_are_made tasks names.now }
{
    names.iter().all(|&name| (name as usize) < tasks)
}

// Whether the last of the actions gives the lock back for good.
fn releases(actions: &[PlannedAction]) -> bool
    ensures { result ≡ releases actions.now }
{
    match actions.last() {
        Some(action) => action.retention == Retention::Release,
        None => false,
    }
}
