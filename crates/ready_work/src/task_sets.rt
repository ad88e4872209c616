//! The sets of tasks.
ghost use Rattle.std.specs.Prelude.{◌≡◌, ◌<◌, ◌≤◌, ◌==◌, ◌||◌, ◌∷◌, [], All, IfOk, length};
ghost use Rattle.resource_lock.specs.Fits.{Fits};
ghost use Rattle.resource_lock.specs.Shape.{BelongsTo};
ghost use Rattle.resource_lock.specs.declared.limits.TheConstants.{MAX_TASKS};
ghost use Rattle.ready_work.specs.Dependents.{AreDependents};
ghost use Rattle.ready_work.specs.Sets.{NoNumber, SameNumbers};
ghost use Rattle.ready_work.specs.DependencyCounts.{CanPut};
ghost use Rattle.ready_work.specs.TaskSets.{AreCounted, AreEmpty, AreSetsByCount, AreTaskSets, CountsAll, HasClosedLocks, HasLocks};
ghost use Rattle.ready_work.specs.TaskSets.{HasDependencyCounts, HasTaskRoom, IsSeen, LooksAt, NotesTask};

use crate::choices::{can_skip, is_startable};
use crate::dependency_counts::DependencyCounts;
use crate::number_sets::NumberSet;
use crate::startable_tasks::StartableTasks;
use resource_lock::{Graph, MarkId, NumberLists, State};
use std::alloc::{AllocError, Global};

/// The tasks that can be started, those that can be skipped, and those that haven't ended. For
/// each task it is counted how many of those that it comes after keep it from a start, and how
/// many have it skipped. So a task is looked at in one step.
#[derive(Drop)]
pub(crate) struct TaskSets {
    pub(crate) startable: StartableTasks,
    pub(crate) skippable: NumberSet,
    pub(crate) unended: NumberSet,
    /// Those that haven't passed.
    unpassed: DependencyCounts,
    /// Those that failed or were skipped.
    fallen: DependencyCounts,
}

impl TaskSets {
    /// The sets of a state.
    pub(crate) fn of(
        alloc: Global,
        graph: &Graph,
        state: &State,
        dependents: &NumberLists,
    ) -> Result<TaskSets, AllocError>
        requires belongs { BelongsTo graph.now state.now }
        requires dependents { AreDependents graph.now dependents.now }
        ensures sets { IfOk result (AreTaskSets graph.now state.now) }
        ensures counted { IfOk result (AreCounted state.now NoNumber) }
        ensures dependency_counts { IfOk result (HasDependencyCounts graph.now) }
        ensures room { IfOk result (HasTaskRoom (length graph.now.tasks)) }
        ensures locks { IfOk result (λ sets. HasLocks graph.now state.now sets.startable) }
        ensures fits { Fits graph.now }
    {
        let mut sets = TaskSets::empty(alloc, graph)?;
        sets.count_all(graph, state, dependents);
        sets.fill(graph, state);
        Ok(sets)
    }

    // No task and no free lock, and nothing counted.
    fn empty(alloc: Global, graph: &Graph) -> Result<TaskSets, AllocError>
        ensures empty { IfOk result AreEmpty }
        ensures dependency_counts { IfOk result (HasDependencyCounts graph.now) }
        ensures room { IfOk result (HasTaskRoom (length graph.now.tasks)) }
        ensures locks { IfOk result (λ sets. HasClosedLocks graph.now sets.startable) }
        ensures fits { Fits graph.now }
    {
        let tasks = graph.tasks().len();
        let skippable = NumberSet::new(alloc, tasks as u32)?;
        let unended = NumberSet::new(alloc, tasks as u32)?;
        let unpassed = DependencyCounts::none(alloc, tasks)?;
        let fallen = DependencyCounts::none(alloc, tasks)?;
        let startable = StartableTasks::closed(alloc, graph)?;
        Ok(TaskSets {
            startable,
            skippable,
            unended,
            unpassed,
            fallen,
        })
    }

    // Counts each task by its mark.
    fn count_all(&mut self, graph: &Graph, state: &State, dependents: &NumberLists)
        requires fits { Fits graph.now }
        requires belongs { BelongsTo graph.now state.now }
        requires dependents { AreDependents graph.now dependents.now }
        requires room { HasTaskRoom (length graph.now.tasks) self.old }
        requires dependency_counts { HasDependencyCounts graph.now self.old }
        ensures { CountsAll graph.now state.now (length graph.now.tasks) self.old self.new }
    {
        for task in 0..dependents.len() {
            let mark = state.mark(MarkId::Task(task as u32));
            let row = dependents.at(task);
            self.fallen.put(row, task, mark.has_fallen());
            self.unpassed.put(row, task, !mark.has_passed());
        }
    }

    // Looks at each task and at each lock for the first time.
    fn fill(&mut self, graph: &Graph, state: &State)
        requires fits { Fits graph.now }
        requires belongs { BelongsTo graph.now state.now }
        requires empty { AreEmpty self.old }
        requires room { HasTaskRoom (length graph.now.tasks) self.old }
        requires closed { HasClosedLocks graph.now self.old.startable }
        ensures sets { AreSetsByCount state.now NoNumber self.new }
        ensures room { HasTaskRoom (length graph.now.tasks) self.new }
        ensures locks { HasLocks graph.now state.now self.new.startable }
        ensures unpassed { self.new.unpassed ≡ self.old.unpassed }
        ensures fallen { self.new.fallen ≡ self.old.fallen }
    {
        for task in 0..graph.tasks().len() as u32 {
            self.look_at(state, task);
        }
        // While no lock was free, no head had to be looked for.
        self.startable.put_locks(graph, state);
    }

    /// Counts a task by its mark, looks at it, and at those of its dependents for which that matters.
    pub(crate) fn note(&mut self, state: &State, task: u32, dependents: &[u32])
        requires few { length state.now.tasks ≤ MAX_TASKS }
        requires within { task < length state.now.tasks }
        requires in_range { All (λ k. k < length state.now.tasks) dependents.now }
        requires room { HasTaskRoom (length state.now.tasks) self.old }
        requires unpassed { CanPut dependents.now task self.old.unpassed }
        requires fallen { CanPut dependents.now task self.old.fallen }
        ensures notes { NotesTask state.now dependents.now task self.old self.new }
        ensures free { SameNumbers self.old.startable.free self.new.startable.free }
    {
        let mark = state.mark(MarkId::Task(task));
        let has_passed = mark.has_passed();
        let falls = self
            .fallen
            .put(dependents, task as usize, mark.has_fallen());
        let passes = self.unpassed.put(dependents, task as usize, !has_passed);
        self.look_at(state, task);
        if falls {
            self.look_at_all(state, dependents, true);
        } else if passes {
            // Where it has passed, those that come after another that hasn't stay as they are.
            self.look_at_all(state, dependents, !has_passed);
        }
    }

    // Looks at tasks: at each, or at those alone of which all that they come after have passed.
    fn look_at_all(&mut self, state: &State, tasks: &[u32], is_each: bool)
        requires few { length state.now.tasks ≤ MAX_TASKS }
        requires within { All (λ k. k < length state.now.tasks) tasks.now }
        requires room { HasTaskRoom (length state.now.tasks) self.old }
        ensures tasks { LooksAt state.now (IsSeen is_each self.old.unpassed tasks.now) self.old self.new }
        ensures free { SameNumbers self.old.startable.free self.new.startable.free }
    {
        for task in tasks {
            self.look_where_due(state, *task, is_each);
        }
    }

    // Looks at a task, or only where all that it comes after have passed.
    fn look_where_due(&mut self, state: &State, task: u32, is_each: bool)
        requires within { task < length state.now.tasks }
        requires room { HasTaskRoom (length state.now.tasks) self.old }
        ensures tasks { LooksAt state.now (IsSeen is_each self.old.unpassed (task ∷ [])) self.old self.new }
        ensures free { SameNumbers self.old.startable.free self.new.startable.free }
    {
        if is_due(is_each, self.unpassed.count(task as usize)) {
            self.look_at(state, task);
        }
    }

    // Puts a task into the sets where it belongs, and into no other.
    fn look_at(&mut self, state: &State, task: u32)
        requires within { task < length state.now.tasks }
        requires room { HasTaskRoom (length state.now.tasks) self.old }
        ensures tasks { LooksAt state.now (λ k. k ≡ task) self.old self.new }
        ensures free { SameNumbers self.old.startable.free self.new.startable.free }
    {
        let mark = state.mark(MarkId::Task(task));
        let can_skip = can_skip(mark, self.fallen.count(task as usize));
        let is_startable = is_startable(mark, self.unpassed.count(task as usize));
        self.skippable.put(task, can_skip);
        self.unended.put(task, !mark.has_ended());
        self.startable.put(task, is_startable);
    }
}

// Whether a task is to be looked at, where each is or those alone that come after none that is counted.
fn is_due(is_each: bool, unpassed: u32) -> bool
    ensures { result ≡ (is_each || (unpassed == 0)) }
{
    is_each || unpassed == 0
}
