//! The index of what can be done next, which follows the changes of a state.
ghost use Rattle.std.specs.Prelude.{◌≡◌, ◌↔◌, ◌<◌, ◌≤◌, ℕ, All, IfNone, IfOk, IfSome, IsTrue, List, length, true};
ghost use Rattle.resource_lock.specs.Change.{NamesOnly};
ghost use Rattle.resource_lock.specs.GraphView.{GraphView};
ghost use Rattle.resource_lock.specs.Marks.{has_ended};
ghost use Rattle.resource_lock.specs.Shape.{BelongsTo};
ghost use Rattle.resource_lock.specs.StateView.{StateView, IsLockOf};
ghost use Rattle.resource_lock.specs.declared.ids.WorkerId.{WorkerId};
ghost use Rattle.resource_lock.specs.declared.marks.Mark.{Mark};
ghost use Rattle.ready_work.specs.Choices.{CanSkip, CanStart, IsFree, IsOpenUnit, IsQueued};
ghost use Rattle.ready_work.specs.Lowest.{IsFrom, IsLowest, IsNone};
ghost use Rattle.ready_work.specs.NumberSetView.{room_of};
ghost use Rattle.ready_work.specs.ReadyWork.{Follows, FollowsOn, IsIndexOf, IsMadeFor, Notes, claimed_unit, closed_unit};
ghost use Rattle.ready_work.specs.Sets.{IsSetOf, Looks, LooksWhereKept, NoNumber, PutsWhereKept, SameNumbers};
ghost use Rattle.ready_work.specs.TaskSets.{LooksAt, MovesTasks};

use crate::choices::{closed_lock, is_free, is_open, is_queued};
use crate::dependents::all_dependents;
use crate::number_sets::NumberSet;
use crate::task_sets::TaskSets;
use resource_lock::{Change, Graph, LockId, MarkId, NumberLists, State};
use std::alloc::{AllocError, Global};

/// The tasks that can be skipped or started, and the units and tasks that haven't ended, of a graph
/// and its state, and the units that are queued where these are asked for. It takes memory only when it is made.
#[derive(Drop)]
pub struct ReadyWork {
    tasks: TaskSets,
    /// The units that haven't ended.
    open_units: NumberSet,
    /// The units that are queued, where they are asked for.
    queued: Option<NumberSet>,
    /// For each task, the tasks that come after it.
    dependents: NumberLists,
}

impl ReadyWork {
    /// The index of a graph and its state, without the units that are queued.
    pub fn of(alloc: Global, graph: &Graph, state: &State) -> Result<ReadyWork, AllocError>
        requires { BelongsTo graph.now state.now }
        ensures { IfOk result (IsIndexOf graph.now state.now) }
    {
        let dependents = all_dependents(alloc, graph)?;
        let open_units = open_units(alloc, graph, state)?;
        let tasks = TaskSets::of(alloc, graph, state, &dependents)?;
        Ok(ReadyWork {
            tasks,
            open_units,
            queued: None,
            dependents,
        })
    }

    /// From now on the index has the units that are queued too, so that it tells the lowest of them in a few steps. It fails for
    /// want of memory alone, and is as it was then.
    pub fn keep_queued(
        &mut self,
        alloc: Global,
        graph: &Graph,
        state: &State,
    ) -> Result<(), AllocError>
        requires belongs { BelongsTo graph.now state.now }
        requires index { IsIndexOf graph.now state.now self.old }
        ensures { IsIndexOf graph.now state.now self.new }
    {
        let queued = queued_units(alloc, graph, state)?;
        self.queued = Some(queued);
        Ok(())
    }

    /// Follows changes of a worker, from the state before them to this one after them, or, where they
    /// were taken back, from the state after them to this one before them. It takes no memory, and
    /// looks only at what the changes touch.
    #[inline]
    pub fn follow(&mut self, graph: &Graph, state: &State, changes: &[Change])
        requires { (before : StateView) × (w : WorkerId) × Follows graph.now before w changes.now state.now self.old }
        ensures { IsIndexOf graph.now state.now self.new }
    {
        for change in changes {
            self.note(graph, state, change);
        }
    }

    /// Follows the claim of a queued unit, from the state before it to the one after it. Nothing else in the index has changed, so nothing is
    /// looked at.
    #[inline]
    pub fn follow_claim(&mut self, unit: u32)
        requires { (g : GraphView) × (before : StateView) × (s : StateView) × (w : WorkerId)
            × FollowsOn g before w (claimed_unit w unit) s self.old }
        ensures { (g : GraphView) (before s : StateView) (w : WorkerId)
            → FollowsOn g before w (claimed_unit w unit) s self.old → IsIndexOf g s self.new }
    {
        put_where_kept(&mut self.queued, unit, false);
    }

    /// Follows the end of a unit that ran, from the state before it to the one after it. Nothing else in the index has changed, so nothing
    /// is looked at.
    #[inline]
    pub fn follow_close(&mut self, unit: u32)
        requires { (g : GraphView) × (before : StateView) × (s : StateView) × (w : WorkerId) × (to : Mark)
            × FollowsOn g before w (closed_unit w unit to) s self.old }
        ensures { (g : GraphView) (before s : StateView) (w : WorkerId) (to : Mark) → has_ended to ≡ true
            → FollowsOn g before w (closed_unit w unit to) s self.old → IsIndexOf g s self.new }
    {
        self.open_units.put(unit, false);
    }

    /// The lowest unit from a number on that hasn't ended.
    pub fn first_open_unit(&self, from: u32) -> Option<u32>
        ensures some { (g : GraphView) (s : StateView) → IsIndexOf g s self.now → IfSome result (IsLowest (IsFrom from (IsOpenUnit g s))) }
        ensures none { (g : GraphView) (s : StateView) → IsIndexOf g s self.now → IfNone result (IsNone (IsFrom from (IsOpenUnit g s))) }
    {
        self.open_units.next_from(from)
    }

    /// The lowest unit that is queued. Where the index doesn't have those units, it looks at each unit of the graph.
    pub fn first_queued(&self, graph: &Graph, state: &State) -> Option<u32>
        requires belongs { BelongsTo graph.now state.now }
        requires index { IsIndexOf graph.now state.now self.now }
        ensures some { IfSome result (IsLowest (IsQueued graph.now state.now)) }
        ensures none { IfNone result (IsNone (IsQueued graph.now state.now)) }
    {
        match &self.queued {
            Some(queued) => queued.first(),
            None => look_for_queued(graph, state),
        }
    }

    /// The lowest task that can be skipped.
    pub fn first_to_skip(&self) -> Option<u32>
        ensures some { (g : GraphView) (s : StateView) → IsIndexOf g s self.now → IfSome result (IsLowest (CanSkip g s)) }
        ensures none { (g : GraphView) (s : StateView) → IsIndexOf g s self.now → IfNone result (IsNone (CanSkip g s)) }
    {
        self.tasks.skippable.first()
    }

    /// The lowest task that can be started in the state of this index: whose marks allow it, and of whose
    /// lock no worker owns one that conflicts with it.
    ///
    /// It looks at no lock but the all-projects lock: while that is owned nothing can be started, and
    /// while another is owned no task with it.
    pub fn first_to_start(&self, state: &State) -> Option<u32>
        ensures some { (g : GraphView) → IsIndexOf g state.now self.now → IfSome result (IsLowest (CanStart g state.now)) }
        ensures none { (g : GraphView) → IsIndexOf g state.now self.now → IfNone result (IsNone (CanStart g state.now)) }
    {
        if state.all_owner().is_some() {
            return None;
        }
        match closed_lock(state) {
            Some(lock) => self.tasks.startable.first_but(lock.0),
            None => self.tasks.startable.first(),
        }
    }

    /// Whether each task has ended.
    pub fn all_ended(&self) -> bool
        ensures { (g : GraphView) (s : StateView) → BelongsTo g s → IsIndexOf g s self.now
            → IsTrue result ↔ All (λ m. has_ended m ≡ true) s.tasks }
    {
        self.tasks.unended.first().is_none()
    }

    // Looks at what a change touches, in the state after all changes, or after all were taken back.
    #[inline(always)]
    fn note(&mut self, graph: &Graph, state: &State, change: &Change)
        requires made { IsMadeFor graph.now self.old }
        requires belongs { BelongsTo graph.now state.now }
        requires named { NamesOnly state.now change.now }
        ensures { Notes graph.now state.now change.now self.old self.new }
    {
        match *change {
            Change::Move(MarkId::Unit(unit), _, _) => self.note_unit(state, unit),
            Change::Move(MarkId::Task(task), _, _) => self.note_task(graph, state, task),
            Change::Lock(lock) | Change::Unlock(lock) => self.note_lock(state, lock),
            _ => {}
        }
    }

    // Looks at a unit whose mark has moved.
    #[inline(never)]
    fn note_unit(&mut self, state: &State, unit: u32)
        requires within { unit < length state.now.units }
        requires room { unit < room_of self.old.open_units }
        requires queued_room { IfSome self.old.queued (λ set. unit < room_of set) }
        ensures open_units { (g : GraphView) → BelongsTo g state.now
            → Looks (IsOpenUnit g state.now) (λ u. u ≡ unit) self.old.open_units self.new.open_units }
        ensures queued { (g : GraphView) → BelongsTo g state.now
            → LooksWhereKept (IsQueued g state.now) (λ u. u ≡ unit) self.old.queued self.new.queued }
        ensures same { self.new ≡ record self.old { open_units = self.new.open_units; queued = self.new.queued } }
    {
        self.open_units.put(unit, is_open(state, unit));
        put_where_kept(&mut self.queued, unit, is_queued(state, unit));
    }

    // Looks at a lock that was taken or given back.
    #[inline(never)]
    fn note_lock(&mut self, state: &State, lock: LockId)
        requires within { IsLockOf state.now lock }
        requires room { lock.0 < room_of self.old.tasks.startable.free }
        ensures free { (g : GraphView) → BelongsTo g state.now
            → Looks (IsFree g state.now) (λ l. l ≡ lock.0) self.old.tasks.startable.free self.new.tasks.startable.free }
        ensures tasks { LooksAt state.now NoNumber self.old.tasks self.new.tasks }
        ensures same { self.new ≡ record self.old { tasks = self.new.tasks } }
    {
        self.tasks
            .startable
            .put_lock(lock.0, is_free(state, lock.0));
    }

    // Looks at a task whose mark has moved, and at its dependents where that matters to them.
    #[inline(never)]
    fn note_task(&mut self, graph: &Graph, state: &State, task: u32)
        requires made { IsMadeFor graph.now self.old }
        requires belongs { BelongsTo graph.now state.now }
        requires within { task < length graph.now.tasks }
        ensures tasks { MovesTasks graph.now state.now (λ k. k ≡ task) self.old.tasks self.new.tasks }
        ensures free { SameNumbers self.old.tasks.startable.free self.new.tasks.startable.free }
        ensures same { self.new ≡ record self.old { tasks = self.new.tasks } }
    {
        let dependents = self.dependents.at(task as usize);
        self.tasks.note(state, task, dependents);
    }
}

// The units that haven't ended.
fn open_units(alloc: Global, graph: &Graph, state: &State) -> Result<NumberSet, AllocError>
    requires { BelongsTo graph.now state.now }
    ensures set { IfOk result (IsSetOf (IsOpenUnit graph.now state.now) NoNumber) }
    ensures room { IfOk result (λ set. graph.now.units ≤ room_of set) }
{
    let mut unended = NumberSet::new(alloc, graph.units())?;
    for unit in 0..graph.units() {
        unended.put(unit, is_open(state, unit));
    }
    Ok(unended)
}

// Makes a number a member of a set, or none, where there is the set.
fn put_where_kept(set: &mut Option<NumberSet>, number: u32, is_member: bool)
    requires { IfSome set.old (λ kept. number < room_of kept) }
    ensures { PutsWhereKept number is_member set.old set.new }
{
    if let Some(kept) = set {
        kept.put(number, is_member);
    }
}

// The units that are queued.
fn queued_units(alloc: Global, graph: &Graph, state: &State) -> Result<NumberSet, AllocError>
    requires { BelongsTo graph.now state.now }
    ensures set { IfOk result (IsSetOf (IsQueued graph.now state.now) NoNumber) }
    ensures room { IfOk result (λ set. graph.now.units ≤ room_of set) }
{
    let mut queued = NumberSet::new(alloc, graph.units())?;
    for unit in 0..graph.units() {
        queued.put(unit, is_queued(state, unit));
    }
    Ok(queued)
}

// The lowest unit that is queued, by the marks of all units.
fn look_for_queued(graph: &Graph, state: &State) -> Option<u32>
    requires { BelongsTo graph.now state.now }
    ensures some { IfSome result (IsLowest (IsQueued graph.now state.now)) }
    ensures none { IfNone result (IsNone (IsQueued graph.now state.now)) }
{
    for unit in 0..graph.units() {
        if is_queued(state, unit) {
            return Some(unit);
        }
    }
    None
}
