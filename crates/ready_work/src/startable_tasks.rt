//! The startable tasks, and which of them are first.
ghost use Rattle.std.specs.Prelude.{◌≡◌, ◌≢◌, ◌<◌, ◌≤◌, ℕ, false, IfNone, IfOk, IfSome, length, map};
ghost use Rattle.resource_lock.specs.Shape.{BelongsTo};
ghost use Rattle.ready_work.specs.LockOrderView.{lock_at};
ghost use Rattle.ready_work.specs.Lowest.{IsLowest, IsNone};
ghost use Rattle.ready_work.specs.NumberSetView.{has, room_of};
ghost use Rattle.ready_work.specs.Sets.{SameNumbers};
ghost use Rattle.ready_work.specs.StartableTasksView.{IsUnowned, IsUnownedBut, IsWith, PutsTask};
ghost use Rattle.ready_work.specs.TaskSets.{HasClosedLocks, HasLocks};

use crate::choices::is_free;
use crate::lock_orders::LockOrder;
use crate::number_sets::NumberSet;
use resource_lock::{Graph, State};
use std::alloc::{AllocError, Global};
use std::marker::Model;

/// The tasks whose marks allow a start, and the locks that nobody owns. Of each of these locks the
/// lowest task is a head, and so the lowest head is the lowest task of all whose lock is free.
#[derive(Drop)]
pub(crate) struct StartableTasks {
    order: LockOrder,
    /// The places of the tasks.
    places: NumberSet,
    /// The locks that nobody owns.
    free: NumberSet,
    /// Of each of these locks the lowest task.
    heads: NumberSet,
}

impl Model for StartableTasks {
    ghost use Rattle.ready_work.specs.StartableTasksView.{StartableTasksView};
    ghost use Rattle.ready_work.specs.StartableTasks.{startable_tasks_view, HasHeads};

    ghost Value = { StartableTasksView };

    ghost view = { startable_tasks_view };

    ghost invariant = { HasHeads };
}

impl StartableTasks {
    /// No task and no free lock.
    pub(crate) fn closed(alloc: Global, graph: &Graph) -> Result<StartableTasks, AllocError>
        ensures locks { IfOk result (λ all. all.locks ≡ map (λ t. t.lock.0) graph.now.tasks) }
        ensures room { IfOk result (λ all. length graph.now.tasks ≤ room_of all.tasks) }
        ensures lock_room { IfOk result (λ all. graph.now.locks ≤ room_of all.free) }
        ensures empty { IfOk result (λ all. (t : ℕ) → has all.tasks t ≡ false) }
        ensures none_free { IfOk result (λ all. (l : ℕ) → has all.free l ≡ false) }
    {
        let tasks = graph.tasks().len() as u32;
        let places = NumberSet::new(alloc, tasks)?;
        let free = NumberSet::new(alloc, graph.locks())?;
        let heads = NumberSet::new(alloc, tasks)?;
        let order = LockOrder::of(alloc, graph)?;
        Ok(StartableTasks {
            order,
            places,
            free,
            heads,
        })
    }

    /// Looks at each lock for the first time.
    pub(crate) fn put_locks(&mut self, graph: &Graph, state: &State)
        requires belongs { BelongsTo graph.now state.now }
        requires closed { HasClosedLocks graph.now self.old }
        ensures locks { HasLocks graph.now state.now self.new }
        ensures tasks { SameNumbers self.old.tasks self.new.tasks }
    {
        for lock in 0..graph.locks() {
            self.put_lock(lock, is_free(state, lock));
        }
    }

    /// Says whether nobody owns a lock.
    pub(crate) fn put_lock(&mut self, lock: u32, is_free: bool)
        requires { lock < room_of self.old.free }
        ensures locks { self.new.locks ≡ self.old.locks }
        ensures tasks { SameNumbers self.old.tasks self.new.tasks }
        ensures room { room_of self.new.free ≡ room_of self.old.free }
        ensures put { has self.new.free lock ≡ is_free }
        ensures others { (l : ℕ) → l ≢ lock → has self.new.free l ≡ has self.old.free l }
    {
        let lowest = self.lowest_with(lock);
        self.free.put(lock, is_free);
        if let Some(task) = lowest {
            self.heads.put(task, is_free);
        }
    }

    /// Makes a task a member, or none.
    pub(crate) fn put(&mut self, task: u32, is_startable: bool)
        requires { task < room_of self.old.tasks }
        ensures { PutsTask self.old self.new task is_startable }
    {
        // Most looks find a task as it was.
        if self.contains(task) != is_startable {
            self.change(task, is_startable);
        }
    }

    // Whether a task is a member.
    fn contains(&self, task: u32) -> bool
        requires { task < room_of self.now.tasks }
        ensures { result ≡ has self.now.tasks task }
    {
        self.places.has(self.order.place(task))
    }

    // Makes a task a member, or none. Its lock isn't free meanwhile, so no task of the lock is a
    // head.
    #[inline(never)]
    fn change(&mut self, task: u32, is_startable: bool)
        requires { task < room_of self.old.tasks }
        ensures { PutsTask self.old self.new task is_startable }
    {
        let lock = self.order.lock(task);
        if !self.free.has(lock) {
            self.put_closed(task, is_startable);
            return;
        }
        self.put_lock(lock, false);
        self.put_closed(task, is_startable);
        self.put_lock(lock, true);
    }

    // Makes a task whose lock isn't free a member, or none. The heads stay.
    fn put_closed(&mut self, task: u32, is_startable: bool)
        requires within { task < room_of self.old.tasks }
        requires closed { has self.old.free (lock_at self.old.locks task) ≡ false }
        ensures locks { self.new.locks ≡ self.old.locks }
        ensures free { self.new.free ≡ self.old.free }
        ensures room { room_of self.new.tasks ≡ room_of self.old.tasks }
        ensures put { has self.new.tasks task ≡ is_startable }
        ensures others { (t : ℕ) → t ≢ task → has self.new.tasks t ≡ has self.old.tasks t }
    {
        self.places.put(self.order.place(task), is_startable);
    }

    /// The lowest task whose lock nobody owns.
    pub(crate) fn first(&self) -> Option<u32>
        ensures some { IfSome result (IsLowest (IsUnowned self.now)) }
        ensures none { IfNone result (IsNone (IsUnowned self.now)) }
    {
        self.heads.first()
    }

    /// The lowest task whose lock nobody owns, of those with another lock than this one. Each free lock
    /// has one head, so the first head or the second is the one.
    pub(crate) fn first_but(&self, lock: u32) -> Option<u32>
        ensures some { IfSome result (IsLowest (IsUnownedBut self.now lock)) }
        ensures none { IfNone result (IsNone (IsUnownedBut self.now lock)) }
    {
        let first = self.heads.first()?;
        if self.order.lock(first) != lock {
            return Some(first);
        }
        self.heads.next_above(first)
    }

    // The lowest task that has a lock.
    fn lowest_with(&self, lock: u32) -> Option<u32>
        requires { lock < room_of self.now.free }
        ensures some { IfSome result (IsLowest (IsWith self.now.locks self.now.tasks lock)) }
        ensures none { IfNone result (IsNone (IsWith self.now.locks self.now.tasks lock)) }
    {
        let place = self.places.next_from(self.order.start(lock))?;
        let task = self.order.task(place);
        if self.order.lock(task) != lock {
            return None;
        }
        Some(task)
    }
}
