//! Tasks are placed one behind the other: each time the lowest of those whose befores have all been placed.
ghost use Rattle.std.specs.Prelude.{false, length, slice_index, slice_index_or, All, IfOk, OnOk, ◌<◌, ◌≡◌, ◌≤◌, ◌^◌, [], ℕ};
ghost use Rattle.ready_work.specs.NumberSetView.{has, room_of};
ghost use Rattle.ready_work.specs.Rank.{after, lists_of};
ghost use Rattle.task_ordering.specs.Marks.{IsMarked};
ghost use Rattle.task_ordering.specs.Placed.{AreAllPlaced, AreBefores};

use crate::marks::no_marks;
use ready_work::{NumberSet, dependents_at, dependents_of};
use std::alloc::{AllocError, Global};

/// A task has a mark once it is placed. `next` is the place of the task before it that it waits for, and `ready` has
/// those that wait for none.
#[derive(Drop)]
pub(crate) struct Placing {
    pub(crate) placed: Vec<bool>,
    next: Vec<usize>,
    ready: NumberSet,
    pub(crate) order: Vec<u32>,
}

// The first place from `from` on whose task isn't placed.
fn first_open(befores: &[u32], placed: &[bool], from: usize) -> usize
    requires low { from ≤ length befores.now }
    requires range { All (λ t. t < length placed.now) befores.now }
    ensures low { from ≤ result }
    ensures high { result ≤ length befores.now }
    ensures passed { (k : ℕ) → from ≤ k → k < result → IsMarked placed.now (slice_index befores.now k) }
    ensures open { result < length befores.now → slice_index_or placed.now (slice_index befores.now result) false ≡ false }
{
    let mut place = from;
    while place < befores.len() && placed[befores[place] as usize] {
        place += 1;
    }
    place
}

/// The tasks before a task.
pub(crate) fn befores_at(befores: &[Vec<u32>], task: usize) -> &[u32]
    requires { task < length befores.now }
    ensures { result.now ≡ after (lists_of befores.entry.now) task }
{
    befores[task].as_slice()
}

impl Placing {
    ghost use Rattle.task_ordering.specs.Placing.{AreSettled, AreSettledOrListed, IsSoundPlacing, LooksAt, Places};

    // Nothing is placed, and nothing was looked at.
    fn new(alloc: Global, count: u32) -> Result<Placing, AllocError>
        ensures marks { IfOk result (λ s. length s.placed.items ≡ count) }
        ensures places { IfOk result (λ s. length s.next.items ≡ count) }
        ensures room { IfOk result (λ s. count ≤ room_of s.ready) }
        ensures order { IfOk result (λ s. s.order.items ≡ []) }
        ensures unplaced { IfOk result (λ s. (t : ℕ) → slice_index_or s.placed.items t false ≡ false) }
        ensures first { IfOk result (λ s. (t : ℕ) → slice_index_or s.next.items t 0 ≡ 0) }
        ensures empty { IfOk result (λ s. (t : ℕ) → has s.ready t ≡ false) }
    {
        Ok(Placing {
            placed: no_marks(alloc, count as usize)?,
            next: vec![in alloc; 0; count as usize]?,
            ready: NumberSet::new(alloc, count)?,
            order: Vec::with_capacity(alloc, count as usize)?,
        })
    }

    // Goes on with the befores of a task, to the first that isn't placed. Where there is none, the task is ready.
    fn look_at(&mut self, befores: &[Vec<u32>], to_run: &[bool], task: usize)
        requires few { length befores.now < 2 ^ 32 }
        requires are { AreBefores to_run.now (lists_of befores.now) }
        requires task { IsMarked to_run.now task }
        requires sound { IsSoundPlacing to_run.now (lists_of befores.now) self.old }
        ensures sound { IsSoundPlacing to_run.now (lists_of befores.now) self.new }
        ensures looks { LooksAt (lists_of befores.now) self.old self.new task }
    {
        if self.placed[task] {
            return;
        }
        let all = befores_at(befores, task);
        let place = first_open(all, self.placed.as_slice(), self.next[task]);
        self.next[task] = place;
        if place == all.len() {
            self.ready.put(task as u32, true);
        }
    }

    // Looks at each task to run.
    fn look_at_all(&mut self, befores: &[Vec<u32>], to_run: &[bool])
        requires few { length befores.now < 2 ^ 32 }
        requires are { AreBefores to_run.now (lists_of befores.now) }
        requires sound { IsSoundPlacing to_run.now (lists_of befores.now) self.old }
        ensures sound { IsSoundPlacing to_run.now (lists_of befores.now) self.new }
        ensures settled { AreSettled (length befores.now) to_run.now (lists_of befores.now) self.new }
    {
        for task in 0..befores.len() {
            if to_run[task] {
                self.look_at(befores, to_run, task);
            }
        }
    }

    // Looks at those that a task that was just placed stands before.
    fn look_at_listed(&mut self, befores: &[Vec<u32>], to_run: &[bool], list: &[usize])
        requires few { length befores.now < 2 ^ 32 }
        requires are { AreBefores to_run.now (lists_of befores.now) }
        requires tasks { All (IsMarked to_run.now) list.now }
        requires sound { IsSoundPlacing to_run.now (lists_of befores.now) self.old }
        requires settled { AreSettledOrListed to_run.now (lists_of befores.now) self.old list.now }
        ensures sound { IsSoundPlacing to_run.now (lists_of befores.now) self.new }
        ensures settled { AreSettled (length befores.now) to_run.now (lists_of befores.now) self.new }
        ensures placed { self.new.placed.items ≡ self.old.placed.items }
    {
        for task in list {
            self.look_at(befores, to_run, *task);
        }
    }

    // Places a task, which is no longer ready then.
    fn place(&mut self, task: u32) -> Result<(), AllocError>
        requires mark { task < length self.old.placed.items }
        requires room { task < room_of self.old.ready }
        ensures { OnOk result (Places self.old self.new task) }
    {
        self.order.push(task)?;
        self.placed[task as usize] = true;
        self.ready.put(task, false);
        Ok(())
    }

    /// Places each task to run, unless it stands on a cycle or comes after one.
    ///
    /// The time and the memory are linear in the tasks and their befores. An error is want of memory.
    pub(crate) fn of(
        alloc: Global,
        befores: &[Vec<u32>],
        to_run: &[bool],
    ) -> Result<Placing, AllocError>
        requires few { length befores.now < 2 ^ 32 }
        requires are { AreBefores to_run.now (lists_of befores.now) }
        ensures { IfOk result (λ s. AreAllPlaced to_run.now (lists_of befores.now) s.placed.items s.order.items) }
    {
        let dependents = dependents_of(alloc, befores)?;
        let mut placing = Placing::new(alloc, befores.len() as u32)?;
        placing.look_at_all(befores, to_run);
        while let Some(task) = placing.ready.first() {
            placing.place(task)?;
            placing.look_at_listed(befores, to_run, dependents_at(&dependents, task as usize));
        }
        Ok(placing)
    }
}
