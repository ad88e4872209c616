//! The search for ranks. Each task waits for one of those that it comes after, the first that has no mark yet.
ghost use Rattle.std.specs.Prelude.{false, length, slice_index, slice_index_or, true, IfOk, OnOk, [], ◌<◌, ◌≡◌, ◌≤◌, ℕ};
ghost use Rattle.ready_work.specs.Rank.{InRange, after, lists_of};
ghost use Rattle.ready_work.specs.Search.{IsSoundSearch, LooksAt, WaitBelow, WaitOrListed, work_left};

use std::alloc::{AllocError, Global};

/// A task has a mark once it is known to have a rank. `next` is the place of the name that it
/// waits for, and `stack` has the tasks with a mark of which their dependents weren't looked at since.
#[derive(Drop)]
pub(crate) struct Search {
    pub(crate) ranked: Vec<bool>,
    next: Vec<usize>,
    pub(crate) stack: Vec<usize>,
}

// The first place from `from` on whose task has no mark.
fn first_open(names: &[u32], ranked: &[bool], from: usize) -> usize
    requires low { from ≤ length names.now }
    requires range { (k : ℕ) → k < length names.now → slice_index names.now k < length ranked.now }
    ensures low { from ≤ result }
    ensures high { result ≤ length names.now }
    ensures passed { (k : ℕ) → from ≤ k → k < result → slice_index_or ranked.now (slice_index names.now k) false ≡ true }
    ensures open { result < length names.now → slice_index_or ranked.now (slice_index names.now result) false ≡ false }
{
    let mut place = from;
    while place < names.len() && ranked[names[place] as usize] {
        place += 1;
    }
    place
}

/// The tasks that a task comes after.
pub(crate) fn names_of(rows: &[Vec<u32>], task: usize) -> &[u32]
    requires { task < length rows.now }
    ensures { result.now ≡ after (lists_of rows.entry.now) task }
{
    rows[task].as_slice()
}

impl Search {
    /// No task has a mark, and none was looked at.
    pub(crate) fn new(alloc: Global, rows: &[Vec<u32>]) -> Result<Search, AllocError>
        ensures sound { IfOk result (IsSoundSearch (lists_of rows.now)) }
        ensures stack { IfOk result (λ s. s.stack.items ≡ []) }
    {
        let mut ranked = Vec::with_capacity(alloc, rows.len())?;
        let mut next = Vec::with_capacity(alloc, rows.len())?;
        for row in rows {
            let _ = row;
            ranked.push(false)?;
            next.push(0)?;
        }
        Ok(Search {
            ranked,
            next,
            stack: Vec::new(alloc),
        })
    }

    /// Looks at each task once.
    pub(crate) fn look_at_all(&mut self, rows: &[Vec<u32>]) -> Result<(), AllocError>
        requires range { InRange (lists_of rows.now) }
        requires sound { IsSoundSearch (lists_of rows.now) self.old }
        ensures sound { OnOk result (IsSoundSearch (lists_of rows.now) self.new) }
        ensures waits { OnOk result (WaitBelow (length rows.now) (lists_of rows.now) self.new) }
    {
        for task in 0..rows.len() {
            self.look_at(rows, task)?;
        }
        Ok(())
    }

    /// Looks at each task of the list, those that waited for a task that got its mark.
    pub(crate) fn look_at_listed(
        &mut self,
        rows: &[Vec<u32>],
        popped: usize,
        list: &[usize],
    ) -> Result<(), AllocError>
        requires range { InRange (lists_of rows.now) }
        requires tasks { (k : ℕ) → k < length list.now → slice_index_or list.now k 0 < length rows.now }
        requires sound { IsSoundSearch (lists_of rows.now) self.old }
        requires waits { WaitOrListed (lists_of rows.now) self.old popped list.now }
        ensures sound { OnOk result (IsSoundSearch (lists_of rows.now) self.new) }
        ensures waits { OnOk result (WaitBelow (length rows.now) (lists_of rows.now) self.new) }
        ensures work { OnOk result (work_left self.new ≤ work_left self.old) }
    {
        for task in list {
            self.look_at(rows, *task)?;
        }
        Ok(())
    }

    // Goes on with the names of a task: to the first that has no mark, or gives the task its mark.
    fn look_at(&mut self, rows: &[Vec<u32>], task: usize) -> Result<(), AllocError>
        requires range { InRange (lists_of rows.now) }
        requires task { task < length rows.now }
        requires sound { IsSoundSearch (lists_of rows.now) self.old }
        ensures sound { OnOk result (IsSoundSearch (lists_of rows.now) self.new) }
        ensures looks { OnOk result (LooksAt (lists_of rows.now) task self.old self.new) }
    {
        if self.ranked[task] {
            return Ok(());
        }
        let names = names_of(rows, task);
        let place = first_open(names, self.ranked.as_slice(), self.next[task]);
        self.next[task] = place;
        if place == names.len() {
            self.stack.push(task)?;
            self.ranked[task] = true;
        }
        Ok(())
    }
}
