//! Counts of those that tasks come after.
ghost use Rattle.std.specs.Prelude.{◌≡◌, ◌+◌, ◌<◌, ◌≤◌, ℕ, All, IfOk, false, length, slice_index_or};
ghost use Rattle.resource_lock.specs.declared.limits.TheConstants.{MAX_AFTER};
ghost use Rattle.ready_work.specs.DependentLists.{times};
ghost use Rattle.ready_work.specs.DependencyCounts.{count_of, is_counted, CanPut, IsOfSize, PutsCount};

use std::alloc::{AllocError, Global};

/// Which tasks are counted, and for each task how many of those that it comes after are. One that stands twice in the `after` of a
/// task counts twice, and has it twice among its dependents.
#[derive(Drop)]
pub(crate) struct DependencyCounts {
    counted: Vec<bool>,
    counts: Vec<u32>,
}

impl DependencyCounts {
    /// Counts of so many tasks, none of which is counted.
    pub(crate) fn none(alloc: Global, tasks: usize) -> Result<DependencyCounts, AllocError>
        ensures size { IfOk result (IsOfSize tasks) }
        ensures none { IfOk result (λ dependency_counts. (t : ℕ) → is_counted dependency_counts t ≡ false) }
        ensures zero { IfOk result (λ dependency_counts. (t : ℕ) → count_of dependency_counts t ≡ 0) }
    {
        let counted = vec![in alloc; false; tasks]?;
        let counts = vec![in alloc; 0; tasks]?;
        Ok(DependencyCounts { counted, counts })
    }

    /// How many of those that a task comes after are counted.
    pub(crate) fn count(&self, task: usize) -> u32
        requires { task < length self.now.counts.items }
        ensures { result ≡ count_of self.now task }
    {
        self.counts[task]
    }

    /// Says whether a task is counted, and tells whether that is new.
    pub(crate) fn put(&mut self, dependents: &[u32], task: usize, is_member: bool) -> bool
        requires { CanPut dependents.now task self.old }
        ensures put { PutsCount dependents.now task is_member self.old self.new }
        ensures known { result ≡ false → is_counted self.old task ≡ is_member }
    {
        if self.counted[task] == is_member {
            return false;
        }
        self.counted[task] = is_member;
        if is_member {
            raise(&mut self.counts, dependents);
        } else {
            lower(&mut self.counts, dependents);
        }
        true
    }
}

// Counts once more for each place of a task in the list.
fn raise(counts: &mut Vec<u32>, tasks: &[u32])
    requires in_range { All (λ k. k < length counts.old.items) tasks.now }
    requires few { (k : ℕ) → slice_index_or counts.old.items k 0 + times tasks.now k ≤ MAX_AFTER }
    ensures size { length counts.new.items ≡ length counts.old.items }
    ensures each { (k : ℕ) → slice_index_or counts.new.items k 0 ≡ slice_index_or counts.old.items k 0 + times tasks.now k }
{
    for task in tasks {
        counts[*task as usize] += 1;
    }
}

// Counts once less for each place of a task in the list.
fn lower(counts: &mut Vec<u32>, tasks: &[u32])
    requires in_range { All (λ k. k < length counts.old.items) tasks.now }
    requires enough { (k : ℕ) → times tasks.now k ≤ slice_index_or counts.old.items k 0 }
    ensures size { length counts.new.items ≡ length counts.old.items }
    ensures each { (k : ℕ) → slice_index_or counts.new.items k 0 + times tasks.now k ≡ slice_index_or counts.old.items k 0 }
{
    for task in tasks {
        counts[*task as usize] -= 1;
    }
}
