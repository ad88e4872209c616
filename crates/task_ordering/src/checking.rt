//! Whether the entries of a history keep an order.
ghost use Rattle.std.specs.Prelude.{false, length, slice_index_or, IfOk, IsTrue, Some, ◌<◌, ◌≡◌, ◌⊎◌, ℕ};
ghost use Rattle.lock_journal.specs.Shown.{entry_shown};
ghost use Rattle.ready_work.specs.Rank.{lists_of, InRange};
ghost use Rattle.task_ordering.specs.Checking.{StartsEarly, ended_by, started_by};
ghost use Rattle.task_ordering.specs.Marks.{IsMarked};

use crate::marks::{has_unmarked, no_marks};
use crate::placing::befores_at;
use lock_journal::Shown;
use lock_transforms::Kind;
use std::alloc::{AllocError, Global};

/// What was found in a history.
#[derive(Clone, Copy, PartialEq, Eq)]
pub enum Kept {
    /// Each task was started after those before it had ended.
    Kept,
    /// The number of the first entry, counted from 1, that starts a task too early.
    Broken(u64),
}

// The task that an entry starts.
fn started_by(shown: Shown<'_>) -> Option<u32>
    ensures { result ≡ started_by (entry_shown shown.entry) }
{
    match shown.kind {
        Kind::Start(task) if !shown.failed => Some(task),
        _ => None,
    }
}

// The task that an entry ends or skips.
fn ended_by(shown: Shown<'_>) -> Option<u32>
    ensures { result ≡ ended_by (entry_shown shown.entry) }
{
    match shown.kind {
        Kind::End(task) | Kind::Skip(task) if !shown.failed => Some(task),
        _ => None,
    }
}

/// Of each task whether it has ended or been skipped.
#[derive(Drop)]
pub(crate) struct Ended {
    marks: Vec<bool>,
}

impl Ended {
    /// None of so many tasks.
    pub(crate) fn none(alloc: Global, count: usize) -> Result<Ended, AllocError>
        ensures size { IfOk result (λ ended. length ended.marks.items ≡ count) }
        ensures none { IfOk result (λ ended. (t : ℕ) → slice_index_or ended.marks.items t false ≡ false) }
    {
        let marks = no_marks(alloc, count)?;
        Ok(Ended { marks })
    }

    /// Whether an entry starts a task while one before it hasn't ended.
    pub(crate) fn starts_early(&self, befores: &[Vec<u32>], shown: Shown<'_>) -> bool
        requires range { InRange (lists_of befores.now) }
        requires size { length self.now.marks.items ≡ length befores.now }
        ensures early { IsTrue result → StartsEarly (lists_of befores.now) self.now.marks.items (entry_shown shown.entry) }
        ensures none { result ≡ false → StartsEarly (lists_of befores.now) self.now.marks.items (entry_shown shown.entry) → ⊥ }
    {
        match started_by(shown) {
            Some(task) if (task as usize) < befores.len() => {
                has_unmarked(befores_at(befores, task as usize), &self.marks)
            }
            _ => false,
        }
    }

    /// Marks the task that an entry ends or skips.
    pub(crate) fn note(&mut self, shown: Shown<'_>)
        ensures size { length self.new.marks.items ≡ length self.old.marks.items }
        ensures keeps { (t : ℕ) → IsMarked self.old.marks.items t → IsMarked self.new.marks.items t }
        ensures marks { (t : ℕ) → t < length self.old.marks.items → ended_by (entry_shown shown.entry) ≡ Some t → IsMarked self.new.marks.items t }
        ensures only { (t : ℕ) → IsMarked self.new.marks.items t → IsMarked self.old.marks.items t ⊎ (ended_by (entry_shown shown.entry) ≡ Some t) }
    {
        if let Some(task) = ended_by(shown)
            && (task as usize) < self.marks.len()
        {
            self.marks[task as usize] = true;
        }
    }
}
