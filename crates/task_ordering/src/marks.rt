//! Marks of tasks.
ghost use Rattle.std.specs.Prelude.{false, length, slice_index_or, All, Any, IfNone, IfOk, IfSome, IsTrue, ◌<◌, ◌≡◌, ℕ};
ghost use Rattle.task_ordering.specs.Marks.{IsFirstUnplaced, IsMarked};

use std::alloc::{AllocError, Global};

/// So many tasks, none of which has a mark.
pub(crate) fn no_marks(alloc: Global, count: usize) -> Result<Vec<bool>, AllocError>
    ensures size { IfOk result (λ marks. length marks.items ≡ count) }
    ensures none { IfOk result (λ marks. (t : ℕ) → slice_index_or marks.items t false ≡ false) }
{
    vec![in alloc; false; count]
}

/// Whether one of these tasks has no mark.
pub(crate) fn has_unmarked(tasks: &[u32], marks: &[bool]) -> bool
    requires { All (λ t. t < length marks.now) tasks.now }
    ensures found { IsTrue result → Any (λ t. slice_index_or marks.now t false ≡ false) tasks.now }
    ensures none { result ≡ false → All (IsMarked marks.now) tasks.now }
{
    for task in tasks {
        if !marks[*task as usize] {
            return true;
        }
    }
    false
}

/// The first task to run that isn't placed.
pub(crate) fn first_unplaced(to_run: &[bool], placed: &[bool]) -> Option<usize>
    requires { length placed.now ≡ length to_run.now }
    ensures none { IfNone result ((t : ℕ) → IsMarked to_run.now t → IsMarked placed.now t) }
    ensures some { IfSome result (IsFirstUnplaced to_run.now placed.now) }
{
    for task in 0..to_run.len() {
        if to_run[task] && !placed[task] {
            return Some(task);
        }
    }
    None
}
