//! The first task without a rank.
ghost use Rattle.std.specs.Prelude.{false, length, slice_index_or, true, IfOk, MatchOption, ◌<◌, ◌≡◌, ℕ};
ghost use Rattle.ready_work.specs.Rank.{InRange, IsFirstCycle, MarksRanked, lists_of};

use crate::dependent_lists::{dependents_at, dependents_of};
use crate::rank_search::Search;
use std::alloc::{AllocError, Global};

// The marks of exactly the tasks that have a rank.
fn ranked_marks(alloc: Global, rows: &[Vec<u32>]) -> Result<Vec<bool>, AllocError>
    requires { InRange (lists_of rows.now) }
    ensures { IfOk result (λ marks. MarksRanked (lists_of rows.now) marks.items) }
{
    let dependents = dependents_of(alloc, rows)?;
    let mut search = Search::new(alloc, rows)?;
    search.look_at_all(rows)?;
    while let Some(popped) = search.stack.pop() {
        search.look_at_listed(rows, popped, dependents_at(dependents.as_slice(), popped))?;
    }
    let Search { ranked, .. } = search;
    Ok(ranked)
}

// The first place without a mark.
fn first_without_mark(marks: &[bool]) -> Option<usize>
    ensures { MatchOption result ((k : ℕ) → k < length marks.now → slice_index_or marks.now k false ≡ true)
        (λ i. (i < length marks.now) × (slice_index_or marks.now i false ≡ false) × ((k : ℕ) → k < i → slice_index_or marks.now k false ≡ true)) }
{
    for (i, mark) in marks.iter().enumerate() {
        if !*mark {
            return Some(i);
        }
    }
    None
}

/// The first task that stands on a cycle or comes after one that does, or `None` where none does.
///
/// `rows` has for each task the numbers of the tasks that it comes after. The time and the memory
/// are linear in the tasks and their names. An error is want of memory.
pub fn first_cycle(alloc: Global, rows: &[Vec<u32>]) -> Result<Option<usize>, AllocError>
    requires { InRange (lists_of rows.now) }
    ensures { IfOk result (IsFirstCycle (lists_of rows.now)) }
{
    let marks = ranked_marks(alloc, rows)?;
    let first = first_without_mark(marks.as_slice());
    Ok(first)
}
