//! Books by rows of numbers.
ghost use Rattle.std.specs.Prelude.{◌≡◌, IfOk, IfSome};
ghost use Rattle.resource_lock.specs.Opening.{opening_of};
ghost use Rattle.state_tests.specs.Rows.{graph_of_rows};

use crate::graphs::graph_of;
use crate::rows::{Limits, TaskRow};
use lock_journal::Book;
use resource_lock::GraphAction;
use std::alloc::{AllocError, Global};

/// A book of the graph of these rows, without entries, or none where they don't fit.
pub fn book_of(
    alloc: Global,
    limits: &Limits,
    rows: &[TaskRow],
    actions: &[GraphAction],
) -> Result<Option<Box<Book>>, AllocError>
    ensures graph { IfOk result (λ found. IfSome found (λ book. book.value.graph ≡ graph_of_rows limits.now rows.now actions.now)) }
    ensures state { IfOk result (λ found. IfSome found (λ book. book.value.state ≡ opening_of book.value.graph)) }
    ensures whole { IfOk result (λ found. IfSome found (λ book. book.value.given ≡ 0)) }
{
    let Some(graph) = graph_of(alloc, limits, rows, actions)? else {
        return Ok(None);
    };
    let book = Book::opening(alloc, Box::into_inner(graph), 0, 0)?;
    Ok(Some(Box::new(alloc, book)?))
}
