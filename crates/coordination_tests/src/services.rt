//! Services over new books.
ghost use Rattle.std.specs.Prelude.{◌≡◌, All, IfOk, IfSome, length, map};
ghost use Rattle.coordination.specs.Holds.{HoldsNothing};
ghost use Rattle.coordination.specs.Sights.{workers_from};
ghost use Rattle.state_tests.specs.Rows.{graph_of_rows};

use coordination::{Coordination, Opened, openings_are_at_rest};
use resource_lock::GraphAction;
use state_tests::books::book_of;
use state_tests::rows::{Limits, TaskRow};
use std::alloc::{AllocError, Global};
use std::thread;

// The value in a box.
fn boxed<T: Drop>(alloc: Global, value: T) -> Result<Box<T>, AllocError>
    ensures { IfOk result (λ b. b.value ≡ value) }
{
    match Box::new(alloc, value) {
        Ok(value) => Ok(value),
        Err(_) => Err(AllocError),
    }
}

/// A service over a new book of the graph of these rows, with a pass for each worker, or none where they don't fit.
pub fn open(
    alloc: Global,
    limits: &Limits,
    rows: &[TaskRow],
    actions: &[GraphAction],
) -> Result<Option<Box<Opened>>, AllocError>
    ensures len { IfOk result (λ found. IfSome found (λ opened. length opened.value.passes.items ≡ limits.now.workers)) }
    ensures workers { IfOk result (λ found. IfSome found (λ opened. map (λ p. p.sight.worker.0) opened.value.passes.items ≡ workers_from 0 opened.value.service.book.graph.workers)) }
    ensures service { IfOk result (λ found. IfSome found (λ opened. All (λ p. p.service ≡ opened.value.service.service) opened.value.passes.items)) }
    ensures graph { IfOk result (λ found. IfSome found (λ opened. All (λ p. p.sight.seen.graph ≡ graph_of_rows limits.now rows.now actions.now) opened.value.passes.items)) }
    ensures rest { IfOk result (λ found. IfSome found (λ opened. All (λ p. HoldsNothing p.sight) opened.value.passes.items)) }
{
    openings_are_at_rest();
    let Some(book) = book_of(alloc, limits, rows, actions)? else {
        return Ok(None);
    };
    Ok(Some(boxed(alloc, Coordination::open(alloc, book)?)?))
}

/// Lets a service and its passes go, so that no test has to say what becomes of all that they are made of.
pub fn let_go(opened: Box<Opened>) {
    drop(opened);
}

/// Lets other threads go on for a while.
pub fn yield_a_while() {
    for _ in 0..1000 {
        thread::yield_now();
    }
}
