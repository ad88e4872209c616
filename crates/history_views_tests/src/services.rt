//! Services with views, over new books.
ghost use Rattle.std.specs.Prelude.{◌≡◌, All, IfOk, Some, length, map};
ghost use Rattle.resource_lock.specs.Opening.{opening_of};
ghost use Rattle.coordination.specs.Sights.{workers_from};

use coordination::{Coordination, OpenedWithViews, openings_are_at_rest};
use lock_journal::Book;
use resource_lock::{Graph, GraphTasks};
use std::alloc::{AllocError, Global};
use std::process::Abort;
use std::sync::Wait;

/// How many workers a service has, and what they share.
#[derive(Clone, Copy)]
pub struct Limits {
    pub locks: u32,
    pub workers: u32,
    pub max_leases: u32,
}

/// A book without entries, whose graph has no tasks.
pub fn book_of(rt: &impl Abort, alloc: Global, limits: &Limits) -> Result<Box<Book>, AllocError>
    ensures state { IfOk result (λ book. book.value.state ≡ opening_of book.value.graph) }
    ensures whole { IfOk result (λ book. book.value.given ≡ 0) }
    ensures workers { IfOk result (λ book. book.value.graph.workers ≡ limits.now.workers) }
{
    let tasks = GraphTasks::none(alloc);
    let actions = Vec::new(alloc);
    assert!(rt;
        Graph::fits(
            limits.locks,
            None,
            limits.workers,
            limits.max_leases,
            &tasks,
            &actions
        )
    );
    let graph = Graph::new(
        limits.locks,
        None,
        limits.workers,
        limits.max_leases,
        tasks,
        actions,
    );
    Ok(Box::new(alloc, Book::opening(alloc, graph, 0, 0)?)?)
}

/// A service over a new book, with so many views of its history.
pub fn open<R: Wait + Drop>(
    rt: &impl Abort,
    alloc: Global,
    waits: R,
    limits: &Limits,
    views: u32,
) -> Result<Box<OpenedWithViews<(), R>>, AllocError>
    ensures passes { IfOk result (λ opened. length opened.value.passes.items ≡ limits.now.workers) }
    ensures views { IfOk result (λ opened. length opened.value.views.items ≡ views) }
    ensures workers { IfOk result (λ opened. map (λ p. p.sight.worker.0) opened.value.passes.items ≡ workers_from 0 opened.value.service.book.graph.workers) }
    ensures service { IfOk result (λ opened. All (λ p. p.service ≡ opened.value.service.service) opened.value.passes.items) }
    ensures ledger { IfOk result (λ opened. All (λ v. opened.value.service.service.ledger ≡ Some v.ledger) opened.value.views.items) }
{
    openings_are_at_rest();
    let book = book_of(rt, alloc, limits)?;
    let opened = Coordination::open_with_views(alloc, waits, book, (), views)?;
    Ok(Box::new(alloc, opened)?)
}
