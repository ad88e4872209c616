//! The table of services, and a service for the workers that use them.
ghost use Rattle.std.specs.Prelude.{◌≡◌, All, IfOk, map};
ghost use Rattle.resource_lock.specs.Opening.{opening_of};
ghost use Rattle.coordination.specs.Holds.{HoldsNothing};
ghost use Rattle.coordination.specs.Sights.{workers_from};
ghost use Rattle.shared_services.specs.Takings.{HasTheLocks};

use anyhow::{Result, bail};
use coordination::{Coordination, Opened, openings_are_at_rest};
use lock_journal::Book;
use resource_lock::{Graph, GraphTasks};
use shared_services::ServiceTable;
use std::alloc::Global;

/// One service, the database, with so many connections.
pub(crate) fn connections(alloc: Global, count: u32) -> Result<ServiceTable> {
    let maxima = [count].to_vec(alloc)?;
    if !ServiceTable::fits(&maxima) {
        bail!("a service has 1 to 32 uses");
    }
    Ok(ServiceTable::new(maxima))
}

// A book without entries, for so many workers on the locks of the services.
fn book_of(alloc: Global, table: &ServiceTable, workers: u32) -> Result<Box<Book>>
    ensures locks { IfOk result (λ book. HasTheLocks table.now book.value.graph) }
    ensures state { IfOk result (λ book. book.value.state ≡ opening_of book.value.graph) }
    ensures whole { IfOk result (λ book. book.value.given ≡ 0) }
{
    let locks = table.locks();
    let tasks = GraphTasks::none(alloc);
    if !Graph::fits(locks, None, workers, workers, &tasks, &[]) {
        bail!("there are too many workers");
    }
    let graph = Graph::new(locks, None, workers, workers, tasks, Vec::new(alloc));
    Ok(Box::new(alloc, Book::opening(alloc, graph, 0, 0)?)?)
}

/// A service over such a book, with a pass for each worker.
pub(crate) fn open(alloc: Global, table: &ServiceTable, workers: u32) -> Result<Box<Opened>>
    ensures locks { IfOk result (λ opened. All (λ p. HasTheLocks table.now p.sight.seen.graph) opened.value.passes.items) }
    ensures rest { IfOk result (λ opened. All (λ p. HoldsNothing p.sight) opened.value.passes.items) }
    ensures workers { IfOk result (λ opened. map (λ p. p.sight.worker.0) opened.value.passes.items
        ≡ workers_from 0 opened.value.service.book.graph.workers) }
    ensures service { IfOk result (λ opened. All (λ p. p.service ≡ opened.value.service.service) opened.value.passes.items) }
{
    openings_are_at_rest();
    let book = book_of(alloc, table, workers)?;
    Ok(Box::new(alloc, Coordination::open(alloc, book)?)?)
}
