//! A service for workers that have no project.
ghost use Rattle.std.specs.Prelude.{◌≡◌, All, IfOk, map};
ghost use Rattle.resource_lock.specs.Opening.{opening_of};
ghost use Rattle.coordination.specs.Sights.{workers_from};

use anyhow::{Result, bail};
use coordination::{Coordination, Opened, openings_are_at_rest};
use lock_journal::Book;
use resource_lock::{Graph, GraphTasks};
use std::alloc::Global;

// A book without entries, for so many workers with a lease each, and no lock.
fn book_of(alloc: Global, workers: u32) -> Result<Box<Book>>
    ensures state { IfOk result (λ book. book.value.state ≡ opening_of book.value.graph) }
    ensures whole { IfOk result (λ book. book.value.given ≡ 0) }
{
    let tasks = GraphTasks::none(alloc);
    if !Graph::fits(0, None, workers, workers, &tasks, &[]) {
        bail!("there are too many workers");
    }
    let graph = Graph::new(0, None, workers, workers, tasks, Vec::new(alloc));
    Ok(Box::new(alloc, Book::opening(alloc, graph, 0, 0)?)?)
}

/// A service over such a book, with a pass for each worker.
pub(crate) fn open(alloc: Global, workers: u32) -> Result<Box<Opened>>
    ensures workers { IfOk result (λ opened. map (λ p. p.sight.worker.0) opened.value.passes.items
        ≡ workers_from 0 opened.value.service.book.graph.workers) }
    ensures service { IfOk result (λ opened. All (λ p. p.service ≡ opened.value.service.service) opened.value.passes.items) }
{
    openings_are_at_rest();
    let book = book_of(alloc, workers)?;
    Ok(Box::new(alloc, Coordination::open(alloc, book)?)?)
}
