//! Services, books on their locks, and the entries of a book.
ghost use Rattle.std.specs.Prelude.{◌≡◌, [], IfOk};
ghost use Rattle.resource_lock.specs.Opening.{opening_of};
ghost use Rattle.shared_services.specs.Takings.{HasTheLocks};

use lock_journal::Book;
use resource_lock::{Change, Graph, GraphTasks};
use shared_services::ServiceTable;
use std::alloc::{AllocError, Global};
use std::process::Abort;

/// A service that two may use at once, and one that one may.
pub static TWO_SERVICES: [u32; 2] = [2, 1];

/// Services with these maxima.
pub fn table_of(
    rt: &impl Abort,
    alloc: Global,
    maxima: &[u32],
) -> Result<ServiceTable, AllocError> {
    let maxima = maxima.to_vec(alloc)?;
    assert!(rt; ServiceTable::fits(&maxima));
    Ok(ServiceTable::new(maxima))
}

/// A book without entries on the locks of the services, with as many leases as workers.
pub fn book_of(
    rt: &impl Abort,
    alloc: Global,
    table: &ServiceTable,
    workers: u32,
) -> Result<Box<Book>, AllocError>
    ensures locks { IfOk result (λ book. HasTheLocks table.now book.value.graph) }
    ensures state { IfOk result (λ book. book.value.state ≡ opening_of book.value.graph) }
    ensures whole { IfOk result (λ book. book.value.given ≡ 0) }
    ensures history { IfOk result (λ book. book.value.history ≡ []) }
{
    let locks = table.locks();
    let tasks = GraphTasks::none(alloc);
    assert!(rt; Graph::fits(locks, None, workers, workers, &tasks, &[]));
    let graph = Graph::new(locks, None, workers, workers, tasks, Vec::new(alloc));
    Ok(Box::new(alloc, Book::opening(alloc, graph, 0, 0)?)?)
}

/// The worker of an entry, and its changes, or none where it failed.
pub type EntryRow = (u32, Option<&'static [Change]>);

fn has_entry(book: &Book, place: u64, row: &EntryRow) -> bool {
    if place < book.given() || place >= book.len() {
        return false;
    }
    let (worker, changes) = row;
    let shown = book.entry(place);
    let same = match changes {
        Some(changes) => !shown.failed && shown.changes.eq(changes.iter().copied()),
        None => shown.failed,
    };
    shown.worker.0 == *worker && same
}

/// Whether the history of the book is these entries.
pub fn has_entries(book: &Book, rows: &[EntryRow]) -> bool {
    for (place, row) in rows.iter().enumerate() {
        if !has_entry(book, place as u64, row) {
            return false;
        }
    }
    book.len() == rows.len() as u64
}
