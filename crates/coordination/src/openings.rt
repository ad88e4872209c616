//! Openings: a slot or a service, with the passes of its workers.
ghost use Rattle.std.specs.Prelude.{◌≡◌, All, IfOk, length, map};
ghost use Rattle.resource_lock.specs.AtRest.{IsAtRest};
ghost use Rattle.history_views.specs.ShownBooks.{IsTold};
ghost use Rattle.worker_notes.specs.Parts.{ArePartsFrom};
ghost use Rattle.coordination.specs.Sights.{sights_from, workers_from};

use crate::boxed_books::BoxedBook;
use crate::guarded::Guarded;
use crate::keepers::{Keeper, Runner};
use crate::passes::Pass;
use crate::services::{Coordination, service_of};
use crate::slots::Slot;
use history_views::Reach;
use lock_journal::Book;
use resource_lock::WorkerId;
use std::alloc::{AllocError, Global};
use std::sync::Condvar;
use worker_notes::{Offers, WorkerPart, last_number};

impl Slot {
    /// A service without its state lock over the book, in which nobody has anything, with a pass for each worker of its
    /// graph in order. Each has seen this book. It fails for want of memory alone.
    pub fn opening(alloc: Global, book: Box<Book>) -> Result<(Slot, Vec<Pass>), AllocError>
        requires rest { IsAtRest book.value.state }
        requires whole { book.value.given ≡ 0 }
        ensures book { IfOk result (λ opened. opened.0.table.shared.key.kept.value.book ≡ book.value) }
        ensures passes { IfOk result (λ opened. map (λ p. p.sight) opened.1.items ≡ sights_from 0 book.value.graph.workers book.value) }
        ensures workers { IfOk result (λ opened. map (λ p. p.sight.worker.0) opened.1.items ≡ workers_from 0 book.value.graph.workers) }
        ensures service { IfOk result (λ opened. All (λ p. p.service.table ≡ opened.0.table.shared.table_id) opened.1.items) }
        ensures seen { IfOk result (λ opened. All (λ p. p.sight.seen ≡ book.value) opened.1.items) }
    {
        open_slot(alloc, BoxedBook { inner: book }, &None)
    }
}

/// A service with what keeps a book, in which nobody has anything, and a pass for each worker of its graph in order, which is told this
/// of the history. Beside the book work waits that the offers tell of. It fails for want of memory alone.
pub(crate) fn open_service<O: Offers, K: Runner>(
    alloc: Global,
    keeper: K,
    offers: O,
    told: &Option<Reach>,
) -> Result<(Coordination<O, K>, Vec<Pass>), AllocError>
    requires rest { IsAtRest (K.book_of keeper).state }
    requires whole { (K.book_of keeper).given ≡ 0 }
    requires told { IsTold (K.ledger_of keeper) told.now (K.book_of keeper) }
    ensures book { IfOk result (λ opened. opened.0.book ≡ K.book_of keeper) }
    ensures ledger { IfOk result (λ opened. opened.0.service.ledger ≡ K.ledger_of keeper) }
    ensures passes { IfOk result (λ opened. map (λ p. p.sight) opened.1.items ≡ sights_from 0 (K.book_of keeper).graph.workers (K.book_of keeper)) }
    ensures service { IfOk result (λ opened. All (λ p. p.service ≡ opened.0.service) opened.1.items) }
{
    let own = condvars(alloc, keeper.book().graph().workers())?;
    let guarded = Guarded::new(alloc, keeper, offers)?;
    let (slot, passes) = open_slot(alloc, guarded, told)?;
    let service = service_of(slot, own);
    Ok((service, passes))
}

/// A slot with what keeps a book, in which nobody has anything, and a pass for each worker of its graph in order, which is told this of
/// the history. It fails for want of memory alone.
pub(crate) fn open_slot<K: Keeper>(
    alloc: Global,
    keeper: K,
    told: &Option<Reach>,
) -> Result<(Slot<K>, Vec<Pass>), AllocError>
    requires rest { IsAtRest (K.book_of keeper).state }
    requires whole { (K.book_of keeper).given ≡ 0 }
    requires told { IsTold (K.ledger_of keeper) told.now (K.book_of keeper) }
    ensures book { IfOk result (λ opened. opened.0.table.shared.key.kept.value.book ≡ K.book_of keeper) }
    ensures ledger { IfOk result (λ opened. opened.0.table.shared.key.kept.value.ledger ≡ K.ledger_of keeper) }
    ensures passes { IfOk result (λ opened. map (λ p. p.sight) opened.1.items ≡ sights_from 0 (K.book_of keeper).graph.workers (K.book_of keeper)) }
    ensures workers { IfOk result (λ opened. map (λ p. p.sight.worker.0) opened.1.items ≡ workers_from 0 (K.book_of keeper).graph.workers) }
    ensures service { IfOk result (λ opened. All (λ p. p.service
        ≡ record { table = opened.0.table.shared.table_id; ledger = opened.0.table.shared.key.kept.value.ledger }) opened.1.items) }
    ensures seen { IfOk result (λ opened. All (λ p. p.sight.seen ≡ K.book_of keeper) opened.1.items) }
{
    let parts = parts_of(alloc, keeper.book())?;
    let passes = Vec::with_capacity(alloc, parts.len())?;
    let (slot, seat) = Slot::new(alloc, keeper)?;
    let passes = slot.seated(seat, told, parts, passes);
    Ok((slot, passes))
}

// The parts of all workers of a book in which nobody has anything, in order.
fn parts_of(alloc: Global, book: &Book) -> Result<Vec<WorkerPart>, AllocError>
    requires rest { IsAtRest book.now.state }
    requires whole { book.now.given ≡ 0 }
    ensures len { IfOk result (λ parts. length parts.items ≡ book.now.graph.workers) }
    ensures parts { IfOk result (λ parts. ArePartsFrom 0 book.now parts.items) }
{
    let mut parts = Vec::new(alloc);
    for worker in 0..book.graph().workers() {
        let last = last_number(book, WorkerId(worker));
        parts.push(WorkerPart::fresh(alloc, last)?)?;
    }
    Ok(parts)
}

// So many Condvars.
fn condvars(alloc: Global, count: u32) -> Result<Vec<Condvar>, AllocError> {
    let mut all = Vec::with_capacity(alloc, count as usize)?;
    for _ in 0..count {
        all.push(Condvar::new())?;
    }
    Ok(all)
}
