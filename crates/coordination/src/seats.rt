//! The seats of the passes: cut off in `open`, joined in `finish`.
ghost use Rattle.std.specs.Prelude.{◌≡◌, ◌<◌, ◌≤◌, ◌^◌, [], ◌∷◌, All, IfOk, length, map, vec_capacity};
ghost use Rattle.worker_notes.specs.Agrees.{IsSoundBook};
ghost use Rattle.coordination.specs.Closings.{IsClosedBy};
ghost use Rattle.history_views.specs.ShownBooks.{IsTold};
ghost use Rattle.coordination.specs.Kept.{kept};
ghost use Rattle.worker_notes.specs.Parts.{ArePartsFrom};
ghost use Rattle.coordination.specs.Sights.{all_of, sights_from, starting, workers_from};

use crate::keepers::{Keeper, Kept};
use crate::passes::{Notes, Pass};
use crate::rule::{OneWorker, OpenedWith, SeatView, Sit, TakeForGood};
use crate::slots::Slot;
use atomic_table::{Refused, Seat, Table};
use history_views::Reach;
use lock_journal::Book;
use resource_lock::WorkerId;
use std::alloc::{AllocError, Global};
use std::snapshot::Snapshot;
use worker_notes::{Then, WorkerPart};

impl<K: Keeper> OpenedWith<K> {
    // The book that a service is opened with, for contracts.
    fn of(kept: &Kept<K>) -> OpenedWith<K>
        ensures kept { result.kept.value ≡ kept.now }
        ensures sound { IsSoundBook kept.now.book }
        ensures few { kept.now.book.graph.workers < 2 ^ 32 }
    {
        let book = kept.keeper.book();
        let _ = book.state();
        let _ = book.graph().workers();
        OpenedWith {
            kept: Snapshot::of(kept),
        }
    }
}

impl<K: Keeper> Slot<K> {
    /// A slot with the book in it, and a seat with all workers of its graph. It fails for want of memory alone.
    pub(crate) fn new(
        alloc: Global,
        keeper: K,
    ) -> Result<(Slot<K>, Seat<Kept<K>, SeatView>), AllocError>
        ensures kept { IfOk result (λ made. made.0.table.shared.key.kept.value ≡ kept (K.book_of keeper) (K.ledger_of keeper)) }
        ensures id { IfOk result (λ made. made.1.table_id ≡ made.0.table.shared.table_id) }
        ensures view { IfOk result (λ made. made.1.me ≡ (starting (kept (K.book_of keeper) (K.ledger_of keeper)), [])) }
        ensures few { IfOk result (λ _. (K.book_of keeper).graph.workers < 2 ^ 32) }
    {
        let kept = Kept { keeper };
        let start = OpenedWith::of(&kept);
        let slots = row_of(alloc, kept)?;
        match Table::new(alloc, &[0, 0], slots, &start) {
            Ok((table, seat)) => Ok((Slot { table }, seat)),
            Err(Refused { slots: _ }) => Err(AllocError),
        }
    }

    /// A pass for each worker, with these parts, in their order. There is room for them.
    pub(crate) fn seated(
        &self,
        mut seat: Seat<Kept<K>, SeatView>,
        told: &Option<Reach>,
        parts: Vec<WorkerPart>,
        mut passes: Vec<Pass>,
    ) -> Vec<Pass>
        requires id { seat.table_id ≡ self.now.table.shared.table_id }
        requires view { seat.me ≡ (starting self.now.table.shared.key.kept.value, []) }
        requires told { IsTold self.now.table.shared.key.kept.value.ledger told.now self.now.table.shared.key.kept.value.book }
        requires few { self.now.table.shared.key.kept.value.book.graph.workers < 2 ^ 32 }
        requires len { length parts.items ≡ self.now.table.shared.key.kept.value.book.graph.workers }
        requires parts { ArePartsFrom 0 self.now.table.shared.key.kept.value.book parts.items }
        requires empty { passes.items ≡ [] }
        requires room { length parts.items ≤ vec_capacity passes }
        ensures passes { map (λ p. p.sight) result.items
            ≡ sights_from 0 self.now.table.shared.key.kept.value.book.graph.workers self.now.table.shared.key.kept.value.book }
        ensures ids { All (λ p. p.service
            ≡ record { table = self.now.table.shared.table_id; ledger = self.now.table.shared.key.kept.value.ledger }) result.items }
    {
        for part in parts {
            let worker = WorkerId(passes.len() as u32);
            let own = self.table.shared.split_seat::<OneWorker>(&mut seat);
            passes.push_reserved(Pass {
                worker,
                notes: Notes {
                    part,
                    reach: again(told),
                },
                stopped: false,
                stopped_by: None,
                behind: Then::Leaves,
                badge: own.into_badge(),
            });
        }
        passes
    }

    // Joins the seats of all passes.
    fn join(&self, passes: Vec<Pass>) -> Seat<Kept<K>, SeatView>
        requires { All (λ p. p.service.table ≡ self.now.table.shared.table_id) passes.items }
        ensures id { result.table_id ≡ self.now.table.shared.table_id }
        ensures view { result.me ≡ (all_of result.me.0.ledger (map (λ p. p.sight) passes.items), []) }
    {
        let (_, mut seat) = self.table.shared.load_new_seat::<Sit>(0);
        for pass in passes {
            self.table
                .shared
                .join_seat::<OneWorker>(&mut seat, pass.badge.into_seat());
        }
        seat
    }

    /// Takes the book out for good: with the passes of all workers, in order. It leaves what `Coordination::finish` does.
    pub fn close(self, passes: Vec<Pass>) -> Box<Book>
        requires service { All (λ p. p.service.table ≡ self.table.shared.table_id) passes.items }
        requires all { map (λ p. p.sight.worker.0) passes.items ≡ workers_from 0 self.table.shared.key.kept.value.book.graph.workers }
        ensures closed { IsClosedBy passes.items self.table.shared.key.kept.value.book.graph result.value }
        ensures keeps { K.keeps result.value }
    {
        let seat = self.join(passes);
        let Slot { table } = self;
        let mut closed = table.close_with(seat);
        let Kept { keeper } = closed.take(0);
        closed.free();
        keeper.into_book()
    }

    /// Takes the book out of a service that others may share yet, for good: with the passes of all workers, in order. There is one
    /// worker at least. It leaves what `close` does; the book's graph is the one that each pass has seen.
    ///
    /// The spare keeper lies in the slot instead, and the slot says ever after that the book is out: who would ask for it gets no
    /// answer, but nobody has a pass any more.
    pub fn take_away(&self, passes: Vec<Pass>, spare: K) -> Box<Book>
        requires service { All (λ p. p.service.table ≡ self.now.table.shared.table_id) passes.items }
        requires some { 0 < length passes.items }
        requires all { map (λ p. p.sight.worker.0) passes.items
            ≡ workers_from 0 self.now.table.shared.key.kept.value.book.graph.workers }
        ensures workers { result.value.graph.workers ≡ self.now.table.shared.key.kept.value.book.graph.workers }
        ensures closed { IsClosedBy passes.items result.value.graph result.value }
        ensures keeps { K.keeps result.value }
    {
        let mut seat = self.join(passes);
        self.table.shared.swap::<TakeForGood>(&mut seat, 0, 1);
        let Kept { keeper } = self
            .table
            .shared
            .exchange(&mut seat, 0, Kept { keeper: spare });
        keeper.into_book()
    }
}

// A row of one slot, with this in it.
fn row_of<K: Keeper>(alloc: Global, kept: Kept<K>) -> Result<Vec<Kept<K>>, AllocError>
    ensures { IfOk result (λ row. row.items ≡ kept ∷ []) }
{
    let mut row = Vec::with_capacity(alloc, 1)?;
    row.push_reserved(kept);
    Ok(row)
}

// The same again.
fn again(told: &Option<Reach>) -> Option<Reach>
    ensures { result ≡ told.now }
{
    match told {
        Some(reach) => Some(reach.again()),
        None => None,
    }
}
