//! The rule that the table of a slot keeps, over all interleavings.
ghost use Rattle.coordination.specs.Sights.{nobody, starting};
ghost use Rattle.coordination.specs.Rule.{Orderly, taken, taken_for_good, put_back, stopped_at, heard, first_sight, other_sights, both_sights};

use crate::keepers::{Keeper, Kept, LedgerName};
use atomic_table::{Join, Play, Split, TableRule};
use lock_journal::Book;
use resource_lock::WorkerId;
use std::collections::LinkedList;
use std::snapshot::Snapshot;

/// What one worker has seen. It is for contracts alone: no value of it is made.
pub struct Sight {
    /// The worker.
    pub worker: WorkerId,
    /// The book as the worker's last call let go of it.
    pub seen: Book,
    /// Whether the worker has stopped the service.
    pub stopped: bool,
    /// Who has stopped the service, once the worker heard of it.
    pub stopped_by: Option<WorkerId>,
}

// By hand, so that crates that let one go call this, in place of proving what it does anew.
impl Drop for Sight {
    fn drop(self) {
        let Sight {
            worker: _,
            seen: _,
            stopped: _,
            stopped_by: _,
        } = self;
    }
}

/// What a seat shows: the sights of its workers, and the book while it holds that. It is for
/// contracts alone: no value of it is made.
pub struct SeatView {
    /// The sights.
    pub sights: LinkedList<Sight>,
    /// The book that was taken out.
    pub out: Option<Book>,
    /// The ledger that shows the history of the book, if one does.
    pub ledger: Option<LedgerName>,
}

// By hand, so that crates that let one go call this, in place of proving what it does anew.
impl Drop for SeatView {
    fn drop(self) {
        let SeatView {
            sights: _,
            out: _,
            ledger: _,
        } = self;
    }
}

/// What a service is opened with.
#[derive(Drop)]
pub struct OpenedWith<K: Keeper> {
    pub kept: Snapshot<Kept<K>>,
}

/// The rule of the table.
pub struct Order;

impl<K: Keeper> TableRule<Kept<K>, SeatView, OpenedWith<K>> for Order {
    ghost holds = { λ key. Orderly key.kept.value.book.graph };

    ghost first = { λ key. starting key.kept.value };
}

/// Takes the book out of its slot, or finds the slot empty.
pub struct Take;

impl<K: Keeper> Play<Kept<K>, SeatView> for Take {
    ghost then = { taken };
}

/// Takes the book out of its slot for good: the seat has the sights of all workers.
pub struct TakeForGood;

impl<K: Keeper> Play<Kept<K>, SeatView> for TakeForGood {
    ghost then = { taken_for_good };
}

/// Puts the book back.
pub struct PutBack;

impl<K: Keeper> Play<Kept<K>, SeatView> for PutBack {
    ghost then = { put_back };
}

/// Marks the service as stopped, or finds it marked.
pub struct Stop;

impl<K: Keeper> Play<Kept<K>, SeatView> for Stop {
    ghost then = { stopped_at };
}

/// Reads the stop mark.
pub struct Hear;

impl<K: Keeper> Play<Kept<K>, SeatView> for Hear {
    ghost then = { heard };
}

/// Makes a seat without a worker.
pub struct Sit;

impl<K: Keeper> Play<Kept<K>, SeatView> for Sit {
    ghost use Rattle.std.specs.Prelude.{◌≡◌, []};

    ghost then = { λ st m r n. n ≡ (nobody, []) };
}

/// Cuts one worker off a seat, and joins the workers of two seats.
pub struct OneWorker;

impl Split<SeatView> for OneWorker {
    ghost left = { other_sights };

    ghost right = { first_sight };
}

impl Join<SeatView> for OneWorker {
    ghost both = { both_sights };

    ghost spent = { nobody };
}
