//! What is asked of the book.
ghost use Rattle.std.specs.Prelude.{◌≡◌, None};
ghost use Rattle.resource_lock.specs.StateView.{leases_out};

use coordination::Question;
use lock_journal::Book;
use resource_lock::WorkerId;
use worker_choices::Awaited;

/// How many leases are out.
pub(crate) struct LeasesOut;

impl Question for LeasesOut {
    type Answer = u32;

    ghost answers = { λ _ queued w book n. n ≡ leases_out book.state };

    ghost waits_on = { λ _ queued w book. ⊥ };

    ghost awaits = { λ _. None };

    fn awaited(&self) -> Option<Awaited> {
        None
    }

    fn ask(&self, _worker: WorkerId, book: &Book, _queued: bool) -> Option<u32> {
        Some(book.state().leases_out())
    }
}
