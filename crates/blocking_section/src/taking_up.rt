//! The way out of a blocking section, as a decision.
ghost use Rattle.std.specs.Prelude.{◌≡◌, Some, false, true};
ghost use Rattle.worker_choices.specs.NextSteps.{can_take_up};
ghost use Rattle.worker_choices.specs.declared.awaited.Awaited.TheVariants as awaited;

use coordination::{Decision, Question};
use lock_journal::Book;
use lock_transforms::Closed;
use lock_transforms::kinds::Unblock;
use resource_lock::WorkerId;
use worker_choices::{Awaited, can_take_up};

/// Decides to leave a blocking section (`Unblock`) where all locks that the worker has parked can be had, and a lease. It waits for
/// that, apart from all others.
#[derive(Clone, Copy)]
pub struct TakeUp {
    /// The fetch that the section was for, and what it gave.
    pub closed: Option<Closed>,
}

impl Question for TakeUp {
    type Answer = ();

    ghost answers = { λ _ queued w book answer. can_take_up w book.state ≡ true };

    ghost waits_on = { λ _ queued w book. can_take_up w book.state ≡ false };

    ghost awaits = { λ _. Some awaited.TakeUp };

    fn awaited(&self) -> Option<Awaited> {
        Some(Awaited::TakeUp)
    }

    fn ask(&self, worker: WorkerId, book: &Book, _queued: bool) -> Option<()> {
        can_take_up(book, worker).then_some(())
    }
}

impl Decision for TakeUp {
    type Step = Unblock;

    ghost step_of = { λ q _. Some (record { closed = q.closed }) };

    ghost more_locks = { λ _. 0 };

    #[inline]
    fn more_locks(&self) -> usize {
        0
    }

    fn step(&self, _answer: &()) -> Option<Unblock> {
        Some(Unblock {
            closed: self.closed,
        })
    }
}
