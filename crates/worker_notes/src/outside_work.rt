//! Items that wait to be claimed: beside the book, or in it.
ghost use Rattle.std.specs.Prelude.{◌≡◌, Bool, false};
ghost use Rattle.lock_journal.specs.BookView.{BookView};
ghost use Rattle.ready_work.specs.Choices.{has_queued};
ghost use Rattle.worker_notes.specs.Offered.{TellsQueued, is_queued_in};

use lock_journal::Book;

/// Where the items wait that a worker may claim.
#[derive(Clone, Copy)]
pub enum Queued {
    /// Beside the book, where some wait or none, for as long as a hold goes on.
    Beside(bool),
    /// In the book, whose queued units they are. So a hold that queues or claims some leaves others than it found.
    InBook,
}

impl Queued {
    /// Whether some wait, with this book.
    #[inline]
    pub fn has_some(self, book: &Book) -> bool
        ensures { result ≡ is_queued_in self book.now }
    {
        match self {
            Queued::Beside(some) => some,
            Queued::InBook => book.has_queued(),
        }
    }
}

/// Items that wait to be claimed, such as tickets in a queue beside the book.
///
/// They are looked at under the state lock. What is told of a queue beside the book has to be exact where no worker looks: so only
/// workers that look may change it.
pub trait Offers: Drop {
    /// What they may tell when they are looked at, with a book: whether items wait.
    ghost tells: { Self → BookView → Bool → Type 0 };

    /// Where items wait at the moment of the call. It is asked at the start of a hold, for the question, which goes by the book that the
    /// hold finds, and for whom to wake, which goes by the book that it leaves.
    fn queued(&mut self) -> Queued
        ensures { TellsQueued (tells self.old) result };
}

/// A service without such items.
impl Offers for () {
    ghost tells = { λ _ _ queued. queued ≡ false };

    fn queued(&mut self) -> Queued {
        Queued::Beside(false)
    }
}

/// Items that wait in the book alone: its queued units.
#[derive(Clone, Copy, Drop)]
pub struct QueuedUnits;

impl Offers for QueuedUnits {
    ghost tells = { λ _ book queued. queued ≡ has_queued book.state };

    #[inline]
    fn queued(&mut self) -> Queued {
        Queued::InBook
    }
}
