//! What lies in the slot of a service: its book, with or without a stage that shows it to views.
ghost use Rattle.std.specs.Prelude.{◌≡◌, ◌<◌, ◌≤◌, List, None, Ok, OnErr, Option, false, length, true};
ghost use Rattle.logbook.specs.Pages.{Book as Ledger};
ghost use Rattle.resource_lock.specs.declared.changes.Change.{Change};
ghost use Rattle.lock_journal.specs.BookView.{BookView};
ghost use Rattle.lock_journal.specs.LastChanges.{last_changes};
ghost use Rattle.lock_journal.specs.Giving.{CanGive, GivesTo};
ghost use Rattle.lock_journal.specs.Ran.{FailsIn, FinishesIn, IsToRetry};
ghost use Rattle.history_views.specs.ShownBooks.{IsUnchanged};
ghost use Rattle.history_views.specs.ShownBooks.{IsTold};

use crate::boxed_books::BoxedBook;
use history_views::{Reach, ShownBook};
use lock_journal::{Book, Segment};
use lock_transforms::{Disposition, Transform};
use resource_lock::{LockId, WorkerId};
use std::alloc::AllocError;
use std::marker::Model;
use std::sync::Wait;

/// What keeps the book of a service in its slot, and shows its history to views or doesn't.
pub trait Keeper: Drop {
    /// The book.
    ghost book_of: { Self → BookView };

    /// The ledger that shows its history, if one does.
    ghost ledger_of: { Self → Option Ledger };

    /// What holds of each book that it keeps.
    ghost keeps: { BookView → Type 0 };

    /// The book.
    fn book(&self) -> &Book
        ensures { result.now ≡ book_of self.now };

    /// Writes down how far the history of the book has come, where it is shown. Where it isn't, nothing was ever written, and
    /// nothing is now.
    fn tell(&self, reach: &mut Option<Reach>)
        requires { ledger_of self.now ≡ None → reach.old ≡ None }
        ensures { IsTold (ledger_of self.now) reach.new (book_of self.now) };

    /// The book alone.
    fn into_book(self) -> Box<Book>
        ensures value { result.value ≡ book_of self }
        ensures keeps { keeps result.value };
}

/// What keeps a book that transforms are run on, with no more to be done behind them.
pub trait Runner: Keeper {
    /// Runs a transform for a worker, whose locks `own` may name (`Book::run`), and shows its entry where it shows the history. It fails for want of memory
    /// alone: graph, state and history are then as before.
    fn run<T: Transform>(
        &mut self,
        worker: WorkerId,
        own: &[LockId],
        transform: &T,
    ) -> Result<Disposition, AllocError>
        requires { worker.0 < (Self.book_of self.old).graph.workers }
        ensures ledger { Self.ledger_of self.new ≡ Self.ledger_of self.old }
        ensures graph { (Self.book_of self.new).graph ≡ (Self.book_of self.old).graph }
        ensures given { (Self.book_of self.new).given ≡ (Self.book_of self.old).given }
        ensures within { (Self.book_of self.old).given ≤ length (Self.book_of self.old).history }
        ensures finished { result ≡ Ok Disposition.Finished
            → (changes : List Change) × FinishesIn (T.makes transform.now) (Self.book_of self.old) (Self.book_of self.new) worker
            (T.kind_of transform.now) changes }
        ensures failed { result ≡ Ok Disposition.Failed
            → FailsIn (T.fails_on transform.now) (Self.book_of self.old) (Self.book_of self.new) worker (T.kind_of transform.now) }
        ensures retry { result ≡ Ok Disposition.Retry
            → IsToRetry (T.retries_on transform.now) (Self.book_of self.old) (Self.book_of self.new) worker }
        ensures few { result ≡ Ok Disposition.Finished
            → length (last_changes (Self.book_of self.new).history) ≤ T.most transform.now (Self.book_of self.old).graph worker (Self.book_of self.old).state }
        ensures no_memory { OnErr result (IsUnchanged (Self.book_of self.old) (Self.book_of self.new)) };
}

/// What keeps a book whose entries may be given away while the service runs.
pub trait Giver: Keeper {
    /// Gives the entries away that the book keeps (`Book::give`).
    fn give(&mut self, segment: &mut Segment) -> bool
        ensures ledger { Self.ledger_of self.new ≡ Self.ledger_of self.old }
        ensures given { result ≡ true → GivesTo (Self.book_of self.old) (Self.book_of self.new) segment.old segment.new }
        ensures can { result ≡ true → CanGive (Self.book_of self.old) segment.old }
        ensures not { result ≡ false → (Self.book_of self.new ≡ Self.book_of self.old) × (segment.new ≡ segment.old) }
        ensures why { result ≡ false → CanGive (Self.book_of self.old) segment.old → ⊥ };
}

impl Keeper for BoxedBook {
    ghost book_of = { λ b. b };

    ghost ledger_of = { λ b. None };

    ghost keeps = { λ book. Unit {0} };

    fn book(&self) -> &Book {
        &self.inner
    }

    #[inline]
    fn tell(&self, _: &mut Option<Reach>) {}

    fn into_book(self) -> Box<Book> {
        self.into_box()
    }
}

impl Runner for BoxedBook {
    #[inline]
    fn run<T: Transform>(
        &mut self,
        worker: WorkerId,
        own: &[LockId],
        transform: &T,
    ) -> Result<Disposition, AllocError> {
        self.inner.run(worker, own, transform)
    }
}

impl Giver for BoxedBook {
    fn give(&mut self, segment: &mut Segment) -> bool {
        self.inner.give(segment)
    }
}

impl<R: Wait + Drop> Keeper for ShownBook<R> {
    ghost book_of = { λ s. s.book };

    ghost ledger_of = { λ s. s.ledger };

    ghost keeps = { λ book. book.given ≡ 0 };

    fn book(&self) -> &Book {
        self.book()
    }

    #[inline]
    fn tell(&self, reach: &mut Option<Reach>) {
        self.tell(reach)
    }

    fn into_book(self) -> Box<Book> {
        self.into_book()
    }
}

impl<R: Wait + Drop> Runner for ShownBook<R> {
    #[inline]
    fn run<T: Transform>(
        &mut self,
        worker: WorkerId,
        own: &[LockId],
        transform: &T,
    ) -> Result<Disposition, AllocError> {
        self.run(worker, own, transform)
    }
}

/// What lies in the slot of a service. Contracts see the book, and the ledger that shows it.
#[derive(Drop)]
pub struct Kept<K: Keeper> {
    pub keeper: K,
}

impl<K: Keeper> Model for Kept<K> {
    ghost use Rattle.coordination.specs.Kept.{KeptView};

    ghost Value = { KeptView };

    ghost view = { λ k. record { book = K.book_of k.keeper; ledger = K.ledger_of k.keeper } };
}

/// Which ledger shows a history. It is for contracts alone: no value of it is made.
pub struct LedgerName {
    pub reach: Reach,
}

// By hand, so that crates that let one go call this, in place of proving what it does anew.
impl Drop for LedgerName {
    fn drop(self) {
        let LedgerName { reach: _ } = self;
    }
}

impl Model for LedgerName {
    ghost use Rattle.logbook.specs.Pages.{Book};

    ghost Value = { Book };

    ghost view = { λ n. n.reach.ledger };
}
