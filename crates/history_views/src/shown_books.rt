//! A book whose history can be seen without its lock.
ghost use Rattle.std.specs.Prelude.{◌≡◌, ◌<◌, ◌≤◌, ◌-◌, IfOk, IfSome, IsNone, IsSome, None, OnErr, List, Ok, Some, length, take, true, false};
ghost use Rattle.resource_lock.specs.declared.changes.Change.{Change};
ghost use Rattle.lock_transforms.specs.Entry.{prefix_state};
ghost use Rattle.lock_journal.specs.LastChanges.{last_changes};
ghost use Rattle.lock_journal.specs.Ran.{FinishesIn, FailsIn, IsToRetry};
ghost use Rattle.history_views.specs.Growing.{IsLater, last_book};
ghost use Rattle.history_views.specs.ShownBooks.{IsOnStage, IsTaken, IsTold, IsUnchanged, SameHistory, ledger_at};

use crate::reaches::Reach;
use crate::stages::Stage;
use crate::views::View;
use lock_journal::Book;
use lock_transforms::{Disposition, Transform};
use resource_lock::{LockId, WorkerId};
use std::alloc::{AllocError, Global};
use std::marker::Model;
use std::sync::Wait;

/// A book with the stage that shows its history, or without one. It keeps all entries. Contracts see the book, and which ledger has its
/// history, where it is shown.
#[derive(Drop)]
pub struct ShownBook<R: Wait + Drop> {
    book: Box<Book>,
    stage: Option<Stage<R>>,
}

impl<R: Wait + Drop> Model for ShownBook<R> {
    ghost use Rattle.std.specs.Prelude.{◌≡◌};
    ghost use Rattle.history_views.specs.ShownBooks.{IsOnStage, ShownView, ledger_at};

    ghost Value = { ShownView };

    ghost view = { λ s. record { book = s.book.value; ledger = ledger_at s.stage } };

    ghost invariant = { λ s. IsOnStage s.stage s.book.value × (s.book.value.given ≡ 0) };
}

impl<R: Wait + Drop> ShownBook<R> {
    /// The book, with room for so many views. It fails for want of memory alone. Without views there is no stage: nothing is
    /// shown, and a transform costs what it costs in a book.
    pub fn open(
        alloc: Global,
        rt: R,
        book: Box<Book>,
        views: u32,
    ) -> Result<ShownBook<R>, AllocError>
        requires { book.value.given ≡ 0 }
        ensures book { IfOk result (λ s. s.book ≡ book.value) }
        ensures shown { IfOk result (λ s. 0 < views → IsSome s.ledger) }
        ensures plain { IfOk result (λ s. views ≡ 0 → IsNone s.ledger) }
    {
        if views == 0 {
            return Ok(ShownBook { book, stage: None });
        }
        let stage = Stage::open(alloc, rt, &book, views)?;
        Ok(ShownBook {
            book,
            stage: Some(stage),
        })
    }

    /// The book.
    pub fn book(&self) -> &Book
        ensures value { result.now ≡ self.now.book }
        ensures whole { result.now.given ≡ 0 }
    {
        &self.book
    }

    /// How far the history of the book has come, where it is shown.
    #[inline]
    pub fn reach(&self) -> Option<Reach>
        ensures { IsTold self.now.ledger result self.now.book }
    {
        match &self.stage {
            None => None,
            Some(stage) => Some(stage.reach().again()),
        }
    }

    /// Writes down how far the history of the book has come, where it is shown. Where it isn't, nothing was ever written, and
    /// nothing is now.
    #[inline]
    pub fn tell(&self, reach: &mut Option<Reach>)
        requires { self.now.ledger ≡ None → reach.old ≡ None }
        ensures { IsTold self.now.ledger reach.new self.now.book }
    {
        if let Some(stage) = &self.stage {
            *reach = Some(stage.reach().again());
        }
    }

    /// A view, which has seen the history so far. There is one for each that it has room for.
    pub fn view(&mut self) -> Result<View, AllocError>
        requires { IsSome self.old.ledger }
        ensures same { self.new ≡ self.old }
        ensures ledger { IfOk result (λ v. self.old.ledger ≡ Some v.ledger) }
        ensures seen { IfOk result (λ v. SameHistory (last_book v.log) self.old.book) }
    {
        let Some(stage) = &mut self.stage else {
            unreachable!()
        };
        stage.view()
    }

    /// Runs a transform for a worker (`Book::run`), and shows its entry. Where there is no memory to show it, the entry is taken
    /// back: graph, state and history are then as before.
    #[inline]
    pub fn run<T: Transform>(
        &mut self,
        worker: WorkerId,
        own: &[LockId],
        transform: &T,
    ) -> Result<Disposition, AllocError>
        requires { worker.0 < self.old.book.graph.workers }
        ensures ledger { self.new.ledger ≡ self.old.ledger }
        ensures graph { self.new.book.graph ≡ self.old.book.graph }
        ensures given { self.new.book.given ≡ self.old.book.given }
        ensures within { self.old.book.given ≤ length self.old.book.history }
        ensures finished { result ≡ Ok Disposition.Finished
            → (changes : List Change) × FinishesIn (T.makes transform.now) self.old.book self.new.book worker (T.kind_of transform.now) changes }
        ensures few { result ≡ Ok Disposition.Finished
            → length (last_changes self.new.book.history) ≤ T.most transform.now self.old.book.graph worker self.old.book.state }
        ensures failed { result ≡ Ok Disposition.Failed
            → FailsIn (T.fails_on transform.now) self.old.book self.new.book worker (T.kind_of transform.now) }
        ensures retry { result ≡ Ok Disposition.Retry
            → IsToRetry (T.retries_on transform.now) self.old.book self.new.book worker }
        ensures no_memory { OnErr result (IsUnchanged self.old.book self.new.book) }
    {
        // Of the state, that the history before the transform is lawful.
        let _ = self.book.state();
        let ran = self.book.run(worker, own, transform)?;
        match ran {
            Disposition::Finished | Disposition::Failed => {
                if !show_last(&mut self.book, &mut self.stage) {
                    return Err(AllocError);
                }
            }
            Disposition::Retry => {}
        }
        Ok(ran)
    }

    /// The book alone. Its views see nothing more of it.
    pub fn into_book(self) -> Box<Book>
        ensures value { result.value ≡ self.book }
        ensures whole { result.value.given ≡ 0 }
    {
        let ShownBook { book, stage: _ } = self;
        book
    }
}

// Shows the last entry of the book where there is a stage, or takes it back.
#[inline(always)]
fn show_last<R: Wait + Drop>(book: &mut Book, stage: &mut Option<Stage<R>>) -> bool
    requires some { book.old.given < length book.old.history }
    requires later { IfSome stage.old (λ s. IsLater (last_book s.log) book.old) }
    ensures ledger { ledger_at stage.new ≡ ledger_at stage.old }
    ensures book { result ≡ true → book.new ≡ book.old }
    ensures shown { result ≡ true → IsOnStage stage.new book.new }
    ensures given { book.new.given ≡ book.old.given }
    ensures taken { result ≡ false → IsTaken book.old book.new }
    ensures stage { result ≡ false → stage.new ≡ stage.old }
{
    match stage {
        None => true,
        Some(stage) => show_on(book, stage),
    }
}

// Shows the last entry of the book on the stage, or takes it back. It stands apart, so that who shows nothing passes it by.
#[inline(never)]
fn show_on<R: Wait + Drop>(book: &mut Book, stage: &mut Stage<R>) -> bool
    requires some { book.old.given < length book.old.history }
    requires later { IsLater (last_book stage.old.log) book.old }
    ensures ledger { stage.new.ledger ≡ stage.old.ledger }
    ensures book { result ≡ true → book.new ≡ book.old }
    ensures shown { result ≡ true → SameHistory (last_book stage.new.log) book.new }
    ensures given { book.new.given ≡ book.old.given }
    ensures taken { result ≡ false → IsTaken book.old book.new }
    ensures stage { result ≡ false → stage.new ≡ stage.old }
{
    if stage.show(book) {
        return true;
    }
    book.take_back();
    false
}
