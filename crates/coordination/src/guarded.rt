//! What the state lock guards beside the book, in the slot of the book.
ghost use Rattle.std.specs.Prelude.{◌≡◌, ◌<◌, ◌⊎◌, IfOk, None, false, replicate};
ghost use Rattle.worker_choices.specs.Stances.{asleep};
ghost use Rattle.worker_choices.specs.declared.stances.Stance.TheVariants as stance;
ghost use Rattle.history_views.specs.ShownBooks.{IsTold};
ghost use Rattle.coordination.specs.Attempts.{HasAsked, HasHeld, HasRunFirst};
ghost use Rattle.coordination.specs.Decisions.{HasDecidedHeld, awaits_if, noted_deciding};
ghost use Rattle.worker_notes.specs.Offered.{TellsQueued};
ghost use Rattle.worker_notes.specs.Parts.{IsPartHere};

use crate::decisions::{Decided, Decision};
use crate::keepers::{Giver, Keeper, Runner};
use crate::passes::Notes;
use crate::questions::Question;
use crate::slots::{ask_of, decide_on, go_on_by, run_on};
use crate::turns::Came;
use history_views::Reach;
use lock_journal::{Book, Segment};
use lock_transforms::{Disposition, Transform};
use resource_lock::WorkerId;
use std::alloc::{AllocError, Global};
use worker_choices::Awaited;
use worker_notes::{Offers, Queued, Sleepers, Then, Wakes};

/// The keeper of the book, with who sleeps and what is offered beside it. Whoever has the book out of its slot has all three.
#[derive(Drop)]
pub struct Guarded<O: Offers, K: Keeper> {
    pub(crate) keeper: K,
    pub(crate) sleepers: Sleepers,
    pub(crate) offers: O,
}

/// A worker that comes to the state lock.
#[derive(Clone, Copy)]
pub struct Caller {
    /// The worker.
    pub worker: WorkerId,
    /// What it does behind the hold.
    pub behind: Then,
    /// Whether it has slept apart, and was woken.
    pub woken: bool,
    /// Whether it sleeps apart from the questions that wait for any entry, where it has to.
    pub apart: bool,
    /// Whether it sleeps at all where there is no answer. Else it is away then.
    pub sleeps: bool,
}

impl Caller {
    /// The same worker, which doesn't sleep where there is no answer.
    #[inline]
    pub fn not_sleeping(self) -> Caller
        ensures worker { result.worker ≡ self.worker }
        ensures behind { result.behind ≡ self.behind }
        ensures sleeps { result.sleeps ≡ false }
    {
        Caller {
            woken: false,
            apart: true,
            sleeps: false,
            ..self
        }
    }
}

impl<O: Offers, K: Keeper> Keeper for Guarded<O, K> {
    ghost book_of = { λ g. K.book_of g.keeper };

    ghost ledger_of = { λ g. K.ledger_of g.keeper };

    ghost keeps = { K.keeps };

    fn book(&self) -> &Book {
        self.keeper.book()
    }

    #[inline]
    fn tell(&self, reach: &mut Option<Reach>) {
        self.keeper.tell(reach)
    }

    fn into_book(self) -> Box<Book> {
        let Guarded {
            keeper,
            sleepers: _,
            offers: _,
        } = self;
        keeper.into_book()
    }
}

impl<O: Offers, K: Giver> Giver for Guarded<O, K> {
    #[inline]
    fn give(&mut self, segment: &mut Segment) -> bool {
        self.keeper.give(segment)
    }
}

impl<O: Offers, K: Runner> Guarded<O, K> {
    /// The keeper of a book, while nobody sleeps. It fails for want of memory alone.
    pub(crate) fn new(alloc: Global, keeper: K, offers: O) -> Result<Guarded<O, K>, AllocError>
        ensures keeper { IfOk result (λ guarded. guarded.keeper ≡ keeper) }
        ensures away { IfOk result (λ guarded. guarded.sleepers.stances ≡ replicate (K.book_of keeper).graph.workers stance.Away) }
    {
        let workers = keeper.book().graph().workers();
        let sleepers = Sleepers::nobody(alloc, workers)?;
        Ok(Guarded {
            keeper,
            sleepers,
            offers,
        })
    }

    /// Runs the transform in a hold of the state lock, has the worker's part follow it, and ends the hold. Where the transform
    /// asks to be run again, a worker that sleeps then is noted as asleep.
    #[inline]
    pub(crate) fn run_held<T: Transform>(
        &mut self,
        caller: Caller,
        notes: &mut Notes,
        transform: &T,
    ) -> (Result<Disposition, AllocError>, Wakes)
        requires part { IsPartHere caller.worker (K.book_of self.old.keeper) notes.old.part }
        requires told { K.ledger_of self.old.keeper ≡ None → notes.old.reach ≡ None }
        ensures ledger { K.ledger_of self.new.keeper ≡ K.ledger_of self.old.keeper }
        ensures told { IsTold (K.ledger_of self.new.keeper) notes.new.reach (K.book_of self.new.keeper) }
        ensures held { HasHeld (T.kind_of transform.now) (T.makes transform.now) (T.fails_on transform.now)
            (T.retries_on transform.now) (O.tells self.old.offers) caller.worker caller.behind caller.sleeps (K.book_of self.old.keeper)
            (K.book_of self.new.keeper) notes.new.part self.old.sleepers self.new.sleepers result }
    {
        self.sleepers.queued = self.queued_for_sleepers();
        self.sleepers.behind = caller.behind;
        let (ran, wakes) = run_on(
            &mut self.keeper,
            caller.worker,
            notes,
            transform,
            &mut self.sleepers,
        );
        if caller.sleeps && matches!(ran, Ok(Disposition::Retry)) {
            self.sleepers.transforms = true;
        }
        (ran, wakes)
    }

    /// The same where the hold goes on behind a transform that finishes. Where it doesn't, the end doesn't count on the worker.
    #[inline]
    pub(crate) fn run_first<T: Transform>(
        &mut self,
        caller: Caller,
        notes: &mut Notes,
        transform: &T,
    ) -> (Result<Disposition, AllocError>, Wakes)
        requires part { IsPartHere caller.worker (K.book_of self.old.keeper) notes.old.part }
        requires told { K.ledger_of self.old.keeper ≡ None → notes.old.reach ≡ None }
        ensures ledger { K.ledger_of self.new.keeper ≡ K.ledger_of self.old.keeper }
        ensures told { IsTold (K.ledger_of self.new.keeper) notes.new.reach (K.book_of self.new.keeper) }
        ensures held { HasRunFirst (T.kind_of transform.now) (T.makes transform.now) (T.fails_on transform.now)
            (T.retries_on transform.now) (O.tells self.old.offers) caller.worker caller.sleeps (K.book_of self.old.keeper)
            (K.book_of self.new.keeper) notes.new.part self.old.sleepers self.new.sleepers result }
    {
        self.sleepers.queued = self.queued_for_sleepers();
        self.sleepers.behind = Then::Leaves;
        let (ran, wakes) = go_on_by(
            &mut self.keeper,
            caller.worker,
            notes,
            transform,
            &mut self.sleepers,
        );
        if caller.sleeps && matches!(ran, Ok(Disposition::Retry)) {
            self.sleepers.transforms = true;
        }
        (ran, wakes)
    }

    // Where items wait, as those have to know that sleep. Where nobody does, the offers aren't looked at.
    #[inline]
    fn queued_for_sleepers(&mut self) -> Queued
        ensures keeper { self.new.keeper ≡ self.old.keeper }
        ensures sleepers { self.new.sleepers ≡ self.old.sleepers }
        ensures told { (asleep self.old.sleepers.stances ≡ 0) ⊎ TellsQueued (O.tells self.old.offers) result }
    {
        if self.sleepers.stances.some_sleep() {
            return self.offers.queued();
        }
        self.sleepers.queued
    }

    /// Asks the question in a hold of the state lock, and ends the hold. Where it has no answer a worker that sleeps then is noted as
    /// asleep.
    #[inline]
    pub(crate) fn ask_held<Q: Question>(
        &mut self,
        caller: Caller,
        reach: &mut Option<Reach>,
        question: &Q,
    ) -> (Option<Q::Answer>, Wakes)
        requires known { caller.worker.0 < (K.book_of self.old.keeper).graph.workers }
        requires told { K.ledger_of self.old.keeper ≡ None → reach.old ≡ None }
        ensures same { self.new.keeper ≡ self.old.keeper }
        ensures told { IsTold (K.ledger_of self.new.keeper) reach.new (K.book_of self.new.keeper) }
        ensures asked { HasAsked (Q.answers question.now) (Q.waits_on question.now) (awaits_if caller.sleeps (Q.awaits question.now))
            (O.tells self.old.offers) caller.worker caller.behind caller.woken caller.apart
            (K.book_of self.old.keeper) self.old.sleepers self.new.sleepers result }
    {
        let queued = self.offers.queued();
        self.sleepers
            .begin_asking(caller.worker, caller.woken, caller.behind, queued);
        let awaited = awaited_if(caller.sleeps, question);
        let (answer, wakes) = ask_of(
            &self.keeper,
            caller.worker,
            reach,
            question,
            awaited,
            &mut self.sleepers,
        );
        if answer.is_none() && !caller.apart {
            self.sleepers.questions = true;
        }
        (answer, wakes)
    }

    /// Decides in a hold of the state lock, has the worker's part follow the book, and ends the hold once. Where there is no answer
    /// a worker that sleeps then is noted as asleep.
    #[inline]
    pub(crate) fn decide_held<Q: Decision>(
        &mut self,
        caller: Caller,
        notes: &mut Notes,
        decision: &Q,
    ) -> (Came<Decided<Q::Answer>>, Wakes)
    where
        Q::Answer: Drop,
        requires part { IsPartHere caller.worker (K.book_of self.old.keeper) notes.old.part }
        requires told { K.ledger_of self.old.keeper ≡ None → notes.old.reach ≡ None }
        ensures ledger { K.ledger_of self.new.keeper ≡ K.ledger_of self.old.keeper }
        ensures told { IsTold (K.ledger_of self.new.keeper) notes.new.reach (K.book_of self.new.keeper) }
        ensures held { HasDecidedHeld (Q.answers decision.now) (Q.waits_on decision.now)
            (awaits_if caller.sleeps (Q.awaits decision.now)) (Q.step_of decision.now)
            Q.Step.kind_of Q.Step.makes Q.Step.fails_on Q.Step.retries_on (O.tells self.old.offers) caller.worker caller.behind caller.woken
            caller.apart (K.book_of self.old.keeper) (K.book_of self.new.keeper) notes.new.part self.old.sleepers self.new.sleepers result }
    {
        let queued = self.offers.queued();
        self.sleepers
            .begin_asking(caller.worker, caller.woken, caller.behind, queued);
        let awaited = awaited_if(caller.sleeps, decision);
        let (came, wakes) = decide_on(
            &mut self.keeper,
            caller.worker,
            notes,
            decision,
            awaited,
            &mut self.sleepers,
        );
        note_decision(&mut self.sleepers, caller.apart, &came);
        (came, wakes)
    }
}

// What a worker sleeps until that has no answer yet, where it sleeps then.
fn awaited_if<Q: Question>(sleeps: bool, question: &Q) -> Option<Awaited>
    ensures { result ≡ awaits_if sleeps (Q.awaits question.now) }
{
    if sleeps { question.awaited() } else { None }
}

// Notes that a decision sleeps, where it is to be made again. Where it doesn't sleep apart, any entry wakes it.
#[inline]
fn note_decision<C>(sleepers: &mut Sleepers, apart: bool, came: &Came<C>)
    ensures { sleepers.new ≡ noted_deciding apart came.now sleepers.old }
{
    if matches!(came, Came::Again) && !apart {
        sleepers.questions = true;
    }
}
