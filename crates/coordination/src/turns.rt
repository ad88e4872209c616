//! Turns: what a worker does with the book in one hold of the state lock.
ghost use Rattle.std.specs.Prelude.{◌≡◌, ◌≢◌, None};
ghost use Rattle.resource_lock.specs.declared.ids.WorkerId.{WorkerId};
ghost use Rattle.lock_journal.specs.BookView.{BookView};
ghost use Rattle.history_views.specs.ShownBooks.{IsTold};
ghost use Rattle.worker_notes.specs.Parts.{IsPartHere};
ghost use Rattle.coordination.specs.Decisions.{DecideGives, HadStep};
ghost use Rattle.worker_notes.specs.Offered.{AreTold, AsTold, Telling, WaitsAsTold};
ghost use Rattle.coordination.specs.RunThenDecide.{FollowGives, followed_of};
ghost use Rattle.worker_notes.specs.SleepAndWake.{EndsTurn, IsAwake};
ghost use Rattle.coordination.specs.Turns.{AskGives, HasLeft, RunGives, came_of};

use crate::decisions::{Decided, Decision, Followed};
use crate::guarded::{Caller, Guarded};
use crate::keepers::Runner;
use crate::passes::Notes;
use crate::questions::Question;
use lock_transforms::{Disposition, Transform};
use std::alloc::AllocError;
use worker_notes::{Offers, Wakes};

/// What came of a turn.
#[derive(Drop)]
pub enum Came<A> {
    /// It came to this.
    Done(A),
    /// There wasn't enough memory for it, and the book is as it was found.
    NoMemory,
    /// It is to be had again once what it waits for has come, and the book is as it was found.
    Again,
}

/// Where a worker sleeps until its turn is to be had again.
#[derive(Clone, Copy)]
pub enum Awaits {
    /// Where transforms do: until an entry comes that can let another worker go on.
    LettingEntry,
    /// Where questions do that wait for any entry.
    AnyEntry,
    /// Apart from all others: until what its question waits for has come.
    OwnNews,
}

/// What a worker does in one hold of the state lock: perhaps a transform, then perhaps a question, then perhaps the step of its
/// answer.
pub trait Turn {
    /// What it comes to.
    type Outcome;

    /// What an outcome says of the book that the worker found, and of the one that it leaves, by what offers tell.
    ghost gives: { Self → Telling → WorkerId → BookView → BookView → Self.Outcome → Type 0 };

    /// Where it may have to be had again.
    ghost waits_on: { Self → Telling → WorkerId → BookView → Type 0 };

    /// Where it may want memory.
    ghost runs: { Self → Telling → WorkerId → BookView → Type 0 };

    /// Where its worker sleeps until it is to be had again.
    fn awaits(&self) -> Awaits;

    /// At most how many locks more its worker owns or has parked behind it. There is room for them before the worker takes the state lock.
    fn more_locks(&self) -> usize;

    /// Has the turn in a hold of the state lock, has the worker's part follow the book, and ends the hold. It tells whom that wakes, and
    /// whom the end of what comes behind a transform. Where the turn is to be had again, a worker that sleeps then is noted as asleep.
    fn act<O: Offers, K: Runner>(
        &self,
        guarded: &mut Guarded<O, K>,
        caller: Caller,
        notes: &mut Notes,
    ) -> (Came<Self::Outcome>, Wakes, Wakes)
        requires part { IsPartHere caller.worker (K.book_of guarded.old.keeper) notes.old.part }
        requires told { K.ledger_of guarded.old.keeper ≡ None → notes.old.reach ≡ None }
        ensures ledger { K.ledger_of guarded.new.keeper ≡ K.ledger_of guarded.old.keeper }
        ensures told { IsTold (K.ledger_of guarded.new.keeper) notes.new.reach (K.book_of guarded.new.keeper) }
        ensures left { HasLeft (gives self.now (AreTold O.tells)) (waits_on self.now (AreTold O.tells)) (runs self.now (AreTold O.tells))
            caller.worker (K.book_of guarded.old.keeper) (K.book_of guarded.new.keeper) notes.new.part result.0 }
        ensures ends { EndsTurn (AreTold O.tells) caller.worker caller.behind (K.book_of guarded.old.keeper) (K.book_of guarded.new.keeper)
            guarded.old.sleepers guarded.new.sleepers result.1 result.2 }
        // Whose turn isn't to be had again isn't noted as asleep.
        ensures awake { result.0 ≢ Came.Again → IsAwake caller.worker guarded.new.sleepers };
}

/// Runs a transform. Whether it finished, or made a failed entry, is what it comes to.
#[derive(Clone, Copy)]
pub struct Run<'a, T: Transform> {
    pub transform: &'a T,
}

impl<T: Transform> Turn for Run<'_, T> {
    type Outcome = bool;

    ghost gives = { λ t tells. RunGives (T.kind_of t.transform.now) (T.makes t.transform.now) (T.fails_on t.transform.now) };

    ghost waits_on = { λ t tells w book. T.retries_on t.transform.now book.graph w book.state };

    ghost runs = { λ t tells w book. Unit {0} };

    fn awaits(&self) -> Awaits {
        Awaits::LettingEntry
    }

    #[inline]
    fn more_locks(&self) -> usize {
        self.transform.more_locks()
    }

    #[inline]
    fn act<O: Offers, K: Runner>(
        &self,
        guarded: &mut Guarded<O, K>,
        caller: Caller,
        notes: &mut Notes,
    ) -> (Came<bool>, Wakes, Wakes) {
        let (ran, wakes) = guarded.run_held(caller, notes, self.transform);
        (came_of(ran), wakes, Wakes::NOBODY)
    }
}

/// Asks a question.
#[derive(Clone, Copy)]
pub struct Ask<'a, Q: Question> {
    pub question: &'a Q,
}

impl<Q: Question> Turn for Ask<'_, Q> {
    type Outcome = Q::Answer;

    ghost gives = { λ t tells. AskGives (AsTold tells (Q.answers t.question.now)) };

    ghost waits_on = { λ t tells. WaitsAsTold tells (Q.waits_on t.question.now) };

    ghost runs = { λ t tells w book. ⊥ };

    fn awaits(&self) -> Awaits {
        awaits_answer(self.question)
    }

    #[inline]
    fn more_locks(&self) -> usize {
        0
    }

    #[inline]
    fn act<O: Offers, K: Runner>(
        &self,
        guarded: &mut Guarded<O, K>,
        caller: Caller,
        notes: &mut Notes,
    ) -> (Came<Q::Answer>, Wakes, Wakes) {
        let (answer, wakes) = guarded.ask_held(caller, &mut notes.reach, self.question);
        match answer {
            Some(answer) => (Came::Done(answer), wakes, Wakes::NOBODY),
            None => (Came::Again, wakes, Wakes::NOBODY),
        }
    }
}

/// Asks a question, and runs the step of the answer, if it has one.
#[derive(Clone, Copy)]
pub struct Decide<'a, Q: Decision> {
    pub decision: &'a Q,
}

impl<Q: Decision> Turn for Decide<'_, Q>
where
    Q::Answer: Drop,
{
    type Outcome = Decided<Q::Answer>;

    ghost gives = { λ t tells. DecideGives (AsTold tells (Q.answers t.decision.now)) (Q.step_of t.decision.now) Q.Step.kind_of Q.Step.makes
        Q.Step.fails_on Q.Step.retries_on };

    ghost waits_on = { λ t tells. WaitsAsTold tells (Q.waits_on t.decision.now) };

    ghost runs = { λ t tells. HadStep (AsTold tells (Q.answers t.decision.now)) (Q.step_of t.decision.now) };

    fn awaits(&self) -> Awaits {
        awaits_answer(self.decision)
    }

    #[inline]
    fn more_locks(&self) -> usize {
        self.decision.more_locks()
    }

    #[inline]
    fn act<O: Offers, K: Runner>(
        &self,
        guarded: &mut Guarded<O, K>,
        caller: Caller,
        notes: &mut Notes,
    ) -> (Came<Decided<Q::Answer>>, Wakes, Wakes) {
        let (came, wakes) = guarded.decide_held(caller, notes, self.decision);
        (came, wakes, Wakes::NOBODY)
    }
}

/// Runs a transform, and where it finishes decides on the book that it left. The decision isn't waited for.
#[derive(Clone, Copy)]
pub struct RunThenDecide<'a, T: Transform, Q: Decision> {
    pub transform: &'a T,
    pub decision: &'a Q,
}

impl<T: Transform, Q: Decision> Turn for RunThenDecide<'_, T, Q>
where
    Q::Answer: Drop,
{
    type Outcome = Followed<Q::Answer>;

    ghost gives = { λ t tells. FollowGives (AsTold tells (Q.answers t.decision.now)) (WaitsAsTold tells (Q.waits_on t.decision.now))
        (Q.step_of t.decision.now) Q.Step.kind_of Q.Step.makes Q.Step.fails_on Q.Step.retries_on (T.kind_of t.transform.now)
        (T.makes t.transform.now) (T.fails_on t.transform.now) };

    ghost waits_on = { λ t tells w book. T.retries_on t.transform.now book.graph w book.state };

    ghost runs = { λ t tells w book. Unit {0} };

    fn awaits(&self) -> Awaits {
        Awaits::LettingEntry
    }

    #[inline]
    fn more_locks(&self) -> usize {
        let by_step = self.decision.more_locks();
        self.transform.more_locks().saturating_add(by_step)
    }

    #[inline]
    fn act<O: Offers, K: Runner>(
        &self,
        guarded: &mut Guarded<O, K>,
        caller: Caller,
        notes: &mut Notes,
    ) -> (Came<Followed<Q::Answer>>, Wakes, Wakes) {
        let (ran, wakes) = guarded.run_first(caller, notes, self.transform);
        match came_of(ran) {
            Came::Done(true) => {
                let (came, later) = guarded.decide_held(
                    caller.not_sleeping(),
                    notes,
                    self.decision,
                );
                (Came::Done(followed_of(came)), wakes, later)
            }
            Came::Done(false) => (Came::Done(Followed::Failed), wakes, Wakes::NOBODY),
            Came::NoMemory => (Came::NoMemory, wakes, Wakes::NOBODY),
            Came::Again => (Came::Again, wakes, Wakes::NOBODY),
        }
    }
}

// Where a worker sleeps until its question has an answer.
#[inline]
fn awaits_answer<Q: Question>(question: &Q) -> Awaits {
    match question.awaited() {
        Some(_) => Awaits::OwnNews,
        None => Awaits::AnyEntry,
    }
}

// What came of a transform.
#[inline]
fn came_of(ran: Result<Disposition, AllocError>) -> Came<bool>
    ensures { result ≡ came_of ran }
{
    match ran {
        Ok(Disposition::Finished) => Came::Done(true),
        Ok(Disposition::Failed) => Came::Done(false),
        Ok(Disposition::Retry) => Came::Again,
        Err(_) => Came::NoMemory,
    }
}

// What a decision comes to behind a transform that finished.
#[inline]
fn followed_of<A>(came: Came<Decided<A>>) -> Followed<A>
    ensures { result ≡ followed_of came }
{
    match came {
        Came::Done(decided) => Followed::Decided(decided),
        Came::NoMemory => Followed::NoMemory,
        Came::Again => Followed::Undecided,
    }
}
