//! The service: one book for several workers, under the state lock.
ghost use Rattle.std.specs.Prelude.{◌≡◌, ◌≢◌, ◌<◌, [], All, Any, IfOk, Ok, Err, Some, ℕ, length, map, slice_index, true, false};
ghost use Rattle.resource_lock.specs.declared.ids.WorkerId.{WorkerId};
ghost use Rattle.worker_notes.specs.Agrees.{Agrees};
ghost use Rattle.resource_lock.specs.AtRest.{IsAtRest};
ghost use Rattle.coordination.specs.Holds.{HoldsNothing};
ghost use Rattle.coordination.specs.Calls.{AskedInVain, HasFailed, HasFinished, HasLooked, HasStopped, IsAnswered, WasStopped};
ghost use Rattle.coordination.specs.Decisions.{CouldNotStep, HasDecided};
ghost use Rattle.worker_notes.specs.Offered.{AreTold, AsTold, WaitsAsTold};
ghost use Rattle.coordination.specs.RunThenDecide.{HasFollowed};
ghost use Rattle.coordination.specs.Sights.{sights_from, workers_from};
ghost use Rattle.coordination.specs.Together.{ComeTo};

use crate::boxed_books::BoxedBook;
use crate::decisions::{Decided, Decision, Followed};
use crate::guarded::Guarded;
use crate::halts::Halt;
use crate::keepers::{Keeper, Runner};
use crate::openings::open_service;
use crate::passes::Pass;
use crate::questions::Question;
use crate::sleep_and_wake::Condvars;
use crate::slots::Slot;
use crate::turns::{Ask, Decide, Run, RunThenDecide};
use lock_journal::Book;
use lock_transforms::Transform;
use std::alloc::{AllocError, Global};
use std::marker::Model;
use std::sync::{Condvar, Wait};
use worker_notes::Offers;

/// One book that several workers change, one at a time, with work that waits outside the book or none.
///
/// Whoever looks at the book, or changes it, has the state lock, and so has who falls asleep.
#[derive(Drop)]
pub struct Coordination<O: Offers = (), K: Keeper = BoxedBook> {
    pub(crate) slot: Slot<Guarded<O, K>>,
    pub(crate) condvars: Condvars,
}

impl<O: Offers, K: Keeper> Model for Coordination<O, K> {
    ghost use Rattle.coordination.specs.Passes.{CoordinationView};

    ghost Value = { CoordinationView };

    ghost view = { λ c. record {
      service = record { table = c.slot.table.shared.table_id; ledger = c.slot.table.shared.key.kept.value.ledger };
      book = c.slot.table.shared.key.kept.value.book;
    } };
}

/// A service that was opened, with a pass for each worker in order.
#[derive(Drop)]
pub struct Opened<O: Offers = ()> {
    /// The service.
    pub service: Coordination<O>,
    /// The passes.
    pub passes: Vec<Pass>,
}

impl Coordination {
    /// A service without work outside the book: `open_with` of nothing.
    pub fn open(alloc: Global, book: Box<Book>) -> Result<Opened, AllocError>
        requires rest { IsAtRest book.value.state }
        requires whole { book.value.given ≡ 0 }
        ensures book { IfOk result (λ opened. opened.service.book ≡ book.value) }
        ensures passes { IfOk result (λ opened. map (λ p. p.sight) opened.passes.items ≡ sights_from 0 book.value.graph.workers book.value) }
        ensures len { IfOk result (λ opened. length opened.passes.items ≡ book.value.graph.workers) }
        ensures workers { IfOk result (λ opened. map (λ p. p.sight.worker.0) opened.passes.items ≡ workers_from 0 book.value.graph.workers) }
        ensures service { IfOk result (λ opened. All (λ p. p.service ≡ opened.service.service) opened.passes.items) }
        ensures seen { IfOk result (λ opened. All (λ p. p.sight.seen ≡ book.value) opened.passes.items) }
        ensures rest { IfOk result (λ opened. All (λ p. HoldsNothing p.sight) opened.passes.items) }
    {
        Coordination::open_with(alloc, book, ())
    }
}

impl<O: Offers> Coordination<O> {
    /// A service that keeps the book, in which nobody has anything, with a pass for each worker of
    /// its graph. Each has seen this book. Beside the book work waits that the offers tell of. It fails
    /// for want of memory alone.
    pub fn open_with(alloc: Global, book: Box<Book>, offers: O) -> Result<Opened<O>, AllocError>
        requires rest { IsAtRest book.value.state }
        requires whole { book.value.given ≡ 0 }
        ensures book { IfOk result (λ opened. opened.service.book ≡ book.value) }
        ensures passes { IfOk result (λ opened. map (λ p. p.sight) opened.passes.items ≡ sights_from 0 book.value.graph.workers book.value) }
        ensures len { IfOk result (λ opened. length opened.passes.items ≡ book.value.graph.workers) }
        ensures workers { IfOk result (λ opened. map (λ p. p.sight.worker.0) opened.passes.items ≡ workers_from 0 book.value.graph.workers) }
        ensures service { IfOk result (λ opened. All (λ p. p.service ≡ opened.service.service) opened.passes.items) }
        ensures seen { IfOk result (λ opened. All (λ p. p.sight.seen ≡ book.value) opened.passes.items) }
        ensures rest { IfOk result (λ opened. All (λ p. HoldsNothing p.sight) opened.passes.items) }
    {
        let keeper = BoxedBook { inner: book };
        let (service, passes) = open_service(alloc, keeper, offers, &None)?;
        Ok(Opened { service, passes })
    }
}

impl<O: Offers, K: Runner> Coordination<O, K> {
    /// Gets the state lock and runs the transform.
    ///
    /// True means that it finished, and false that it failed. Where it asks to be run again, the call
    /// runs it again after an entry with a change that can let another worker go on (`lets_go_on`),
    /// or answers that the service was stopped. After `NoMemory` and `Stopped` the pass is as before,
    /// but that after `Stopped` it shows by whom.
    pub fn with_state_lock<T: Transform, R: Wait>(
        &self,
        rt: &R,
        pass: &mut Pass,
        transform: &T,
    ) -> Result<bool, Halt>
        requires { pass.old.service ≡ self.now.service }
        ensures service { pass.new.service ≡ pass.old.service }
        ensures worker { pass.new.sight.worker ≡ pass.old.sight.worker }
        ensures finished { result ≡ Ok true → HasFinished (T.kind_of transform.now) (T.makes transform.now) pass.old.sight pass.new.sight }
        ensures failed { result ≡ Ok false → HasFailed (T.kind_of transform.now) (T.fails_on transform.now) pass.old.sight pass.new.sight }
        ensures no_memory { result ≡ Err Halt.NoMemory → HasLooked pass.old.sight pass.new.sight }
        ensures stopped { (by : WorkerId) → result ≡ Err (Halt.Stopped by) → WasStopped (T.retries_on transform.now) by pass.old.sight pass.new.sight }
    {
        self.take_turn(rt, pass, &Run { transform })
    }

    /// Gets the state lock and asks the question, which makes no entry and changes no state.
    ///
    /// Where it has no answer yet, the call asks again once what it waits for has come (`awaited`), or
    /// answers that the service was stopped. It never gives `NoMemory`. After `Stopped` the pass is as before,
    /// but that it shows by whom.
    pub fn ask<Q: Question, R: Wait>(
        &self,
        rt: &R,
        pass: &mut Pass,
        question: &Q,
    ) -> Result<Q::Answer, Halt>
        requires { pass.old.service ≡ self.now.service }
        ensures service { pass.new.service ≡ pass.old.service }
        ensures worker { pass.new.sight.worker ≡ pass.old.sight.worker }
        ensures answered { IfOk result (λ answer. IsAnswered (AsTold (AreTold O.tells) (Q.answers question.now)) answer pass.old.sight
            pass.new.sight) }
        ensures stopped { (by : WorkerId) → result ≡ Err (Halt.Stopped by)
            → AskedInVain (WaitsAsTold (AreTold O.tells) (Q.waits_on question.now)) by pass.old.sight pass.new.sight }
        ensures memory { result ≢ Err Halt.NoMemory }
    {
        self.take_turn(rt, pass, &Ask { question })
    }

    /// Gets the state lock and decides: it asks the question, and where the answer has a step, runs that on the book of which the
    /// answer was given, before anybody else has the lock. A step that asks to be run again isn't waited for (`Decided::Waiting`).
    ///
    /// Where there is no answer yet, the call asks again once what it waits for has come (`awaited`), or answers that the service
    /// was stopped. `NoMemory` says that the step of an answer could not be run for want of memory. After `NoMemory` and
    /// `Stopped` the pass is as before, but that after `Stopped` it shows by whom.
    pub fn decide<Q: Decision, R: Wait>(
        &self,
        rt: &R,
        pass: &mut Pass,
        decision: &Q,
    ) -> Result<Decided<Q::Answer>, Halt>
    where
        Q::Answer: Drop,
        requires { pass.old.service ≡ self.now.service }
        ensures service { pass.new.service ≡ pass.old.service }
        ensures worker { pass.new.sight.worker ≡ pass.old.sight.worker }
        ensures decided { IfOk result (HasDecided (AsTold (AreTold O.tells) (Q.answers decision.now)) (Q.step_of decision.now)
            Q.Step.kind_of Q.Step.makes Q.Step.fails_on Q.Step.retries_on pass.old.sight pass.new.sight) }
        ensures no_memory { result ≡ Err Halt.NoMemory
            → CouldNotStep (AsTold (AreTold O.tells) (Q.answers decision.now)) (Q.step_of decision.now) pass.old.sight pass.new.sight }
        ensures stopped { (by : WorkerId) → result ≡ Err (Halt.Stopped by)
            → AskedInVain (WaitsAsTold (AreTold O.tells) (Q.waits_on decision.now)) by pass.old.sight pass.new.sight }
    {
        self.take_turn(rt, pass, &Decide { decision })
    }

    /// Gets the state lock, runs the transform, and where it finishes decides on the book that it left, before anybody else has the
    /// lock: as `with_state_lock` and `decide`, with no entry of another worker between the two.
    ///
    /// The transform waits as in `with_state_lock`. The decision doesn't wait: `Undecided` says that it has no answer yet, and
    /// `Followed::NoMemory` that there was no memory for the step of its answer; `decide` can be called then. After an error the pass
    /// is as before, but that after `Stopped` it shows by whom.
    pub fn run_then_decide<T: Transform, Q: Decision, R: Wait>(
        &self,
        rt: &R,
        pass: &mut Pass,
        transform: &T,
        decision: &Q,
    ) -> Result<Followed<Q::Answer>, Halt>
    where
        Q::Answer: Drop,
        requires { pass.old.service ≡ self.now.service }
        ensures service { pass.new.service ≡ pass.old.service }
        ensures worker { pass.new.sight.worker ≡ pass.old.sight.worker }
        ensures followed { IfOk result (HasFollowed (AsTold (AreTold O.tells) (Q.answers decision.now))
            (WaitsAsTold (AreTold O.tells) (Q.waits_on decision.now)) (Q.step_of decision.now) Q.Step.kind_of Q.Step.makes Q.Step.fails_on
            Q.Step.retries_on (T.kind_of transform.now) (T.makes transform.now) (T.fails_on transform.now) pass.old.sight pass.new.sight) }
        ensures no_memory { result ≡ Err Halt.NoMemory → HasLooked pass.old.sight pass.new.sight }
        ensures stopped { (by : WorkerId) → result ≡ Err (Halt.Stopped by) → WasStopped (T.retries_on transform.now) by pass.old.sight pass.new.sight }
    {
        let turn = RunThenDecide {
            transform,
            decision,
        };
        self.take_turn(rt, pass, &turn)
    }

    /// Wakes all that wait: each transform is run again, and each question asked again.
    ///
    /// It doesn't take the state lock, so who is just about to wait may not hear of it. Entries and
    /// stops don't need it.
    pub fn notify_state_change(&self) {
        self.condvars.wake_all();
    }

    /// Stops the service with this pass, and wakes all that wait. Where it was stopped before,
    /// the pass shows by whom.
    pub fn stop_all<R: Wait>(&self, _rt: &R, pass: &mut Pass)
        requires { pass.old.service ≡ self.now.service }
        ensures service { pass.new.service ≡ pass.old.service }
        ensures worker { pass.new.sight.worker ≡ pass.old.sight.worker }
        ensures stopped { HasStopped pass.old.sight pass.new.sight }
    {
        // The mark stands before the wakes. Who is about to sleep reads it after it has read what the wakes change.
        self.slot.stop(pass);
        self.condvars.wake_all();
    }

    /// Takes the book out for good. Every pass agrees with it, and together their entries and closings
    /// are the book's. No lock stands in two passes, and no more of them have a lease than may. Whoever
    /// a pass shows as having stopped the service has a pass, which shows that too. Where every pass
    /// holds nothing, nobody in the book owns a lock, has a lease, has parked a lock, is blocked or runs
    /// anything.
    pub fn finish(self, passes: Vec<Pass>) -> Box<Book>
        requires service { All (λ p. p.service ≡ self.service) passes.items }
        requires all { map (λ p. p.sight.worker.0) passes.items ≡ workers_from 0 self.book.graph.workers }
        ensures graph { result.value.graph ≡ self.book.graph }
        ensures keeps { K.keeps result.value }
        ensures agrees { All (λ p. Agrees p.sight.worker p.sight.seen result.value) passes.items }
        ensures rest { All (λ p. HoldsNothing p.sight) passes.items → IsAtRest result.value.state }
        ensures entries { All (λ e. e.worker.0 < result.value.graph.workers) result.value.history }
        ensures together { ComeTo passes.items result.value }
        ensures stopped_by { All (λ p. (by : WorkerId) → p.sight.stopped_by ≡ Some by
            → Any (λ q. (q.sight.worker ≡ by) × (q.sight.stopped ≡ true)) passes.items) passes.items }
    {
        let Coordination { slot, condvars: _ } = self;
        slot.close(passes)
    }
}

/// The service over a slot.
pub(crate) fn service_of<O: Offers, K: Keeper>(
    slot: Slot<Guarded<O, K>>,
    own: Vec<Condvar>,
) -> Coordination<O, K>
    ensures service { result.service ≡ record { table = slot.table.shared.table_id; ledger = slot.table.shared.key.kept.value.ledger } }
    ensures book { result.book ≡ slot.table.shared.key.kept.value.book }
{
    Coordination {
        slot,
        condvars: Condvars::new(own),
    }
}
