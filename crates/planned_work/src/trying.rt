//! One try of a decision or of a transform, by a worker of a plan.
ghost use Rattle.std.specs.Prelude.{◌≡◌, ◌≢◌, false};
ghost use Rattle.planned_work.specs.Rings.{WakesBy};
ghost use Rattle.coordination.specs.declared.turns.Came.{Came};
ghost use Rattle.planned_work.specs.Trying.{DecisionLeaves, FollowLeaves, NeverFailed, NeverHappens, RunLeaves};
ghost use Rattle.planned_work.specs.Trying.{behind_of, had_hold, had_hold_behind, had_hold_run, ran_of, tried_of};

use crate::rings::Rings;
use coordination::{
    Came, Decide, Decided, Decision, Followed, Pass, Planned, Run, RunThenDecide, Slot,
};
use lock_transforms::Transform;

/// What a decision came to that was tried once.
#[derive(Drop)]
pub enum Tried<A> {
    /// It was decided.
    Decided(Decided<A>),
    /// It has no answer yet.
    Unanswered,
    /// There was no memory for the step of an answer.
    NoMemory,
    /// Another worker was inside.
    Again,
}

/// What a transform that never fails came to, with the decision behind it.
#[derive(Drop)]
pub enum Behind<A> {
    /// It finished, and this was decided on the book that it left.
    Decided(Decided<A>),
    /// It finished, and there is no answer yet, or there was no memory for the step of one.
    Alone,
    /// There wasn't enough memory for it.
    NoMemory,
    /// It asks to be run again.
    Retry,
    /// Another worker was inside.
    Again,
}

/// What a transform that never fails came to.
#[derive(Clone, Copy, PartialEq, Eq)]
pub enum Ran {
    /// It finished.
    Finished,
    /// There wasn't enough memory for it.
    NoMemory,
    /// It asks to be run again.
    Retry,
    /// Another worker was inside.
    Again,
}

/// Decides once.
pub(crate) fn try_decision<Q: Decision>(
    service: &Slot<Planned>,
    pass: &mut Pass,
    sleeps: bool,
    decision: &Q,
) -> (Tried<Q::Answer>, Rings)
where
    Q::Answer: Drop,
    requires { pass.old.service.table ≡ service.now.table.shared.table_id }
    ensures service { pass.new.service ≡ pass.old.service }
    ensures graph { pass.new.sight.seen.graph ≡ pass.old.sight.seen.graph }
    ensures left { DecisionLeaves (Q.answers decision.now) (Q.waits_on decision.now) (Q.step_of decision.now) Q.Step.kind_of Q.Step.makes
        Q.Step.fails_on Q.Step.retries_on pass.old.sight pass.new.sight result.0 }
    ensures wakes { WakesBy (had_hold result.0) pass.new.sight result.1 }
{
    match service.attempt_turn(pass, sleeps, &Decide { decision }) {
        None => (Tried::Again, Rings::nobody()),
        Some((came, first, later)) => (tried_of(came), Rings { first, later }),
    }
}

/// Runs a transform once, and where it finishes decides on the book that it left.
pub(crate) fn try_then<T: Transform, Q: Decision>(
    service: &Slot<Planned>,
    pass: &mut Pass,
    transform: &T,
    decision: &Q,
) -> (Behind<Q::Answer>, Rings)
where
    Q::Answer: Drop,
    requires service { pass.old.service.table ≡ service.now.table.shared.table_id }
    requires never_fails { NeverHappens (T.fails_on transform.now) }
    ensures service { pass.new.service ≡ pass.old.service }
    ensures graph { pass.new.sight.seen.graph ≡ pass.old.sight.seen.graph }
    ensures left { FollowLeaves (Q.answers decision.now) (Q.waits_on decision.now) (Q.step_of decision.now) Q.Step.kind_of Q.Step.makes
        Q.Step.fails_on Q.Step.retries_on (T.kind_of transform.now) (T.makes transform.now) (T.retries_on transform.now) pass.old.sight
        pass.new.sight result.0 }
    ensures wakes { WakesBy (had_hold_behind result.0) pass.new.sight result.1 }
{
    let turn = RunThenDecide {
        transform,
        decision,
    };
    match service.attempt_turn(pass, false, &turn) {
        None => (Behind::Again, Rings::nobody()),
        Some((came, first, later)) => (behind_of(came), Rings { first, later }),
    }
}

/// Runs a transform once.
pub(crate) fn try_run<T: Transform>(
    service: &Slot<Planned>,
    pass: &mut Pass,
    transform: &T,
) -> (Ran, Rings)
    requires service { pass.old.service.table ≡ service.now.table.shared.table_id }
    requires never_fails { NeverHappens (T.fails_on transform.now) }
    ensures service { pass.new.service ≡ pass.old.service }
    ensures graph { pass.new.sight.seen.graph ≡ pass.old.sight.seen.graph }
    ensures left { RunLeaves (T.kind_of transform.now) (T.makes transform.now) (T.retries_on transform.now) pass.old.sight pass.new.sight result.0 }
    ensures wakes { WakesBy (had_hold_run result.0) pass.new.sight result.1 }
{
    match service.attempt_turn(pass, false, &Run { transform }) {
        None => (Ran::Again, Rings::nobody()),
        Some((came, first, later)) => (ran_of(came), Rings { first, later }),
    }
}

// What came of a decision.
fn tried_of<A>(came: Came<Decided<A>>) -> Tried<A>
    ensures { result ≡ tried_of came }
{
    match came {
        Came::Done(decided) => Tried::Decided(decided),
        Came::NoMemory => Tried::NoMemory,
        Came::Again => Tried::Unanswered,
    }
}

// What came of a transform that never fails, with the decision behind it.
fn behind_of<A>(came: Came<Followed<A>>) -> Behind<A>
    requires { NeverFailed came }
    ensures { result ≡ behind_of came }
{
    match came {
        Came::Done(Followed::Decided(decided)) => Behind::Decided(decided),
        Came::Done(Followed::Undecided | Followed::NoMemory) => Behind::Alone,
        Came::Done(Followed::Failed) => unreachable!(),
        Came::NoMemory => Behind::NoMemory,
        Came::Again => Behind::Retry,
    }
}

// What came of a transform that never fails.
fn ran_of(came: Came<bool>) -> Ran
    requires { came ≢ Came.Done false }
    ensures { result ≡ ran_of came }
{
    match came {
        Came::Done(true) => Ran::Finished,
        Came::Done(false) => unreachable!(),
        Came::NoMemory => Ran::NoMemory,
        Came::Again => Ran::Retry,
    }
}
