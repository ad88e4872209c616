//! Decisions: questions whose answers are carried out in the hold of the state lock in which they are given.
ghost use Rattle.std.specs.Prelude.{◌≡◌, ◌≤◌, ℕ, IfSome, Option};

use crate::questions::Question;
use lock_transforms::Transform;

/// A question of which some answers have a step: a transform that carries the answer out, on the very book that it was
/// given of.
pub trait Decision: Question {
    /// The transform that carries out an answer.
    type Step: Transform + Drop;

    /// The step of an answer, or none.
    ghost step_of: { Self → Self.Answer → Option Self.Step };

    /// At most how many locks more its worker owns or has parked behind a step.
    ghost more_locks: { Self → ℕ };

    /// At most how many locks more its worker owns or has parked behind a step: where it starts a task or takes locks by name. Else it is 0.
    fn more_locks(&self) -> usize
        ensures { result ≡ more_locks self.now };

    /// The step of an answer, or none.
    fn step(&self, answer: &Self::Answer) -> Option<Self::Step>
        ensures step { result ≡ step_of self.now answer.now }
        ensures few_locks { IfSome result (λ step. Self.Step.more_locks step ≤ more_locks self.now) };
}

/// An answer, and what came of its step.
#[derive(Drop)]
pub enum Decided<A> {
    /// The answer has no step.
    Answered(A),
    /// The answer's step made an entry, a failed one where this is false.
    Entered(A, bool),
    /// The answer's step asks to be run again, so it is yet to be waited for (`with_state_lock`). Nothing has changed.
    Waiting(A),
}

/// What came of a transform and of the decision behind it, in one hold of the state lock.
#[derive(Drop)]
pub enum Followed<A> {
    /// The transform made a failed entry, and nothing was decided.
    Failed,
    /// The transform finished, and there is no answer yet: what the decision waits for isn't in the book that it left.
    Undecided,
    /// The transform finished, and there was no memory for the step of an answer, which changed nothing.
    NoMemory,
    /// The transform finished, and this was decided on the book that it left.
    Decided(Decided<A>),
}
