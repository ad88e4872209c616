//! What a change says something of.
ghost use Rattle.std.specs.Prelude.{◌≡◌};
ghost use Rattle.run_spans.specs.Subjects.{subject_of, begins, mark_left, key_of};

use resource_lock::{Change, LockId, Mark, MarkId, WorkerId};

/// What a span tells: that it holds, over some entries.
#[derive(Clone, Copy)]
pub enum Subject {
    /// The worker has a lease.
    Lease(WorkerId),
    /// The worker is blocked.
    Blocked(WorkerId),
    /// The lock has an owner.
    Owned(LockId),
    /// The worker has parked the lock.
    Parked(WorkerId, LockId),
    /// The task, action or unit is Running.
    Running(MarkId),
}

/// The subject of a change that the worker makes. Each change has one.
pub(crate) fn subject_of(worker: WorkerId, change: &Change) -> Subject
    ensures { result ≡ subject_of worker change.now }
{
    match *change {
        Change::Lock(lock) | Change::Unlock(lock) => Subject::Owned(lock),
        Change::Take | Change::Give => Subject::Lease(worker),
        Change::Move(id, _, _) => Subject::Running(id),
        Change::Park(lock) | Change::Unpark(lock) => Subject::Parked(worker, lock),
        Change::Enter | Change::Leave => Subject::Blocked(worker),
    }
}

/// Whether its subject holds after a change.
pub(crate) fn begins(change: &Change) -> bool
    ensures { result ≡ begins change.now }
{
    matches!(
        *change,
        Change::Lock(_)
            | Change::Take
            | Change::Park(_)
            | Change::Enter
            | Change::Move(_, _, Mark::Running(_))
    )
}

/// The mark that a change leaves. One that moves no mark leaves Waiting.
pub(crate) fn mark_left(change: &Change) -> Mark
    ensures { result ≡ mark_left change.now }
{
    match *change {
        Change::Move(_, _, to) => to,
        _ => Mark::Waiting,
    }
}

// One for the kind of a subject, in the subject's number.
const KIND: u128 = 1 << 64;

// One for the worker of a subject, in the subject's number.
const WORKER: u128 = 1 << 32;

impl Subject {
    /// A number of its own for each subject.
    pub(crate) fn key(self) -> u128
        ensures { result ≡ key_of self }
    {
        match self {
            Subject::Lease(worker) => u128::from(worker.0),
            Subject::Blocked(worker) => KIND + u128::from(worker.0),
            Subject::Owned(lock) => 2 * KIND + u128::from(lock.0),
            Subject::Parked(worker, lock) => {
                3 * KIND + u128::from(worker.0) * WORKER + u128::from(lock.0)
            }
            Subject::Running(MarkId::Task(task)) => 4 * KIND + u128::from(task),
            Subject::Running(MarkId::Action(action)) => 5 * KIND + u128::from(action),
            Subject::Running(MarkId::Unit(unit)) => 6 * KIND + u128::from(unit),
        }
    }
}
