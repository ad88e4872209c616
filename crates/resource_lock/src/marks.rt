//! How far tasks, actions and units have come.
use crate::ids::WorkerId;

/// What has a mark: a task, an action or a unit, by its number from 0.
#[derive(Clone, Copy, PartialEq, Eq)]
pub enum MarkId {
    Task(u32),
    Action(u32),
    Unit(u32),
}

/// How far a task, an action or a unit has come.
#[derive(Clone, Copy, PartialEq, Eq)]
pub enum Mark {
    /// Not begun.
    Waiting,
    /// Of a unit, ready to be claimed; of an action, its items are.
    Queued,
    /// Under way by the worker; of an action, that worker waits for its items.
    Running(WorkerId),
    /// Ended with success; of an action, the wait has ended, whatever became of its items.
    Passed,
    /// Ended without success.
    Failed,
    /// Ended without having run.
    Skipped,
}

impl Mark {
    ghost use Rattle.std.specs.Prelude.{◌≡◌};
    ghost use Rattle.resource_lock.specs.StateView.{runs_by};
    ghost use Rattle.resource_lock.specs.Marks.{has_ended, has_fallen, has_passed};

    /// Whether the mark is Running by the worker.
    pub fn runs_by(self, worker: WorkerId) -> bool
        ensures { result ≡ runs_by worker self }
    {
        match self {
            Mark::Running(runner) => runner.0 == worker.0,
            _ => false,
        }
    }
    /// Whether the mark is Passed.
    pub fn has_passed(self) -> bool
        ensures { result ≡ has_passed self }
    {
        matches!(self, Mark::Passed)
    }

    /// Whether the mark is Passed, Failed or Skipped.
    pub fn has_ended(self) -> bool
        ensures { result ≡ has_ended self }
    {
        matches!(self, Mark::Passed | Mark::Failed | Mark::Skipped)
    }

    /// Whether the mark is Failed or Skipped.
    pub fn has_fallen(self) -> bool
        ensures { result ≡ has_fallen self }
    {
        matches!(self, Mark::Failed | Mark::Skipped)
    }
}
