//! The steps of workers whose items wait in the book, as one transform.
ghost use Rattle.lock_transforms.specs.Allowed.{IsFixedList};
ghost use Rattle.lock_transforms.specs.MostChanges.{most_of};
ghost use Rattle.async_tracker.specs.WorkSteps.{FailsAt, RetriesAt, kind_of_work, more_locks_of};

use lock_transforms::kinds::{Block, Claim, End, Park, Resume, Skip, Start, Submit};
use lock_transforms::{Disposition, Kind, Tentative, Transform};
use resource_lock::{Graph, LockId, State, WorkerId};

/// The step of what a worker does next.
#[derive(Clone, Copy, Drop)]
pub enum WorkStep {
    /// It starts this task (`Start`).
    Start(u32),
    /// It skips this task (`Skip`).
    Skip(u32),
    /// It claims this unit (`Claim`).
    Claim(u32),
    /// It resumes from this action (`Resume`).
    Resume(u32),
    /// It enters a blocking section for this fetch (`Block`).
    Fetch(u32),
    /// It queues the items of this action (`Submit`).
    Submit(u32),
    /// It begins to wait for the items of this action (`Park`).
    Park(u32),
    /// It ends this task (`End`).
    End(u32),
}

impl Transform for WorkStep {
    ghost kind_of = { kind_of_work };

    ghost most = { λ step g w s. most_of g w s (kind_of_work step) };

    ghost more_locks = { more_locks_of };

    ghost makes = { λ step. IsFixedList (kind_of_work step) };

    ghost fails_on = { FailsAt };

    ghost retries_on = { RetriesAt };

    fn kind(&self) -> Kind {
        match *self {
            WorkStep::Start(task) => Kind::Start(task),
            WorkStep::Skip(task) => Kind::Skip(task),
            WorkStep::Claim(unit) => Kind::Claim(unit),
            WorkStep::Resume(action) => Kind::Resume(action),
            WorkStep::Fetch(unit) => Kind::Block(Some(unit)),
            WorkStep::Submit(action) => Kind::Submit(action),
            WorkStep::Park(action) => Kind::Park(action),
            WorkStep::End(task) => Kind::End(task),
        }
    }

    fn most_changes(&self, graph: &Graph, state: &State, worker: WorkerId) -> u64 {
        match *self {
            WorkStep::Start(task) => Start { task }.most_changes(graph, state, worker),
            WorkStep::Skip(task) => Skip { task }.most_changes(graph, state, worker),
            WorkStep::Claim(unit) => Claim { unit }.most_changes(graph, state, worker),
            WorkStep::Resume(action) => Resume { action }.most_changes(graph, state, worker),
            WorkStep::Fetch(unit) => Block { unit: Some(unit) }.most_changes(graph, state, worker),
            WorkStep::Submit(action) => Submit { action }.most_changes(graph, state, worker),
            WorkStep::Park(action) => Park { action }.most_changes(graph, state, worker),
            WorkStep::End(task) => End { task }.most_changes(graph, state, worker),
        }
    }

    #[inline]
    fn more_locks(&self) -> usize {
        match *self {
            WorkStep::Start(_) => 1,
            _ => 0,
        }
    }

    fn apply(&self, work: &mut Tentative, own: &[LockId]) -> Disposition {
        match *self {
            WorkStep::Start(task) => Start { task }.apply(work, own),
            WorkStep::Skip(task) => Skip { task }.apply(work, own),
            WorkStep::Claim(unit) => Claim { unit }.apply(work, own),
            WorkStep::Resume(action) => Resume { action }.apply(work, own),
            WorkStep::Fetch(unit) => Block { unit: Some(unit) }.apply(work, own),
            WorkStep::Submit(action) => Submit { action }.apply(work, own),
            WorkStep::Park(action) => Park { action }.apply(work, own),
            WorkStep::End(task) => End { task }.apply(work, own),
        }
    }

    fn waits_for_news(&self) {}
}
