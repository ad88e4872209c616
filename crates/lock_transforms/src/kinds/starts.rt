//! Starting a task.
ghost use Rattle.std.specs.Prelude.{◌≡◌, ◌≤◌, false, length};
ghost use Rattle.lock_transforms.specs.Allowed.{IsFixedList};
ghost use Rattle.lock_transforms.specs.MostChanges.{most_of};
ghost use Rattle.lock_transforms.specs.Table.{is_enabled};
ghost use Rattle.lock_transforms.specs.declared.entries.Kind.TheVariants as kinds;

use crate::entries::Kind;
use crate::kinds::fixed::{FixedKind, Progress, run_fixed};
use crate::kinds::making::try_change;
use crate::kinds::ranges::{after_of, lock_of};
use crate::tentatives::Tentative;
use crate::transforms::{Disposition, Transform};
use resource_lock::{Change, Graph, LockId, Mark, MarkId, State, WorkerId};

/// Starts a task that is Waiting and comes after passed tasks only: the worker takes the task's lock
/// and a lease, and the task's mark becomes Running.
///
/// It fails where the task isn't such a one, where the worker isn't idle, and where somebody owns a lock
/// that conflicts with the task's, or no lease is free. It asks to be run again only where the graph has no such task.
#[derive(Clone, Copy)]
pub struct Start {
    /// The task's number.
    pub task: u32,
}

impl Transform for Start {
    ghost kind_of = { λ t. kinds.Start t.task };

    ghost most = { λ t g w s. most_of g w s (kinds.Start t.task) };

    ghost more_locks = { λ _. 1 };

    ghost makes = { λ t. IsFixedList (kinds.Start t.task) };

    ghost fails_on = { λ t g w s. is_enabled g s w (kinds.Start t.task) ≡ false };

    ghost retries_on = { λ t g w s. length g.tasks ≤ t.task };

    fn kind(&self) -> Kind {
        Kind::Start(self.task)
    }

    fn most_changes(&self, _graph: &Graph, _state: &State, _worker: WorkerId) -> u64 {
        3
    }

    fn more_locks(&self) -> usize {
        1
    }

    fn apply(&self, work: &mut Tentative, own: &[LockId]) -> Disposition {
        match run_fixed(self, work, own) {
            Progress::Made => Disposition::Finished,
            Progress::NotEnabled => Disposition::Failed,
            Progress::OutOfRange => Disposition::Retry,
        }
    }

    fn waits_for_news(&self) {}
}

impl FixedKind for Start {
    ghost kind_of = { λ t. kinds.Start t.task };

    fn is_in_range(&self, graph: &Graph) -> bool {
        (self.task as usize) < graph.tasks().len()
    }

    fn condition_holds(&self, graph: &Graph, state: &State, worker: WorkerId) -> bool {
        state.mark(MarkId::Task(self.task)) == Mark::Waiting
            && state.all_passed(after_of(graph, self.task))
            && state.is_idle(worker)
    }

    fn make(&self, work: &mut Tentative, _own: &[LockId]) -> bool {
        let lock = lock_of(work.graph(), self.task);
        let running = Mark::Running(work.worker());
        let moved = Change::Move(MarkId::Task(self.task), Mark::Waiting, running);
        // One behind the other rather than from a list: so the compiler knows each change, and leaves the test and the step of that one.
        try_change(work, Change::Lock(lock))
            && try_change(work, Change::Take)
            && try_change(work, moved)
    }
}
