//! Skipping a task.
ghost use Rattle.std.specs.Prelude.{◌≡◌, ◌≤◌, false, length};
ghost use Rattle.lock_transforms.specs.Allowed.{IsFixedList};
ghost use Rattle.lock_transforms.specs.MostChanges.{most_of};
ghost use Rattle.lock_transforms.specs.Table.{is_enabled};
ghost use Rattle.lock_transforms.specs.declared.entries.Kind.TheVariants as kinds;

use crate::entries::Kind;
use crate::kinds::fixed::{FixedKind, Progress, run_fixed};
use crate::kinds::making::try_change;
use crate::kinds::most::changes_below;
use crate::kinds::ranges::{actions_of, after_of};
use crate::kinds::skipping::skip_actions;
use crate::tentatives::Tentative;
use crate::transforms::{Disposition, Transform};
use resource_lock::{Change, Graph, LockId, Mark, MarkId, State, WorkerId};

/// Skips a task that is Waiting and comes after one that failed or was skipped: its mark and those
/// of its actions and units become Skipped.
///
/// It fails where the task isn't such a one, where the worker isn't idle, and where one of the marks
/// isn't Waiting. It asks to be run again only where the graph has no such task.
#[derive(Clone, Copy)]
pub struct Skip {
    /// The task's number.
    pub task: u32,
}

impl Transform for Skip {
    ghost kind_of = { λ t. kinds.Skip t.task };

    ghost most = { λ t g w s. most_of g w s (kinds.Skip t.task) };

    ghost more_locks = { λ _. 0 };

    ghost makes = { λ t. IsFixedList (kinds.Skip t.task) };

    ghost fails_on = { λ t g w s. is_enabled g s w (kinds.Skip t.task) ≡ false };

    ghost retries_on = { λ t g w s. length g.tasks ≤ t.task };

    fn kind(&self) -> Kind {
        Kind::Skip(self.task)
    }

    fn most_changes(&self, graph: &Graph, _state: &State, _worker: WorkerId) -> u64 {
        1 + changes_below(graph, self.task)
    }

    fn more_locks(&self) -> usize {
        0
    }

    fn apply(&self, work: &mut Tentative, own: &[LockId]) -> Disposition {
        match run_fixed(self, work, own) {
            Progress::Made => Disposition::Finished,
            Progress::NotEnabled => Disposition::Failed,
            Progress::OutOfRange => Disposition::Retry,
        }
    }

    fn waits_for_news(&self) {}
}

impl FixedKind for Skip {
    ghost kind_of = { λ t. kinds.Skip t.task };

    fn is_in_range(&self, graph: &Graph) -> bool {
        (self.task as usize) < graph.tasks().len()
    }

    fn condition_holds(&self, graph: &Graph, state: &State, worker: WorkerId) -> bool {
        state.mark(MarkId::Task(self.task)) == Mark::Waiting
            && state.some_fallen(after_of(graph, self.task))
            && state.is_idle(worker)
    }

    fn make(&self, work: &mut Tentative, _own: &[LockId]) -> bool {
        let actions = actions_of(work.graph(), self.task);
        let skipped = Change::Move(MarkId::Task(self.task), Mark::Waiting, Mark::Skipped);
        if !try_change(work, skipped) {
            return false;
        }
        skip_actions(work, actions)
    }
}
