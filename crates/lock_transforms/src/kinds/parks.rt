//! Beginning to wait for the items of an action.
ghost use Rattle.std.specs.Prelude.{◌≡◌, ◌≤◌, false, length};
ghost use Rattle.resource_lock.specs.StateView.{IsLockOf};
ghost use Rattle.lock_transforms.specs.Allowed.{IsDisabled, IsFixedList};
ghost use Rattle.lock_transforms.specs.Making.{Makes};
ghost use Rattle.lock_transforms.specs.MostChanges.{most_of};
ghost use Rattle.lock_transforms.specs.Table.{is_enabled, on_park};
ghost use Rattle.lock_transforms.specs.declared.entries.Kind.TheVariants as kinds;

use crate::entries::Kind;
use crate::kinds::fixed::{FixedKind, finish_or_retry};
use crate::kinds::making::try_change;
use crate::kinds::marks::works_on;
use crate::kinds::parking::park_lock;
use crate::kinds::ranges::{action_of, lock_of};
use crate::tentatives::Tentative;
use crate::transforms::{Disposition, Transform};
use resource_lock::{Change, Graph, LockId, Mark, MarkId, Retention, State, WorkerId};

/// Begins to wait for the items of a queued action: the worker gives back its lease, and parks the
/// task's lock unless the action retains it. The action's mark becomes Running.
///
/// It never fails. It asks to be run again where the worker doesn't work on the action's task, where
/// the action isn't Queued, where the worker doesn't own a lock that it is to park, and where the
/// graph has no such action.
#[derive(Clone, Copy)]
pub struct Park {
    /// The action's number.
    pub action: u32,
}

impl Transform for Park {
    ghost kind_of = { λ t. kinds.Park t.action };

    ghost most = { λ t g w s. most_of g w s (kinds.Park t.action) };

    ghost more_locks = { λ _. 0 };

    ghost makes = { λ t. IsFixedList (kinds.Park t.action) };

    ghost fails_on = { λ t g w s. ⊥ };

    ghost retries_on = { λ t. IsDisabled (kinds.Park t.action) };

    fn kind(&self) -> Kind {
        Kind::Park(self.action)
    }

    fn most_changes(&self, _graph: &Graph, _state: &State, _worker: WorkerId) -> u64 {
        4
    }

    fn more_locks(&self) -> usize {
        0
    }

    fn apply(&self, work: &mut Tentative, own: &[LockId]) -> Disposition {
        finish_or_retry(self, work, own)
    }

    fn waits_for_news(&self) {}
}

impl FixedKind for Park {
    ghost kind_of = { λ t. kinds.Park t.action };

    fn is_in_range(&self, graph: &Graph) -> bool {
        (self.action as usize) < graph.actions().len()
    }

    fn condition_holds(&self, graph: &Graph, state: &State, worker: WorkerId) -> bool {
        works_on(state, worker, action_of(graph, self.action).task)
            && state.mark(MarkId::Action(self.action)) == Mark::Queued
    }

    fn make(&self, work: &mut Tentative, _own: &[LockId]) -> bool {
        let action = action_of(work.graph(), self.action);
        let lock = lock_of(work.graph(), action.task);
        let running = Mark::Running(work.worker());
        let moved = Change::Move(MarkId::Action(self.action), Mark::Queued, running);
        give_back(work, action.retention, lock) && try_change(work, moved)
    }
}

// Gives back the lease and, unless the retention keeps it, the lock, which is parked then.
fn give_back(work: &mut Tentative, retention: Retention, lock: LockId) -> bool
    requires in_range { IsLockOf work.old.state lock }
    requires room { 3 ≤ work.old.room }
    ensures made { Makes work.old work.new (on_park retention lock) result }
    ensures few { length (on_park retention lock) ≤ 3 }
{
    match retention {
        Retention::Retain => try_change(work, Change::Give),
        Retention::Release | Retention::ReleaseAndReacquire => {
            try_change(work, Change::Give) && park_lock(work, lock)
        }
    }
}
