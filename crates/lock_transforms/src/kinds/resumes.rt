//! Going on after the items of an action.
ghost use Rattle.std.specs.Prelude.{◌≡◌, ◌≤◌, ◌+◌, false, length};
ghost use Rattle.std.specs.List.{list_all, range_with_len};
ghost use Rattle.resource_lock.specs.StateView.{IsLockOf, mark_of};
ghost use Rattle.lock_transforms.specs.Allowed.{IsDisabled, IsFixedList};
ghost use Rattle.lock_transforms.specs.Making.{Makes};
ghost use Rattle.lock_transforms.specs.MostChanges.{most_of};
ghost use Rattle.lock_transforms.specs.Table.{has_ended, is_enabled, on_resume};
ghost use Rattle.lock_transforms.specs.declared.entries.Kind.TheVariants as kinds;
ghost use Rattle.resource_lock.specs.declared.marks.MarkId.TheVariants as ids;

use crate::entries::Kind;
use crate::kinds::fixed::{FixedKind, finish_or_retry};
use crate::kinds::making::try_change;
use crate::kinds::parking::unpark_lock;
use crate::kinds::ranges::{NumberRange, action_of, items_of, lock_of};
use crate::tentatives::Tentative;
use crate::transforms::{Disposition, Transform};
use resource_lock::{Change, Graph, LockId, Mark, MarkId, Retention, State, WorkerId};

/// Goes on after the items of an action have ended: the worker takes back what it gave back when it
/// parked, or under Release only takes the lock off its parked list. The action's mark becomes
/// Passed.
///
/// It never fails. It asks to be run again where the worker isn't parked on the action, has a lease
/// or runs a unit, where an item hasn't ended, where the lock is owned or the worker is kept from it, where
/// no lease is free, and where the graph has no such action.
#[derive(Clone, Copy)]
pub struct Resume {
    /// The action's number.
    pub action: u32,
}

impl Transform for Resume {
    ghost kind_of = { λ t. kinds.Resume t.action };

    ghost most = { λ t g w s. most_of g w s (kinds.Resume t.action) };

    ghost more_locks = { λ _. 0 };

    ghost makes = { λ t. IsFixedList (kinds.Resume t.action) };

    ghost fails_on = { λ t g w s. ⊥ };

    ghost retries_on = { λ t. IsDisabled (kinds.Resume t.action) };

    fn kind(&self) -> Kind {
        Kind::Resume(self.action)
    }

    fn most_changes(&self, _graph: &Graph, _state: &State, _worker: WorkerId) -> u64 {
        4
    }

    fn more_locks(&self) -> usize {
        0
    }

    fn apply(&self, work: &mut Tentative, own: &[LockId]) -> Disposition {
        finish_or_retry(self, work, own)
    }

    fn waits_for_news(&self) {}
}

impl FixedKind for Resume {
    ghost kind_of = { λ t. kinds.Resume t.action };

    fn is_in_range(&self, graph: &Graph) -> bool {
        (self.action as usize) < graph.actions().len()
    }

    fn condition_holds(&self, graph: &Graph, state: &State, worker: WorkerId) -> bool {
        state.mark(MarkId::Action(self.action)) == Mark::Running(worker)
            && !state.has_lease(worker)
            && !state.runs_unit(worker)
            && all_ended(state, items_of(graph, self.action))
    }

    fn make(&self, work: &mut Tentative, _own: &[LockId]) -> bool {
        let action = action_of(work.graph(), self.action);
        let lock = lock_of(work.graph(), action.task);
        let running = Mark::Running(work.worker());
        let moved = Change::Move(MarkId::Action(self.action), running, Mark::Passed);
        take_again(work, action.retention, lock) && try_change(work, moved)
    }
}

// Takes a lease and the parked lock again, or only takes the lock off the parked list, as the retention says.
fn take_again(work: &mut Tentative, retention: Retention, lock: LockId) -> bool
    requires in_range { IsLockOf work.old.state lock }
    requires room { 3 ≤ work.old.room }
    ensures made { Makes work.old work.new (on_resume retention lock) result }
    ensures few { length (on_resume retention lock) ≤ 3 }
{
    match retention {
        Retention::Retain => try_change(work, Change::Take),
        Retention::Release => try_change(work, Change::Unpark(lock)),
        Retention::ReleaseAndReacquire => {
            unpark_lock(work, lock) && try_change(work, Change::Take)
        }
    }
}

// Whether each of these units has ended.
fn all_ended(state: &State, units: NumberRange) -> bool
    requires { units.first + units.count ≤ length state.now.units }
    ensures { result ≡ list_all (λ u. has_ended (mark_of state.now (ids.Unit u))) (range_with_len units.first units.count) }
{
    (units.first..units.first + units.count).all(|unit| state.mark(MarkId::Unit(unit)).has_ended())
}
