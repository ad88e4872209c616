//! Giving back all locks and the lease.
ghost use Rattle.std.specs.Prelude.{◌≡◌, false};
ghost use Rattle.lock_transforms.specs.Allowed.{IsFixedList, IsUnmet};
ghost use Rattle.lock_transforms.specs.MostChanges.{most_of};
ghost use Rattle.lock_transforms.specs.Table.{condition};
ghost use Rattle.lock_transforms.specs.declared.entries.Kind.TheVariants as kinds;

use crate::entries::Kind;
use crate::kinds::fixed::{FixedKind, finish_or_retry};
use crate::kinds::freeing::free_locks;
use crate::kinds::most::owned_count;
use crate::tentatives::Tentative;
use crate::transforms::{Disposition, Transform};
use resource_lock::{Graph, LockId, State, WorkerId};

/// Gives back all locks that the worker owns, by rising number, and then its lease, where it has one. Where its run names these locks, it looks
/// at no other, and else at each of the graph.
///
/// It never fails. It asks to be run again where the worker has nothing to give back, where it is
/// blocked, and where it runs anything.
#[derive(Clone, Copy)]
pub struct HandBack;

impl Transform for HandBack {
    ghost kind_of = { λ _. kinds.HandBack };

    ghost most = { λ _ g w s. most_of g w s kinds.HandBack };

    ghost more_locks = { λ _. 0 };

    ghost makes = { λ _. IsFixedList kinds.HandBack };

    ghost fails_on = { λ t g w s. ⊥ };

    ghost retries_on = { λ _. IsUnmet kinds.HandBack };

    fn kind(&self) -> Kind {
        Kind::HandBack
    }

    fn most_changes(&self, graph: &Graph, state: &State, worker: WorkerId) -> u64 {
        1 + owned_count(graph, state, worker)
    }

    fn more_locks(&self) -> usize {
        0
    }

    fn apply(&self, work: &mut Tentative, own: &[LockId]) -> Disposition {
        finish_or_retry(self, work, own)
    }

    fn waits_for_news(&self) {}
}

impl FixedKind for HandBack {
    ghost kind_of = { λ _. kinds.HandBack };

    fn is_in_range(&self, _graph: &Graph) -> bool {
        true
    }

    fn condition_holds(&self, _graph: &Graph, state: &State, worker: WorkerId) -> bool {
        !state.blocked(worker)
            && !state.runs_any(worker)
            && (state.owns_any(worker) || state.has_lease(worker))
    }

    fn make(&self, work: &mut Tentative, own: &[LockId]) -> bool {
        if !free_locks(work, own, false) {
            return false;
        }
        work.give();
        true
    }
}
