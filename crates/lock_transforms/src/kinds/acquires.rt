//! Taking locks and a lease.
ghost use Rattle.std.specs.Prelude.{◌≡◌, ◌⊎◌, ◌+◌, ◌<◌, true, false, length};
ghost use Rattle.std.specs.List.{list_all};
ghost use Rattle.resource_lock.specs.Shape.{BelongsTo};
ghost use Rattle.lock_transforms.specs.Taking.{acquired, can_take_all, is_open, may_acquire, rises};
ghost use Rattle.lock_transforms.specs.declared.entries.Kind.TheVariants as kinds;
ghost use Rattle.lock_transforms.specs.declared.kinds.acquires.Shortage.TheVariants as shortages;

use crate::entries::Kind;
use crate::kinds::taking::take_all;
use crate::tentatives::Tentative;
use crate::transforms::{Disposition, Transform};
use resource_lock::{Graph, LockId, State, WorkerId};

/// What becomes of an `Acquire` that can't have all that it takes.
#[derive(Clone, Copy)]
pub enum Shortage {
    /// It asks to be run again.
    Waits,
    /// It fails.
    Fails,
}

/// Takes locks, given in strictly rising order, and a lease: those of the locks that the worker
/// doesn't own yet, and the lease where it has none. A worker that has them all makes no change.
///
/// The worker may be kept from one of the locks, or have no lease while as many as may be are out. It then fails or
/// asks to be run again, as `shortage` says. It asks to be run again where the worker is blocked or runs anything,
/// where it has parked one of the locks, and where the graph has no such lock.
#[derive(Clone, Copy)]
pub struct Acquire<'a> {
    /// The locks.
    pub locks: &'a [LockId],
    /// What becomes of it where it can't have them all.
    pub shortage: Shortage,
    ghost rising: { rises 0 locks.now ≡ true },
}

impl Transform for Acquire<'_> {
    ghost kind_of = { λ _. kinds.Acquire };

    ghost most = { λ t g w s. length t.locks.now + 1 };

    ghost more_locks = { λ t. length t.locks.now + 1 };

    ghost makes = { λ t g w s cs. cs ≡ acquired s w t.locks.now };

    ghost fails_on = { λ t g w s. (t.shortage ≡ shortages.Fails) × (can_take_all s w t.locks.now ≡ false) };

    ghost retries_on = { λ t g w s. (may_acquire g s w t.locks.now ≡ false) ⊎ ((t.shortage ≡ shortages.Waits) × (can_take_all s w t.locks.now ≡ false)) };

    fn kind(&self) -> Kind {
        Kind::Acquire
    }

    fn most_changes(&self, _graph: &Graph, _state: &State, _worker: WorkerId) -> u64 {
        self.locks.len() as u64 + 1
    }

    fn more_locks(&self) -> usize {
        self.locks.len() + 1
    }

    fn apply(&self, work: &mut Tentative, _own: &[LockId]) -> Disposition {
        if !may_acquire(work.graph(), work.state(), work.worker(), self.locks) {
            return Disposition::Retry;
        }
        if take_all(work, self.locks) {
            return Disposition::Finished;
        }
        match self.shortage {
            Shortage::Waits => Disposition::Retry,
            Shortage::Fails => Disposition::Failed,
        }
    }

    fn waits_for_news(&self) {}
}

// Whether a worker isn't blocked and runs nothing, and may take each of these locks.
fn may_acquire(graph: &Graph, state: &State, worker: WorkerId, locks: &[LockId]) -> bool
    requires belongs { BelongsTo graph.now state.now }
    requires worker_in_range { worker.0 < graph.now.workers }
    ensures { result ≡ may_acquire graph.now state.now worker locks.now }
{
    !state.blocked(worker) && !state.runs_any(worker) && are_open(graph, state, worker, locks)
}

// Whether each lock is one of the graph's that the worker hasn't parked.
fn are_open(graph: &Graph, state: &State, worker: WorkerId, locks: &[LockId]) -> bool
    requires belongs { BelongsTo graph.now state.now }
    requires worker_in_range { worker.0 < graph.now.workers }
    ensures { result ≡ list_all (is_open graph.now state.now worker) locks.now }
{
    locks.iter().all(|lock| lock.0 < graph.locks() && !state.has_parked(worker, *lock))
}
