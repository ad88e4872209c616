//! The taking of one use of each of several services, and a lease.
ghost use Rattle.std.specs.Prelude.{◌≡◌, ◌↔◌, ◌+◌, ◌⊎◌, IsTrue, length};
ghost use Rattle.lock_transforms.specs.declared.entries.Kind.TheVariants as kinds;
ghost use Rattle.lock_transforms.specs.declared.kinds.acquires.Shortage.TheVariants as shortages;
ghost use Rattle.shared_services.specs.Services.{AreServices, FitMaxima};
ghost use Rattle.shared_services.specs.Takings.{HasTheLocks, IsShort, MayNotTake, TakesUses, has_nothing};

use crate::services::{MAX_SERVICES, ServiceTable};
use lock_transforms::kinds::{Acquire, Shortage};
use lock_transforms::{Disposition, Kind, Tentative, Transform};
use resource_lock::{Graph, LockId, State, WorkerId};

/// Takes the lowest lock without owner of each of some services, given in strictly rising order, and a lease, for a worker that
/// has nothing.
///
/// It is a transform of its own, since which locks are free is known only under the state lock. It applies an `Acquire` of those
/// that it chose.
///
/// A service may have no lock without owner, or as many leases as may be may be out. It then fails or asks to be run again, as
/// `shortage` says. It asks to be run again where the worker has something, and where the graph has other locks than those of
/// the services, or an all-projects lock.
#[derive(Clone, Copy)]
pub struct TakeUses<'a> {
    /// The services.
    pub table: &'a ServiceTable,
    /// The numbers of those that are asked for.
    pub asked: &'a [u32],
    /// What becomes of it where it can't have them all.
    pub shortage: Shortage,
    ghost services: { AreServices table.now asked.now },
}

impl Transform for TakeUses<'_> {
    ghost kind_of = { λ _. kinds.Acquire };

    ghost most = { λ t g w s. length t.asked.now + 1 };

    ghost more_locks = { λ t. length t.asked.now + 1 };

    ghost makes = { λ t. TakesUses t.table.now t.asked.now };

    ghost fails_on = { λ t g w s. (t.shortage ≡ shortages.Fails) × IsShort t.table.now t.asked.now s };

    ghost retries_on = { λ t g w s. MayNotTake t.table.now g w s ⊎ ((t.shortage ≡ shortages.Waits) × IsShort t.table.now t.asked.now s) };

    fn kind(&self) -> Kind {
        Kind::Acquire
    }

    fn most_changes(&self, _graph: &Graph, _state: &State, _worker: WorkerId) -> u64 {
        self.asked.len() as u64 + 1
    }

    fn more_locks(&self) -> usize {
        self.asked.len() + 1
    }

    fn apply(&self, work: &mut Tentative, own: &[LockId]) -> Disposition {
        if !has_the_locks(work.graph(), self.table) || !has_nothing(work) {
            return Disposition::Retry;
        }
        let mut chosen = [LockId(0); MAX_SERVICES];
        if !self.table.choose(work.state(), self.asked, &mut chosen) {
            return match self.shortage {
                Shortage::Waits => Disposition::Retry,
                Shortage::Fails => Disposition::Failed,
            };
        }
        let acquire = Acquire {
            locks: &chosen[..self.asked.len()],
            shortage: self.shortage,
        };
        acquire.apply(work, own)
    }

    fn waits_for_news(&self) {
        // That as many leases as may be are out stays so, as it does for what takes no locks.
        let lease = Acquire {
            locks: &[],
            shortage: Shortage::Waits,
        };
        lease.waits_for_news();
    }
}

// Whether the locks of the graph are those of the services, and it has no all-projects lock.
fn has_the_locks(graph: &Graph, table: &ServiceTable) -> bool
    ensures answer { IsTrue result ↔ HasTheLocks table.now graph.now }
    ensures fit { FitMaxima table.now }
{
    graph.locks() == table.locks() && graph.all().is_none()
}

// Whether the worker has no lease, isn't blocked, has parked nothing and runs nothing.
fn has_nothing(work: &Tentative) -> bool
    ensures { result ≡ has_nothing work.now.state work.now.worker }
{
    let _ = work.graph();
    let state = work.state();
    let worker = work.worker();
    !state.has_lease(worker)
        && !state.blocked(worker)
        && state.parked(worker).is_empty()
        && !state.runs_any(worker)
}
