//! Beginning to run an item.
ghost use Rattle.std.specs.Prelude.{◌≡◌, ◌≢◌, ◌<◌, false};
ghost use Rattle.resource_lock.specs.StateView.{mark_of};
ghost use Rattle.lock_transforms.specs.Allowed.{IsFixedList};
ghost use Rattle.lock_transforms.specs.MostChanges.{most_of};
ghost use Rattle.lock_transforms.specs.Table.{is_enabled};
ghost use Rattle.lock_transforms.specs.declared.entries.Kind.TheVariants as kinds;
ghost use Rattle.resource_lock.specs.declared.marks.MarkId.TheVariants as ids;
ghost use Rattle.resource_lock.specs.declared.marks.Mark.TheVariants as marks;

use crate::entries::Kind;
use crate::kinds::fixed::{FixedKind, finish_or_retry};
use crate::kinds::making::try_change;
use crate::tentatives::Tentative;
use crate::transforms::{Disposition, Transform};
use resource_lock::{Change, Graph, LockId, Mark, MarkId, State, WorkerId};

/// Begins to run a queued item: the worker takes a lease, and the item's mark becomes Running.
///
/// It fails where the unit isn't Queued, as after another worker's claim. It asks to be run again
/// where it is Queued and no lease is free, where the worker has one, is blocked, runs a unit, or is
/// neither idle nor parked, where the unit is a fetch, and where the graph has no such unit.
#[derive(Clone, Copy)]
pub struct Claim {
    /// The item, by its number among the units.
    pub unit: u32,
}

impl Transform for Claim {
    ghost kind_of = { λ t. kinds.Claim t.unit };

    ghost most = { λ t g w s. most_of g w s (kinds.Claim t.unit) };

    ghost more_locks = { λ _. 0 };

    ghost makes = { λ t. IsFixedList (kinds.Claim t.unit) };

    ghost fails_on = { λ t g w s. mark_of s (ids.Unit t.unit) ≢ marks.Queued };

    ghost retries_on = { λ t g w s. t.unit < g.units
        → (mark_of s (ids.Unit t.unit) ≡ marks.Queued) × (is_enabled g s w (kinds.Claim t.unit) ≡ false) };

    fn kind(&self) -> Kind {
        Kind::Claim(self.unit)
    }

    fn most_changes(&self, _graph: &Graph, _state: &State, _worker: WorkerId) -> u64 {
        2
    }

    fn more_locks(&self) -> usize {
        0
    }

    fn apply(&self, work: &mut Tentative, own: &[LockId]) -> Disposition {
        if !self.is_in_range(work.graph()) {
            return Disposition::Retry;
        }
        if work.state().mark(MarkId::Unit(self.unit)) != Mark::Queued {
            return Disposition::Failed;
        }
        finish_or_retry(self, work, own)
    }

    fn waits_for_news(&self) {}
}

impl FixedKind for Claim {
    ghost kind_of = { λ t. kinds.Claim t.unit };

    fn is_in_range(&self, graph: &Graph) -> bool {
        self.unit < graph.units()
    }

    fn condition_holds(&self, graph: &Graph, state: &State, worker: WorkerId) -> bool {
        graph.is_item(self.unit)
            && state.mark(MarkId::Unit(self.unit)) == Mark::Queued
            && !state.runs_unit(worker)
            && !state.blocked(worker)
            && !state.has_lease(worker)
            && (state.is_parked(worker) || state.is_idle(worker))
    }

    fn make(&self, work: &mut Tentative, _own: &[LockId]) -> bool {
        let running = Mark::Running(work.worker());
        let moved = Change::Move(MarkId::Unit(self.unit), Mark::Queued, running);
        try_change(work, Change::Take) && try_change(work, moved)
    }
}
