//! Ending an item.
ghost use Rattle.std.specs.Prelude.{◌≡◌, false};
ghost use Rattle.lock_transforms.specs.Allowed.{IsDisabled, IsFixedList};
ghost use Rattle.lock_transforms.specs.MostChanges.{most_of};
ghost use Rattle.lock_transforms.specs.Table.{is_enabled};
ghost use Rattle.lock_transforms.specs.declared.entries.Kind.TheVariants as kinds;

use crate::entries::{Closed, Kind};
use crate::kinds::fixed::{FixedKind, finish_or_retry};
use crate::kinds::making::try_change;
use crate::kinds::marks::mark_from;
use crate::tentatives::Tentative;
use crate::transforms::{Disposition, Transform};
use item_actions::Outcome;
use resource_lock::{Change, Graph, LockId, Mark, MarkId, State, WorkerId};

/// Ends an item that the worker runs: its mark becomes Passed or Failed by its outcome, and the
/// worker gives its lease back.
///
/// It never fails. It asks to be run again where the unit isn't an item that the worker runs, where
/// the worker has no lease, and where the graph has no such unit or the outcome is Skipped.
#[derive(Clone, Copy)]
pub struct Close {
    /// The item, and what it gave.
    pub closed: Closed,
}

impl Transform for Close {
    ghost kind_of = { λ t. kinds.Close t.closed };

    ghost most = { λ t g w s. most_of g w s (kinds.Close t.closed) };

    ghost more_locks = { λ _. 0 };

    ghost makes = { λ t. IsFixedList (kinds.Close t.closed) };

    ghost fails_on = { λ t g w s. ⊥ };

    ghost retries_on = { λ t. IsDisabled (kinds.Close t.closed) };

    fn kind(&self) -> Kind {
        Kind::Close(self.closed)
    }

    fn most_changes(&self, _graph: &Graph, _state: &State, _worker: WorkerId) -> u64 {
        2
    }

    fn more_locks(&self) -> usize {
        0
    }

    fn apply(&self, work: &mut Tentative, own: &[LockId]) -> Disposition {
        finish_or_retry(self, work, own)
    }

    fn waits_for_news(&self) {}
}

impl FixedKind for Close {
    ghost kind_of = { λ t. kinds.Close t.closed };

    fn is_in_range(&self, graph: &Graph) -> bool {
        self.closed.unit < graph.units() && !matches!(self.closed.outcome, Outcome::Skipped)
    }

    fn condition_holds(&self, graph: &Graph, state: &State, worker: WorkerId) -> bool {
        graph.is_item(self.closed.unit)
            && state.mark(MarkId::Unit(self.closed.unit)) == Mark::Running(worker)
    }

    fn make(&self, work: &mut Tentative, _own: &[LockId]) -> bool {
        let unit = MarkId::Unit(self.closed.unit);
        let running = Mark::Running(work.worker());
        let moved = Change::Move(unit, running, mark_from(self.closed.outcome));
        try_change(work, moved) && try_change(work, Change::Give)
    }
}
