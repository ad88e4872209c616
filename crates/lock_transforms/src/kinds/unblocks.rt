//! Leaving a blocking section.
ghost use Rattle.std.specs.Prelude.{◌≡◌, ◌≤◌, ◌<◌, ◌+◌, ◌++◌, ◌∷◌, [], false, length, reverse, ◌*◌};
ghost use Rattle.resource_lock.specs.StateView.{holding_of};
ghost use Rattle.lock_transforms.specs.Allowed.{IsDisabled, IsFixedList};
ghost use Rattle.lock_transforms.specs.Making.{Makes};
ghost use Rattle.lock_transforms.specs.MostChanges.{most_of};
ghost use Rattle.lock_transforms.specs.Table.{is_enabled, mark_from, taken_again, taken_up};
ghost use Rattle.lock_transforms.specs.TentativeView.{IsSoundTentative};
ghost use Rattle.lock_transforms.specs.declared.entries.Kind.TheVariants as kinds;
ghost use Rattle.resource_lock.specs.declared.marks.MarkId.TheVariants as ids;
ghost use Rattle.resource_lock.specs.declared.marks.Mark.TheVariants as marks;

use crate::entries::{Closed, Kind};
use crate::kinds::fixed::{FixedKind, finish_or_retry};
use crate::kinds::making::try_change;
use crate::kinds::marks::mark_from;
use crate::kinds::most::parked_count;
use crate::kinds::parking::unpark_lock;
use crate::kinds::taking::take_all;
use crate::tentatives::Tentative;
use crate::transforms::{Disposition, Transform};
use item_actions::Outcome;
use resource_lock::{Change, Graph, LockId, Mark, MarkId, State, WorkerId};

/// Leaves a blocking section: the worker takes its parked locks again, from the last parked to the
/// first, and then a lease. Where the section was for a fetch, the fetch's mark becomes Passed or
/// Failed by its outcome.
///
/// It never fails. It asks to be run again where the worker isn't blocked, where it is kept from one of
/// the locks or no lease is free, where the worker runs a unit other than the fetch, and where the graph
/// has no such unit or the outcome is Skipped.
#[derive(Clone, Copy)]
pub struct Unblock {
    /// The fetch, and what it gave.
    pub closed: Option<Closed>,
}

impl Transform for Unblock {
    ghost kind_of = { λ t. kinds.Unblock t.closed };

    ghost most = { λ t g w s. most_of g w s (kinds.Unblock t.closed) };

    ghost more_locks = { λ _. 0 };

    ghost makes = { λ t. IsFixedList (kinds.Unblock t.closed) };

    ghost fails_on = { λ t g w s. ⊥ };

    ghost retries_on = { λ t. IsDisabled (kinds.Unblock t.closed) };

    fn kind(&self) -> Kind {
        Kind::Unblock(self.closed)
    }

    fn most_changes(&self, graph: &Graph, state: &State, worker: WorkerId) -> u64 {
        3 + 2 * parked_count(graph, state, worker)
    }

    fn more_locks(&self) -> usize {
        0
    }

    fn apply(&self, work: &mut Tentative, own: &[LockId]) -> Disposition {
        finish_or_retry(self, work, own)
    }

    fn waits_for_news(&self) {}
}

impl FixedKind for Unblock {
    ghost kind_of = { λ t. kinds.Unblock t.closed };

    fn is_in_range(&self, graph: &Graph) -> bool {
        match self.closed {
            Some(closed) => {
                closed.unit < graph.units() && !matches!(closed.outcome, Outcome::Skipped)
            }
            None => true,
        }
    }

    fn condition_holds(&self, _graph: &Graph, state: &State, worker: WorkerId) -> bool {
        match self.closed {
            Some(closed) => {
                state.blocked(worker)
                    && state.mark(MarkId::Unit(closed.unit)) == Mark::Running(worker)
            }
            None => state.blocked(worker) && !state.runs_unit(worker),
        }
    }

    fn make(&self, work: &mut Tentative, _own: &[LockId]) -> bool {
        match self.closed {
            Some(closed) => end_fetch(work, closed),
            None => take_up(work),
        }
    }
}

// Takes the locks and a lease again, and moves a fetch's mark from Running to what its outcome gives.
fn end_fetch(work: &mut Tentative, closed: Closed) -> bool
    requires sound { IsSoundTentative work.old }
    requires in_range { closed.unit < work.old.graph.units }
    requires room { 3 + 2 * length (holding_of work.old.state work.old.worker).parked ≤ work.old.room }
    ensures { Makes work.old work.new (taken_up work.old.state work.old.worker
        ++ Change.Move (ids.Unit closed.unit) (marks.Running work.old.worker) (mark_from closed.outcome) ∷ []) result }
{
    if !take_up(work) {
        return false;
    }
    let running = Mark::Running(work.worker());
    let ended = mark_from(closed.outcome);
    try_change(
        work,
        Change::Move(MarkId::Unit(closed.unit), running, ended),
    )
}

// Leaves, takes each parked lock again, the last first, and then a lease.
fn take_up(work: &mut Tentative) -> bool
    requires sound { IsSoundTentative work.old }
    requires room { 2 + 2 * length (holding_of work.old.state work.old.worker).parked ≤ work.old.room }
    ensures { Makes work.old work.new (taken_up work.old.state work.old.worker) result }
{
    if !try_change(work, Change::Leave) {
        return false;
    }
    if !take_parked(work) {
        return false;
    }
    take_all(work, &[])
}

// Takes each parked lock again, from the last parked to the first.
fn take_parked(work: &mut Tentative) -> bool
    requires { length (taken_again (reverse (holding_of work.old.state work.old.worker).parked)) ≤ work.old.room }
    ensures { Makes work.old work.new (taken_again (reverse (holding_of work.old.state work.old.worker).parked)) result }
{
    let count = work.state().parked(work.worker()).len();
    for taken in 0..count {
        let lock = work.state().parked(work.worker())[count - 1 - taken];
        if !unpark_lock(work, lock) {
            return false;
        }
    }
    true
}
