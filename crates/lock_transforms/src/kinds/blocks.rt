//! Entering a blocking section.
ghost use Rattle.std.specs.Prelude.{◌≡◌, ◌≤◌, ◌<◌, ◌&&◌, ◌==◌, ◌∷◌, Some, false, length, ◌+◌, ◌*◌};
ghost use Rattle.resource_lock.specs.Change.{same_mark};
ghost use Rattle.resource_lock.specs.Fits.{Fits};
ghost use Rattle.resource_lock.specs.GraphView.{action_of};
ghost use Rattle.resource_lock.specs.Ranges.{task_with};
ghost use Rattle.resource_lock.specs.Shape.{BelongsTo};
ghost use Rattle.resource_lock.specs.StateView.{mark_of};
ghost use Rattle.lock_transforms.specs.Allowed.{IsFixedList, IsUnmet};
ghost use Rattle.lock_transforms.specs.Making.{Makes};
ghost use Rattle.lock_transforms.specs.MostChanges.{most_of};
ghost use Rattle.lock_transforms.specs.Table.{condition, earlier_passed, owned, set_down, works_on};
ghost use Rattle.lock_transforms.specs.declared.entries.Kind.TheVariants as kinds;
ghost use Rattle.resource_lock.specs.declared.marks.MarkId.TheVariants as ids;
ghost use Rattle.resource_lock.specs.declared.marks.Mark.TheVariants as marks;

use crate::entries::Kind;
use crate::kinds::fixed::{FixedKind, finish_or_retry};
use crate::kinds::freeing::free_locks;
use crate::kinds::making::try_change;
use crate::kinds::marks::{earlier_passed, works_on};
use crate::kinds::most::owned_count;
use crate::kinds::ranges::action_of;
use crate::tentatives::Tentative;
use crate::transforms::{Disposition, Transform};
use resource_lock::{Change, Graph, LockId, Mark, MarkId, State, WorkerId};

/// Enters a blocking section: the worker gives back its lease and all its locks, which it parks by
/// rising number, and is blocked then. Where it is for a fetch, the fetch's mark becomes Running. It looks at other locks as
/// `HandBack` does.
///
/// It never fails. Without a fetch it asks to be run again where the worker has no lease or runs a
/// unit. With one it does where the unit isn't a fetch, where the worker doesn't work on its task,
/// where an earlier action or one of its units hasn't passed, where the action or the fetch isn't
/// Waiting, and where the graph has no such unit.
#[derive(Clone, Copy)]
pub struct Block {
    /// The fetch, by its number among the units.
    pub unit: Option<u32>,
}

impl Transform for Block {
    ghost kind_of = { λ t. kinds.Block t.unit };

    ghost most = { λ t g w s. most_of g w s (kinds.Block t.unit) };

    ghost more_locks = { λ _. 0 };

    ghost makes = { λ t. IsFixedList (kinds.Block t.unit) };

    ghost fails_on = { λ t g w s. ⊥ };

    ghost retries_on = { λ t. IsUnmet (kinds.Block t.unit) };

    fn kind(&self) -> Kind {
        Kind::Block(self.unit)
    }

    fn most_changes(&self, graph: &Graph, state: &State, worker: WorkerId) -> u64 {
        3 + 2 * owned_count(graph, state, worker)
    }

    fn more_locks(&self) -> usize {
        0
    }

    fn apply(&self, work: &mut Tentative, own: &[LockId]) -> Disposition {
        finish_or_retry(self, work, own)
    }

    fn waits_for_news(&self) {}
}

impl FixedKind for Block {
    ghost kind_of = { λ t. kinds.Block t.unit };

    fn is_in_range(&self, graph: &Graph) -> bool {
        match self.unit {
            Some(unit) => unit < graph.units(),
            None => true,
        }
    }

    fn condition_holds(&self, graph: &Graph, state: &State, worker: WorkerId) -> bool {
        match self.unit {
            Some(unit) => can_fetch(graph, state, worker, unit),
            None => state.has_lease(worker) && !state.runs_unit(worker),
        }
    }

    fn make(&self, work: &mut Tentative, own: &[LockId]) -> bool {
        match self.unit {
            Some(unit) => begin_fetch(work, unit, own),
            None => set_down(work, own),
        }
    }
}

// Moves a fetch's mark from Waiting to Running, and sets down the lease and the locks. The mark comes first here, and last in Unblock.
fn begin_fetch(work: &mut Tentative, unit: u32, own: &[LockId]) -> bool
    requires belongs { BelongsTo work.old.graph work.old.state }
    requires in_range { unit < work.old.graph.units }
    requires room { 3 + 2 * length (owned work.old.state work.old.worker) ≤ work.old.room }
    ensures { Makes work.old work.new (Change.Move (ids.Unit unit) marks.Waiting (marks.Running work.old.worker)
        ∷ set_down work.old.state work.old.worker) result }
{
    let running = Mark::Running(work.worker());
    if !try_change(
        work,
        Change::Move(MarkId::Unit(unit), Mark::Waiting, running),
    ) {
        return false;
    }
    set_down(work, own)
}

// Gives the lease back, gives back and parks each lock by rising number, and enters.
fn set_down(work: &mut Tentative, own: &[LockId]) -> bool
    requires belongs { BelongsTo work.old.graph work.old.state }
    requires room { 2 + 2 * length (owned work.old.state work.old.worker) ≤ work.old.room }
    ensures { Makes work.old work.new (set_down work.old.state work.old.worker) result }
{
    if !try_change(work, Change::Give) {
        return false;
    }
    if !free_locks(work, own, true) {
        return false;
    }
    try_change(work, Change::Enter)
}

// Whether a unit is a fetch that the worker can run now.
fn can_fetch(graph: &Graph, state: &State, worker: WorkerId, unit: u32) -> bool
    requires fits { Fits graph.now }
    requires belongs { BelongsTo graph.now state.now }
    requires worker_in_range { worker.0 < graph.now.workers }
    requires in_range { unit < graph.now.units }
    ensures { result ≡ condition graph.now state.now worker (kinds.Block (Some unit)) }
{
    can_begin(graph, state, worker, graph.action_with(unit), unit)
}

// Whether a unit is the fetch of an action, and the worker can run it now.
fn can_begin(graph: &Graph, state: &State, worker: WorkerId, action: u32, unit: u32) -> bool
    requires belongs { BelongsTo graph.now state.now }
    requires worker_in_range { worker.0 < graph.now.workers }
    requires action_in_range { action < length graph.now.actions }
    requires in_range { unit < graph.now.units }
    ensures { result ≡ ((action_of graph.now action).fetch && (action_of graph.now action).first_unit == unit
        && works_on state.now worker (task_with graph.now action) && same_mark (mark_of state.now (ids.Action action)) marks.Waiting
        && same_mark (mark_of state.now (ids.Unit unit)) marks.Waiting && earlier_passed graph.now state.now action) }
{
    let found = action_of(graph, action);
    found.fetch
        && found.first_unit == unit
        && works_on(state, worker, found.task)
        && state.mark(MarkId::Action(action)) == Mark::Waiting
        && state.mark(MarkId::Unit(unit)) == Mark::Waiting
        && earlier_passed(graph, state, action)
}
