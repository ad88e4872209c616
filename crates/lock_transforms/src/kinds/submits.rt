//! Queueing the items of an action.
ghost use Rattle.std.specs.Prelude.{◌≡◌, ◌<◌, length};
ghost use Rattle.resource_lock.specs.Shape.{BelongsTo};
ghost use Rattle.lock_transforms.specs.Allowed.{IsDisabled, IsFixedList};
ghost use Rattle.lock_transforms.specs.MostChanges.{most_of};
ghost use Rattle.lock_transforms.specs.Table.{fetch_closed, is_enabled};
ghost use Rattle.lock_transforms.specs.declared.entries.Kind.TheVariants as kinds;

use crate::entries::Kind;
use crate::kinds::fixed::{FixedKind, finish_or_retry};
use crate::kinds::making::{move_units, try_change};
use crate::kinds::marks::{earlier_passed, works_on};
use crate::kinds::most::item_count;
use crate::kinds::ranges::{action_of, items_of};
use crate::tentatives::Tentative;
use crate::transforms::{Disposition, Transform};
use resource_lock::{Change, Graph, LockId, Mark, MarkId, State, WorkerId};

/// Queues the items of an action whose task the worker works on, after all that comes before it in
/// the task has passed.
///
/// It never fails. It asks to be run again where the worker doesn't work on the task, where an
/// earlier action or one of its units hasn't passed, where the action's fetch hasn't ended, where
/// the action or one of its items isn't Waiting, and where the graph has no such action.
#[derive(Clone, Copy)]
pub struct Submit {
    /// The action's number.
    pub action: u32,
}

impl Transform for Submit {
    ghost kind_of = { λ t. kinds.Submit t.action };

    ghost most = { λ t g w s. most_of g w s (kinds.Submit t.action) };

    ghost more_locks = { λ _. 0 };

    ghost makes = { λ t. IsFixedList (kinds.Submit t.action) };

    ghost fails_on = { λ t g w s. ⊥ };

    ghost retries_on = { λ t. IsDisabled (kinds.Submit t.action) };

    fn kind(&self) -> Kind {
        Kind::Submit(self.action)
    }

    fn most_changes(&self, graph: &Graph, _state: &State, _worker: WorkerId) -> u64 {
        1 + item_count(graph, self.action)
    }

    fn more_locks(&self) -> usize {
        0
    }

    fn apply(&self, work: &mut Tentative, own: &[LockId]) -> Disposition {
        finish_or_retry(self, work, own)
    }

    fn waits_for_news(&self) {}
}

impl FixedKind for Submit {
    ghost kind_of = { λ t. kinds.Submit t.action };

    fn is_in_range(&self, graph: &Graph) -> bool {
        (self.action as usize) < graph.actions().len()
    }

    fn condition_holds(&self, graph: &Graph, state: &State, worker: WorkerId) -> bool {
        works_on(state, worker, action_of(graph, self.action).task)
            && state.mark(MarkId::Action(self.action)) == Mark::Waiting
            && earlier_passed(graph, state, self.action)
            && fetch_closed(graph, state, self.action)
    }

    fn make(&self, work: &mut Tentative, _own: &[LockId]) -> bool {
        let items = items_of(work.graph(), self.action);
        let queued = Change::Move(MarkId::Action(self.action), Mark::Waiting, Mark::Queued);
        if !try_change(work, queued) {
            return false;
        }
        move_units(work, items, Mark::Waiting, Mark::Queued)
    }
}

// Whether an action has no fetch, or one that has passed or failed.
fn fetch_closed(graph: &Graph, state: &State, action: u32) -> bool
    requires belongs { BelongsTo graph.now state.now }
    requires in_range { action < length graph.now.actions }
    ensures { result ≡ fetch_closed graph.now state.now action }
{
    let action = action_of(graph, action);
    if !action.fetch {
        return true;
    }
    matches!(
        state.mark(MarkId::Unit(action.first_unit)),
        Mark::Passed | Mark::Failed
    )
}
