//! Actions that are skipped with their units.
ghost use Rattle.std.specs.Prelude.{◌<◌, ◌≤◌, ◌+◌, ◌∷◌, [], length};
ghost use Rattle.std.specs.List.{range_with_len};
ghost use Rattle.resource_lock.specs.Shape.{BelongsTo};
ghost use Rattle.lock_transforms.specs.Making.{Makes};
ghost use Rattle.lock_transforms.specs.Table.{skipped_action, skipped_actions, skipped_waiting};

use crate::kinds::making::{move_units, try_change};
use crate::kinds::ranges::{NumberRange, units_of};
use crate::tentatives::Tentative;
use resource_lock::{Change, Mark, MarkId};

// Moves an action and its units from Waiting to Skipped, up to the first that can't be moved, and
// answers whether all were.
fn skip_action(work: &mut Tentative, action: u32) -> bool
    requires belongs { BelongsTo work.old.graph work.old.state }
    requires in_range { action < length work.old.graph.actions }
    requires room { length (skipped_action work.old.graph action) ≤ work.old.room }
    ensures { Makes work.old work.new (skipped_action work.old.graph action) result }
{
    let units = units_of(work.graph(), action);
    let skipped = Change::Move(MarkId::Action(action), Mark::Waiting, Mark::Skipped);
    if !try_change(work, skipped) {
        return false;
    }
    move_units(work, units, Mark::Waiting, Mark::Skipped)
}

/// Skips actions and their units in order, up to the first mark that can't be moved, and answers
/// whether all were.
pub(crate) fn skip_actions(work: &mut Tentative, actions: NumberRange) -> bool
    requires belongs { BelongsTo work.old.graph work.old.state }
    requires in_range { actions.first + actions.count ≤ length work.old.graph.actions }
    requires room { length (skipped_actions work.old.graph (range_with_len actions.first actions.count)) ≤ work.old.room }
    ensures { Makes work.old work.new (skipped_actions work.old.graph (range_with_len actions.first actions.count)) result }
{
    for action in actions.first..actions.first + actions.count {
        if !skip_action(work, action) {
            return false;
        }
    }
    true
}

// Skips an action and its units where the action is Waiting, and answers whether all were.
fn skip_if_waiting(work: &mut Tentative, action: u32) -> bool
    requires belongs { BelongsTo work.old.graph work.old.state }
    requires in_range { action < length work.old.graph.actions }
    requires room { length (skipped_waiting work.old.graph work.old.state (action ∷ [])) ≤ work.old.room }
    ensures { Makes work.old work.new (skipped_waiting work.old.graph work.old.state (action ∷ [])) result }
{
    if work.state().mark(MarkId::Action(action)) != Mark::Waiting {
        return true;
    }
    skip_action(work, action)
}

/// Skips those of the actions that are Waiting, and their units, in order, up to the first mark
/// that can't be moved, and answers whether all were.
pub(crate) fn skip_waiting(work: &mut Tentative, actions: NumberRange) -> bool
    requires belongs { BelongsTo work.old.graph work.old.state }
    requires in_range { actions.first + actions.count ≤ length work.old.graph.actions }
    requires room { length (skipped_waiting work.old.graph work.old.state (range_with_len actions.first actions.count)) ≤ work.old.room }
    ensures { Makes work.old work.new (skipped_waiting work.old.graph work.old.state (range_with_len actions.first actions.count)) result }
{
    for action in actions.first..actions.first + actions.count {
        if !skip_if_waiting(work, action) {
            return false;
        }
    }
    true
}
