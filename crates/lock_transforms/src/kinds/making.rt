//! Lists of changes that are made as far as each of them can be.
ghost use Rattle.std.specs.Prelude.{◌<◌, ◌≤◌, ◌+◌, ◌∷◌, [], length};
ghost use Rattle.std.specs.List.{AllByRecursion, range_with_len};
ghost use Rattle.resource_lock.specs.Change.{NamesOnly};
ghost use Rattle.lock_transforms.specs.Making.{Makes};
ghost use Rattle.lock_transforms.specs.Table.{moved_units};

use crate::kinds::ranges::NumberRange;
use crate::tentatives::Tentative;
use resource_lock::{Change, Mark, MarkId};

/// Makes a change where it can be made, and answers whether it was.
#[inline(always)]
pub(crate) fn try_change(work: &mut Tentative, change: Change) -> bool
    requires named { NamesOnly work.old.state change }
    requires room { 0 < work.old.room }
    ensures { Makes work.old work.new (change ∷ []) result }
{
    if !work.state().can(work.worker(), change) {
        return false;
    }
    work.change(change);
    true
}

/// Makes changes in order, up to the first that can't be made, and answers whether all were.
pub(crate) fn try_changes(work: &mut Tentative, changes: &[Change]) -> bool
    requires named { AllByRecursion (NamesOnly work.old.state) changes.now }
    requires room { length changes.now ≤ work.old.room }
    ensures { Makes work.old work.new changes.now result }
{
    for change in changes {
        if !try_change(work, *change) {
            return false;
        }
    }
    true
}

/// Moves the marks of units in order, up to the first that can't be moved, and answers whether all
/// were.
pub(crate) fn move_units(work: &mut Tentative, units: NumberRange, from: Mark, to: Mark) -> bool
    requires in_range { units.first + units.count ≤ length work.old.state.units }
    requires room { units.count ≤ work.old.room }
    ensures { Makes work.old work.new (moved_units (range_with_len units.first units.count) from to) result }
{
    for unit in units.first..units.first + units.count {
        if !try_change(work, Change::Move(MarkId::Unit(unit), from, to)) {
            return false;
        }
    }
    true
}
