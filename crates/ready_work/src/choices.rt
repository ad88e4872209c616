//! What can be done with a unit or a task.
ghost use Rattle.std.specs.Prelude.{◌≡◌, ◌↔◌, ◌<◌, IsTrue, None, false, length};
ghost use Rattle.resource_lock.specs.Marks.{has_ended};
ghost use Rattle.resource_lock.specs.StateView.{mark_of, owner_of};
ghost use Rattle.resource_lock.specs.declared.marks.Mark.TheVariants.{Queued, Waiting};
ghost use Rattle.ready_work.specs.Closed.{closed_lock};
ghost use Rattle.resource_lock.specs.declared.marks.MarkId.TheVariants as ids;

use resource_lock::{LockId, Mark, MarkId, State};

/// Whether a unit hasn't ended.
pub(crate) fn is_open(state: &State, unit: u32) -> bool
    requires { unit < length state.now.units }
    ensures { IsTrue result ↔ (has_ended (mark_of state.now (ids.Unit unit)) ≡ false) }
{
    !state.mark(MarkId::Unit(unit)).has_ended()
}

/// Whether a unit is queued.
pub(crate) fn is_queued(state: &State, unit: u32) -> bool
    requires { unit < length state.now.units }
    ensures { IsTrue result ↔ (mark_of state.now (ids.Unit unit) ≡ Queued) }
{
    state.mark(MarkId::Unit(unit)) == Mark::Queued
}

/// Whether a task with this mark can be skipped where so many of those that it comes after failed or were skipped.
pub(crate) fn can_skip(mark: Mark, fallen: u32) -> bool
    ensures { IsTrue result ↔ (mark ≡ Waiting) × (0 < fallen) }
{
    mark == Mark::Waiting && fallen > 0
}

/// Whether a task with this mark can be started where so many of those that it comes after haven't passed.
pub(crate) fn is_startable(mark: Mark, unpassed: u32) -> bool
    ensures { IsTrue result ↔ (mark ≡ Waiting) × (unpassed ≡ 0) }
{
    mark == Mark::Waiting && unpassed == 0
}

/// The all-projects lock, where it can't be taken since somebody owns a lock.
pub(crate) fn closed_lock(state: &State) -> Option<LockId>
    ensures { result ≡ closed_lock state.now }
{
    if state.any_owned() { state.all() } else { None }
}

/// Whether nobody owns a lock.
pub(crate) fn is_free(state: &State, lock: u32) -> bool
    requires { lock < length state.now.owners }
    ensures { IsTrue result ↔ (owner_of state.now (record { 0 = lock }) ≡ None) }
{
    state.owner(LockId(lock)).is_none()
}
