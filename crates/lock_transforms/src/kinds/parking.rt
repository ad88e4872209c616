//! A lock that is given back and parked, or taken again.
ghost use Rattle.std.specs.Prelude.{◌≤◌, ◌∷◌, []};
ghost use Rattle.resource_lock.specs.StateView.{IsLockOf};
ghost use Rattle.lock_transforms.specs.Making.{Makes};

use crate::kinds::making::try_change;
use crate::tentatives::Tentative;
use resource_lock::{Change, LockId};

/// Gives a lock back and parks it, and answers whether both could be done.
pub(crate) fn park_lock(work: &mut Tentative, lock: LockId) -> bool
    requires in_range { IsLockOf work.old.state lock }
    requires room { 2 ≤ work.old.room }
    ensures { Makes work.old work.new (Change.Unlock lock ∷ Change.Park lock ∷ []) result }
{
    try_change(work, Change::Unlock(lock)) && try_change(work, Change::Park(lock))
}

/// Takes the lock that was parked last off the parked list, and takes it again. It answers whether both could be done.
pub(crate) fn unpark_lock(work: &mut Tentative, lock: LockId) -> bool
    requires in_range { IsLockOf work.old.state lock }
    requires room { 2 ≤ work.old.room }
    ensures { Makes work.old work.new (Change.Unpark lock ∷ Change.Lock lock ∷ []) result }
{
    try_change(work, Change::Unpark(lock)) && try_change(work, Change::Lock(lock))
}
