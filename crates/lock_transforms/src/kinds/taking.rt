//! Locks and a lease, taken one after another.
ghost use Rattle.std.specs.Prelude.{◌≡◌, ◌<◌, ◌≤◌, ◌+◌, All, true, false, length};
ghost use Rattle.resource_lock.specs.StateView.{IsLockOf, holding_of, has_parked, owns};
ghost use Rattle.lock_transforms.specs.Making.{Makes};
ghost use Rattle.lock_transforms.specs.Taking.{all_taken, can_take_all};

use crate::tentatives::Tentative;
use resource_lock::LockId;

/// Takes locks in order, each where the worker doesn't own it yet, and then a lease, where it has
/// none. It takes no memory.
///
/// It answers whether all could be taken: false exactly where the worker is kept from one of the locks,
/// or it has no lease and as many as may be are out. Exactly what comes before the first that
/// couldn't be taken is then taken.
pub fn take_all(work: &mut Tentative, locks: &[LockId]) -> bool
    requires in_range { All (IsLockOf work.old.state) locks.now }
    requires not_parked { All (λ l. has_parked work.old.state work.old.worker l ≡ false) locks.now }
    requires not_blocked { (holding_of work.old.state work.old.worker).blocked ≡ false }
    requires room { length locks.now + 1 ≤ work.old.room }
    ensures answer { result ≡ can_take_all work.old.state work.old.worker locks.now }
    // It has all of them then.
    ensures locks { result ≡ true → All (λ l. owns work.new.state work.new.worker l ≡ true) locks.now }
    ensures lease { result ≡ true → (holding_of work.new.state work.new.worker).lease ≡ true }
    ensures taken { Makes work.old work.new (all_taken work.old.state work.old.worker locks.now) result }
{
    // The state is a good one, so nobody is kept from a lock of its own.
    let _ = work.state();
    for lock in locks {
        if !work.lock(*lock) {
            return false;
        }
    }
    work.lease()
}
