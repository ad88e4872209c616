//! The locks that a worker owns, given back one after another.
ghost use Rattle.std.specs.Prelude.{◌≡◌, ◌≤◌, ◌∷◌, ◌==◌, [], All, count_by, length, true};
ghost use Rattle.std.specs.List.{list_all};
ghost use Rattle.resource_lock.specs.Shape.{BelongsTo};
ghost use Rattle.resource_lock.specs.StateView.{IsLockOf, is_owner, owns};
ghost use Rattle.lock_transforms.specs.Freeing.{freed, if_owned};
ghost use Rattle.lock_transforms.specs.Making.{Makes};
ghost use Rattle.lock_transforms.specs.Table.{owned};
ghost use Rattle.lock_transforms.specs.Taking.{rises};

use crate::kinds::making::try_change;
use crate::kinds::parking::park_lock;
use crate::tentatives::Tentative;
use resource_lock::{Change, LockId};

/// Gives back each lock that the worker owns, by rising number, and parks it then where `parks` says
/// so, up to the first change that can't be made. It answers whether all were made.
///
/// Where `own` are just these locks it looks at no other, and else at each of the graph.
pub(crate) fn free_locks(work: &mut Tentative, own: &[LockId], parks: bool) -> bool
    requires belongs { BelongsTo work.old.graph work.old.state }
    requires room { length (freed parks (owned work.old.state work.old.worker)) ≤ work.old.room }
    ensures { Makes work.old work.new (freed parks (owned work.old.state work.old.worker)) result }
{
    if are_owned(work, own) {
        free_named(work, own, parks)
    } else {
        free_found(work, parks)
    }
}

// Whether these are all locks that the worker owns, by rising number: they rise, it owns each, and it owns no more.
fn are_owned(work: &Tentative, own: &[LockId]) -> bool
    ensures { result ≡ true → own.now ≡ owned work.now.state work.now.worker }
{
    if !are_as_many(work, own) {
        return false;
    }
    if !do_rise(own) {
        return false;
    }
    owns_all(work, own)
}

// Whether the worker owns as many locks as these.
fn are_as_many(work: &Tentative, locks: &[LockId]) -> bool
    ensures { result ≡ (length locks.now == count_by (λ o. is_owner o work.now.worker) work.now.state.owners) }
{
    locks.len() == work.state().lock_count(work.worker())
}

// Whether locks strictly rise.
fn do_rise(locks: &[LockId]) -> bool
    ensures { result ≡ rises 0 locks.now }
{
    let mut low = 0;
    for lock in locks {
        if u64::from(lock.0) < low {
            return false;
        }
        low = u64::from(lock.0) + 1;
    }
    true
}

// Whether the worker owns each of these locks.
fn owns_all(work: &Tentative, locks: &[LockId]) -> bool
    ensures { result ≡ list_all (owns work.now.state work.now.worker) locks.now }
{
    locks.iter().all(|lock| owns(work, *lock))
}

// Whether the worker owns a lock. It owns none that the graph doesn't have.
#[tactic(auto, using(crate::proofs::Named::owns_none))]
fn owns(work: &Tentative, lock: LockId) -> bool
    ensures { result ≡ owns work.now.state work.now.worker lock }
{
    if lock.0 >= work.graph().locks() {
        return false;
    }
    work.state().owner(lock) == Some(work.worker())
}

// Gives back these locks in order, and parks each then where `parks` says so.
fn free_named(work: &mut Tentative, locks: &[LockId], parks: bool) -> bool
    requires in_range { All (IsLockOf work.old.state) locks.now }
    requires room { length (freed parks locks.now) ≤ work.old.room }
    ensures { Makes work.old work.new (freed parks locks.now) result }
{
    for lock in locks {
        if !free_one(work, *lock, parks) {
            return false;
        }
    }
    true
}

// Gives back each lock of the graph that the worker owns, and parks it then where `parks` says so.
fn free_found(work: &mut Tentative, parks: bool) -> bool
    requires belongs { BelongsTo work.old.graph work.old.state }
    requires room { length (freed parks (owned work.old.state work.old.worker)) ≤ work.old.room }
    ensures { Makes work.old work.new (freed parks (owned work.old.state work.old.worker)) result }
{
    for lock in 0..work.graph().locks() {
        if !free_lock(work, LockId(lock), parks) {
            return false;
        }
    }
    true
}

// Gives a lock back where the worker owns it, and parks it then where `parks` says so.
fn free_lock(work: &mut Tentative, lock: LockId, parks: bool) -> bool
    requires in_range { IsLockOf work.old.state lock }
    requires room { length (freed parks (if_owned work.old.state work.old.worker lock)) ≤ work.old.room }
    ensures { Makes work.old work.new (freed parks (if_owned work.old.state work.old.worker lock)) result }
{
    if work.state().owner(lock) != Some(work.worker()) {
        return true;
    }
    free_one(work, lock, parks)
}

// Gives a lock back, and parks it then where `parks` says so.
fn free_one(work: &mut Tentative, lock: LockId, parks: bool) -> bool
    requires in_range { IsLockOf work.old.state lock }
    requires room { length (freed parks (lock ∷ [])) ≤ work.old.room }
    ensures { Makes work.old work.new (freed parks (lock ∷ [])) result }
{
    if parks {
        park_lock(work, lock)
    } else {
        try_change(work, Change::Unlock(lock))
    }
}
