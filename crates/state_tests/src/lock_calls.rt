//! Calls about the locks and leases of a state, one after another.
ghost use Rattle.std.specs.Prelude.{◌≡◌, false, length};
ghost use Rattle.resource_lock.specs.StateView.{IsLockOf, IsWorkerOf, has_parked};

use resource_lock::{LockId, State, WorkerId};

/// What a worker asks of a state, and what comes of it.
#[derive(Clone, Copy)]
pub enum Call {
    /// It tries for a lock, and owns it then or doesn't.
    TryLock(LockId, bool),
    /// It gives a lock back where it owns it.
    Unlock(LockId),
    /// Whether it is kept from a lock.
    IsKept(LockId, bool),
    /// It tries for a lease, and has one then or doesn't, and so many are out.
    TryLease(bool, u32),
    /// It gives its lease back.
    GiveLease,
}

// Tries for a lock that the worker hasn't parked, and tells whether it owns it then.
fn try_for(state: &mut State, worker: WorkerId, lock: LockId) -> bool
    requires worker { IsWorkerOf state.old worker }
    requires lock { IsLockOf state.old lock }
    requires not_parked { has_parked state.old worker lock ≡ false }
    ensures locks { length state.new.owners ≡ length state.old.owners }
    ensures workers { length state.new.holdings ≡ length state.old.holdings }
{
    state.try_lock(worker, lock)
}

// Gives a lock back where the worker owns it.
fn give_back(state: &mut State, worker: WorkerId, lock: LockId)
    requires worker { IsWorkerOf state.old worker }
    requires lock { IsLockOf state.old lock }
    ensures locks { length state.new.owners ≡ length state.old.owners }
    ensures workers { length state.new.holdings ≡ length state.old.holdings }
{
    state.unlock(worker, lock);
}

// Tries for a lease, and tells whether the worker has one then.
fn try_for_lease(state: &mut State, worker: WorkerId) -> bool
    requires { IsWorkerOf state.old worker }
    ensures locks { length state.new.owners ≡ length state.old.owners }
    ensures workers { length state.new.holdings ≡ length state.old.holdings }
{
    !state.blocked(worker) && state.try_lease(worker)
}

// Gives a lease back where the worker has one.
fn give_lease(state: &mut State, worker: WorkerId)
    requires { IsWorkerOf state.old worker }
    ensures locks { length state.new.owners ≡ length state.old.owners }
    ensures workers { length state.new.holdings ≡ length state.old.holdings }
{
    state.give(worker);
}

// Whether a call about a lock goes as it has to.
fn lock_goes(state: &mut State, worker: WorkerId, lock: LockId, call: Call) -> bool
    requires worker { IsWorkerOf state.old worker }
    requires lock { IsLockOf state.old lock }
    ensures locks { length state.new.owners ≡ length state.old.owners }
    ensures workers { length state.new.holdings ≡ length state.old.holdings }
{
    if state.has_parked(worker, lock) {
        return false;
    }
    match call {
        Call::TryLock(_, is_got) => {
            let got = try_for(state, worker, lock);
            got == is_got && (state.owner(lock) == Some(worker)) == is_got
        }
        Call::IsKept(_, is_kept) => state.kept_from(worker, lock) == is_kept,
        _ => {
            give_back(state, worker, lock);
            state.owner(lock) != Some(worker)
        }
    }
}

// Whether a call goes as it has to.
fn goes(state: &mut State, worker: WorkerId, locks: u32, call: Call) -> bool
    requires worker { IsWorkerOf state.old worker }
    requires locks { length state.old.owners ≡ locks }
    ensures locks { length state.new.owners ≡ length state.old.owners }
    ensures workers { length state.new.holdings ≡ length state.old.holdings }
{
    match call {
        Call::TryLock(lock, _) | Call::Unlock(lock) | Call::IsKept(lock, _) => {
            lock.0 < locks && lock_goes(state, worker, lock, call)
        }
        Call::TryLease(is_got, out) => {
            let got = try_for_lease(state, worker);
            got == is_got && state.has_lease(worker) == is_got && state.leases_out() == out
        }
        Call::GiveLease => {
            give_lease(state, worker);
            !state.has_lease(worker)
        }
    }
}

/// Whether all calls go as they have to, by workers and on locks of a state that has so many.
pub fn all_go(state: &mut State, workers: u32, locks: u32, calls: &[(u32, Call)]) -> bool
    requires workers { length state.old.holdings ≡ workers }
    requires locks { length state.old.owners ≡ locks }
    ensures workers { length state.new.holdings ≡ workers }
    ensures locks { length state.new.owners ≡ locks }
{
    for (worker, call) in calls {
        if *worker >= workers || !goes(state, WorkerId(*worker), locks, *call) {
            return false;
        }
    }
    true
}
