//! Locks and leases, taken where they can be and given back where they are there.
ghost use Rattle.std.specs.Prelude.{◌≡◌, false, if◌then◌else◌};
ghost use Rattle.resource_lock.specs.StateView.{IsWorkerOf, IsLockOf, holding_of, owns, has_parked};
ghost use Rattle.resource_lock.specs.Trying.{can_own, locked, can_lease, leased};
ghost use Rattle.resource_lock.specs.Change.{make};

use super::State;
use crate::changes::Change;
use crate::ids::{LockId, WorkerId};

impl State {
    /// Takes a lock that nobody owns, and answers whether the worker owns it now. Where the worker is
    /// kept from the lock nothing changes. The worker hasn't parked it.
    pub fn try_lock(&mut self, worker: WorkerId, lock: LockId) -> bool
        requires worker_in_range { IsWorkerOf self.old worker }
        requires lock_in_range { IsLockOf self.old lock }
        requires not_parked { has_parked self.old worker lock ≡ false }
        ensures answer { result ≡ can_own self.old worker lock }
        ensures state { self.new ≡ locked self.old worker lock }
    {
        if self.kept_from(worker, lock) {
            return false;
        }
        if self.owner(lock).is_none() {
            self.make(worker, Change::Lock(lock));
        }
        true
    }

    /// Takes a lease where the worker has none and one is left, and answers whether the worker has one
    /// now. Where all are out nothing changes. The worker isn't blocked.
    pub fn try_lease(&mut self, worker: WorkerId) -> bool
        requires worker_in_range { IsWorkerOf self.old worker }
        requires not_blocked { (holding_of self.old worker).blocked ≡ false }
        ensures answer { result ≡ can_lease self.old worker }
        ensures state { self.new ≡ leased self.old worker }
    {
        if self.has_lease(worker) {
            return true;
        }
        if self.out == self.max_leases {
            return false;
        }
        self.make(worker, Change::Take);
        true
    }

    /// Gives a lock back where the worker owns it, and else changes nothing.
    pub fn unlock(&mut self, worker: WorkerId, lock: LockId)
        requires worker_in_range { IsWorkerOf self.old worker }
        requires lock_in_range { IsLockOf self.old lock }
        ensures { self.new ≡ (if owns self.old worker lock then make self.old worker (Change.Unlock lock) else self.old) }
    {
        if self.owns(worker, lock) {
            self.make(worker, Change::Unlock(lock));
        }
    }

    /// Gives the lease back where the worker has one, and else changes nothing.
    pub fn give(&mut self, worker: WorkerId)
        requires { IsWorkerOf self.old worker }
        ensures { self.new ≡ (if (holding_of self.old worker).lease then make self.old worker Change.Give else self.old) }
    {
        if self.has_lease(worker) {
            self.make(worker, Change::Give);
        }
    }
}
