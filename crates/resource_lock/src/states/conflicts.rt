//! Locks that conflict: who is kept from which. Nothing here looks through the locks.
#![tactic(auto, using(crate::proofs::lemmas::Counted::any_counted))]

ghost use Rattle.std.specs.Prelude.{◌≡◌};
ghost use Rattle.std.specs.List.{list_any};
ghost use Rattle.resource_lock.specs.StateView.{IsLockOf, all_owner, is_all, is_other, is_owned, kept_from, owner_of};

use super::State;
use crate::ids::{LockId, WorkerId};

impl State {
    /// The all-projects lock, if there is one.
    pub fn all(&self) -> Option<LockId>
        ensures { result ≡ self.now.all }
    {
        self.all
    }

    /// Whether another worker owns a lock that conflicts with this one. Two locks conflict where they
    /// are the same or one of them is the all-projects lock.
    pub fn kept_from(&self, worker: WorkerId, lock: LockId) -> bool
        requires { IsLockOf self.now lock }
        ensures { result ≡ kept_from self.now worker lock }
    {
        is_other(self.owner(lock), worker)
            || is_other(self.all_owner(), worker)
            || (self.is_all(lock) && self.others_own(worker))
    }

    /// The worker that owns the all-projects lock, or none.
    pub fn all_owner(&self) -> Option<WorkerId>
        ensures { result ≡ all_owner self.now }
    {
        match self.all {
            Some(all) => self.owner_if_there(all),
            None => None,
        }
    }

    /// Whether somebody owns a lock.
    pub fn any_owned(&self) -> bool
        ensures { result ≡ list_any is_owned self.now.owners }
    {
        self.owned > 0
    }

    /// Whether a lock is the all-projects lock.
    pub fn is_all(&self, lock: LockId) -> bool
        ensures { result ≡ is_all self.now lock }
    {
        match self.all {
            Some(all) => all.0 == lock.0,
            None => false,
        }
    }

    // The worker that owns a lock, or none. A number of no lock has no owner.
    fn owner_if_there(&self, lock: LockId) -> Option<WorkerId>
        ensures { result ≡ owner_of self.now lock }
    {
        match self.owners.get(lock.0 as usize) {
            Some(owner) => *owner,
            None => None,
        }
    }

    // Whether another worker owns a lock: more locks are owned than this worker owns.
    fn others_own(&self, worker: WorkerId) -> bool
        ensures { result ≡ list_any (λ o. is_other o worker) self.now.owners }
    {
        self.owned > self.counts(worker).locks
    }
}

// Whether an owner is another worker.
fn is_other(owner: Option<WorkerId>, worker: WorkerId) -> bool
    ensures { result ≡ is_other owner worker }
{
    match owner {
        Some(owner) => owner.0 != worker.0,
        None => false,
    }
}
