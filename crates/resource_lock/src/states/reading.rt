//! Who owns what, who has what, and how far each task, action and unit has come.
ghost use Rattle.std.specs.Prelude.{◌≡◌};
ghost use Rattle.resource_lock.specs.Good.{Good};
ghost use Rattle.resource_lock.specs.StateView.{IsWorkerOf, IsLockOf, IsMarkOf, owner_of, holding_of, leases_out, mark_of, owns, is_owner, stands_in};
ghost use Rattle.resource_lock.specs.StateView.{has_parked};

use super::State;
use crate::ids::{LockId, WorkerId};
use crate::marks::{Mark, MarkId};

impl State {
    /// The worker that owns a lock, or none.
    pub fn owner(&self, lock: LockId) -> Option<WorkerId>
        requires { IsLockOf self.now lock }
        ensures { result ≡ owner_of self.now lock }
    {
        self.owners[lock.0 as usize]
    }

    /// Whether a worker has a lease.
    pub fn has_lease(&self, worker: WorkerId) -> bool
        requires { IsWorkerOf self.now worker }
        ensures { result ≡ (holding_of self.now worker).lease }
    {
        self.held[worker.0 as usize].lease
    }

    /// How many leases are out, which is never more than the graph's maximum.
    pub fn leases_out(&self) -> u32
        ensures out { result ≡ leases_out self.now }
        // Every state that is reached is good.
        ensures good { Good self.now }
    {
        self.out
    }

    /// The locks that a worker has parked, each once, the last parked last.
    pub fn parked(&self, worker: WorkerId) -> &[LockId]
        requires { IsWorkerOf self.now worker }
        ensures { result.now ≡ (holding_of self.now worker).parked }
    {
        &self.held[worker.0 as usize].parked
    }

    /// Whether a worker has parked a lock.
    pub fn has_parked(&self, worker: WorkerId, lock: LockId) -> bool
        requires { IsWorkerOf self.now worker }
        ensures { result ≡ has_parked self.now worker lock }
    {
        stands_in(lock, self.parked(worker))
    }

    /// Whether a worker is blocked.
    pub fn blocked(&self, worker: WorkerId) -> bool
        requires { IsWorkerOf self.now worker }
        ensures { result ≡ (holding_of self.now worker).blocked }
    {
        self.held[worker.0 as usize].blocked
    }

    /// The mark of a task, an action or a unit.
    pub fn mark(&self, id: MarkId) -> Mark
        requires { IsMarkOf self.now id }
        ensures { result ≡ mark_of self.now id }
    {
        match id {
            MarkId::Task(task) => self.marks.tasks[task as usize],
            MarkId::Action(action) => self.marks.actions[action as usize],
            MarkId::Unit(unit) => self.marks.units[unit as usize],
        }
    }

    /// Whether a worker owns a lock.
    pub(super) fn owns(&self, worker: WorkerId, lock: LockId) -> bool
        requires { IsLockOf self.now lock }
        ensures { result ≡ owns self.now worker lock }
    {
        is_owner(self.owner(lock), worker)
    }
}

// Whether an owner is this worker.
fn is_owner(owner: Option<WorkerId>, worker: WorkerId) -> bool
    ensures { result ≡ is_owner owner worker }
{
    match owner {
        Some(owner) => owner.0 == worker.0,
        None => false,
    }
}

// Whether a lock stands in a list.
fn stands_in(lock: LockId, locks: &[LockId]) -> bool
    ensures { result ≡ stands_in lock locks.now }
{
    locks.iter().any(|each| each.0 == lock.0)
}
