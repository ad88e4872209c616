//! What a worker owns and runs, by its counts.
#![tactic(auto, using(crate::proofs::lemmas::Counted::any_counted))]

ghost use Rattle.std.specs.Prelude.{◌≡◌, count_by};
ghost use Rattle.resource_lock.specs.Counting.{counts_of};
ghost use Rattle.resource_lock.specs.StateView.{IsWorkerOf, is_owner, runs_task, runs_unit, is_parked, runs_any, owns_any, is_idle};

use super::State;
use super::held::Counts;
use crate::ids::WorkerId;

impl State {
    /// How many locks a worker owns.
    pub fn lock_count(&self, worker: WorkerId) -> usize
        ensures { result ≡ count_by (λ o. is_owner o worker) self.now.owners }
    {
        self.counts(worker).locks
    }

    /// Whether a worker owns a lock.
    pub fn owns_any(&self, worker: WorkerId) -> bool
        ensures { result ≡ owns_any self.now worker }
    {
        self.counts(worker).locks > 0
    }

    /// Whether a task's mark is Running by a worker. This and the other questions here take constant
    /// time.
    pub fn runs_task(&self, worker: WorkerId) -> bool
        ensures { result ≡ runs_task self.now worker }
    {
        self.counts(worker).tasks > 0
    }

    /// Whether a worker waits for an action's items: an action's mark is Running by it.
    pub fn is_parked(&self, worker: WorkerId) -> bool
        ensures { result ≡ is_parked self.now worker }
    {
        self.counts(worker).actions > 0
    }

    /// Whether a unit's mark is Running by a worker.
    pub fn runs_unit(&self, worker: WorkerId) -> bool
        ensures { result ≡ runs_unit self.now worker }
    {
        self.counts(worker).units > 0
    }

    /// Whether any mark is Running by a worker.
    pub fn runs_any(&self, worker: WorkerId) -> bool
        ensures { result ≡ runs_any self.now worker }
    {
        self.runs_task(worker) || self.is_parked(worker) || self.runs_unit(worker)
    }

    /// Whether a worker isn't blocked, has no lease, owns no lock and runs nothing.
    pub fn is_idle(&self, worker: WorkerId) -> bool
        requires { IsWorkerOf self.now worker }
        ensures { result ≡ is_idle self.now worker }
    {
        !self.blocked(worker)
            && !self.has_lease(worker)
            && !self.owns_any(worker)
            && !self.runs_any(worker)
    }

    /// What a worker has, counted. A number of no worker has nothing.
    pub(super) fn counts(&self, worker: WorkerId) -> Counts
        ensures { result ≡ counts_of self.now worker }
    {
        match self.held.get(worker.0 as usize) {
            Some(held) => held.counts,
            None => Counts::NONE,
        }
    }
}
