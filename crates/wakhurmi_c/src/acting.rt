//! What a worker does. Each call is tried once.
ghost use Rattle.std.specs.Prelude.{◌≡◌, ◌&&◌, IfNone, IfSome, None, Some, slice_get};
ghost use Rattle.resource_lock.specs.StateView.{leases_out};
ghost use Rattle.worker_choices.specs.GoingOn.{last_lets_go_on};
ghost use Rattle.coordination.specs.Calls.{HasStopped, IsAnswered};
ghost use Rattle.coordination.specs.Shown.{parked_shown};
ghost use Rattle.wakhurmi_c.specs.Leaves.{is_entry};
ghost use Rattle.wakhurmi_c.specs.Calls.{TakeLeaves, HandBackLeaves, EnterLeaves, LeaveLeaves};
ghost use Rattle.wakhurmi_c.specs.Locks.{locks_of};
ghost use Rattle.wakhurmi_c.specs.Places.{may_hand_back, may_take};

use crate::answers::{Answer, Outcome};
use crate::asking::{are_in_order, ask_for};
use crate::questions::LeasesOut;
use crate::tries::try_once;
use crate::workers::Worker;
use coordination::Pass;
use lock_transforms::kinds::{Acquire, Block, HandBack, Shortage, Unblock};

impl Worker {
    /// Takes a lease, where the worker has none, and those of these locks that it doesn't own.
    pub(crate) fn acquire(&mut self, locks: &[u32], shortage: Shortage) -> Outcome
        ensures left { TakeLeaves shortage (locks_of locks.now) self.old.pass.sight self.new.pass.sight result.answer }
        ensures wakes { result.wakes ≡ (is_entry result.answer && last_lets_go_on self.new.pass.sight.seen.history) }
    {
        if !may_take(&self.pass) {
            return Outcome::without_entry(Answer::Misused);
        }
        if !are_in_order(locks, self.locks) {
            return Outcome::without_entry(Answer::BadNumber);
        }
        if ask_for(&mut self.asked, locks).is_err() {
            return Outcome::without_entry(Answer::NoMemory);
        }
        let acquire = Acquire {
            locks: &self.asked,
            shortage,
        };
        try_once(&self.service, &mut self.pass, &mut self.sleepers, &acquire)
    }

    /// Hands back the lease and all locks of the worker. Others never keep it from that.
    pub(crate) fn hand_back(&mut self) -> Outcome
        ensures left { HandBackLeaves self.old.pass.sight self.new.pass.sight result.answer }
        ensures wakes { result.wakes ≡ (is_entry result.answer && last_lets_go_on self.new.pass.sight.seen.history) }
    {
        if !may_hand_back(&self.pass) {
            return Outcome::without_entry(Answer::Misused);
        }
        try_once(&self.service, &mut self.pass, &mut self.sleepers, &HandBack)
    }

    /// Enters a blocking section: gives the lease and all locks back, which the worker takes again when it leaves. Others never
    /// keep it from that.
    pub(crate) fn enter(&mut self) -> Outcome
        ensures left { EnterLeaves self.old.pass.sight self.new.pass.sight result.answer }
        ensures wakes { result.wakes ≡ (is_entry result.answer && last_lets_go_on self.new.pass.sight.seen.history) }
    {
        if !self.pass.has_lease() {
            return Outcome::without_entry(Answer::Misused);
        }
        try_once(
            &self.service,
            &mut self.pass,
            &mut self.sleepers,
            &Block { unit: None },
        )
    }

    /// Leaves a blocking section, with the locks that the worker had and a lease.
    pub(crate) fn leave(&mut self) -> Outcome
        ensures left { LeaveLeaves self.old.pass.sight self.new.pass.sight result.answer }
        ensures wakes { result.wakes ≡ (is_entry result.answer && last_lets_go_on self.new.pass.sight.seen.history) }
    {
        if !self.pass.blocked() {
            return Outcome::without_entry(Answer::Misused);
        }
        try_once(
            &self.service,
            &mut self.pass,
            &mut self.sleepers,
            &Unblock { closed: None },
        )
    }

    /// Stops the service, or hears who has stopped it before.
    pub(crate) fn stop(&mut self)
        ensures { HasStopped self.old.pass.sight self.new.pass.sight }
    {
        self.service.stop(&mut self.pass);
    }

    /// How many leases are out. None says that another worker was inside.
    pub(crate) fn leases_out(&mut self) -> Option<u32>
        ensures some { IfSome result (λ n. IsAnswered (λ w book m. m ≡ leases_out book.state) n self.old.pass.sight self.new.pass.sight) }
        ensures none { IfNone result (self.new.pass.sight ≡ self.old.pass.sight) }
    {
        let (leases, _) = self
            .service
            .attempt_ask(&mut self.pass, &LeasesOut, &mut self.sleepers)?;
        leases
    }

    /// The number of the lock at this place among those that the worker has parked. None says that it has parked no more.
    pub(crate) fn parked(&self, place: usize) -> Option<u32>
        ensures some { IfSome result (λ n. slice_get (parked_shown self.now.pass.sight) place ≡ Some (record { 0 = n })) }
        ensures none { IfNone result (slice_get (parked_shown self.now.pass.sight) place ≡ None) }
    {
        match self.pass.parked().get(place) {
            Some(lock) => Some(lock.0),
            None => None,
        }
    }
}

// Whether a worker is in no blocking section, and has parked nothing.
fn may_take(pass: &Pass) -> bool
    ensures { result ≡ may_take pass.now.sight }
{
    !pass.blocked() && pass.parked().is_empty()
}

// Whether a worker is in no blocking section, and has a lease or a lock.
fn may_hand_back(pass: &Pass) -> bool
    ensures { result ≡ may_hand_back pass.now.sight }
{
    !pass.blocked() && (pass.has_lease() || !pass.locks().is_empty())
}
