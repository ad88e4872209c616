//! Uses of shared services, where the locks of a service are those that its maxima say.
ghost use Rattle.std.specs.Prelude.{◌≡◌, ◌&&◌, ◌↔◌, IfOk, IsTrue, false, true};
ghost use Rattle.worker_choices.specs.GoingOn.{last_lets_go_on};
ghost use Rattle.lock_transforms.specs.declared.kinds.acquires.Shortage.TheVariants as shortages;
ghost use Rattle.shared_services.specs.Services.{FitMaxima};
ghost use Rattle.shared_services.specs.Takings.{HasTheLocks};
ghost use Rattle.wakhurmi_c.specs.Leaves.{is_entry};
ghost use Rattle.wakhurmi_c.specs.Numbers.{answer_of};
ghost use Rattle.wakhurmi_c.specs.Uses.{TakeUsesLeaves, may_take_uses};
ghost use Rattle.wakhurmi_c.specs.declared.answers.Answer.TheVariants as answers;

use crate::answers::{Answer, Outcome, Told};
use crate::handles::Handle;
use crate::tries::try_once;
use crate::workers::Worker;
use coordination::Pass;
use lock_transforms::kinds::Shortage;
use shared_services::{ServiceTable, TakeUses};
use std::alloc::{AllocError, Global};

impl Worker {
    /// Takes a lease and one use of each of these services, whose maxima are given.
    fn take_uses(
        &mut self,
        alloc: Global,
        maxima: &[u32],
        asked: &[u32],
        shortage: Shortage,
    ) -> Outcome
        ensures left { TakeUsesLeaves shortage maxima.now asked.now self.old.pass.sight self.new.pass.sight result.answer }
        ensures wakes { result.wakes ≡ (is_entry result.answer && last_lets_go_on self.new.pass.sight.seen.history) }
    {
        if !may_take_uses(&self.pass) {
            return Outcome::without_entry(Answer::Misused);
        }
        if !ServiceTable::fits(maxima) {
            return Outcome::without_entry(Answer::BadNumber);
        }
        let Ok(table) = table_of(alloc, maxima) else {
            return Outcome::without_entry(Answer::NoMemory);
        };
        if !self.has_the_locks(&table) || !table.are_services(asked) {
            return Outcome::without_entry(Answer::BadNumber);
        }
        let take = TakeUses {
            table: &table,
            asked,
            shortage,
        };
        try_once(&self.service, &mut self.pass, &mut self.sleepers, &take)
    }

    /// Whether the locks are those of these services.
    fn has_the_locks(&self, table: &ServiceTable) -> bool
        ensures { IsTrue result ↔ HasTheLocks table.now self.now.pass.sight.seen.graph }
    {
        self.locks == table.locks() && self.all.is_none()
    }
}

/// The services with these maxima.
fn table_of(alloc: Global, maxima: &[u32]) -> Result<ServiceTable, AllocError>
    requires { FitMaxima maxima.now }
    ensures { IfOk result (λ table. table ≡ maxima.now) }
{
    let mut all = Vec::with_capacity(alloc, maxima.len())?;
    all.extend_from_slice(maxima)?;
    Ok(ServiceTable::new(all))
}

/// Whether a worker is in no blocking section, has parked nothing, and has no lease.
fn may_take_uses(pass: &Pass) -> bool
    ensures { result ≡ may_take_uses pass.now.sight }
{
    !pass.blocked() && pass.parked().is_empty() && !pass.has_lease()
}

/// Takes a lease and one use of each of these services, in one entry: the lowest lock without owner of each. `maxima` are those of all services, in
/// order, of which a service has as many locks as its maximum says. Where it can't have all of them it answers `Busy` without an entry, and `Stopped`
/// where the service has been stopped.
///
/// `BadNumber` says that the maxima don't fit or aren't those of the service's locks, or that the numbers of services don't strictly rise or
/// aren't in range. `Misused` says that the worker has a lease or is in a blocking section.
#[unsafe(no_mangle)]
pub extern "C" fn wakhurmi_c_take_uses(
    alloc: Global,
    handle: &mut Handle,
    maxima: &[u32],
    services: &[u32],
) -> Told
    ensures full { handle.new.full ≡ handle.old.full }
    ensures empty { handle.old.full ≡ false → answer_of result.answer ≡ answers.Empty }
    ensures left { handle.old.full ≡ true → TakeUsesLeaves shortages.Waits maxima.now services.now handle.old.held.worker.pass.sight
        handle.new.held.worker.pass.sight (answer_of result.answer) }
    ensures wakes { handle.old.full ≡ true
        → result.wakes ≡ (is_entry (answer_of result.answer) && last_lets_go_on handle.new.held.worker.pass.sight.seen.history) }
{
    if !handle.full {
        return Outcome::without_entry(Answer::Empty).told();
    }
    let mut worker = handle.take(alloc);
    let outcome = worker.take_uses(alloc, maxima, services, Shortage::Waits);
    *handle = Handle::of(worker);
    outcome.told()
}

/// Takes what `wakhurmi_c_take_uses` takes. Where it can't have all of it it answers `Refused`, with a failed entry.
#[unsafe(no_mangle)]
pub extern "C" fn wakhurmi_c_try_take_uses(
    alloc: Global,
    handle: &mut Handle,
    maxima: &[u32],
    services: &[u32],
) -> Told
    ensures full { handle.new.full ≡ handle.old.full }
    ensures empty { handle.old.full ≡ false → answer_of result.answer ≡ answers.Empty }
    ensures left { handle.old.full ≡ true → TakeUsesLeaves shortages.Fails maxima.now services.now handle.old.held.worker.pass.sight
        handle.new.held.worker.pass.sight (answer_of result.answer) }
    ensures wakes { handle.old.full ≡ true
        → result.wakes ≡ (is_entry (answer_of result.answer) && last_lets_go_on handle.new.held.worker.pass.sight.seen.history) }
{
    if !handle.full {
        return Outcome::without_entry(Answer::Empty).told();
    }
    let mut worker = handle.take(alloc);
    let outcome = worker.take_uses(alloc, maxima, services, Shortage::Fails);
    *handle = Handle::of(worker);
    outcome.told()
}
