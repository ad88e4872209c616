//! Taking leases and locks, and handing them back.
ghost use Rattle.std.specs.Prelude.{◌≡◌, ◌≢◌, ◌⊎◌, [], Err, Ok, OnErr, OnOk, true, false};
ghost use Rattle.resource_lock.specs.declared.ids.WorkerId.{WorkerId};
ghost use Rattle.lock_transforms.specs.Allowed.{IsFixedList};
ghost use Rattle.lock_transforms.specs.Taking.{acquired, can_take_all};
ghost use Rattle.lock_transforms.specs.declared.entries.Kind.TheVariants as kinds;
ghost use Rattle.coordination.specs.Calls.{HasFailed, HasFinished, HasLooked, WasStopped};
ghost use Rattle.coordination.specs.Shown.{ShowsTheSame, blocked_shown, claimed_shown, lease_shown, locks_shown};
ghost use Rattle.lease_service.specs.Shows.{MayTake, ShowsGivenBack, ShowsTaken};
ghost use Rattle.lease_service.specs.declared.holders.Tried.TheVariants.{Got, Busy};

use coordination::{Coordination, Halt, Offers, Pass, Runner};
use lock_transforms::kinds::{Acquire, HandBack, Shortage};
use resource_lock::LockId;
use std::alloc::AllocError;
use std::sync::Wait;

/// What came of a try.
#[derive(Clone, Copy, PartialEq, Eq)]
pub enum Tried {
    /// The worker has all that it asked for.
    Got,
    /// Another worker has one of the locks, or as many leases as may be are out.
    Busy,
}

/// Takes a lease, where the worker has none, and waits until it can.
///
/// Otherwise as `take_locks` with no locks.
pub fn run_as_worker<R: Wait, O: Offers, K: Runner>(
    rt: &R,
    service: &Coordination<O, K>,
    pass: &mut Pass,
) -> Result<(), Halt>
    requires service { pass.old.service ≡ service.now.service }
    requires may { MayTake pass.old.sight [] }
    ensures service { pass.new.service ≡ pass.old.service }
    ensures entry { OnOk result (HasFinished kinds.Acquire (λ g w s cs. cs ≡ acquired s w []) pass.old.sight pass.new.sight) }
    ensures taken { OnOk result (ShowsTaken [] pass.old.sight pass.new.sight) }
    ensures kept { OnErr result (ShowsTheSame pass.old.sight pass.new.sight) }
    ensures no_memory { result ≡ Err Halt.NoMemory → HasLooked pass.old.sight pass.new.sight }
    ensures stopped { (by : WorkerId) → result ≡ Err (Halt.Stopped by) → WasStopped (λ g w s. can_take_all s w [] ≡ false) by pass.old.sight pass.new.sight }
{
    take_locks(rt, service, pass, &[])
}

/// Takes locks, given in strictly rising order, and a lease: those of the locks that the worker
/// doesn't own yet, and the lease where it has none. It makes one entry, and waits until it can take
/// all at once.
///
/// `Stopped` comes only where it had to wait: where the worker was kept from one of the locks, since
/// another owned one that conflicts with it, or it had no lease and as many as may be were out. After it, and after `NoMemory`, the worker has
/// what it had.
pub fn take_locks<R: Wait, O: Offers, K: Runner>(
    rt: &R,
    service: &Coordination<O, K>,
    pass: &mut Pass,
    locks: &[LockId],
) -> Result<(), Halt>
    requires service { pass.old.service ≡ service.now.service }
    requires may { MayTake pass.old.sight locks.now }
    ensures service { pass.new.service ≡ pass.old.service }
    ensures entry { OnOk result (HasFinished kinds.Acquire (λ g w s cs. cs ≡ acquired s w locks.now) pass.old.sight pass.new.sight) }
    ensures taken { OnOk result (ShowsTaken locks.now pass.old.sight pass.new.sight) }
    ensures kept { OnErr result (ShowsTheSame pass.old.sight pass.new.sight) }
    ensures no_memory { result ≡ Err Halt.NoMemory → HasLooked pass.old.sight pass.new.sight }
    ensures stopped { (by : WorkerId) → result ≡ Err (Halt.Stopped by)
        → WasStopped (λ g w s. can_take_all s w locks.now ≡ false) by pass.old.sight pass.new.sight }
{
    let acquire = Acquire {
        locks,
        shortage: Shortage::Waits,
    };
    if service.with_state_lock(rt, pass, &acquire)? {
        Ok(())
    } else {
        unreachable!()
    }
}

/// Takes the same as `take_locks`, or answers `Busy` at once, with a failed entry, where it would
/// have to wait: where the worker is kept from one of the locks, or has no lease and as many as may be
/// are out. After `Busy` the worker has what it had.
///
/// It waits for the state lock alone, and fails for want of memory alone.
pub fn try_take_locks<R: Wait, O: Offers, K: Runner>(
    rt: &R,
    service: &Coordination<O, K>,
    pass: &mut Pass,
    locks: &[LockId],
) -> Result<Tried, AllocError>
    requires service { pass.old.service ≡ service.now.service }
    requires may { MayTake pass.old.sight locks.now }
    ensures service { pass.new.service ≡ pass.old.service }
    ensures entry { result ≡ Ok Got → HasFinished kinds.Acquire (λ g w s cs. cs ≡ acquired s w locks.now) pass.old.sight pass.new.sight }
    ensures taken { result ≡ Ok Got → ShowsTaken locks.now pass.old.sight pass.new.sight }
    ensures busy { result ≡ Ok Busy → HasFailed kinds.Acquire (λ g w s. can_take_all s w locks.now ≡ false) pass.old.sight pass.new.sight }
    ensures kept { result ≢ Ok Got → ShowsTheSame pass.old.sight pass.new.sight }
    ensures no_memory { OnErr result (HasLooked pass.old.sight pass.new.sight) }
{
    let acquire = Acquire {
        locks,
        shortage: Shortage::Fails,
    };
    match service.with_state_lock(rt, pass, &acquire) {
        Ok(true) => Ok(Tried::Got),
        Ok(false) => Ok(Tried::Busy),
        Err(Halt::NoMemory) => Err(AllocError),
        Err(Halt::Stopped(_)) => unreachable!(),
    }
}

/// Gives back all locks of the worker, and its lease, in one entry.
///
/// It waits for the state lock alone, and fails for want of memory alone. The worker then has what
/// it had.
pub fn hand_back<R: Wait, O: Offers, K: Runner>(
    rt: &R,
    service: &Coordination<O, K>,
    pass: &mut Pass,
) -> Result<(), AllocError>
    requires service { pass.old.service ≡ service.now.service }
    requires claimed { claimed_shown pass.old.sight ≡ [] }
    requires not_blocked { blocked_shown pass.old.sight ≡ false }
    requires something { (locks_shown pass.old.sight ≢ []) ⊎ (lease_shown pass.old.sight ≡ true) }
    ensures service { pass.new.service ≡ pass.old.service }
    ensures entry { OnOk result (HasFinished kinds.HandBack (IsFixedList kinds.HandBack) pass.old.sight pass.new.sight) }
    ensures given_back { OnOk result (ShowsGivenBack pass.old.sight pass.new.sight) }
    ensures kept { OnErr result (ShowsTheSame pass.old.sight pass.new.sight) }
    ensures no_memory { OnErr result (HasLooked pass.old.sight pass.new.sight) }
{
    match service.with_state_lock(rt, pass, &HandBack) {
        Ok(true) => Ok(()),
        Err(Halt::NoMemory) => Err(AllocError),
        Ok(false) => unreachable!(),
        Err(Halt::Stopped(_)) => unreachable!(),
    }
}
