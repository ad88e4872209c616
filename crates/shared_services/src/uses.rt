//! Uses of services, taken by a pass.
ghost use Rattle.std.specs.Prelude.{◌≡◌, ◌≢◌, Err, Ok, OnErr, OnOk};
ghost use Rattle.resource_lock.specs.declared.ids.WorkerId.{WorkerId};
ghost use Rattle.lock_transforms.specs.declared.entries.Kind.TheVariants as kinds;
ghost use Rattle.coordination.specs.Calls.{HasFailed, HasLooked, WasStopped};
ghost use Rattle.coordination.specs.Shown.{ShowsTheSame};
ghost use Rattle.lease_service.specs.declared.holders.Tried.TheVariants.{Got, Busy};
ghost use Rattle.shared_services.specs.Shows.{HasTakenUses, MayTakeUses};
ghost use Rattle.shared_services.specs.Takings.{IsShort};

use crate::services::ServiceTable;
use crate::taking::TakeUses;
use coordination::{Coordination, Halt, Pass};
use lease_service::Tried;
use lock_transforms::kinds::Shortage;
use std::alloc::AllocError;
use std::sync::Wait;

/// Takes one use of each of the services asked for, and a lease, and waits until it can take all at once. The worker has
/// nothing before, and gives all back by `hand_back`.
///
/// It makes one entry, which takes the lowest lock without owner of each service. `Stopped` comes only where it had to wait:
/// where all locks of one of the services had owners, or as many leases as may be were out. After it, and after `NoMemory`, the
/// worker has nothing.
pub fn take_uses<R: Wait>(
    rt: &R,
    service: &Coordination,
    table: &ServiceTable,
    pass: &mut Pass,
    asked: &[u32],
) -> Result<(), Halt>
    requires service { pass.old.service ≡ service.now.service }
    requires may { MayTakeUses table.now asked.now pass.old.sight }
    ensures service { pass.new.service ≡ pass.old.service }
    ensures taken { OnOk result (HasTakenUses table.now asked.now pass.old.sight pass.new.sight) }
    ensures kept { OnErr result (ShowsTheSame pass.old.sight pass.new.sight) }
    ensures no_memory { result ≡ Err Halt.NoMemory → HasLooked pass.old.sight pass.new.sight }
    ensures stopped { (by : WorkerId) → result ≡ Err (Halt.Stopped by)
        → WasStopped (λ g w s. IsShort table.now asked.now s) by pass.old.sight pass.new.sight }
{
    let take = TakeUses {
        table,
        asked,
        shortage: Shortage::Waits,
    };
    if service.with_state_lock(rt, pass, &take)? {
        Ok(())
    } else {
        unreachable!()
    }
}

/// Takes the same as `take_uses`, or answers `Busy` at once, with a failed entry, where it would have to wait: where all locks of
/// one of the services have owners, or as many leases as may be are out. After `Busy` the worker has nothing.
///
/// It waits for the state lock alone, and fails for want of memory alone.
pub fn try_take_uses<R: Wait>(
    rt: &R,
    service: &Coordination,
    table: &ServiceTable,
    pass: &mut Pass,
    asked: &[u32],
) -> Result<Tried, AllocError>
    requires service { pass.old.service ≡ service.now.service }
    requires may { MayTakeUses table.now asked.now pass.old.sight }
    ensures service { pass.new.service ≡ pass.old.service }
    ensures taken { result ≡ Ok Got → HasTakenUses table.now asked.now pass.old.sight pass.new.sight }
    ensures busy { result ≡ Ok Busy → HasFailed kinds.Acquire (λ g w s. IsShort table.now asked.now s) pass.old.sight pass.new.sight }
    ensures kept { result ≢ Ok Got → ShowsTheSame pass.old.sight pass.new.sight }
    ensures no_memory { OnErr result (HasLooked pass.old.sight pass.new.sight) }
{
    let take = TakeUses {
        table,
        asked,
        shortage: Shortage::Fails,
    };
    match service.with_state_lock(rt, pass, &take) {
        Ok(true) => Ok(Tried::Got),
        Ok(false) => Ok(Tried::Busy),
        Err(Halt::NoMemory) => Err(AllocError),
        Err(Halt::Stopped(_)) => unreachable!(),
    }
}
