//! Items: a worker claims one, and has a lease to run it with.
ghost use Rattle.std.specs.Prelude.{◌≡◌, ◌≢◌, Err, Ok, true, false};
ghost use Rattle.resource_lock.specs.declared.ids.WorkerId.{WorkerId};
ghost use Rattle.lock_transforms.specs.Allowed.{IsFixedList};
ghost use Rattle.lock_transforms.specs.declared.entries.Kind.TheVariants as kinds;
ghost use Rattle.coordination.specs.Calls.{HasFailed, HasFinished, HasLooked, WasStopped};
ghost use Rattle.coordination.specs.Shown.{ShowsTheSame};
ghost use Rattle.async_tracker.specs.Shows.{IsFree, IsIdleOrParked, IsItemHere, ShowsClaimed};
ghost use Rattle.single_steps.specs.Waits.{IsNotQueued, NeedsLease};

use coordination::{Coordination, Halt, Offers, Pass, Runner};
use lock_transforms::kinds::Claim;
use std::sync::Wait;

/// Claims a queued item for the worker, which takes a lease with it, in one entry.
///
/// False, with a failed entry, says that the unit wasn't Queued: another worker was first, or it
/// isn't queued yet. Where it is Queued the call waits until a lease is free. After false and after
/// an error the pass shows what it showed.
pub fn claim<R: Wait, O: Offers, K: Runner>(
    rt: &R,
    service: &Coordination<O, K>,
    pass: &mut Pass,
    unit: u32,
) -> Result<bool, Halt>
    requires service { pass.old.service ≡ service.now.service }
    requires item { IsItemHere pass.old.sight.seen.graph unit }
    requires free { IsFree pass.old.sight }
    requires may { IsIdleOrParked pass.old.sight }
    ensures service { pass.new.service ≡ pass.old.service }
    ensures entry { result ≡ Ok true → HasFinished (kinds.Claim unit) (IsFixedList (kinds.Claim unit)) pass.old.sight pass.new.sight }
    ensures shows { result ≡ Ok true → ShowsClaimed unit pass.old.sight pass.new.sight }
    ensures failed { result ≡ Ok false → HasFailed (kinds.Claim unit) (IsNotQueued unit) pass.old.sight pass.new.sight }
    ensures kept { result ≢ Ok true → ShowsTheSame pass.old.sight pass.new.sight }
    ensures no_memory { result ≡ Err Halt.NoMemory → HasLooked pass.old.sight pass.new.sight }
    ensures stopped { (by : WorkerId) → result ≡ Err (Halt.Stopped by) → WasStopped (NeedsLease unit) by pass.old.sight pass.new.sight }
{
    service.with_state_lock(rt, pass, &Claim { unit })
}
