//! A parked worker: it runs items until those that it waits for have ended, and resumes.
ghost use Rattle.std.specs.Prelude.{◌≡◌, ◌<◌, IfOk, OnOk, is_ok, length, true};
ghost use Rattle.resource_lock.specs.GraphView.{action_of};
ghost use Rattle.resource_lock.specs.Ranges.{lock_with};
ghost use Rattle.coordination.specs.declared.rule.Sight.{Sight};
ghost use Rattle.async_tracker.specs.NextWork.{ShowsParkedWork};
ghost use Rattle.async_tracker.specs.Shows.{IsParkedBy, ShowsResumed};
ghost use Rattle.build_workers.specs.Choices.{HasClaimedParked};
ghost use Rattle.build_workers.specs.Points.{CanHelp};
ghost use Rattle.build_workers.specs.Steps.{Steps};
ghost use Rattle.build_workers.specs.WorkerView.{IsOf};

use crate::items::{decide, run_and_close};
use crate::run_types::RunTypes;
use crate::site::Site;
use crate::worker::Worker;
use async_tracker::{Parked, ParkedWork, TakeParkedWork, parked_work_of};
use coordination::Halt;

// Chooses what a parked worker does next, and does it: it has resumed, or has claimed the lowest queued item.
fn choose<T: RunTypes>(
    site: &Site<'_, '_, T>,
    worker: &mut Worker<T>,
    parked: &Parked,
) -> Result<ParkedWork, Halt>
    requires of { IsOf site.now worker.old }
    requires in_range { parked.now.action < length site.now.graph.actions }
    requires parked { IsParkedBy worker.old.pass.sight parked.now }
    requires helps { CanHelp worker.old.pass.sight }
    ensures step { Steps site.now worker.old worker.new true }
    ensures shows { IfOk result (ShowsParkedWork parked.now.action worker.old.pass.sight worker.new.pass.sight) }
{
    let next = TakeParkedWork {
        action: parked.action(),
    };
    let decided = decide(site, worker, &next)?;
    Ok(parked_work_of(decided))
}

// Runs an item that the worker has claimed since it was parked, and chooses what is next. What that leaves is told from before the claim.
fn run_and_choose<T: RunTypes>(
    site: &Site<'_, '_, T>,
    worker: &mut Worker<T>,
    parked: &Parked,
    unit: u32,
) -> Result<ParkedWork, Halt>
    requires of { IsOf site.now worker.old }
    requires in_range { parked.now.action < length site.now.graph.actions }
    requires claimed { (base : Sight) × HasClaimedParked parked.now unit base worker.old.pass.sight }
    ensures step { Steps site.now worker.old worker.new (is_ok result) }
    ensures shows { (base : Sight) → HasClaimedParked parked.now unit base worker.old.pass.sight
        → IfOk result (ShowsParkedWork parked.now.action base worker.new.pass.sight) }
{
    let next = TakeParkedWork {
        action: parked.action(),
    };
    let decided = run_and_close(site, worker, unit, &next)?;
    Ok(parked_work_of(decided))
}

/// Runs items until those of the action have ended, and resumes. It says whether a unit of the action
/// has failed.
pub(crate) fn wait_for_items<T: RunTypes>(
    site: &Site<'_, '_, T>,
    worker: &mut Worker<T>,
    parked: Parked,
) -> Result<bool, Halt>
    requires of { IsOf site.now worker.old }
    requires in_range { parked.action < length site.now.graph.actions }
    requires own { IsParkedBy worker.old.pass.sight parked }
    requires helps { CanHelp worker.old.pass.sight }
    ensures step { Steps site.now worker.old worker.new (is_ok result) }
    ensures shows { OnOk result (ShowsResumed (action_of site.now.graph parked.action).retention
        (lock_with site.now.graph parked.action) parked.action worker.old.pass.sight worker.new.pass.sight) }
{
    let mut begun = choose(site, worker, &parked);
    for _ in site.rt.forever() {
        match begun {
            Ok(ParkedWork::Resume(failed)) => return Ok(failed),
            Ok(ParkedWork::Claim(unit)) => begun = run_and_choose(site, worker, &parked, unit),
            Ok(ParkedWork::Beside) => begun = choose(site, worker, &parked),
            Err(halt) => return Err(halt),
        }
    }
    unreachable!()
}
