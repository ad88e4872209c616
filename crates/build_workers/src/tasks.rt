//! A task, run by a worker from its start to its end.
ghost use Rattle.std.specs.Prelude.{◌≡◌, ◌<◌, IfOk, Ok, OnOk, is_ok, length, true};
ghost use Rattle.resource_lock.specs.Fits.{Fits};
ghost use Rattle.resource_lock.specs.GraphView.{action_of};
ghost use Rattle.resource_lock.specs.Ranges.{IsActionOf, lock_with};
ghost use Rattle.async_tracker.specs.Shows.{IsParkedBy, ShowsParked};
ghost use Rattle.build_workers.specs.Choices.{HasBegun};
ghost use Rattle.build_workers.specs.Points.{CanHelp, IsInTask, RunsTask};
ghost use Rattle.build_workers.specs.Steps.{Steps};
ghost use Rattle.build_workers.specs.WorkerView.{IsOf};

use crate::fetching::fetch;
use crate::parked::wait_for_items;
use crate::run_types::RunTypes;
use crate::site::Site;
use crate::worker::Worker;
use async_tracker::{NextWork, Parked, TakeNextWork, end_then, next_work_of, submit_and_park};
use coordination::Halt;
use std::ops::Range;

// Reads the file that an action fetches, if it has a fetch.
fn fetch_first<T: RunTypes>(
    site: &Site<'_, '_, T>,
    worker: &mut Worker<T>,
    task: u32,
    action: u32,
) -> Result<(), Halt>
    requires of { IsOf site.now worker.old }
    requires task { task < length site.now.graph.tasks }
    requires action { IsActionOf site.now.graph task action }
    requires runs { RunsTask task worker.old.pass.sight }
    ensures step { Steps site.now worker.old worker.new (is_ok result) }
    ensures runs { OnOk result (RunsTask task worker.new.pass.sight) }
{
    let found = site.action_of(task, action);
    if found.fetch {
        fetch(site, worker, task, found.first_unit)
    } else {
        Ok(())
    }
}

// Queues the items of an action of the worker's task and parks, in one hold of the state lock.
fn queue_items<T: RunTypes>(
    site: &Site<'_, '_, T>,
    worker: &mut Worker<T>,
    task: u32,
    action: u32,
) -> Result<Parked, Halt>
    requires of { IsOf site.now worker.old }
    requires task { task < length site.now.graph.tasks }
    requires action { IsActionOf site.now.graph task action }
    requires runs { RunsTask task worker.old.pass.sight }
    ensures step { Steps site.now worker.old worker.new true }
    ensures action { IfOk result (λ parked. parked.action ≡ action) }
    ensures fits { Fits site.now.graph }
    ensures within { action < length site.now.graph.actions }
    ensures own { IfOk result (λ parked. IsParkedBy worker.new.pass.sight parked) }
    ensures helps { OnOk result (CanHelp worker.new.pass.sight) }
    ensures shows { OnOk result (ShowsParked (action_of site.now.graph action).retention
        (lock_with site.now.graph action) action worker.old.pass.sight worker.new.pass.sight) }
{
    submit_and_park(site.rt, site.service, &mut worker.pass, action)
}

// Runs an action of the worker's task: its fetch, if it has one, and its items, which other workers
// run too. It says whether the worker goes on with the next action: no unit of this one failed, and
// the worker has its lease again.
fn run_action<T: RunTypes>(
    site: &Site<'_, '_, T>,
    worker: &mut Worker<T>,
    task: u32,
    action: u32,
) -> Result<bool, Halt>
    requires of { IsOf site.now worker.old }
    requires task { task < length site.now.graph.tasks }
    requires action { IsActionOf site.now.graph task action }
    requires runs { RunsTask task worker.old.pass.sight }
    ensures step { Steps site.now worker.old worker.new (is_ok result) }
    ensures goes_on { result ≡ Ok true → RunsTask task worker.new.pass.sight }
    ensures in_task { OnOk result (IsInTask task worker.new.pass.sight) }
{
    fetch_first(site, worker, task, action)?;
    let parked = queue_items(site, worker, task, action)?;
    let failed = wait_for_items(site, worker, parked)?;
    Ok(!failed && worker.has_lease())
}

// Runs the actions of the worker's task, up to the first with a unit that failed.
fn run_actions<T: RunTypes>(
    site: &Site<'_, '_, T>,
    worker: &mut Worker<T>,
    task: u32,
) -> Result<(), Halt>
    requires of { IsOf site.now worker.old }
    requires task { task < length site.now.graph.tasks }
    requires runs { RunsTask task worker.old.pass.sight }
    ensures step { Steps site.now worker.old worker.new (is_ok result) }
    ensures in_task { OnOk result (IsInTask task worker.new.pass.sight) }
{
    let Range { start, end } = site.actions_of(task);
    for action in start..end {
        if !run_action(site, worker, task, action)? {
            return Ok(());
        }
    }
    Ok(())
}

// Ends the worker's task, which gives back what the worker has, and begins what is next.
fn end<T: RunTypes>(
    site: &Site<'_, '_, T>,
    worker: &mut Worker<T>,
    task: u32,
) -> Result<NextWork, Halt>
    requires of { IsOf site.now worker.old }
    requires task { task < length site.now.graph.tasks }
    requires in_task { IsInTask task worker.old.pass.sight }
    ensures step { Steps site.now worker.old worker.new true }
    ensures begun { IfOk result (HasBegun worker.new.pass.sight) }
{
    let decided = end_then(site.rt, site.service, &mut worker.pass, task, &TakeNextWork)?;
    Ok(next_work_of(decided))
}

/// Runs a task that the worker has started to its end, and begins what is next.
///
/// It fails for want of memory, and where the service was stopped.
pub(crate) fn run_task<T: RunTypes>(
    site: &Site<'_, '_, T>,
    worker: &mut Worker<T>,
    task: u32,
) -> Result<NextWork, Halt>
    requires of { IsOf site.now worker.old }
    requires task { task < length site.now.graph.tasks }
    requires runs { RunsTask task worker.old.pass.sight }
    ensures step { Steps site.now worker.old worker.new (is_ok result) }
    ensures begun { IfOk result (HasBegun worker.new.pass.sight) }
{
    run_actions(site, worker, task)?;
    end(site, worker, task)
}
