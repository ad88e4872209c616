//! A file that a task fetches: it is read in a blocking section.
ghost use Rattle.std.specs.Prelude.{◌≡◌, ◌≢◌, ◌<◌, ◌∷◌, ℕ, [], IfOk, OnErr, OnOk, Some, is_ok};
ghost use Rattle.item_actions.specs.declared.outcomes.Outcome.TheVariants as outcomes;
ghost use Rattle.resource_lock.specs.Ranges.{IsFetchOf};
ghost use Rattle.coordination.specs.Shown.{locks_shown, parked_shown};
ghost use Rattle.blocking_section.specs.Sections.{HasSetDown, HasTakenUp, IsGivenBackBy};
ghost use Rattle.build_workers.specs.Desks.{desk_view};
ghost use Rattle.build_workers.specs.Kept.{HasClosed};
ghost use Rattle.build_workers.specs.Points.{IsFetchIn, RunsTask};
ghost use Rattle.build_workers.specs.Site.{IsAt};
ghost use Rattle.build_workers.specs.Steps.{HasRun, Steps};
ghost use Rattle.build_workers.specs.WorkerView.{IsOf};

use crate::run_types::RunTypes;
use crate::site::Site;
use crate::worker::Worker;
use blocking_section::{Blocked, StillBlocked, enter, leave};
use coordination::{Halt, Pass};
use file_access::work_out;
use item_actions::{ItemAction, Outcome};
use lock_transforms::Closed;

// Reads the file of a fetch, by the fetch's number, and gives the number of its bytes. This sends nothing.
fn read_fetch<T: RunTypes>(site: &Site<'_, '_, T>, desk: &mut T::Desk, unit: u32) -> Outcome
    requires { (action : ℕ) × IsFetchOf site.now.graph action unit }
    ensures ran { HasRun site.now.units (desk_view T.Desk.files T.Desk.faults T.Desk.sends T.Desk.sent desk.old)
        (desk_view T.Desk.files T.Desk.faults T.Desk.sends T.Desk.sent desk.new) (record { unit = unit; outcome = result }) }
    ensures sends { T.Desk.sends desk.new ≡ T.Desk.sends desk.old }
{
    work_out(site.alloc, &ItemAction::Bytes, site.fetch(unit), desk)
}

// Gives back the lease and the lock round the reading of a fetch of the worker's task.
fn enter_for<T: RunTypes>(
    site: &Site<'_, '_, T>,
    pass: &mut Pass,
    task: u32,
    unit: u32,
) -> Result<Blocked, Halt>
    requires at { IsAt site.now pass.old }
    requires within { unit < pass.old.sight.seen.graph.units }
    requires fetch { IsFetchIn pass.old.sight.seen.graph task unit }
    requires runs { RunsTask task pass.old.sight }
    ensures service { pass.new.service ≡ pass.old.service }
    ensures closed { HasClosed [] pass.old.sight pass.new.sight }
    ensures unit { IfOk result (λ blocked. blocked.unit ≡ Some unit) }
    ensures own { IfOk result (λ blocked. IsGivenBackBy pass.new.sight blocked) }
    ensures locks { IfOk result (λ blocked. blocked.locks ≡ locks_shown pass.old.sight) }
    ensures set_down { OnOk result (HasSetDown (Some unit) pass.old.sight pass.new.sight) }
{
    enter(site.rt, site.service, pass, Some(unit))
}

// Takes the lease and the lock again, and closes the fetch with what it gave.
fn leave_with<T: RunTypes>(
    site: &Site<'_, '_, T>,
    pass: &mut Pass,
    blocked: Blocked,
    closed: Closed,
) -> Result<(), Halt>
    requires at { IsAt site.now pass.old }
    requires own { IsGivenBackBy pass.old.sight blocked }
    requires unit { blocked.unit ≡ Some closed.unit }
    requires outcome { closed.outcome ≢ outcomes.Skipped }
    ensures service { pass.new.service ≡ pass.old.service }
    ensures closed { OnOk result (HasClosed (closed ∷ []) pass.old.sight pass.new.sight) }
    ensures still { OnErr result (HasClosed [] pass.old.sight pass.new.sight) }
    ensures shows { OnOk result (HasTakenUp (Some closed.unit) pass.old.sight pass.new.sight) }
    ensures locks { OnOk result (parked_shown pass.old.sight ≡ blocked.locks → locks_shown pass.old.sight ≡ [] → locks_shown pass.new.sight ≡ blocked.locks) }
{
    match leave(site.rt, site.service, pass, blocked, Some(closed.outcome)) {
        Ok(()) => Ok(()),
        Err(StillBlocked::NoMemory(_)) => Err(Halt::NoMemory),
        Err(StillBlocked::Stopped(_, by)) => Err(Halt::Stopped(by)),
    }
}

/// Reads the file that a task fetches before an action's items, with neither lock nor lease.
///
/// The worker has both again then. It fails for want of memory, and where the service was stopped.
pub(crate) fn fetch<T: RunTypes>(
    site: &Site<'_, '_, T>,
    worker: &mut Worker<T>,
    task: u32,
    unit: u32,
) -> Result<(), Halt>
    requires of { IsOf site.now worker.old }
    requires within { unit < site.now.graph.units }
    requires fetch { IsFetchIn site.now.graph task unit }
    requires runs { RunsTask task worker.old.pass.sight }
    ensures step { Steps site.now worker.old worker.new (is_ok result) }
    ensures runs { OnOk result (RunsTask task worker.new.pass.sight) }
{
    let blocked = enter_for(site, &mut worker.pass, task, unit)?;
    // Nobody keeps the bytes: a fetch gives their number alone, so the file is looked at in pieces like any other.
    let outcome = read_fetch(site, &mut worker.desk, unit);
    leave_with(site, &mut worker.pass, blocked, Closed { unit, outcome })
}
