//! Actions: a worker queues an action's items, waits for them without a lease, and goes on.
ghost use Rattle.std.specs.Prelude.{◌≡◌, ◌<◌, IfOk, Err, OnErr, OnOk, false, length};
ghost use Rattle.std.specs.List.{list_any};
ghost use Rattle.resource_lock.specs.GraphView.{action_of};
ghost use Rattle.resource_lock.specs.Ranges.{lock_with, task_with};
ghost use Rattle.resource_lock.specs.declared.ids.WorkerId.{WorkerId};
ghost use Rattle.lock_transforms.specs.Allowed.{IsFixedList};
ghost use Rattle.lock_transforms.specs.declared.entries.Kind.TheVariants as kinds;
ghost use Rattle.coordination.specs.Calls.{HasFinished, HasLooked, WasStopped};
ghost use Rattle.coordination.specs.Shown.{ShowsTheSame, claimed_shown};
ghost use Rattle.lock_journal.specs.Own.{is_unit};
ghost use Rattle.async_tracker.specs.Shows.{HasReleased, IsFree, IsIdleOrParked, IsParkedBy, OwnsToPark, ShowsParked, WorksOn};
ghost use Rattle.async_tracker.specs.Waits.{ActionIsNotQueued, CannotQueue};

use async_tracker::Parked;
use coordination::{Coordination, Halt, Offers, Pass, Runner};
use lock_transforms::kinds::{Park, Submit};
use std::sync::Wait;

/// Queues the items of an action of the task that the worker runs, in one entry.
///
/// It waits only where the action or one of its items doesn't wait any more, or where what comes
/// before them in the task isn't over. The pass shows what it showed, whatever the call answers.
pub fn submit<R: Wait, O: Offers, K: Runner>(
    rt: &R,
    service: &Coordination<O, K>,
    pass: &mut Pass,
    action: u32,
) -> Result<(), Halt>
    requires service { pass.old.service ≡ service.now.service }
    requires in_range { action < length pass.old.sight.seen.graph.actions }
    requires works { WorksOn pass.old.sight (task_with pass.old.sight.seen.graph action) }
    ensures service { pass.new.service ≡ pass.old.service }
    ensures entry { OnOk result (HasFinished (kinds.Submit action) (IsFixedList (kinds.Submit action)) pass.old.sight pass.new.sight) }
    ensures shows { ShowsTheSame pass.old.sight pass.new.sight }
    ensures no_memory { result ≡ Err Halt.NoMemory → HasLooked pass.old.sight pass.new.sight }
    ensures stopped { (by : WorkerId) → result ≡ Err (Halt.Stopped by) → WasStopped (CannotQueue action) by pass.old.sight pass.new.sight }
{
    service.with_state_lock(rt, pass, &Submit { action })?;
    Ok(())
}

/// Begins to wait for the items of a queued action: in one entry the worker gives back its lease, and
/// the task's lock unless the action retains it. It doesn't own that lock in any state until it
/// resumes, and can claim items meanwhile.
///
/// It waits only where the action isn't Queued. After an error the pass shows what it showed.
pub fn park<R: Wait, O: Offers, K: Runner>(
    rt: &R,
    service: &Coordination<O, K>,
    pass: &mut Pass,
    action: u32,
) -> Result<Parked, Halt>
    requires service { pass.old.service ≡ service.now.service }
    requires in_range { action < length pass.old.sight.seen.graph.actions }
    requires works { WorksOn pass.old.sight (task_with pass.old.sight.seen.graph action) }
    requires lock { OwnsToPark (action_of pass.old.sight.seen.graph action).retention (lock_with pass.old.sight.seen.graph action) pass.old.sight }
    ensures service { pass.new.service ≡ pass.old.service }
    ensures action { IfOk result (λ parked. parked.action ≡ action) }
    ensures entry { OnOk result (HasFinished (kinds.Park action) (IsFixedList (kinds.Park action)) pass.old.sight pass.new.sight) }
    ensures shows { OnOk result (ShowsParked (action_of pass.old.sight.seen.graph action).retention
        (lock_with pass.old.sight.seen.graph action) action pass.old.sight pass.new.sight) }
    ensures own { IfOk result (λ parked. IsParkedBy pass.new.sight parked) }
    // Where it runs no unit it can claim items.
    ensures free { OnOk result (list_any is_unit (claimed_shown pass.old.sight) ≡ false → IsFree pass.new.sight) }
    ensures waits { OnOk result (IsIdleOrParked pass.new.sight) }
    ensures released { OnOk result (HasReleased (action_of pass.old.sight.seen.graph action).retention
        (lock_with pass.old.sight.seen.graph action) pass.new.sight) }
    ensures kept { OnErr result (ShowsTheSame pass.old.sight pass.new.sight) }
    ensures no_memory { result ≡ Err Halt.NoMemory → HasLooked pass.old.sight pass.new.sight }
    ensures stopped { (by : WorkerId) → result ≡ Err (Halt.Stopped by) → WasStopped (ActionIsNotQueued action) by pass.old.sight pass.new.sight }
{
    service.with_state_lock(rt, pass, &Park { action })?;
    Ok(Parked::new(pass.worker(), action))
}
