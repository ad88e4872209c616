//! Tasks: a worker that has nothing starts or skips one, and ends the one that it runs.
ghost use Rattle.std.specs.Prelude.{◌≡◌, ◌≢◌, ◌<◌, Err, Ok, OnErr, OnOk, false, length, true};
ghost use Rattle.resource_lock.specs.declared.ids.WorkerId.{WorkerId};
ghost use Rattle.lock_transforms.specs.Allowed.{IsFixedList};
ghost use Rattle.lock_transforms.specs.declared.entries.Kind.TheVariants as kinds;
ghost use Rattle.coordination.specs.Calls.{HasFailed, HasFinished, HasLooked, WasStopped};
ghost use Rattle.coordination.specs.Holds.{HoldsNothing};
ghost use Rattle.coordination.specs.Shown.{ShowsTheSame};
ghost use Rattle.async_tracker.specs.Tasks.{CannotEnd, CannotStart, MayEnd, ShowsEnded, ShowsStarted};
ghost use Rattle.single_steps.specs.Tasks.{CannotSkip};

use coordination::{Coordination, Halt, Offers, Pass, Runner};
use lock_transforms::kinds::{End, Skip, Start};
use std::alloc::AllocError;
use std::sync::Wait;

/// Starts a task, in one entry: a worker that has nothing takes the task's lock and a lease.
///
/// False, with a failed entry, says that it couldn't be started: it isn't Waiting, a task that it
/// comes after hasn't passed, somebody owns a lock that conflicts with its own, or no lease is free. The call waits for the state
/// lock alone, and fails for want of memory alone. After false and after an error the pass shows
/// what it showed.
pub fn start_task<R: Wait, O: Offers, K: Runner>(
    rt: &R,
    service: &Coordination<O, K>,
    pass: &mut Pass,
    task: u32,
) -> Result<bool, AllocError>
    requires service { pass.old.service ≡ service.now.service }
    requires in_range { task < length pass.old.sight.seen.graph.tasks }
    requires rests { HoldsNothing pass.old.sight }
    ensures service { pass.new.service ≡ pass.old.service }
    ensures entry { result ≡ Ok true → HasFinished (kinds.Start task) (IsFixedList (kinds.Start task)) pass.old.sight pass.new.sight }
    ensures shows { result ≡ Ok true → ShowsStarted task pass.old.sight pass.new.sight }
    ensures failed { result ≡ Ok false → HasFailed (kinds.Start task) (CannotStart task) pass.old.sight pass.new.sight }
    ensures kept { result ≢ Ok true → ShowsTheSame pass.old.sight pass.new.sight }
    ensures no_memory { OnErr result (HasLooked pass.old.sight pass.new.sight) }
{
    match service.with_state_lock(rt, pass, &Start { task }) {
        Ok(started) => Ok(started),
        Err(Halt::NoMemory) => Err(AllocError),
        Err(Halt::Stopped(_)) => unreachable!(),
    }
}

/// Skips a task with its actions and units, in one entry. The worker has nothing.
///
/// False, with a failed entry, says that it couldn't be skipped: it isn't Waiting, no task that it
/// comes after failed or was skipped, or one of its marks isn't Waiting. The call waits for the state
/// lock alone, and fails for want of memory alone. The pass shows what it showed, whatever the call
/// answers.
pub fn skip_task<R: Wait, O: Offers, K: Runner>(
    rt: &R,
    service: &Coordination<O, K>,
    pass: &mut Pass,
    task: u32,
) -> Result<bool, AllocError>
    requires service { pass.old.service ≡ service.now.service }
    requires in_range { task < length pass.old.sight.seen.graph.tasks }
    requires rests { HoldsNothing pass.old.sight }
    ensures service { pass.new.service ≡ pass.old.service }
    ensures entry { result ≡ Ok true → HasFinished (kinds.Skip task) (IsFixedList (kinds.Skip task)) pass.old.sight pass.new.sight }
    ensures failed { result ≡ Ok false → HasFailed (kinds.Skip task) (CannotSkip task) pass.old.sight pass.new.sight }
    ensures shows { ShowsTheSame pass.old.sight pass.new.sight }
    ensures no_memory { OnErr result (HasLooked pass.old.sight pass.new.sight) }
{
    match service.with_state_lock(rt, pass, &Skip { task }) {
        Ok(skipped) => Ok(skipped),
        Err(Halt::NoMemory) => Err(AllocError),
        Err(Halt::Stopped(_)) => unreachable!(),
    }
}

/// Ends the task that the worker runs, in one entry: its actions that never ran are skipped, and a
/// worker with a lease gives it back, and the task's lock.
///
/// It waits only where an action of the task neither has passed nor never ran, or where one of the
/// changes can't be made, as for a worker that has a lease and not the task's lock. After an error the pass shows what it showed.
pub fn end_task<R: Wait, O: Offers, K: Runner>(
    rt: &R,
    service: &Coordination<O, K>,
    pass: &mut Pass,
    task: u32,
) -> Result<(), Halt>
    requires service { pass.old.service ≡ service.now.service }
    requires in_range { task < length pass.old.sight.seen.graph.tasks }
    requires may { MayEnd pass.old.sight task }
    ensures service { pass.new.service ≡ pass.old.service }
    ensures entry { OnOk result (HasFinished (kinds.End task) (IsFixedList (kinds.End task)) pass.old.sight pass.new.sight) }
    ensures shows { OnOk result (ShowsEnded task pass.old.sight pass.new.sight) }
    ensures kept { OnErr result (ShowsTheSame pass.old.sight pass.new.sight) }
    ensures no_memory { result ≡ Err Halt.NoMemory → HasLooked pass.old.sight pass.new.sight }
    ensures stopped { (by : WorkerId) → result ≡ Err (Halt.Stopped by) → WasStopped (CannotEnd task) by pass.old.sight pass.new.sight }
{
    service.with_state_lock(rt, pass, &End { task })?;
    Ok(())
}
