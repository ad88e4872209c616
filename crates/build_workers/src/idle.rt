//! An idle worker: it does what is next until all tasks have ended.
ghost use Rattle.std.specs.Prelude.{IfOk, OnOk, is_ok, true};
ghost use Rattle.async_tracker.specs.declared.next_work.NextWork.TheVariants as next;
ghost use Rattle.coordination.specs.Holds.{HoldsNothing};
ghost use Rattle.build_workers.specs.Choices.{HasBegun};
ghost use Rattle.build_workers.specs.Points.{HasFinishedWork};
ghost use Rattle.build_workers.specs.Steps.{Steps};
ghost use Rattle.build_workers.specs.WorkerView.{IsOf};

use crate::items::{decide, run_and_close};
use crate::run_types::RunTypes;
use crate::site::Site;
use crate::tasks::run_task;
use crate::worker::Worker;
use async_tracker::{NextWork, TakeNextWork, next_work_of};
use coordination::Halt;

// Chooses what is next, and begins it: the lowest queued item is claimed, and a task that is next is skipped or started, at once.
fn choose<T: RunTypes>(site: &Site<'_, '_, T>, worker: &mut Worker<T>) -> Result<NextWork, Halt>
    requires of { IsOf site.now worker.old }
    requires rests { HoldsNothing worker.old.pass.sight }
    ensures step { Steps site.now worker.old worker.new true }
    ensures begun { IfOk result (HasBegun worker.new.pass.sight) }
{
    let decided = decide(site, worker, &TakeNextWork)?;
    Ok(next_work_of(decided))
}

// Runs an item that the worker has claimed, and begins what is next.
fn run_and_choose<T: RunTypes>(
    site: &Site<'_, '_, T>,
    worker: &mut Worker<T>,
    unit: u32,
) -> Result<NextWork, Halt>
    requires of { IsOf site.now worker.old }
    requires begun { HasBegun worker.old.pass.sight (next.Claim unit) }
    ensures step { Steps site.now worker.old worker.new (is_ok result) }
    ensures begun { IfOk result (HasBegun worker.new.pass.sight) }
{
    let decided = run_and_close(site, worker, unit, &TakeNextWork)?;
    Ok(next_work_of(decided))
}

// Carries out what an idle worker has begun, and begins what is next. Where it has skipped a task or finishes there is nothing left
// to carry out.
fn carry_out<T: RunTypes>(
    site: &Site<'_, '_, T>,
    worker: &mut Worker<T>,
    next: NextWork,
) -> Result<NextWork, Halt>
    requires of { IsOf site.now worker.old }
    requires begun { HasBegun worker.old.pass.sight next }
    ensures step { Steps site.now worker.old worker.new (is_ok result) }
    ensures begun { IfOk result (HasBegun worker.new.pass.sight) }
{
    match next {
        NextWork::Claim(unit) => run_and_choose(site, worker, unit),
        NextWork::Start(task) => run_task(site, worker, task),
        NextWork::Skip(_) | NextWork::Beside | NextWork::Finish => choose(site, worker),
    }
}

/// Works until all tasks have ended: claims and runs items, skips tasks and runs tasks.
///
/// The worker has nothing then. It fails for want of memory, and where the service was stopped.
pub(crate) fn work_to_the_end<T: RunTypes>(
    site: &Site<'_, '_, T>,
    worker: &mut Worker<T>,
) -> Result<(), Halt>
    requires of { IsOf site.now worker.old }
    requires rests { HoldsNothing worker.old.pass.sight }
    ensures step { Steps site.now worker.old worker.new (is_ok result) }
    ensures finished { OnOk result (HasFinishedWork worker.new.pass.sight) }
{
    let mut begun = choose(site, worker);
    for _ in site.rt.forever() {
        match begun {
            Ok(NextWork::Finish) => return Ok(()),
            Ok(next) => begun = carry_out(site, worker, next),
            Err(halt) => return Err(halt),
        }
    }
    unreachable!()
}
