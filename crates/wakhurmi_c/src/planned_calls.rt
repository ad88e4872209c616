//! What C calls with the handle of a plan's worker. A call that finds the handle empty answers so, and touches nothing.
ghost use Rattle.std.specs.Prelude.{◌≡◌, ◌≢◌, false, true};
ghost use Rattle.coordination.specs.Calls.{HasStopped};
ghost use Rattle.planned_work.specs.Done.{DoneLeaves, DoneNextLeaves, had_hold_closing};
ghost use Rattle.planned_work.specs.Next.{NextLeaves, had_hold};
ghost use Rattle.planned_work.specs.Sections.{EnterLeaves, LeaveLeaves};
ghost use Rattle.wakhurmi_c.specs.PlanNumbers.{next_as, plan_answer_of};
ghost use Rattle.wakhurmi_c.specs.PlannedCalls.{CountsLeases, TellsAnswer, TellsNext, TellsRings, TellsWork, gave_by};
ghost use Rattle.wakhurmi_c.specs.declared.plan_answers.PlanAnswer.TheVariants as answers;

use crate::plan_answers::{PlanAnswer, PlanTold, PlanWork, work_of};
use crate::planned_handles::PlannedHandle;
use planned_work::{Next, PlanWorker, Rings};
use std::alloc::Global;

/// Says what the worker does next, and makes the entry that this needs (`PlanWorker::try_next`). What it is to do is written to `work`
/// where the answer is `Done`.
#[unsafe(no_mangle)]
pub extern "C" fn wakhurmi_c_next(
    alloc: Global,
    handle: &mut PlannedHandle,
    sleeps: bool,
    work: &mut PlanWork,
) -> PlanTold
    ensures full { handle.new.full ≡ handle.old.full }
    ensures empty { handle.old.full ≡ false → plan_answer_of result.answer ≡ answers.Empty }
    ensures told { handle.old.full ≡ true → TellsNext had_hold handle.new.held.worker.pass.sight work.new result
        (NextLeaves handle.old.held.worker.pass.sight handle.new.held.worker.pass.sight) }
    ensures kept { plan_answer_of result.answer ≢ answers.Done → work.new ≡ work.old }
{
    if !handle.full {
        return PlanTold::alone(PlanAnswer::Empty);
    }
    let mut worker = handle.take(alloc);
    let (next, rings) = worker.try_next(sleeps);
    let told = tell(&worker, next, rings, work);
    *handle = PlannedHandle::of(worker);
    told
}

/// Closes the unit that the worker runs: it has passed with this number, or failed (`PlanWorker::done`).
#[unsafe(no_mangle)]
pub extern "C" fn wakhurmi_c_done(
    alloc: Global,
    handle: &mut PlannedHandle,
    sleeps: bool,
    passed: bool,
    number: u64,
) -> PlanTold
    ensures full { handle.new.full ≡ handle.old.full }
    ensures empty { handle.old.full ≡ false → plan_answer_of result.answer ≡ answers.Empty }
    ensures told { handle.old.full ≡ true → TellsAnswer handle.new.held.worker.pass.sight result
        (DoneLeaves (gave_by passed number) handle.old.held.worker.pass.sight handle.new.held.worker.pass.sight) }
{
    if !handle.full {
        return PlanTold::alone(PlanAnswer::Empty);
    }
    let mut worker = handle.take(alloc);
    let (answer, rings) = worker.done(sleeps, gave_by(passed, number));
    *handle = PlannedHandle::of(worker);
    PlanTold::of(PlanAnswer::of(answer), rings)
}

/// Closes the unit that the worker runs, and says what it does next (`PlanWorker::done_next`).
#[unsafe(no_mangle)]
pub extern "C" fn wakhurmi_c_done_next(
    alloc: Global,
    handle: &mut PlannedHandle,
    sleeps: bool,
    passed: bool,
    number: u64,
    work: &mut PlanWork,
) -> PlanTold
    ensures full { handle.new.full ≡ handle.old.full }
    ensures empty { handle.old.full ≡ false → plan_answer_of result.answer ≡ answers.Empty }
    ensures told { handle.old.full ≡ true → TellsNext had_hold_closing handle.new.held.worker.pass.sight work.new result
        (DoneNextLeaves (gave_by passed number) handle.old.held.worker.pass.sight handle.new.held.worker.pass.sight) }
    ensures kept { plan_answer_of result.answer ≢ answers.Done → work.new ≡ work.old }
{
    if !handle.full {
        return PlanTold::alone(PlanAnswer::Empty);
    }
    let mut worker = handle.take(alloc);
    let (next, rings) = worker.done_next(sleeps, gave_by(passed, number));
    let told = tell(&worker, next, rings, work);
    *handle = PlannedHandle::of(worker);
    told
}

/// Enters a blocking section (`PlanWorker::enter`).
#[unsafe(no_mangle)]
pub extern "C" fn wakhurmi_c_plan_enter(alloc: Global, handle: &mut PlannedHandle) -> PlanTold
    ensures full { handle.new.full ≡ handle.old.full }
    ensures empty { handle.old.full ≡ false → plan_answer_of result.answer ≡ answers.Empty }
    ensures told { handle.old.full ≡ true → TellsAnswer handle.new.held.worker.pass.sight result
        (EnterLeaves handle.old.held.worker.pass.sight handle.new.held.worker.pass.sight) }
{
    if !handle.full {
        return PlanTold::alone(PlanAnswer::Empty);
    }
    let mut worker = handle.take(alloc);
    let (answer, rings) = worker.enter();
    *handle = PlannedHandle::of(worker);
    PlanTold::of(PlanAnswer::of(answer), rings)
}

/// Leaves a blocking section (`PlanWorker::leave`).
#[unsafe(no_mangle)]
pub extern "C" fn wakhurmi_c_plan_leave(
    alloc: Global,
    handle: &mut PlannedHandle,
    sleeps: bool,
) -> PlanTold
    ensures full { handle.new.full ≡ handle.old.full }
    ensures empty { handle.old.full ≡ false → plan_answer_of result.answer ≡ answers.Empty }
    ensures told { handle.old.full ≡ true → TellsAnswer handle.new.held.worker.pass.sight result
        (LeaveLeaves handle.old.held.worker.pass.sight handle.new.held.worker.pass.sight) }
{
    if !handle.full {
        return PlanTold::alone(PlanAnswer::Empty);
    }
    let mut worker = handle.take(alloc);
    let (answer, rings) = worker.leave(sleeps);
    *handle = PlannedHandle::of(worker);
    PlanTold::of(PlanAnswer::of(answer), rings)
}

/// Stops the service, or hears who has stopped it before.
#[unsafe(no_mangle)]
pub extern "C" fn wakhurmi_c_plan_stop(alloc: Global, handle: &mut PlannedHandle) -> u32
    ensures full { handle.new.full ≡ handle.old.full }
    ensures empty { handle.old.full ≡ false → plan_answer_of result ≡ answers.Empty }
    ensures done { handle.old.full ≡ true → plan_answer_of result ≡ answers.Done }
    ensures stopped { handle.old.full ≡ true → HasStopped handle.old.held.worker.pass.sight handle.new.held.worker.pass.sight }
{
    if !handle.full {
        return PlanAnswer::Empty.number();
    }
    let mut worker = handle.take(alloc);
    worker.stop();
    *handle = PlannedHandle::of(worker);
    PlanAnswer::Done.number()
}

/// Tells how many leases are out. A worker that was noted as asleep is awake then, and has to look again.
#[unsafe(no_mangle)]
pub extern "C" fn wakhurmi_c_plan_leases_out(
    alloc: Global,
    handle: &mut PlannedHandle,
    leases: &mut u32,
) -> PlanTold
    ensures full { handle.new.full ≡ handle.old.full }
    ensures empty { handle.old.full ≡ false → plan_answer_of result.answer ≡ answers.Empty }
    ensures told { handle.old.full ≡ true → CountsLeases leases.new handle.old.held.worker.pass.sight handle.new.held.worker.pass.sight result }
    ensures kept { plan_answer_of result.answer ≢ answers.Done → leases.new ≡ leases.old }
{
    if !handle.full {
        return PlanTold::alone(PlanAnswer::Empty);
    }
    let mut worker = handle.take(alloc);
    let (counted, rings) = worker.leases_out();
    *handle = PlannedHandle::of(worker);
    match counted {
        Some(count) => {
            *leases = count;
            PlanTold::of(PlanAnswer::Done, rings)
        }
        None => PlanTold::of(PlanAnswer::Again, rings),
    }
}

/// Closes the part of a plan's worker. The last one of a service closes the service.
#[unsafe(no_mangle)]
pub extern "C" fn wakhurmi_c_plan_close(alloc: Global, handle: &mut PlannedHandle) -> u32
    ensures empty { handle.old.full ≡ false → plan_answer_of result ≡ answers.Empty }
    ensures closed { handle.old.full ≡ true → plan_answer_of result ≡ answers.Done }
    ensures emptied { handle.new.full ≡ false }
{
    if !handle.full {
        return PlanAnswer::Empty.number();
    }
    drop(handle.take(alloc));
    PlanAnswer::Done.number()
}

// What C is told of what a worker does next. The work is written where there is some.
fn tell(worker: &PlanWorker, next: Next, rings: Rings, work: &mut PlanWork) -> PlanTold
    ensures told { TellsWork worker.now.pass.sight.seen.graph work.new next }
    ensures answer { plan_answer_of result.answer ≡ next_as next }
    ensures wakes { TellsRings result rings }
    ensures kept { plan_answer_of result.answer ≢ answers.Done → work.new ≡ work.old }
{
    if let Next::Do(given) = next {
        *work = work_of(&worker.numbers, given);
    }
    PlanTold::of(PlanAnswer::of_next(next), rings)
}

// The number of a unit that has passed, or none of one that failed.
fn gave_by(passed: bool, number: u64) -> Option<u64>
    ensures { result ≡ gave_by passed number }
{
    passed.then_some(number)
}
