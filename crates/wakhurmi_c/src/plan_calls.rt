//! What C calls to make a plan. A refused call leaves the plan as it was.
ghost use Rattle.std.specs.Prelude.{◌≡◌, ◌≢◌, false, true};
ghost use Rattle.wakhurmi_c.specs.PlanCalls.{AddsAction, AddsNames, AddsTask, MakesPlan, lock_asked, retention_at};
ghost use Rattle.wakhurmi_c.specs.PlanNumbers.{plan_answer_of};
ghost use Rattle.wakhurmi_c.specs.declared.plan_answers.PlanAnswer.TheVariants as answers;

use crate::plan_answers::PlanAnswer;
use crate::plan_handles::PlanHandle;
use planned_work::{PlannedAction, WorkPlan};
use resource_lock::Retention;
use std::alloc::Global;

/// Makes a plan without tasks, for so many project locks.
#[unsafe(no_mangle)]
pub extern "C" fn wakhurmi_c_make_plan(alloc: Global, plan: &mut PlanHandle, locks: u32) -> u32
    ensures left { MakesPlan locks plan.old plan.new (plan_answer_of result) }
{
    if plan.full {
        return PlanAnswer::Full.number();
    }
    let made = match WorkPlan::new(alloc, locks) {
        Ok(made) => made,
        Err(refusal) => return PlanAnswer::of_refusal(refusal).number(),
    };
    match Box::new(alloc, made) {
        Ok(made) => {
            *plan = PlanHandle::of(made);
            PlanAnswer::Done.number()
        }
        Err(_) => PlanAnswer::NoMemory.number(),
    }
}

/// Adds a task of a lock, or for 2^32 - 1 one of all projects, and writes its number.
#[unsafe(no_mangle)]
pub extern "C" fn wakhurmi_c_plan_task(
    alloc: Global,
    plan: &mut PlanHandle,
    lock: u32,
    task: &mut u32,
) -> u32
    ensures full { plan.new.full ≡ plan.old.full }
    ensures empty { plan.old.full ≡ false → plan_answer_of result ≡ answers.Empty }
    ensures left { plan.old.full ≡ true → AddsTask lock plan.old.held.plan plan.new.held.plan task.new (plan_answer_of result) }
    ensures kept { plan_answer_of result ≢ answers.Done → task.new ≡ task.old }
{
    if !plan.full {
        return PlanAnswer::Empty.number();
    }
    let mut made = plan.take(alloc);
    let added = made.add_task(alloc, lock_asked(lock));
    *plan = PlanHandle::of(made);
    match added {
        Ok(number) => {
            *task = number;
            PlanAnswer::Done.number()
        }
        Err(refusal) => PlanAnswer::of_refusal(refusal).number(),
    }
}

/// Has a task come after others.
#[unsafe(no_mangle)]
pub extern "C" fn wakhurmi_c_plan_after(
    alloc: Global,
    plan: &mut PlanHandle,
    task: u32,
    before: &[u32],
) -> u32
    ensures full { plan.new.full ≡ plan.old.full }
    ensures empty { plan.old.full ≡ false → plan_answer_of result ≡ answers.Empty }
    ensures left { plan.old.full ≡ true → AddsNames task before.now plan.old.held.plan plan.new.held.plan (plan_answer_of result) }
{
    if !plan.full {
        return PlanAnswer::Empty.number();
    }
    let mut made = plan.take(alloc);
    let added = made.add_after(task, before);
    *plan = PlanHandle::of(made);
    match added {
        Ok(()) => PlanAnswer::Done.number(),
        Err(refusal) => PlanAnswer::of_refusal(refusal).number(),
    }
}

/// Adds an action behind those of a task: what becomes of the lock while its items run, 0 it is kept, 1 given back for good, 2 given back and
/// taken again; how many items it has; and whether it has a fetch.
#[unsafe(no_mangle)]
pub extern "C" fn wakhurmi_c_plan_action(
    alloc: Global,
    plan: &mut PlanHandle,
    task: u32,
    retention: u32,
    items: u32,
    fetch: bool,
) -> u32
    ensures full { plan.new.full ≡ plan.old.full }
    ensures empty { plan.old.full ≡ false → plan_answer_of result ≡ answers.Empty }
    ensures left { plan.old.full ≡ true → AddsAction task retention items fetch plan.old.held.plan plan.new.held.plan (plan_answer_of result) }
{
    if !plan.full {
        return PlanAnswer::Empty.number();
    }
    let Some(retention) = retention_at(retention) else {
        return PlanAnswer::BadNumber.number();
    };
    let action = PlannedAction {
        retention,
        fetch,
        items,
    };
    let mut made = plan.take(alloc);
    let added = made.add_action(task, action);
    *plan = PlanHandle::of(made);
    match added {
        Ok(_) => PlanAnswer::Done.number(),
        Err(refusal) => PlanAnswer::of_refusal(refusal).number(),
    }
}

/// Closes a plan. Services that were opened over it don't need it.
#[unsafe(no_mangle)]
pub extern "C" fn wakhurmi_c_close_plan(alloc: Global, plan: &mut PlanHandle) -> u32
    ensures empty { plan.old.full ≡ false → plan_answer_of result ≡ answers.Empty }
    ensures closed { plan.old.full ≡ true → plan_answer_of result ≡ answers.Done }
    ensures emptied { plan.new.full ≡ false }
{
    if !plan.full {
        return PlanAnswer::Empty.number();
    }
    drop(plan.take(alloc));
    PlanAnswer::Done.number()
}

// The lock of this number, or none for that of no lock.
fn lock_asked(lock: u32) -> Option<u32>
    ensures { result ≡ lock_asked lock }
{
    (lock != u32::MAX).then_some(lock)
}

// The retention of this number, if there is one.
fn retention_at(number: u32) -> Option<Retention>
    ensures { result ≡ retention_at number }
{
    match number {
        0 => Some(Retention::Retain),
        1 => Some(Retention::Release),
        2 => Some(Retention::ReleaseAndReacquire),
        _ => None,
    }
}
