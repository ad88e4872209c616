//! The plans of the tests.
use planned_work::{PlanRefusal, PlannedAction, WorkPlan};
use resource_lock::Retention;
use std::alloc::Global;

/// An action of so many items.
pub fn action(retention: Retention, fetch: bool, items: u32) -> PlannedAction {
    PlannedAction {
        retention,
        fetch,
        items,
    }
}

/// Three tasks of two locks. The second comes after the first and has two actions, the last of which gives the lock back for good; the third
/// comes after the second. The first has a fetch, unit 0, and the items 1 and 2. Units 3, 4 and 5 are the others' items.
pub fn three_tasks(alloc: Global) -> Result<WorkPlan, PlanRefusal> {
    let mut plan = WorkPlan::new(alloc, 2)?;
    let first = plan.add_task(alloc, Some(0))?;
    let second = plan.add_task(alloc, Some(1))?;
    let third = plan.add_task(alloc, Some(1))?;
    plan.add_after(second, &[first])?;
    plan.add_after(third, &[second])?;
    plan.add_action(first, action(Retention::ReleaseAndReacquire, true, 2))?;
    plan.add_action(second, action(Retention::Retain, false, 1))?;
    plan.add_action(second, action(Retention::Release, false, 1))?;
    plan.add_action(third, action(Retention::Retain, false, 1))?;
    Ok(plan)
}

/// One task of all projects without an action, and one of a project that comes after it.
pub fn without_actions(alloc: Global) -> Result<WorkPlan, PlanRefusal> {
    let mut plan = WorkPlan::new(alloc, 1)?;
    let first = plan.add_task(alloc, None)?;
    let second = plan.add_task(alloc, Some(0))?;
    plan.add_after(second, &[first])?;
    Ok(plan)
}
