//! Plans that are made, refused, and opened.
use crate::plans::{action, three_tasks};
use planned_work::{OpenRefusal, PlanRefusal, WorkPlan, open_plan};
use resource_lock::Retention;
use std::alloc::Global;

const ONE: Retention = Retention::Retain;

// Whether each call that doesn't fit the plan is refused so.
fn refuses(alloc: Global, plan: &mut WorkPlan) -> bool {
    plan.add_task(alloc, Some(3)) == Err(PlanRefusal::BadNumber)
        && plan.add_after(3, &[0]) == Err(PlanRefusal::BadNumber)
        && plan.add_after(0, &[1, 3]) == Err(PlanRefusal::BadNumber)
        && plan.add_action(3, action(ONE, false, 1)) == Err(PlanRefusal::BadNumber)
        && plan.add_action(0, action(ONE, true, 0)) == Err(PlanRefusal::BadNumber)
        && plan.add_action(1, action(ONE, false, 1)) == Err(PlanRefusal::Misused)
        && plan.add_action(0, action(ONE, false, 4_194_304)) == Err(PlanRefusal::TooMany)
}

#[test]
fn calls_out_of_range_are_refused(rt: HostRuntime) {
    let refused = match three_tasks(rt.alloc()) {
        Ok(mut plan) => refuses(rt.alloc(), &mut plan),
        Err(_) => false,
    };
    let no_plan = WorkPlan::new(rt.alloc(), 65_536).is_err();
    assert!(rt; refused && no_plan);
}

// What opening a plan is refused with, or none.
fn refusal(alloc: Global, plan: &WorkPlan, workers: u32, leases: u32) -> Option<OpenRefusal> {
    open_plan(alloc, plan, workers, leases).err()
}

// Whether a cycle is told when the plan is opened, and the plan opens without.
fn tells_cycles(alloc: Global, mut plan: WorkPlan) -> bool {
    let opens = refusal(alloc, &plan, 1, 1).is_none();
    let again = refusal(alloc, &plan, 256, 256).is_none();
    let numbers = refusal(alloc, &plan, 0, 1) == Some(OpenRefusal::BadNumber)
        && refusal(alloc, &plan, 257, 1) == Some(OpenRefusal::BadNumber)
        && refusal(alloc, &plan, 1, 257) == Some(OpenRefusal::BadNumber);
    let added = plan.add_after(0, &[2]).is_ok();
    opens && again && numbers && added && refusal(alloc, &plan, 1, 1) == Some(OpenRefusal::Cycle)
}

#[test]
fn a_cycle_is_told_where_the_plan_is_opened(rt: HostRuntime) {
    let told = match three_tasks(rt.alloc()) {
        Ok(plan) => tells_cycles(rt.alloc(), plan),
        Err(_) => false,
    };
    assert!(rt; told);
}
