//! A service over a plan, which C opens.
ghost use Rattle.std.specs.Prelude.{◌≡◌, ◌≢◌, ◌≤◌, [], All, length, map, true, vec_capacity};
ghost use Rattle.std.specs.List.{list_any};
ghost use Rattle.planned_work.specs.Opened.{IsOpenedFor};
ghost use Rattle.wakhurmi_c.specs.PlanNumbers.{plan_answer_of};
ghost use Rattle.wakhurmi_c.specs.PlannedOpening.{WhyUnopened};
ghost use Rattle.wakhurmi_c.specs.declared.plan_answers.PlanAnswer.TheVariants as answers;

use crate::plan_answers::PlanAnswer;
use crate::plan_handles::PlanHandle;
use crate::planned_handles::PlannedHandle;
use planned_work::{PlanWorker, open_plan};
use resource_lock::MAX_WORKERS;
use std::alloc::Global;

/// Opens a service over a plan, for as many workers as there are handles, of whom `max_leases` may have a lease at once. The handles are
/// empty before. The plan stays as it is.
#[unsafe(no_mangle)]
pub extern "C" fn wakhurmi_c_open_plan(
    alloc: Global,
    plan: &mut PlanHandle,
    max_leases: u32,
    handles: &mut [PlannedHandle],
) -> u32
    ensures plan { (plan.new.full ≡ plan.old.full) × (plan.new.held.plan ≡ plan.old.held.plan) }
    ensures full { plan_answer_of result ≡ answers.Done → All (λ h. h.full ≡ true) handles.new }
    ensures opened { plan_answer_of result ≡ answers.Done
        → IsOpenedFor plan.old.held.plan (length handles.old) max_leases (map (λ h. h.held.worker.pass) handles.new) }
    ensures why { plan_answer_of result ≢ answers.Done → WhyUnopened plan.old handles.old max_leases (plan_answer_of result) }
    ensures kept { plan_answer_of result ≢ answers.Done → handles.new ≡ handles.old }
{
    if !plan.full {
        return PlanAnswer::Empty.number();
    }
    if some_full(handles) {
        return PlanAnswer::Full.number();
    }
    if handles.len() > MAX_WORKERS as usize {
        return PlanAnswer::BadNumber.number();
    }
    let Ok(room) = Vec::with_capacity(alloc, handles.len()) else {
        return PlanAnswer::NoMemory.number();
    };
    let made = plan.take(alloc);
    let opened = open_plan(alloc, &made, handles.len() as u32, max_leases);
    *plan = PlanHandle::of(made);
    match opened {
        Ok(workers) => {
            fill(handles, workers, room);
            PlanAnswer::Done.number()
        }
        Err(refusal) => PlanAnswer::of_opening(refusal).number(),
    }
}

// Fills the handles with these workers, in order. There is room for as many beside them.
fn fill(
    handles: &mut [PlannedHandle],
    workers: Vec<Box<PlanWorker>>,
    mut filled: Vec<PlannedHandle>,
)
    requires len { length workers.items ≡ length handles.old }
    requires empty { filled.items ≡ [] }
    requires room { length workers.items ≤ vec_capacity filled }
    ensures full { All (λ h. h.full ≡ true) handles.new }
    ensures workers { map (λ h. h.held.worker.pass) handles.new ≡ map (λ w. w.value.pass) workers.items }
{
    for worker in workers {
        filled.push_reserved(PlannedHandle::of(worker));
    }
    handles.swap_with_slice(&mut filled);
}

// Whether one of the handles is full.
fn some_full(handles: &[PlannedHandle]) -> bool
    ensures { result ≡ list_any (λ h. h.full) handles.now }
{
    handles.iter().any(|handle| handle.full)
}
