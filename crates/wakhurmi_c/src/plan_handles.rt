//! What C holds of a plan.
ghost use Rattle.std.specs.Prelude.{◌≡◌, true, false};

use crate::held_plans::HeldPlan;
use crate::loose::Loose;
use core::mem::replace_with;
use planned_work::WorkPlan;
use std::alloc::Global;

/// A handle of a plan, which C holds. All bytes of an empty one are zero, or it was emptied by a call.
#[repr(C)]
#[derive(Drop)]
pub struct PlanHandle {
    /// The plan, where it is full.
    pub held: HeldPlan,
    /// Whether it is full.
    pub full: bool,
    ghost tied: { full ≡ held.full },
}

impl PlanHandle {
    /// Of a plan.
    pub(crate) fn of(plan: Box<WorkPlan, Global>) -> PlanHandle
        ensures full { result.full ≡ true }
        ensures plan { result.held.plan ≡ plan.value }
    {
        PlanHandle {
            held: HeldPlan::from_loose(Loose::of(plan)),
            full: true,
        }
    }

    /// Takes the plan out of a full handle.
    pub(crate) fn take(&mut self, alloc: Global) -> Box<WorkPlan, Global>
        requires { self.old.full ≡ true }
        ensures plan { result.value ≡ self.old.held.plan }
        ensures empty { self.new.full ≡ false }
    {
        replace_with(self, alloc, PlanHandle::part).into_box()
    }

    /// An empty handle, and what was in this one.
    fn part(self, alloc: Global) -> (PlanHandle, Loose<WorkPlan, Global>)
        requires { self.full ≡ true }
        ensures empty { result.0.full ≡ false }
        ensures plan { result.1.value ≡ self.held.plan }
    {
        let PlanHandle { held, full: _ } = self;
        let (held, loose) = held.part(alloc);
        (PlanHandle { held, full: false }, loose)
    }
}
