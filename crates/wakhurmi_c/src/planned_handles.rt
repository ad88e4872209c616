//! What C holds of a worker of a plan.
ghost use Rattle.std.specs.Prelude.{◌≡◌, true, false};

use crate::held_planned::HeldPlanned;
use crate::loose::Loose;
use core::mem::replace_with;
use planned_work::PlanWorker;
use std::alloc::Global;

/// A handle, which C holds. All bytes of an empty one are zero, or it was emptied by a call.
#[repr(C)]
#[derive(Drop)]
pub struct PlannedHandle {
    /// The worker, where it is full.
    pub held: HeldPlanned,
    /// Whether it is full.
    pub full: bool,
    ghost tied: { full ≡ held.full },
}

impl PlannedHandle {
    /// Of a worker.
    pub(crate) fn of(worker: Box<PlanWorker, Global>) -> PlannedHandle
        ensures full { result.full ≡ true }
        ensures worker { result.held.worker ≡ worker.value }
    {
        PlannedHandle {
            held: HeldPlanned::from_loose(Loose::of(worker)),
            full: true,
        }
    }

    /// Takes the worker out of a full handle.
    pub(crate) fn take(&mut self, alloc: Global) -> Box<PlanWorker, Global>
        requires { self.old.full ≡ true }
        ensures worker { result.value ≡ self.old.held.worker }
        ensures empty { self.new.full ≡ false }
    {
        replace_with(self, alloc, PlannedHandle::part).into_box()
    }

    /// An empty handle, and what was in this one.
    fn part(self, alloc: Global) -> (PlannedHandle, Loose<PlanWorker, Global>)
        requires { self.full ≡ true }
        ensures empty { result.0.full ≡ false }
        ensures worker { result.1.value ≡ self.held.worker }
    {
        let PlannedHandle { held, full: _ } = self;
        let (held, loose) = held.part(alloc);
        (PlannedHandle { held, full: false }, loose)
    }
}
