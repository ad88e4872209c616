//! A boxed plan as a pointer.
ghost use Rattle.std.specs.Prelude.{◌≡◌, Bool, true, false};
ghost use Rattle.planned_work.specs.Plans.{WorkPlanView};

use crate::held::Opaque;
use crate::loose::Loose;
use planned_work::WorkPlan;
use std::alloc::Global;
use std::marker::Model;

/// The pointer of a handle, with the plan in its box or with nothing.
#[repr(C)]
#[derive(Drop)]
pub struct HeldPlan {
    at: *mut Opaque,
    pub ghost full: { Bool },
    pub ghost plan: { WorkPlanView },
}

impl Model for HeldPlan {
    ghost use Rattle.std.specs.Prelude.{Bool};
    ghost use Rattle.libc.specs.Heap.{chunk};
    ghost use Rattle.std.specs.Box.Ownership.{box_owns};
    ghost use Rattle.planned_work.specs.Plans.{WorkPlanView};
    ghost use Rattle.planned_work.specs.contracts.plans.WorkPlan.{the_row};
    ghost use Rattle.wakhurmi_c.specs.Owned.{owned_if};

    ghost also_owns = { λ h. owned_if h.full (box_owns chunk the_row h.at h.plan) };
}

impl HeldPlan {
    /// A full handle of the parts of a box.
    pub(crate) fn from_loose(loose: Loose<WorkPlan, Global>) -> HeldPlan
        ensures full { result.full ≡ true }
        ensures plan { result.plan ≡ loose.value }
    {
        let Loose { at, alloc: _ } = loose;
        HeldPlan {
            at: at as *mut Opaque,
        }
    }

    /// Parts the pointer from the book that it has: the pointer is empty then.
    pub(crate) fn part(self, alloc: Global) -> (HeldPlan, Loose<WorkPlan, Global>)
        requires { self.full ≡ true }
        ensures empty { result.0.full ≡ false }
        ensures plan { result.1.value ≡ self.plan }
    {
        let HeldPlan { at } = self;
        (
            HeldPlan { at },
            Loose {
                at: at as *mut WorkPlan,
                alloc,
            },
        )
    }
}
