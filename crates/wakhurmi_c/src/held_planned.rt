//! A boxed worker of a plan as a pointer.
ghost use Rattle.std.specs.Prelude.{◌≡◌, Bool, true, false};
ghost use Rattle.planned_work.specs.declared.workers.PlanWorker.{PlanWorker};
ghost use Rattle.planned_work.specs.contracts.workers.PlanWorker.{the_row};

use crate::held::Opaque;
use crate::loose::Loose;
use planned_work::PlanWorker;
use std::alloc::Global;
use std::marker::Model;

/// The pointer of a handle, with the worker in its box or with nothing.
#[repr(C)]
#[derive(Drop)]
pub struct HeldPlanned {
    at: *mut Opaque,
    pub ghost full: { Bool },
    pub ghost worker: { PlanWorker } by { the_row.coded },
}

impl Model for HeldPlanned {
    ghost use Rattle.std.specs.Prelude.{Bool};
    ghost use Rattle.libc.specs.Heap.{chunk};
    ghost use Rattle.std.specs.Box.Ownership.{box_owns};
    ghost use Rattle.planned_work.specs.declared.workers.PlanWorker.{PlanWorker};
    ghost use Rattle.planned_work.specs.contracts.workers.PlanWorker.{the_row};
    ghost use Rattle.wakhurmi_c.specs.Owned.{owned_if};

    ghost also_owns = { λ h. owned_if h.full (box_owns chunk the_row h.at h.worker) };
}

impl HeldPlanned {
    /// A full handle of the parts of a box.
    pub(crate) fn from_loose(loose: Loose<PlanWorker, Global>) -> HeldPlanned
        ensures full { result.full ≡ true }
        ensures worker { result.worker ≡ loose.value }
    {
        let Loose { at, alloc: _ } = loose;
        HeldPlanned {
            at: at as *mut Opaque,
        }
    }

    /// Parts the pointer from the worker that it has: the pointer is empty then.
    pub(crate) fn part(self, alloc: Global) -> (HeldPlanned, Loose<PlanWorker, Global>)
        requires { self.full ≡ true }
        ensures empty { result.0.full ≡ false }
        ensures worker { result.1.value ≡ self.worker }
    {
        let HeldPlanned { at } = self;
        (
            HeldPlanned { at },
            Loose {
                at: at as *mut PlanWorker,
                alloc,
            },
        )
    }
}
