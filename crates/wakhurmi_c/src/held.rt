//! A boxed worker as a pointer.
ghost use Rattle.std.specs.Prelude.{◌≡◌, Bool, true, false};
ghost use Rattle.wakhurmi_c.specs.declared.workers.Worker.{Worker};

use crate::loose::Loose;
use crate::workers::Worker;
use std::alloc::Global;
use std::marker::Model;

/// What C sees of what it holds.
#[repr(C)]
#[derive(Drop)]
pub struct Opaque {
    pub byte: u8,
}

/// The pointer of a handle, with the worker in its box or with nothing.
#[repr(C)]
#[derive(Drop)]
pub struct Held {
    at: *mut Opaque,
    pub ghost full: { Bool },
    pub ghost worker: { Worker },
}

impl Model for Held {
    ghost use Rattle.std.specs.Prelude.{Bool};
    ghost use Rattle.libc.specs.Heap.{chunk};
    ghost use Rattle.std.specs.Box.Ownership.{box_owns};
    ghost use Rattle.wakhurmi_c.specs.declared.workers.Worker.{Worker};
    ghost use Rattle.wakhurmi_c.specs.contracts.workers.Worker.{the_row};
    ghost use Rattle.wakhurmi_c.specs.Owned.{owned_if};

    ghost also_owns = { λ h. owned_if h.full (box_owns chunk the_row h.at h.worker) };
}

impl Held {
    /// A full handle of the parts of a box.
    pub(crate) fn from_loose(loose: Loose<Worker, Global>) -> Held
        ensures full { result.full ≡ true }
        ensures worker { result.worker ≡ loose.value }
    {
        let Loose { at, alloc: _ } = loose;
        Held {
            at: at as *mut Opaque,
        }
    }

    /// Parts the pointer from the worker that it has: the pointer is empty then.
    pub(crate) fn part(self, alloc: Global) -> (Held, Loose<Worker, Global>)
        requires { self.full ≡ true }
        ensures empty { result.0.full ≡ false }
        ensures worker { result.1.value ≡ self.worker }
    {
        let Held { at } = self;
        (
            Held { at },
            Loose {
                at: at as *mut Worker,
                alloc,
            },
        )
    }
}
