//! A boxed part of a history as a pointer.
ghost use Rattle.std.specs.Prelude.{◌≡◌, Bool, true, false};
ghost use Rattle.wakhurmi_c.specs.declared.taken_parts.TakenPart.{TakenPart};

use crate::held::Opaque;
use crate::loose::Loose;
use crate::taken_parts::TakenPart;
use std::alloc::Global;
use std::marker::Model;

/// The pointer of a handle, with the part in its box or with nothing.
#[repr(C)]
#[derive(Drop)]
pub struct HeldPart {
    at: *mut Opaque,
    pub ghost full: { Bool },
    pub ghost taken: { TakenPart },
}

impl Model for HeldPart {
    ghost use Rattle.std.specs.Prelude.{Bool};
    ghost use Rattle.libc.specs.Heap.{chunk};
    ghost use Rattle.std.specs.Box.Ownership.{box_owns};
    ghost use Rattle.wakhurmi_c.specs.declared.taken_parts.TakenPart.{TakenPart};
    ghost use Rattle.wakhurmi_c.specs.contracts.taken_parts.TakenPart.{the_row};
    ghost use Rattle.wakhurmi_c.specs.Owned.{owned_if};

    ghost also_owns = { λ h. owned_if h.full (box_owns chunk the_row h.at h.taken) };
}

impl HeldPart {
    /// A full handle of the parts of a box.
    pub(crate) fn from_loose(loose: Loose<TakenPart, Global>) -> HeldPart
        ensures full { result.full ≡ true }
        ensures taken { result.taken ≡ loose.value }
    {
        let Loose { at, alloc: _ } = loose;
        HeldPart {
            at: at as *mut Opaque,
        }
    }

    /// Parts the pointer from the part that it has: the pointer is empty then.
    pub(crate) fn part(self, alloc: Global) -> (HeldPart, Loose<TakenPart, Global>)
        requires { self.full ≡ true }
        ensures empty { result.0.full ≡ false }
        ensures taken { result.1.value ≡ self.taken }
    {
        let HeldPart { at } = self;
        (
            HeldPart { at },
            Loose {
                at: at as *mut TakenPart,
                alloc,
            },
        )
    }
}
