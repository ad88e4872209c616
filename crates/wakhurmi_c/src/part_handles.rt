//! What C holds of a part of a history.
ghost use Rattle.std.specs.Prelude.{◌≡◌, true, false};

use crate::held_parts::HeldPart;
use crate::loose::Loose;
use crate::taken_parts::TakenPart;
use core::mem::replace_with;
use std::alloc::Global;

/// A handle of a part of a history, which C holds. All bytes of an empty one are zero, or it was emptied by a call.
#[repr(C)]
#[derive(Drop)]
pub struct PartHandle {
    /// The part, where it is full.
    pub held: HeldPart,
    /// Whether it is full.
    pub full: bool,
    ghost tied: { full ≡ held.full },
}

impl PartHandle {
    /// Of a part.
    pub(crate) fn of(taken: Box<TakenPart, Global>) -> PartHandle
        ensures full { result.full ≡ true }
        ensures taken { result.held.taken ≡ taken.value }
    {
        PartHandle {
            held: HeldPart::from_loose(Loose::of(taken)),
            full: true,
        }
    }

    /// Takes the part out of a full handle.
    pub(crate) fn take(&mut self, alloc: Global) -> Box<TakenPart, Global>
        requires { self.old.full ≡ true }
        ensures taken { result.value ≡ self.old.held.taken }
        ensures empty { self.new.full ≡ false }
    {
        replace_with(self, alloc, PartHandle::part).into_box()
    }

    /// An empty handle, and what was in this one.
    fn part(self, alloc: Global) -> (PartHandle, Loose<TakenPart, Global>)
        requires { self.full ≡ true }
        ensures empty { result.0.full ≡ false }
        ensures taken { result.1.value ≡ self.held.taken }
    {
        let PartHandle { held, full: _ } = self;
        let (held, loose) = held.part(alloc);
        (PartHandle { held, full: false }, loose)
    }
}
