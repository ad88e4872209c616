//! What C holds of a worker.
ghost use Rattle.std.specs.Prelude.{◌≡◌, true, false};

use crate::held::Held;
use crate::loose::Loose;
use crate::workers::Worker;
use core::mem::replace_with;
use std::alloc::Global;

/// A handle, which C holds. All bytes of an empty one are zero, or it was emptied by a call.
#[repr(C)]
#[derive(Drop)]
pub struct Handle {
    /// The worker, where it is full.
    pub held: Held,
    /// Whether it is full.
    pub full: bool,
    ghost tied: { full ≡ held.full },
}

impl Handle {
    /// Of a worker.
    pub(crate) fn of(worker: Box<Worker, Global>) -> Handle
        ensures full { result.full ≡ true }
        ensures worker { result.held.worker ≡ worker.value }
    {
        Handle {
            held: Held::from_loose(Loose::of(worker)),
            full: true,
        }
    }

    /// Takes the worker out of a full handle.
    pub(crate) fn take(&mut self, alloc: Global) -> Box<Worker, Global>
        requires { self.old.full ≡ true }
        ensures worker { result.value ≡ self.old.held.worker }
        ensures empty { self.new.full ≡ false }
    {
        replace_with(self, alloc, Handle::part).into_box()
    }

    /// An empty handle, and what was in this one.
    fn part(self, alloc: Global) -> (Handle, Loose<Worker, Global>)
        requires { self.full ≡ true }
        ensures empty { result.0.full ≡ false }
        ensures worker { result.1.value ≡ self.held.worker }
    {
        let Handle { held, full: _ } = self;
        let (held, loose) = held.part(alloc);
        (Handle { held, full: false }, loose)
    }
}
