//! Whom a call wakes.
ghost use Rattle.std.specs.Prelude.{◌≡◌};
ghost use Rattle.planned_work.specs.Rings.{all_rung, no_rings, one_of, takers_rung};

use coordination::Wakes;
use resource_lock::WorkerId;
use worker_choices::Woken;

/// Whom the end of a call's hold wakes of those that sleep, and whom the end of what comes behind a closing. A call that had no hold
/// wakes nobody.
#[derive(Clone, Copy)]
pub struct Rings {
    /// Whom the hold's end wakes, or that of its first entry.
    pub first: Wakes,
    /// Whom the end of what comes behind the first entry wakes.
    pub later: Wakes,
}

impl Rings {
    /// Nobody.
    pub fn nobody() -> Rings
        ensures { result ≡ no_rings }
    {
        Rings {
            first: NOBODY,
            later: NOBODY,
        }
    }

    /// The worker that the first end wakes, if it wakes one.
    pub fn one(self) -> Option<WorkerId>
        ensures { result ≡ one_of self.first.workers }
    {
        one_of(self.first.workers)
    }

    /// The worker that the later end wakes, if it wakes one.
    pub fn another(self) -> Option<WorkerId>
        ensures { result ≡ one_of self.later.workers }
    {
        one_of(self.later.workers)
    }

    /// Whether all workers that sleep are woken: all tasks have ended.
    pub fn all(self) -> bool
        ensures { result ≡ all_rung self }
    {
        matches!(self.first.workers, Woken::All) || matches!(self.later.workers, Woken::All)
    }

    /// Whether the transforms are woken that sleep until they can be run, as those that take locks.
    pub fn takers(self) -> bool
        ensures { result ≡ takers_rung self }
    {
        self.first.transforms || self.later.transforms
    }
}

const NOBODY: Wakes = Wakes {
    transforms: false,
    questions: false,
    workers: Woken::Nobody,
};

// The worker, where one is woken.
fn one_of(woken: Woken) -> Option<WorkerId>
    ensures { result ≡ one_of woken }
{
    match woken {
        Woken::One(worker) => Some(worker),
        Woken::Nobody | Woken::All => None,
    }
}
