//! Permits, and which of them are out.
ghost use Rattle.std.specs.Prelude.{◌≡◌, ◌+◌, ◌<◌, ◌≤◌, ◌^◌, ◌++◌, ◌∷◌, [], MatchOption, OnOk, Some, Contains};
ghost use Rattle.std.specs.Prelude.{length, remove, slice_get};
ghost use Rattle.memory_budget.specs.BudgetView.{open_permit, permitted};
ghost use Rattle.memory_budget.specs.Calls.{TakesBack};

use daemon_requirements::Requirements;
use std::alloc::{AllocError, Global};
use std::marker::Model;

/// The leave to start one daemon with these requirements. Its heap is kept free until the permit is spent, by `adopt`, or given
/// up. So it can't be dropped, and only the list of those that are out makes it and takes it apart.
///
/// A pool knows it again by its unit and its heap: one of another pool with both the same is taken for the own one, and the sums stay
/// right then too.
pub struct Permit {
    unit: u32,
    requirements: Requirements,
}

impl Permit {
    /// The number of the unit that the daemon is for.
    pub fn unit(&self) -> u32
        ensures { result ≡ self.now.unit }
    {
        self.unit
    }

    /// What the daemon is to be started with.
    pub fn requirements(&self) -> &Requirements
        ensures { result.now ≡ self.now.requirements }
    {
        &self.requirements
    }
}

/// A permit that is out, as its pool remembers it.
#[derive(Clone, Copy, Drop, PartialEq, Eq)]
pub struct OpenPermit {
    pub(crate) unit: u32,
    pub(crate) heap_mb: u64,
}

/// The permits that are out, and the sum of their heaps.
#[derive(Drop)]
pub(crate) struct OpenPermits {
    permits: Vec<OpenPermit>,
    sum_mb: u64,
}

impl Model for OpenPermits {
    ghost use Rattle.std.specs.Prelude.{◌≡◌, ◌-◌, vec_capacity, vec_len};
    ghost use Rattle.memory_budget.specs.BudgetView.{permitted};
    ghost use Rattle.memory_budget.specs.OpenPermitsView.{OpenPermitsView};

    ghost Value = { OpenPermitsView };

    ghost view = { λ o. record { permits = o.permits.items; room = vec_capacity o.permits - vec_len o.permits } };

    ghost invariant = { λ o. o.sum_mb ≡ permitted o.permits.items };
}

impl OpenPermits {
    /// No permit is out.
    pub(crate) fn new(alloc: Global) -> OpenPermits
        ensures { result.permits ≡ [] }
    {
        OpenPermits {
            permits: Vec::new(alloc),
            sum_mb: 0,
        }
    }

    /// The sum of the heaps.
    pub(crate) fn sum_mb(&self) -> u64
        ensures { result ≡ permitted self.now.permits }
    {
        self.sum_mb
    }

    /// Takes memory for one permit more.
    pub(crate) fn make_room(&mut self) -> Result<(), AllocError>
        ensures same { self.new.permits ≡ self.old.permits }
        ensures room { OnOk result (1 ≤ self.new.room) }
    {
        self.permits.reserve(1)
    }

    /// Gives a permit, which is out from now on. It takes no memory.
    pub(crate) fn give(&mut self, unit: u32, requirements: Requirements) -> Permit
        requires room { 1 ≤ self.old.room }
        requires fits { permitted self.old.permits + requirements.heap_mb < 2 ^ 64 }
        ensures permit { (result.unit ≡ unit) × (result.requirements ≡ requirements) }
        ensures out { self.new.permits ≡ self.old.permits ++ open_permit result ∷ [] }
    {
        let permit = Permit { unit, requirements };
        let out = opened(&permit);
        self.permits.push_reserved(out);
        self.sum_mb += out.heap_mb;
        permit
    }

    /// Where a permit like this stands among those that are out.
    pub(crate) fn place_of(&self, permit: &Permit) -> Option<usize>
        ensures { MatchOption result (¬ Contains self.now.permits (open_permit permit.now))
            (λ place. slice_get self.now.permits place ≡ Some (open_permit permit.now)) }
    {
        let wanted = opened(permit);
        self.permits.iter().position(|out| *out == wanted)
    }

    /// Ends a permit, for which the one at this place isn't out any more.
    pub(crate) fn spend(&mut self, place: usize, permit: Permit)
        requires { place < length self.old.permits }
        ensures { self.new.permits ≡ remove self.old.permits place }
    {
        let taken = self.permits.remove(place);
        self.sum_mb -= taken.heap_mb;
        let Permit {
            unit: _,
            requirements: _,
        } = permit;
    }

    /// Ends a permit, where it is out also in this list. It takes no memory.
    pub(crate) fn take_back(&mut self, permit: Permit)
        ensures back { TakesBack self.old.permits self.new.permits permit }
        ensures less { permitted self.new.permits ≤ permitted self.old.permits }
    {
        match self.place_of(&permit) {
            Some(place) => self.spend(place, permit),
            None => {
                let Permit {
                    unit: _,
                    requirements: _,
                } = permit;
            }
        }
    }
}

// What a pool remembers of a permit.
fn opened(permit: &Permit) -> OpenPermit
    ensures { result ≡ open_permit permit.now }
{
    OpenPermit {
        unit: permit.unit,
        heap_mb: heap_of(&permit.requirements),
    }
}

/// The heap of a daemon with these requirements, in MB.
pub(crate) fn heap_of(requirements: &Requirements) -> u64
    ensures value { result ≡ requirements.now.heap_mb }
    ensures bound { result < 2 ^ 32 }
{
    u64::from(requirements.fields().heap_mb)
}
