//! Services and their locks.
ghost use Rattle.std.specs.Prelude.{◌≡◌, ◌<◌, ◌≤◌, ◌+◌, ◌-◌, ◌*◌, ◌↔◌, ◌^◌, All, Any, IfNone, IfSome, IsTrue, length};
ghost use Rattle.std.specs.Prelude.{slice_index_or, slice_range, sum, take, true, false};
ghost use Rattle.std.specs.List.{list_any};
ghost use Rattle.resource_lock.specs.StateView.{is_owner, owner_of};
ghost use Rattle.shared_services.specs.Services.{AreLowestFree, AreServices, FitMaxima, IsFull, IsLockOfService, IsLowestFree, first_lock, is_last_of};
ghost use Rattle.shared_services.specs.Services.{lock_count, maximum_of, uses};
ghost use Rattle.shared_services.specs.declared.services.TheConstants.{MAX_SERVICES, MAX_USES};

use resource_lock::{LockId, State, WorkerId};
use std::marker::Model;

/// How many services a table has at most.
pub const MAX_SERVICES: usize = 64;

/// The greatest maximum of a service.
pub const MAX_USES: u32 = 32;

/// The maximum of parallel usages of each service, after Gradle's shared build services. A service has as many locks as its
/// maximum, and a use of it is the ownership of one of them.
#[derive(Drop)]
pub struct ServiceTable {
    maxima: Vec<u32>,
}

impl Model for ServiceTable {
    ghost use Rattle.std.specs.Prelude.{List, ℕ};
    ghost use Rattle.shared_services.specs.ServiceTable.{service_maxima, HasFitMaxima};

    ghost Value = { List ℕ };

    ghost view = { service_maxima };

    ghost invariant = { HasFitMaxima };
}

impl ServiceTable {
    /// Whether there are 1 to 64 services with a maximum of 1 to 32 each.
    pub fn fits(maxima: &[u32]) -> bool
        ensures { IsTrue result ↔ FitMaxima maxima.now }
    {
        !maxima.is_empty() && maxima.len() <= MAX_SERVICES && are_used(maxima)
    }

    /// The services with these maxima, numbered in this order. It takes no memory.
    pub fn new(maxima: Vec<u32>) -> ServiceTable
        requires { FitMaxima maxima.items }
        ensures { result ≡ maxima.items }
    {
        ServiceTable { maxima }
    }

    /// How many services there are, from 1 to 64.
    pub fn services(&self) -> u32
        ensures count { result ≡ length self.now }
        ensures fit { FitMaxima self.now }
    {
        self.maxima.len() as u32
    }

    /// Whether these are numbers of services, in strictly rising order.
    pub fn are_services(&self, asked: &[u32]) -> bool
        ensures { IsTrue result ↔ AreServices self.now asked.now }
    {
        for place in 0..asked.len() {
            if asked[place] >= self.services() || !rises_at(asked, place) {
                return false;
            }
        }
        true
    }

    /// How many locks the services have together: the sum of the maxima.
    pub fn locks(&self) -> u32
        ensures count { result ≡ lock_count self.now }
        ensures fit { FitMaxima self.now }
    {
        total(&self.maxima)
    }

    /// The service whose lock this is. None exactly where it is no service's.
    pub fn service_of(&self, lock: LockId) -> Option<u32>
        ensures some { IfSome result (λ service. (service < length self.now) × IsLockOfService self.now service lock) }
        ensures none { IfNone result (lock_count self.now ≤ lock.0) }
    {
        let mut end = 0;
        for service in 0..self.services() {
            end += self.maximum(service);
            if lock.0 < end {
                return Some(service);
            }
        }
        None
    }

    /// How many workers own a lock of the service. Each worker is counted once, at its last lock, so it is right for any state.
    pub fn in_use(&self, state: &State, service: u32) -> u32
        requires service { service < length self.now }
        requires locks { length state.now.owners ≡ lock_count self.now }
        ensures { result ≡ uses self.now state.now service }
    {
        let first = self.first_lock(service);
        let end = first + self.maximum(service);
        let mut count = 0;
        for lock in (first..end).rev() {
            if is_last_use(state, lock, end) {
                count += 1;
            }
        }
        count
    }

    // The maximum of the service.
    fn maximum(&self, service: u32) -> u32
        requires { service < length self.now }
        ensures maximum { result ≡ maximum_of self.now service }
        ensures few { lock_count self.now ≤ MAX_SERVICES * MAX_USES }
    {
        self.maxima[service as usize]
    }

    // The number of the service's first lock.
    fn first_lock(&self, service: u32) -> u32
        requires { service < length self.now }
        ensures first { result ≡ first_lock self.now service }
        ensures within { result + maximum_of self.now service ≤ lock_count self.now }
        ensures few { lock_count self.now ≤ MAX_SERVICES * MAX_USES }
    {
        total(&self.maxima[..service as usize])
    }

    // The service's lowest lock without owner. None exactly where each has one. It looks at 32 locks at most.
    fn lowest_free(&self, state: &State, service: u32) -> Option<LockId>
        requires service { service < length self.now }
        requires locks { length state.now.owners ≡ lock_count self.now }
        ensures some { IfSome result (IsLowestFree self.now state.now service) }
        ensures none { IfNone result (IsFull self.now state.now service) }
    {
        let first = self.first_lock(service);
        for lock in first..first + self.maximum(service) {
            if state.owner(LockId(lock)).is_none() {
                return Some(LockId(lock));
            }
        }
        None
    }

    /// Writes down the lowest lock without owner of each of the services. False exactly where one has none.
    pub(crate) fn choose(&self, state: &State, asked: &[u32], chosen: &mut [LockId]) -> bool
        requires services { AreServices self.now asked.now }
        requires locks { length state.now.owners ≡ lock_count self.now }
        requires room { length asked.now ≤ length chosen.old }
        ensures chosen { result ≡ true → AreLowestFree self.now state.now asked.now (take (length asked.now) chosen.new) }
        ensures full { result ≡ false → Any (λ service. IsFull self.now state.now service) asked.now }
    {
        for place in 0..asked.len() {
            match self.lowest_free(state, asked[place]) {
                Some(lock) => chosen[place] = lock,
                None => return false,
            }
        }
        true
    }
}

// Whether the number at this place is greater than the one before it, if there is one.
fn rises_at(asked: &[u32], place: usize) -> bool
    requires { place < length asked.now }
    ensures { IsTrue result ↔ (0 < place → slice_index_or asked.now (place - 1) 0 < slice_index_or asked.now place 0) }
{
    place == 0 || asked[place - 1] < asked[place]
}

// The sum of the maxima.
fn total(maxima: &[u32]) -> u32
    requires { sum maxima.now < 2 ^ 32 }
    ensures { result ≡ sum maxima.now }
{
    maxima.iter().sum()
}

// Whether each maximum is 1 to 32.
fn are_used(maxima: &[u32]) -> bool
    ensures { IsTrue result ↔ All (λ m. (1 ≤ m) × (m ≤ MAX_USES)) maxima.now }
{
    maxima
        .iter()
        .all(|maximum| 1 <= *maximum && *maximum <= MAX_USES)
}

// Whether a worker owns this lock, and none of those from the next one up to the end.
fn is_last_use(state: &State, lock: u32, end: u32) -> bool
    requires low { lock < end }
    requires within { end ≤ length state.now.owners }
    ensures { result ≡ is_last_of (owner_of state.now (record { 0 = lock })) (slice_range state.now.owners (lock + 1) end) }
{
    match state.owner(LockId(lock)) {
        Some(worker) => !owns_one_of(state, worker, lock + 1, end),
        None => false,
    }
}

// Whether the worker owns one of the locks from the first up to the end.
fn owns_one_of(state: &State, worker: WorkerId, first: u32, end: u32) -> bool
    requires first { first ≤ end }
    requires within { end ≤ length state.now.owners }
    ensures { result ≡ list_any (λ o. is_owner o worker) (slice_range state.now.owners first end) }
{
    let mut found = false;
    for lock in (first..end).rev() {
        found |= owns(state, worker, lock);
    }
    found
}

// Whether the worker owns the lock.
fn owns(state: &State, worker: WorkerId, lock: u32) -> bool
    requires { lock < length state.now.owners }
    ensures { result ≡ is_owner (owner_of state.now (record { 0 = lock })) worker }
{
    match state.owner(LockId(lock)) {
        Some(owner) => owner.0 == worker.0,
        None => false,
    }
}
