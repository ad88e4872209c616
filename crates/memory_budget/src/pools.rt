//! A pool of daemons within a budget of memory.
ghost use Rattle.std.specs.Prelude.{◌≡◌, ◌+◌, ◌≤◌, [], IfOk, IfErr, OnErr, false, length, true};
ghost use Rattle.daemon_manager.specs.Calls.{FailsOrNot, Releases, ReservesOrNot, StopsOrNot};
ghost use Rattle.daemon_manager.specs.Events.{IsLegal, NoneIdle};
ghost use Rattle.daemon_manager.specs.PoolView.{IsPool};
ghost use Rattle.memory_budget.specs.BudgetView.{IsWithin, firm, permitted};
ghost use Rattle.memory_budget.specs.Calls.{GivesUpOrNot, HandsBack, Spends};
ghost use Rattle.memory_budget.specs.Heaps.{held};
ghost use Rattle.memory_budget.specs.Limits.{StaysWithin};
ghost use Rattle.memory_budget.specs.Rooms.{IsSettledRoom, KeepsPermits, MakesRoom, NoneCovers};

use crate::held::HeldPool;
use crate::permits::{OpenPermits, Permit, heap_of};
use crate::rooms::{Room, Unadopted};
use daemon_manager::{Event, Reserved};
use daemon_requirements::{Linked, Requirements};
use std::alloc::{AllocError, Global};
use std::marker::Model;

/// The greatest budget, in MB.
pub const MAX_BUDGET_MB: u64 = 1 << 40;

/// The daemons of a run whose heaps, with those of the permits that are out, are together at most the budget.
///
/// Memory is the heap that a daemon was started with, in MB; nothing is measured. Whoever wants a daemon asks for `room`. It
/// can't be dropped: it ends by `into_events`, once no daemon is idle.
pub struct BudgetPool<L: Linked> {
    daemons: HeldPool<L>,
    permits: OpenPermits,
    budget_mb: u64,
}

impl<L: Linked> Model for BudgetPool<L> {
    ghost use Rattle.std.specs.Prelude.{◌≤◌};
    ghost use Rattle.memory_budget.specs.BudgetView.{BudgetView, IsWithin};
    ghost use Rattle.memory_budget.specs.Limits.{StaysWithin};
    ghost use Rattle.memory_budget.specs.declared.pools.TheConstants.{MAX_BUDGET_MB};

    ghost Value = { BudgetView L };

    ghost view = { λ b. record { pool = b.daemons; permits = b.permits.permits; budget_mb = b.budget_mb } };

    ghost invariant = { λ b. IsWithin (record { pool = b.daemons; permits = b.permits.permits; budget_mb = b.budget_mb })
        × (b.budget_mb ≤ MAX_BUDGET_MB) × StaysWithin b.budget_mb b.daemons.events };
}

impl<L: Linked> BudgetPool<L> {
    /// A pool without daemons and permits. The error is want of memory alone.
    pub fn new(alloc: Global, budget_mb: u64) -> Result<BudgetPool<L>, AllocError>
        requires { budget_mb ≤ MAX_BUDGET_MB }
        ensures events { IfOk result (λ b. b.pool.events ≡ []) }
        ensures idle { IfOk result (λ b. b.pool.idle ≡ []) }
        ensures permits { IfOk result (λ b. b.permits ≡ []) }
        ensures budget { IfOk result (λ b. b.budget_mb ≡ budget_mb) }
    {
        let daemons = HeldPool::new(alloc)?;
        Ok(BudgetPool {
            daemons,
            permits: OpenPermits::new(alloc),
            budget_mb,
        })
    }

    /// Makes room for a daemon that covers what is asked. Of the idle daemons that cover it, the one that was released last is
    /// reserved for the unit. Where none does, idle daemons are stopped, the first released first and no more than needed, and
    /// a permit is given to start one. Where that can't make room either, the answer is `Over` with what is held by busy
    /// daemons or permitted, and nothing changes. The error is want of memory alone, and changes nothing.
    pub fn room(
        &mut self,
        alloc: Global,
        unit: u32,
        asked: &Requirements,
    ) -> Result<Room<L>, AllocError>
        ensures room { IfOk result (MakesRoom L.requirements self.old self.new asked.now unit) }
        ensures settled { IfOk result (IsSettledRoom L.settled) }
        ensures no_memory { OnErr result (self.new ≡ self.old) }
    {
        if let Some(reserved) = self.daemons.reserve_idle(unit, asked)? {
            return Ok(Room::Idle(reserved));
        }
        let firm_mb = self.firm_mb();
        if firm_mb + heap_of(asked) > self.budget_mb {
            return Ok(Room::Over(firm_mb));
        }
        self.permit(alloc, unit, asked)
    }

    // Gives a permit, which there is room for without the idle daemons.
    fn permit(
        &mut self,
        alloc: Global,
        unit: u32,
        asked: &Requirements,
    ) -> Result<Room<L>, AllocError>
        requires none { NoneCovers L.requirements self.old.pool asked.now }
        requires room { firm self.old + asked.now.heap_mb ≤ self.old.budget_mb }
        ensures room { IfOk result (MakesRoom L.requirements self.old self.new asked.now unit) }
        ensures settled { IfOk result (IsSettledRoom L.settled) }
        ensures no_memory { OnErr result (self.new ≡ self.old) }
    {
        let heap_mb = heap_of(asked);
        let requirements = asked.copy(alloc)?;
        self.permits.make_room()?;
        let mut links = Vec::with_capacity(alloc, self.daemons.idle())?;
        let most_mb = self.budget_mb - (self.permits.sum_mb() + heap_mb);
        self.daemons.stop_down_to(most_mb, &mut links);
        let permit = self.permits.give(unit, requirements);
        Ok(Room::Start(permit, links))
    }

    // The heaps of the busy daemons and of the permits that are out.
    fn firm_mb(&self) -> u64
        ensures value { result ≡ firm self.now }
        ensures most { result ≤ MAX_BUDGET_MB }
    {
        self.daemons.busy_mb() + self.permits.sum_mb()
    }

    /// Takes a daemon in that was started on a permit: it is reserved for the permit's unit, and the permit is spent. A permit
    /// that isn't out in this pool comes back with the link, and so do both where there is no memory. Then nothing changes.
    pub fn adopt(
        &mut self,
        alloc: Global,
        permit: Permit,
        link: L,
    ) -> Result<Reserved<L>, Unadopted<L>>
        requires { L.requirements link ≡ permit.requirements }
        ensures adopted { IfOk result (Spends L.requirements self.old self.new permit link) }
        ensures unadopted { OnErr result (self.new ≡ self.old) }
        ensures back { IfErr result (HandsBack self.old permit link) }
    {
        let Some(place) = self.permits.place_of(&permit) else {
            return Err(Unadopted::NotOut(permit, link));
        };
        let Ok(requirements) = permit.requirements().copy(alloc) else {
            return Err(Unadopted::NoMemory(permit, link));
        };
        match self.daemons.adopt(link, requirements, permit.unit()) {
            Ok(reserved) => {
                self.permits.spend(place, permit);
                Ok(reserved)
            }
            Err(link) => Err(Unadopted::NoMemory(permit, link)),
        }
    }

    /// Takes a permit back on which no daemon was started. One that isn't out in this pool changes nothing. It takes no memory.
    pub fn give_up(&mut self, permit: Permit)
        ensures { GivesUpOrNot self.old self.new permit }
    {
        self.permits.take_back(permit);
    }

    /// Takes a daemon back, as `Pool::release` does.
    pub fn release(&mut self, reserved: Reserved<L>) -> Option<L>
        requires { L.settled reserved.link ≡ true }
        ensures released { Releases L.requirements self.old.pool self.new.pool reserved result }
        ensures others { KeepsPermits self.old self.new }
    {
        self.daemons.release(reserved)
    }

    /// Takes note that a daemon failed its unit, as `Pool::fail` does.
    pub fn fail(&mut self, reserved: Reserved<L>) -> L
        requires { L.settled reserved.link ≡ false }
        ensures failed { FailsOrNot L.requirements self.old.pool self.new.pool reserved result }
        ensures others { KeepsPermits self.old self.new }
    {
        self.daemons.fail(reserved)
    }

    /// Gives the link of the idle daemon that was released first, as `Pool::stop_idle` does.
    pub fn stop_idle(&mut self) -> Option<L>
        ensures stopped { StopsOrNot self.old.pool self.new.pool result }
        ensures others { KeepsPermits self.old self.new }
    {
        self.daemons.stop_idle()
    }

    /// The heaps of the daemons that are busy or idle.
    pub fn held_mb(&self) -> u64
        ensures value { result ≡ held self.now.pool.events }
        ensures within { IsWithin self.now }
    {
        self.daemons.held_mb()
    }

    /// The heaps of the permits that are out.
    pub fn permitted_mb(&self) -> u64
        ensures value { result ≡ permitted self.now.permits }
        ensures within { IsWithin self.now }
    {
        self.permits.sum_mb()
    }

    /// The budget.
    pub fn budget_mb(&self) -> u64
        ensures value { result ≡ self.now.budget_mb }
        ensures most { result ≤ MAX_BUDGET_MB }
    {
        self.budget_mb
    }

    /// All that happened to daemons, in its order.
    pub fn events(&self) -> &[Event]
        ensures value { result.now ≡ self.now.pool.events }
        ensures sound { IsPool L.requirements self.now.pool }
        ensures within { IsWithin self.now }
        ensures limit { StaysWithin self.now.budget_mb self.now.pool.events }
    {
        self.daemons.events()
    }

    /// All that happened to daemons, once none is idle: at each moment those that were busy or idle had at most the budget together. It
    /// takes no memory.
    pub fn into_events(self) -> Vec<Event>
        requires { self.pool.idle ≡ [] }
        ensures value { result.items ≡ self.pool.events }
        ensures legal { IsLegal result.items }
        ensures none_idle { NoneIdle result.items }
        ensures limit { StaysWithin self.budget_mb result.items }
    {
        let BudgetPool {
            daemons,
            permits: _,
            budget_mb: _,
        } = self;
        daemons.into_events()
    }
}
